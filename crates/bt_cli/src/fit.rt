// Does a demand fit the slots of a frame?
ghost use Rattle.std.specs.Prelude.{◌≡◌, IfErr, IfOk, OnOk};
ghost use Rattle.bt_demand.specs.Traffic.{matrix_of, AreOfNetwork, HasSumsTo};
ghost use Rattle.bt_report.specs.declared.status.TheConstants.{FAULTY_TEXT};
ghost use Rattle.bt_report.specs.Report.{StopIs};
ghost use Rattle.bt_cli.specs.Fitting.{overload_words, Fits, NamesOverload};
ghost use Rattle.bt_report.specs.Outcome.{Says};

use bt_demand::{Demand, traffic_of};
use bt_frame::Critical;
use bt_matrix::{Dense, MOST_SUM, Traffic};
use bt_net::Network;
use bt_report::{FAULTY_TEXT, Stop};
use bt_words::Word;
use std::alloc::Global;

/// The matrix of a demand that fits the frame, or the report that names its heaviest line.
pub fn fitting_matrix(alloc: Global, net: &Network, demand: &Demand) -> Result<Dense, Stop>
    requires terminals { AreOfNetwork net.now demand.now }
    requires sums { HasSumsTo MOST_SUM (matrix_of net.now demand.now) }
    ensures matrix { IfOk result (λ matrix. matrix ≡ matrix_of net.now demand.now) }
    ensures fits { OnOk result (Fits net.now demand.now) }
    ensures stops { IfErr result (StopIs (NamesOverload net.now demand.now)) }
{
    let matrix = traffic_of(alloc, net, demand)?;
    let (line, sum) = matrix.heaviest();
    if sum <= net.slots() {
        return Ok(matrix);
    }
    Err(overload_stop(alloc, line, sum))
}

/// The report that names the heaviest line of a demand that does not fit.
fn overload_stop(alloc: Global, line: Critical, sum: u32) -> Stop
    ensures { StopIs (Says (overload_words line sum) FAULTY_TEXT) result }
{
    let (name, beam) = match line {
        Critical::Row(up) => ("row", up),
        Critical::Column(down) => ("column", down),
    };
    let beam = Word::number(u32::from(beam.0));
    let words = [
        Word::Text("fault"),
        Word::Text("T6"),
        Word::Text(name),
        beam,
        Word::number(sum),
    ];
    Stop::says(alloc, &words, FAULTY_TEXT)
}
