// `carry NET JOURNAL NEWNET`.
ghost use Rattle.std.specs.Prelude.{◌≤◌, length};
ghost use Rattle.bt_frame.specs.declared.limits.TheConstants.{MOST_JOURNAL_BYTES, MOST_SUM};
ghost use Rattle.bt_outside.specs.Told.{Rose};
ghost use Rattle.bt_demand.specs.Traffic.{matrix_of, AreOfNetwork, HasSumsTo};
ghost use Rattle.bt_export.specs.declared.carry.Carried.TheVariants.{Demand as carried_demand};
ghost use Rattle.bt_export.specs.Carry.{AreBetween, HasSmallSums};
ghost use Rattle.bt_report.specs.Printing.{CameTo};
ghost use Rattle.bt_load.specs.Kinds.{network_file};
ghost use Rattle.bt_load.specs.Loaders.{Loads, file};
ghost use Rattle.bt_cli.specs.Carry.{PrintsCarried, PrintsCarry, carry_files};

use crate::fit::fitting_matrix;
use crate::look::{Looked, fault_stop, load_looked};
use bt_demand::Demand;
use bt_export::{Carried, carried_of_journal};
use bt_load::load_network;
use bt_look::compact_text;
use bt_net::Network;
use bt_outside::Files;
use bt_report::{DONE, Report, Stop};
use std::alloc::Global;

/// The journal with the fewest edits of the demand that the journal in a file comes to on the network in another, on the network
/// in a third, by the names of terminals.
pub fn tell_carry<F: Files>(
    alloc: Global,
    files: &mut F,
    net: &str,
    journal: &str,
    new: &str,
) -> Result<Report, Stop>
    ensures { CameTo (Loads (carry_files net.now journal.now new.now) (λ all. PrintsCarry all.0.0 all.0.1 all.1) (F.told files.old) (Rose (F.fault_count files.old) (F.fault_count files.new))) result }
{
    let looked = load_looked(alloc, files, net, journal)?;
    carry_to_file(alloc, files, looked, new)
}

/// That journal on the network in a file.
fn carry_to_file<F: Files>(
    alloc: Global,
    files: &mut F,
    looked: Looked,
    new: &str,
) -> Result<Report, Stop>
    requires short { length looked.bytes.items ≤ MOST_JOURNAL_BYTES }
    ensures { CameTo (Loads (file network_file new.now) (PrintsCarry looked.net looked.bytes.items) (F.told files.old) (Rose (F.fault_count files.old) (F.fault_count files.new))) result }
{
    let new = load_network(alloc, files, new)?;
    carry_report(alloc, looked, &new)
}

/// The text of it, where all are at hand.
#[tactic(auto, using(crate::proofs::CarriedPrinted::carried_came, crate::proofs::CarriedPrinted::fault_came))]
fn carry_report(alloc: Global, looked: Looked, new: &Network) -> Result<Report, Stop>
    requires short { length looked.bytes.items ≤ MOST_JOURNAL_BYTES }
    ensures { CameTo (PrintsCarry looked.net looked.bytes.items new.now) result }
{
    let Looked { net, bytes } = looked;
    // These are there for what holds of each network: it is sound.
    let _beams = net.beam_count();
    let _new_beams = new.beam_count();
    match carried_of_journal(alloc, &net, bytes, new) {
        Ok(carried) => carried_report(alloc, new, carried),
        Err(fault) => Err(fault_stop(alloc, fault)),
    }
}

/// The text of the demand there, or the report that names the first link that has no place.
fn carried_report(alloc: Global, new: &Network, carried: Carried) -> Result<Report, Stop>
    requires between { AreBetween new.now carried }
    requires sums { HasSmallSums MOST_SUM new.now carried }
    ensures { CameTo (PrintsCarried new.now carried) result }
{
    match carried {
        Carried::Demand(demand) => fitting_report(alloc, new, &demand),
        Carried::Gone(number) => Err(Stop::names(alloc, "T2", number)),
    }
}

/// The journal of a demand that fits the frame, or the report that names its heaviest line.
#[tactic(auto, using(crate::proofs::CarriedPrinted::overload_printed))]
fn fitting_report(alloc: Global, new: &Network, demand: &Demand) -> Result<Report, Stop>
    requires between { AreOfNetwork new.now demand.now }
    requires sums { HasSumsTo MOST_SUM (matrix_of new.now demand.now) }
    ensures { CameTo (PrintsCarried new.now (carried_demand demand.now)) result }
{
    let _matrix = fitting_matrix(alloc, new, demand)?;
    let text = compact_text(alloc, new, demand)?;
    Ok(Report { text, status: DONE })
}
