// `plan NET TRAFFIC`.
ghost use Rattle.std.specs.Prelude.{◌≡◌};
ghost use Rattle.bt_outside.specs.Told.{Rose};
ghost use Rattle.bt_demand.specs.Traffic.{matrix_of, AreOfNetwork};
ghost use Rattle.bt_report.specs.Printing.{CameTo};
ghost use Rattle.bt_load.specs.Loaders.{Loads};
ghost use Rattle.bt_cli.specs.Fitting.{Fits, asked_files};
ghost use Rattle.bt_cli.specs.Plans.{PrintsPlan};

use crate::asked::load_asked;
use bt_cut::make_plan_for;
use bt_demand::Demand;
use bt_frame::EditionNo;
use bt_matrix::Dense;
use bt_net::Network;
use bt_outside::Files;
use bt_plan::plan_text;
use bt_report::{DONE, Report, Stop};
use std::alloc::Global;

/// The edition of a plan that is made for a demand alone.
pub(crate) const EDITION: EditionNo = EditionNo(1);

/// A plan of the least length for the demand in a file, on the network in another.
pub fn plan_files<F: Files>(
    alloc: Global,
    files: &mut F,
    net: &str,
    traffic: &str,
) -> Result<Report, Stop>
    ensures { CameTo (Loads (asked_files net.now traffic.now) (λ asked. PrintsPlan asked.0 asked.1) (F.told files.old) (Rose (F.fault_count files.old) (F.fault_count files.new))) result }
{
    let asked = load_asked(alloc, files, net, traffic)?;
    plan_report(alloc, &asked.net, &asked.demand, &asked.matrix)
}

/// The text of a plan for a demand that fits, whose matrix is at hand.
fn plan_report(
    alloc: Global,
    net: &Network,
    demand: &Demand,
    matrix: &Dense,
) -> Result<Report, Stop>
    requires terminals { AreOfNetwork net.now demand.now }
    requires fits { Fits net.now demand.now }
    requires matrix { matrix.now ≡ matrix_of net.now demand.now }
    ensures { CameTo (PrintsPlan net.now demand.now) result }
{
    // This is there for what holds of each network: its frame has at most `MOST_SLOTS` slots.
    let _slots = net.slots();
    let plan = make_plan_for(alloc, net, demand, matrix, EDITION)?;
    // And this, of the bursts of each plan: they are in order.
    let _bursts = plan.bursts.as_slice();
    let text = plan_text(alloc, net, &plan)?;
    Ok(Report { text, status: DONE })
}
