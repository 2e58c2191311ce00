// `capacity NET TRAFFIC`.
ghost use Rattle.std.specs.Prelude.{◌≡◌};
ghost use Rattle.bt_outside.specs.Told.{Rose};
ghost use Rattle.bt_demand.specs.Traffic.{matrix_of};
ghost use Rattle.bt_report.specs.Printing.{CameTo};
ghost use Rattle.bt_load.specs.Loaders.{Loads};
ghost use Rattle.bt_cli.specs.Capacity.{TellsCapacity};
ghost use Rattle.bt_cli.specs.Fitting.{asked_files};

use crate::asked::{Asked, load_asked};
use bt_look::capacity_text;
use bt_outside::Files;
use bt_report::{DONE, Report, Stop};
use std::alloc::Global;

/// What the demand in a file asks of each beam of the network in another, what is free there, and the room between each two.
pub fn tell_capacity<F: Files>(
    alloc: Global,
    files: &mut F,
    net: &str,
    traffic: &str,
) -> Result<Report, Stop>
    ensures { CameTo (Loads (asked_files net.now traffic.now) (λ asked. TellsCapacity asked.0 asked.1) (F.told files.old) (Rose (F.fault_count files.old) (F.fault_count files.new))) result }
{
    let asked = load_asked(alloc, files, net, traffic)?;
    capacity_report(alloc, &asked)
}

/// The text of it, where both are at hand.
fn capacity_report(alloc: Global, asked: &Asked) -> Result<Report, Stop>
    requires matrix { asked.now.matrix ≡ matrix_of asked.now.net asked.now.demand }
    ensures { CameTo (TellsCapacity asked.now.net asked.now.demand) result }
{
    let text = capacity_text(alloc, &asked.net, &asked.matrix)?;
    Ok(Report { text, status: DONE })
}
