// `edits NET JOURNAL TRAFFIC [DESK]`.
ghost use Rattle.std.specs.Prelude.{◌≡◌, ◌≤◌, length};
ghost use Rattle.bt_frame.specs.declared.limits.TheConstants.{MOST_JOURNAL_BYTES};
ghost use Rattle.bt_outside.specs.Told.{Rose};
ghost use Rattle.bt_demand.specs.Traffic.{AreOfNetwork};
ghost use Rattle.bt_report.specs.Printing.{CameTo};
ghost use Rattle.bt_load.specs.Loaders.{Loads};
ghost use Rattle.bt_cli.specs.Edits.{PrintsEdits, edits_files};
ghost use Rattle.bt_cli.specs.Fitting.{fitting_file};

use crate::asked::load_fitting;
use crate::look::{Looked, fault_stop, load_looked};
use bt_demand::Demand;
use bt_export::edits_of_journal;
use bt_outside::Files;
use bt_report::{DONE, Report, Stop};
use bt_script::DeskNo;
use std::alloc::Global;

/// The block in which a desk brings the demand of the journal in a file, on the network in another, to the demand in a third.
pub fn tell_edits<F: Files>(
    alloc: Global,
    files: &mut F,
    net: &str,
    journal: &str,
    traffic: &str,
    desk: DeskNo,
) -> Result<Report, Stop>
    ensures { CameTo (Loads (edits_files net.now journal.now traffic.now) (λ all. PrintsEdits desk all.0.0 all.0.1 all.1) (F.told files.old) (Rose (F.fault_count files.old) (F.fault_count files.new))) result }
{
    let looked = load_looked(alloc, files, net, journal)?;
    edits_to_file(alloc, files, looked, traffic, desk)
}

/// The block that brings it to the demand in a file.
fn edits_to_file<F: Files>(
    alloc: Global,
    files: &mut F,
    looked: Looked,
    traffic: &str,
    desk: DeskNo,
) -> Result<Report, Stop>
    requires short { length looked.bytes.items ≤ MOST_JOURNAL_BYTES }
    ensures { CameTo (Loads (fitting_file looked.net traffic.now) (PrintsEdits desk looked.net looked.bytes.items) (F.told files.old) (Rose (F.fault_count files.old) (F.fault_count files.new))) result }
{
    let fitting = load_fitting(alloc, files, &looked.net, traffic)?;
    edits_report(alloc, looked, desk, &fitting.0)
}

/// The text of the block, where all are at hand.
fn edits_report(alloc: Global, looked: Looked, desk: DeskNo, want: &Demand) -> Result<Report, Stop>
    requires short { length looked.bytes.items ≤ MOST_JOURNAL_BYTES }
    requires terminals { AreOfNetwork looked.net want.now }
    ensures { CameTo (PrintsEdits desk looked.net looked.bytes.items want.now) result }
{
    let Looked { net, bytes } = looked;
    // This is there for what holds of each network: it is sound.
    let _beams = net.beam_count();
    match edits_of_journal(alloc, &net, bytes, desk, want) {
        Ok(text) => Ok(Report { text, status: DONE }),
        Err(fault) => Err(fault_stop(alloc, fault)),
    }
}
