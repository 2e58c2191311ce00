// `check MATRIX MODES`.
ghost use Rattle.std.specs.Prelude.{◌≡◌, None, length};
ghost use Rattle.bt_outside.specs.Told.{Rose};
ghost use Rattle.bt_matrix.specs.Traffic.{IsLine};
ghost use Rattle.bt_load.specs.Kinds.{schedule_file};
ghost use Rattle.bt_load.specs.Loaders.{Loads, file};
ghost use Rattle.bt_cli.specs.Check.{Judges, schedule_files, verdict_status};
ghost use Rattle.bt_report.specs.Printing.{CameTo};
ghost use Rattle.bt_timeline.specs.Verdicts.{CanName};
ghost use Rattle.bt_demand.specs.Verdict.{IsVerdict};

use bt_demand::{Verdict, check_modes};
use bt_frame::Schedule;
use bt_load::{load_matrix, load_schedule};
use bt_matrix::{Dense, Traffic};
use bt_outside::Files;
use bt_report::{DONE, NOT_GOOD, Report, Stop};
use bt_timeline::verdict_text;
use std::alloc::Global;

/// The verdict on the schedule in a file, for the matrix in another.
pub fn check_files<F: Files>(
    alloc: Global,
    files: &mut F,
    matrix: &str,
    modes: &str,
) -> Result<Report, Stop>
    ensures { CameTo (Loads (schedule_files matrix.now modes.now) (λ both. Judges both.0 both.1) (F.told files.old) (Rose (F.fault_count files.old) (F.fault_count files.new))) result }
{
    let matrix = load_matrix(alloc, files, matrix)?;
    check_modes_file(alloc, files, &matrix, modes)
}

fn check_modes_file<F: Files>(
    alloc: Global,
    files: &mut F,
    matrix: &Dense,
    modes: &str,
) -> Result<Report, Stop>
    ensures { CameTo (Loads (file (schedule_file (length matrix.now)) modes.now) (Judges matrix.now) (F.told files.old) (Rose (F.fault_count files.old) (F.fault_count files.new))) result }
{
    let schedule = load_schedule(alloc, files, modes, matrix.size())?;
    judge(alloc, matrix, &schedule)
}

/// The line of the verdict on the schedule.
fn judge(alloc: Global, matrix: &Dense, schedule: &Schedule) -> Result<Report, Stop>
    requires { IsLine matrix.now schedule.now.critical }
    ensures { CameTo (Judges matrix.now schedule.now) result }
{
    let verdict = verdict_on_modes(matrix, schedule);
    let mut text = Vec::new(alloc);
    verdict_text(alloc, None, &verdict, &mut text)?;
    let status = status_of(&verdict);
    Ok(Report { text, status })
}

/// The verdict, which names no terminals.
#[tactic(auto, using(crate::proofs::Named::verdict_names_none))]
fn verdict_on_modes(matrix: &Dense, schedule: &Schedule) -> Verdict
    requires { IsLine matrix.now schedule.now.critical }
    ensures verdict { IsVerdict matrix.now schedule.now result }
    ensures names { CanName None result }
{
    check_modes(matrix, schedule)
}

/// The status that goes with a verdict.
pub(crate) fn status_of(verdict: &Verdict) -> u8
    ensures { result ≡ verdict_status verdict.now }
{
    match verdict {
        Verdict::Good => DONE,
        _ => NOT_GOOD,
    }
}
