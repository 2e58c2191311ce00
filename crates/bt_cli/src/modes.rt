// `modes MATRIX`.
ghost use Rattle.bt_outside.specs.Told.{Rose};
ghost use Rattle.bt_report.specs.Printing.{CameTo};
ghost use Rattle.bt_load.specs.Kinds.{matrix_file};
ghost use Rattle.bt_load.specs.Loaders.{Loads, file};
ghost use Rattle.bt_cli.specs.Modes.{PrintsSchedule};

use bt_load::load_matrix;
use bt_matrix::Dense;
use bt_outside::Files;
use bt_plan::schedule_text;
use bt_report::{DONE, Report, Stop};
use std::alloc::Global;

/// A schedule of the least length for the matrix in a file.
pub fn plan_modes<F: Files>(alloc: Global, files: &mut F, matrix: &str) -> Result<Report, Stop>
    ensures { CameTo (Loads (file matrix_file matrix.now) PrintsSchedule (F.told files.old) (Rose (F.fault_count files.old) (F.fault_count files.new))) result }
{
    let matrix = load_matrix(alloc, files, matrix)?;
    schedule_report(alloc, &matrix)
}

/// The text of a schedule for the matrix.
fn schedule_report(alloc: Global, matrix: &Dense) -> Result<Report, Stop>
    ensures { CameTo (PrintsSchedule matrix.now) result }
{
    let schedule = bt_modes::schedule(alloc, matrix)?;
    let text = schedule_text(alloc, &schedule)?;
    Ok(Report { text, status: DONE })
}
