// `trans K MATRIX`.
ghost use Rattle.std.specs.Prelude.{◌≤◌, OnOk, IfErr};
ghost use Rattle.bt_frame.specs.declared.limits.TheConstants.{MOST_SUM};
ghost use Rattle.bt_outside.specs.Told.{Rose};
ghost use Rattle.bt_trans.specs.Part.{total_slots};
ghost use Rattle.bt_report.specs.Printing.{CameTo};
ghost use Rattle.bt_report.specs.Report.{StopIs};
ghost use Rattle.bt_load.specs.Loaders.{Loads};
ghost use Rattle.bt_cli.specs.Trans.{NamesSize, PrintsPart, Suits, suited_file};

use crate::number_word::Transponders;
use bt_frame::MOST_SUM;
use bt_load::load_matrix;
use bt_matrix::{Dense, Traffic};
use bt_outside::Files;
use bt_report::{DONE, FAULTY_TEXT, Report, Stop};
use bt_trans::{MOST_PART_BEAMS, part_schedule, part_text};
use bt_words::Word;
use std::alloc::Global;

/// A schedule of the least length for the matrix in a file, with so many transponders.
pub fn plan_part<F: Files>(
    alloc: Global,
    files: &mut F,
    transponders: Transponders,
    matrix: &str,
) -> Result<Report, Stop>
    ensures { CameTo (Loads (suited_file transponders.count matrix.now) (PrintsPart transponders.count) (F.told files.old) (Rose (F.fault_count files.old) (F.fault_count files.new))) result }
{
    let matrix = load_matrix(alloc, files, matrix)?;
    test_size(alloc, transponders.count, &matrix)?;
    part_report(alloc, transponders.count, &matrix)
}

/// The transponders suit the matrix, or the report that its size is at fault.
fn test_size(alloc: Global, transponders: u32, matrix: &Dense) -> Result<(), Stop>
    ensures suits { OnOk result (Suits transponders matrix.now) }
    ensures stops { IfErr result (StopIs (NamesSize transponders matrix.now)) }
{
    let size = matrix.size();
    if transponders <= size && size <= MOST_PART_BEAMS {
        return Ok(());
    }
    let words = [Word::Text("fault"), Word::Text("X3")];
    Err(Stop::says(alloc, &words, FAULTY_TEXT))
}

/// The text of a schedule for the matrix.
fn part_report(alloc: Global, transponders: u32, matrix: &Dense) -> Result<Report, Stop>
    requires some { 1 ≤ transponders }
    requires suits { Suits transponders matrix.now }
    requires total { total_slots matrix.now ≤ MOST_SUM }
    ensures { CameTo (PrintsPart transponders matrix.now) result }
{
    let schedule = part_schedule(alloc, matrix, transponders)?;
    let text = part_text(alloc, matrix, &schedule)?;
    Ok(Report { text, status: DONE })
}
