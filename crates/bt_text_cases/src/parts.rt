// The lines of schedules for fewer transponders than beams. `docs/cases.md` says what they mean.
use crate::drawn::put_drawn;
use crate::part_text::part_from;
use bt_matrix::Dense;
use bt_plan::read_matrix;
use bt_sheet::{CaseFault, Result, Shelf, number_of};
use bt_trans::{PartSchedule, PartVerdict, check_part};
use std::alloc::Global;

/// Shows the verdict on a schedule, or that the schedules of drawn demands are good; false where the words are another
/// line.
pub fn show_parts(alloc: Global, shelf: &Shelf, words: &[&str], out: &mut String) -> Result<bool> {
    match *words {
        ["part", count, matrix, modes] => put_part(alloc, shelf, [count, matrix, modes], out)?,
        ["parts", beams, count, number] => put_parts(alloc, [beams, count, number], out)?,
        _ => return Ok(false),
    }
    Ok(true)
}

/// Appends that the schedules of so many drawn demands are good.
fn put_parts(alloc: Global, words: [&str; 3], out: &mut String) -> Result<()> {
    let [beams, count, number] = words;
    let (beams, count, number) = (number_of(beams)?, number_of(count)?, number_of(number)?);
    put_drawn(alloc, beams, count, number, out)
}

/// Appends the verdict on the schedule of a text.
fn put_part(alloc: Global, shelf: &Shelf, words: [&str; 3], out: &mut String) -> Result<()> {
    let [count, matrix, modes] = words;
    let k = number_of(count)?;
    let matrix = matrix_from(alloc, shelf.text(matrix)?)?;
    let schedule = part_from(alloc, shelf.text(modes)?)?;
    put_verdict(verdict_of(&matrix, k, &schedule)?, out)
}

/// The matrix of a text that is one.
fn matrix_from(alloc: Global, bytes: &[u8]) -> Result<Dense> {
    match read_matrix(alloc, bytes) {
        Ok(matrix) => Ok(matrix),
        Err(_fault) => Err(CaseFault("no matrix")),
    }
}

/// The verdict on a schedule for `k` connections at once.
fn verdict_of(matrix: &Dense, k: u32, schedule: &PartSchedule) -> Result<PartVerdict> {
    if k == 0 {
        return Err(CaseFault("no connections"));
    }
    Ok(check_part(matrix, k, schedule))
}

fn put_verdict(verdict: PartVerdict, out: &mut String) -> Result<()> {
    match verdict {
        PartVerdict::Good => out.push_str(">good\n")?,
        PartVerdict::Q1 { mode } => write!(out, ">Q1 {mode}\n")?,
        PartVerdict::Q2 { mode } => write!(out, ">Q2 {mode}\n")?,
        PartVerdict::Q3 { mode } => write!(out, ">Q3 {mode}\n")?,
        PartVerdict::Q4 { sum, length } => write!(out, ">Q4 {sum} {length}\n")?,
        PartVerdict::Q5 { least } => write!(out, ">Q5 {least}\n")?,
        PartVerdict::Q6 {
            up,
            down,
            want,
            have,
        } => write!(out, ">Q6 {} {} {want} {have}\n", up.0, down.0)?,
    }
    Ok(())
}
