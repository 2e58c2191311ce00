// The text of a schedule for fewer transponders than beams, which is read whatever is wrong with the schedule.
use bt_frame::{BeamNo, Columns, Critical};
use bt_sheet::{CaseFault, Result, byte_of, number_of};
use bt_trans::{Bound, PartMode, PartModes, PartSchedule, SILENT};
use std::alloc::Global;

/// The most modes of a schedule, and the most values of a mode.
const MOST_READ: usize = 4096;

/// The schedule that a text spells. A value of a mode is `-` for silence, or any number up to 255.
pub fn part_from(alloc: Global, bytes: &[u8]) -> Result<PartSchedule> {
    match str::from_utf8(bytes) {
        Ok(text) => part_of(alloc, text),
        Err(_fault) => Err(CaseFault("no text")),
    }
}

fn part_of(alloc: Global, text: &str) -> Result<PartSchedule> {
    let lines: Vec<&str> = text.split('\n').collect(alloc)?;
    part_of_lines(alloc, &lines)
}

/// The schedule of its length, its bound, its modes and `end`, each in a line that a newline ends.
fn part_of_lines(alloc: Global, lines: &[&str]) -> Result<PartSchedule> {
    match *lines {
        [length, bound, ref modes @ .., "end", ""] => Ok(PartSchedule {
            length: length_of(length)?,
            bound: bound_of(bound)?,
            modes: modes_of(alloc, modes)?,
        }),
        _ => Err(CaseFault("no schedule")),
    }
}

/// The slots of `length L`.
fn length_of(line: &str) -> Result<u32> {
    match line.strip_prefix("length ") {
        Some(slots) => number_of(slots),
        None => Err(CaseFault("no length")),
    }
}

/// What `bound row B`, `bound column B` or `bound total S` names. The total is a number, whichever it is.
fn bound_of(line: &str) -> Result<Bound> {
    if let Some(up) = line.strip_prefix("bound row ") {
        return Ok(Bound::Line(Critical::Row(BeamNo(byte_of(up)?))));
    }
    if let Some(down) = line.strip_prefix("bound column ") {
        return Ok(Bound::Line(Critical::Column(BeamNo(byte_of(down)?))));
    }
    match line.strip_prefix("bound total ") {
        Some(total) => total_of(total),
        None => Err(CaseFault("no bound")),
    }
}

fn total_of(total: &str) -> Result<Bound> {
    number_of(total)?;
    Ok(Bound::Total)
}

fn modes_of(alloc: Global, lines: &[&str]) -> Result<PartModes> {
    let mut modes = Vec::new(alloc);
    for line in lines {
        modes.push(mode_of(alloc, line)?)?;
    }
    if MOST_READ < modes.len() {
        return Err(CaseFault("too many modes"));
    }
    Ok(PartModes::of(modes))
}

/// The mode of `mode D P0 P1 ..`.
fn mode_of(alloc: Global, line: &str) -> Result<PartMode> {
    let words: Vec<&str> = line.split(' ').collect(alloc)?;
    mode_of_words(alloc, &words)
}

fn mode_of_words(alloc: Global, words: &[&str]) -> Result<PartMode> {
    match *words {
        ["mode", duration, ref values @ ..] => Ok(PartMode {
            duration: number_of(duration)?,
            perm: columns_of(alloc, values)?,
        }),
        _ => Err(CaseFault("no mode")),
    }
}

fn columns_of(alloc: Global, words: &[&str]) -> Result<Columns> {
    let mut columns = Vec::new(alloc);
    for word in words {
        columns.push(column_of(word)?)?;
    }
    if MOST_READ < columns.len() {
        return Err(CaseFault("too many values"));
    }
    Ok(Columns::of(columns))
}

/// The downlink beam that the word names, or silence.
fn column_of(word: &str) -> Result<u8> {
    if word == "-" {
        Ok(SILENT)
    } else {
        byte_of(word)
    }
}
