// Writing a schedule for fewer transponders than beams as its text.
ghost use Rattle.std.specs.Prelude.{◌≡◌, ◌++◌, ◌∷◌, [], IfOk, OnOk, decimal, map};
ghost use Rattle.bt_text.specs.Text.{ended};
ghost use Rattle.bt_trans.specs.PartText.{bound_line, downlink_word, length_line, part_mode_line, part_spelling};

use crate::least::total_of;
use crate::{Bound, PartMode, PartSchedule, SILENT};
use bt_frame::{Critical, OutOfMemory};
use bt_matrix::Dense;
use bt_text::number_text;
use std::alloc::Global;

/// The text of a schedule for that matrix: its length, what asks for it, its modes in a line each, and `end`. A silent uplink
/// beam is written `-`.
pub fn part_text(
    alloc: Global,
    matrix: &Dense,
    schedule: &PartSchedule,
) -> Result<Vec<u8>, OutOfMemory>
    ensures spelled { IfOk result (λ text. text.items ≡ part_spelling matrix.now schedule.now) }
{
    let mut text = Vec::new(alloc);
    write_part(alloc, matrix, schedule, &mut text)?;
    text.extend_from_slice(b"end\n")?;
    Ok(text)
}

// Appends the length, the bound and the modes.
fn write_part(
    alloc: Global,
    matrix: &Dense,
    schedule: &PartSchedule,
    text: &mut Vec<u8>,
) -> Result<(), OutOfMemory>
    ensures { OnOk result (text.new.items ≡ text.old.items ++ ended (length_line schedule.now.length
        ∷ bound_line matrix.now schedule.now.bound ∷ map part_mode_line schedule.now.modes)) }
{
    write_length(alloc, schedule.length, text)?;
    write_bound(alloc, matrix, schedule.bound, text)?;
    for mode in schedule.modes.as_slice() {
        write_mode(alloc, mode, text)?;
    }
    Ok(())
}

// Appends `length L`.
fn write_length(alloc: Global, slots: u32, text: &mut Vec<u8>) -> Result<(), OutOfMemory>
    ensures { OnOk result (text.new.items ≡ text.old.items ++ length_line slots ++ 10 ∷ []) }
{
    text.extend_from_slice(b"length")?;
    write_next(alloc, slots, text)?;
    text.push(b'\n')?;
    Ok(())
}

// Appends `bound row B`, `bound column B` or `bound total S`.
fn write_bound(
    alloc: Global,
    matrix: &Dense,
    bound: Bound,
    text: &mut Vec<u8>,
) -> Result<(), OutOfMemory>
    ensures { OnOk result (text.new.items ≡ text.old.items ++ bound_line matrix.now bound ++ 10 ∷ []) }
{
    let (name, number): (&[u8], _) = match bound {
        Bound::Line(Critical::Row(up)) => (b"bound row", u32::from(up.0)),
        Bound::Line(Critical::Column(down)) => (b"bound column", u32::from(down.0)),
        Bound::Total => (b"bound total", total_of(matrix)),
    };
    text.extend_from_slice(name)?;
    write_next(alloc, number, text)?;
    text.push(b'\n')?;
    Ok(())
}

// Appends `mode D P0 P1 ..`.
fn write_mode(alloc: Global, mode: &PartMode, text: &mut Vec<u8>) -> Result<(), OutOfMemory>
    ensures { OnOk result (text.new.items ≡ text.old.items ++ part_mode_line mode.now ++ 10 ∷ []) }
{
    text.extend_from_slice(b"mode")?;
    write_next(alloc, mode.duration, text)?;
    for down in mode.perm.as_slice() {
        write_downlink(alloc, *down, text)?;
    }
    text.push(b'\n')?;
    Ok(())
}

// Appends a downlink beam, or `-`, behind a space.
fn write_downlink(alloc: Global, down: u8, text: &mut Vec<u8>) -> Result<(), OutOfMemory>
    ensures { OnOk result (text.new.items ≡ text.old.items ++ 32 ∷ downlink_word down) }
{
    if down == SILENT {
        text.extend_from_slice(b" -")?;
        return Ok(());
    }
    write_next(alloc, u32::from(down), text)
}

// Appends one more number of a line, behind a space.
fn write_next(alloc: Global, number: u32, text: &mut Vec<u8>) -> Result<(), OutOfMemory>
    ensures { OnOk result (text.new.items ≡ text.old.items ++ 32 ∷ decimal number) }
{
    text.push(b' ')?;
    number_text(alloc, u64::from(number), text)
}
