// Writing a switching schedule as its text.
ghost use Rattle.std.specs.Prelude.{◌≡◌, ◌++◌, ◌∷◌, [], IfOk, OnOk, decimal, map, length};
ghost use Rattle.bt_text.specs.Text.{ended};
ghost use Rattle.bt_plan.specs.ScheduleSpelling.{critical_line, length_line, mode_line, schedule_spelling};

use bt_frame::{Critical, Mode, OutOfMemory, Schedule};
use bt_text::number_text;
use std::alloc::Global;

/// The text of a switching schedule, as `read_schedule` reads it.
pub fn schedule_text(alloc: Global, schedule: &Schedule) -> Result<Vec<u8>, OutOfMemory>
    ensures spelled { IfOk result (λ text. text.items ≡ schedule_spelling schedule.now) }
{
    let mut text = Vec::new(alloc);
    write_schedule(alloc, schedule, &mut text)?;
    text.extend_from_slice(b"end\n")?;
    Ok(text)
}

// Appends the length, the critical line and the modes.
pub(crate) fn write_schedule(
    alloc: Global,
    schedule: &Schedule,
    text: &mut Vec<u8>,
) -> Result<(), OutOfMemory>
    ensures { OnOk result (text.new.items ≡ text.old.items ++ ended (length_line schedule.now.length
        ∷ critical_line schedule.now.critical ∷ map mode_line schedule.now.modes)) }
{
    write_length(alloc, schedule.length, text)?;
    write_critical(alloc, schedule.critical, text)?;
    for mode in schedule.modes.as_slice() {
        write_mode(alloc, mode, text)?;
    }
    Ok(())
}

// Appends `length L`.
fn write_length(alloc: Global, slots: u32, text: &mut Vec<u8>) -> Result<(), OutOfMemory>
    ensures { OnOk result (text.new.items ≡ text.old.items ++ length_line slots ++ 10 ∷ []) }
{
    text.extend_from_slice(b"length")?;
    write_next(alloc, u64::from(slots), text)?;
    text.push(b'\n')?;
    Ok(())
}

// Appends `critical row B` or `critical column B`.
fn write_critical(alloc: Global, critical: Critical, text: &mut Vec<u8>) -> Result<(), OutOfMemory>
    ensures { OnOk result (text.new.items ≡ text.old.items ++ critical_line critical ++ 10 ∷ []) }
{
    let (name, beam): (&[u8], _) = match critical {
        Critical::Row(up) => (b"critical row", up),
        Critical::Column(down) => (b"critical column", down),
    };
    text.extend_from_slice(name)?;
    write_next(alloc, u64::from(beam.0), text)?;
    text.push(b'\n')?;
    Ok(())
}

/// Appends the line of a mode: `mode D P0 P1 ..`.
pub fn write_mode(alloc: Global, mode: &Mode, text: &mut Vec<u8>) -> Result<(), OutOfMemory>
    ensures added { OnOk result (text.new.items ≡ text.old.items ++ mode_line mode.now ++ 10 ∷ []) }
{
    text.extend_from_slice(b"mode")?;
    write_next(alloc, u64::from(mode.duration), text)?;
    for down in mode.perm.as_slice() {
        write_next(alloc, u64::from(*down), text)?;
    }
    text.push(b'\n')?;
    Ok(())
}

// Appends one more number of a line, behind a space.
pub(crate) fn write_next(alloc: Global, number: u64, text: &mut Vec<u8>) -> Result<(), OutOfMemory>
    ensures { OnOk result (text.new.items ≡ text.old.items ++ 32 ∷ decimal number) }
{
    text.push(b' ')?;
    number_text(alloc, number, text)
}
