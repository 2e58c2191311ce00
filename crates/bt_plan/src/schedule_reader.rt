// The text of a switching schedule: its length, its critical line, its modes in a line each, and `end`.
ghost use Rattle.std.specs.Prelude.{◌≡◌, ◌≤◌, ◌<◌, ◌-◌, ◌==◌, length, Some, Ok, Err, IfOk, if◌then◌else◌};
ghost use Rattle.bt_frame.specs.declared.limits.TheConstants.{MOST_BEAMS, MOST_TEXT_BYTES};
ghost use Rattle.bt_text.specs.Text.{words, lines};
ghost use Rattle.bt_plan.specs.declared.text_fault.TextCode.TheVariants.{M1};
ghost use Rattle.bt_frame.specs.Critical.{IsOfBeams};
ghost use Rattle.bt_text.specs.declared.fault.LineFault.TheVariants.{At};
ghost use Rattle.bt_text.specs.Reading.{or_fault, Gives};
ghost use Rattle.bt_plan.specs.LineNumbers.{numbers_to};
ghost use Rattle.bt_plan.specs.ScheduleText.{length_in, line_in, critical_in, mode_in, modes_in, critical_and_modes, schedule_of};

use crate::{TextCode, TextFault};
use arrayvec::ArrayVec;
use bt_frame::{
    BeamNo, Columns, Critical, LAST_BEAM, MOST_BEAMS, MOST_TEXT_SLOTS, Mode, Modes, OutOfMemory,
    Schedule,
};
use bt_text::{WordReader, fault_at, first_line, is_word};
use std::alloc::Global;

/// The schedule for so many beams that a text spells, or the first line with a fault.
pub fn read_schedule(alloc: Global, size: u32, bytes: &[u8]) -> Result<Schedule, TextFault>
    requires few { size ≤ MOST_BEAMS }
    requires short { length bytes.now ≤ MOST_TEXT_BYTES }
    ensures reading { Gives (λ schedule. schedule) result (schedule_of size bytes.now) }
    ensures critical { IfOk result (λ schedule. IsOfBeams size schedule.critical) }
{
    let Some((line, rest)) = first_line(bytes) else {
        return Err(fault(1));
    };
    let slots = read_length(TextCode::M1, 1, line)?;
    read_critical_and_modes(alloc, size, slots, rest)
}

// What is wrong with a schedule's text is said by its line alone.
fn fault(line: u32) -> TextFault
    ensures { result ≡ At M1 line }
{
    fault_at(TextCode::M1, line)
}

/// The length that line `at` says, or the fault of that code.
pub(crate) fn read_length(code: TextCode, at: u32, line: &[u8]) -> Result<u32, TextFault>
    ensures { Gives (λ slots. slots) result (or_fault (code, at) (length_in (words line.now))) }
{
    slots_of_words(WordReader::of(line)).ok_or(fault_at(code, at))
}

fn slots_of_words(mut words: WordReader<'_>) -> Option<u32>
    ensures { result ≡ length_in words.entry }
{
    if !words.next_is(b"length") {
        return None;
    }
    let slots = words.number_to(MOST_TEXT_SLOTS)?;
    if words.is_done() { Some(slots) } else { None }
}

// The critical line in line 2, and the modes in the lines that follow.
fn read_critical_and_modes(
    alloc: Global,
    size: u32,
    slots: u32,
    text: &[u8],
) -> Result<Schedule, TextFault>
    requires few { size ≤ MOST_BEAMS }
    requires short { length text.now ≤ MOST_TEXT_BYTES }
    ensures { Gives (λ schedule. schedule) result (critical_and_modes size slots (lines text.now)) }
{
    let Some((line, rest)) = first_line(text) else {
        return Err(fault(2));
    };
    let critical = read_critical(TextCode::M1, 2, size, line)?;
    let modes = read_modes(alloc, size, rest)?;
    Ok(Schedule {
        length: slots,
        critical,
        modes,
    })
}

/// The critical line that line `at` names, or the fault of that code.
pub(crate) fn read_critical(
    code: TextCode,
    at: u32,
    size: u32,
    line: &[u8],
) -> Result<Critical, TextFault>
    requires { size ≤ MOST_BEAMS }
    ensures { Gives (λ critical. critical) result
        (or_fault (code, at) (critical_in size (words line.now))) }
{
    critical_of_words(size, WordReader::of(line)).ok_or(fault_at(code, at))
}

fn critical_of_words(size: u32, mut words: WordReader<'_>) -> Option<Critical>
    requires { size ≤ MOST_BEAMS }
    ensures { result ≡ critical_in size words.entry }
{
    if !words.next_is(b"critical") {
        return None;
    }
    let kind = words.next()?;
    let beam = words.number_to(LAST_BEAM)?;
    if words.is_done() {
        matrix_line(size, kind, beam)
    } else {
        None
    }
}

// The row or the column of that beam.
fn matrix_line(size: u32, kind: &[u8], beam: u32) -> Option<Critical>
    requires { size ≤ MOST_BEAMS }
    ensures { result ≡ line_in size kind.now beam }
{
    if beam >= size {
        return None;
    }
    let beam = BeamNo(beam as u8);
    if is_word(kind, b"row") {
        Some(Critical::Row(beam))
    } else if is_word(kind, b"column") {
        Some(Critical::Column(beam))
    } else {
        None
    }
}

// The modes, the first of them in line 3, then `end` and nothing behind it.
fn read_modes(alloc: Global, size: u32, text: &[u8]) -> Result<Modes, TextFault>
    requires few { size ≤ MOST_BEAMS }
    requires short { length text.now ≤ MOST_TEXT_BYTES }
    ensures { Gives (λ modes. modes) result (modes_in size 3 (lines text.now)) }
{
    let mut modes = Vec::new(alloc);
    let mut rest = text;
    let mut at = 3;
    while let Some((line, after)) = first_line(rest) {
        if is_word(line, b"end") {
            return read_end(modes, at + 1, after);
        }
        modes.push(read_mode(alloc, TextCode::M1, size, at, line)?)?;
        rest = after;
        at += 1;
    }
    Err(fault(at))
}

// The modes, if nothing stands behind the newline of `end`.
fn read_end(modes: Vec<Mode>, at: u32, rest: &[u8]) -> Result<Modes, TextFault>
    requires { length modes.items ≤ MOST_TEXT_BYTES }
    ensures { Gives (λ modes. modes) result
        (if length rest.now == 0 then Ok modes.items else Err (M1, at)) }
{
    if rest.is_empty() {
        Ok(Modes::of(modes))
    } else {
        Err(fault(at))
    }
}

/// The mode that line `at` says, or the fault of that code.
pub(crate) fn read_mode(
    alloc: Global,
    code: TextCode,
    size: u32,
    at: u32,
    line: &[u8],
) -> Result<Mode, TextFault>
    requires { size ≤ MOST_BEAMS }
    ensures { Gives (λ mode. mode) result (or_fault (code, at) (mode_in size (words line.now))) }
{
    mode_of_words(alloc, size, WordReader::of(line))?.ok_or(fault_at(code, at))
}

// The mode that the words say.
fn mode_of_words(
    alloc: Global,
    size: u32,
    mut words: WordReader<'_>,
) -> Result<Option<Mode>, OutOfMemory>
    requires { size ≤ MOST_BEAMS }
    ensures { IfOk result (λ found. found ≡ mode_in size words.entry) }
{
    if !words.next_is(b"mode") {
        return Ok(None);
    }
    let Some(duration) = words.number_to(MOST_TEXT_SLOTS) else {
        return Ok(None);
    };
    let Some(perm) = read_columns(alloc, size, words)? else {
        return Ok(None);
    };
    Ok(Some(Mode { duration, perm }))
}

// The downlinks that the words are, each at most 255, one for each uplink beam.
fn read_columns(
    alloc: Global,
    size: u32,
    mut words: WordReader<'_>,
) -> Result<Option<Columns>, OutOfMemory>
    requires { size ≤ MOST_BEAMS }
    ensures { IfOk result (λ found. found ≡ numbers_to 255 size words.entry) }
{
    let mut columns = ArrayVec::<u8, MOST_BEAMS>::new();
    for _ in 0..size {
        let Some(down) = words.number_to(255) else {
            return Ok(None);
        };
        columns.push(down as u8);
    }
    if words.is_done() {
        Ok(Some(Columns::from_slice(alloc, columns.as_slice())?))
    } else {
        Ok(None)
    }
}
