// What is wrong with a line of a plan, of a schedule or of a matrix, where its words have a form.
use crate::bytes::{bytes_at, number_at, word_of};
use crate::cause::{Cause, add_other_line};
use crate::fault::Fault;
use bt_text::is_word;

/// Finds out whether a line stands where the text is over.
pub fn find_behind_end(fault: &Fault<'_>, cause: &mut Cause) {
    match fault.letter {
        b'P' | b'M' if is_word(line_above(fault), b"end") => {
            cause.say("nothing may stand behind the line 'end'");
        }
        b'X' if fault.beams > 0 && u64::from(fault.at) > u64::from(fault.beams) + 1 => {
            cause.say("nothing may stand behind the matrix, which has as many rows as beams: ");
            cause.why.add_number(u64::from(fault.beams));
        }
        _ => {}
    }
}

/// The line above; no bytes where there is none.
fn line_above<'a>(fault: &Fault<'a>) -> &'a [u8] {
    bytes_at(fault.text, fault.at.saturating_sub(1))
}

/// Finds out why a line of a plan or of a schedule is at fault that has a form.
pub fn find_plan(fault: &Fault<'_>, cause: &mut Cause) {
    if fault.digit == b'3' {
        cause.say(
            "this burst belongs before the one above it: bursts stand in order of START, then of FROM, then of TO",
        );
        add_other_line(
            fault.at.saturating_sub(1),
            line_above(fault),
            &mut cause.note,
        );
    } else if is_word(word_of(fault.line, 0), b"critical") {
        cause.say_of_word(fault.line, 2, "beams are counted from 0, and there are ");
        cause.why.add_number(u64::from(fault.beams));
    } else if is_word(word_of(fault.line, 0), b"mode") {
        cause.say("a mode stands behind a burst; all modes stand in front of the bursts");
    }
}

/// Which line is wanting where a plan, a schedule or a matrix ends too early.
pub fn say_wanting(letter: u8, at: u32, cause: &mut Cause) {
    let wanting = match (letter, at) {
        (b'X', 1) => "its first line, the number of beams,",
        (b'X', _) => "a row of the matrix",
        (b'P', 1) => "the line 'plan E'",
        (b'P', 2) | (b'M', 1) => "the line 'length L'",
        (b'P', 3) | (b'M', 2) => "the line 'critical row B' or 'critical column B'",
        (b'P' | b'M', _) => "the line 'end'",
        (b'G', 1) => "the line 'slot S'",
        (b'G', _) => "the line 'half H'",
        _ => "a line",
    };
    cause.say("the text ends before this line, and ");
    cause.say(wanting);
    cause.say(" is wanting");
}

/// How many beams the matrix has whose text this is; 0 where its first line is no number.
pub fn beams_of(matrix: &[u8]) -> u32 {
    number_at(bytes_at(matrix, 1), 0).unwrap_or(0)
}
