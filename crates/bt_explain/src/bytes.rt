// The lines of a text, and what may be wrong with the bytes of any line.
use crate::cause::Cause;
use crate::fault::Fault;
use crate::lines::{Lines, Words};
use crate::page::is_printed;
use bt_text::number;

/// What is said of a remark where none may stand.
const NO_REMARKS: &str = "a remark may not stand in this file: scripts alone have remarks";

/// A line of a text, its newline left out.
#[derive(Clone, Copy)]
pub struct Line<'a> {
    pub bytes: &'a [u8],
    /// A newline stands behind it.
    pub is_ended: bool,
}

/// Line `number` of a text, counted from 1; None where nothing stands there.
pub fn line_at(text: &[u8], number: u32) -> Option<Line<'_>> {
    let mut rest = text;
    let mut next: u32 = 1;
    for (at, line) in Lines::of(text) {
        if at == number {
            return Some(Line {
                bytes: line,
                is_ended: true,
            });
        }
        // a newline stands behind the line
        rest = rest
            .get(line.len()..)
            .unwrap_or(&[])
            .get(1..)
            .unwrap_or(&[]);
        next = at.saturating_add(1);
    }
    if next == number && !rest.is_empty() {
        Some(Line {
            bytes: rest,
            is_ended: false,
        })
    } else {
        None
    }
}

/// What stands in line `number` of a text; no bytes where nothing stands there.
pub fn bytes_at(text: &[u8], number: u32) -> &[u8] {
    line_at(text, number).map_or(b"".as_slice(), |line| line.bytes)
}

/// The word of that number, from 0, of a line; no bytes where it has none.
pub fn word_of(line: &[u8], index: usize) -> &[u8] {
    let mut at: usize = 0;
    for (_, word) in Words::of(line) {
        if at == index {
            return word;
        }
        at = at.saturating_add(1);
    }
    &[]
}

/// The number that the word of that number is, where it is one of 32 bits.
pub fn number_at(line: &[u8], index: usize) -> Option<u32> {
    u32::try_from(number(word_of(line, index))?).ok()
}

/// Where the word of that number begins in a line, and how many bytes it has; the end where there is none.
pub fn place_of(line: &[u8], index: usize) -> (usize, usize) {
    let mut at: usize = 0;
    for (begin, word) in Words::of(line) {
        if at == index {
            return (begin, word.len());
        }
        at = at.saturating_add(1);
    }
    (line.len(), 1)
}

/// Looks for what no line of any text may have.
pub fn find_bytes(fault: &Fault<'_>, line: Line<'_>, cause: &mut Cause) {
    if !line.is_ended {
        cause.say_at(
            line.bytes.len(),
            1,
            "no newline stands behind this last line",
        );
        cause.hint.add("the file may be cut off");
    } else {
        find_in_line(fault, cause);
    }
}

fn find_in_line(fault: &Fault<'_>, cause: &mut Cause) {
    let line = fault.line;
    match line {
        [] => cause.say("a line without words may not stand here"),
        [b'\r'] => say_return(0, fault.file, cause),
        [0xEF, 0xBB, 0xBF, ..] => cause.say_at(
            0,
            3,
            "a byte order mark stands in front of the text, which is ASCII",
        ),
        [.., b'\r'] => say_return(line.len() - 1, fault.file, cause),
        [b'#', ..] => cause.say_at(0, 1, NO_REMARKS),
        _ => find_byte(fault, cause),
    }
}

fn say_return(at: usize, file: &str, cause: &mut Cause) {
    cause.say_at(
        at,
        1,
        "a carriage return stands at the end of the line, which a newline alone ends",
    );
    cause
        .hint
        .add("take the carriage returns out of the file: tr -d '\\r' <");
    cause.hint.add(if is_plain(file) { file } else { "FILE" });
    cause.hint.add(" >NEW");
}

/// Whether a shell takes a name of a file as it stands.
fn is_plain(file: &str) -> bool {
    file.as_bytes().iter().all(|byte| byte.is_ascii_alphanumeric()
        || matches!(*byte, b'.' | b'/' | b'_' | b'-'))
}

/// Looks for the first byte that stands wrong, wherever it is.
fn find_byte(fault: &Fault<'_>, cause: &mut Cause) {
    let mut before = b' ';
    let mut at: usize = 0;
    for byte in fault.line {
        if !is_printed(*byte) {
            return say_byte(at, *byte, cause);
        }
        if *byte == b' ' && before == b' ' {
            return say_space(at, cause);
        }
        if *byte == b'#' && before == b' ' {
            return cause.say_at(
                at,
                1,
                if matches!(fault.letter, b'S' | b'L' | b'B') {
                    "a remark may not stand behind the words of a line"
                } else {
                    NO_REMARKS
                },
            );
        }
        before = *byte;
        at = at.saturating_add(1);
    }
    if before == b' ' {
        cause.say_at(
            at.saturating_sub(1),
            1,
            "a space stands behind the last word",
        );
    }
}

fn say_byte(at: usize, byte: u8, cause: &mut Cause) {
    if byte == b'\t' {
        cause.say_at(at, 1, "a tab stands here; a single space parts two words");
    } else {
        cause.say_at(at, 1, "a byte of value ");
        cause.why.add_number(u64::from(byte));
        cause.say(" stands here, which no word has");
    }
}

fn say_space(at: usize, cause: &mut Cause) {
    if at == 0 {
        cause.say_at(0, 1, "a space stands in front of the first word");
    } else {
        cause.say_at(
            at,
            1,
            "two spaces stand between two words, and one is enough",
        );
    }
}
