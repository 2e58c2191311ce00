// Answers as lines of a file of cases.
use crate::escape::put_line;
use crate::fault::{CaseFault, Result};
use std::alloc::Global;

/// Which lines of what a command writes are shown.
#[derive(Clone, Copy, Drop)]
pub enum Part {
    All,
    First(usize),
    Last(usize),
}

/// Appends these of the lines, each behind a `>`.
pub fn put_lines(alloc: Global, bytes: &[u8], part: Part, out: &mut String) -> Result<()> {
    let lines: Vec<&[u8]> = bytes.split(|byte| *byte == b'\n').collect(alloc)?;
    put_split(&lines, part, out)
}

/// Appends these of the lines, and what stands behind the last newline.
fn put_split(lines: &[&[u8]], part: Part, out: &mut String) -> Result<()> {
    match lines.split_last() {
        Some((last, ended)) => {
            put_ended(ended, part, out)?;
            put_last(last, out)
        }
        None => Err(CaseFault("a split has a part")),
    }
}

/// Appends these of the lines that a newline ends.
fn put_ended(lines: &[&[u8]], part: Part, out: &mut String) -> Result<()> {
    for line in shown(lines, part) {
        put_line(line, "\n", out)?;
    }
    Ok(())
}

/// These of the lines.
fn shown<'a, 'b>(lines: &'a [&'b [u8]], part: Part) -> &'a [&'b [u8]] {
    match part {
        Part::All => lines,
        Part::First(count) => lines.get(..count).unwrap_or(lines),
        Part::Last(count) => {
            let skipped = lines.len().saturating_sub(count);
            lines.get(skipped..).unwrap_or(lines)
        }
    }
}

/// Appends a line that no newline ends, unless it is empty.
fn put_last(last: &[u8], out: &mut String) -> Result<()> {
    if last.is_empty() {
        Ok(())
    } else {
        put_line(last, "\\\n", out)
    }
}
