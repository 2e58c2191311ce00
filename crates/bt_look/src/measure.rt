// How many bytes the lines of a journal's changes have, and how many stand behind the last newline.
ghost use Rattle.std.specs.Prelude.{◌≡◌, ◌+◌, ◌≤◌, IfOk, length, List};
ghost use Rattle.bt_frame.specs.declared.limits.TheConstants.{MOST_JOURNAL_BYTES};
ghost use Rattle.bt_text.specs.Text.{is_word, lines};
ghost use Rattle.bt_journal.specs.declared.call.Change.{Change};
ghost use Rattle.bt_journal.specs.Mark.{text_of_mark};
ghost use Rattle.bt_history.specs.Machine.{bytes_of};
ghost use Rattle.bt_history.specs.Recovery.{Recovered, tail_of};
ghost use Rattle.bt_look.specs.Measure.{IsTail, bytes_of_line, unmarked};

use bt_frame::OutOfMemory;
use bt_journal::{lines_end_once, lines_tell_changes, mark_text, marks_tell_sizes};
use bt_net::Network;
use bt_text::{first_line, is_word};
use std::alloc::Global;

/// The bytes of the lines of changes, the mark left out, and those behind the last newline.
#[derive(Clone, Copy)]
pub struct JournalSize {
    pub bytes: u32,
    pub torn: u32,
}

/// Measures a journal's text. Of a text that tells no changes the bytes mean nothing.
pub fn size_of_journal(
    alloc: Global,
    net: &Network,
    text: &[u8],
) -> Result<JournalSize, OutOfMemory>
    requires short { length text.now ≤ MOST_JOURNAL_BYTES }
    ensures bytes { IfOk result (λ size. (changes : List Change) → Recovered net.now text.now changes → size.bytes ≡ bytes_of net.now changes) }
    ensures torn { IfOk result (λ size. size.torn ≡ length (tail_of text.now)) }
{
    // These are there for what holds of each network, that it is sound, and of the lines of changes and of marks.
    let _beams = net.beam_count();
    lines_end_once();
    lines_tell_changes();
    marks_tell_sizes();
    let mark = mark_word(alloc, net)?;
    let (bytes, rest) = measure_lines(mark.as_slice(), text);
    Ok(JournalSize {
        bytes: bytes as u32,
        torn: rest.len() as u32,
    })
}

/// The mark of the network without its newline.
fn mark_word(alloc: Global, net: &Network) -> Result<Vec<u8>, OutOfMemory>
    ensures { IfOk result (λ word. word.items ≡ text_of_mark net.now) }
{
    let mut word = mark_text(alloc, net)?;
    let _newline = word.pop();
    Ok(word)
}

/// The bytes of the lines of a text with their newlines, those left out that are the mark, and what stands behind the last
/// newline. `mark` has no newline.
fn measure_lines<'a>(mark: &[u8], text: &'a [u8]) -> (usize, &'a [u8])
    requires short { length text.now ≤ MOST_JOURNAL_BYTES }
    ensures bytes { result.0 ≡ unmarked mark.now (lines text.now) }
    ensures few { result.0 + length result.1.now ≤ length text.now }
    ensures rest { IsTail text.now result.1.now }
{
    let mut rest = text;
    let mut bytes = 0;
    while let Some((line, after)) = first_line(rest) {
        bytes += line_bytes(mark, line);
        rest = after;
    }
    (bytes, rest)
}

/// The bytes of a line with its newline, none where it is the mark.
fn line_bytes(mark: &[u8], line: &[u8]) -> usize
    requires short { length line.now ≤ MOST_JOURNAL_BYTES }
    ensures { result ≡ bytes_of_line (is_word mark.now line.now) line.now }
{
    if is_word(line, mark) {
        0
    } else {
        line.len() + 1
    }
}
