// The mark of a journal, a line that says of which network the journal is: `journal 2 BEAMS TERMINALS`.
ghost use Rattle.std.specs.Prelude.{◌≡◌, ◌≢◌, ◌++◌, ◌∷◌, ℕ, IfOk, IfSome, IfNone, OnOk, decimal};
ghost use Rattle.bt_text.specs.Text.{words};
ghost use Rattle.bt_journal.specs.Mark.{mark_line, mark_of, IsMarkOf};
ghost use Rattle.bt_journal.specs.LineReading.{sizes_in, mark_in};

use crate::reader::{number_from, text_of};
use bt_frame::{MOST_BEAMS, MOST_TERMINALS, OutOfMemory};
use bt_net::Network;
use bt_text::{WordReader, number_text};
use std::alloc::Global;

/// The mark of the network's journal, its newline included, as `read_mark` reads it.
pub fn mark_text(alloc: Global, net: &Network) -> Result<Vec<u8>, OutOfMemory>
    ensures mark { IfOk result (λ mark. mark.items ≡ mark_of net.now) }
{
    let mut mark = Vec::from_slice(alloc, b"journal 2")?;
    write_number(alloc, net.beam_count(), &mut mark)?;
    write_number(alloc, net.terminal_count(), &mut mark)?;
    mark.push(b'\n')?;
    Ok(mark)
}

// Appends a number, behind a space.
fn write_number(alloc: Global, number: u32, text: &mut Vec<u8>) -> Result<(), OutOfMemory>
    ensures { OnOk result (text.new.items ≡ text.old.items ++ 32 ∷ decimal number) }
{
    text.push(b' ')?;
    number_text(alloc, u64::from(number), text)
}

/// The beams and the terminals that a mark says, which ends with its newline; none where the line is no mark.
pub fn read_mark(line: &[u8]) -> Option<(u32, u32)>
    ensures range { IfSome result (λ said. IsMarkOf said.0 said.1) }
    ensures line { IfSome result (λ said. line.now ≡ mark_line said.0 said.1) }
    ensures none { IfNone result ((beams terminals : ℕ) → IsMarkOf beams terminals → line.now ≢ mark_line beams terminals) }
{
    let Some(text) = text_of(line) else {
        return None;
    };
    mark_in(text)
}

// What the mark says whose text this is, its newline left out.
fn mark_in(text: &[u8]) -> Option<(u32, u32)>
    ensures { result ≡ mark_in (words text.now) }
{
    let mut words = WordReader::of(text);
    if words.next_is(b"journal") && words.next_is(b"2") {
        sizes_in(words)
    } else {
        None
    }
}

// The beams and the terminals in front, and no more words.
fn sizes_in(mut words: WordReader<'_>) -> Option<(u32, u32)>
    ensures { result ≡ sizes_in words.entry }
{
    let beams = number_from(1, MOST_BEAMS as u32, &mut words)?;
    let terminals = number_from(1, MOST_TERMINALS as u32, &mut words)?;
    if words.is_done() {
        Some((beams, terminals))
    } else {
        None
    }
}
