// The lines of a terminal.
use crate::air::put_bursts;
use crate::lines::{put_numbers, put_word};
use crate::message::message_of;
use bt_frame::{Mark, TermNo};
use bt_machines::Terminal;
use bt_sheet::{CaseFault, Result, byte_of, number_of};
use bt_timeline::heard_text;
use std::alloc::Global;

/// Does what a line of a terminal says.
pub fn show_terminal(
    alloc: Global,
    terminal: &mut Terminal,
    words: &[&str],
    out: &mut String,
) -> Result<()> {
    match words {
        ["terminal", number] => begin(alloc, terminal, number),
        ["hear", mark, words @ ..] => put_heard(alloc, terminal, mark, words, out),
        ["sends", mark] => put_sent(terminal, mark, out),
        ["restart"] => {
            terminal.restart();
            Ok(())
        }
        _ => Err(CaseFault("no line of cases")),
    }
}

/// A new terminal of that number.
fn begin(alloc: Global, terminal: &mut Terminal, number: &str) -> Result<()> {
    *terminal = Terminal::new(alloc, TermNo(byte_of(number)?));
    Ok(())
}

/// Appends the answer to a message that is heard in that superframe.
fn put_heard(
    alloc: Global,
    terminal: &mut Terminal,
    mark: &str,
    words: &[&str],
    out: &mut String,
) -> Result<()> {
    let message = message_of(alloc, words)?;
    let mark = Mark(number_of(mark)?);
    put_word(heard_text(terminal.hear(mark, message)), out)
}

/// Appends the bursts that the terminal transmits in that superframe.
fn put_sent(terminal: &Terminal, mark: &str, out: &mut String) -> Result<()> {
    let mark = Mark(number_of(mark)?);
    put_numbers(">bursts", &[], out)?;
    put_bursts(terminal.sends(mark), out)
}
