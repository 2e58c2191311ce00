// Marks of journals.
use crate::texts::put_text;
use bt_journal::{mark_text, read_mark};
use bt_net::Network;
use bt_sheet::{CaseFault, Result, Shelf};
use std::alloc::Global;

/// Shows the mark of a network's journal, or what a line says that may be one.
pub fn show_mark(alloc: Global, shelf: &Shelf, words: &[&str], out: &mut String) -> Result<bool> {
    match *words {
        ["mark", line] => put_sizes(shelf.text(line)?, out)?,
        ["mark", "of", net] => put_mark(alloc, shelf.text(net)?, out)?,
        _ => return Ok(false),
    }
    Ok(true)
}

/// Appends the beams and the terminals that a mark says.
fn put_sizes(line: &[u8], out: &mut String) -> Result<()> {
    let put = match read_mark(line) {
        Some((beams, terminals)) => write!(out, ">{beams} {terminals}\n"),
        None => out.push_str(">none\n"),
    };
    Ok(put?)
}

/// Appends the mark of the network of a text.
fn put_mark(alloc: Global, net: &[u8], out: &mut String) -> Result<()> {
    match Network::read(alloc, net) {
        Ok(net) => put_text(alloc, mark_text(alloc, &net), out),
        Err(_fault) => Err(CaseFault("no network")),
    }
}
