// The lines of a satellite.
use crate::air::put_status;
use crate::lines::{put_number, put_word};
use crate::message::message_of;
use bt_frame::{LAST_MARK, Mark};
use bt_machines::Satellite;
use bt_sheet::{CaseFault, Result, number_of};
use bt_timeline::taken_text;
use std::alloc::Global;

/// Does what a line of the satellite says.
pub fn show_satellite(
    alloc: Global,
    satellite: &mut Satellite,
    words: &[&str],
    out: &mut String,
) -> Result<()> {
    match words {
        ["satellite", mark] => begin(alloc, satellite, mark),
        ["take", words @ ..] => put_taken(alloc, satellite, words, out),
        ["tick"] => put_tick(satellite, out),
        ["status"] => put_status(&satellite.status(), out),
        ["mode", slot] => put_mode(satellite, slot, out),
        _ => Err(CaseFault("no line of cases")),
    }
}

/// A new satellite at that superframe.
fn begin(alloc: Global, satellite: &mut Satellite, mark: &str) -> Result<()> {
    *satellite = Satellite::new(alloc, Mark(number_of(mark)?));
    Ok(())
}

/// Appends the answer to a message.
fn put_taken(
    alloc: Global,
    satellite: &mut Satellite,
    words: &[&str],
    out: &mut String,
) -> Result<()> {
    let message = message_of(alloc, words)?;
    put_word(taken_text(satellite.take(message)), out)
}

/// Appends the status with which the next superframe begins.
fn put_tick(satellite: &mut Satellite, out: &mut String) -> Result<()> {
    let Mark(mark) = satellite.status().mark;
    if LAST_MARK <= mark {
        return Err(CaseFault("the last superframe"));
    }
    put_status(&satellite.tick(), out)
}

/// Appends the slots of the mode that the switch takes in that slot.
fn put_mode(satellite: &Satellite, slot: &str, out: &mut String) -> Result<()> {
    match satellite.mode_at(number_of(slot)?) {
        Some(mode) => put_number(mode.duration, out),
        None => put_word("none", out),
    }
}
