// Messages of the air as printed lines.
ghost use Rattle.std.specs.Prelude.{◌≤◌, length, vec_len, IfOk};

use crate::lines::{end_line, put_line, put_numbers, put_word};
use bt_air::{AirFault, Armed, Message, Status, decode, encode, messages_have_one_spelling};
use bt_demand::Burst;
use bt_frame::{Command, EditionNo, Mark, Mode};
use bt_sheet::{CaseFault, Result, hex_byte};
use std::alloc::Global;

/// Appends what the bytes are read as, and a message's bytes when it is written again.
pub fn put_message(alloc: Global, digits: &str, out: &mut String) -> Result<()> {
    let bytes = bytes_of(alloc, digits)?;
    put_read(alloc, &bytes, out)
}

/// Appends what the bytes are read as, and a message's bytes when it is written again.
fn put_read(alloc: Global, bytes: &[u8], out: &mut String) -> Result<()>
    requires { length bytes.now ≤ 4096 }
{
    match decode(alloc, bytes) {
        Ok(message) => {
            put_told(&message, out)?;
            put_again(alloc, bytes, out)
        }
        Err(fault) => put_fault(fault, out),
    }
}

/// Appends the bytes of the message that the bytes are read as.
fn put_again(alloc: Global, bytes: &[u8], out: &mut String) -> Result<()>
    requires { length bytes.now ≤ 4096 }
{
    match written_again(alloc, bytes) {
        Some(again) => put_hex(&again, out),
        None => Err(CaseFault("out of memory")),
    }
}

fn put_hex(bytes: &[u8], out: &mut String) -> Result<()> {
    out.push_str("= ")?;
    for byte in bytes {
        write!(out, "{byte:02x}")?;
    }
    end_line(out)
}

/// The bytes of the message that the bytes are read as.
fn written_again(alloc: Global, bytes: &[u8]) -> Option<Vec<u8>>
    requires { length bytes.now ≤ 4096 }
{
    let Ok(message) = decode(alloc, bytes) else {
        return None;
    };
    messages_have_one_spelling();
    encode(alloc, &message).ok()
}

/// The bytes that the digits spell, at most 4096.
fn bytes_of(alloc: Global, digits: &str) -> Result<Vec<u8>>
    ensures { IfOk result (λ bytes. vec_len bytes ≤ 4096) }
{
    let mut bytes = Vec::new(alloc);
    take_pairs(digits, &mut bytes)?;
    if bytes.len() > 4096 {
        return Err(CaseFault("too many bytes"));
    }
    Ok(bytes)
}

/// Appends the bytes that the digits spell.
fn take_pairs(digits: &str, bytes: &mut Vec<u8>) -> Result<()> {
    for pair in digits.as_bytes().chunks(2) {
        match pair {
            [high, low] => bytes.push(hex_byte(*high, *low)?)?,
            _ => return Err(CaseFault("an odd number of digits")),
        }
    }
    Ok(())
}

fn put_fault(fault: AirFault, out: &mut String) -> Result<()> {
    match fault {
        AirFault::A1 { place } => put_line(">A1", &[place], out),
        AirFault::A2 => put_word("A2", out),
        AirFault::A3 { place } => put_line(">A3", &[place], out),
        AirFault::A4 { place } => put_line(">A4", &[place], out),
        AirFault::OutOfMemory => Err(CaseFault("out of memory")),
    }
}

/// Appends a message in a line: its kind, and its fields.
fn put_told(message: &Message, out: &mut String) -> Result<()> {
    match message {
        Message::Load {
            command,
            edition,
            modes,
        } => put_load(*command, *edition, modes.as_slice(), out),
        Message::Arm {
            command,
            edition,
            due,
        } => put_line(">arm", &[command.0, edition.0, due.0], out),
        Message::Status(status) => put_status(status, out),
        Message::PlanFor {
            to,
            load,
            edition,
            bursts,
        } => {
            put_numbers(">plan", &[to.0.into(), load.0, edition.0], out)?;
            put_bursts(bursts.as_slice(), out)
        }
        Message::Confirm {
            from,
            load,
            edition,
        } => put_line(">confirm", &[from.0.into(), load.0, edition.0], out),
        Message::Reference {
            superframe,
            in_force,
            next,
        } => put_reference(*superframe, *in_force, *next, out),
        Message::Lost { from } => put_line(">lost", &[from.0.into()], out),
    }
}

fn put_load(command: Command, edition: EditionNo, modes: &[Mode], out: &mut String) -> Result<()> {
    put_numbers(">load", &[command.0, edition.0], out)?;
    for mode in modes {
        put_mode(mode, out)?;
    }
    end_line(out)
}

/// Appends the duration of a mode and its downlinks.
fn put_mode(mode: &Mode, out: &mut String) -> Result<()> {
    write!(out, " : {} {:?}", mode.duration, mode.perm.as_slice())?;
    Ok(())
}

/// Appends what the satellite says of itself, in a line.
pub fn put_status(status: &Status, out: &mut String) -> Result<()> {
    let (mark, fore, back) = (status.mark.0, status.fore.0, status.back.0);
    put_numbers(">status", &[mark, fore, back], out)?;
    put_armed(status.armed, out)?;
    put_line(" last", &[status.last.0], out)
}

fn put_armed(armed: Option<Armed>, out: &mut String) -> Result<()> {
    match armed {
        Some(armed) => put_numbers(" armed", &[armed.edition.0, armed.due.0], out),
        None => put_numbers(" none", &[], out),
    }
}

/// Appends the superframe of a reference burst, the edition that it names, and the change that it announces, if any.
fn put_reference(
    superframe: Mark,
    in_force: Option<EditionNo>,
    next: Option<Armed>,
    out: &mut String,
) -> Result<()> {
    put_numbers(">reference", &[superframe.0], out)?;
    match in_force {
        Some(edition) => put_numbers("", &[edition.0], out)?,
        None => put_numbers(" none", &[], out)?,
    }
    if let Some(armed) = next {
        put_numbers(" next", &[armed.edition.0, armed.due.0], out)?;
    }
    end_line(out)
}

/// Appends the sender of each burst, its receiver, its first slot and its slots, and ends the line.
pub fn put_bursts(bursts: &[Burst], out: &mut String) -> Result<()> {
    for burst in bursts {
        put_burst(*burst, out)?;
    }
    end_line(out)
}

fn put_burst(burst: Burst, out: &mut String) -> Result<()> {
    let (from, to) = (burst.from.0.into(), burst.to.0.into());
    put_numbers(" :", &[from, to, burst.start, burst.length], out)
}
