// Bytes as printed text: a byte that is no printed character of ASCII, and the backslash itself, is `\xHH`, in
// hexadecimal digits. A backslash at the end of a line says that no newline follows there.
ghost use Rattle.std.specs.Prelude.{◌<◌, IfOk};

use crate::fault::{CaseFault, Result};

/// Appends the bytes of a line, and the newline unless a backslash ends the line.
pub fn take_text(line: &str, bytes: &mut Vec<u8>) -> Result<()> {
    match line.strip_suffix('\\') {
        Some(line) => take_bytes(line, bytes),
        None => {
            take_bytes(line, bytes)?;
            Ok(bytes.push(b'\n')?)
        }
    }
}

/// Appends the bytes of a text without a backslash at its end.
pub fn take_bytes(text: &str, bytes: &mut Vec<u8>) -> Result<()> {
    let mut parts = text.split('\\');
    if let Some(first) = parts.next() {
        bytes.extend_from_slice(first.as_bytes())?;
    }
    for part in parts {
        take_escaped(part, bytes)?;
    }
    Ok(())
}

/// Appends the byte that the part of a line behind a backslash begins with, and the rest.
fn take_escaped(part: &str, bytes: &mut Vec<u8>) -> Result<()> {
    match part.as_bytes() {
        [b'x', high, low, rest @ ..] => {
            bytes.push(hex_byte(*high, *low)?)?;
            Ok(bytes.extend_from_slice(rest)?)
        }
        _ => Err(CaseFault("a backslash without x and two digits")),
    }
}

/// The byte that two hexadecimal digits spell.
pub fn hex_byte(high: u8, low: u8) -> Result<u8> {
    Ok(digit(high)? * 16 + digit(low)?)
}

/// The value of a hexadecimal digit.
fn digit(byte: u8) -> Result<u8>
    ensures { IfOk result (λ n. n < 16) }
{
    match byte {
        b'0'..=b'9' => Ok(byte - b'0'),
        b'a'..=b'f' => Ok(byte - b'a' + 10),
        _ => Err(CaseFault("no hexadecimal digit")),
    }
}

/// Appends a line behind a `>`, with what ends it.
pub fn put_line(line: &[u8], end: &str, out: &mut String) -> Result<()> {
    out.push('>')?;
    for byte in line {
        put_byte(*byte, out)?;
    }
    out.push_str(end)?;
    Ok(())
}

fn put_byte(byte: u8, out: &mut String) -> Result<()> {
    let put = match byte {
        b' '..=b'[' | b']'..=b'~' => out.push(char::from(byte)),
        _ => write!(out, "\\x{byte:02x}"),
    };
    Ok(put?)
}
