// Numbers, words and lines of a text: what every reader and writer of the centre stands on.
ghost use Rattle.std.specs.Prelude.{◌≡◌, ◌+◌, ◌-◌, ◌^◌, ◌<◌, ◌≤◌, ◌==◌, ◌∷◌, ◌++◌, [], drop, length, slice_range, decimal, IfSome, IfNone, OnOk, OnErr, if◌then◌else◌};
ghost use Rattle.std.specs.List.{list_all};
ghost use Rattle.std.specs.Char.{is_ascii_digit};
ghost use Rattle.std.specs.Option.{option_map};
ghost use Rattle.std.specs.Str.Parse.{digits_value};
ghost use Rattle.bt_text.specs.Text.{lines, is_word, number_of, number_of_digits, capped};

use bt_frame::OutOfMemory;
use itoa::Buffer;
use memchr::memchr;
use std::alloc::Global;

/// Whether a word is this one.
pub fn is_word(word: &[u8], name: &[u8]) -> bool
    ensures is { result ≡ is_word name.now word.now }
{
    word == name
}

/// The number that a word is, the last `u64` for every number from there on; None where it is no number.
pub fn number(word: &[u8]) -> Option<u64>
    ensures value { result ≡ option_map capped (number_of word.now) }
    ensures exact { IfSome result (λ n. n < 2 ^ 64 - 1 → number_of word.now ≡ Some n) }
    ensures none { IfNone result (number_of word.now ≡ None) }
{
    match word {
        [] => None,
        [b'0', _, ..] => None,
        _ => digits(word),
    }
}

/// The number that a word of at most so many digits is; None where it is longer, or no number.
pub fn number_of_digits(word: &[u8], most_digits: usize) -> Option<u64>
    requires most_digits { most_digits ≤ 19 }
    ensures number { result ≡ number_of_digits most_digits word.now }
{
    if word.len() <= most_digits {
        number(word)
    } else {
        None
    }
}

// The number that the digits write, the last u64 for every number from there on; None where a byte is
// no digit.
fn digits(word: &[u8]) -> Option<u64>
    ensures { result
        ≡ (if list_all is_ascii_digit word.now then Some (capped (digits_value 10 word.now)) else None) }
{
    let mut number: u64 = 0;
    for byte in word {
        if !byte.is_ascii_digit() {
            return None;
        }
        number = number
            .saturating_mul(10)
            .saturating_add(u64::from(*byte - b'0'));
    }
    Some(number)
}

/// Appends a number in decimal digits.
pub fn number_text(alloc: Global, number: u64, out: &mut Vec<u8>) -> Result<(), OutOfMemory>
    ensures ok { OnOk result (out.new.items ≡ out.old.items ++ decimal number) }
    ensures err { OnErr result (out.new.items ≡ out.old.items) }
{
    // Most numbers that are printed have one digit.
    if number < 10 {
        out.push(b'0' + number as u8)?;
        return Ok(());
    }
    let mut buffer = Buffer::new();
    out.extend_from_slice(buffer.format(number).as_bytes())?;
    Ok(())
}

/// Where the line that begins at a place begins and ends, its newline left out; None where no newline
/// follows.
pub fn next_line(bytes: &[u8], place: usize) -> Option<(usize, usize)>
    requires place { place ≤ length bytes.now }
    ensures start { IfSome result (λ line. line.0 ≡ place) }
    ensures within { IfSome result (λ line. (place ≤ line.1) × (line.1 < length bytes.now)) }
    ensures line { IfSome result (λ line. lines (drop place bytes.now)
        ≡ slice_range bytes.now place line.1 ∷ lines (drop (line.1 + 1) bytes.now)) }
    ensures none { IfNone result (lines (drop place bytes.now) ≡ drop place bytes.now ∷ []) }
{
    let length = memchr(b'\n', &bytes[place..])?;
    Some((place, place + length))
}

/// The first line of a text and what follows its newline; None where the text has no newline.
pub fn first_line(text: &[u8]) -> Option<(&[u8], &[u8])>
    ensures line { IfSome result (λ cut. lines text.now ≡ cut.0.now ∷ lines cut.1.now) }
    ensures shorter { IfSome result (λ cut. length cut.1.now < length text.now) }
    ensures none { IfNone result (lines text.now ≡ text.now ∷ []) }
{
    let (_, end) = next_line(text, 0)?;
    Some((&text[..end], &text[end + 1..]))
}
