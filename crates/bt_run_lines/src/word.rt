// What a word of a printed line says.
ghost use Rattle.std.specs.Prelude.{◌≡◌, ◌<◌, ◌==◌, ◌++◌, Some, None, IfSome, IsTrue, length, not, option_map, position, if◌then◌else◌};
ghost use Rattle.bt_text.specs.WordReader.{number_to};
ghost use Rattle.bt_words.specs.declared.token.TheConstants.{MOST_VALUES};
ghost use Rattle.bt_words.specs.Forms.{part_of, is_fixed};
ghost use Rattle.bt_run_lines.specs.Words.{desk_number, frame_in, beam_of, taken_of, heard_of, moment_of, tag_of, value_of, said_by};

use crate::printed::{LineWord, Value, Values};
use bt_air::{Heard, Taken};
use bt_frame::{BeamNo, MOST_DESKS, Mark};
use bt_net::Network;
use bt_text::{is_word, number, number_of_digits};
use bt_words::{Token, is_moment, is_tag};

/// Adds what the word says at this place, and answers whether it may stand there.
pub(crate) fn add_said<'a>(
    net: &Network,
    token: Token,
    word: &'a [u8],
    said: &mut Values<'a>,
) -> bool
    requires room { IsTrue (not (is_fixed (part_of token))) → length said.old < MOST_VALUES }
    ensures said { (if result then Some said.new else None)
        ≡ option_map (λ more. said.old ++ more) (said_by net.now (part_of token) word.now) }
{
    match token {
        Token::Text(text) => is_word(word, text.as_bytes()),
        _ => {
            let Some(value) = value_of(net, token, word) else {
                return false;
            };
            said.add(value);
            true
        }
    }
}

// What the word says at a place that has no fixed word.
fn value_of<'a>(net: &Network, token: Token, word: &'a [u8]) -> Option<Value<'a>>
    ensures { result ≡ value_of net.now (part_of token) word.now }
{
    match token {
        Token::Text(_) => None,
        Token::Number => Some(Value::Number(number_to(word, u32::MAX)?)),
        Token::Count => Some(Value::Number(number_of_digits(word, 19)?)),
        Token::Desk => Some(Value::Number(desk_number(word)?)),
        Token::Frame => frame_in(word),
        Token::Beam => Some(Value::Beam(beam_named(net, word)?)),
        Token::Terminal => Some(Value::Terminal(net.terminal_named(word)?)),
        Token::Taken => Some(Value::Taken(taken_of(word)?)),
        Token::Heard => Some(Value::Heard(heard_of(word)?)),
        Token::Tag => Some(Value::Tag(tag_of(word)?)),
        Token::Moment => Some(Value::Moment(moment_of(word)?)),
    }
}

// The number of at most `most` that a word is.
fn number_to(word: &[u8], most: u32) -> Option<u64>
    ensures { result ≡ number_to most word.now }
{
    let number = number(word)?;
    if number <= u64::from(most) {
        Some(number)
    } else {
        None
    }
}

// The desk that a word is the number of.
fn desk_number(word: &[u8]) -> Option<u64>
    ensures { result ≡ desk_number word.now }
{
    let desk = number_to(word, u32::from(MOST_DESKS))?;
    if desk >= 1 { Some(desk) } else { None }
}

// The frame that a word names.
fn frame_in(word: &[u8]) -> Option<Value<'static>>
    ensures { result ≡ frame_in word.now }
{
    let point = point_in(word)?;
    let mark = number_to(&word[..point], u32::MAX)?;
    let number = number_to(&word[point + 1..], u32::MAX)?;
    Some(Value::Frame(Mark(mark as u32), number as u32))
}

// Where the first point of a word stands.
fn point_in(word: &[u8]) -> Option<usize>
    ensures at { result ≡ position (λ byte. byte == 46) word.now }
    ensures within { IfSome result (λ at. at < length word.now) }
{
    let mut at = 0;
    while at < word.len() {
        if word[at] == b'.' {
            return Some(at);
        }
        at += 1;
    }
    None
}

// The beam of that name.
fn beam_named(net: &Network, word: &[u8]) -> Option<BeamNo>
    ensures beam { result ≡ beam_of net.now word.now }
{
    let mut number = 0;
    while number < net.beam_count() {
        let beam = BeamNo(number as u8);
        if is_word(word, net.beam_name(beam).as_bytes()) {
            return Some(beam);
        }
        number += 1;
    }
    None
}

// What the satellite does with a message that is for it, by its word.
fn taken_of(word: &[u8]) -> Option<Taken>
    ensures { result ≡ taken_of word.now }
{
    if is_word(word, b"accepted") {
        Some(Taken::Accepted)
    } else if is_word(word, b"stale") {
        Some(Taken::Stale)
    } else if is_word(word, b"busy") {
        Some(Taken::Busy)
    } else if is_word(word, b"notloaded") {
        Some(Taken::NotLoaded)
    } else if is_word(word, b"toolate") {
        Some(Taken::TooLate)
    } else {
        None
    }
}

// What a terminal does with a message that is for it, by its word.
fn heard_of(word: &[u8]) -> Option<Heard>
    ensures { result ≡ heard_of word.now }
{
    if is_word(word, b"took") {
        Some(Heard::Took)
    } else if is_word(word, b"wrongmark") {
        Some(Heard::WrongMark)
    } else if is_word(word, b"held") {
        Some(Heard::Held)
    } else if is_word(word, b"stored") {
        Some(Heard::Stored)
    } else if is_word(word, b"older") {
        Some(Heard::Older)
    } else if is_word(word, b"inuse") {
        Some(Heard::InUse)
    } else {
        None
    }
}

// The tag that a word is.
fn tag_of<'a>(word: &'a [u8]) -> Option<LineWord<'a>>
    ensures { result ≡ tag_of word.now }
{
    if is_tag(word) {
        Some(LineWord::of(word))
    } else {
        None
    }
}

// The moment that a word is.
fn moment_of<'a>(word: &'a [u8]) -> Option<LineWord<'a>>
    ensures { result ≡ moment_of word.now }
{
    if is_moment(word) {
        Some(LineWord::of(word))
    } else {
        None
    }
}
