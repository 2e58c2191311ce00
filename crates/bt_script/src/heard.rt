// What a line of the bus says.
//
//     mark N          superframe N begins
//     radio N HEX     a message, behind the superframe that its sayer takes for the present one
ghost use Rattle.std.specs.Prelude.{◌≡◌, ◌≤◌, IfOk, IfSome, Ok, length};
ghost use Rattle.hex.specs.Hex.{decode_of};
ghost use Rattle.bt_frame.specs.declared.limits.TheConstants.{MOST_STATION_LINE_BYTES};
ghost use Rattle.bt_air.specs.Range.{IsInRange, IsMark};
ghost use Rattle.bt_script.specs.Heard.{IsOnBus, begun_in, bus_line_of, number_in, radio_in, read_of, with_one, with_two};

use bt_air::{AirFault, Message, decode, messages_have_one_spelling};
use bt_frame::{LAST_MARK, MOST_DIGITS, Mark, OutOfMemory};
use bt_text::{WordReader, is_word, number_of_digits};
use hex::FromHexError;
use std::alloc::Global;

/// What a line of the bus says.
#[derive(Drop)]
pub enum BusLine {
    /// A superframe begins.
    Begun(Mark),
    /// A message was said in a superframe. What is no message is heard as none.
    Radio(Mark, Option<Message>),
}

/// What a line of the bus says; None where it is none of its grammar.
pub fn read_bus_line(alloc: Global, text: &[u8]) -> Result<Option<BusLine>, OutOfMemory>
    requires short { length text.now ≤ MOST_STATION_LINE_BYTES }
    ensures line { IfOk result (λ line. line ≡ bus_line_of text.now) }
    ensures in_range { IfOk result (λ line. IfSome line IsOnBus) }
{
    let mut words = WordReader::of(text);
    let Some(name) = words.next() else {
        return Ok(None);
    };
    let Some(first) = words.next() else {
        return Ok(None);
    };
    let Some(second) = words.next() else {
        return Ok(with_one(name, first));
    };
    if !words.is_done() {
        return Ok(None);
    }
    with_two(alloc, name, first, second)
}

/// What a line of two words says.
fn with_one(name: &[u8], word: &[u8]) -> Option<BusLine>
    ensures line { result ≡ with_one name.now word.now }
    ensures in_range { IfSome result IsOnBus }
{
    if !is_word(name, b"mark") {
        return None;
    }
    match begun_in(word) {
        Some(mark) => Some(BusLine::Begun(mark)),
        None => None,
    }
}

/// What a line of three words says.
fn with_two(
    alloc: Global,
    name: &[u8],
    stamp: &[u8],
    digits: &[u8],
) -> Result<Option<BusLine>, OutOfMemory>
    requires short { length digits.now ≤ MOST_STATION_LINE_BYTES }
    ensures line { IfOk result (λ line. line ≡ with_two name.now stamp.now digits.now) }
    ensures in_range { IfOk result (λ line. IfSome line IsOnBus) }
{
    if is_word(name, b"radio") {
        radio_in(alloc, stamp, digits)
    } else {
        Ok(None)
    }
}

/// The number of at most so much that a word is.
pub fn number_in(most: u32, word: &[u8]) -> Option<u32>
    ensures number { result ≡ number_in most word.now }
    ensures in_range { IfSome result (λ number. number ≤ most) }
{
    match number_of_digits(word, MOST_DIGITS) {
        Some(number) if number <= u64::from(most) => Some(number as u32),
        _ => None,
    }
}

/// The superframe that a word is, from 1 on.
pub fn begun_in(word: &[u8]) -> Option<Mark>
    ensures mark { result ≡ begun_in word.now }
    ensures in_range { IfSome result IsMark }
{
    match number_in(LAST_MARK, word) {
        Some(number) if number != 0 => Some(Mark(number)),
        _ => None,
    }
}

/// What stands behind `radio`: `N HEX`.
pub fn radio_in(alloc: Global, stamp: &[u8], digits: &[u8]) -> Result<Option<BusLine>, OutOfMemory>
    requires short { length digits.now ≤ MOST_STATION_LINE_BYTES }
    ensures line { IfOk result (λ line. line ≡ radio_in stamp.now digits.now) }
    ensures in_range { IfOk result (λ line. IfSome line IsOnBus) }
{
    let Some(number) = number_in(LAST_MARK, stamp) else {
        return Ok(None);
    };
    match hex::decode(alloc, digits) {
        Ok(bytes) => {
            let message = read(alloc, digits, bytes.as_slice())?;
            Ok(Some(BusLine::Radio(Mark(number), message)))
        }
        Err(FromHexError::OutOfMemory) => Err(OutOfMemory),
        Err(_) => Ok(None),
    }
}

/// The message that the bytes are which these digits write.
fn read(alloc: Global, digits: &[u8], bytes: &[u8]) -> Result<Option<Message>, OutOfMemory>
    requires short { length digits.now ≤ MOST_STATION_LINE_BYTES }
    requires digits { decode_of digits.now ≡ Ok bytes.now }
    ensures message { IfOk result (λ message. message ≡ read_of bytes.now) }
    ensures in_range { IfOk result (λ message. IfSome message IsInRange) }
{
    messages_have_one_spelling();
    match decode(alloc, bytes) {
        Ok(message) => Ok(Some(message)),
        Err(AirFault::OutOfMemory) => Err(OutOfMemory),
        Err(_) => Ok(None),
    }
}
