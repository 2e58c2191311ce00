// A short text in room of a fixed size: a line is made there piece by piece, without a call that may want memory, and appended to
// a longer text at once. Each piece has a test of room, and what does not fit is not written.
ghost use Rattle.std.specs.Prelude.{◌≡◌, ◌+◌, ◌<◌, ◌≤◌, [], ◌∷◌, ◌++◌, length, take, decimal};
ghost use Rattle.std.specs.Bool.{OnFalse, OnTrue};
ghost use Rattle.bt_text.specs.Short.{Placed, one_word};

use itoa::{Buffer, write_digits};
use std::marker::Model;
use std::simd::Simd;

/// The bytes of the room. A line of a run is shorter, and several of most lines are.
const ROOM: usize = 192;

/// A text of at most 192 bytes.
#[derive(Drop)]
pub struct ShortText {
    bytes: [u8; ROOM],
    len: usize,
}

impl Model for ShortText {
    ghost use Rattle.std.specs.Prelude.{ℕ, List, ◌≤◌, take};
    ghost use Rattle.bt_text.specs.declared.short.TheConstants.{ROOM};

    ghost Value = { List ℕ };

    ghost view = { λ a. take a.len a.bytes };

    ghost invariant = { λ a. a.len ≤ ROOM };
}

impl ShortText {
    /// No bytes.
    pub fn new() -> ShortText
        ensures empty { result ≡ [] }
    {
        ShortText {
            bytes: [0; ROOM],
            len: 0,
        }
    }

    /// The bytes.
    pub fn as_slice(&self) -> &[u8]
        ensures bytes { result.now ≡ self.now }
    {
        &self.bytes[..self.len]
    }

    /// How many there are.
    pub fn len(&self) -> usize
        ensures count { result ≡ length self.now }
    {
        self.len
    }

    /// Takes away all bytes but so many first ones.
    pub fn truncate(&mut self, len: usize)
        requires within { len ≤ length self.old }
        ensures first { self.new ≡ take len self.old }
    {
        self.len = len;
    }

    /// Adds a byte, where there is room for it.
    #[inline(always)]
    pub fn put_byte(&mut self, byte: u8) -> bool
        ensures added { OnTrue result (self.new ≡ self.old ++ byte ∷ []) }
        ensures unchanged { OnFalse result (self.new ≡ self.old) }
    {
        if self.len == ROOM {
            return false;
        }
        self.len = place_byte(&mut self.bytes, self.len, byte);
        true
    }

    /// Adds a word, a further one behind a space, where there is room for a space and for it.
    #[inline(always)]
    pub fn put_word(&mut self, is_further: bool, word: &[u8]) -> bool
        ensures added { OnTrue result (self.new ≡ self.old ++ one_word is_further word.now) }
        ensures unchanged { OnFalse result (self.new ≡ self.old) }
    {
        if ROOM - self.len <= word.len() {
            return false;
        }
        let at = place_space(&mut self.bytes, self.len, is_further);
        self.len = place(&mut self.bytes, at, word);
        true
    }

    /// Adds a number in decimal digits, a further word behind a space, where there is room for a space and for the digits. Fewer
    /// than four of them need the room of four.
    #[inline(always)]
    pub fn put_number(&mut self, is_further: bool, number: u64) -> bool
        ensures added { OnTrue result (self.new ≡ self.old ++ one_word is_further (decimal number)) }
        ensures unchanged { OnFalse result (self.new ≡ self.old) }
    {
        if number >= 10_000 {
            return self.put_any_number(is_further, number);
        }
        if ROOM - self.len <= 4 {
            return false;
        }
        let at = place_space(&mut self.bytes, self.len, is_further);
        self.len = place_number(&mut self.bytes, at, number);
        true
    }

    /// The same, also where there is room for a space and few digits alone. It takes more steps.
    #[inline(never)]
    pub fn put_any_number(&mut self, is_further: bool, number: u64) -> bool
        ensures added { OnTrue result (self.new ≡ self.old ++ one_word is_further (decimal number)) }
        ensures unchanged { OnFalse result (self.new ≡ self.old) }
    {
        let mut buffer = Buffer::new();
        let digits = buffer.format(number).as_bytes();
        if ROOM - self.len <= digits.len() {
            return false;
        }
        let at = place_space(&mut self.bytes, self.len, is_further);
        self.len = place_any(&mut self.bytes, at, digits);
        true
    }
}

/// Writes a space, which counts only in front of a further word, and returns where it ends.
#[inline(always)]
fn place_space(bytes: &mut [u8], at: usize, is_further: bool) -> usize
    requires { at < length bytes.old }
    ensures { Placed bytes.old bytes.new at (one_word is_further []) result }
{
    bytes[at] = b' ';
    if is_further { at + 1 } else { at }
}

/// Writes a byte, and returns where it ends.
#[inline(always)]
fn place_byte(bytes: &mut [u8], at: usize, byte: u8) -> usize
    requires { at < length bytes.old }
    ensures { Placed bytes.old bytes.new at (byte ∷ []) result }
{
    bytes[at] = byte;
    at + 1
}

/// Writes a number of at most four digits, and returns where it ends.
#[inline(always)]
fn place_number(bytes: &mut [u8], at: usize, number: u64) -> usize
    requires { (number < 10000) × (at + 4 ≤ length bytes.old) }
    ensures { Placed bytes.old bytes.new at (decimal number) result }
{
    // Most numbers that are printed have one digit.
    if number < 10 {
        return place_byte(bytes, at, b'0' + number as u8);
    }
    let end = at + digit_count(number);
    let _start = write_digits(number, bytes, end);
    end
}

/// How many digits a number of two to four has.
#[inline(always)]
fn digit_count(number: u64) -> usize
    requires { (10 ≤ number) × (number < 10000) }
    ensures digits { result ≡ length (decimal number) }
    ensures few { result ≤ 4 }
{
    if number < 100 {
        2
    } else if number < 1000 {
        3
    } else {
        4
    }
}

/// Writes a piece, and returns where it ends. A short one is two writes of a fixed size that lie over each other, which takes
/// fewer steps than a call that copies any number of bytes.
#[inline(always)]
fn place(bytes: &mut [u8], at: usize, piece: &[u8]) -> usize
    requires { at + length piece.now ≤ length bytes.old }
    ensures { Placed bytes.old bytes.new at piece.now result }
{
    match piece.len() {
        1 => place_byte(bytes, at, piece[0]),
        2..=3 => place_ends::<2>(bytes, at, piece),
        4..=7 => place_ends::<4>(bytes, at, piece),
        _ => place_long(bytes, at, piece),
    }
}

/// Writes a piece, and returns where it ends.
#[inline(never)]
fn place_long(bytes: &mut [u8], at: usize, piece: &[u8]) -> usize
    requires { at + length piece.now ≤ length bytes.old }
    ensures { Placed bytes.old bytes.new at piece.now result }
{
    match piece.len() {
        8..=16 => place_ends::<8>(bytes, at, piece),
        _ => place_any(bytes, at, piece),
    }
}

/// Writes a piece of any length, and returns where it ends.
#[inline(never)]
fn place_any(bytes: &mut [u8], at: usize, piece: &[u8]) -> usize
    requires { at + length piece.now ≤ length bytes.old }
    ensures { Placed bytes.old bytes.new at piece.now result }
{
    let end = at + piece.len();
    bytes[at..end].copy_from_slice(piece);
    end
}

/// Writes the first and then the last bytes of a piece.
#[inline(always)]
fn place_ends<const N: usize>(bytes: &mut [u8], at: usize, piece: &[u8]) -> usize
    requires fits { at + length piece.now ≤ length bytes.old }
    requires covers { (N ≤ length piece.now) × (length piece.now ≤ N + N) }
    ensures { Placed bytes.old bytes.new at piece.now result }
{
    let last = piece.len() - N;
    place_front::<N>(bytes, at, piece);
    place_front::<N>(bytes, at + last, &piece[last..])
}

/// Writes the first bytes of a piece, and returns where they end.
#[inline(always)]
fn place_front<const N: usize>(bytes: &mut [u8], at: usize, piece: &[u8]) -> usize
    requires { (N ≤ length piece.now) × (at + N ≤ length bytes.old) }
    ensures { Placed bytes.old bytes.new at (take N piece.now) result }
{
    Simd::<u8, N>::from_slice(piece).copy_to_slice(&mut bytes[at..]);
    at + N
}
