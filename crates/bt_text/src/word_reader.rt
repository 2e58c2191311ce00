// A cursor over the words of a line: it takes no memory, and looks at each byte once.
ghost use Rattle.std.specs.Prelude.{◌≡◌, ◌≤◌, ◌==◌, ◌∷◌, drop, length, IfSome, option_and_then};
ghost use Rattle.std.specs.Option.{option_map};
ghost use Rattle.bt_text.specs.Text.{words, number_of_digits};
ghost use Rattle.bt_text.specs.WordReader.{words_left, first_word, is_first, number_to, digits_after};

use crate::text::{is_word, number_of_digits};
use std::marker::Model;

/// The words of a line that are left.
#[derive(Drop)]
pub struct WordReader<'a> {
    rest: Option<&'a [u8]>,
}

impl<'a> Model for WordReader<'a> {
    ghost use Rattle.std.specs.Prelude.{ℕ, List};
    ghost use Rattle.std.specs.Option.{option_map};
    ghost use Rattle.bt_text.specs.WordReader.{words_left};

    ghost Value = { List (List ℕ) };

    ghost view = { λ a. words_left (option_map (λ rest. rest.now) a.rest) };
}

impl<'a> WordReader<'a> {
    /// All words of a line, cut at every single space.
    #[inline(always)]
    pub fn of(line: &'a [u8]) -> WordReader<'a>
        ensures words { result ≡ words line.now }
    {
        WordReader { rest: Some(line) }
    }

    /// The next word, which it passes.
    #[inline(always)]
    pub fn next(&mut self) -> Option<&'a [u8]>
        ensures word { option_map (λ word. word.now) result ≡ first_word self.old }
        ensures rest { self.new ≡ drop 1 self.old }
    {
        let rest = self.rest?;
        let (word, behind) = word_in_front(rest);
        self.rest = behind;
        Some(word)
    }

    /// The next word is this one; it passes it in any case.
    #[inline(always)]
    pub fn next_is(&mut self, name: &[u8]) -> bool
        ensures is { result ≡ is_first name.now self.old }
        ensures rest { self.new ≡ drop 1 self.old }
    {
        match self.next() {
            Some(word) => is_word(word, name),
            None => false,
        }
    }

    /// The number that the next word is, which it passes; None where that is no number of at most `most`.
    #[inline(always)]
    pub fn number_to(&mut self, most: u32) -> Option<u32>
        ensures number { result ≡ option_and_then (number_to most) (first_word self.old) }
        ensures rest { IfSome result (λ _. self.new ≡ drop 1 self.old) }
    {
        let rest = self.rest?;
        let (number, behind) = number_in_front(rest, most)?;
        self.rest = behind;
        Some(number)
    }

    /// The number of at most so many digits that the next word is, which it passes in any case; None where that
    /// is no such number.
    #[inline(always)]
    pub fn number_of_digits(&mut self, most_digits: usize) -> Option<u64>
        requires most_digits { most_digits ≤ 19 }
        ensures number { result ≡ option_and_then (number_of_digits most_digits) (first_word self.old) }
        ensures rest { self.new ≡ drop 1 self.old }
    {
        number_of_digits(self.next()?, most_digits)
    }

    /// No word is left.
    #[inline(always)]
    pub fn is_done(&self) -> bool
        ensures done { result ≡ (length self.now == 0) }
    {
        self.rest.is_none()
    }
}

// The word in front, and what follows its space.
fn word_in_front(line: &[u8]) -> (&[u8], Option<&[u8]>)
    ensures { words line.now ≡ result.0.now ∷ words_left (option_map (λ rest. rest.now) result.1) }
{
    // A word is short, so that a wide search does not pay.
    let mut at = 0;
    while at < line.len() {
        if line[at] == b' ' {
            return (&line[..at], Some(&line[at + 1..]));
        }
        at += 1;
    }
    (line, None)
}

// The number in front, at most `most`, and what follows its space.
#[inline(always)]
fn number_in_front(line: &[u8], most: u32) -> Option<(u32, Option<&[u8]>)>
    ensures number { option_map (λ found. found.0) result
        ≡ option_and_then (number_to most) (first_word (words line.now)) }
    ensures rest { IfSome result (λ found.
        words_left (option_map (λ rest. rest.now) found.1) ≡ drop 1 (words line.now)) }
{
    match line {
        [digit @ b'0'..=b'9', b' ', rest @ ..] => {
            let number = u32::from(*digit - b'0');
            if number > most {
                return None;
            }
            Some((number, Some(rest)))
        }
        [b'1'..=b'9', ..] => two_digits_in_front(line, most),
        [b'0'] => Some((0, None)),
        _ => None,
    }
}

// What the digits in front write, at most `most`, and what follows their space; two digits first.
#[inline(always)]
fn two_digits_in_front(line: &[u8], most: u32) -> Option<(u32, Option<&[u8]>)>
    ensures number { option_map (λ found. found.0) result
        ≡ option_and_then (digits_after most 0) (first_word (words line.now)) }
    ensures rest { IfSome result (λ found.
        words_left (option_map (λ rest. rest.now) found.1) ≡ drop 1 (words line.now)) }
{
    match line {
        [tens @ b'0'..=b'9', units @ b'0'..=b'9', b' ', rest @ ..] => {
            let number = u32::from(*tens - b'0') * 10 + u32::from(*units - b'0');
            if number > most {
                return None;
            }
            Some((number, Some(rest)))
        }
        _ => digits_in_front(line, most),
    }
}

// The same, however many digits there are.
#[inline(always)]
fn digits_in_front(line: &[u8], most: u32) -> Option<(u32, Option<&[u8]>)>
    ensures number { option_map (λ found. found.0) result
        ≡ option_and_then (digits_after most 0) (first_word (words line.now)) }
    ensures rest { IfSome result (λ found.
        words_left (option_map (λ rest. rest.now) found.1) ≡ drop 1 (words line.now)) }
{
    let mut number: u64 = 0;
    let mut at = 0;
    while at < line.len() {
        let byte = line[at];
        if byte == b' ' {
            return Some((number as u32, Some(&line[at + 1..])));
        }
        if !byte.is_ascii_digit() {
            return None;
        }
        number = number * 10 + u64::from(byte - b'0');
        if number > u64::from(most) {
            return None;
        }
        at += 1;
    }
    Some((number as u32, None))
}
