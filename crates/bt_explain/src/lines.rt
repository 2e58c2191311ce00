// The lines of a text, and the words of a line, one by one with their places.
ghost use Rattle.std.specs.Prelude.{◌+◌, length, if◌then◌else◌};
ghost use Rattle.std.specs.Iterator.{at_most};

use bt_text::first_line;
use memchr::memchr;

/// The lines of a text that end with a newline, each with its number, counted from 1.
#[derive(Drop)]
pub struct Lines<'a> {
    rest: &'a [u8],
    at: u32,
}

impl<'a> Lines<'a> {
    pub fn of(text: &'a [u8]) -> Lines<'a> {
        Lines { rest: text, at: 1 }
    }
}

impl<'a> Iterator for Lines<'a> {
    type Item = (u32, &'a [u8]);

    ghost remaining = { λ s. at_most (length s.rest.now) };

    fn next(&mut self) -> Option<(u32, &'a [u8])> {
        match first_line(self.rest) {
            Some((line, rest)) => {
                let at = self.at;
                self.at = at.saturating_add(1);
                self.rest = rest;
                Some((at, line))
            }
            None => None,
        }
    }
}

/// The words of a line, or the parts between other bytes of one kind, each with the place of its first byte.
#[derive(Drop)]
pub struct Words<'a> {
    rest: &'a [u8],
    begin: usize,
    is_done: bool,
    /// What parts them.
    between: u8,
}

impl<'a> Words<'a> {
    pub fn of(line: &'a [u8]) -> Words<'a> {
        Words::parted(line, b' ')
    }

    /// The parts between such bytes.
    pub fn parted(line: &'a [u8], between: u8) -> Words<'a> {
        Words {
            rest: line,
            begin: 0,
            is_done: false,
            between,
        }
    }
}

impl<'a> Iterator for Words<'a> {
    type Item = (usize, &'a [u8]);

    ghost remaining = { λ s. at_most (length s.rest.now + (if s.is_done then 0 else 1)) };

    fn next(&mut self) -> Option<(usize, &'a [u8])> {
        if self.is_done {
            return None;
        }
        let begin = self.begin;
        let line = self.rest;
        match memchr(self.between, line) {
            Some(at) => {
                self.rest = &line[at + 1..];
                self.begin = begin.saturating_add(at).saturating_add(1);
                Some((begin, &line[..at]))
            }
            None => {
                self.is_done = true;
                Some((begin, line))
            }
        }
    }
}
