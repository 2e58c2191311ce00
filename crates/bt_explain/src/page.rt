// The text that is told, as far as memory lasts.
use itoa::Buffer;
use std::alloc::Global;

/// What stands for a byte that is not printed.
const UNPRINTED: char = '.';

/// The most bytes of no text that are shown.
const MOST_ESCAPED: usize = 120;

/// A text to which more is added. Where memory is wanting it is no whole one any more.
#[derive(Drop)]
pub struct Page {
    text: String,
    is_whole: bool,
}

impl Page {
    pub fn new(alloc: Global) -> Page {
        Page {
            text: String::new(alloc),
            is_whole: true,
        }
    }

    /// The text, where memory lasted for all of it.
    pub fn text(&self) -> Option<&str> {
        if self.is_whole {
            Some(self.text.as_str())
        } else {
            None
        }
    }

    pub fn is_empty(&self) -> bool {
        self.text.is_empty()
    }

    /// Begins anew.
    pub fn clear(&mut self) {
        self.text.clear();
    }

    pub fn add(&mut self, text: &str) {
        if self.text.push_str(text).is_err() {
            self.is_whole = false;
        }
    }

    pub fn add_char(&mut self, letter: char) {
        if self.text.push(letter).is_err() {
            self.is_whole = false;
        }
    }

    pub fn add_number(&mut self, number: u64) {
        let mut buffer = Buffer::new();
        self.add(buffer.format(number));
    }

    /// Bytes of a text, with a point for each that is none of printable ASCII, so that each takes one column.
    pub fn add_bytes(&mut self, bytes: &[u8]) {
        for byte in bytes {
            self.add_char(shown(*byte));
        }
    }

    /// A name of a file, with a point for each control character.
    pub fn add_name(&mut self, name: &str) {
        for letter in name.chars() {
            self.add_char(if letter.is_control() {
                UNPRINTED
            } else {
                letter
            });
        }
    }

    /// Bytes of no text, as far as a line goes, with a `\xHH` for each that is none of printable ASCII.
    pub fn add_escaped(&mut self, bytes: &[u8]) {
        for byte in bytes.iter().take(MOST_ESCAPED) {
            if is_printed(*byte) {
                self.add_char(char::from(*byte));
            } else {
                self.add("\\x");
                self.add_digit(*byte / 16);
                self.add_digit(*byte % 16);
            }
        }
        if bytes.len() > MOST_ESCAPED {
            self.add("..");
        }
    }

    /// A digit of base 16.
    fn add_digit(&mut self, digit: u8) {
        self.add_char(char::from_digit(u32::from(digit), 16).unwrap_or(UNPRINTED));
    }

    /// A letter so many times.
    pub fn add_times(&mut self, letter: char, times: usize) {
        for _ in 0..times {
            self.add_char(letter);
        }
    }

    /// What another page has.
    pub fn add_page(&mut self, page: &Page) {
        self.add(page.text.as_str());
        if !page.is_whole {
            self.is_whole = false;
        }
    }
}

/// The letter that stands for a byte.
fn shown(byte: u8) -> char {
    if is_printed(byte) {
        char::from(byte)
    } else {
        UNPRINTED
    }
}

/// Whether a byte is of printable ASCII.
pub fn is_printed(byte: u8) -> bool {
    matches!(byte, 32..=126)
}
