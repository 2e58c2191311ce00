// Where a value stands in a text of JSON: it is looked for by its place, such as `terminals[3].name`.
use crate::near::Near;
use bt_text::{is_word, number};
use memchr::memchr;
use std::alloc::Global;

/// Where a value stands.
#[derive(Clone, Copy)]
pub struct Spot<'a> {
    /// Its line, counted from 1.
    pub line: u32,
    /// Its first byte in the line, counted from 0.
    pub column: usize,
    /// The bytes of a text or of a number; of an object or a list the first.
    pub value: &'a [u8],
}

/// A place of a network's file.
#[derive(Clone, Copy)]
struct Sought<'a> {
    field: &'a [u8],
    /// The entry of the field; None where the field is meant.
    entry: Option<u64>,
    /// The member of the entry; no bytes where the entry is meant.
    member: &'a [u8],
}

/// The place that is printed so.
fn sought_in(place: &[u8]) -> Sought<'_> {
    let Some(open) = memchr(b'[', place) else {
        return Sought {
            field: place,
            entry: None,
            member: &[],
        };
    };
    let field = place.get(..open).unwrap_or(&[]);
    let behind = place.get(open.saturating_add(1)..).unwrap_or(&[]);
    let close = memchr(b']', behind).unwrap_or(0);
    Sought {
        field,
        entry: number(behind.get(..close).unwrap_or(&[])),
        // a bracket and a point stand in front of it
        member: behind.get(close.saturating_add(2)..).unwrap_or(&[]),
    }
}

/// How far a text is read.
#[derive(Drop)]
struct Reading<'a> {
    text: &'a [u8],
    at: usize,
    line: u32,
    line_start: usize,
    /// How many objects and lists are open.
    depth: u32,
    /// The name of the last field of the outermost object.
    field: &'a [u8],
    /// Which entry of that field is read.
    entry: u64,
    /// The name of the last member of an entry.
    member: &'a [u8],
    /// A value is to come next, and no name.
    is_value: bool,
}

/// Where the value of a place stands; the last one, where there are several; None where there is none.
pub fn find_spot<'a>(text: &'a [u8], place: &[u8]) -> Option<Spot<'a>> {
    let sought = sought_in(place);
    let mut reading = Reading::new(text);
    let mut found = None;
    for _ in 0..text.len() {
        if reading.is_at(&sought) {
            found = Some(reading.spot());
        }
        reading.pass();
    }
    found
}

/// Where the last name of a field, or of a member of the same entry, stands that is near to that of a place; None where there is
/// none. The bytes of the spot are the name in its quotes.
pub fn find_near_name<'a>(alloc: Global, text: &'a [u8], place: &[u8]) -> Option<Spot<'a>> {
    let sought = sought_in(place);
    let mut reading = Reading::new(text);
    let mut found = None;
    for _ in 0..text.len() {
        if reading.is_at_name(&sought) {
            let spot = reading.spot();
            if is_near(alloc, inside(spot.value), name_in(place)) {
                found = Some(spot);
            }
        }
        reading.pass();
    }
    found
}

fn is_near<'a>(alloc: Global, name: &'a [u8], wanted: &'a [u8]) -> bool {
    let mut near = Near::to(name);
    if let Ok(wanted) = str::from_utf8(wanted) {
        near.look(alloc, wanted);
    }
    near.is_found()
}

/// The text between its quotes.
pub fn inside(value: &[u8]) -> &[u8] {
    match value {
        [b'"', inside @ .., b'"'] => inside,
        _ => value,
    }
}

/// The name that stands in front of the value of a place.
pub fn name_in(place: &[u8]) -> &[u8] {
    let sought = sought_in(place);
    if sought.member.is_empty() {
        sought.field
    } else {
        sought.member
    }
}

impl<'a> Reading<'a> {
    fn new(text: &'a [u8]) -> Reading<'a> {
        Reading {
            text,
            at: 0,
            line: 1,
            line_start: 0,
            depth: 0,
            field: b"top",
            entry: 0,
            member: &[],
            is_value: true,
        }
    }

    /// The byte that comes next; a space behind the end.
    fn byte(&self) -> u8 {
        self.text.get(self.at).copied().unwrap_or(b' ')
    }

    /// Whether the value of this place begins here.
    fn is_at(&self, sought: &Sought<'_>) -> bool {
        let begins = self.is_value
            && !matches!(self.byte(), b' ' | b'\n' | b'\r' | b'\t' | b',' | b':');
        begins && is_word(self.field, sought.field) && self.is_at_depth(sought)
    }

    /// Whether the name of a field begins here, or of a member of the entry of this place.
    fn is_at_name(&self, sought: &Sought<'_>) -> bool {
        let begins = !self.is_value && self.byte() == b'"';
        begins
            && match sought.entry {
                None => self.depth == 1,
                Some(entry) => {
                    self.depth == 3 && self.entry == entry && is_word(self.field, sought.field)
                }
            }
    }

    fn is_at_depth(&self, sought: &Sought<'_>) -> bool {
        match sought.entry {
            None => self.depth <= 1,
            Some(entry) if sought.member.is_empty() => self.depth == 2 && self.entry == entry,
            Some(entry) => {
                self.depth == 3 && self.entry == entry && is_word(self.member, sought.member)
            }
        }
    }

    fn spot(&self) -> Spot<'a> {
        let rest = self.text.get(self.at..).unwrap_or(&[]);
        Spot {
            line: self.line,
            column: self.at.saturating_sub(self.line_start),
            value: rest.get(..value_len(rest)).unwrap_or(&[]),
        }
    }

    /// Passes a text, or another byte.
    fn pass(&mut self) {
        match self.byte() {
            b'"' => self.pass_text(),
            byte => self.pass_byte(byte),
        }
    }

    fn pass_text(&mut self) {
        let rest = self.text.get(self.at..).unwrap_or(&[]);
        let length = text_len(rest);
        if !self.is_value {
            let name = rest.get(1..length.saturating_sub(1)).unwrap_or(&[]);
            if self.depth == 1 {
                self.field = name;
            } else if self.depth == 3 {
                self.member = name;
            }
        }
        self.is_value = false;
        self.at = self.at.saturating_add(length);
    }

    fn pass_byte(&mut self, byte: u8) {
        self.at = self.at.saturating_add(1);
        match byte {
            b'\n' => {
                self.line = self.line.saturating_add(1);
                self.line_start = self.at;
            }
            b'{' => self.open(false),
            b'[' => self.open(true),
            b'}' | b']' => self.depth = self.depth.saturating_sub(1),
            b':' => self.is_value = true,
            b',' => {
                if self.depth == 2 {
                    self.entry = self.entry.saturating_add(1);
                }
                // the entries of a field are values, and so are those of other lists, of which none is sought
                self.is_value = self.depth == 2;
            }
            b' ' | b'\t' | b'\r' => {}
            _ => self.is_value = false,
        }
    }

    fn open(&mut self, is_list: bool) {
        self.depth = self.depth.saturating_add(1);
        if self.depth == 2 {
            self.entry = 0;
        }
        self.is_value = is_list;
    }
}

/// How many bytes of a value are shown: those of a text or of a number, else the first.
fn value_len(rest: &[u8]) -> usize {
    match rest {
        [b'"', ..] => text_len(rest),
        [b'{' | b'[', ..] => 1,
        _ => word_len(rest),
    }
}

/// How many bytes a text has, its quotes among them.
fn text_len(rest: &[u8]) -> usize {
    let mut length: usize = 0;
    let mut is_escaped = true;
    for byte in rest {
        length = length.saturating_add(1);
        if *byte == b'"' && !is_escaped {
            return length;
        }
        is_escaped = *byte == b'\\' && !is_escaped;
    }
    length
}

/// How many bytes a number or a word has.
fn word_len(rest: &[u8]) -> usize {
    let mut length: usize = 0;
    for byte in rest {
        if matches!(*byte, b',' | b'}' | b']' | b' ' | b'\n' | b'\r' | b'\t') {
            return length;
        }
        length = length.saturating_add(1);
    }
    length
}
