// A clock, and the lines of a session that ask for it.
ghost use Rattle.std.specs.Prelude.{◌≡◌, ℕ, List, Option, IfOk, OnErr, Some, map};
ghost use Rattle.bt_text.specs.Text.{words};
ghost use Rattle.bt_talk.specs.Blocks.{clock_asked};
ghost use Rattle.bt_talk.specs.Clock.{Ticks};

use bt_frame::OutOfMemory;
use bt_text::{WordReader, is_word};
use std::alloc::Global;
use std::marker::Model;

/// A clock, which tells the present moment as text.
pub trait Clock {
    /// What it will tell, in order, where that is told.
    ghost coming: { Self → Option (List (List ℕ)) };

    /// The present moment, as `2026-12-01T05:44:37Z`; no text, or another, where it knows none.
    fn moment(&mut self, alloc: Global) -> Result<Vec<u8>, OutOfMemory>
        ensures ticks { IfOk result (λ told. Ticks (coming self.old) told.items (coming self.new)) }
        ensures unchanged { OnErr result (coming self.new ≡ coming self.old) };
}

/// A clock in memory, which tells what it was given, one after the other.
#[derive(Drop)]
pub struct MemClock {
    moments: Vec<Vec<u8>>,
}

impl Model for MemClock {
    ghost use Rattle.std.specs.Prelude.{ℕ, List, map};

    ghost Value = { List (List ℕ) };

    ghost view = { λ a. map (λ one. one.items) a.moments.items };
}

impl MemClock {
    /// It tells these.
    pub fn new(moments: Vec<Vec<u8>>) -> MemClock
        ensures { result ≡ map (λ one. one.items) moments.items }
    {
        MemClock { moments }
    }
}

impl Clock for MemClock {
    ghost coming = { λ moments. Some moments };

    fn moment(&mut self, alloc: Global) -> Result<Vec<u8>, OutOfMemory> {
        if self.moments.is_empty() {
            return Ok(Vec::new(alloc));
        }
        Ok(self.moments.remove(0))
    }
}

/// Whether a line asks that answers say when they are given, or that they don't, if it is of the clock.
pub(crate) fn clock_asked(text: &[u8]) -> Option<bool>
    ensures { result ≡ clock_asked (words text.now) }
{
    let mut words = WordReader::of(text);
    let Some(head) = words.next() else {
        return None;
    };
    let Some(word) = words.next() else {
        return None;
    };
    if !words.is_done() || !is_word(head, b"clock") {
        return None;
    }
    if is_word(word, b"on") {
        Some(true)
    } else if is_word(word, b"off") {
        Some(false)
    } else {
        None
    }
}
