// The entries of a history.
ghost use Rattle.std.specs.Prelude.{◌≡◌};

use crate::{Call, Reply};
use std::marker::Model;

/// One call on the book: who called, what was asked, and what was answered.
#[derive(Drop)]
pub struct Entry {
    /// The number of the caller.
    pub caller: u32,
    pub call: Call,
    pub reply: Reply,
}

/// The entries of a history in order.
#[derive(Drop)]
pub struct Entries {
    entries: Vec<Entry>,
}

impl Model for Entries {
    ghost use Rattle.std.specs.Prelude.{List};
    ghost use Rattle.bt_journal.specs.declared.entry.Entry.{Entry};

    ghost Value = { List Entry };

    ghost view = { λ a. a.entries.items };
}

impl Entries {
    /// These entries.
    pub fn of(entries: Vec<Entry>) -> Entries
        ensures same { result ≡ entries.items }
    {
        Entries { entries }
    }

    /// The entries in order.
    pub fn as_slice(&self) -> &[Entry]
        ensures same { result.now ≡ self.now }
    {
        self.entries.as_slice()
    }
}
