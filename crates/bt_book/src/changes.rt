// The changes that a machine made. Clauses alone see them: at run time there are no bytes of them.
ghost use Rattle.std.specs.Prelude.{◌≡◌, ◌++◌, ◌∷◌, []};

use bt_demand::empty_plan;
use bt_journal::Change;
use http_server::Log;
use std::alloc::Global;
use std::marker::Model;

/// The changes that a machine made, the first first: those of its journal, and those of its calls. A log is copied with one
/// note more alone, so that a note says whether it counts.
#[derive(Drop)]
pub(crate) struct Changes {
    notes: Log<Change, bool>,
}

impl Model for Changes {
    ghost use Rattle.std.specs.Prelude.{List};
    ghost use Rattle.bt_journal.specs.declared.call.Change.{Change};
    ghost use Rattle.bt_book.specs.Noted.{changes_noted};

    ghost Value = { List Change };

    ghost view = { λ a. changes_noted a.notes.items };
}

impl Changes {
    /// No change.
    pub(crate) fn none() -> Changes
        ensures none { result ≡ [] }
    {
        Changes { notes: Log::new() }
    }

    /// One change more.
    pub(crate) fn push(&mut self, change: &Change)
        ensures pushed { self.new ≡ self.old ++ change.now ∷ [] }
    {
        self.notes = self.notes.and(change, &true);
    }

    /// The same changes. Takes no memory.
    pub(crate) fn copy(&self, alloc: Global) -> Changes
        ensures same { result ≡ self.now }
    {
        let none = Change::Install(empty_plan(alloc));
        Changes {
            notes: self.notes.and(&none, &false),
        }
    }
}
