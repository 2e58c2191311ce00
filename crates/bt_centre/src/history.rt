// The histories of a run, and of a session.
ghost use Rattle.std.specs.Prelude.{◌≡◌, ◌++◌, ◌∷◌, []};
ghost use Rattle.bt_centre.specs.Handed.{history_of};

use bt_journal::Entries;
use bt_outside::Trace;
use std::alloc::Global;
use std::marker::Model;

/// What was asked of the book and answered between two starts of the centre.
#[derive(Drop)]
pub struct History {
    /// How many changes the book had at the start.
    pub before: u32,
    /// The entries of all calls since.
    pub entries: Entries,
}

/// The histories of a run, one for each start of the centre, in order.
#[derive(Drop)]
pub struct Histories {
    histories: Vec<History>,
}

impl Model for Histories {
    ghost use Rattle.std.specs.Prelude.{List};
    ghost use Rattle.bt_centre.specs.declared.history.History.{History};

    ghost Value = { List History };

    ghost view = { λ a. a.histories.items };
}

impl Histories {
    /// None: nothing was run.
    pub fn none(alloc: Global) -> Histories
        ensures none { result ≡ [] }
    {
        Histories {
            histories: Vec::new(alloc),
        }
    }

    /// These histories.
    pub fn of(histories: Vec<History>) -> Histories
        ensures same { result ≡ histories.items }
    {
        Histories { histories }
    }

    /// The histories in order.
    pub fn as_slice(&self) -> &[History]
        ensures same { result.now ≡ self.now }
    {
        self.histories.as_slice()
    }
}

/// The histories of a session, one for each start of the centre, in order. Clauses read them; at run time there are no bytes of
/// them.
#[derive(Drop)]
pub struct SessionHistories {
    // of each time how many changes the book had at its start, and the entries that it handed over
    times: Trace<u32, Trace<Entries, ()>>,
}

impl Model for SessionHistories {
    ghost use Rattle.std.specs.Prelude.{List};
    ghost use Rattle.bt_centre.specs.declared.history.History.{History};
    ghost use Rattle.bt_centre.specs.Handed.{histories_of};

    ghost Value = { List History };

    ghost view = { λ a. histories_of a.times };
}

impl SessionHistories {
    /// None: nothing was played.
    pub fn none() -> SessionHistories
        ensures none { result ≡ [] }
    {
        SessionHistories {
            times: Trace::new(),
        }
    }

    /// The history of a time behind them, with the changes at its start, and the entries that were handed over.
    pub(crate) fn push(&mut self, before: u32, entries: &Trace<Entries, ()>)
        ensures pushed { self.new ≡ self.old ++ history_of (before, entries.now) ∷ [] }
    {
        self.times.push(&before, entries);
    }
}
