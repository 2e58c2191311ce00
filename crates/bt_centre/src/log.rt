// What a session's book handed over. Clauses see all of it; at run time it is its tally alone.
ghost use Rattle.std.specs.Prelude.{◌≡◌, ◌++◌, ◌∷◌, []};
ghost use Rattle.bt_centre.specs.Handed.{IsTally, with_front};
ghost use Rattle.bt_centre.specs.Run.{entries_of};

use crate::tally::Tally;
use crate::{History, SessionHistories};
use bt_journal::Entries;
use bt_outside::Trace;
use std::marker::Model;
use std::mem;

/// The times that are over, and the entries of the present one that were handed over.
#[derive(Drop)]
pub(crate) struct Log {
    times: SessionHistories,
    front: Trace<Entries, ()>,
    tally: Tally,
}

impl Model for Log {
    ghost use Rattle.std.specs.Prelude.{◌++◌};
    ghost use Rattle.bt_centre.specs.Handed.{IsTally, Logged, joined};
    ghost use Rattle.bt_centre.specs.Run.{entries_of};

    ghost Value = { Logged };

    ghost view = { λ a. record { times = a.times; front = joined a.front } };

    ghost invariant = { λ a. IsTally (entries_of a.times ++ joined a.front) a.tally };
}

impl Log {
    /// Nothing was handed over yet.
    pub(crate) fn new() -> Log
        ensures times { result.times ≡ [] }
        ensures front { result.front ≡ [] }
    {
        Log {
            times: SessionHistories::none(),
            front: Trace::new(),
            tally: Tally::none(),
        }
    }

    /// These entries of the present time were handed over, too.
    pub(crate) fn add(&mut self, entries: &Entries)
        ensures times { self.new.times ≡ self.old.times }
        ensures front { self.new.front ≡ self.old.front ++ entries.now }
    {
        self.tally = self.tally.with_entries(entries.as_slice());
        self.front.push(entries, &());
    }

    /// The present time is over: these are its entries behind those that were handed over.
    pub(crate) fn end_time(&mut self, history: &History)
        ensures times { self.new.times ≡ self.old.times ++ with_front self.old.front history.now ∷ [] }
        ensures front { self.new.front ≡ [] }
    {
        self.add(&history.entries);
        let front = mem::replace(&mut self.front, Trace::new());
        self.times.push(history.before, &front);
    }

    /// The session stops in the present time, with these entries behind those that were handed over. Gives the histories of
    /// all times, and their tally.
    pub(crate) fn stop(mut self, history: &History) -> (SessionHistories, Tally)
        ensures times { result.0 ≡ self.times ++ with_front self.front history.now ∷ [] }
        ensures tally { IsTally (entries_of result.0) result.1 }
    {
        self.end_time(history);
        let Log {
            times,
            front: _,
            tally,
        } = self;
        (times, tally)
    }
}
