// What a run has in hand, and what is left of it.
ghost use Rattle.std.specs.Prelude.{◌≡◌, ◌<◌, ◌∷◌, [], false, true, ℕ, length, vec_capacity};
ghost use Rattle.bt_script.specs.Heard.{IsOnBus};
ghost use Rattle.bt_round.specs.AirLines.{hearing};
ghost use Rattle.bt_centre.specs.Progress.{Hand, IsLeftOf, Left};
ghost use Rattle.bt_centre.specs.Whole.{whole};

use crate::station::book_and_centre;
use crate::{Histories, History, RunEnd};
use bt_journal::{Entries, Entry};
use bt_outside::Keeper;
use bt_round::Station;
use bt_script::BusLine;
use bt_world::{Events, KeptEvents};
use std::alloc::Global;
use std::marker::Model;
use std::sync::Wait;
use std::thread::Threads;

/// A run in its present time. Its board shows the plans of its book. `E` says how the events of its world are kept.
pub(crate) struct Playing<K: Keeper, E: Events> {
    pub(crate) station: Station<K, E>,
    /// How many changes the book had when the time began.
    pub(crate) before: u32,
    /// The histories of the times that are over, with room for that of the present time.
    pub(crate) over: Vec<History>,
    /// The rounds so far.
    pub(crate) rounds: u64,
}

impl<K: Keeper, E: Events> Model for Playing<K, E> {
    ghost use Rattle.std.specs.Prelude.{◌<◌, length, vec_capacity};
    ghost use Rattle.bt_round.specs.Boards.{IsPublished};
    ghost use Rattle.bt_centre.specs.Progress.{Hand};

    ghost Value = { Hand };

    ghost view = { λ a. record {
      over = a.over.items;
      before = a.before;
      book = a.station.book;
      air = a.station.centre;
      rounds = a.rounds;
    } };

    ghost invariant = { λ a. (length a.over.items < vec_capacity a.over)
        × IsPublished a.station.book.state.changes a.station.publisher a.station.readers.items };
}

/// What is left of a run: the store, the histories of all times, and the events.
#[derive(Drop)]
pub(crate) struct Remains<K: Keeper, E: Events> {
    pub(crate) store: K,
    pub(crate) histories: Vec<History>,
    pub(crate) events: E,
}

impl<K: Keeper, E: Events> Model for Remains<K, E> {
    ghost use Rattle.bt_centre.specs.Progress.{Left};

    ghost Value = { Left };

    ghost view = { λ a. record {
      told = K.told a.store;
      faults = K.fault_count a.store;
      crashes = K.crashes a.store;
      histories = a.histories.items;
      events = E.told a.events;
    } };
}

impl<K: Keeper, E: Events> Playing<K, E> {
    /// The run stops here.
    pub(crate) fn stop<R: Threads + Wait + Sync>(self, rt: &R, alloc: Global) -> Remains<K, E>
        ensures { IsLeftOf self result }
    {
        let Playing {
            station,
            before,
            over,
            rounds: _,
        } = self;
        leave(rt, alloc, station, before, over)
    }

    /// The centre hears a line of the bus.
    pub(crate) fn hear(&mut self, line: BusLine)
        requires on_bus { IsOnBus line }
        ensures heard { self.new ≡ record self.old { air = hearing self.old.air line } }
    {
        self.station.centre.hear(line);
    }

    /// The book hands its entries over, where its store has not failed.
    pub(crate) fn take_entries(&mut self, alloc: Global) -> Vec<Entry>
        ensures handed { whole self.new.over result.items self.new ≡ self.old }
        ensures none { self.old.book.state.stopped ≡ false → self.new.book.history ≡ [] }
        ensures kept { self.old.book.state.stopped ≡ true → result.items ≡ [] }
    {
        self.station.book.take_entries(alloc)
    }

    /// Takes the history of the one time that is over.
    pub(crate) fn take_time(&mut self) -> History
        requires one { length self.old.over ≡ 1 }
        ensures taken { self.old ≡ record self.new { over = result ∷ [] } }
        ensures none { self.new.over ≡ [] }
    {
        take_only(&mut self.over)
    }
}

/// Takes the only history out.
pub(crate) fn take_only(histories: &mut Vec<History>) -> History
    requires one { length histories.old.items ≡ 1 }
    ensures taken { histories.old.items ≡ result ∷ [] }
    ensures none { histories.new.items ≡ [] }
    ensures room { vec_capacity histories.new ≡ vec_capacity histories.old }
{
    match histories.pop() {
        Some(history) => history,
        None => unreachable!(),
    }
}

/// A run stops in the time that began with so many changes, behind these times.
pub(crate) fn leave<R: Wait, K: Keeper, E: Events>(
    rt: &R,
    alloc: Global,
    station: Station<K, E>,
    before: u32,
    over: Vec<History>,
) -> Remains<K, E>
    requires room { length over.items < vec_capacity over }
    ensures { (rounds : ℕ) → IsLeftOf (record { over = over.items; before = before; book = station.book; air = station.centre; rounds = rounds }) result }
{
    let mut histories = over;
    let (book, centre) = book_and_centre(rt, station);
    let (store, entries) = book.into_parts();
    histories.push_reserved(History {
        before,
        entries: Entries::of(entries),
    });
    Remains {
        store,
        histories,
        events: centre.into_told(alloc),
    }
}

impl<K: Keeper> Remains<K, KeptEvents> {
    /// The end of a run, with its status.
    pub(crate) fn end(self, status: u8) -> RunEnd<K>
        ensures status { result.status ≡ status }
        ensures told { K.told result.store ≡ self.told }
        ensures faults { K.fault_count result.store ≡ self.faults }
        ensures crashes { K.crashes result.store ≡ self.crashes }
        ensures histories { result.histories ≡ self.histories }
        ensures events { result.events.items ≡ self.events }
    {
        RunEnd {
            status,
            store: self.store,
            histories: Histories::of(self.histories),
            events: self.events.into_events(),
        }
    }
}
