// A call is answered: a change that is asked for is refused for its first cause, or it is made and its line kept.
ghost use Rattle.std.specs.Prelude.{◌≡◌, ℕ, ◌+◌, ◌≤◌, false, List, Option};
ghost use Rattle.bt_frame.specs.declared.limits.TheConstants.{MOST_UNITS};
ghost use Rattle.bt_outside.specs.Crash.{Crashes, IsSettled};
ghost use Rattle.bt_journal.specs.Journal.{is_made};
ghost use Rattle.bt_journal.specs.JournalLines.{IsChangeInRange, edits_in, units_in};
ghost use Rattle.bt_history.specs.Changes.{edition};
ghost use Rattle.bt_history.specs.Causes.{IsChangeOn, IsGood};
ghost use Rattle.bt_history.specs.Machine.{IsOfNetwork, Step, line_behind};
ghost use Rattle.bt_history.specs.Records.{IsBookFull, IsSpelled, call_of};
ghost use Rattle.bt_history.specs.Store.{is_lost};
ghost use Rattle.bt_book.specs.Answered.{Answers, with_store};

use crate::machine::Machine;
use crate::place::parts_of;
use bt_frame::{EditionNo, OutOfMemory};
use bt_journal::{Call, Change, Edit, Entry, Reply, write_change};
use bt_outside::Keeper;
use std::alloc::Global;
use std::mem;

impl Machine {
    /// Answers a call, and keeps its entry. The line of a change that is made is kept in the store.
    pub(crate) fn apply<K: Keeper>(
        &mut self,
        alloc: Global,
        caller: u32,
        call: Call,
        store: &mut K,
    ) -> Result<Reply, OutOfMemory>
        requires on { IsOfNetwork self.old.net call }
        requires settled { self.old.state.stopped ≡ false → IsSettled (K.told store.old) (K.crashes store.old) }
        ensures { Answers (with_store self.old (K.told store.old) (K.fault_count store.old) (K.crashes store.old)) caller call result
            (with_store self.new (K.told store.new) (K.fault_count store.new) (K.crashes store.new)) }
    {
        match call {
            Call::Snapshot => self.snapshot(alloc, caller),
            Call::Newest { after } => self.newest_after(alloc, caller, after),
            Call::Edit(edit) => self.change(alloc, caller, Change::Edit(edit), store),
            Call::Install(plan) => self.change(alloc, caller, Change::Install(plan), store),
            Call::Place(order) => self.change(alloc, caller, Change::Order(order), store),
        }
    }

    /// Answers a change that is asked for: refuses it for its first cause, or makes it and keeps its line in the store.
    fn change<K: Keeper>(
        &mut self,
        alloc: Global,
        caller: u32,
        asked: Change,
        store: &mut K,
    ) -> Result<Reply, OutOfMemory>
        requires on { IsChangeOn self.old.net asked }
        requires settled { self.old.state.stopped ≡ false → IsSettled (K.told store.old) (K.crashes store.old) }
        ensures { Answers (with_store self.old (K.told store.old) (K.fault_count store.old) (K.crashes store.old)) caller (call_of asked) result
            (with_store self.new (K.told store.new) (K.fault_count store.new) (K.crashes store.new)) }
    {
        if self.stopped {
            return self.answer(alloc, caller, call_of(asked), Reply::Stopped);
        }
        match self.cause_in(alloc, &asked)? {
            Some(cause) => self.answer(alloc, caller, call_of(asked), cause),
            None => self.make_where_room(alloc, caller, asked, store),
        }
    }

    /// Makes a good change where the journal has room for its line.
    fn make_where_room<K: Keeper>(
        &mut self,
        alloc: Global,
        caller: u32,
        asked: Change,
        store: &mut K,
    ) -> Result<Reply, OutOfMemory>
        requires on { IsChangeOn self.old.net asked }
        requires runs { self.old.state.stopped ≡ false }
        requires good { IsGood self.old.net self.old.state.changes asked }
        requires settled { IsSettled (K.told store.old) (K.crashes store.old) }
        ensures { Answers (with_store self.old (K.told store.old) (K.fault_count store.old) (K.crashes store.old)) caller (call_of asked) result
            (with_store self.new (K.told store.new) (K.fault_count store.new) (K.crashes store.new)) }
    {
        let number = self.number_of(&asked);
        let mut line = mem::replace(&mut self.line, Vec::new(alloc));
        line.clear();
        write_change(alloc, self.network(), number, &asked, &mut line)?;
        let reply = self.make_with_line(alloc, caller, asked, line.as_slice(), store);
        self.line = line;
        reply
    }

    /// Makes a good change where the journal has room for its line, which is this one.
    fn make_with_line<K: Keeper>(
        &mut self,
        alloc: Global,
        caller: u32,
        asked: Change,
        line: &[u8],
        store: &mut K,
    ) -> Result<Reply, OutOfMemory>
        requires on { IsChangeOn self.old.net asked }
        requires runs { self.old.state.stopped ≡ false }
        requires good { IsGood self.old.net self.old.state.changes asked }
        requires line { line.now ≡ line_behind self.old.net self.old.state.changes asked }
        requires spelled { IsSpelled self.old.net self.old.state.changes asked }
        requires settled { IsSettled (K.told store.old) (K.crashes store.old) }
        ensures { Answers (with_store self.old (K.told store.old) (K.fault_count store.old) (K.crashes store.old)) caller (call_of asked) result
            (with_store self.new (K.told store.new) (K.fault_count store.new) (K.crashes store.new)) }
    {
        match self.book_full(line.len()) {
            Some(full) => self.answer(alloc, caller, call_of(asked), full),
            None => self.make(alloc, caller, asked, line, store),
        }
    }

    /// The edition that the line of a good change is spelled with: the one that an edit makes, or the last.
    fn number_of(&self, asked: &Change) -> EditionNo
        requires on { IsChangeOn self.now.net asked.now }
        requires good { IsGood self.now.net self.now.state.changes asked.now }
        ensures number { result.0 ≡ edition self.now.state.changes + edits_in asked.now }
        ensures range { IsChangeInRange self.now.net result.0 asked.now }
    {
        // This is there for what holds of each network: it is sound.
        let _slots = self.kept.occupancy.slots();
        match asked {
            Change::Edit(edit) => {
                // This is there for the range of its units.
                let _units = units_in(edit);
                EditionNo(self.kept.edits + 1)
            }
            Change::Install(plan) => {
                // This is there for what holds of the bursts of each plan: they are in order.
                let _bursts = plan.bursts.as_slice();
                EditionNo(self.kept.edits)
            }
            Change::Order(order) => {
                // This is there for the range of its numbers.
                let _parts = parts_of(order);
                EditionNo(self.kept.edits)
            }
        }
    }

    /// The refusal of a good change whose line, of so many bytes, the journal has no room for.
    fn book_full(&self, line: usize) -> Option<Reply>
        ensures { IsBookFull self.now.net self.now.state.changes line result }
    {
        let room = self.network().journal();
        if self.kept.bytes <= room && line <= (room - self.kept.bytes) as usize {
            None
        } else {
            Some(Reply::BookFull {
                length: self.kept.bytes,
            })
        }
    }

    /// Answers a call that leaves the changes as they are, and keeps its entry. No store is asked for anything.
    #[inline(never)]
    pub(crate) fn answer(
        &mut self,
        alloc: Global,
        caller: u32,
        call: Call,
        reply: Reply,
    ) -> Result<Reply, OutOfMemory>
        requires step { Step self.old.net self.old.state call reply self.old.state }
        requires not_made { is_made reply ≡ false }
        requires not_lost { is_lost reply ≡ false }
        ensures { (told : Option (List ℕ)) (faults : ℕ) (crashes : Option Crashes) → Answers (with_store self.old told faults crashes) caller call result
            (with_store self.new told faults crashes) }
    {
        let kept = reply.copy(alloc)?;
        self.history.push(Entry {
            caller,
            call,
            reply: kept,
        })?;
        Ok(reply)
    }
}

/// The call that asks for a change.
pub(crate) fn call_of(asked: Change) -> Call
    ensures { result ≡ call_of asked }
{
    match asked {
        Change::Edit(edit) => Call::Edit(edit),
        Change::Install(plan) => Call::Install(plan),
        Change::Order(order) => Call::Place(order),
    }
}

/// The units of an edit.
fn units_in(edit: &Edit) -> u32
    ensures same { result ≡ units_in edit.now }
    ensures some { 1 ≤ result }
    ensures few { result ≤ MOST_UNITS }
{
    match *edit {
        Edit::Add { units, .. } | Edit::Drop { units, .. } | Edit::Move { units, .. } =>
            units.get(),
    }
}
