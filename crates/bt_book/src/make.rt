// A change is made and its line kept, or neither: all room is taken before the store is asked, and nothing can fail behind it.
ghost use Rattle.std.specs.Prelude.{◌≡◌, ◌<◌, ◌≤◌, ◌++◌, ◌∷◌, [], true, false, not, IfOk, OnErr, OnOk, vec_capacity, vec_len};
ghost use Rattle.bt_outside.specs.Told.{gained, GainsPrefix, Rose};
ghost use Rattle.bt_outside.specs.Crash.{IsSettled};
ghost use Rattle.bt_history.specs.Causes.{IsChangeOn};
ghost use Rattle.bt_history.specs.Machine.{CanMake, line_behind};
ghost use Rattle.bt_history.specs.Records.{Endures, IsSpelled, call_of};
ghost use Rattle.bt_book.specs.Answered.{Answers, with_store};
ghost use Rattle.bt_book.specs.Kept.{reply_to};

use crate::change::call_of;
use crate::machine::Machine;
use bt_frame::{EditionNo, OutOfMemory};
use bt_journal::{Call, Change, Entry, Reply};
use bt_outside::{KeepFault, Keeper};
use std::alloc::Global;

impl Machine {
    /// Makes a change, and keeps its line.
    pub(crate) fn make<K: Keeper>(
        &mut self,
        alloc: Global,
        caller: u32,
        asked: Change,
        line: &[u8],
        store: &mut K,
    ) -> Result<Reply, OutOfMemory>
        requires on { IsChangeOn self.old.net asked }
        requires can { CanMake self.old.net self.old.state asked }
        requires line { line.now ≡ line_behind self.old.net self.old.state.changes asked }
        requires spelled { IsSpelled self.old.net self.old.state.changes asked }
        requires settled { IsSettled (K.told store.old) (K.crashes store.old) }
        ensures { Answers (with_store self.old (K.told store.old) (K.fault_count store.old) (K.crashes store.old)) caller (call_of asked) result
            (with_store self.new (K.told store.new) (K.fault_count store.new) (K.crashes store.new)) }
    {
        // This is there for what holds of each network: it is sound.
        let _slots = self.kept.occupancy.slots();
        let change = copy_of(alloc, &asked)?;
        self.kept.reserve(alloc, &asked)?;
        if keep_line(alloc, &mut self.history, line, store)? {
            self.kept.apply(change, line.len() as u32);
            let edition = EditionNo(self.kept.edits);
            let length = self.kept.occupancy.length();
            let reply = reply_to(&asked, edition, length);
            let told = reply_to(&asked, edition, length);
            keep_entry(&mut self.history, caller, call_of(asked), told);
            Ok(reply)
        } else {
            drop(change);
            self.stopped = true;
            keep_entry(&mut self.history, caller, call_of(asked), Reply::StoreFault);
            Ok(Reply::StoreFault)
        }
    }
}

/// An equal change.
fn copy_of(alloc: Global, asked: &Change) -> Result<Change, OutOfMemory>
    ensures { IfOk result (λ copy. copy ≡ asked.now) }
{
    match asked {
        Change::Edit(edit) => Ok(Change::Edit(*edit)),
        Change::Install(plan) => Ok(Change::Install(plan.copy(alloc)?)),
        Change::Order(order) => Ok(Change::Order(*order)),
    }
}

/// The answer to a change that was made, where that is the last edition and the heaviest line has so many slots.
fn reply_to(asked: &Change, edition: EditionNo, length: u32) -> Reply
    ensures { result ≡ reply_to asked.now edition length }
{
    match asked {
        Change::Edit(_) => Reply::Done { edition, length },
        Change::Install(plan) => Reply::Installed {
            edition: plan.edition,
        },
        Change::Order(_) => Reply::Placed,
    }
}

/// Takes room for an entry of the history, and keeps a line. The answer says whether the line is kept.
fn keep_line<K: Keeper>(
    alloc: Global,
    history: &mut Vec<Entry>,
    line: &[u8],
    store: &mut K,
) -> Result<bool, OutOfMemory>
    requires { IsSettled (K.told store.old) (K.crashes store.old) }
    ensures told { IfOk result (λ kept. kept ≡ true → K.told store.new ≡ gained (K.told store.old) line.now) }
    ensures later { IfOk result (λ kept. kept ≡ true → K.fault_count store.old ≤ K.fault_count store.new) }
    ensures prefix { IfOk result (λ kept. kept ≡ false → GainsPrefix (K.told store.old) line.now (K.told store.new)) }
    ensures rose { IfOk result (λ kept. kept ≡ false → Rose (K.fault_count store.old) (K.fault_count store.new)) }
    ensures history { history.new.items ≡ history.old.items }
    ensures room { OnOk result (vec_len history.new < vec_capacity history.new) }
    ensures err_told { OnErr result (K.told store.new ≡ K.told store.old) }
    ensures err_faults { OnErr result (K.fault_count store.new ≡ K.fault_count store.old) }
    ensures endures { IfOk result (λ kept. Endures line.now (not kept) (K.told store.old) (K.told store.new) (K.crashes store.old) (K.crashes store.new)) }
    ensures err_crashes { OnErr result (K.crashes store.new ≡ K.crashes store.old) }
{
    history.reserve(1)?;
    match store.append(alloc, line) {
        Ok(()) => Ok(true),
        Err(KeepFault::Failed) => Ok(false),
        Err(KeepFault::OutOfMemory) => Err(OutOfMemory),
        Err(KeepFault::TooLong) => unreachable!(),
    }
}

/// Keeps the entry of a call. There is room for it.
fn keep_entry(history: &mut Vec<Entry>, caller: u32, call: Call, reply: Reply)
    requires { vec_len history.old < vec_capacity history.old }
    ensures { history.new.items ≡ history.old.items ++ record { caller = caller; call = call; reply = reply } ∷ [] }
{
    let entry = Entry {
        caller,
        call,
        reply,
    };
    history.push_reserved(entry);
}
