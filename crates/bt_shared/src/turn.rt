// One turn of a seat: it draws a ticket, waits for it, uses the object where it stands and passes the turn on.
//
//     word 0   the next ticket to be drawn        here 7: tickets 0 to 6 were drawn
//     word 1   the ticket that is served          here 4: its caller has the turn, 5 and 6 wait, 0 to 3 are done
//     slot     the object                         out with the caller of ticket 4
//
// A draw adds 1 to word 0 and gives what stood there; who is done adds 1 to word 1 and rings the bell of the next ticket.
ghost use Rattle.std.specs.Prelude.{◌≡◌, ◌≤◌, ◌+◌, ℕ, [], ◌∷◌, ◌++◌, List, Some, IfOk, MatchResult, OnErr};
ghost use Rattle.bt_shared.specs.declared.object.TurnEntry.{TurnEntry};
ghost use Rattle.bt_shared.specs.declared.turn.TheConstants.{SPINS};
ghost use Rattle.bt_shared.specs.Legal.{entry_of};
ghost use Rattle.bt_shared.specs.Passes.{Gains};
ghost use Rattle.bt_shared.specs.Turns.{IsSized, IsIdle, HasOut, HasTurn, MayGive, passed, rested};
ghost use Rattle.atomic_table.specs.Table.{step};
ghost use mathlib.Core.Option.{none};

use crate::bells::Bells;
use crate::plays::{Draw, Look, PassOn};
use crate::{Object, TurnView, Turns};
use atomic_table::{Seat, Shared};
use bt_frame::OutOfMemory;
use std::alloc::Global;
use std::hint::spin_loop;
use std::snapshot::Snapshot;
use std::sync::Wait;

/// How often the next caller looks again at once, before it sleeps. A call on an object in memory is mostly done by then.
const SPINS: u32 = 50;

pub(crate) type Top<O> = Shared<
    Option<O>,
    TurnView<O, <O as Object>::Call, <O as Object>::Reply>,
    Snapshot<O>,
    Turns,
>;

pub(crate) type Place<O> = Seat<Option<O>, TurnView<O, <O as Object>::Call, <O as Object>::Reply>>;

// Draws a ticket, and waits until it is served. The object is then the seat's. The wait has no bound.
fn take_turn<O: Object, R: Wait>(rt: &R, top: &Top<O>, bells: &Bells, place: &mut Place<O>)
    requires table { (place.old.table_id ≡ top.now.table_id) × IsSized top.now.table_id }
    requires idle { IsIdle place.old.me }
    requires start { place.old.me.0.start ≡ Some top.now.key.value }
    ensures same { (place.new.table_id ≡ place.old.table_id) × (place.new.id ≡ place.old.id) }
    ensures turn { (k : ℕ) × HasTurn O.steps O.history k place.old.me place.new.me }
{
    let ticket = top.fetch_add::<Draw>(place, 0, 1);
    let mut looks = 0;
    for _ in rt.forever() {
        let served = top.load::<Look<O>>(place, 1);
        if served == ticket {
            return;
        }
        let is_next = ticket.wrapping_sub(served) == 1;
        looks = pause(rt, bells, ticket, is_next, looks);
    }
    unreachable!()
}

// What a caller does after a look that did not find its ticket served, and how many looks that counts to. The next caller
// looks again for a while, since the one before it is mostly done at once; any other would look in vain. Then the caller says
// that it will sleep, which counts to one more than `SPINS`, looks once more, and sleeps.
fn pause<R: Wait>(rt: &R, bells: &Bells, ticket: u64, is_next: bool, looks: u32) -> u32
    ensures few { result ≤ SPINS + 1 }
{
    if is_next && looks < SPINS {
        spin_loop();
        looks + 1
    } else if looks <= SPINS {
        bells.announce(ticket);
        SPINS + 1
    } else {
        bells.sleep(rt, ticket);
        SPINS
    }
}

// The object that is out with the seat answers a call where it stands, so that it is not moved.
fn use_object<O: Object>(
    alloc: Global,
    top: &Top<O>,
    place: &mut Place<O>,
    caller: u32,
    call: O::Call,
) -> Result<O::Reply, OutOfMemory>
    requires table { place.old.table_id ≡ top.now.table_id }
    requires out { HasOut place.old.me (λ object. O.takes object call) }
    ensures same { (place.new.table_id ≡ place.old.table_id) × (place.new.id ≡ place.old.id) }
    ensures view { place.new.me.0 ≡ place.old.me.0 }
    ensures answered { HasOut place.old.me (λ before. HasOut place.new.me (λ after.
        IfOk result (λ reply. O.steps before caller call reply after)
        × IfOk result (λ reply. O.history after ≡ O.history before ++ entry_of caller call reply ∷ [])
        × OnErr result (after ≡ before))) }
{
    match place.slot_mut(top, 0) {
        Some(object) => object.apply(alloc, caller, call),
        None => unreachable!(),
    }
}

// Gives the object back, and passes the turn on. The seat has then seen the history with its own call in it.
fn give_back<O: Object>(top: &Top<O>, bells: &Bells, place: &mut Place<O>)
    requires table { (place.old.table_id ≡ top.now.table_id) × IsSized top.now.table_id }
    requires may { (k : ℕ) × (b : List (TurnEntry O.Call O.Reply)) × (place.old.me.0.ticket ≡ Some k) × (place.old.me.0.base ≡ Some b)
        × HasOut place.old.me (λ object. MayGive O.steps O.history top.now.key.value b place.old.me.0.number object) }
    ensures same { (place.new.table_id ≡ place.old.table_id) × (place.new.id ≡ place.old.id) }
    ensures passed { passed O.history (step 1 1 1 0 none) place.old.me 0 place.new.me }
{
    let served = top.fetch_add::<PassOn<O>>(place, 1, 1);
    bells.ring(served.wrapping_add(1));
}

/// One call of the caller whose seat it is, in its turn.
pub(crate) fn call_at<O: Object, R: Wait>(
    rt: &R,
    alloc: Global,
    top: &Top<O>,
    bells: &Bells,
    place: &mut Place<O>,
    caller: u32,
    call: O::Call,
) -> Result<O::Reply, OutOfMemory>
    requires table { (place.old.table_id ≡ top.now.table_id) × IsSized top.now.table_id }
    requires idle { IsIdle place.old.me }
    requires number { place.old.me.0.number ≡ caller }
    requires start { place.old.me.0.start ≡ Some top.now.key.value }
    requires test { O.takes top.now.key.value call }
    ensures same { (place.new.table_id ≡ place.old.table_id) × (place.new.id ≡ place.old.id) }
    ensures rested { place.new.me ≡ (rested place.old.me.0 place.new.me.0.seen, []) }
    ensures call { MatchResult result
        (λ reply. Gains O.steps top.now.key.value place.old.me.0.seen (entry_of caller call reply) place.new.me.0.seen)
        (λ _. place.new.me.0.seen ≡ place.old.me.0.seen) }
{
    take_turn(rt, top, bells, place);
    let answer = use_object(alloc, top, place, caller, call);
    give_back(top, bells, place);
    answer
}
