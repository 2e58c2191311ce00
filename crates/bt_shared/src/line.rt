// The line, and the passes of its callers.
ghost use Rattle.std.specs.Prelude.{◌≡◌, ℕ, ◌<◌, ◌≤◌, [], List, MatchResult, IfOk, IfErr, vec_len, vec_capacity, slice_index_or};
ghost use Rattle.bt_frame.specs.declared.limits.TheConstants.{MOST_CALLERS};
ghost use Rattle.bt_shared.specs.declared.object.TurnEntry.{TurnEntry};
ghost use Rattle.bt_shared.specs.Legal.{IsHistory, calls_by, entry_of};
ghost use Rattle.bt_shared.specs.Passes.{HasSeen, Gains, IsOfLine, IsPass, IsSamePass, seen_at};
ghost use Rattle.bt_shared.specs.Turns.{IsSized, IsIdle, opening_view};

use crate::bells::Bells;
use crate::plays::{Admit, TakeIn};
use crate::turn::{Place, Top, call_at};
use crate::{Object, TurnView, Turns};
use atomic_table::{Refused, Table};
use bt_frame::OutOfMemory;
use std::alloc::Global;
use std::snapshot::Snapshot;
use std::sync::Wait;

/// An object whose callers take turns.
///
/// Contracts name a line by its table, `table.shared.table_id`, and the object from which it started,
/// `table.shared.key.value`. The history of the line is what the object has stored since.
pub struct Line<O: Object> {
    pub table: Table<Option<O>, TurnView<O, O::Call, O::Reply>, Snapshot<O>, Turns, Global>,
    bells: Bells,
    ghost sized: { IsSized table.shared.table_id },
}

/// What one caller calls with. Contracts see it as its place in the line, of which `seen_at` is the history that the
/// caller has seen, and its number.
#[derive(Drop)]
pub struct Pass<O: Object> {
    pub place: Place<O>,
    /// The number of the caller.
    pub number: u32,
    ghost idle: { IsIdle place.me },
    ghost numbered: { place.me.0.number ≡ number },
}

impl<O: Object> Line<O> {
    /// A line for so many callers, 1 to `MOST_CALLERS`, and their passes: the pass at place `k` has the number `k`, and has seen
    /// nothing yet. Where memory runs out, the object comes back.
    pub fn start(alloc: Global, object: O, seats: u32) -> Result<(Line<O>, Vec<Pass<O>>), O>
        requires seats { (0 < seats) × (seats ≤ MOST_CALLERS) }
        ensures start { IfOk result (λ made. made.0.table.shared.key.value ≡ object) }
        ensures count { IfOk result (λ made. vec_len made.1 ≡ seats) }
        ensures passes { IfOk result (λ made. (i : ℕ) (d : _) → i < vec_len made.1
            → IsPass made.0.table.shared.table_id object seats i (slice_index_or made.1.items i d).place) }
        ensures unseen { IfOk result (λ made. (i : ℕ) (d : _) → i < vec_len made.1
            → seen_at (slice_index_or made.1.items i d).place ≡ []) }
        ensures err { IfErr result (λ back. back ≡ object) }
    {
        let about = Snapshot::of(&object);
        let Ok(passes) = Vec::with_capacity(alloc, seats as usize) else {
            return Err(object);
        };
        let Ok(mut slots) = Vec::with_capacity(alloc, 1) else {
            passes.destroy_empty();
            return Err(object);
        };
        slots.push_reserved(Some(object));
        match Table::new(alloc, &[0, 0], slots, &about) {
            Ok((table, lead)) => {
                let passes = passes_of(&table.shared, lead, seats, passes);
                Ok((
                    Line {
                        table,
                        bells: Bells::new(),
                    },
                    passes,
                ))
            }
            Err(Refused { mut slots }) => {
                passes.destroy_empty();
                match slots.pop() {
                    Some(Some(object)) => {
                        slots.destroy_empty();
                        Err(object)
                    }
                    _ => unreachable!(),
                }
            }
        }
    }

    /// Calls the object when the caller's turn comes, and waits until then. That the turn comes is not promised. Where
    /// memory runs out, the object and the pass are as they were, and the call has no entry.
    pub fn call<R: Wait>(
        &self,
        rt: &R,
        alloc: Global,
        pass: &mut Pass<O>,
        call: O::Call,
    ) -> Result<O::Reply, OutOfMemory>
        requires of_line { IsOfLine self.now.table.shared.table_id self.now.table.shared.key.value pass.old.place }
        requires test { O.takes self.now.table.shared.key.value call }
        ensures same { IsSamePass pass.old.place pass.new.place }
        ensures number { pass.new.number ≡ pass.old.number }
        ensures call { MatchResult result
            (λ reply. Gains O.steps self.now.table.shared.key.value (seen_at pass.old.place) (entry_of pass.old.number call reply) (seen_at pass.new.place))
            (λ _. seen_at pass.new.place ≡ seen_at pass.old.place) }
    {
        call_at(
            rt,
            alloc,
            &self.table.shared,
            &self.bells,
            &mut pass.place,
            pass.number,
            call,
        )
    }

    /// Ends the line, and gives its object. It takes all passes of the line in order, so that no caller is left.
    pub fn close(self, passes: Vec<Pass<O>>) -> O
        requires some { 0 < vec_len passes }
        requires all { (i : ℕ) (d : _) → i < vec_len passes
            → IsPass self.table.shared.table_id self.table.shared.key.value (vec_len passes) i (slice_index_or passes.items i d).place }
        ensures history { (log : List (TurnEntry O.Call O.Reply))
            × IsHistory O.steps O.history self.table.shared.key.value result log
            × ((i : ℕ) (d : _) → i < vec_len passes → HasSeen log i (seen_at (slice_index_or passes.items i d).place))
            × ((n : ℕ) → vec_len passes ≤ n → calls_by n log ≡ []) }
    {
        let Line { table, bells: _ } = self;
        let mut passes = passes;
        let Pass {
            place: mut lead,
            number: _,
        } = passes.remove(0);
        while let Some(pass) = passes.pop() {
            let Pass { place, number: _ } = pass;
            table.shared.join_seat::<TakeIn>(&mut lead, place);
        }
        passes.destroy_empty();
        let mut closed = table.close_with(lead);
        let taken = closed.take(0);
        closed.free();
        match taken {
            Some(object) => object,
            None => unreachable!(),
        }
    }
}

/// The passes of so many callers at a table where the first alone has a place: the place of each other is split off it.
fn passes_of<O: Object>(
    top: &Top<O>,
    first: Place<O>,
    seats: u32,
    passes: Vec<Pass<O>>,
) -> Vec<Pass<O>>
    requires seats { (0 < seats) × (seats ≤ MOST_CALLERS) }
    requires table { (first.table_id ≡ top.now.table_id) × IsSized top.now.table_id }
    requires first { first.me ≡ (opening_view top.now.key.value, []) }
    requires room { (passes.items ≡ []) × (vec_capacity passes ≡ seats) }
    ensures count { vec_len result ≡ seats }
    ensures passes { (i : ℕ) (d : _) → i < vec_len result
        → IsPass top.now.table_id top.now.key.value seats i (slice_index_or result.items i d).place }
    ensures unseen { (i : ℕ) (d : _) → i < vec_len result
        → seen_at (slice_index_or result.items i d).place ≡ [] }
{
    let (mut lead, mut passes) = (first, passes);
    let mut number = 1;
    while number < seats {
        let place = top.split_seat::<Admit>(&mut lead);
        passes.push_reserved(Pass { place, number });
        number += 1;
    }
    let first = Pass {
        place: lead,
        number: 0,
    };
    match passes.insert(0, first) {
        Ok(()) => passes,
        Err(_refused) => unreachable!(),
    }
}
