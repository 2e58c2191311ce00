// A book is tried on a copy of it without its store.
ghost use Rattle.std.specs.Prelude.{◌≡◌, [], IfOk};

use crate::book::Book;
use crate::kept::Kept;
use crate::machine::Machine;
use crate::no_store::NoStore;
use bt_demand::Plan;
use bt_frame::OutOfMemory;
use std::alloc::Global;

/// A book without a store, on which calls are tried.
pub type Trial = Book<NoStore>;

impl Machine {
    /// An equal machine, with no call yet.
    pub(crate) fn copy(&self, alloc: Global) -> Result<Machine, OutOfMemory>
        ensures net { IfOk result (λ copy. copy.net ≡ self.now.net) }
        ensures state { IfOk result (λ copy. copy.state ≡ self.now.state) }
        ensures history { IfOk result (λ copy. copy.history ≡ []) }
    {
        let kept = Kept {
            changes: self.kept.changes.copy(alloc),
            occupancy: self.occupied_again(alloc)?,
            past: Vec::from_slice(alloc, self.kept.past.as_slice())?,
            plans: copies_of(alloc, self.kept.plans.as_slice())?,
            orders: Vec::from_slice(alloc, self.kept.orders.as_slice())?,
            count: self.kept.count,
            edits: self.kept.edits,
            bytes: self.kept.bytes,
        };
        Ok(Machine {
            kept,
            history: Vec::new(alloc),
            stopped: self.stopped,
            line: Vec::new(alloc),
        })
    }
}

/// Equal plans.
fn copies_of(alloc: Global, plans: &[Plan]) -> Result<Vec<Plan>, OutOfMemory>
    ensures { IfOk result (λ copies. copies.items ≡ plans.now) }
{
    let mut copies = Vec::with_capacity(alloc, plans.len())?;
    for plan in plans {
        copies.push(plan.copy(alloc)?)?;
    }
    Ok(copies)
}
