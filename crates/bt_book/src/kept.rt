// What is kept of the changes and beside them. The room that a change needs is taken before it is made, so that it is made
// without memory.
ghost use Rattle.std.specs.Prelude.{◌≡◌, ◌++◌, ◌∷◌, [], length, OnOk};
ghost use Rattle.bt_history.specs.Causes.{IsChangeOn};
ghost use Rattle.bt_history.specs.Machine.{line_behind, running};
ghost use Rattle.bt_history.specs.Records.{CanJoin};
ghost use Rattle.bt_book.specs.Kept.{HasRoomFor, KeepsAll};

use crate::changes::Changes;
use bt_air::Order;
use bt_demand::Plan;
use bt_frame::OutOfMemory;
use bt_history::Occupancy;
use bt_journal::{Change, Edit};
use std::alloc::Global;

/// The changes, and what is kept beside them so that an edit looks at no earlier one: the demand after them with its traffic,
/// the edits, of 12 bytes each, the plans that are installed, the orders that are placed, how many changes and how many edits
/// there are, and how many bytes their lines have.
#[derive(Drop)]
pub(crate) struct Kept {
    pub(crate) changes: Changes,
    pub(crate) occupancy: Occupancy,
    pub(crate) past: Vec<Edit>,
    pub(crate) plans: Vec<Plan>,
    pub(crate) orders: Vec<Order>,
    pub(crate) count: u32,
    pub(crate) edits: u32,
    pub(crate) bytes: u32,
}

impl Kept {
    /// Takes all room that a change needs.
    #[inline(always)]
    pub(crate) fn reserve(&mut self, alloc: Global, change: &Change) -> Result<(), OutOfMemory>
        requires keeps { KeepsAll self.old }
        ensures keeps { KeepsAll self.new }
        ensures changes { self.new.changes ≡ self.old.changes }
        ensures net { self.new.occupancy.net ≡ self.old.occupancy.net }
        ensures room { OnOk result (HasRoomFor self.new change.now) }
    {
        match change {
            Change::Edit(edit) => {
                self.past.reserve(1)?;
                self.occupancy.reserve(alloc, edit)
            }
            Change::Install(_) => Ok(self.plans.reserve(1)?),
            Change::Order(_) => Ok(self.orders.reserve(1)?),
        }
    }

    /// Makes a change, for which there is room. Its line has so many bytes.
    #[inline(always)]
    pub(crate) fn apply(&mut self, change: Change, line: u32)
        requires keeps { KeepsAll self.old }
        requires on { IsChangeOn self.old.occupancy.net change }
        requires can { CanJoin self.old.occupancy.net (running self.old.changes) change }
        requires line { line ≡ length (line_behind self.old.occupancy.net self.old.changes change) }
        requires room { HasRoomFor self.old change }
        ensures keeps { KeepsAll self.new }
        ensures changes { self.new.changes ≡ self.old.changes ++ change ∷ [] }
        ensures net { self.new.occupancy.net ≡ self.old.occupancy.net }
    {
        // This is there for what holds of each network: its terminals have beams, and its frame at most `MOST_SLOTS` slots.
        let _slots = self.occupancy.slots();
        self.changes.push(&change);
        self.count += 1;
        self.bytes += line;
        match change {
            Change::Edit(edit) => {
                self.occupancy.edit(&edit);
                self.past.push_reserved(edit);
                self.edits += 1;
            }
            Change::Install(plan) => self.plans.push_reserved(plan),
            Change::Order(order) => self.orders.push_reserved(order),
        }
    }
}
