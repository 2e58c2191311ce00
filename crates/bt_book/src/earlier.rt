// The demand of an earlier edition, and the occupancy of the last: the edits that were kept are made again, up to it.
ghost use Rattle.std.specs.Prelude.{◌≡◌, ◌≤◌, [], IfOk, OnOk};
ghost use Rattle.bt_frame.specs.declared.limits.TheConstants.{MOST_SUM};
ghost use Rattle.bt_demand.specs.Traffic.{matrix_of, AreOfNetwork, HasSumsTo};
ghost use Rattle.bt_history.specs.Changes.{edition, IsDemandAt};
ghost use Rattle.bt_history.specs.Records.{IsRedone, KeepsUp};

use crate::machine::Machine;
use bt_demand::Demand;
use bt_frame::{EditionNo, OutOfMemory};
use bt_history::Occupancy;
use std::alloc::Global;

impl Machine {
    /// The demand after so many edits, of those that were made.
    pub(crate) fn demand_at(&self, alloc: Global, number: EditionNo) -> Result<Demand, OutOfMemory>
        requires { number.0 ≤ edition self.now.state.changes }
        ensures demand { IfOk result (λ demand. IsDemandAt self.now.state.changes number.0 demand) }
        ensures network { IfOk result (λ demand. AreOfNetwork self.now.net demand) }
        ensures sums { IfOk result (λ demand. HasSumsTo MOST_SUM (matrix_of self.now.net demand)) }
    {
        let mut occupancy = Occupancy::new(alloc, self.network())?;
        // This is there for what holds of each network: its frame has at most `MOST_SLOTS` slots.
        let _slots = occupancy.slots();
        let redone = self.redo(alloc, &mut occupancy, number.0);
        // The demand alone is left before the answer is looked at: what else is there goes with the occupancy.
        let demand = occupancy.into_demand();
        redone?;
        Ok(demand)
    }

    /// The occupancy after all changes, made again.
    pub(crate) fn occupied_again(&self, alloc: Global) -> Result<Occupancy, OutOfMemory>
        ensures net { IfOk result (λ made. made.net ≡ self.now.net) }
        ensures keeps { IfOk result (λ made. KeepsUp self.now.net self.now.state.changes made.links) }
    {
        let mut occupancy = Occupancy::new(alloc, self.network())?;
        self.redo(alloc, &mut occupancy, self.kept.edits)?;
        Ok(occupancy)
    }

    /// Makes the first edits, so many, again.
    fn redo(&self, alloc: Global, occupancy: &mut Occupancy, number: u32) -> Result<(), OutOfMemory>
        requires none { occupancy.old.links ≡ [] }
        requires network { occupancy.old.net ≡ self.now.net }
        requires made { number ≤ edition self.now.state.changes }
        ensures redone { OnOk result (IsRedone self.now.net self.now.state.changes number occupancy.new.links) }
        ensures net { OnOk result (occupancy.new.net ≡ self.now.net) }
    {
        // This is there for what holds of each network: its frame has at most `MOST_SLOTS` slots.
        let _slots = self.kept.occupancy.slots();
        for place in 0..number {
            let edit = &self.kept.past[place as usize];
            occupancy.reserve(alloc, edit)?;
            occupancy.edit(edit);
        }
        Ok(())
    }
}
