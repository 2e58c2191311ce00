// How the events of a world are kept.
ghost use Rattle.std.specs.Prelude.{◌≡◌, ◌<◌, ◌++◌, ◌∷◌, [], ℕ, List, length, reverse, OnOk, Some, slice_get};
ghost use Rattle.bt_air.specs.declared.event.Event.{Event};
ghost use Rattle.bt_world.specs.Life.{BringsNoPlan, installs};

use bt_air::Event;
use bt_demand::Plan;
use bt_frame::OutOfMemory;
use std::alloc::Global;

/// The events of a world, from the first on. Each plan that was installed is at hand.
pub trait Events: Drop {
    /// All events, the first first.
    ghost told: { Self → List Event };

    /// How many events more find room.
    ghost room: { Self → ℕ };

    /// How many plans more find room.
    ghost plan_room: { Self → ℕ };

    /// Nothing happened yet.
    fn none(alloc: Global) -> Self
        ensures none { told result ≡ [] };

    /// Makes room for an event.
    fn reserve(&mut self) -> Result<(), OutOfMemory>
        ensures room { OnOk result (0 < room self.new) }
        ensures same { told self.new ≡ told self.old };

    /// Appends an event, for which there is room. It brings no plan.
    fn push(&mut self, event: Event)
        requires room { 0 < room self.old }
        requires no_plan { BringsNoPlan event }
        ensures event { told self.new ≡ told self.old ++ event ∷ [] };

    /// Makes room for an event that installs a plan.
    fn reserve_plan(&mut self) -> Result<(), OutOfMemory>
        ensures room { OnOk result (0 < room self.new) }
        ensures plan_room { OnOk result (0 < plan_room self.new) }
        ensures same { told self.new ≡ told self.old };

    /// Appends an event that installs a plan, for which there is room.
    fn install(&mut self, plan: Plan)
        requires room { 0 < room self.old }
        requires plan_room { 0 < plan_room self.old }
        ensures event { told self.new ≡ told self.old ++ Event.Install plan ∷ [] };

    /// The plan that was installed as the one of this number, from 0.
    fn installed(&self, number: usize) -> &Plan
        requires number { number < length (installs (reverse (told self.now))) }
        ensures plan { slice_get (reverse (installs (reverse (told self.now)))) number ≡ Some result.now };
}
