// Events that are all kept.
ghost use Rattle.std.specs.Prelude.{◌≡◌};

use crate::Events;
use bt_air::Event;
use bt_demand::Plan;
use bt_frame::OutOfMemory;
use std::alloc::Global;
use std::marker::Model;

/// All events, each as it came: those of a world that gives them at its end. A plan that was installed stays in its event.
#[derive(Drop)]
pub struct KeptEvents {
    events: Vec<Event>,
    // of each plan that was installed, the number of its event
    places: Vec<usize>,
}

impl Model for KeptEvents {
    ghost use Rattle.std.specs.Prelude.{◌-◌, vec_capacity, vec_len};
    ghost use Rattle.bt_world.specs.Life.{ArePlaces, Listed};

    ghost Value = { Listed };

    ghost view = { λ a. record { all = a.events.items; room = vec_capacity a.events - vec_len a.events; plan_room = vec_capacity a.places - vec_len a.places } };

    ghost invariant = { λ a. ArePlaces a.events.items a.places.items };
}

impl KeptEvents {
    /// The events, the first first.
    pub fn into_events(self) -> Vec<Event>
        ensures events { result.items ≡ self.all }
    {
        self.events
    }
}

impl Events for KeptEvents {
    ghost told = { λ kept. kept.all };

    ghost room = { λ kept. kept.room };

    ghost plan_room = { λ kept. kept.plan_room };

    fn none(alloc: Global) -> KeptEvents {
        KeptEvents {
            events: Vec::new(alloc),
            places: Vec::new(alloc),
        }
    }

    fn reserve(&mut self) -> Result<(), OutOfMemory> {
        Ok(self.events.reserve(1)?)
    }

    fn push(&mut self, event: Event) {
        self.events.push_reserved(event);
    }

    fn reserve_plan(&mut self) -> Result<(), OutOfMemory> {
        self.events.reserve(1)?;
        self.places.reserve(1)?;
        Ok(())
    }

    fn install(&mut self, plan: Plan) {
        let place = self.events.len();
        self.events.push_reserved(Event::Install { plan });
        self.places.push_reserved(place);
    }

    fn installed(&self, number: usize) -> &Plan {
        match &self.events[self.places[number]] {
            Event::Install { plan } => plan,
            _ => unreachable!(),
        }
    }
}
