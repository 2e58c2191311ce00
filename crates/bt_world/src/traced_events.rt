// Events of which the plans alone are kept.
ghost use Rattle.std.specs.Prelude.{◌≡◌};

use crate::Events;
use bt_air::Event;
use bt_demand::Plan;
use bt_frame::OutOfMemory;
use bt_outside::Trace;
use std::alloc::Global;
use std::marker::Model;

/// The events as clauses see them, and the plans that were installed: those of a world whose events nobody asks for. Of
/// another event there are no bytes.
#[derive(Drop)]
pub struct TracedEvents {
    trace: Trace<Event, ()>,
    // that were installed, the first first
    plans: Vec<Plan>,
}

impl Model for TracedEvents {
    ghost use Rattle.std.specs.Prelude.{◌≡◌, ◌-◌, reverse, vec_capacity, vec_len};
    ghost use Rattle.bt_world.specs.Life.{Listed, installs, told_in};

    ghost Value = { Listed };

    ghost view = { λ a. record { all = told_in a.trace; room = 1; plan_room = vec_capacity a.plans - vec_len a.plans } };

    ghost invariant = { λ a. a.plans.items ≡ reverse (installs (reverse (told_in a.trace))) };
}

impl Events for TracedEvents {
    ghost told = { λ traced. traced.all };

    ghost room = { λ _. 1 };

    ghost plan_room = { λ traced. traced.plan_room };

    fn none(alloc: Global) -> TracedEvents {
        TracedEvents {
            trace: Trace::new(),
            plans: Vec::new(alloc),
        }
    }

    fn reserve(&mut self) -> Result<(), OutOfMemory> {
        Ok(())
    }

    fn push(&mut self, event: Event) {
        self.trace.push(&event, &());
    }

    fn reserve_plan(&mut self) -> Result<(), OutOfMemory> {
        Ok(self.plans.reserve(1)?)
    }

    fn install(&mut self, plan: Plan) {
        let event = Event::Install { plan };
        self.trace.push(&event, &());
        match event {
            Event::Install { plan } => self.plans.push_reserved(plan),
            _ => unreachable!(),
        }
    }

    fn installed(&self, number: usize) -> &Plan {
        &self.plans[number]
    }
}
