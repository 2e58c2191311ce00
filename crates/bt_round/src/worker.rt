// The centre's worker: over a simulated air, or with its sites apart. Each line and each step is one code for both, over what is here.
ghost use Rattle.std.specs.Prelude.{◌≡◌, ◌<◌, ◌≤◌, ◌++◌, [], length, reverse, IfOk, IfSome, IsSome, None, OnOk};
ghost use Rattle.bt_demand.specs.Flyable.{IsFlyable};
ghost use Rattle.bt_frame.specs.declared.limits.TheConstants.{LAST_MESSAGE};
ghost use Rattle.bt_site.specs.Event.{Install, Ordered, Turn};
ghost use Rattle.bt_site.specs.Fits.{AreStored, IsWorld};
ghost use Rattle.bt_site.specs.World.{log, sent};
ghost use Rattle.bt_machines.specs.Plans.{plan_of};
ghost use Rattle.bt_history.specs.Causes.{CanCome};
ghost use Rattle.bt_timeline.specs.Air.{waiting_lines};
ghost use Rattle.bt_script.specs.Heard.{IsOnBus};
ghost use Rattle.bt_round.specs.AirLines.{KeepsWanted, back_of, events_in, going, has_plan, having, hearing, installing, is_marked, mark_of, newest_in, opening_in, orders_in, plans_in, restarting, sends_text, target_of, waiting_in, wanted_in};

use crate::simulated::SimulatedCentre;
use bt_air::{Event, Order};
use bt_apart::ApartCentre;
use bt_demand::Plan;
use bt_frame::{EditionNo, Mark, OutOfMemory};
use bt_net::Network;
use bt_script::BusLine;
use bt_world::{Events, WorldOver};
use std::alloc::Global;

/// The centre's worker over a simulated air `S`, or with its sites apart. Contracts see the state of its air.
#[derive(Drop)]
pub enum CentreOver<S> {
    /// Satellite and terminals are in its own process.
    Simulated(S),
    /// They are processes of their own, which hear its lines and say theirs.
    Apart(ApartCentre),
}

/// The centre's worker. `E` says how the events of a simulated air are kept.
pub type CentreWorker<E> = CentreOver<SimulatedCentre<E>>;

impl<E: Events> CentreOver<SimulatedCentre<E>> {
    /// The worker of a world. Nobody waits, the centre goes back to no edition, and the standby keeps nothing.
    pub fn simulated(alloc: Global, world: WorldOver<E>) -> CentreWorker<E>
        requires world { IsWorld world.opening (reverse world.events) }
        ensures made { result ≡ CentreOver.Simulated (record { life = world; waiting = []; back = None; standby = None }) }
    {
        CentreWorker::Simulated(SimulatedCentre::new(alloc, world))
    }

    /// The worker of a centre whose sites are apart.
    pub fn apart(centre: ApartCentre) -> CentreWorker<E>
        ensures made { result ≡ CentreOver.Apart centre }
    {
        CentreWorker::Apart(centre)
    }

    /// The superframe that the centre takes for the present one.
    pub fn mark(&self) -> Mark
        ensures mark { result ≡ mark_of self.now }
    {
        match self {
            CentreWorker::Simulated(centre) => centre.mark(),
            CentreWorker::Apart(centre) => centre.mark(),
        }
    }

    /// Whether the centre knows of a superframe, so that it can have its turn.
    pub(crate) fn is_marked(&self) -> bool
        ensures { result ≡ is_marked self.now }
    {
        match self {
            CentreWorker::Simulated(_) => true,
            CentreWorker::Apart(centre) => centre.is_marked(),
        }
    }

    /// The newest edition of which the centre has a plan.
    pub(crate) fn newest(&self) -> EditionNo
        ensures { result ≡ newest_in self.now }
    {
        match self {
            CentreWorker::Simulated(centre) => centre.newest(),
            CentreWorker::Apart(centre) => centre.newest(),
        }
    }

    /// The centre has a plan of this edition.
    pub(crate) fn has_plan(&self, edition: EditionNo) -> bool
        ensures { result ≡ has_plan self.now edition }
    {
        match self {
            CentreWorker::Simulated(centre) => centre.has_plan(edition),
            CentreWorker::Apart(centre) => centre.has_plan(edition),
        }
    }

    /// The edition to which the centre goes back, if it does.
    pub fn back(&self) -> Option<EditionNo>
        ensures { result ≡ back_of self.now }
    {
        match self {
            CentreWorker::Simulated(centre) => centre.back(),
            CentreWorker::Apart(centre) => centre.back(),
        }
    }

    /// The edition to bring to the front: the one to go back to, or else the newest. It has a plan.
    pub(crate) fn target(&self) -> EditionNo
        ensures target { result ≡ target_of self.now }
        ensures planned { IsSome (plan_of (plans_in self.now) result) }
    {
        match self {
            CentreWorker::Simulated(centre) => centre.target(),
            CentreWorker::Apart(centre) => match centre.back() {
                Some(edition) => edition,
                None => centre.newest(),
            },
        }
    }

    /// From its next turn on the centre goes back to this edition, of which it has a plan, or ahead to the newest.
    pub(crate) fn go(&mut self, back: Option<EditionNo>)
        requires planned { IfSome back (λ edition. IsSome (plan_of (plans_in self.old) edition)) }
        ensures air { self.new ≡ going self.old back }
        ensures opening { opening_in self.new ≡ opening_in self.old }
    {
        match self {
            CentreWorker::Simulated(centre) => centre.go(back),
            CentreWorker::Apart(centre) => centre.set_back(back),
        }
    }

    /// A plan that is newer than those that the centre has joins them.
    ///
    /// Where memory runs out, it may have joined.
    pub(crate) fn install(
        &mut self,
        alloc: Global,
        net: &Network,
        newer: Option<Plan>,
    ) -> Result<(), OutOfMemory>
        requires network { (opening_in self.old).net ≡ net.now }
        requires newer { IfSome newer (λ plan. (newest_in self.old).0 < plan.edition.0) }
        requires flyable { IfSome newer (λ plan. IsFlyable net.now plan) }
        ensures air { OnOk result (self.new ≡ installing self.old newer) }
        ensures opening { opening_in self.new ≡ opening_in self.old }
    {
        let Some(plan) = newer else {
            return Ok(());
        };
        match self {
            CentreWorker::Simulated(centre) => {
                centre.happen(alloc, net, Event::Install { plan })?;
                Ok(())
            }
            CentreWorker::Apart(centre) => centre.install(alloc, &plan),
        }
    }

    /// The centre has its turn, with this edition to bring to the front, and the lines of what it sends are appended.
    ///
    /// Where memory runs out, it may have had it.
    pub(crate) fn turn_to(
        &mut self,
        alloc: Global,
        net: &Network,
        target: EditionNo,
        text: &mut Vec<u8>,
    ) -> Result<(), OutOfMemory>
        requires network { (opening_in self.old).net ≡ net.now }
        requires planned { IsSome (plan_of (plans_in self.old) target) }
        ensures air { OnOk result (self.new ≡ having self.old (Turn target)) }
        ensures text { OnOk result (text.new.items ≡ text.old.items ++ sends_text net.now self.old (Turn target)) }
        ensures opening { opening_in self.new ≡ opening_in self.old }
    {
        match self {
            CentreWorker::Simulated(centre) => {
                centre.send(alloc, net, Event::Turn { target }, text)
            }
            CentreWorker::Apart(centre) => centre.turn(alloc, net, target, text),
        }
    }

    /// The order that the centre wants joins the orders, and the lines of what it sends are appended.
    ///
    /// Where memory runs out, it may have joined.
    pub(crate) fn join_order(
        &mut self,
        alloc: Global,
        net: &Network,
        text: &mut Vec<u8>,
    ) -> Result<(), OutOfMemory>
        requires network { (opening_in self.old).net ≡ net.now }
        requires wanted { IsSome (wanted_in self.old) }
        ensures air { OnOk result (self.new ≡ having self.old Ordered) }
        ensures text { OnOk result (text.new.items ≡ text.old.items ++ sends_text net.now self.old Ordered) }
        ensures opening { opening_in self.new ≡ opening_in self.old }
    {
        match self {
            CentreWorker::Simulated(centre) => centre.send(alloc, net, Event::Ordered, text),
            CentreWorker::Apart(centre) => centre.order(alloc, net, text),
        }
    }

    /// The order that the centre wants, if any. It can be asked to be placed.
    pub(crate) fn placeable(&self, net: &Network) -> Option<Order>
        requires network { (opening_in self.now).net ≡ net.now }
        ensures wanted { result ≡ wanted_in self.now }
        ensures can_come { IfSome result CanCome }
    {
        match self {
            CentreWorker::Simulated(centre) => centre.placeable(net),
            CentreWorker::Apart(centre) => centre.wanted(),
        }
    }

    /// The order that the centre wants, if any.
    pub fn wanted(&self) -> Option<Order>
        ensures wanted { result ≡ wanted_in self.now }
    {
        match self {
            CentreWorker::Simulated(centre) => centre.wanted(),
            CentreWorker::Apart(centre) => centre.wanted(),
        }
    }

    /// How many orders are placed.
    pub fn order_count(&self) -> u32
        ensures count { result ≡ length (orders_in self.now) }
    {
        match self {
            CentreWorker::Simulated(centre) => centre.order_count(),
            CentreWorker::Apart(centre) => centre.order_count(),
        }
    }

    /// The centre restarts, with the order that it wanted or without it. `told` are the orders that its journal has, the first first:
    /// with sites apart it goes back where they do. On a simulated air it goes back to no edition, and all else stays: what is
    /// on its way, and what the standby keeps.
    ///
    /// Where memory runs out, it may have restarted.
    pub fn restart(
        &mut self,
        alloc: Global,
        net: &Network,
        kept: bool,
        told: &[Order],
    ) -> Result<(), OutOfMemory>
        requires network { (opening_in self.old).net ≡ net.now }
        requires kept { KeepsWanted self.old kept }
        ensures air { OnOk result (self.new ≡ restarting self.old kept (reverse told.now)) }
        ensures opening { opening_in self.new ≡ opening_in self.old }
    {
        match self {
            CentreWorker::Simulated(centre) => centre.restart(alloc, net, kept),
            CentreWorker::Apart(centre) => centre.restart(kept, told),
        }
    }

    /// The centre hears a line of the bus; a simulated air has none.
    pub fn hear(&mut self, line: BusLine)
        requires line { IsOnBus line }
        ensures air { self.new ≡ hearing self.old line }
        ensures opening { opening_in self.new ≡ opening_in self.old }
    {
        match self {
            CentreWorker::Simulated(_) => {}
            CentreWorker::Apart(centre) => centre.hear(line),
        }
    }

    /// The lines of the deliveries that are still to come, in order.
    pub fn waiting_text(&self, alloc: Global, net: &Network) -> Result<Vec<u8>, OutOfMemory>
        requires network { (opening_in self.now).net ≡ net.now }
        ensures text { IfOk result (λ text. text.items ≡ waiting_lines net.now (waiting_in self.now)) }
    {
        match self {
            CentreWorker::Simulated(centre) => centre.waiting_text(alloc, net),
            CentreWorker::Apart(_) => Ok(Vec::new(alloc)),
        }
    }

    /// The events of its world, as they are kept; with sites apart there are none.
    pub fn into_told(self, alloc: Global) -> E
        ensures events { E.told result ≡ events_in self }
        ensures world { IsWorld (opening_in self) (reverse (events_in self)) }
        ensures stored { AreStored (opening_in self) (log (opening_in self) (reverse (events_in self))) }
        ensures few { length (sent (opening_in self) (log (opening_in self) (reverse (events_in self)))) ≤ LAST_MESSAGE }
    {
        match self {
            CentreWorker::Simulated(centre) => centre.into_told(),
            CentreWorker::Apart(centre) => {
                centre.opens();
                E::none(alloc)
            }
        }
    }
}
