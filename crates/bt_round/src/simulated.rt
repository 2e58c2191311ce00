// The centre's worker over a simulated air: the world is its own, and all events happen through it.
ghost use Rattle.std.specs.Prelude.{◌≡◌, ◌≤◌, ◌++◌, [], drop, length, reverse, All, IfOk, IfSome, None, OnOk, is_some};
ghost use Rattle.bt_site.specs.Event as event;
ghost use Rattle.bt_frame.specs.declared.limits.TheConstants.{LAST_MESSAGE};
ghost use Rattle.bt_site.specs.Fits.{AreStored, IsWorld, Meets};
ghost use Rattle.bt_machines.specs.Plans.{newest_of, plan_of};
ghost use Rattle.bt_world.specs.Life.{past_of};
ghost use Rattle.bt_world.specs.Shown.{IsShown};
ghost use Rattle.bt_site.specs.World.{sent, wanted};
ghost use Rattle.bt_history.specs.Causes.{CanCome};
ghost use Rattle.bt_timeline.specs.Air.{waiting_lines};
ghost use Rattle.bt_round.specs.AirLines.{target_by};
ghost use Rattle.bt_round.specs.Simulated.{going, happened, having, mark_of, orders_in, plans_in, sends_text, sent_count, sent_in, sent_lines};
ghost use Rattle.bt_round.specs.Worker.{IsPlanned, IsRunning, NamesOwn};

use crate::waiting::Waiting;
use bt_air::{Event, Order, Shown};
use bt_frame::{EditionNo, MOST_COUNTED, Mark, OutOfMemory};
use bt_machines::Standby;
use bt_net::Network;
use bt_site::{newest_edition_has_a_plan, plans_stay};
use bt_timeline::sent_text;
use bt_world::{Events, WorldOver};
use std::alloc::Global;
use std::marker::Model;

/// The centre's worker over a simulated air. `E` says how the events of its world are kept.
#[derive(Drop)]
pub struct SimulatedCentre<E: Events> {
    pub(crate) world: WorldOver<E>,
    pub(crate) waiting: Waiting,
    // the edition to which the centre goes back
    pub(crate) back: Option<EditionNo>,
    // the second reference station; a restart of the centre leaves it
    pub(crate) standby: Standby,
}

impl<E: Events> Model for SimulatedCentre<E> {
    ghost use Rattle.bt_round.specs.Simulated.{SimulatedAir};
    ghost use Rattle.bt_round.specs.Worker.{IsRunning};

    ghost Value = { SimulatedAir };

    ghost view = { λ a. record { life = a.world; waiting = a.waiting; back = a.back; standby = a.standby } };

    ghost invariant = { λ a. IsRunning (record { life = a.world; waiting = a.waiting; back = a.back; standby = a.standby }) };
}

impl<E: Events> SimulatedCentre<E> {
    /// The worker of a world. Nobody waits, the centre goes back to no edition, and the standby keeps nothing.
    pub(crate) fn new(alloc: Global, world: WorldOver<E>) -> SimulatedCentre<E>
        requires world { IsWorld world.opening (reverse world.events) }
        ensures made { result ≡ record { life = world; waiting = []; back = None; standby = None } }
    {
        SimulatedCentre {
            world,
            waiting: Waiting::none(alloc),
            back: None,
            standby: Standby::new(),
        }
    }

    /// The present superframe.
    pub(crate) fn mark(&self) -> Mark
        ensures mark { result ≡ mark_of self.now }
    {
        self.world.mark()
    }

    /// The newest edition of which the world has a plan.
    pub(crate) fn newest(&self) -> EditionNo
        ensures { result ≡ newest_of (plans_in self.now) }
    {
        self.world.newest()
    }

    /// The world has a plan of this edition.
    pub(crate) fn has_plan(&self, edition: EditionNo) -> bool
        ensures { result ≡ is_some (plan_of (plans_in self.now) edition) }
    {
        self.world.has_plan(edition)
    }

    /// The edition to which the centre goes back, if it does.
    pub(crate) fn back(&self) -> Option<EditionNo>
        ensures { result ≡ self.now.back }
    {
        self.back
    }

    /// The edition to bring to the front: the one to go back to, or else the newest. It has a plan.
    pub(crate) fn target(&self) -> EditionNo
        ensures target { result ≡ target_by self.now.back (newest_of (plans_in self.now)) }
        ensures planned { IsPlanned self.now.life result }
    {
        newest_edition_has_a_plan();
        match self.back {
            Some(edition) => edition,
            None => self.newest(),
        }
    }

    /// From its next turn on the centre goes back to this edition, of which the world has a plan, or ahead to the newest.
    pub(crate) fn go(&mut self, back: Option<EditionNo>)
        requires planned { IfSome back (IsPlanned self.old.life) }
        ensures air { self.new ≡ going self.old back }
    {
        self.back = back;
    }

    /// How many messages were sent.
    pub(crate) fn sent_count(&self) -> u32
        ensures { result ≡ sent_count self.now }
    {
        self.world.sent_count()
    }

    /// How many deliveries are still to come.
    pub(crate) fn waiting_count(&self) -> usize
        ensures { result ≡ length self.now.waiting }
    {
        self.waiting.len()
    }

    /// The lines of the deliveries that are still to come, in order.
    pub(crate) fn waiting_text(&self, alloc: Global, net: &Network) -> Result<Vec<u8>, OutOfMemory>
        requires network { self.now.life.opening.net ≡ net.now }
        ensures text { IfOk result (λ text. text.items ≡ waiting_lines net.now self.now.waiting) }
    {
        let mut text = Vec::new(alloc);
        self.waiting.tell(alloc, net, &mut text)?;
        Ok(text)
    }

    /// The events, as they are kept.
    pub(crate) fn into_told(self) -> E
        ensures events { E.told result ≡ self.life.events }
        ensures world { IsWorld self.life.opening (reverse self.life.events) }
        ensures stored { AreStored self.life.opening (past_of self.life) }
        ensures few { length (sent self.life.opening (past_of self.life)) ≤ LAST_MESSAGE }
    {
        self.world.into_told()
    }

    /// An event happens, and the messages that it sends wait for their receivers.
    ///
    /// Where memory runs out, the event may have happened.
    pub(crate) fn happen(
        &mut self,
        alloc: Global,
        net: &Network,
        event: Event,
    ) -> Result<Shown, OutOfMemory>
        requires network { self.old.life.opening.net ≡ net.now }
        requires meets { Meets self.old.life.opening (happened self.old) event }
        ensures air { OnOk result (self.new ≡ having self.old event) }
        ensures shown { IfOk result (λ shown. IsShown self.old.life.opening (happened self.old) event shown) }
        ensures opening { self.new.life.opening ≡ self.old.life.opening }
    {
        let first = self.world.sent_count();
        if MOST_COUNTED < first || MOST_COUNTED < self.world.order_count() {
            return Err(OutOfMemory);
        }
        plans_stay();
        let shown = self.world.step(alloc, net, event)?;
        let terminals = net.terminal_count() as u8;
        self.waiting.add_sent(&self.world, terminals, first)?;
        Ok(shown)
    }

    /// An event happens, and the lines of the messages that it sends are appended.
    pub(crate) fn send(
        &mut self,
        alloc: Global,
        net: &Network,
        event: Event,
        text: &mut Vec<u8>,
    ) -> Result<(), OutOfMemory>
        requires network { self.old.life.opening.net ≡ net.now }
        requires meets { Meets self.old.life.opening (happened self.old) event }
        ensures air { OnOk result (self.new ≡ having self.old event) }
        ensures text { OnOk result (text.new.items ≡ text.old.items ++ sends_text net.now self.old event) }
        ensures opening { self.new.life.opening ≡ self.old.life.opening }
    {
        let first = self.sent_count();
        self.happen(alloc, net, event)?;
        self.tell_sent(alloc, net, first, text)
    }

    /// The order that the centre wants, if any. It arms for a superframe that can come.
    pub(crate) fn placeable(&self, net: &Network) -> Option<Order>
        requires network { self.now.life.opening.net ≡ net.now }
        ensures wanted { result ≡ wanted (happened self.now) }
        ensures can_come { IfSome result CanCome }
    {
        // This is there for what holds of each network: a change has a lead.
        let _lead = net.lead();
        self.world.wanted()
    }

    /// The order that the centre wants, if any.
    pub(crate) fn wanted(&self) -> Option<Order>
        ensures wanted { result ≡ wanted (happened self.now) }
    {
        self.world.wanted()
    }

    /// How many orders are placed.
    pub(crate) fn order_count(&self) -> u32
        ensures count { result ≡ length (orders_in self.now) }
    {
        self.world.order_count()
    }

    /// The centre restarts, with the order that it wanted or without it, and goes back to no edition. What is on its way stays on its way, and the standby keeps what it keeps.
    ///
    /// Where memory runs out, it may have restarted.
    pub(crate) fn restart(
        &mut self,
        alloc: Global,
        net: &Network,
        kept: bool,
    ) -> Result<(), OutOfMemory>
        requires network { self.old.life.opening.net ≡ net.now }
        requires meets { Meets self.old.life.opening (happened self.old) (event.RestartCentre kept) }
        ensures air { OnOk result (self.new ≡ going (having self.old (event.RestartCentre kept)) None) }
        ensures opening { self.new.life.opening ≡ self.old.life.opening }
    {
        self.happen(alloc, net, Event::RestartCentre { kept })?;
        self.back = None;
        Ok(())
    }

    /// Appends the lines of the messages that were sent, from a number on.
    pub(crate) fn tell_sent(
        &self,
        alloc: Global,
        net: &Network,
        first: u32,
        text: &mut Vec<u8>,
    ) -> Result<(), OutOfMemory>
        requires network { self.now.life.opening.net ≡ net.now }
        requires first { first ≤ sent_count self.now }
        ensures { OnOk result (text.new.items ≡ text.old.items ++ sent_lines net.now first (drop first (sent_in self.now))) }
    {
        sent_lines(alloc, net, &self.world, first, text)
    }
}

/// Appends the lines of the messages that were sent, from a number on.
fn sent_lines<E: Events>(
    alloc: Global,
    net: &Network,
    world: &WorldOver<E>,
    first: u32,
    text: &mut Vec<u8>,
) -> Result<(), OutOfMemory>
    requires terminals { All (NamesOwn net.now) (sent world.now.opening (past_of world.now)) }
    requires first { first ≤ length (sent world.now.opening (past_of world.now)) }
    ensures { OnOk result (text.new.items ≡ text.old.items ++ sent_lines net.now first (drop first (sent world.now.opening (past_of world.now)))) }
{
    for number in first..world.sent_count() {
        sent_text(alloc, net, number, world.sent(number), text)?;
    }
    Ok(())
}
