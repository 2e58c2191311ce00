// The centre's turn, and the order that it wants.
ghost use Rattle.std.specs.Prelude.{◌≡◌, ◌++◌, IsSome, OnOk};
ghost use Rattle.bt_timeline.specs.Air.{order_line};
ghost use Rattle.bt_round.specs.AirLines.{PlaysOrder, PlaysTurn, TakesTurn, answer_text, back_of, having, mark_of, newest_in, once_answered, opening_in, sends_text, turn_text_by, turning, wanted_in};
ghost use Rattle.bt_round.specs.Callers.{IsSameCaller, caller_number, own_of};
ghost use Rattle.bt_round.specs.Worker.{AnswersOrder, Asks};

use crate::caller::Caller;
use crate::gate::Gate;
use crate::simulated::SimulatedCentre;
use crate::worker::CentreOver;
use bt_air::Order;
use bt_book::installed_plans_can_be_flown;
use bt_frame::OutOfMemory;
use bt_journal::{Call, Entry, Reply};
use bt_net::Network;
use bt_outside::Keeper;
use bt_timeline::{back_turn_text, order_text, turn_nomark_text, turn_text, unplaced_text};
use bt_world::Events;
use std::alloc::Global;
use std::sync::Wait;

impl<E: Events> CentreOver<SimulatedCentre<E>> {
    /// The centre has its turn, where it knows of a superframe.
    pub(crate) fn turn<R: Wait, G: Gate, K: Keeper>(
        &mut self,
        rt: &R,
        alloc: Global,
        net: &Network,
        caller: &mut Caller<'_, G, K>,
        text: &mut Vec<u8>,
    ) -> Result<(), OutOfMemory>
        requires network { (opening_in self.old).net ≡ net.now }
        requires caller_network { caller.old.start.net ≡ net.now }
        requires number { caller_number caller.old ≡ 0 }
        ensures played { OnOk result (Asks (PlaysTurn net.now self.old) self.new (own_of caller.old) (own_of caller.new) text.old.items text.new.items) }
        ensures opening { opening_in self.new ≡ opening_in self.old }
        ensures same { IsSameCaller caller.old caller.new }
    {
        if self.is_marked() {
            self.take_turn(rt, alloc, net, caller, text)
        } else {
            turn_nomark_text(alloc, text)
        }
    }

    /// The book is asked for a plan newer than those that the centre has. Then the centre has its turn, and the order that it
    /// wants is asked to be placed.
    fn take_turn<R: Wait, G: Gate, K: Keeper>(
        &mut self,
        rt: &R,
        alloc: Global,
        net: &Network,
        caller: &mut Caller<'_, G, K>,
        text: &mut Vec<u8>,
    ) -> Result<(), OutOfMemory>
        requires network { (opening_in self.old).net ≡ net.now }
        requires caller_network { caller.old.start.net ≡ net.now }
        requires number { caller_number caller.old ≡ 0 }
        ensures played { OnOk result (Asks (TakesTurn net.now self.old) self.new (own_of caller.old) (own_of caller.new) text.old.items text.new.items) }
        ensures opening { opening_in self.new ≡ opening_in self.old }
        ensures same { IsSameCaller caller.old caller.new }
    {
        installed_plans_can_be_flown();
        // This is there for what holds of each network: it is sound.
        let _beams = net.beam_count();
        let after = self.newest();
        let Entry { reply, .. } = caller.ask(rt, alloc, net, Call::Newest { after })?;
        let Reply::Newest { newer } = reply else {
            unreachable!();
        };
        self.install(alloc, net, newer)?;
        self.act(alloc, net, text)?;
        self.place_wanted(rt, alloc, net, caller, text)
    }

    /// The centre acts, with the edition to bring to the front.
    fn act(&mut self, alloc: Global, net: &Network, text: &mut Vec<u8>) -> Result<(), OutOfMemory>
        requires network { (opening_in self.old).net ≡ net.now }
        ensures air { OnOk result (self.new ≡ having self.old (turning self.old)) }
        ensures text { OnOk result (text.new.items
            ≡ text.old.items ++ (turn_text_by (mark_of self.old) (back_of self.old) (newest_in self.old) ++ sends_text net.now self.old (turning self.old))) }
        ensures opening { opening_in self.new ≡ opening_in self.old }
    {
        let target = self.target();
        self.tell_turn(alloc, text)?;
        self.turn_to(alloc, net, target, text)
    }

    /// Appends the line of the turn: that of an edition to go back to, or of the newest.
    fn tell_turn(&self, alloc: Global, text: &mut Vec<u8>) -> Result<(), OutOfMemory>
        ensures added { OnOk result (text.new.items ≡ text.old.items ++ turn_text_by (mark_of self.now) (back_of self.now) (newest_in self.now)) }
    {
        match self.back() {
            Some(edition) => back_turn_text(alloc, self.mark(), edition, text),
            None => turn_text(alloc, self.mark(), self.newest(), text),
        }
    }

    /// The order that the centre wants, if any, is asked to be placed. Where it is placed, it joins the orders.
    fn place_wanted<R: Wait, G: Gate, K: Keeper>(
        &mut self,
        rt: &R,
        alloc: Global,
        net: &Network,
        caller: &mut Caller<'_, G, K>,
        text: &mut Vec<u8>,
    ) -> Result<(), OutOfMemory>
        requires network { (opening_in self.old).net ≡ net.now }
        requires caller_network { caller.old.start.net ≡ net.now }
        requires number { caller_number caller.old ≡ 0 }
        ensures played { OnOk result (Asks (PlaysOrder net.now self.old (wanted_in self.old)) self.new (own_of caller.old) (own_of caller.new) text.old.items text.new.items) }
        ensures opening { opening_in self.new ≡ opening_in self.old }
        ensures same { IsSameCaller caller.old caller.new }
    {
        let Some(order) = self.placeable(net) else {
            return Ok(());
        };
        let entry = caller.ask(rt, alloc, net, Call::Place(order))?;
        self.tell_answer(alloc, net, order, &entry.reply, text)
    }

    /// Appends the lines of an order that was asked to be placed, and where it was placed lets it join the orders.
    fn tell_answer(
        &mut self,
        alloc: Global,
        net: &Network,
        order: Order,
        reply: &Reply,
        text: &mut Vec<u8>,
    ) -> Result<(), OutOfMemory>
        requires network { (opening_in self.old).net ≡ net.now }
        requires wanted { IsSome (wanted_in self.old) }
        requires reply { AnswersOrder reply.now }
        ensures air { OnOk result (self.new ≡ once_answered self.old reply.now) }
        ensures text { OnOk result (text.new.items ≡ text.old.items ++ (order_line order ++ answer_text net.now self.old reply.now)) }
        ensures opening { opening_in self.new ≡ opening_in self.old }
    {
        order_text(alloc, order, text)?;
        match reply {
            Reply::Placed => self.join_order(alloc, net, text),
            _ => unplaced_text(alloc, reply, text),
        }
    }
}
