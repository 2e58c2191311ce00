// Deliveries: one out of turn, and all that wait.
ghost use Rattle.std.specs.Prelude.{◌≡◌, ◌<◌, ◌≤◌, length, OnOk, Some};
ghost use Rattle.bt_air.specs.declared.sent.Place.{Place};
ghost use Rattle.bt_site.specs.Fits.{IsPlace};
ghost use Rattle.bt_round.specs.Simulated.{PlaysDelivery, PlaysFlow, PlaysHearing, sent_count};
ghost use Rattle.bt_round.specs.Worker.{ComeFirst, Plays, PlaysFirst};

use crate::simulated::SimulatedCentre;
use bt_air::{Event, Place, Shown};
use bt_frame::OutOfMemory;
use bt_net::Network;
use bt_timeline::{flow_text, got_text, not_sent_text};
use bt_world::Events;
use std::alloc::Global;

impl<E: Events> SimulatedCentre<E> {
    /// The message of that number is heard at a place, whoever waits, where one was sent.
    pub(crate) fn deliver(
        &mut self,
        alloc: Global,
        net: &Network,
        number: u32,
        place: Place,
        text: &mut Vec<u8>,
    ) -> Result<(), OutOfMemory>
        requires network { self.old.life.opening.net ≡ net.now }
        requires place { IsPlace self.old.life.opening place }
        ensures played { OnOk result (Plays (PlaysDelivery net.now self.old number place) self.new text.old.items text.new.items) }
        ensures opening { self.new.life.opening ≡ self.old.life.opening }
    {
        if self.sent_count() <= number {
            return not_sent_text(alloc, number, text);
        }
        self.hear(alloc, net, number, place, text)
    }

    /// All that waits is heard, and what is sent meanwhile.
    ///
    /// What the satellite and the terminals send when they hear a message is for the centre, which sends nothing then.
    /// So all is heard once those have come that wait now, and those that joined them meanwhile.
    pub(crate) fn flow(
        &mut self,
        alloc: Global,
        net: &Network,
        text: &mut Vec<u8>,
    ) -> Result<(), OutOfMemory>
        requires network { self.old.life.opening.net ≡ net.now }
        ensures played { OnOk result (Plays (PlaysFlow net.now self.old) self.new text.old.items text.new.items) }
        ensures opening { self.new.life.opening ≡ self.old.life.opening }
    {
        flow_text(alloc, text)?;
        self.hear_waiting(alloc, net, text)?;
        self.hear_waiting(alloc, net, text)
    }

    /// All deliveries come that wait now.
    fn hear_waiting(
        &mut self,
        alloc: Global,
        net: &Network,
        text: &mut Vec<u8>,
    ) -> Result<(), OutOfMemory>
        requires network { self.old.life.opening.net ≡ net.now }
        ensures came { OnOk result (Plays (ComeFirst net.now (length self.old.waiting) self.old) self.new text.old.items text.new.items) }
        ensures opening { self.new.life.opening ≡ self.old.life.opening }
    {
        let count = self.waiting_count();
        self.hear_first(alloc, net, count, text)
    }

    /// The first deliveries come, so many of them.
    fn hear_first(
        &mut self,
        alloc: Global,
        net: &Network,
        count: usize,
        text: &mut Vec<u8>,
    ) -> Result<(), OutOfMemory>
        requires network { self.old.life.opening.net ≡ net.now }
        requires wait { count ≤ length self.old.waiting }
        ensures came { OnOk result (Plays (ComeFirst net.now count self.old) self.new text.old.items text.new.items) }
        ensures opening { self.new.life.opening ≡ self.old.life.opening }
    {
        for _come in 0..count {
            self.hear_next(alloc, net, text)?;
        }
        Ok(())
    }

    /// The next delivery comes.
    fn hear_next(
        &mut self,
        alloc: Global,
        net: &Network,
        text: &mut Vec<u8>,
    ) -> Result<(), OutOfMemory>
        requires network { self.old.life.opening.net ≡ net.now }
        requires waits { 0 < length self.old.waiting }
        ensures came { OnOk result (Plays (PlaysFirst net.now self.old) self.new text.old.items text.new.items) }
        ensures opening { self.new.life.opening ≡ self.old.life.opening }
    {
        let Some((number, place)) = self.waiting.next() else {
            unreachable!();
        };
        self.hear(alloc, net, number, place, text)
    }

    /// A message is heard at a place.
    fn hear(
        &mut self,
        alloc: Global,
        net: &Network,
        number: u32,
        place: Place,
        text: &mut Vec<u8>,
    ) -> Result<(), OutOfMemory>
        requires network { self.old.life.opening.net ≡ net.now }
        requires sent { number < sent_count self.old }
        requires place { IsPlace self.old.life.opening place }
        ensures played { OnOk result (Plays (PlaysHearing net.now self.old number place) self.new text.old.items text.new.items) }
        ensures opening { self.new.life.opening ≡ self.old.life.opening }
    {
        let first = self.sent_count();
        let event = Event::Deliver {
            message: number,
            place,
        };
        match self.happen(alloc, net, event)? {
            Shown::Delivered(answer) => {
                got_text(alloc, net, number, place, answer, text)?;
                self.tell_sent(alloc, net, first, text)
            }
            _ => unreachable!(),
        }
    }
}
