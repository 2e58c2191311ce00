// The lines of a simulated air that are over with one event, and the loss of what waits.
ghost use Rattle.std.specs.Prelude.{◌≡◌, OnOk};
ghost use Rattle.bt_net.specs.Terminals.{IsTerminal};
ghost use Rattle.bt_round.specs.Simulated.{PlaysFrame, PlaysLoss, PlaysReset, PlaysTick};
ghost use Rattle.bt_round.specs.Worker.{Plays};

use crate::simulated::SimulatedCentre;
use bt_air::{Event, Shown};
use bt_frame::{LAST_MARK, OutOfMemory, TermNo};
use bt_net::Network;
use bt_script::Losing;
use bt_timeline::{frame_text, last_tick_text, lost_text, over_text, reset_text, tick_text};
use bt_world::Events;
use std::alloc::Global;

impl<E: Events> SimulatedCentre<E> {
    /// The satellite's next superframe begins, where there is one.
    pub(crate) fn tick(
        &mut self,
        alloc: Global,
        net: &Network,
        text: &mut Vec<u8>,
    ) -> Result<(), OutOfMemory>
        requires network { self.old.life.opening.net ≡ net.now }
        ensures played { OnOk result (Plays (PlaysTick net.now self.old) self.new text.old.items text.new.items) }
        ensures opening { self.new.life.opening ≡ self.old.life.opening }
    {
        if LAST_MARK <= self.world.mark().0 {
            return last_tick_text(alloc, text);
        }
        let first = self.sent_count();
        self.happen(alloc, net, Event::Tick)?;
        tick_text(alloc, self.mark(), text)?;
        self.tell_sent(alloc, net, first, text)
    }

    /// What waits is lost, or what waits for one place.
    pub(crate) fn lose(
        &mut self,
        alloc: Global,
        losing: Losing,
        text: &mut Vec<u8>,
    ) -> Result<(), OutOfMemory>
        ensures played { OnOk result (Plays (PlaysLoss self.old losing) self.new text.old.items text.new.items) }
        ensures opening { self.new.life.opening ≡ self.old.life.opening }
    {
        let lost = self.waiting.lose(losing);
        lost_text(alloc, lost as u64, text)
    }

    /// The next frame of the superframe is shown, where one is left.
    pub(crate) fn frame(
        &mut self,
        alloc: Global,
        net: &Network,
        text: &mut Vec<u8>,
    ) -> Result<(), OutOfMemory>
        requires network { self.old.life.opening.net ≡ net.now }
        ensures played { OnOk result (Plays (PlaysFrame net.now self.old) self.new text.old.items text.new.items) }
        ensures opening { self.new.life.opening ≡ self.old.life.opening }
    {
        if net.frames() <= self.world.frame_number() {
            return over_text(alloc, self.mark(), text);
        }
        match self.happen(alloc, net, Event::Frame)? {
            Shown::Framed(frame) => frame_text(alloc, net, &frame, text),
            _ => unreachable!(),
        }
    }

    /// A terminal restarts.
    pub(crate) fn reset(
        &mut self,
        alloc: Global,
        net: &Network,
        terminal: TermNo,
        text: &mut Vec<u8>,
    ) -> Result<(), OutOfMemory>
        requires network { self.old.life.opening.net ≡ net.now }
        requires terminal { IsTerminal net.now terminal }
        ensures played { OnOk result (Plays (PlaysReset net.now self.old terminal) self.new text.old.items text.new.items) }
        ensures opening { self.new.life.opening ≡ self.old.life.opening }
    {
        let first = self.sent_count();
        self.happen(alloc, net, Event::ResetTerminal { terminal })?;
        reset_text(alloc, net, terminal, text)?;
        self.tell_sent(alloc, net, first, text)
    }
}
