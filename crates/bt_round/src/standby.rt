// The lines of the standby: what it hears, and its reference burst.
ghost use Rattle.std.specs.Prelude.{◌≡◌, OnOk};
ghost use Rattle.bt_round.specs.Simulated.{PlaysBurst, PlaysNotice};
ghost use Rattle.bt_round.specs.Worker.{Plays};

use crate::simulated::SimulatedCentre;
use bt_air::{Event, Sent};
use bt_frame::OutOfMemory;
use bt_net::Network;
use bt_timeline::{noticed_text, standby_burst_text, unnoticed_text, unsent_text};
use bt_world::Events;
use std::alloc::Global;

impl<E: Events> SimulatedCentre<E> {
    /// The standby hears the message of that number, where one was sent and it is a status. No event happens.
    pub(crate) fn standby_hears(
        &mut self,
        alloc: Global,
        number: u32,
        text: &mut Vec<u8>,
    ) -> Result<(), OutOfMemory>
        ensures played { OnOk result (Plays (PlaysNotice self.old number) self.new text.old.items text.new.items) }
        ensures opening { self.new.life.opening ≡ self.old.life.opening }
    {
        if self.sent_count() <= number {
            return unsent_text(alloc, number, text);
        }
        match *self.world.sent(number) {
            Sent::Status(status) => {
                let mark = self.world.mark();
                let noticed = self.standby.hear(mark, status);
                noticed_text(alloc, number, noticed, text)
            }
            _ => unnoticed_text(alloc, number, text),
        }
    }

    /// The standby sends its reference burst for the present superframe.
    pub(crate) fn standby_burst(
        &mut self,
        alloc: Global,
        net: &Network,
        text: &mut Vec<u8>,
    ) -> Result<(), OutOfMemory>
        requires network { self.old.life.opening.net ≡ net.now }
        ensures played { OnOk result (Plays (PlaysBurst net.now self.old) self.new text.old.items text.new.items) }
        ensures opening { self.new.life.opening ≡ self.old.life.opening }
    {
        let first = self.sent_count();
        let in_force = self.standby.names(self.world.mark());
        self.happen(alloc, net, Event::Second { in_force })?;
        standby_burst_text(alloc, text)?;
        self.tell_sent(alloc, net, first, text)
    }
}
