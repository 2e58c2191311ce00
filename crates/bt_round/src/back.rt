// The edition to which the centre goes back.
ghost use Rattle.std.specs.Prelude.{◌≡◌, OnOk};
ghost use Rattle.bt_round.specs.AirLines.{PlaysAhead, PlaysBack, opening_in};
ghost use Rattle.bt_round.specs.Worker.{Plays};

use crate::simulated::SimulatedCentre;
use crate::worker::CentreOver;
use bt_frame::{EditionNo, OutOfMemory};
use bt_timeline::{ahead_text, back_text, not_installed_text};
use bt_world::Events;
use std::alloc::Global;

impl<E: Events> CentreOver<SimulatedCentre<E>> {
    /// From its next turn on the centre goes back to an edition, where it has a plan of it.
    pub(crate) fn go_back(
        &mut self,
        alloc: Global,
        edition: EditionNo,
        text: &mut Vec<u8>,
    ) -> Result<(), OutOfMemory>
        ensures played { OnOk result (Plays (PlaysBack self.old edition) self.new text.old.items text.new.items) }
        ensures opening { opening_in self.new ≡ opening_in self.old }
    {
        if self.has_plan(edition) {
            self.go(Some(edition));
            back_text(alloc, edition, text)
        } else {
            not_installed_text(alloc, edition, text)
        }
    }

    /// From its next turn on the centre goes ahead to the newest edition.
    pub(crate) fn go_ahead(&mut self, alloc: Global, text: &mut Vec<u8>) -> Result<(), OutOfMemory>
        ensures played { OnOk result (Plays (PlaysAhead self.old) self.new text.old.items text.new.items) }
        ensures opening { opening_in self.new ≡ opening_in self.old }
    {
        self.go(None);
        ahead_text(alloc, text)
    }
}
