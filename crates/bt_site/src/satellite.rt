// The satellite as a site.
ghost use Rattle.std.specs.Prelude.{◌≡◌, ◌<◌, ◌≤◌, ◌↔◌, IfSome, IsNone, Some};
ghost use Rattle.std.specs.Option.{option_to_list};
ghost use Rattle.bt_frame.specs.declared.limits.TheConstants.{LAST_MARK};
ghost use Rattle.bt_matrix.specs.Good.{total_duration};
ghost use Rattle.bt_machines.specs.Satellite.{new_at, status_of, step_of as take, ticked};
ghost use Rattle.bt_machines.specs.Says.{told_by};
ghost use Rattle.bt_machines.specs.Slots.{HasSlot};
ghost use Rattle.bt_site.specs.Sites.{satellite_says, satellite_with};

use bt_air::{Aired, Message, Status, Taken};
use bt_frame::{Mark, Mode};
use bt_machines::Satellite;
use std::alloc::Global;
use std::marker::Model;

/// The satellite, and what it says.
#[derive(Drop)]
pub struct SatelliteSite {
    satellite: Satellite,
}

impl Model for SatelliteSite {
    ghost use Rattle.bt_machines.specs.Satellite.{State};

    ghost Value = { State };

    ghost view = { λ a. a.satellite };
}

impl SatelliteSite {
    /// The satellite before its first command, in a superframe.
    pub fn start(alloc: Global, mark: Mark) -> SatelliteSite
        ensures made { result ≡ new_at mark }
    {
        SatelliteSite {
            satellite: Satellite::new(alloc, mark),
        }
    }

    /// What it says of itself.
    pub fn status(&self) -> Status
        ensures status { result ≡ status_of self.now }
    {
        self.satellite.status()
    }

    /// The modes of the plan in front, in the order in which the switch takes them.
    pub fn modes(&self) -> &[Mode]
        ensures modes { result.now ≡ self.now.fore.modes }
    {
        self.satellite.modes()
    }

    /// The mode that the switch takes in a slot of the frame, or None past the end of the plan in front.
    pub fn mode_at(&self, slot: u32) -> Option<&Mode>
        ensures past { IsNone result ↔ (total_duration self.now.fore.modes ≤ slot) }
        ensures mode { IfSome result (λ mode. HasSlot self.now.fore.modes slot mode.now) }
    {
        self.satellite.mode_at(slot)
    }

    /// The next superframe begins: it says its new status.
    pub fn tick(&mut self) -> Status
        requires mark { self.old.mark.0 < LAST_MARK }
        ensures state { self.new ≡ ticked self.old }
        ensures said { result ≡ status_of (ticked self.old) }
    {
        self.satellite.tick()
    }

    /// It hears a message, and tells its new status where it carried the message out.
    pub fn hear(&mut self, message: Message) -> (Taken, Option<Aired>)
        ensures state { self.new ≡ satellite_with self.old (Some message) }
        ensures answer { result.0 ≡ (take self.old message).0 }
        ensures said { option_to_list result.1 ≡ satellite_says self.old (Some message) }
    {
        let taken = self.satellite.take(message);
        (taken, told_by(taken, &self.satellite))
    }
}

/// What the satellite tells once it has taken a message: its new status, where it carried the message out.
fn told_by(taken: Taken, satellite: &Satellite) -> Option<Aired>
    ensures { option_to_list result ≡ told_by (taken, satellite.now) }
{
    match taken {
        Taken::Accepted => Some(Aired::Status(satellite.status())),
        _ => None,
    }
}
