// The standby as a site.
ghost use Rattle.std.specs.Prelude.{◌≡◌, None, Some};
ghost use Rattle.bt_site.specs.Sites.{standby_says, standby_with};

use bt_air::{Aired, Message};
use bt_frame::Mark;
use bt_machines::Standby;
use std::marker::Model;

/// The standby, and what it says.
#[derive(Drop)]
pub struct StandbySite {
    standby: Standby,
}

impl Model for StandbySite {
    ghost use Rattle.std.specs.Prelude.{Option};
    ghost use Rattle.bt_air.specs.declared.order.Status.{Status};

    ghost Value = { Option Status };

    ghost view = { λ a. a.standby };
}

impl StandbySite {
    /// A standby that has heard nothing.
    pub fn start() -> StandbySite
        ensures made { result ≡ None }
    {
        StandbySite {
            standby: Standby::new(),
        }
    }

    /// It hears a message in a superframe, and keeps a status of that very superframe. Others are not for it.
    pub fn hear(&mut self, mark: Mark, message: &Message)
        ensures state { self.new ≡ standby_with self.old mark (Some message.now) }
    {
        match message {
            Message::Status(status) => {
                self.standby.hear(mark, *status);
            }
            _ => {}
        }
    }

    /// The second reference burst of a superframe. It names the edition in front by the status that it keeps, and announces
    /// nothing.
    pub fn says(&self, mark: Mark) -> Aired
        ensures said { result ≡ standby_says self.now mark }
    {
        Aired::Reference {
            superframe: mark,
            in_force: self.standby.names(mark),
            next: None,
        }
    }
}
