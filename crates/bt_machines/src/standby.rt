// The standby, a machine that takes the statuses of the satellite.
ghost use Rattle.std.specs.Prelude.{◌≡◌, None};
ghost use Rattle.bt_machines.specs.Standby.{named, step_of};

use bt_air::Status;
use bt_frame::{EditionNo, Mark};
use std::marker::Model;

/// What a standby does with a status.
#[derive(Clone, Copy)]
pub enum Noticed {
    /// It keeps the status.
    Noted,
    /// The status is of another superframe than the present one.
    WrongMark,
}

/// A second reference station. It keeps the status that it heard last in the superframe of which the status is.
#[derive(Clone, Copy)]
pub struct Standby {
    kept: Option<Status>,
}

impl Model for Standby {
    ghost use Rattle.std.specs.Prelude.{Option};
    ghost use Rattle.bt_air.specs.declared.order.Status.{Status};

    ghost Value = { Option Status };

    ghost view = { λ a. a.kept };

    ghost inverse = { λ kept. record { kept = kept } };
}

impl Standby {
    /// A standby that keeps nothing.
    pub fn new() -> Standby
        ensures none { result ≡ None }
    {
        Standby { kept: None }
    }

    /// Hears a status in the superframe `mark`: answers it by the table of `docs/machines.md`, and does what the table
    /// says.
    pub fn hear(&mut self, mark: Mark, status: Status) -> Noticed
        ensures answer { result ≡ (step_of self.old mark status).0 }
        ensures state { self.new ≡ (step_of self.old mark status).1 }
    {
        if status.mark != mark {
            return Noticed::WrongMark;
        }
        self.kept = Some(status);
        Noticed::Noted
    }

    /// The edition that the standby names in this superframe: the one in front by the status that it keeps, where that
    /// is of this very superframe, and else none.
    pub fn names(&self, mark: Mark) -> Option<EditionNo>
        ensures named { result ≡ named self.now mark }
    {
        match self.kept {
            Some(status) if status.mark == mark => Some(status.fore),
            _ => None,
        }
    }
}
