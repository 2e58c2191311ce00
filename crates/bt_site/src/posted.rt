// A message that was sent, as a world keeps it.
ghost use Rattle.std.specs.Prelude.{◌≡◌, ◌+◌, ◌<◌, ◌++◌, ◌∷◌, [], vec_len, vec_capacity};
ghost use Rattle.bt_air.specs.Sent.{sent_as};
ghost use Rattle.bt_site.specs.Posted.{load_of, next_of};

use bt_air::{Aired, Armed, Sent};
use bt_frame::Command;
use std::marker::Model;

/// A message with all its fields but its modes and bursts: as it is printed, and beside that the number of its Load and the
/// change that it announces.
#[derive(Drop)]
pub struct Posted {
    sent: Sent,
    load: Command,
    next: Option<Armed>,
}

impl Model for Posted {
    ghost use Rattle.bt_air.specs.declared.sent.Aired.{Aired};
    ghost use Rattle.bt_site.specs.Posted.{aired_of};

    ghost Value = { Aired };

    ghost view = { λ a. aired_of a.sent a.load a.next };
}

impl Posted {
    /// The message.
    #[rattlefmt::skip]
    pub fn aired(&self) -> Aired
        ensures { result ≡ self.now }
    {
        let (load, next) = (self.load, self.next);
        match self.sent {
            Sent::Load { command, edition }          => Aired::Load { command, edition },
            Sent::Arm { command, edition, due }      => Aired::Arm { command, edition, due },
            Sent::Status(status)                     => Aired::Status(status),
            Sent::PlanFor { to, edition }            => Aired::PlanFor { to, load, edition },
            Sent::Confirm { from, edition }          => Aired::Confirm { from, load, edition },
            Sent::Reference { superframe, in_force } => Aired::Reference { superframe, in_force, next },
            Sent::Lost { from }                      => Aired::Lost { from },
        }
    }

    /// The message as it is printed.
    pub fn sent(&self) -> &Sent
        ensures { result.now ≡ sent_as self.now }
    {
        &self.sent
    }
}

/// Appends a message. There is room for it.
pub fn post(sent: &mut Vec<Posted>, aired: Aired)
    requires room { vec_len sent.old < vec_capacity sent.old }
    ensures items { sent.new.items ≡ sent.old.items ++ aired ∷ [] }
    ensures len { vec_len sent.new ≡ vec_len sent.old + 1 }
    ensures capacity { vec_capacity sent.new ≡ vec_capacity sent.old }
{
    sent.push_reserved(Posted {
        sent: aired.as_sent(),
        load: load_of(aired),
        next: next_of(aired),
    });
}

// The number of its Load, 0 where it has none.
fn load_of(aired: Aired) -> Command
    ensures { result ≡ load_of aired }
{
    match aired {
        Aired::PlanFor { load, .. } | Aired::Confirm { load, .. } => load,
        _ => Command(0),
    }
}

// The change that it announces.
fn next_of(aired: Aired) -> Option<Armed>
    ensures { result ≡ next_of aired }
{
    match aired {
        Aired::Reference { next, .. } => next,
        _ => None,
    }
}
