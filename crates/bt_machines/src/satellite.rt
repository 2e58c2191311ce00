// The satellite, a machine that takes commands and counts superframes.
ghost use Rattle.std.specs.Prelude.{◌≡◌, ◌<◌, ◌≤◌, ◌↔◌, IfSome, IsNone};
ghost use Rattle.bt_matrix.specs.Good.{total_duration};
ghost use Rattle.bt_machines.specs.Slots.{HasSlot};
ghost use Rattle.bt_machines.specs.Satellite.{new_at, step_of, ticked, status_of, is_due};

use crate::mode_bank::Bank;
use crate::slots::mode_in;
use bt_air::{Armed, Message, Status, Taken};
use bt_frame::{Command, LAST_MARK, Mark, Mode};
use std::alloc::Global;
use std::marker::Model;
use std::mem::swap;

/// The satellite.
#[derive(Drop)]
pub struct Satellite {
    mark: Mark,
    fore: Bank,
    back: Bank,
    armed: Option<Armed>,
    last: Command,
}

impl Model for Satellite {
    ghost use Rattle.bt_machines.specs.Satellite.{State};

    ghost Value = { State };

    ghost view = { λ a. record { mark = a.mark; fore = a.fore; back = a.back; armed = a.armed; last = a.last } };
}

impl Satellite {
    /// A satellite at this superframe: edition 0 in both banks without modes, nothing armed, no command accepted.
    pub fn new(alloc: Global, mark: Mark) -> Satellite
        ensures made { result ≡ new_at mark }
    {
        Satellite {
            mark,
            fore: Bank::empty(alloc),
            back: Bank::empty(alloc),
            armed: None,
            last: Command(0),
        }
    }

    /// What the satellite says of itself.
    pub fn status(&self) -> Status
        ensures status { result ≡ status_of self.now }
    {
        Status {
            mark: self.mark,
            fore: self.fore.edition,
            back: self.back.edition,
            armed: self.armed,
            last: self.last,
        }
    }

    /// The modes of the foreground, in the order in which the switch takes them.
    pub fn modes(&self) -> &[Mode]
        ensures modes { result.now ≡ self.now.fore.modes }
    {
        self.fore.modes.as_slice()
    }

    /// The mode that the switch takes in a slot of the frame, or None past the end of the foreground's modes.
    pub fn mode_at(&self, slot: u32) -> Option<&Mode>
        ensures past { IsNone result ↔ (total_duration self.now.fore.modes ≤ slot) }
        ensures mode { IfSome result (λ mode. HasSlot self.now.fore.modes slot mode.now) }
    {
        mode_in(self.fore.modes.as_slice(), slot)
    }

    /// The next superframe begins. A change that is due with it is made.
    pub fn tick(&mut self) -> Status
        requires mark { self.old.mark.0 < LAST_MARK }
        ensures state { self.new ≡ ticked self.old }
        ensures status { result ≡ status_of self.new }
    {
        self.mark = Mark(self.mark.0 + 1);
        if self.is_due() {
            swap(&mut self.fore, &mut self.back);
            self.armed = None;
        }
        self.status()
    }

    /// Takes a message: answers it by the table, and carries out what it accepts.
    pub fn take(&mut self, message: Message) -> Taken
        ensures answer { result ≡ (step_of self.old message).0 }
        ensures state { self.new ≡ (step_of self.old message).1 }
    {
        let answer = self.answer_to(&message);
        match (answer, message) {
            (
                Taken::Accepted,
                Message::Load {
                    command,
                    edition,
                    modes,
                },
            ) => {
                self.back = Bank { edition, modes };
                self.last = command;
            }
            (
                Taken::Accepted,
                Message::Arm {
                    command,
                    edition,
                    due,
                },
            ) => {
                self.armed = Some(Armed { edition, due });
                self.last = command;
            }
            _other => {}
        }
        answer
    }

    // The answers of the table of `docs/machines.md`, a line for each of its rows.
    #[rattlefmt::skip]
    fn answer_to(&self, message: &Message) -> Taken
        ensures { result ≡ (step_of self.now message.now).0 }
    {
        use Taken::*;
        match message {
            Message::Load { command, .. } if *command <= self.last        => Stale,
            Message::Load { .. } if self.armed.is_some()                  => Busy,
            Message::Load { .. }                                          => Accepted,
            Message::Arm { command, .. } if *command <= self.last         => Stale,
            Message::Arm { .. } if self.armed.is_some()                   => Busy,
            Message::Arm { edition, .. } if *edition != self.back.edition => NotLoaded,
            Message::Arm { due, .. } if *due <= self.mark                 => TooLate,
            Message::Arm { .. }                                           => Accepted,
            _                                                             => NotForMe,
        }
    }

    // A change is due with the present superframe.
    fn is_due(&self) -> bool
        ensures { result ≡ is_due self.now.armed self.now.mark.0 }
    {
        match self.armed {
            Some(armed) => armed.due == self.mark,
            None => false,
        }
    }
}
