// The terminal, a machine that takes reference bursts and its bursts of two editions.
ghost use Rattle.std.specs.Prelude.{◌≡◌};
ghost use Rattle.bt_demand.specs.Burst.{AreBursts};
ghost use Rattle.bt_machines.specs.Banks.{next_bank};
ghost use Rattle.bt_machines.specs.Terminal.{carried_out, load_of, new_of, in_force, is_before, step_of, transmitted};

use crate::banks::{Banks, is_less};
use crate::burst_bank::{Bank, Holding};
use crate::reference::Reference;
use bt_air::{Heard, Message};
use bt_demand::Burst;
use bt_frame::{Command, EditionNo, Mark, TermNo};
use std::alloc::Global;
use std::marker::Model;

/// A terminal.
#[derive(Drop)]
pub struct Terminal {
    number: TermNo,
    banks: Banks,
    heard: Option<Reference>,
}

impl Model for Terminal {
    ghost use Rattle.bt_machines.specs.Terminal.{State};

    ghost Value = { State };

    ghost view = { λ a. record { number = a.number; banks = a.banks; heard = a.heard } };
}

impl Terminal {
    /// The terminal of this number: both banks empty, nothing heard.
    ///
    /// Empty banks need no allocator. It is taken as by every constructor of a type that keeps lists.
    pub fn new(_alloc: Global, number: TermNo) -> Terminal
        ensures made { result ≡ new_of number }
    {
        Terminal {
            number,
            banks: Banks::empty(),
            heard: None,
        }
    }

    /// Its number.
    pub fn number(&self) -> TermNo
        ensures number { result ≡ self.now.number }
    {
        self.number
    }

    /// Loses all that the terminal holds and has heard.
    pub fn restart(&mut self)
        ensures made { self.new ≡ new_of self.old.number }
    {
        self.banks = Banks::empty();
        self.heard = None;
    }

    /// The bursts that the terminal transmits in this superframe: those of the edition that the reference burst of this
    /// very superframe names, where the terminal took it and holds them, and else none.
    pub fn sends(&self, mark: Mark) -> &[Burst]
        ensures bursts { result.now ≡ transmitted self.now mark }
        ensures in_order { AreBursts result.now }
    {
        let Some(edition) = self.in_force(mark) else {
            return &[];
        };
        match self.banks.of(edition) {
            Some(bank) => bank.bursts.as_slice(),
            None => &[],
        }
    }

    /// The Load for which the bursts of an edition came, where the terminal holds them: the last one, where they came
    /// for several.
    pub fn load_of(&self, edition: EditionNo) -> Option<Command>
        ensures load { result ≡ load_of self.now edition }
    {
        match self.banks.of(edition) {
            Some(bank) => Some(bank.holding.load),
            None => None,
        }
    }

    /// Hears a message in the superframe `mark`: answers it by the table, and does what the table says.
    pub fn hear(&mut self, mark: Mark, message: Message) -> Heard
        ensures answer { result ≡ (step_of self.old mark message).0 }
        ensures state { self.new ≡ (step_of self.old mark message).1 }
    {
        let answer = self.answer_to(mark, &message);
        self.carry_out(mark, answer, message);
        answer
    }

    // Does what an answer says.
    fn carry_out(&mut self, mark: Mark, answer: Heard, message: Message)
        ensures { self.new ≡ carried_out self.old mark answer message }
    {
        match (answer, message) {
            (
                Heard::Took,
                Message::Reference {
                    superframe,
                    in_force,
                    next,
                },
            ) => {
                self.heard = Some(Reference {
                    superframe,
                    in_force,
                    next,
                });
            }
            (Heard::Held, Message::PlanFor { load, edition, .. }) => {
                self.banks.raise(edition, load);
            }
            (
                Heard::Stored,
                Message::PlanFor {
                    load,
                    edition,
                    bursts,
                    ..
                },
            ) => {
                let holding = Holding { load, edition };
                self.banks.store(self.heard, mark, Bank { holding, bursts });
            }
            _other => {}
        }
    }

    // The answers of the table of `docs/machines.md`, a line for each of its rows.
    #[rattlefmt::skip]
    fn answer_to(&self, mark: Mark, message: &Message) -> Heard
        ensures { result ≡ (step_of self.now mark message.now).0 }
    {
        use Heard::*;
        match message {
            Message::Reference { superframe, .. } if *superframe != mark                      => WrongMark,
            Message::Reference { .. }                                                         => Took,
            Message::PlanFor { to, .. } if *to != self.number                                 => NotForMe,
            Message::PlanFor { edition, .. } if self.banks.hold(*edition)                     => Held,
            Message::PlanFor { .. } if self.banks.have_room()                                 => Stored,
            Message::PlanFor { .. } if self.banks.are_used(self.heard, mark)                  => InUse,
            Message::PlanFor { load, edition, .. } if self.is_before(mark, *load, *edition)   => Older,
            Message::PlanFor { .. }                                                           => Stored,
            _                                                                                 => NotForMe,
        }
    }

    // The edition named in this superframe: that of its reference burst, where this was taken and names one.
    fn in_force(&self, mark: Mark) -> Option<EditionNo>
        ensures { result ≡ in_force self.now.heard mark }
    {
        match self.heard {
            Some(reference) if reference.superframe == mark => reference.in_force,
            _ => None,
        }
    }

    // What came is less than what the bank holds in whose place it would go.
    fn is_before(&self, mark: Mark, load: Command, edition: EditionNo) -> bool
        ensures { result ≡ is_before (record { load = load; edition = edition }) (next_bank self.now.heard mark.0 self.now.banks) }
    {
        match self.banks.next(self.heard, mark) {
            Some(bank) => is_less(Holding { load, edition }, bank.holding),
            None => false,
        }
    }
}
