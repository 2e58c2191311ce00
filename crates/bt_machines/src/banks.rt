// The two banks of a terminal, and which of them gives way.
//
//     first    edition 4, bursts, raised by Load 9      in use: the reference burst that was heard last names edition 4
//     second   edition 5, bursts, raised by Load 11     the next to be used
//
// Bursts of a third edition take an empty bank, else the place of the least edition that is not in use.
ghost use Rattle.std.specs.Prelude.{◌≡◌};
ghost use Rattle.std.specs.Option.{option_copied};
ghost use Rattle.bt_machines.specs.Banks.{are_used, bank_raised, have_room, hold, is_of, is_less, is_used, goes_second, next_bank, raised, second_gives, with_raised, with_stored, bank_of, no_banks};

use crate::burst_bank::{Bank, Holding};
use crate::reference::{Reference, is_in_use};
use bt_frame::{Command, EditionNo, Mark};

/// Two banks, each empty or with the bursts of an edition.
#[derive(Drop)]
pub(crate) struct Banks {
    first: Option<Bank>,
    second: Option<Bank>,
}

impl Banks {
    /// Two empty banks.
    pub(crate) fn empty() -> Banks
        ensures { result ≡ no_banks }
    {
        Banks {
            first: None,
            second: None,
        }
    }

    /// One of the banks is of this edition.
    pub(crate) fn hold(&self, edition: EditionNo) -> bool
        ensures { result ≡ hold self.now edition }
    {
        is_of(&self.first, edition) || is_of(&self.second, edition)
    }

    /// One of the banks is empty.
    pub(crate) fn have_room(&self) -> bool
        ensures { result ≡ have_room self.now }
    {
        self.first.is_none() || self.second.is_none()
    }

    /// Both banks are in use in this superframe, by the reference burst that was heard last.
    pub(crate) fn are_used(&self, heard: Option<Reference>, mark: Mark) -> bool
        ensures { result ≡ are_used heard mark.0 self.now }
    {
        is_used(heard, mark, &self.first) && is_used(heard, mark, &self.second)
    }

    /// The bank of this edition, if there is one.
    pub(crate) fn of(&self, edition: EditionNo) -> Option<&Bank>
        ensures { option_copied result ≡ bank_of self.now edition }
    {
        if is_of(&self.first, edition) {
            self.first.as_ref()
        } else if is_of(&self.second, edition) {
            self.second.as_ref()
        } else {
            None
        }
    }

    /// The bank in whose place bursts go that are stored next, or None where that place is empty.
    pub(crate) fn next(&self, heard: Option<Reference>, mark: Mark) -> Option<&Bank>
        ensures { option_copied result ≡ next_bank heard mark.0 self.now }
    {
        if self.goes_second(heard, mark) {
            self.second.as_ref()
        } else {
            self.first.as_ref()
        }
    }

    /// Stores the bursts in an empty bank, or else in the place of the least that is not in use.
    pub(crate) fn store(&mut self, heard: Option<Reference>, mark: Mark, bank: Bank)
        ensures { self.new ≡ with_stored heard mark.0 self.old bank }
    {
        if self.goes_second(heard, mark) {
            self.second = Some(bank);
        } else {
            self.first = Some(bank);
        }
    }

    /// The bursts of an edition came once more, for this Load.
    pub(crate) fn raise(&mut self, edition: EditionNo, load: Command)
        ensures { self.new ≡ with_raised self.old edition load }
    {
        if is_of(&self.first, edition) {
            raise(&mut self.first, load);
        } else {
            raise(&mut self.second, load);
        }
    }

    // What is stored goes into the second bank.
    fn goes_second(&self, heard: Option<Reference>, mark: Mark) -> bool
        ensures { result ≡ goes_second heard mark.0 self.now.first self.now.second }
    {
        match (&self.first, &self.second) {
            (None, _) => false,
            (Some(_), None) => true,
            (Some(first), Some(second)) => second_gives(heard, mark, first.holding, second.holding),
        }
    }
}

// Of two that are held, the second gives way: it is not in use, and the first is, or the second is less.
fn second_gives(heard: Option<Reference>, mark: Mark, a: Holding, b: Holding) -> bool
    ensures { result ≡ second_gives heard mark.0 a b }
{
    !is_in_use(heard, mark, b.edition) && (is_in_use(heard, mark, a.edition) || is_less(b, a))
}

// The order of what is held: by the Load, and under one Load by the edition.
pub(crate) fn is_less(a: Holding, b: Holding) -> bool
    ensures { result ≡ is_less a b }
{
    a.load < b.load || (a.load == b.load && a.edition < b.edition)
}

// What is held, with the greater of its Load and this one.
fn raised(one: Holding, load: Command) -> Holding
    ensures { result ≡ raised one load }
{
    if one.load < load {
        Holding {
            load,
            edition: one.edition,
        }
    } else {
        one
    }
}

// The bursts of a bank came once more, for this Load.
fn raise(bank: &mut Option<Bank>, load: Command)
    ensures { bank.new ≡ bank_raised bank.old load }
{
    if let Some(bank) = bank {
        bank.holding = raised(bank.holding, load);
    }
}

fn is_of(bank: &Option<Bank>, edition: EditionNo) -> bool
    ensures { result ≡ is_of bank.now edition }
{
    match bank {
        Some(bank) => bank.holding.edition == edition,
        None => false,
    }
}

fn is_used(heard: Option<Reference>, mark: Mark, bank: &Option<Bank>) -> bool
    ensures { result ≡ is_used heard mark.0 bank.now }
{
    match bank {
        Some(bank) => is_in_use(heard, mark, bank.holding.edition),
        None => false,
    }
}
