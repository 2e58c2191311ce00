// The numbers of the field, each a type of its own.
ghost use Rattle.std.specs.Prelude.{◌≡◌, ◌≤◌};
ghost use Rattle.std.specs.Option.{SomeIff};

use crate::MOST_UNITS;
use std::alloc::{AllocError, AllocFailed};
use std::marker::Model;

/// A beam by its place in the network file, from 0. The same number names it as uplink and as downlink.
#[derive(Clone, Copy, PartialEq, Eq, PartialOrd, Ord)]
pub struct BeamNo(pub u8);

/// A terminal by its place in the network file, from 0.
#[derive(Clone, Copy, PartialEq, Eq, PartialOrd, Ord)]
pub struct TermNo(pub u8);

/// An edition of the demand: how many edits were accepted up to it.
#[derive(Clone, Copy, PartialEq, Eq, PartialOrd, Ord)]
pub struct EditionNo(pub u32);

/// A superframe as the satellite counts them and stamps them on its downlink.
#[derive(Clone, Copy, PartialEq, Eq, PartialOrd, Ord)]
pub struct Mark(pub u32);

/// A command to the satellite, numbered from 1 in the order in which they were given.
#[derive(Clone, Copy, PartialEq, Eq, PartialOrd, Ord)]
pub struct Command(pub u32);

/// A set of terminals: bit `t`, counted from the lowest, stands for terminal `t`.
#[derive(Clone, Copy)]
pub struct TermSet(pub u64);

/// Units of traffic of one edit or one link line, in slots per frame: 1 to `MOST_UNITS`.
#[derive(Clone, Copy, PartialEq, Eq)]
pub struct Units {
    number: u32,
}

impl Model for Units {
    ghost use Rattle.std.specs.Prelude.{ℕ, ◌≤◌};
    ghost use Rattle.bt_frame.specs.declared.limits.TheConstants.{MOST_UNITS};

    ghost Value = { ℕ };

    ghost view = { λ a. a.number };

    ghost invariant = { λ a. (1 ≤ a.number) × (a.number ≤ MOST_UNITS) };

    ghost inverse = { λ n. record { number = n } };
}

impl Units {
    /// The units of that number, or None outside 1 to `MOST_UNITS`.
    pub fn new(number: u32) -> Option<Units>
        ensures range { SomeIff result ((1 ≤ number) × (number ≤ MOST_UNITS)) number }
    {
        if 1 <= number && number <= MOST_UNITS {
            Some(Units { number })
        } else {
            None
        }
    }

    /// The number of units.
    pub fn get(self) -> u32
        ensures same { result ≡ self }
        ensures in_range { (1 ≤ result) × (result ≤ MOST_UNITS) }
    {
        self.number
    }
}

/// Memory ran out. The call left everything as it was, unless its own words say otherwise.
#[derive(Clone, Copy)]
pub struct OutOfMemory;

impl From<AllocError> for OutOfMemory {
    fn from(_: AllocError) -> Self {
        OutOfMemory
    }
}

impl<T: Drop> From<AllocFailed<T>> for OutOfMemory {
    fn from(_: AllocFailed<T>) -> Self {
        OutOfMemory
    }
}
