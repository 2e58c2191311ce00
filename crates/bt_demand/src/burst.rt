// Bursts: what a terminal sends to another in slots of the frame that follow each other.
ghost use Rattle.std.specs.Prelude.{◌≡◌, ◌↔◌, ◌+◌, ◌≤◌, true, length, vec_len, AllPairs, IfOk};
ghost use Rattle.bt_demand.specs.Burst.{is_not_after, AreBursts, IsNotAfter};

use bt_frame::{OutOfMemory, TermNo};
use std::alloc::Global;
use std::marker::Model;

/// The most bursts that a list may have.
pub const MOST_BURSTS: usize = 2_147_483_648;

/// One burst: terminal `from` sends to terminal `to` in `length` slots, the first of them `start`.
///
/// Slots are counted from the start of the traffic part of the frame, which is slot 0.
#[derive(Clone, Copy)]
pub struct Burst {
    /// The terminal that sends.
    pub from: TermNo,
    /// The terminal that receives.
    pub to: TermNo,
    /// The first slot.
    pub start: u32,
    /// Slots.
    pub length: u32,
}

impl Burst {
    /// The slot behind the last one.
    pub fn end(self) -> u64
        ensures end { result ≡ self.start + self.length }
    {
        u64::from(self.start) + u64::from(self.length)
    }

    /// What bursts are put in order by: the start, then the terminal that sends, then the one that receives.
    pub fn key(self) -> (u32, TermNo, TermNo)
        ensures key { result ≡ (self.start, self.from, self.to) }
    {
        (self.start, self.from, self.to)
    }

    /// The burst does not belong behind the other.
    pub fn is_not_after(self, other: Burst) -> bool
        ensures test { result ≡ is_not_after self other }
        ensures order { (result ≡ true) ↔ IsNotAfter self other }
    {
        self.key() <= other.key()
    }
}

/// Bursts in order of their start, and where that is the same, of the terminal that sends and then of the one
/// that receives. Equal ones are allowed.
#[derive(Drop)]
pub struct Bursts {
    bursts: Vec<Burst>,
}

impl Model for Bursts {
    ghost use Rattle.std.specs.Prelude.{List};
    ghost use Rattle.bt_demand.specs.declared.burst.Burst.{Burst};

    ghost Value = { List Burst };

    ghost use Rattle.bt_demand.specs.Burst.{AreBursts};

    ghost view = { λ a. a.bursts.items };

    ghost invariant = { λ a. AreBursts a.bursts.items };
}

impl Bursts {
    /// These bursts, which stand in order, at most 2,147,483,648 of them.
    pub fn of(bursts: Vec<Burst>) -> Bursts
        requires ordered { AllPairs IsNotAfter bursts.items }
        requires few { vec_len bursts ≤ MOST_BURSTS }
        ensures same { result ≡ bursts.items }
    {
        Bursts { bursts }
    }

    /// The bursts in order.
    pub fn as_slice(&self) -> &[Burst]
        ensures same { result.now ≡ self.now }
        ensures bursts { AreBursts self.now }
    {
        self.bursts.as_slice()
    }

    /// The same bursts.
    pub fn copy(&self, alloc: Global) -> Result<Bursts, OutOfMemory>
        ensures same { IfOk result (λ copy. copy ≡ self.now) }
    {
        Ok(Bursts {
            bursts: Vec::from_slice(alloc, self.bursts.as_slice())?,
        })
    }
}
