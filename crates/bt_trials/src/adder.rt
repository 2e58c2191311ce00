// The object of the tests: it adds numbers.
ghost use Rattle.std.specs.Prelude.{◌≡◌, ◌≤◌, [], length};
ghost use Rattle.bt_trials.specs.Sums.{Adds};

use bt_frame::OutOfMemory;
use bt_shared::{Object, TurnEntry};
use std::alloc::Global;
use std::marker::Model;

/// It adds numbers up to a limit to its total, modulo 2^64, and stores each call.
#[derive(Drop)]
pub struct Adder {
    limit: u64,
    total: u64,
    past: Vec<TurnEntry<u64, u64>>,
}

impl Model for Adder {
    ghost use Rattle.bt_trials.specs.Sums.{Sums};

    ghost Value = { Sums };

    ghost view = { λ a. record { limit = a.limit; total = a.total; past = a.past.items } };
}

impl Adder {
    pub fn new(alloc: Global, limit: u64) -> Adder
        ensures made { result ≡ record { limit = limit; total = 0; past = [] } }
    {
        Adder {
            limit,
            total: 0,
            past: Vec::new(alloc),
        }
    }

    pub fn total(&self) -> u64
        ensures total { result ≡ self.now.total }
    {
        self.total
    }

    /// How many calls it has stored.
    pub fn count(&self) -> usize
        ensures count { result ≡ length self.now.past }
    {
        self.past.len()
    }
}

impl Object for Adder {
    type Call = u64;

    type Reply = u64;

    ghost use Rattle.std.specs.Prelude.{◌≤◌};
    ghost use Rattle.std.proofs.Common.{subst, sym};

    ghost steps = { λ old _ call reply new. Adds old call reply new };

    ghost history = { λ adder. adder.past };

    ghost takes = { λ adder call. call ≤ adder.limit };

    fn apply(&mut self, alloc: Global, caller: u32, call: u64) -> Result<u64, OutOfMemory> {
        let reply = self.total.wrapping_add(call);
        self.past.push(TurnEntry {
            caller,
            call,
            reply,
        })?;
        self.total = reply;
        Ok(reply)
    }

    ghost keeps_test = { λ o _ _ _ p step d small. subst (λ limit. d ≤ limit) (sym step.limit) small };
}
