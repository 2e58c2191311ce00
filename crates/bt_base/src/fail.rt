// Which calls on an object in memory fail, for tests of what stands after a fault.
ghost use Rattle.std.specs.Prelude.{◌≡◌, ◌≤◌, option_copied};
ghost use Rattle.bt_base.specs.Calls.{fail_at, raised};

use std::marker::Model;

/// A call that is to fail, and what of a piece it keeps.
#[derive(Clone, Copy)]
pub struct Fail {
    /// Its number, counted from 0 over all calls but those of `faults`.
    pub call: u32,
    /// How many bytes of its piece it still takes, at most.
    pub kept: u32,
}

/// The calls made so far, which of all calls are to fail, and how often one failed.
#[derive(Drop)]
pub(crate) struct Calls {
    fails: Vec<Fail>,
    made: u64,
    faults: u64,
}

impl Model for Calls {
    ghost use Rattle.bt_base.specs.Calls.{Calls};

    ghost Value = { Calls };

    ghost view = { λ a. record { fails = a.fails.items; made = a.made; faults = a.faults } };
}

impl Calls {
    /// None made so far.
    pub(crate) fn new(fails: Vec<Fail>) -> Calls
        ensures { result ≡ record { fails = fails.items; made = 0; faults = 0 } }
    {
        Calls {
            fails,
            made: 0,
            faults: 0,
        }
    }

    /// How often a call failed.
    pub(crate) fn faults(&self) -> u64
        ensures { result ≡ self.now.faults }
    {
        self.faults
    }

    /// Counts one call more, and gives its entry of the list where it is to fail.
    pub(crate) fn count(&mut self) -> Option<Fail>
        ensures fail { result ≡ fail_at self.old.fails self.old.made }
        ensures made { self.new ≡ record self.old { made = raised self.old.made } }
    {
        let fail = find(self.fails.as_slice(), self.made).copied();
        self.made = self.made.saturating_add(1);
        fail
    }

    /// Counts one fault more.
    pub(crate) fn fault(&mut self)
        ensures raised { self.new ≡ record self.old { faults = raised self.old.faults } }
        ensures later { self.old.faults ≤ self.new.faults }
    {
        self.faults = self.faults.saturating_add(1);
    }
}

/// The first entry for the call of that number.
fn find(fails: &[Fail], number: u64) -> Option<&Fail>
    ensures { option_copied result ≡ fail_at fails.now number }
{
    fails.iter().find(|fail| u64::from(fail.call) == number)
}
