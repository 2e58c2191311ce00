// How many cases were played.
ghost use Rattle.std.specs.Prelude.{◌≡◌, ◌<◌, ◌≤◌, OnOk};
ghost use Rattle.bt_base.specs.Calls.{raised};
ghost use Rattle.bt_outside.specs.Told.{Rose};

use crate::fault::{CaseFault, Result};
use std::alloc::Global;
use std::marker::Model;

/// How many cases were played, how many of them got another answer, and these with their answers.
#[derive(Drop)]
pub struct Tally {
    cases: u64,
    others: u64,
    text: String,
}

impl Model for Tally {
    ghost use Rattle.bt_sheet.specs.Tallied.{Tallied};

    ghost Value = { Tallied };

    ghost view = { λ a. record { cases = a.cases; others = a.others } };
}

impl Tally {
    /// Nothing was played.
    pub fn none(alloc: Global) -> Tally
        ensures none { result ≡ record { cases = 0; others = 0 } }
    {
        Tally {
            cases: 0,
            others: 0,
            text: String::new(alloc),
        }
    }

    /// How many cases were played.
    pub fn cases(&self) -> u64
        ensures cases { result ≡ self.now.cases }
    {
        self.cases
    }

    /// The cases that got another answer, each with that answer.
    pub fn others(&self) -> &str {
        self.text.as_str()
    }

    /// Fails where no case was played, and where one got another answer.
    pub fn see_all_well(&self) -> Result<()>
        ensures well { OnOk result ((0 < self.now.cases) × (self.now.others ≡ 0)) }
    {
        if self.cases == 0 {
            return Err(CaseFault("no cases"));
        }
        if 0 < self.others {
            return Err(CaseFault("a case got another answer"));
        }
        Ok(())
    }

    /// One case more, which got the answer that it must.
    pub(crate) fn count(&mut self)
        ensures counted { self.new ≡ record self.old { cases = raised self.old.cases } }
    {
        self.cases = self.cases.saturating_add(1);
    }

    /// One case more, which got another answer.
    pub(crate) fn count_other(&mut self)
        ensures counted { self.new ≡ record { cases = raised self.old.cases; others = raised self.old.others } }
        ensures rose { Rose self.old.others self.new.others }
        ensures later { self.old.others ≤ self.new.others }
    {
        self.count();
        self.others = self.others.saturating_add(1);
    }

    /// Keeps what is told of a case that got another answer.
    pub(crate) fn tell(&mut self, told: &str) -> Result<()>
        ensures same { self.new ≡ self.old }
    {
        self.text.push_str(told)?;
        Ok(())
    }
}
