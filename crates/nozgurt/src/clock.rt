// The clock of the machine.
ghost use Rattle.std.specs.Prelude.{None};

use bt_frame::OutOfMemory;
use bt_talk::Clock;
use jiff::{Error, Timestamp};
use std::alloc::Global;
use std::time;

/// The clock of the machine, by which a session says when it answers.
#[derive(Drop)]
pub struct HostClock<'a, R> {
    rt: &'a R,
}

impl<'a, R> HostClock<'a, R> {
    /// That of this runtime.
    pub fn new(rt: &'a R) -> HostClock<'a, R> {
        HostClock { rt }
    }
}

impl<R: time::Clock> Clock for HostClock<'_, R> {
    ghost coming = { λ _. None };

    fn moment(&mut self, alloc: Global) -> Result<Vec<u8>, OutOfMemory> {
        match whole_second(self.rt) {
            Ok(now) => Ok(format!(in alloc; "{now}")?.into_bytes()),
            Err(_) => Ok(Vec::new(alloc)),
        }
    }
}

/// The present instant, in whole seconds.
fn whole_second<R: time::Clock>(rt: &R) -> Result<Timestamp, Error> {
    Timestamp::from_second(Timestamp::now(rt)?.as_second())
}
