// The store of a book that is tried: it keeps nothing, and never fails.
ghost use Rattle.std.specs.Prelude.{None};

use bt_outside::{KeepFault, Keeper};
use std::alloc::Global;

/// A store that keeps nothing and never fails. What it holds is not told.
#[derive(Drop)]
pub struct NoStore;

impl Keeper for NoStore {
    ghost told = { λ _. None };

    ghost fault_count = { λ _. 0 };

    ghost crashes = { λ _. None };

    fn faults(&self) -> u64 {
        0
    }

    fn append(&mut self, _alloc: Global, _piece: &[u8]) -> Result<(), KeepFault> {
        Ok(())
    }

    fn read_all(&mut self, alloc: Global) -> Result<Vec<u8>, KeepFault> {
        Ok(Vec::new(alloc))
    }

    fn cut(&mut self, _alloc: Global, _length: u64) -> Result<(), KeepFault> {
        Ok(())
    }
}
