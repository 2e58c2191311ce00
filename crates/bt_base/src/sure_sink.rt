// A sink in memory whose writes do not fail.
ghost use Rattle.std.specs.Prelude.{◌≡◌, ℕ, [], Some, OnOk, IsErrOf};
ghost use Rattle.bt_outside.specs.Told.{gained, GainsPrefix, HasCause};

use crate::{Sink, SinkFault};
use std::alloc::Global;
use std::marker::Model;

/// A sink in memory that takes each piece, unless memory runs out.
#[derive(Drop)]
pub struct SureSink {
    bytes: Vec<u8>,
}

impl Model for SureSink {
    ghost use Rattle.std.specs.Prelude.{ℕ, List};

    ghost Value = { List ℕ };

    ghost view = { λ a. a.bytes.items };
}

impl SureSink {
    /// Empty. It keeps what is written in memory of `alloc`.
    pub fn new(alloc: Global) -> SureSink
        ensures bytes { result ≡ [] }
    {
        SureSink {
            bytes: Vec::new(alloc),
        }
    }

    /// The bytes written so far.
    pub fn written(&self) -> &[u8]
        ensures bytes { result.now ≡ self.now }
    {
        self.bytes.as_slice()
    }
}

impl Sink for SureSink {
    ghost told = { λ bytes. Some bytes };

    ghost fault_count = { λ _. 0 };

    fn faults(&self) -> u64 {
        0
    }

    fn write(&mut self, _alloc: Global, piece: &[u8]) -> Result<(), SinkFault>
        ensures ok { OnOk result (Some self.new ≡ gained (Some self.old) piece.now) }
        ensures failed { IsErrOf result SinkFault.Failed → GainsPrefix (Some self.old) piece.now (Some self.new) }
        ensures out_of_memory { IsErrOf result SinkFault.OutOfMemory → Some self.new ≡ Some self.old }
        ensures same_count { IsErrOf result SinkFault.OutOfMemory → let none : ℕ = 0 in none ≡ none }
        ensures cause { HasCause SinkFault.Failed 0 0 result }
        ensures not_failed { IsErrOf result SinkFault.Failed → ⊥ }
    {
        self.bytes.extend_from_slice(piece)?;
        Ok(())
    }
}
