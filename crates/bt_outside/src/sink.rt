// The place to which the centre's lines are written.
ghost use Rattle.std.specs.Prelude.{◌≡◌, ℕ, List, Option, OnOk, IsErrOf};
ghost use Rattle.bt_outside.specs.declared.sink.SinkFault.TheVariants.{OutOfMemory};
ghost use Rattle.bt_outside.specs.Told.{gained, GainsPrefix, HasCause};

use std::alloc::{AllocError, AllocFailed, Global};
use thiserror::Error;

/// Why a piece was not written.
#[derive(Clone, Copy, Debug, PartialEq, Eq, Error)]
pub enum SinkFault {
    /// The sink failed, maybe after a first part of the piece; the count of faults rose.
    #[error("the output could not be written")]
    Failed,
    /// Memory ran out, and nothing was written.
    #[error("out of memory")]
    OutOfMemory,
}

impl From<AllocError> for SinkFault {
    ghost from_gives = { λ _ e. e ≡ OutOfMemory };

    fn from(_: AllocError) -> Self {
        SinkFault::OutOfMemory
    }
}

impl<T: Drop> From<AllocFailed<T>> for SinkFault {
    ghost from_gives = { λ _ e. e ≡ OutOfMemory };

    fn from(_: AllocFailed<T>) -> Self {
        SinkFault::OutOfMemory
    }
}

/// Something that takes bytes, one piece after the other.
pub trait Sink {
    /// The bytes written so far, where they are told.
    ghost told: { Self → Option (List ℕ) };

    /// How often a write failed.
    ghost fault_count: { Self → ℕ };

    /// How often a write failed, up to the last value of its type.
    fn faults(&self) -> u64
        ensures count { result ≡ fault_count self.now };

    /// Writes the whole piece behind what was written before.
    fn write(&mut self, alloc: Global, piece: &[u8]) -> Result<(), SinkFault>
        ensures ok { OnOk result (told self.new ≡ gained (told self.old) piece.now) }
        ensures failed { IsErrOf result SinkFault.Failed → GainsPrefix (told self.old) piece.now (told self.new) }
        ensures out_of_memory { IsErrOf result SinkFault.OutOfMemory → told self.new ≡ told self.old }
        ensures same_count { IsErrOf result SinkFault.OutOfMemory → fault_count self.new ≡ fault_count self.old }
        ensures cause { HasCause SinkFault.Failed (fault_count self.old) (fault_count self.new) result };
}
