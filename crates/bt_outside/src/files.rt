// Files that are read whole, by name.
ghost use Rattle.std.specs.Prelude.{◌≡◌, ◌≤◌, ℕ, List, Option, IfOk, IsErrOf, vec_len};
ghost use Rattle.bt_outside.specs.declared.files.FileFault.TheVariants.{OutOfMemory};
ghost use Rattle.bt_outside.specs.Told.{Gives, IsLonger, HasCause};

use std::alloc::{AllocError, AllocFailed, Global};
use thiserror::Error;

/// Why a file was not read.
#[derive(Clone, Copy, Debug, PartialEq, Eq, Error)]
pub enum FileFault {
    /// It is missing or could not be read; the count of faults rose.
    #[error("the file could not be read")]
    Failed,
    /// It is longer than the limit.
    #[error("the file is too long")]
    TooLong,
    /// Memory ran out.
    #[error("out of memory")]
    OutOfMemory,
}

impl From<AllocError> for FileFault {
    ghost from_gives = { λ _ e. e ≡ OutOfMemory };

    fn from(_: AllocError) -> Self {
        FileFault::OutOfMemory
    }
}

impl<T: Drop> From<AllocFailed<T>> for FileFault {
    ghost from_gives = { λ _ e. e ≡ OutOfMemory };

    fn from(_: AllocFailed<T>) -> Self {
        FileFault::OutOfMemory
    }
}

/// The files that the centre reads.
pub trait Files {
    /// The contents of the file of a name, where they are told.
    ghost told: { Self → List ℕ → Option (List ℕ) };

    /// How often a read failed.
    ghost fault_count: { Self → ℕ };

    /// How often a read failed, up to the last value of its type.
    fn faults(&self) -> u64
        ensures count { result ≡ fault_count self.now };

    /// The whole file of that name, of at most `limit` bytes.
    fn read(&mut self, alloc: Global, name: &str, limit: u64) -> Result<Vec<u8>, FileFault>
        ensures bytes { IfOk result (λ bytes. Gives (told self.old name.now) bytes.items) }
        ensures short { IfOk result (λ bytes. vec_len bytes ≤ limit) }
        ensures too_long { IsErrOf result FileFault.TooLong → IsLonger (told self.old name.now) limit }
        ensures cause { HasCause FileFault.Failed (fault_count self.old) (fault_count self.new) result }
        ensures same { told self.new ≡ told self.old };
}
