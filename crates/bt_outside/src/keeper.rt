// The store in which the centre keeps its records.
ghost use Rattle.std.specs.Prelude.{◌≡◌, ◌≤◌, ◌⊎◌, ℕ, List, Option, Some, OnOk, IfOk, IsErrOf, vec_len};
ghost use Rattle.bt_frame.specs.declared.limits.TheConstants.{MOST_JOURNAL_BYTES};
ghost use Rattle.bt_outside.specs.declared.keeper.KeepFault.TheVariants.{OutOfMemory};
ghost use Rattle.bt_outside.specs.Told.{Gives, IsLonger, HasBytes, gained, GainsPrefix, shortened, HasCause};
ghost use Rattle.bt_outside.specs.Crash.{Crashes, CouldBeLeft, Elapses, IsSettled, LeavesSince};

use std::alloc::{AllocError, AllocFailed, Global};
use thiserror::Error;

/// Why a call on the store did not do its work.
#[derive(Clone, Copy, Debug, PartialEq, Eq, Error)]
pub enum KeepFault {
    /// The store failed; the count of faults rose.
    #[error("the store failed")]
    Failed,
    /// More bytes are kept than are read.
    #[error("the store is too long")]
    TooLong,
    /// Memory ran out, and nothing was changed.
    #[error("out of memory")]
    OutOfMemory,
}

impl From<AllocError> for KeepFault {
    ghost from_gives = { λ _ e. e ≡ OutOfMemory };

    fn from(_: AllocError) -> Self {
        KeepFault::OutOfMemory
    }
}

impl<T: Drop> From<AllocFailed<T>> for KeepFault {
    ghost from_gives = { λ _ e. e ≡ OutOfMemory };

    fn from(_: AllocFailed<T>) -> Self {
        KeepFault::OutOfMemory
    }
}

/// A store of bytes that grows at its end and can be cut.
pub trait Keeper {
    /// The bytes kept, where they are told.
    ghost told: { Self → Option (List ℕ) };

    /// How often a call failed.
    ghost fault_count: { Self → ℕ };

    /// A clock, and what a crash at some moment since a time may have left, where these are told.
    ghost crashes: { Self → Option Crashes };

    /// How often a call failed, up to the last value of its type.
    fn faults(&self) -> u64
        ensures count { result ≡ fault_count self.now };

    /// Keeps the piece behind what was kept before. A failed call may have kept a first part of it.
    fn append(&mut self, alloc: Global, piece: &[u8]) -> Result<(), KeepFault>
        ensures ok { OnOk result (told self.new ≡ gained (told self.old) piece.now) }
        ensures failed { IsErrOf result KeepFault.Failed → GainsPrefix (told self.old) piece.now (told self.new) }
        ensures out_of_memory { IsErrOf result KeepFault.OutOfMemory → told self.new ≡ told self.old }
        ensures same_count { IsErrOf result KeepFault.OutOfMemory → fault_count self.new ≡ fault_count self.old }
        ensures not_too_long { IsErrOf result KeepFault.TooLong → ⊥ }
        ensures cause { HasCause KeepFault.Failed (fault_count self.old) (fault_count self.new) result }
        ensures time { Elapses (crashes self.old) (crashes self.new) }
        ensures settled { OnOk result (IsSettled (told self.new) (crashes self.new)) }
        ensures no_moment { IsErrOf result KeepFault.OutOfMemory → IsSettled (told self.old) (crashes self.old)
            → crashes self.new ≡ crashes self.old }
        ensures crash { IsSettled (told self.old) (crashes self.old)
            → LeavesSince (crashes self.old) (crashes self.new) (λ left. GainsPrefix (told self.old) piece.now (Some left)) };

    /// All the bytes, at most `MOST_JOURNAL_BYTES`. No answer changes them.
    fn read_all(&mut self, alloc: Global) -> Result<Vec<u8>, KeepFault>
        ensures bytes { IfOk result (λ bytes. Gives (told self.old) bytes.items) }
        ensures short { IfOk result (λ bytes. vec_len bytes ≤ MOST_JOURNAL_BYTES) }
        ensures too_long { IsErrOf result KeepFault.TooLong → IsLonger (told self.old) MOST_JOURNAL_BYTES }
        ensures cause { HasCause KeepFault.Failed (fault_count self.old) (fault_count self.new) result }
        ensures same { told self.new ≡ told self.old }
        ensures time { Elapses (crashes self.old) (crashes self.new) }
        ensures settled { OnOk result (IsSettled (told self.new) (crashes self.new)) }
        ensures stays_settled { (IsErrOf result KeepFault.OutOfMemory ⊎ IsErrOf result KeepFault.TooLong)
            → IsSettled (told self.old) (crashes self.old) → IsSettled (told self.new) (crashes self.new) }
        ensures crash { LeavesSince (crashes self.old) (crashes self.new) (CouldBeLeft (crashes self.old)) };

    /// Keeps the first `length` bytes. A failed call has cut, or has left all as it was.
    fn cut(&mut self, alloc: Global, length: u64) -> Result<(), KeepFault>
        requires bytes { HasBytes length (told self.old) }
        ensures ok { OnOk result (told self.new ≡ shortened (told self.old) length) }
        ensures failed { IsErrOf result KeepFault.Failed
            → (told self.new ≡ told self.old) ⊎ (told self.new ≡ shortened (told self.old) length) }
        ensures out_of_memory { IsErrOf result KeepFault.OutOfMemory → told self.new ≡ told self.old }
        ensures not_too_long { IsErrOf result KeepFault.TooLong → ⊥ }
        ensures cause { HasCause KeepFault.Failed (fault_count self.old) (fault_count self.new) result }
        ensures time { Elapses (crashes self.old) (crashes self.new) }
        ensures settled { OnOk result (IsSettled (told self.new) (crashes self.new)) }
        ensures no_moment { IsErrOf result KeepFault.OutOfMemory → IsSettled (told self.old) (crashes self.old)
            → crashes self.new ≡ crashes self.old }
        ensures crash { IsSettled (told self.old) (crashes self.old)
            → LeavesSince (crashes self.old) (crashes self.new)
            (λ left. (Some left ≡ told self.old) ⊎ (Some left ≡ shortened (told self.old) length)) };
}
