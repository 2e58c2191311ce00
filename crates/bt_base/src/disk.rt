// A disk: bytes that are written at their end or cut, and that outlast a crash once they are synced.
ghost use Rattle.std.specs.Prelude.{◌≡◌, ◌⊎◌, ◌+◌, ◌≤◌, ℕ, Option, IfOk, OnOk, IfSome, IsErrOf, length, take, drop, vec_len};
ghost use Rattle.bt_outside.specs.Told.{HasCause};
ghost use Rattle.bt_outside.specs.Crash.{Both};
ghost use Rattle.bt_base.specs.declared.disk.DiskFault.TheVariants.{OutOfMemory};
ghost use Rattle.bt_base.specs.Medium.{Medium, Steps, Gains, GainsPart, HasLength, HoldsAtLeast, Loses, Stays, Syncs, IsSynced};

use std::alloc::{AllocError, Global};
use thiserror::Error;

/// Why a call on a disk did not do its work.
#[derive(Clone, Copy, Debug, PartialEq, Eq, Error)]
pub enum DiskFault {
    /// The disk failed; the count of faults rose.
    #[error("the disk failed")]
    Failed,
    /// Memory ran out, and nothing was changed.
    #[error("out of memory")]
    OutOfMemory,
}

impl From<AllocError> for DiskFault {
    ghost from_gives = { λ _ e. e ≡ OutOfMemory };

    fn from(_: AllocError) -> Self {
        DiskFault::OutOfMemory
    }
}

/// Bytes that are written at their end and can be cut. A crash leaves those of the last sync, and maybe some of what came
/// since.
pub trait Disk {
    /// What is held, and what a crash may leave of it, where that is told.
    ghost told: { Self → Option Medium };

    /// How often a call failed.
    ghost fault_count: { Self → ℕ };

    /// How often a call failed, up to the last value of its type.
    fn faults(&self) -> u64
        ensures count { result ≡ fault_count self.now };

    /// The number of bytes.
    fn length(&mut self) -> Result<u64, DiskFault>
        ensures length { IfOk result (λ count. IfSome (told self.old) (HasLength count)) }
        ensures not_out_of_memory { IsErrOf result DiskFault.OutOfMemory → ⊥ }
        ensures same { told self.new ≡ told self.old }
        ensures no_fault { OnOk result (fault_count self.new ≡ fault_count self.old) }
        ensures cause { HasCause DiskFault.Failed (fault_count self.old) (fault_count self.new) result };

    /// So many bytes from a place on, which are there.
    fn read(&mut self, alloc: Global, place: u64, count: u64) -> Result<Vec<u8>, DiskFault>
        requires within { IfSome (told self.old) (λ medium. place + count ≤ length medium.bytes) }
        ensures bytes { IfOk result (λ bytes. IfSome (told self.old) (λ medium. bytes.items ≡ take count (drop place medium.bytes))) }
        ensures short { IfOk result (λ bytes. vec_len bytes ≤ count) }
        ensures same { told self.new ≡ told self.old }
        ensures no_fault { OnOk result (fault_count self.new ≡ fault_count self.old) }
        ensures same_count { IsErrOf result DiskFault.OutOfMemory → fault_count self.new ≡ fault_count self.old }
        ensures cause { HasCause DiskFault.Failed (fault_count self.old) (fault_count self.new) result };

    /// Writes the piece at the end, where no cut was made since the last sync. A failed call may have written a first part.
    fn write_at(&mut self, alloc: Global, place: u64, piece: &[u8]) -> Result<(), DiskFault>
        requires place { IfSome (told self.old) (HasLength place) }
        requires not_cut { IfSome (told self.old) (λ medium. length medium.synced ≤ length medium.bytes) }
        ensures ok { OnOk result (Both (Gains piece.now) (told self.old) (told self.new)) }
        ensures failed { IsErrOf result DiskFault.Failed → Both (GainsPart piece.now) (told self.old) (told self.new) }
        ensures steps { Both Steps (told self.old) (told self.new) }
        ensures out_of_memory { IsErrOf result DiskFault.OutOfMemory → told self.new ≡ told self.old }
        ensures no_fault { OnOk result (fault_count self.new ≡ fault_count self.old) }
        ensures same_count { IsErrOf result DiskFault.OutOfMemory → fault_count self.new ≡ fault_count self.old }
        ensures cause { HasCause DiskFault.Failed (fault_count self.old) (fault_count self.new) result };

    /// Keeps the first `length` bytes, where nothing was written or cut since the last sync. A failed call has cut, or has
    /// left all as it was.
    fn cut(&mut self, alloc: Global, length: u64) -> Result<(), DiskFault>
        requires within { IfSome (told self.old) (HoldsAtLeast length) }
        requires synced { IfSome (told self.old) IsSynced }
        ensures ok { OnOk result (Both (Loses length) (told self.old) (told self.new)) }
        ensures failed { IsErrOf result DiskFault.Failed
            → Both Stays (told self.old) (told self.new) ⊎ Both (Loses length) (told self.old) (told self.new) }
        ensures steps { Both Steps (told self.old) (told self.new) }
        ensures out_of_memory { IsErrOf result DiskFault.OutOfMemory → told self.new ≡ told self.old }
        ensures no_fault { OnOk result (fault_count self.new ≡ fault_count self.old) }
        ensures same_count { IsErrOf result DiskFault.OutOfMemory → fault_count self.new ≡ fault_count self.old }
        ensures cause { HasCause DiskFault.Failed (fault_count self.old) (fault_count self.new) result };

    /// Makes the bytes as they read those that a crash leaves. Where they are so already, nothing changes.
    fn sync(&mut self) -> Result<(), DiskFault>
        ensures ok { OnOk result (Both Syncs (told self.old) (told self.new)) }
        ensures no_moment { OnOk result (IfSome (told self.old) IsSynced → told self.new ≡ told self.old) }
        ensures failed { IsErrOf result DiskFault.Failed → Both Stays (told self.old) (told self.new) }
        ensures steps { Both Steps (told self.old) (told self.new) }
        ensures not_out_of_memory { IsErrOf result DiskFault.OutOfMemory → ⊥ }
        ensures no_fault { OnOk result (fault_count self.new ≡ fault_count self.old) }
        ensures cause { HasCause DiskFault.Failed (fault_count self.old) (fault_count self.new) result };
}
