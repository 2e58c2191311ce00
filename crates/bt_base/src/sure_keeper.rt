// A store in memory whose calls do not fail.
ghost use Rattle.std.specs.Prelude.{◌≡◌, ◌≤◌, ◌⊎◌, ℕ, None, Some, OnOk, IfOk, IsErrOf, vec_len};
ghost use Rattle.bt_outside.specs.Told.{Gives, IsLonger, HasBytes, gained, GainsPrefix, shortened, HasCause};

use crate::{KeepFault, Keeper};
use bt_frame::MOST_JOURNAL_BYTES;
use std::alloc::Global;
use std::marker::Model;

/// A store in memory that keeps each piece, unless memory runs out.
#[derive(Drop)]
pub struct SureKeeper {
    bytes: Vec<u8>,
}

impl Model for SureKeeper {
    ghost use Rattle.std.specs.Prelude.{ℕ, List};

    ghost Value = { List ℕ };

    ghost view = { λ a. a.bytes.items };
}

impl SureKeeper {
    /// These bytes, kept so far.
    pub fn new(bytes: Vec<u8>) -> SureKeeper
        ensures bytes { result ≡ bytes.items }
    {
        SureKeeper { bytes }
    }

    /// The bytes kept, however many.
    pub fn kept(&self) -> &[u8]
        ensures bytes { result.now ≡ self.now }
    {
        self.bytes.as_slice()
    }
}

impl Keeper for SureKeeper {
    ghost told = { λ bytes. Some bytes };

    ghost fault_count = { λ _. 0 };

    ghost crashes = { λ _. None };

    fn faults(&self) -> u64 {
        0
    }

    fn append(&mut self, _alloc: Global, piece: &[u8]) -> Result<(), KeepFault>
        ensures ok { OnOk result (Some self.new ≡ gained (Some self.old) piece.now) }
        ensures failed { IsErrOf result KeepFault.Failed → GainsPrefix (Some self.old) piece.now (Some self.new) }
        ensures out_of_memory { IsErrOf result KeepFault.OutOfMemory → Some self.new ≡ Some self.old }
        ensures same_count { IsErrOf result KeepFault.OutOfMemory → let none : ℕ = 0 in none ≡ none }
        ensures not_too_long { IsErrOf result KeepFault.TooLong → ⊥ }
        ensures cause { HasCause KeepFault.Failed 0 0 result }
        ensures not_failed { IsErrOf result KeepFault.Failed → ⊥ }
    {
        self.bytes.extend_from_slice(piece)?;
        Ok(())
    }

    fn read_all(&mut self, alloc: Global) -> Result<Vec<u8>, KeepFault>
        ensures bytes { IfOk result (λ bytes. Gives (Some self.old) bytes.items) }
        ensures short { IfOk result (λ bytes. vec_len bytes ≤ MOST_JOURNAL_BYTES) }
        ensures too_long { IsErrOf result KeepFault.TooLong → IsLonger (Some self.old) MOST_JOURNAL_BYTES }
        ensures cause { HasCause KeepFault.Failed 0 0 result }
        ensures same { Some self.new ≡ Some self.old }
        ensures not_failed { IsErrOf result KeepFault.Failed → ⊥ }
    {
        if self.bytes.len() as u64 > MOST_JOURNAL_BYTES {
            return Err(KeepFault::TooLong);
        }
        Ok(Vec::from_slice(alloc, self.bytes.as_slice())?)
    }

    fn cut(&mut self, _alloc: Global, length: u64) -> Result<(), KeepFault>
        requires bytes { HasBytes length (Some self.old) }
        ensures ok { OnOk result (Some self.new ≡ shortened (Some self.old) length) }
        ensures failed { IsErrOf result KeepFault.Failed
            → (Some self.new ≡ Some self.old) ⊎ (Some self.new ≡ shortened (Some self.old) length) }
        ensures out_of_memory { IsErrOf result KeepFault.OutOfMemory → Some self.new ≡ Some self.old }
        ensures not_too_long { IsErrOf result KeepFault.TooLong → ⊥ }
        ensures cause { HasCause KeepFault.Failed 0 0 result }
        ensures not_failed { IsErrOf result KeepFault.Failed → ⊥ }
    {
        self.bytes.truncate(length as usize);
        Ok(())
    }
}
