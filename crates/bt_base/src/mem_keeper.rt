// A store in memory, some of whose calls fail.
ghost use Rattle.std.specs.Prelude.{◌≡◌, ◌≤◌, ◌⊎◌, ◌↔◌, ◌++◌, take, None, Some, OnOk, IfOk, IsSome, IsSomeAnd, IsNone, IsErrOf, vec_len};
ghost use Rattle.bt_outside.specs.Told.{Gives, IsLonger, HasBytes, gained, GainsPrefix, shortened, HasCause};
ghost use Rattle.bt_base.specs.Calls.{fail_at, Counts};

use crate::fail::Calls;
use crate::mem_sink::keep_first;
use crate::{Fail, KeepFault, Keeper};
use bt_frame::MOST_JOURNAL_BYTES;
use std::alloc::Global;
use std::marker::Model;

/// A store in memory. A call fails where its number is in the list of failing calls. A failed `append` keeps the
/// first bytes of its piece as that list says, and a failed `cut` has cut where it says 1.
#[derive(Drop)]
pub struct MemKeeper {
    bytes: Vec<u8>,
    calls: Calls,
}

impl Model for MemKeeper {
    ghost use Rattle.bt_base.specs.Held.{HeldBytes};

    ghost Value = { HeldBytes };

    ghost view = { λ a. record { bytes = a.bytes.items; calls = a.calls } };
}

impl MemKeeper {
    /// These bytes, kept so far.
    pub fn new(bytes: Vec<u8>, fails: Vec<Fail>) -> MemKeeper
        ensures bytes { result.bytes ≡ bytes.items }
        ensures calls { result.calls ≡ record { fails = fails.items; made = 0; faults = 0 } }
    {
        MemKeeper {
            bytes,
            calls: Calls::new(fails),
        }
    }

    /// The bytes kept, however many.
    pub fn kept(&self) -> &[u8]
        ensures bytes { result.now ≡ self.now.bytes }
    {
        self.bytes.as_slice()
    }
}

impl Keeper for MemKeeper {
    ghost told = { λ held. Some held.bytes };

    ghost fault_count = { λ held. held.calls.faults };

    ghost crashes = { λ _. None };

    fn faults(&self) -> u64 {
        self.calls.faults()
    }

    fn append(&mut self, _alloc: Global, piece: &[u8]) -> Result<(), KeepFault>
        ensures ok { OnOk result (Some self.new.bytes ≡ gained (Some self.old.bytes) piece.now) }
        ensures failed { IsErrOf result KeepFault.Failed
            → GainsPrefix (Some self.old.bytes) piece.now (Some self.new.bytes) }
        ensures out_of_memory { IsErrOf result KeepFault.OutOfMemory → Some self.new.bytes ≡ Some self.old.bytes }
        ensures same_count { IsErrOf result KeepFault.OutOfMemory → self.new.calls.faults ≡ self.old.calls.faults }
        ensures not_too_long { IsErrOf result KeepFault.TooLong → ⊥ }
        ensures cause { HasCause KeepFault.Failed self.old.calls.faults self.new.calls.faults result }

        // The listed calls fail and no others, want of memory apart.
        ensures not_listed { OnOk result (IsNone (fail_at self.old.calls.fails self.old.calls.made)) }
        ensures listed { IsErrOf result KeepFault.Failed
            → IsSomeAnd (fail_at self.old.calls.fails self.old.calls.made)
            (λ fail. self.new.bytes ≡ self.old.bytes ++ take fail.kept piece.now) }
        ensures calls { Counts KeepFault.Failed self.old.calls self.new.calls result }
    {
        match self.calls.count() {
            None => {
                self.bytes.extend_from_slice(piece)?;
                Ok(())
            }
            Some(fail) => {
                keep_first(&mut self.bytes, piece, fail.kept)?;
                self.calls.fault();
                Err(KeepFault::Failed)
            }
        }
    }

    fn read_all(&mut self, alloc: Global) -> Result<Vec<u8>, KeepFault>
        ensures bytes { IfOk result (λ bytes. Gives (Some self.old.bytes) bytes.items) }
        ensures short { IfOk result (λ bytes. vec_len bytes ≤ MOST_JOURNAL_BYTES) }
        ensures too_long { IsErrOf result KeepFault.TooLong → IsLonger (Some self.old.bytes) MOST_JOURNAL_BYTES }
        ensures cause { HasCause KeepFault.Failed self.old.calls.faults self.new.calls.faults result }
        ensures same { Some self.new.bytes ≡ Some self.old.bytes }

        // The listed calls fail and no others: a call of the list answers nothing else.
        ensures listed { IsErrOf result KeepFault.Failed ↔ IsSome (fail_at self.old.calls.fails self.old.calls.made) }
        ensures calls { Counts KeepFault.Failed self.old.calls self.new.calls result }
    {
        match self.calls.count() {
            None => copy_all(alloc, self.bytes.as_slice()),
            Some(_) => {
                self.calls.fault();
                Err(KeepFault::Failed)
            }
        }
    }

    fn cut(&mut self, _alloc: Global, length: u64) -> Result<(), KeepFault>
        requires bytes { HasBytes length (Some self.old.bytes) }
        ensures ok { OnOk result (Some self.new.bytes ≡ shortened (Some self.old.bytes) length) }
        ensures failed { IsErrOf result KeepFault.Failed
            → (Some self.new.bytes ≡ Some self.old.bytes)
            ⊎ (Some self.new.bytes ≡ shortened (Some self.old.bytes) length) }
        ensures out_of_memory { IsErrOf result KeepFault.OutOfMemory → Some self.new.bytes ≡ Some self.old.bytes }
        ensures not_too_long { IsErrOf result KeepFault.TooLong → ⊥ }
        ensures cause { HasCause KeepFault.Failed self.old.calls.faults self.new.calls.faults result }

        // The listed calls fail and no others.
        ensures not_listed { OnOk result (IsNone (fail_at self.old.calls.fails self.old.calls.made)) }
        ensures listed { IsErrOf result KeepFault.Failed
            → IsSomeAnd (fail_at self.old.calls.fails self.old.calls.made)
            (λ fail. (fail.kept ≡ 1 → self.new.bytes ≡ take length self.old.bytes)
            × ((fail.kept ≡ 1 → ⊥) → self.new.bytes ≡ self.old.bytes)) }
        ensures calls { Counts KeepFault.Failed self.old.calls self.new.calls result }
    {
        match self.calls.count() {
            None => {
                self.bytes.truncate(length as usize);
                Ok(())
            }
            Some(fail) => {
                if fail.kept == 1 {
                    self.bytes.truncate(length as usize);
                }
                self.calls.fault();
                Err(KeepFault::Failed)
            }
        }
    }
}

/// A copy of the bytes where they are no more than are read from a store.
fn copy_all(alloc: Global, bytes: &[u8]) -> Result<Vec<u8>, KeepFault>
    ensures bytes { IfOk result (λ copy. copy.items ≡ bytes.now) }
    ensures short { IfOk result (λ copy. vec_len copy ≤ MOST_JOURNAL_BYTES) }
    ensures too_long { IsErrOf result KeepFault.TooLong → IsLonger (Some bytes.now) MOST_JOURNAL_BYTES }
    ensures not_failed { IsErrOf result KeepFault.Failed → ⊥ }
{
    if bytes.len() as u64 > MOST_JOURNAL_BYTES {
        return Err(KeepFault::TooLong);
    }
    Ok(Vec::from_slice(alloc, bytes)?)
}
