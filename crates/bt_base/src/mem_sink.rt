// A sink in memory, some of whose writes fail.
ghost use Rattle.std.specs.Prelude.{◌≡◌, [], ◌++◌, take, Some, OnOk, OnErr, IsSomeAnd, IsNone, IsErrOf};
ghost use Rattle.bt_outside.specs.Told.{gained, GainsPrefix, HasCause};
ghost use Rattle.bt_base.specs.Calls.{fail_at, Counts};

use crate::fail::Calls;
use crate::{Fail, Sink, SinkFault};
use std::alloc::{AllocError, Global};
use std::marker::Model;

/// A sink in memory. A call fails where its number is in the list of failing calls, and keeps the first
/// bytes of its piece as that list says.
#[derive(Drop)]
pub struct MemSink {
    bytes: Vec<u8>,
    calls: Calls,
}

impl Model for MemSink {
    ghost use Rattle.bt_base.specs.Held.{HeldBytes};

    ghost Value = { HeldBytes };

    ghost view = { λ a. record { bytes = a.bytes.items; calls = a.calls } };
}

impl MemSink {
    /// Empty. It keeps what is written in memory of `alloc`.
    pub fn new(alloc: Global, fails: Vec<Fail>) -> MemSink
        ensures empty { result.bytes ≡ [] }
        ensures calls { result.calls ≡ record { fails = fails.items; made = 0; faults = 0 } }
    {
        MemSink {
            bytes: Vec::new(alloc),
            calls: Calls::new(fails),
        }
    }

    /// The bytes written so far.
    pub fn written(&self) -> &[u8]
        ensures bytes { result.now ≡ self.now.bytes }
    {
        self.bytes.as_slice()
    }
}

impl Sink for MemSink {
    ghost told = { λ held. Some held.bytes };

    ghost fault_count = { λ held. held.calls.faults };

    fn faults(&self) -> u64 {
        self.calls.faults()
    }

    fn write(&mut self, _alloc: Global, piece: &[u8]) -> Result<(), SinkFault>
        ensures ok { OnOk result (Some self.new.bytes ≡ gained (Some self.old.bytes) piece.now) }
        ensures failed { IsErrOf result SinkFault.Failed
            → GainsPrefix (Some self.old.bytes) piece.now (Some self.new.bytes) }
        ensures out_of_memory { IsErrOf result SinkFault.OutOfMemory → Some self.new.bytes ≡ Some self.old.bytes }
        ensures same_count { IsErrOf result SinkFault.OutOfMemory → self.new.calls.faults ≡ self.old.calls.faults }
        ensures cause { HasCause SinkFault.Failed self.old.calls.faults self.new.calls.faults result }

        // The listed calls fail and no others, want of memory apart.
        ensures not_listed { OnOk result (IsNone (fail_at self.old.calls.fails self.old.calls.made)) }
        ensures listed { IsErrOf result SinkFault.Failed
            → IsSomeAnd (fail_at self.old.calls.fails self.old.calls.made)
            (λ fail. self.new.bytes ≡ self.old.bytes ++ take fail.kept piece.now) }
        ensures calls { Counts SinkFault.Failed self.old.calls self.new.calls result }
    {
        match self.calls.count() {
            None => {
                self.bytes.extend_from_slice(piece)?;
                Ok(())
            }
            Some(fail) => {
                keep_first(&mut self.bytes, piece, fail.kept)?;
                self.calls.fault();
                Err(SinkFault::Failed)
            }
        }
    }
}

/// Takes of the piece what a failing call still takes.
pub(crate) fn keep_first(bytes: &mut Vec<u8>, piece: &[u8], kept: u32) -> Result<(), AllocError>
    ensures ok { OnOk result (bytes.new.items ≡ bytes.old.items ++ take kept piece.now) }
    ensures prefix { OnOk result (GainsPrefix (Some bytes.old.items) piece.now (Some bytes.new.items)) }
    ensures err { OnErr result (bytes.new.items ≡ bytes.old.items) }
{
    let first = piece.get(..kept as usize).unwrap_or(piece);
    bytes.extend_from_slice(first)
}
