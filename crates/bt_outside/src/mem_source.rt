// An input in memory, of which a call may fail.
ghost use Rattle.std.specs.Prelude.{◌≡◌, ◌≤◌, ◌+◌, Some, IfOk, OnOk, IsErrOf, drop, length};
ghost use Rattle.bt_outside.specs.Told.{HasCause};
ghost use Rattle.bt_outside.specs.Input.{Comes, IsShort};

use crate::{Incoming, Source, SourceFault};
use bt_frame::OutOfMemory;
use bt_text::next_line;
use std::alloc::Global;

/// An input in memory. The call of that number, from 0, fails, and so do those behind it.
#[derive(Drop)]
pub struct MemSource {
    bytes: Vec<u8>,
    /// Where what is still to come begins.
    place: usize,
    /// How many calls succeed.
    good: u64,
    faults: u64,
    ghost inside: { place ≤ length bytes.items },
}

impl MemSource {
    /// An input of these bytes, so many calls of which succeed.
    pub fn new(bytes: Vec<u8>, good: u64) -> MemSource
        ensures told { ⟦<MemSource as Source>⟧.told result ≡ Some bytes.items }
        ensures faults { ⟦<MemSource as Source>⟧.fault_count result ≡ 0 }
        ensures good { result.good ≡ good }
    {
        MemSource {
            bytes,
            place: 0,
            good,
            faults: 0,
        }
    }
}

impl Source for MemSource {
    ghost told = { λ source. Some (drop source.place source.bytes.items) };

    ghost fault_count = { λ source. source.faults };

    fn faults(&self) -> u64 {
        self.faults
    }

    fn next_line(&mut self, alloc: Global, limit: usize) -> Result<Option<Incoming>, SourceFault>
        ensures next { IfOk result (λ came. Comes limit (Some (drop self.old.place self.old.bytes.items)) came (Some (drop self.new.place self.new.bytes.items))) }
        ensures short { IfOk result (λ came. IsShort limit came) }
        ensures cause { HasCause SourceFault.Failed self.old.faults self.new.faults result }

        // The calls fail once the good ones are made, and no sooner, want of memory apart.
        ensures failed { IsErrOf result SourceFault.Failed → self.old.good ≡ 0 }
        ensures ok { OnOk result (self.new.good + 1 ≡ self.old.good) }
    {
        if self.good == 0 {
            self.faults = self.faults.saturating_add(1);
            return Err(SourceFault::Failed);
        }
        self.good -= 1;
        match piece_at(alloc, self.bytes.as_slice(), self.place, limit) {
            Ok((came, place)) => {
                self.place = place;
                Ok(came)
            }
            Err(_) => Err(SourceFault::OutOfMemory),
        }
    }
}

/// What comes at a place of a text, and where the rest begins.
fn piece_at(
    alloc: Global,
    bytes: &[u8],
    place: usize,
    limit: usize,
) -> Result<(Option<Incoming>, usize), OutOfMemory>
    requires place { place ≤ length bytes.now }
    ensures place { IfOk result (λ cut. cut.1 ≤ length bytes.now) }
    ensures next { IfOk result (λ cut. Comes limit (Some (drop place bytes.now)) cut.0 (Some (drop cut.1 bytes.now))) }
    ensures short { IfOk result (λ cut. IsShort limit cut.0) }
{
    match next_line(bytes, place) {
        Some((start, end)) => {
            if end - start > limit {
                return Ok((Some(Incoming::NoLine), end + 1));
            }
            let mut line = Vec::new(alloc);
            line.extend_from_slice(&bytes[start..end])?;
            Ok((Some(Incoming::Line(line)), end + 1))
        }
        None if place < bytes.len() => Ok((Some(Incoming::NoLine), bytes.len())),
        None => Ok((None, place)),
    }
}
