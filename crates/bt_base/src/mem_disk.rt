// A disk in memory, some of whose calls fail.
ghost use Rattle.std.specs.Prelude.{◌≡◌, ◌≤◌, ◌+◌, ◌⊎◌, ◌↔◌, ◌++◌, [], length, take, drop, IfOk, OnOk, OnErr, IsErrOf, None, Some, IsNone, IsSome, IsSomeAnd, option_copied, vec_len};
ghost use Rattle.bt_outside.specs.Told.{HasCause};
ghost use Rattle.bt_base.specs.Calls.{fail_at, raised};
ghost use Rattle.bt_base.specs.Medium.{IsLeft, Steps};
ghost use Rattle.bt_base.specs.Moments.{medium_of};
ghost use Rattle.bt_base.specs.Failing.{Counts, failing, spent};
ghost use Rattle.bt_base.specs.MemoryDisk.{FailsToCut, HasAtLeast, Settled, Turned, crash_of};

use crate::moments::Moments;
use crate::{Disk, DiskFault, Fail};
use bt_frame::OutOfMemory;
use std::alloc::{AllocError, Global};
use std::marker::Model;

/// Which calls fail, and how many were made and failed.
#[derive(Drop)]
struct Calls {
    fails: Vec<Fail>,
    /// From this call on each fails, and the first write among them keeps so much of its piece.
    stop: Option<Fail>,
    made: u64,
    faults: u64,
}

impl Model for Calls {
    ghost use Rattle.bt_base.specs.Failing.{Calls};

    ghost Value = { Calls };

    ghost view = { λ a. record { fails = a.fails.items; stop = a.stop; made = a.made; faults = a.faults } };
}

impl Calls {
    /// Counts one call more, and gives its entry where it is to fail.
    fn count(&mut self) -> Option<Fail>
        ensures fail { result ≡ failing self.old }
        ensures made { self.new ≡ record self.old { made = raised self.old.made } }
    {
        let number = self.made;
        self.made = self.made.saturating_add(1);
        match self.stop {
            Some(stop) if number >= u64::from(stop.call) => Some(stop),
            _ => find(self.fails.as_slice(), number).copied(),
        }
    }

    /// Counts one fault more.
    fn fault(&mut self) -> DiskFault
        ensures raised { self.new ≡ record self.old { faults = raised self.old.faults } }
        ensures later { self.old.faults ≤ self.new.faults }
        ensures failed { result ≡ DiskFault.Failed }
    {
        self.faults = self.faults.saturating_add(1);
        DiskFault::Failed
    }

    /// From now on what stops keeps nothing of a piece.
    fn spend(&mut self)
        ensures { self.new ≡ record self.old { stop = spent self.old.stop } }
    {
        if let Some(stop) = self.stop {
            self.stop = Some(Fail {
                call: stop.call,
                kept: 0,
            });
        }
    }
}

/// The first entry for the call of that number.
fn find(fails: &[Fail], number: u64) -> Option<&Fail>
    ensures { option_copied result ≡ fail_at fails.now number }
{
    fails.iter().find(|fail| u64::from(fail.call) == number)
}

/// A disk in memory, which tells all that it holds and what a crash may leave of it.
#[derive(Drop)]
pub struct MemDisk {
    moments: Moments,
    calls: Calls,
}

impl Model for MemDisk {
    ghost use Rattle.bt_base.specs.MemoryDisk.{HeldDisk};

    ghost Value = { HeldDisk };

    ghost view = { λ a. record { life = a.moments; calls = a.calls } };
}

impl MemDisk {
    /// These bytes, all synced. A call fails where its number is in the list; a write keeps the first bytes of its piece as
    /// that list says, and a cut has cut where it says 1.
    pub fn new(alloc: Global, bytes: Vec<u8>, fails: Vec<Fail>) -> MemDisk
        ensures life { result.life ≡ record { past = []; last = record { synced = bytes.items; bytes = bytes.items } } }
        ensures calls { result.calls ≡ record { fails = fails.items; stop = None; made = 0; faults = 0 } }
    {
        MemDisk {
            moments: Moments::new(alloc, bytes),
            calls: Calls {
                fails,
                stop: None,
                made: 0,
                faults: 0,
            },
        }
    }

    /// These bytes, all synced. Each call fails from the one of that number on. The first write that fails keeps so many bytes
    /// of its piece; every other failing call changes nothing.
    pub fn stopping(alloc: Global, bytes: Vec<u8>, stop: u32, kept: u32) -> MemDisk
        ensures life { result.life ≡ record { past = []; last = record { synced = bytes.items; bytes = bytes.items } } }
        ensures calls { result.calls ≡ record { fails = []; stop = Some (record { call = stop; kept = kept }); made = 0; faults = 0 } }
    {
        MemDisk {
            moments: Moments::new(alloc, bytes),
            calls: Calls {
                fails: Vec::new(alloc),
                stop: Some(Fail { call: stop, kept }),
                made: 0,
                faults: 0,
            },
        }
    }

    /// What a crash now leaves: the synced bytes, followed by so many of those written since. Where a cut was made since, the
    /// bytes before it at 0, and else those after it.
    pub fn crash(&self, alloc: Global, extra: u64) -> Result<Vec<u8>, OutOfMemory>
        ensures bytes { IfOk result (λ bytes. bytes.items ≡ crash_of self.now.life.last extra) }
        ensures left { IfOk result (λ bytes. IsLeft self.now.life.last.synced self.now.life.last.bytes bytes.items) }
    {
        let synced = self.moments.now().synced();
        let bytes = self.moments.now().bytes();
        if bytes.len() < synced.len() {
            return if extra == 0 {
                Ok(Vec::from_slice(alloc, synced)?)
            } else {
                Ok(Vec::from_slice(alloc, bytes)?)
            };
        }
        let more = bytes.len() - synced.len();
        if extra < more as u64 {
            Ok(Vec::from_slice(alloc, &bytes[..synced.len() + extra as usize])?)
        } else {
            Ok(Vec::from_slice(alloc, bytes)?)
        }
    }

    /// Writes a first part of a piece behind the bytes.
    fn write(&mut self, alloc: Global, piece: &[u8]) -> Result<(), AllocError>
        ensures ok { OnOk result (Turned self.old.life (self.old.life.last.bytes ++ piece.now) self.new.life) }
        ensures err { OnErr result (self.new ≡ self.old) }
        ensures steps { Steps (medium_of self.old.life) (medium_of self.new.life) }
        ensures calls { self.new.calls ≡ self.old.calls }
    {
        let mut bytes = Vec::from_slice(alloc, self.moments.now().bytes())?;
        bytes.extend_from_slice(piece)?;
        self.moments.turn(alloc, bytes)
    }

    /// Leaves the first so many bytes.
    fn leave(&mut self, alloc: Global, length: u64) -> Result<(), AllocError>
        requires { HasAtLeast length self.old.life.last.bytes }
        ensures ok { OnOk result (Turned self.old.life (take length self.old.life.last.bytes) self.new.life) }
        ensures err { OnErr result (self.new ≡ self.old) }
        ensures steps { Steps (medium_of self.old.life) (medium_of self.new.life) }
        ensures calls { self.new.calls ≡ self.old.calls }
    {
        let bytes = Vec::from_slice(alloc, &self.moments.now().bytes()[..length as usize])?;
        self.moments.turn(alloc, bytes)
    }
}

impl Disk for MemDisk {
    ghost told = { λ disk. Some (medium_of disk.life) };

    ghost fault_count = { λ disk. disk.calls.faults };

    fn faults(&self) -> u64 {
        self.calls.faults
    }

    fn length(&mut self) -> Result<u64, DiskFault>
        ensures length { IfOk result (λ count. count ≡ length self.old.life.last.bytes) }
        ensures not_out_of_memory { IsErrOf result DiskFault.OutOfMemory → ⊥ }
        ensures same { self.new.life ≡ self.old.life }
        ensures cause { HasCause DiskFault.Failed self.old.calls.faults self.new.calls.faults result }

        // The listed calls fail and no others.
        ensures listed { IsErrOf result DiskFault.Failed ↔ IsSome (failing self.old.calls) }
        ensures calls { Counts self.old.calls.stop self.old.calls self.new.calls result }
    {
        match self.calls.count() {
            None => Ok(self.moments.now().bytes().len() as u64),
            Some(_) => Err(self.calls.fault()),
        }
    }

    fn read(&mut self, alloc: Global, place: u64, count: u64) -> Result<Vec<u8>, DiskFault>
        requires within { place + count ≤ length self.old.life.last.bytes }
        ensures bytes { IfOk result (λ bytes. bytes.items ≡ take count (drop place self.old.life.last.bytes)) }
        ensures short { IfOk result (λ bytes. vec_len bytes ≤ count) }
        ensures same { self.new.life ≡ self.old.life }
        ensures cause { HasCause DiskFault.Failed self.old.calls.faults self.new.calls.faults result }

        // The listed calls fail and no others: a call of the list answers nothing else.
        ensures listed { IsErrOf result DiskFault.Failed ↔ IsSome (failing self.old.calls) }
        ensures calls { Counts self.old.calls.stop self.old.calls self.new.calls result }
    {
        match self.calls.count() {
            None => {
                let bytes = self.moments.now().bytes();
                let from = place as usize;
                Ok(Vec::from_slice(alloc, &bytes[from..from + count as usize])?)
            }
            Some(_) => Err(self.calls.fault()),
        }
    }

    fn write_at(&mut self, alloc: Global, _place: u64, piece: &[u8]) -> Result<(), DiskFault>
        ensures ok { OnOk result (Turned self.old.life (self.old.life.last.bytes ++ piece.now) self.new.life) }
        ensures out_of_memory { IsErrOf result DiskFault.OutOfMemory → self.new.life ≡ self.old.life }
        ensures steps { Steps (medium_of self.old.life) (medium_of self.new.life) }
        ensures cause { HasCause DiskFault.Failed self.old.calls.faults self.new.calls.faults result }

        // The listed calls fail and no others, want of memory apart.
        ensures not_listed { OnOk result (IsNone (failing self.old.calls)) }
        ensures listed { IsErrOf result DiskFault.Failed
            → IsSomeAnd (failing self.old.calls)
            (λ fail. Turned self.old.life (self.old.life.last.bytes ++ take fail.kept piece.now) self.new.life) }
        ensures calls { Counts (spent self.old.calls.stop) self.old.calls self.new.calls result }
    {
        match self.calls.count() {
            None => Ok(self.write(alloc, piece)?),
            Some(fail) => {
                self.write(alloc, &piece[..piece.len().min(fail.kept as usize)])?;
                self.calls.spend();
                Err(self.calls.fault())
            }
        }
    }

    fn cut(&mut self, alloc: Global, length: u64) -> Result<(), DiskFault>
        requires within { HasAtLeast length self.old.life.last.bytes }
        ensures ok { OnOk result (Turned self.old.life (take length self.old.life.last.bytes) self.new.life) }
        ensures failed { IsErrOf result DiskFault.Failed
            → (self.new.life ≡ self.old.life) ⊎ Turned self.old.life (take length self.old.life.last.bytes) self.new.life }
        ensures out_of_memory { IsErrOf result DiskFault.OutOfMemory → self.new.life ≡ self.old.life }
        ensures steps { Steps (medium_of self.old.life) (medium_of self.new.life) }
        ensures cause { HasCause DiskFault.Failed self.old.calls.faults self.new.calls.faults result }

        // The listed calls fail and no others, want of memory apart.
        ensures not_listed { OnOk result (IsNone (failing self.old.calls)) }
        ensures listed { IsErrOf result DiskFault.Failed
            → IsSomeAnd (failing self.old.calls)
            (λ fail. FailsToCut length fail self.old self.new) }
        ensures calls { Counts self.old.calls.stop self.old.calls self.new.calls result }
    {
        match self.calls.count() {
            None => Ok(self.leave(alloc, length)?),
            Some(fail) => {
                if fail.kept == 1 && self.calls.stop.is_none() {
                    self.leave(alloc, length)?;
                }
                Err(self.calls.fault())
            }
        }
    }

    fn sync(&mut self) -> Result<(), DiskFault>
        ensures ok { OnOk result (Settled self.old.life self.new.life) }
        ensures failed { IsErrOf result DiskFault.Failed → self.new.life ≡ self.old.life }
        ensures steps { Steps (medium_of self.old.life) (medium_of self.new.life) }
        ensures not_out_of_memory { IsErrOf result DiskFault.OutOfMemory → ⊥ }
        ensures cause { HasCause DiskFault.Failed self.old.calls.faults self.new.calls.faults result }

        // The listed calls fail and no others.
        ensures listed { IsErrOf result DiskFault.Failed ↔ IsSome (failing self.old.calls) }
        ensures calls { Counts self.old.calls.stop self.old.calls self.new.calls result }
    {
        match self.calls.count() {
            None => {
                self.moments.settle();
                Ok(())
            }
            Some(_) => Err(self.calls.fault()),
        }
    }
}
