// A store of records over a disk, which answers once its bytes are synced.
ghost use Rattle.std.specs.Prelude.{◌≡◌, ◌≤◌, IfOk, OnOk, OnErr, IfSome, IsErrOf, length, vec_len};
ghost use Rattle.bt_frame.specs.declared.limits.TheConstants.{MOST_JOURNAL_BYTES};
ghost use Rattle.bt_outside.specs.Told.{HasCause};
ghost use Rattle.bt_outside.specs.Crash.{Both};
ghost use Rattle.bt_base.specs.Medium.{HasLength, HoldsAtLeast, IsSynced, bytes_told, crashes_told};
ghost use Rattle.bt_base.specs.Lines.{Adds, Cuts, Grows, Pays, Shrinks, Waits};

use crate::{Disk, DiskFault};
use bt_frame::MOST_JOURNAL_BYTES;
use bt_outside::{KeepFault, Keeper};
use std::alloc::Global;
use std::marker::Model;

/// A store over a disk. A piece is synced where `append` answers Ok, and so is a cut. A call that fails leaves a sync owed,
/// with which the next one begins.
#[derive(Drop)]
pub struct LineKeeper<D: Disk> {
    disk: D,
    /// Whether a sync is owed.
    owes: bool,
    /// The length, once it was learnt, until a call fails.
    learnt: Option<u64>,
}

impl<D: Disk> Model for LineKeeper<D> {
    ghost use Rattle.bt_base.specs.Lines.{Remembers};

    ghost Value = { D };

    ghost view = { λ a. a.disk };

    ghost invariant = { λ a. Remembers (D.told a.disk) a.owes a.learnt };
}

impl<D: Disk> LineKeeper<D> {
    /// The store over that disk. No call is made yet, and a sync is owed.
    pub fn open(disk: D) -> LineKeeper<D>
        ensures disk { result ≡ disk }
        ensures told { ⟦<LineKeeper<D> as Keeper>⟧.told result ≡ bytes_told (D.told disk) }
        ensures crashes { ⟦<LineKeeper<D> as Keeper>⟧.crashes result ≡ crashes_told (D.told disk) }
        ensures faults { ⟦<LineKeeper<D> as Keeper>⟧.fault_count result ≡ D.fault_count disk }
    {
        LineKeeper {
            disk,
            owes: true,
            learnt: None,
        }
    }

    /// The disk, handed back.
    pub fn into_disk(self) -> D
        ensures { result ≡ self }
    {
        self.disk
    }

    /// Syncs where that is owed.
    fn pay(&mut self) -> Result<(), KeepFault>
        ensures paid { OnOk result (Both Pays (D.told self.old) (D.told self.new)) }
        ensures failed { OnErr result (Both Waits (D.told self.old) (D.told self.new)) }
        ensures not_out_of_memory { IsErrOf result KeepFault.OutOfMemory → ⊥ }
        ensures not_too_long { IsErrOf result KeepFault.TooLong → ⊥ }
        ensures no_fault { OnOk result (D.fault_count self.new ≡ D.fault_count self.old) }
        ensures cause { HasCause KeepFault.Failed (D.fault_count self.old) (D.fault_count self.new) result }
    {
        if !self.owes {
            return Ok(());
        }
        self.learnt = None;
        match self.disk.sync() {
            Ok(()) => {
                self.owes = false;
                Ok(())
            }
            Err(_) => Err(KeepFault::Failed),
        }
    }

    /// The number of bytes, which the disk is asked for.
    fn ask(&mut self) -> Result<u64, KeepFault>
        ensures length { IfOk result (λ end. IfSome (D.told self.old) (HasLength end)) }
        ensures same { D.told self.new ≡ D.told self.old }
        ensures not_out_of_memory { IsErrOf result KeepFault.OutOfMemory → ⊥ }
        ensures not_too_long { IsErrOf result KeepFault.TooLong → ⊥ }
        ensures no_fault { OnOk result (D.fault_count self.new ≡ D.fault_count self.old) }
        ensures cause { HasCause KeepFault.Failed (D.fault_count self.old) (D.fault_count self.new) result }
    {
        match self.disk.length() {
            Ok(count) => {
                self.learnt = Some(count);
                Ok(count)
            }
            Err(_) => {
                self.owes = true;
                self.learnt = None;
                Err(KeepFault::Failed)
            }
        }
    }

    /// The number of bytes once they are synced, which the disk is asked for where it is not known.
    fn end(&mut self) -> Result<u64, KeepFault>
        ensures length { IfOk result (λ end. IfSome (D.told self.new) (HasLength end)) }
        ensures paid { OnOk result (Both Pays (D.told self.old) (D.told self.new)) }
        ensures failed { OnErr result (Both Waits (D.told self.old) (D.told self.new)) }
        ensures not_out_of_memory { IsErrOf result KeepFault.OutOfMemory → ⊥ }
        ensures not_too_long { IsErrOf result KeepFault.TooLong → ⊥ }
        ensures no_fault { OnOk result (D.fault_count self.new ≡ D.fault_count self.old) }
        ensures cause { HasCause KeepFault.Failed (D.fault_count self.old) (D.fault_count self.new) result }
    {
        self.pay()?;
        match self.learnt {
            Some(end) => Ok(end),
            None => self.ask(),
        }
    }

    /// Writes the piece at the end of synced bytes, and syncs it.
    fn add(&mut self, alloc: Global, end: u64, piece: &[u8]) -> Result<(), KeepFault>
        requires end { IfSome (D.told self.old) (HasLength end) }
        requires synced { IfSome (D.told self.old) IsSynced }
        ensures ok { OnOk result (Both (Adds piece.now) (D.told self.old) (D.told self.new)) }
        ensures grows { Both (Grows piece.now) (D.told self.old) (D.told self.new) }
        ensures out_of_memory { IsErrOf result KeepFault.OutOfMemory → D.told self.new ≡ D.told self.old }
        ensures not_too_long { IsErrOf result KeepFault.TooLong → ⊥ }
        ensures no_fault { OnOk result (D.fault_count self.new ≡ D.fault_count self.old) }
        ensures same_count { IsErrOf result KeepFault.OutOfMemory → D.fault_count self.new ≡ D.fault_count self.old }
        ensures cause { HasCause KeepFault.Failed (D.fault_count self.old) (D.fault_count self.new) result }
    {
        self.owes = true;
        self.learnt = None;
        match write_and_sync(&mut self.disk, alloc, end, piece) {
            Ok(()) => {
                self.owes = false;
                self.learnt = end.checked_add(piece.len() as u64);
                Ok(())
            }
            Err(DiskFault::Failed) => Err(KeepFault::Failed),
            Err(DiskFault::OutOfMemory) => {
                self.owes = false;
                self.learnt = Some(end);
                Err(KeepFault::OutOfMemory)
            }
        }
    }

    /// Cuts synced bytes, of which there are so many, and syncs that.
    fn shrink(&mut self, alloc: Global, end: u64, length: u64) -> Result<(), KeepFault>
        requires end { IfSome (D.told self.old) (HasLength end) }
        requires within { IfSome (D.told self.old) (HoldsAtLeast length) }
        requires synced { IfSome (D.told self.old) IsSynced }
        ensures ok { OnOk result (Both (Cuts length) (D.told self.old) (D.told self.new)) }
        ensures shrinks { Both (Shrinks length) (D.told self.old) (D.told self.new) }
        ensures out_of_memory { IsErrOf result KeepFault.OutOfMemory → D.told self.new ≡ D.told self.old }
        ensures not_too_long { IsErrOf result KeepFault.TooLong → ⊥ }
        ensures no_fault { OnOk result (D.fault_count self.new ≡ D.fault_count self.old) }
        ensures same_count { IsErrOf result KeepFault.OutOfMemory → D.fault_count self.new ≡ D.fault_count self.old }
        ensures cause { HasCause KeepFault.Failed (D.fault_count self.old) (D.fault_count self.new) result }
    {
        self.owes = true;
        self.learnt = None;
        match cut_and_sync(&mut self.disk, alloc, length) {
            Ok(()) => {
                self.owes = false;
                self.learnt = Some(length);
                Ok(())
            }
            Err(DiskFault::Failed) => Err(KeepFault::Failed),
            Err(DiskFault::OutOfMemory) => {
                self.owes = false;
                self.learnt = Some(end);
                Err(KeepFault::OutOfMemory)
            }
        }
    }

    /// The first so many bytes, which are all.
    fn read_first(&mut self, alloc: Global, count: u64) -> Result<Vec<u8>, KeepFault>
        requires { IfSome (D.told self.old) (HasLength count) }
        ensures bytes { IfOk result (λ bytes. IfSome (D.told self.old) (λ medium. bytes.items ≡ medium.bytes)) }
        ensures short { IfOk result (λ bytes. vec_len bytes ≤ count) }
        ensures same { D.told self.new ≡ D.told self.old }
        ensures not_too_long { IsErrOf result KeepFault.TooLong → ⊥ }
        ensures same_count { IsErrOf result KeepFault.OutOfMemory → D.fault_count self.new ≡ D.fault_count self.old }
        ensures cause { HasCause KeepFault.Failed (D.fault_count self.old) (D.fault_count self.new) result }
    {
        match self.disk.read(alloc, 0, count) {
            Ok(bytes) => Ok(bytes),
            Err(DiskFault::Failed) => {
                self.owes = true;
                self.learnt = None;
                Err(KeepFault::Failed)
            }
            Err(DiskFault::OutOfMemory) => Err(KeepFault::OutOfMemory),
        }
    }
}

/// Writes a piece at the end of synced bytes, and syncs it.
fn write_and_sync<D: Disk>(
    disk: &mut D,
    alloc: Global,
    place: u64,
    piece: &[u8],
) -> Result<(), DiskFault>
    requires place { IfSome (D.told disk.old) (HasLength place) }
    requires synced { IfSome (D.told disk.old) IsSynced }
    ensures ok { OnOk result (Both (Adds piece.now) (D.told disk.old) (D.told disk.new)) }
    ensures grows { Both (Grows piece.now) (D.told disk.old) (D.told disk.new) }
    ensures out_of_memory { IsErrOf result DiskFault.OutOfMemory → D.told disk.new ≡ D.told disk.old }
    ensures no_fault { OnOk result (D.fault_count disk.new ≡ D.fault_count disk.old) }
    ensures same_count { IsErrOf result DiskFault.OutOfMemory → D.fault_count disk.new ≡ D.fault_count disk.old }
    ensures cause { HasCause DiskFault.Failed (D.fault_count disk.old) (D.fault_count disk.new) result }
{
    disk.write_at(alloc, place, piece)?;
    disk.sync()
}

/// Cuts synced bytes, and syncs that.
fn cut_and_sync<D: Disk>(disk: &mut D, alloc: Global, length: u64) -> Result<(), DiskFault>
    requires within { IfSome (D.told disk.old) (HoldsAtLeast length) }
    requires synced { IfSome (D.told disk.old) IsSynced }
    ensures ok { OnOk result (Both (Cuts length) (D.told disk.old) (D.told disk.new)) }
    ensures shrinks { Both (Shrinks length) (D.told disk.old) (D.told disk.new) }
    ensures out_of_memory { IsErrOf result DiskFault.OutOfMemory → D.told disk.new ≡ D.told disk.old }
    ensures no_fault { OnOk result (D.fault_count disk.new ≡ D.fault_count disk.old) }
    ensures same_count { IsErrOf result DiskFault.OutOfMemory → D.fault_count disk.new ≡ D.fault_count disk.old }
    ensures cause { HasCause DiskFault.Failed (D.fault_count disk.old) (D.fault_count disk.new) result }
{
    disk.cut(alloc, length)?;
    disk.sync()
}

impl<D: Disk> Keeper for LineKeeper<D> {
    ghost told = { λ disk. bytes_told (D.told disk) };

    ghost fault_count = { λ disk. D.fault_count disk };

    ghost crashes = { λ disk. crashes_told (D.told disk) };

    fn faults(&self) -> u64 {
        self.disk.faults()
    }

    fn append(&mut self, alloc: Global, piece: &[u8]) -> Result<(), KeepFault> {
        let end = self.end()?;
        self.add(alloc, end, piece)
    }

    fn read_all(&mut self, alloc: Global) -> Result<Vec<u8>, KeepFault> {
        // What is read has to be on the disk.
        self.pay()?;
        let count = self.ask()?;
        if count > MOST_JOURNAL_BYTES {
            return Err(KeepFault::TooLong);
        }
        self.read_first(alloc, count)
    }

    fn cut(&mut self, alloc: Global, length: u64) -> Result<(), KeepFault> {
        let end = self.end()?;
        self.shrink(alloc, end, length)
    }
}
