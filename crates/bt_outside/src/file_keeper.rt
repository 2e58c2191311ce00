// A file of the system as a store.
ghost use Rattle.std.specs.Prelude.{◌≡◌, ◌≤◌, None, IfOk, vec_len};
ghost use Rattle.bt_outside.specs.Told.{Rose};

use crate::dir_files::read_one_past;
use crate::{KeepFault, Keeper};
use bt_frame::MOST_JOURNAL_BYTES;
use std::alloc::Global;
use std::fs::{OpenFile, OpenOptions};
use std::io::{ErrorKind, Write};
use std::{io, rt};

/// The store over a file of the system. What the file holds is not told. A missing file is made at the first call.
///
/// A piece is on the disk, as far as the system says, where `append` or `cut` answers Ok. Whatever stands in the place of
/// that is `Failed`, and each answer but Ok counts as a fault.
#[derive(Drop)]
pub struct FileKeeper<'a, R: rt::Files> {
    rt: &'a R,
    path: &'a str,
    /// The file, from a piece that was written on until the store is read or a piece could not be written.
    file: Option<R::File>,
    faults: u64,
}

impl<'a, R: rt::Files> FileKeeper<'a, R> {
    /// The store over the file of that path, as this runtime reaches it. Nothing is opened yet.
    pub fn new(rt: &'a R, path: &'a str) -> FileKeeper<'a, R>
        ensures faults { ⟦<FileKeeper<'a, R> as Keeper>⟧.fault_count result ≡ 0 }
    {
        FileKeeper {
            rt,
            path,
            file: None,
            faults: 0,
        }
    }

    /// The same fault, counted.
    fn counted(&mut self, fault: KeepFault) -> KeepFault
        ensures same { result ≡ fault }
        ensures later { self.old.faults ≤ self.new.faults }
        ensures rose { Rose self.old.faults self.new.faults }
    {
        self.faults = self.faults.saturating_add(1);
        fault
    }
}

impl<R: rt::Files> Keeper for FileKeeper<'_, R> {
    ghost told = { λ _. None };

    ghost fault_count = { λ keeper. keeper.faults };

    ghost crashes = { λ _. None };

    fn faults(&self) -> u64 {
        self.faults
    }

    fn append(&mut self, _alloc: Global, piece: &[u8]) -> Result<(), KeepFault> {
        let file = self.file.take();
        match append_and_sync(self.rt, self.path, file, piece) {
            Ok(file) => {
                self.file = Some(file);
                Ok(())
            }
            Err(_) => Err(self.counted(KeepFault::Failed)),
        }
    }

    fn read_all(&mut self, alloc: Global) -> Result<Vec<u8>, KeepFault> {
        // What is written from here on is written to the file that is read now.
        self.file = None;
        match read_store(self.rt, alloc, self.path) {
            Ok(bytes) => Ok(bytes),
            Err(fault) => Err(self.counted(fault)),
        }
    }

    fn cut(&mut self, _alloc: Global, length: u64) -> Result<(), KeepFault> {
        match cut_and_sync(self.rt, self.path, length) {
            Ok(()) => Ok(()),
            Err(_) => Err(self.counted(KeepFault::Failed)),
        }
    }
}

/// The file, opened for reading and for writing at its end; an empty one where it is missing.
fn open<R: rt::Files>(rt: &R, path: &str) -> io::Result<R::File> {
    OpenOptions::new()
        .read(true)
        .append(true)
        .create(true)
        .open(rt, path)
}

/// Writes the piece at the end of the file, which is opened where none is given, and returns the file once the system says
/// that the piece is on the disk.
fn append_and_sync<R: rt::Files>(
    rt: &R,
    path: &str,
    file: Option<R::File>,
    piece: &[u8],
) -> io::Result<R::File> {
    let mut file = match file {
        Some(file) => file,
        None => open(rt, path)?,
    };
    file.write_all(piece)?;
    file.sync_all()?;
    Ok(file)
}

/// Leaves the first `length` bytes of the file, and returns once the system says that the disk has no others.
fn cut_and_sync<R: rt::Files>(rt: &R, path: &str, length: u64) -> io::Result<()> {
    let file = open(rt, path)?;
    file.set_len(length)?;
    file.sync_all()
}

/// The bytes of the file, as many as are read from a store.
fn read_store<R: rt::Files>(rt: &R, alloc: Global, path: &str) -> Result<Vec<u8>, KeepFault>
    ensures short { IfOk result (λ bytes. vec_len bytes ≤ MOST_JOURNAL_BYTES) }
{
    match read_past_last(rt, alloc, path) {
        Ok(bytes) if bytes.len() as u64 <= MOST_JOURNAL_BYTES => Ok(bytes),
        Ok(_) => Err(KeepFault::TooLong),
        Err(e) if e.kind() == ErrorKind::OutOfMemory => Err(KeepFault::OutOfMemory),
        Err(_) => Err(KeepFault::Failed),
    }
}

/// The bytes of the file, and one more than are read from a store where it has more.
fn read_past_last<R: rt::Files>(rt: &R, alloc: Global, path: &str) -> io::Result<Vec<u8>> {
    let file = open(rt, path)?;
    read_one_past(alloc, file, MOST_JOURNAL_BYTES)
}
