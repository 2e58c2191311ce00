// A file of the system as a disk.
ghost use Rattle.std.specs.Prelude.{◌≡◌, ◌≤◌, None};
ghost use Rattle.bt_outside.specs.Told.{Rose};

use crate::{Disk, DiskFault};
use std::alloc::Global;
use std::fs::{OpenFile, OpenOptions};
use std::io::{ErrorKind, Read, Seek, SeekFrom, Write};
use std::{io, rt};

/// The disk over a file of the system. What the file holds is not told. The file is opened once, by the first call, which
/// makes a missing one.
///
/// A write is one write at the file's end, and a sync one sync; each failed call counts as a fault.
#[derive(Drop)]
pub struct FileDisk<'a, R: rt::Files> {
    rt: &'a R,
    path: String,
    /// The file, from the first call that could open it on.
    file: Option<R::File>,
    faults: u64,
}

impl<'a, R: rt::Files> FileDisk<'a, R> {
    /// The disk over the file of that path, as this runtime reaches it. Nothing is opened yet.
    pub fn new(rt: &'a R, path: String) -> FileDisk<'a, R>
        ensures faults { ⟦<FileDisk<'a, R> as Disk>⟧.fault_count result ≡ 0 }
    {
        FileDisk {
            rt,
            path,
            file: None,
            faults: 0,
        }
    }

    /// A failure, counted.
    fn failed(&mut self) -> DiskFault
        ensures same { result ≡ DiskFault.Failed }
        ensures later { self.old.faults ≤ self.new.faults }
        ensures rose { Rose self.old.faults self.new.faults }
    {
        self.faults = self.faults.saturating_add(1);
        DiskFault::Failed
    }
}

impl<R: rt::Files> Disk for FileDisk<'_, R> {
    ghost told = { λ _. None };

    ghost fault_count = { λ disk. disk.faults };

    fn faults(&self) -> u64 {
        self.faults
    }

    fn length(&mut self) -> Result<u64, DiskFault> {
        match self.file_length() {
            Ok(count) => Ok(count),
            Err(_) => Err(self.failed()),
        }
    }

    fn read(&mut self, alloc: Global, place: u64, count: u64) -> Result<Vec<u8>, DiskFault> {
        match self.read_file(alloc, place, count) {
            Ok(bytes) if bytes.len() as u64 == count => Ok(bytes),
            // Somebody else has cut it.
            Ok(_) => Err(self.failed()),
            Err(e) if e.kind() == ErrorKind::OutOfMemory => Err(DiskFault::OutOfMemory),
            Err(_) => Err(self.failed()),
        }
    }

    fn write_at(&mut self, _alloc: Global, _place: u64, piece: &[u8]) -> Result<(), DiskFault> {
        match self.write_file(piece) {
            Ok(()) => Ok(()),
            Err(_) => Err(self.failed()),
        }
    }

    fn cut(&mut self, _alloc: Global, length: u64) -> Result<(), DiskFault> {
        match self.cut_file(length) {
            Ok(()) => Ok(()),
            Err(_) => Err(self.failed()),
        }
    }

    fn sync(&mut self) -> Result<(), DiskFault> {
        match self.sync_file() {
            Ok(()) => Ok(()),
            Err(_) => Err(self.failed()),
        }
    }
}

/// What is asked of the system.
impl<R: rt::Files> FileDisk<'_, R> {
    /// The length of the file.
    fn file_length(&mut self) -> io::Result<u64>
        ensures { self.new.faults ≡ self.old.faults }
    {
        Ok(
            opened(self.rt, self.path.as_str(), &mut self.file)?
                .metadata()?
                .len(),
        )
    }

    /// So many bytes of the file from a place on, or fewer where it ends before.
    fn read_file(&mut self, alloc: Global, place: u64, count: u64) -> io::Result<Vec<u8>>
        ensures { self.new.faults ≡ self.old.faults }
    {
        let mut bytes = Vec::new(alloc);
        bytes.reserve(count as usize)?;
        let file = opened(self.rt, self.path.as_str(), &mut self.file)?;
        file.seek(SeekFrom::Start(place))?;
        file.take(count).read_to_end(&mut bytes)?;
        Ok(bytes)
    }

    /// Writes the piece at the file's end.
    fn write_file(&mut self, piece: &[u8]) -> io::Result<()>
        ensures { self.new.faults ≡ self.old.faults }
    {
        opened(self.rt, self.path.as_str(), &mut self.file)?.write_all(piece)
    }

    /// Leaves the first so many bytes of the file.
    fn cut_file(&mut self, length: u64) -> io::Result<()>
        ensures { self.new.faults ≡ self.old.faults }
    {
        opened(self.rt, self.path.as_str(), &mut self.file)?.set_len(length)
    }

    /// Returns once the system says that the file is on the disk as it reads.
    fn sync_file(&mut self) -> io::Result<()>
        ensures { self.new.faults ≡ self.old.faults }
    {
        opened(self.rt, self.path.as_str(), &mut self.file)?.sync_all()
    }
}

/// The file, opened for reading and for writing at its end where it is not yet; an empty one where it is missing.
fn opened<'f, R: rt::Files>(
    rt: &R,
    path: &str,
    place: &'f mut Option<R::File>,
) -> io::Result<&'f mut R::File> {
    if place.is_none() {
        let file = OpenOptions::new()
            .read(true)
            .append(true)
            .create(true)
            .open(rt, path)?;
        *place = Some(file);
    }
    match place {
        Some(file) => Ok(file),
        None => Err(ErrorKind::NotFound.into()),
    }
}
