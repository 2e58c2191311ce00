// The files of the system.
ghost use Rattle.std.specs.Prelude.{◌≡◌, ◌≤◌, None, IfOk, vec_len};

use crate::{FileFault, Files};
use std::alloc::Global;
use std::fs::File;
use std::io::{ErrorKind, Read};
use std::{io, rt};

/// The files of the working directory. A name is a path. What a file holds is not told. Each answer that is no
/// file counts as a fault.
#[derive(Drop)]
pub struct DirFiles<'a, R> {
    rt: &'a R,
    faults: u64,
}

impl<'a, R: rt::Files> DirFiles<'a, R> {
    /// The files that this runtime reaches.
    pub fn new(rt: &'a R) -> DirFiles<'a, R>
        ensures faults { ⟦<DirFiles<'a, R> as Files>⟧.fault_count result ≡ 0 }
    {
        DirFiles { rt, faults: 0 }
    }
}

impl<R: rt::Files> Files for DirFiles<'_, R> {
    ghost told = { λ _ _. None };

    ghost fault_count = { λ files. files.faults };

    fn faults(&self) -> u64 {
        self.faults
    }

    fn read(&mut self, alloc: Global, name: &str, limit: u64) -> Result<Vec<u8>, FileFault> {
        let result = read_within(self.rt, alloc, name, limit);
        if result.is_err() {
            self.faults = self.faults.saturating_add(1);
        }
        result
    }
}

/// The file, of at most so many bytes.
fn read_within<R: rt::Files>(
    rt: &R,
    alloc: Global,
    name: &str,
    limit: u64,
) -> Result<Vec<u8>, FileFault>
    ensures short { IfOk result (λ bytes. vec_len bytes ≤ limit) }
{
    match read_file(rt, alloc, name, limit) {
        Ok(bytes) if bytes.len() as u64 <= limit => Ok(bytes),
        Ok(_) => Err(FileFault::TooLong),
        Err(e) if e.kind() == ErrorKind::OutOfMemory => Err(FileFault::OutOfMemory),
        Err(_) => Err(FileFault::Failed),
    }
}

/// The file up to one byte past the limit.
fn read_file<R: rt::Files>(rt: &R, alloc: Global, name: &str, limit: u64) -> io::Result<Vec<u8>> {
    let file = File::open(rt, name)?;
    read_one_past(alloc, file, limit)
}

/// What is left of a file up to one byte past the limit, so that its end shows where it is no longer.
pub(crate) fn read_one_past<F: Read + Drop>(
    alloc: Global,
    file: F,
    limit: u64,
) -> io::Result<Vec<u8>> {
    let mut bytes = Vec::new(alloc);
    file.take(limit.saturating_add(1)).read_to_end(&mut bytes)?;
    Ok(bytes)
}
