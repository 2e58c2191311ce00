// Files whose contents are kept.
ghost use Rattle.std.specs.Prelude.{◌≡◌};

use bt_outside::{FileFault, Files};
use std::alloc::{AllocError, Global};

/// What a file held when it was read.
#[derive(Drop)]
struct Kept {
    name: String,
    bytes: Vec<u8>,
}

impl Kept {
    fn new(alloc: Global, name: &str, bytes: &[u8]) -> Result<Kept, AllocError> {
        Ok(Kept {
            name: String::from_str(alloc, name)?,
            bytes: Vec::from_slice(alloc, bytes)?,
        })
    }
}

/// Files, and what those held that were read. So a pipe is looked at again too.
#[derive(Drop)]
pub struct KeptFiles<F> {
    files: F,
    kept: Vec<Kept>,
}

impl<F: Files> KeptFiles<F> {
    /// Those files, of which none was read yet.
    pub fn new(alloc: Global, files: F) -> KeptFiles<F>
        ensures told { ⟦<KeptFiles<F> as Files>⟧.told result ≡ F.told files }
        ensures faults { ⟦<KeptFiles<F> as Files>⟧.fault_count result ≡ F.fault_count files }
    {
        KeptFiles {
            files,
            kept: Vec::new(alloc),
        }
    }

    /// Keeps what a file holds. Where memory is wanting, nothing is told of it.
    fn keep(&mut self, alloc: Global, name: &str, bytes: &[u8])
        ensures same { self.new.files ≡ self.old.files }
    {
        if let Ok(kept) = Kept::new(alloc, name, bytes) {
            let _kept = self.kept.push(kept);
        }
    }
}

impl<F> KeptFiles<F> {
    /// What the file of a name held; None where it was not read, or memory for it was wanting.
    pub fn kept(&self, name: &str) -> Option<&[u8]> {
        for kept in self.kept.iter() {
            if kept.name.as_str() == name {
                return Some(kept.bytes.as_slice());
            }
        }
        None
    }
}

impl<F: Files> Files for KeptFiles<F> {
    ghost told = { λ a. F.told a.files };

    ghost fault_count = { λ a. F.fault_count a.files };

    fn faults(&self) -> u64 {
        self.files.faults()
    }

    fn read(&mut self, alloc: Global, name: &str, limit: u64) -> Result<Vec<u8>, FileFault> {
        let result = self.files.read(alloc, name, limit);
        if let Ok(bytes) = &result {
            self.keep(alloc, name, bytes.as_slice());
        }
        result
    }
}
