// Files in memory whose reads do not fail.
ghost use Rattle.std.specs.Prelude.{◌≡◌, ◌≤◌, [], Some, IfOk, IsErrOf, unwrap_or, vec_len};
ghost use Rattle.bt_outside.specs.Told.{Gives, IsLonger, HasCause};
ghost use Rattle.bt_base.specs.Held.{named, contents_of};

use crate::named::{NamedFile, contents, copy_within};
use crate::{FileFault, Files};
use std::alloc::Global;
use std::marker::Model;

/// Files in memory that are always read. A name that no file has stands for empty contents.
#[derive(Drop)]
pub struct SureFiles {
    files: Vec<NamedFile>,
}

impl Model for SureFiles {
    ghost use Rattle.std.specs.Prelude.{ℕ, List};
    ghost use Rattle.bt_base.specs.Held.{named};

    ghost Value = { List (List ℕ × List ℕ) };

    ghost view = { λ a. named a.files.items };
}

impl SureFiles {
    /// These files, a name and contents each. A later file of the same name is never read.
    pub fn new(files: Vec<(String, Vec<u8>)>) -> SureFiles
        ensures files { result ≡ named files.items }
    {
        SureFiles { files }
    }
}

impl Files for SureFiles {
    ghost told = { λ files name. Some (unwrap_or (contents_of files name) []) };

    ghost fault_count = { λ _. 0 };

    fn faults(&self) -> u64 {
        0
    }

    fn read(&mut self, alloc: Global, name: &str, limit: u64) -> Result<Vec<u8>, FileFault>
        ensures bytes { IfOk result
            (λ bytes. Gives (Some (unwrap_or (contents_of self.old name.now) [])) bytes.items) }
        ensures short { IfOk result (λ bytes. vec_len bytes ≤ limit) }
        ensures too_long { IsErrOf result FileFault.TooLong
            → IsLonger (Some (unwrap_or (contents_of self.old name.now) [])) limit }
        ensures cause { HasCause FileFault.Failed 0 0 result }
        ensures same { self.new ≡ self.old }
        ensures not_failed { IsErrOf result FileFault.Failed → ⊥ }
    {
        let contents = contents(&self.files, name).unwrap_or(&[]);
        copy_within(alloc, contents, limit)
    }
}
