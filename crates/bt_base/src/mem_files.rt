// Files in memory, some of whose reads fail.
ghost use Rattle.std.specs.Prelude.{◌≡◌, ◌≤◌, ◌⊎◌, ◌↔◌, IsSome, IsNone, IfOk, IsErrOf, vec_len};
ghost use Rattle.bt_outside.specs.Told.{Gives, IsLonger, HasCause};
ghost use Rattle.bt_base.specs.Calls.{fail_at, Counts};
ghost use Rattle.bt_base.specs.Held.{named, contents_of};

use crate::fail::Calls;
use crate::named::{NamedFile, contents, copy_within};
use crate::{Fail, FileFault, Files};
use std::alloc::Global;
use std::marker::Model;

/// Files in memory. A call fails where its number is in the list of failing calls, and a read of a name
/// that no file has fails too.
#[derive(Drop)]
pub struct MemFiles {
    files: Vec<NamedFile>,
    calls: Calls,
}

impl Model for MemFiles {
    ghost use Rattle.bt_base.specs.Held.{HeldFiles, named};

    ghost Value = { HeldFiles };

    ghost view = { λ a. record { files = named a.files.items; calls = a.calls } };
}

impl MemFiles {
    /// These files, a name and contents each. A later file of the same name is never read.
    pub fn new(files: Vec<(String, Vec<u8>)>, fails: Vec<Fail>) -> MemFiles
        ensures files { result.files ≡ named files.items }
        ensures calls { result.calls ≡ record { fails = fails.items; made = 0; faults = 0 } }
    {
        MemFiles {
            files,
            calls: Calls::new(fails),
        }
    }
}

impl Files for MemFiles {
    ghost told = { λ held name. contents_of held.files name };

    ghost fault_count = { λ held. held.calls.faults };

    fn faults(&self) -> u64 {
        self.calls.faults()
    }

    fn read(&mut self, alloc: Global, name: &str, limit: u64) -> Result<Vec<u8>, FileFault>
        ensures bytes { IfOk result (λ bytes. Gives (contents_of self.old.files name.now) bytes.items) }
        ensures short { IfOk result (λ bytes. vec_len bytes ≤ limit) }
        ensures too_long { IsErrOf result FileFault.TooLong → IsLonger (contents_of self.old.files name.now) limit }
        ensures cause { HasCause FileFault.Failed self.old.calls.faults self.new.calls.faults result }
        ensures same { self.new.files ≡ self.old.files }

        // The listed calls fail and those for a missing file, and no others.
        ensures failed { IsErrOf result FileFault.Failed
            ↔ (IsSome (fail_at self.old.calls.fails self.old.calls.made) ⊎ IsNone (contents_of self.old.files name.now)) }
        ensures calls { Counts FileFault.Failed self.old.calls self.new.calls result }
    {
        let fail = self.calls.count();
        match contents(&self.files, name) {
            Some(contents) if fail.is_none() => copy_within(alloc, contents, limit),
            _ => {
                self.calls.fault();
                Err(FileFault::Failed)
            }
        }
    }
}
