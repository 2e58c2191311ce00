// Contents under a name, and their copies.
ghost use Rattle.std.specs.Prelude.{◌≡◌, ◌<◌, ◌≤◌, length, IfOk, IsErrOf, vec_len, option_copied, bytes_eq, string_bytes};
ghost use Rattle.std.specs.List;
ghost use Rattle.bt_base.specs.Held.{named, contents_of};

use crate::FileFault;
use std::alloc::Global;

/// A file in memory: its name and its contents.
pub(crate) type NamedFile = (String, Vec<u8>);

/// The contents of the first file of that name.
#[tactic(auto, using(crate::proofs::LookUp::contents_of_named))]
pub(crate) fn contents<'a>(files: &'a [NamedFile], name: &str) -> Option<&'a [u8]>
    ensures { option_copied result ≡ contents_of (named files.now) name.now }
{
    Some(find(files, name)?.1.as_slice())
}

/// The first file of that name.
fn find<'a>(files: &'a [NamedFile], name: &str) -> Option<&'a NamedFile>
    ensures { option_copied result ≡ List.find (λ file. bytes_eq (string_bytes file.0) name.now) files.now }
{
    files.iter().find(|file| file.0.as_str() == name)
}

/// A copy of the contents where they have at most `limit` bytes.
pub(crate) fn copy_within(alloc: Global, contents: &[u8], limit: u64) -> Result<Vec<u8>, FileFault>
    ensures bytes { IfOk result (λ bytes. bytes.items ≡ contents.now) }
    ensures short { IfOk result (λ bytes. vec_len bytes ≤ limit) }
    ensures too_long { IsErrOf result FileFault.TooLong → limit < length contents.now }
    ensures not_failed { IsErrOf result FileFault.Failed → ⊥ }
{
    if contents.len() as u64 > limit {
        return Err(FileFault::TooLong);
    }
    Ok(Vec::from_slice(alloc, contents)?)
}
