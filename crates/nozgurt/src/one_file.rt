// A journal that is a file which is read, too: what is written into it would be gone from that file, or the other way round.
ghost use Rattle.std.specs.Prelude.{◌≡◌, true};

use bt_report::Refusal;
use std::alloc::{AllocError, Global};
use std::fs;
use std::os::unix::fs::MetadataExt;
use std::rt::Files;

/// The refusal of words whose last one names a journal that is written, where a word in front of it names the same file; None
/// where all are files of their own.
pub fn shared_file<R: Files>(
    rt: &R,
    alloc: Global,
    words: &[String],
) -> Result<Option<Refusal>, AllocError> {
    let [_, read @ .., journal] = words else {
        return Ok(None);
    };
    for (at, name) in read.iter().enumerate() {
        if is_one_file(rt, name, journal) {
            return Ok(Some(Refusal::OneFile {
                // behind the command
                number: at.saturating_add(2),
                name: String::from_str(alloc, name)?,
                journal: String::from_str(alloc, journal)?,
            }));
        }
    }
    Ok(None)
}

/// Whether two names are those of one file, by their letters or as the system says now.
fn is_one_file<R: Files>(rt: &R, name: &str, other: &str) -> bool
    ensures same_name { name.now ≡ other.now → result ≡ true }
{
    if name == other {
        return true;
    }
    match (fs::metadata(rt, name), fs::metadata(rt, other)) {
        (Ok(one), Ok(two)) => one.dev() == two.dev() && one.ino() == two.ino(),
        _ => false,
    }
}
