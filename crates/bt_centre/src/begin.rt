// The lines with which a time of a run begins.
ghost use Rattle.std.specs.Prelude.{◌≡◌, ◌++◌, OnOk};
ghost use Rattle.bt_centre.specs.Lines.{begin_lines};

use bt_book::Book;
use bt_frame::{EditionNo, Mark, OutOfMemory};
use bt_outside::Keeper;
use bt_timeline::{back_text, start_text};
use std::alloc::Global;

/// Appends the line of a start over a book, in this superframe, and that of the edition to which the centre goes back, if it does.
pub(crate) fn add_begin<K: Keeper>(
    alloc: Global,
    book: &Book<K>,
    mark: Mark,
    back: Option<EditionNo>,
    text: &mut Vec<u8>,
) -> Result<(), OutOfMemory>
    ensures added { OnOk result (text.new.items ≡ text.old.items ++ begin_lines book.now.state.changes mark back) }
{
    start_text(
        alloc,
        book.edition().0,
        book.newest().edition.0,
        mark.0,
        text,
    )?;
    match back {
        Some(edition) => back_text(alloc, edition, text),
        None => Ok(()),
    }
}
