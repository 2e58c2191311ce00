// The matrix of two beams that send each other three slots, taken apart on a counter.
ghost use Rattle.std.specs.Prelude.{◌≡◌, ◌+◌, ◌<◌, ◌≤◌, length};
ghost use Rattle.bt_matrix.specs.Walk.{positive_entries};

use crate::texts::matrix_from;
use bt_frame::{Mode, OutOfMemory, Steps};
use bt_matrix::Crosslinked;
use bt_modes::{Padded, decompose, pad};
use bt_sheet::{CaseFault, Result};
use std::alloc::Global;
use std::sync::ledger::{Blank, Ledger};

/// Appends the modes of the matrix, each with its slots and its downlinks.
pub fn put_crossed<L: Ledger>(alloc: Global, blank: Blank, out: &mut String) -> Result<()>
    requires name { blank.name ≡ L.name }
    requires parts { blank.parts ≡ L.parts }
    requires some { 0 < blank.parts }
{
    let matrix = matrix_from(alloc, b"2\n0 3\n3 0\n")?;
    let Ok(matrix) = Crosslinked::of(alloc, &matrix) else {
        return Err(CaseFault("out of memory"));
    };
    let Ok(padded) = pad(alloc, matrix) else {
        return Err(CaseFault("out of memory"));
    };
    let Ok(modes) = small_modes(alloc, padded, &mut Steps::<L>::open(blank)) else {
        return Err(CaseFault("out of memory"));
    };
    for mode in &modes {
        write!(out, ">{} {:?}\n", mode.duration, mode.perm.as_slice())?;
    }
    Ok(())
}

/// The modes of a padded matrix. For two positive entries of two beams eight looks are enough.
fn small_modes<L: Ledger>(
    alloc: Global,
    padded: Padded<Crosslinked>,
    steps: &mut Steps<L>,
) -> Result<Vec<Mode>, OutOfMemory>
    ensures looks { length padded.matrix.rows ≡ 2 → positive_entries padded.matrix.rows ≡ 2 → steps.new ≤ steps.old + 8 }
{
    decompose(alloc, padded, steps)
}
