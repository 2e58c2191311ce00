// A matrix of linked nodes with the entries of one kept in whole.
ghost use Rattle.std.specs.Prelude.{◌≡◌, ◌+◌, ◌<◌, ◌≤◌, length, IfOk};
ghost use Rattle.bt_matrix.specs.Copy.{IsCopied};

use crate::{Crosslinked, Dense, Traffic};
use bt_frame::{BeamNo, OutOfMemory};
use std::alloc::Global;

impl Crosslinked {
    /// The same matrix as linked nodes.
    pub fn of(alloc: Global, matrix: &Dense) -> Result<Crosslinked, OutOfMemory>
        ensures same { IfOk result (λ copy. copy.rows ≡ matrix.now) }
    {
        let size = matrix.size();
        let mut copy = Crosslinked::new(alloc, size)?;
        copy.reserve(alloc, size * size)?;
        for up in 0..size as u8 {
            copy_row(matrix, BeamNo(up), &mut copy);
        }
        // This is there for what holds of each matrix.
        let _same = copy.size();
        Ok(copy)
    }
}

/// Copies one row.
fn copy_row(matrix: &Dense, up: BeamNo, copy: &mut Crosslinked)
    requires row { up.0 < length matrix.now }
    requires so_far { IsCopied matrix.now copy.old.rows up.0 0 }
    requires room { length matrix.now ≤ copy.old.room }
    ensures so_far { IsCopied matrix.now copy.new.rows (up.0 + 1) 0 }
    ensures room { copy.old.room ≤ copy.new.room + length matrix.now }
{
    for down in 0..matrix.size() as u8 {
        copy_entry(matrix, up, BeamNo(down), copy);
    }
}

/// Copies one entry.
fn copy_entry(matrix: &Dense, up: BeamNo, down: BeamNo, copy: &mut Crosslinked)
    requires row { up.0 < length matrix.now }
    requires column { down.0 < length matrix.now }
    requires so_far { IsCopied matrix.now copy.old.rows up.0 down.0 }
    requires room { 1 ≤ copy.old.room }
    ensures so_far { IsCopied matrix.now copy.new.rows up.0 (down.0 + 1) }
    ensures room { copy.old.room ≤ copy.new.room + 1 }
{
    // These are there for what holds of each matrix.
    let (_size, _same) = (matrix.size(), copy.size());
    let units = matrix.get(up, down);
    if 0 < units {
        copy.add(up, down, units);
    }
}
