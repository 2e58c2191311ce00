// The entries of a matrix, each positive one looked at once.
ghost use Rattle.std.specs.Prelude.{◌≡◌, ℕ, ◌+◌, ◌<◌, ◌≤◌, length, slice_index};
ghost use Rattle.bt_matrix.specs.Traffic.{entry, IsTraffic};
ghost use Rattle.bt_matrix.specs.Walk.{row_entries, positive_entries};
ghost use Rattle.bt_modes.specs.Search.{HasEntriesOf, HasNoEntry};

use bt_frame::{BeamNo, MOST_BEAMS, Steps};
use bt_matrix::Walk;
use std::sync::ledger::Ledger;

/// The most beams of a matrix that has a small table: a table is cleared for each mode.
pub(crate) const FEW_BEAMS: usize = 16;

/// Writes the entries of the matrix into an empty table, by row and column.
pub(crate) fn fill_table<M: Walk<L>, L: Ledger>(
    matrix: &M,
    table: &mut [[u32; MOST_BEAMS]],
    steps: &mut Steps<L>,
)
    requires long { length (M.rows matrix.now) ≤ length table.old }
    requires empty { HasNoEntry table.old }
    ensures traffic { IsTraffic (M.rows matrix.now) }
    ensures entries { HasEntriesOf table.new (M.rows matrix.now) }
    ensures looks { steps.new ≤ steps.old + positive_entries (M.rows matrix.now) }
{
    for row in 0..matrix.size() as usize {
        table[row] = slots_of_row(matrix, row, steps);
    }
}

/// The slots of each connection of the row, at the place of its column. Each positive entry is looked at once.
///
/// They stand in an array of its own until the row ends: a walk that writes into the table would look for the nodes of
/// the matrix anew at each entry.
fn slots_of_row<M: Walk<L>, L: Ledger>(
    matrix: &M,
    row: usize,
    steps: &mut Steps<L>,
) -> [u32; MOST_BEAMS]
    requires row { row < length (M.rows matrix.now) }
    requires few { length (M.rows matrix.now) ≤ MOST_BEAMS }
    ensures slots { (down : ℕ) → slice_index result down ≡ entry (M.rows matrix.now) row down }
    ensures inside { (down : ℕ) → 0 < entry (M.rows matrix.now) row down → down < length (M.rows matrix.now) }
    ensures looks { steps.new ≤ steps.old + row_entries (M.rows matrix.now) row }
{
    let up = BeamNo(row as u8);
    let mut slots = [0; MOST_BEAMS];
    let mut next = matrix.first(up, steps);
    while let Some((down, units)) = next {
        slots[down.0 as usize] = units;
        next = matrix.after(up, down, steps);
    }
    slots
}
