// A permutation inside the positive entries of a matrix whose line sums are equal and positive.
ghost use Rattle.std.specs.Prelude.{◌≡◌, ℕ, ◌+◌, ◌*◌, ◌<◌, ◌≤◌, length, IsSome, IsOk, IfOk, Some};
ghost use Rattle.std.specs.Bool.{OnTrue, OnFalse};
ghost use Rattle.bt_matrix.specs.Good.{IsPermutation};
ghost use Rattle.bt_matrix.specs.Traffic.{entry};
ghost use Rattle.bt_matrix.specs.Walk.{positive_entries};
ghost use Rattle.bt_modes.specs.Matching.{column_of, free_rows, HasEqualLineSums, HasSupport, IsPartial, IsWhole, IsInside, IsInsidePerm};
ghost use Rattle.bt_modes.specs.Search.{IsMatching, StaysMatched, AreHolders, HasNoEntry, IsWithin};

use crate::augmenting::seek;
use crate::partial::Partial;
use crate::perm::Perm;
use crate::table::{FEW_BEAMS, fill_table};
use bt_frame::{MOST_BEAMS, OutOfMemory, Steps};
use bt_matrix::Walk;
use std::alloc::Global;
use std::sync::ledger::Ledger;

/// A permutation inside the positive entries of a matrix whose line sums are all equal and positive.
///
/// There always is one, by Hall's condition (König 1916, Hall 1935). Where a row has no column in `begin`, each
/// positive entry is looked at once, the rows without a column get one along augmenting paths, and then rows move to
/// columns of more slots as long as the least entry grows. All is kept in arrays: no memory is taken.
pub fn perfect<M: Walk<L>, L: Ledger>(
    _alloc: Global,
    matrix: &M,
    begin: Partial,
    steps: &mut Steps<L>,
) -> Result<Perm, OutOfMemory>
    requires equal { HasEqualLineSums (M.rows matrix.now) }
    requires size { length begin ≡ length (M.rows matrix.now) }
    requires inside { IsInside (M.rows matrix.now) begin }
    ensures permutation { IfOk result (λ perm. IsPermutation (length (M.rows matrix.now)) perm) }
    ensures inside { IfOk result (λ perm. IsInsidePerm (M.rows matrix.now) perm) }
    ensures ok { IsOk result }
    ensures looks { steps.new ≤ steps.old + positive_entries (M.rows matrix.now) * free_rows begin }
{
    Ok(begin.complete(matrix, steps))
}

/// Gives every row a column.
///
/// Where a row has none the entries are read once, and the rows are then moved to columns of more slots.
pub(crate) fn match_rows<M: Walk<L>, L: Ledger>(
    matrix: &M,
    columns: &mut [Option<u8>],
    steps: &mut Steps<L>,
)
    requires equal { HasEqualLineSums (M.rows matrix.now) }
    requires size { length columns.old ≡ length (M.rows matrix.now) }
    requires partial { IsPartial columns.old }
    requires inside { IsInside (M.rows matrix.now) columns.old }
    ensures matching { IsMatching (M.rows matrix.now) columns.new }
    ensures partial { IsPartial columns.new }
    ensures whole { IsWhole columns.new }
    ensures looks { steps.new ≤ steps.old + positive_entries (M.rows matrix.now) * free_rows columns.old }
{
    if has_free_row(columns) {
        if columns.len() <= FEW_BEAMS {
            let mut table = [[0; MOST_BEAMS]; FEW_BEAMS];
            match_by_table(matrix, &mut table, columns, steps);
        } else {
            let mut table = [[0; MOST_BEAMS]; MOST_BEAMS];
            match_by_table(matrix, &mut table, columns, steps);
        }
    }
}

/// Gives every row a column, by a table that has a row for each and is empty.
fn match_by_table<M: Walk<L>, L: Ledger>(
    matrix: &M,
    table: &mut [[u32; MOST_BEAMS]],
    columns: &mut [Option<u8>],
    steps: &mut Steps<L>,
)
    requires equal { HasEqualLineSums (M.rows matrix.now) }
    requires size { length columns.old ≡ length (M.rows matrix.now) }
    requires long { length columns.old ≤ length table.old }
    requires empty { HasNoEntry table.old }
    requires partial { IsPartial columns.old }
    requires inside { IsInside (M.rows matrix.now) columns.old }
    ensures size { length columns.new ≡ length columns.old }
    ensures matching { IsMatching (M.rows matrix.now) columns.new }
    ensures partial { IsPartial columns.new }
    ensures whole { IsWhole columns.new }
    ensures looks { steps.new ≤ steps.old + positive_entries (M.rows matrix.now) }
{
    fill_table(matrix, table, steps);
    match_free_rows(table, columns);
    widen_rows(table, columns);
}

/// Some row has no column.
fn has_free_row(columns: &[Option<u8>]) -> bool
    ensures some { OnTrue result (1 ≤ free_rows columns.now) }
    ensures none { OnFalse result (IsWhole columns.now) }
{
    for column in columns {
        if column.is_none() {
            return true;
        }
    }
    false
}

/// Gives every row a column, by the table.
pub(crate) fn match_free_rows(table: &[[u32; MOST_BEAMS]], columns: &mut [Option<u8>])
    requires support { HasSupport table.now (length columns.old) }
    requires long { length columns.old ≤ length table.now }
    requires within { IsWithin table.now (length columns.old) }
    requires partial { IsPartial columns.old }
    requires matching { IsMatching table.now columns.old }
    ensures size { length columns.new ≡ length columns.old }
    ensures matching { IsMatching table.now columns.new }
    ensures partial { IsPartial columns.new }
    ensures whole { IsWhole columns.new }
{
    let mut holders = holders_of(columns);
    for row in 0..columns.len() {
        match_row(table, columns, &mut holders, row);
    }
}

/// The row of each column that a row has, at the place of the column.
fn holders_of(columns: &[Option<u8>]) -> [u8; MOST_BEAMS]
    requires { IsPartial columns.now }
    ensures { AreHolders columns.now result }
{
    let mut holders = [0; MOST_BEAMS];
    for (row, column) in columns.iter().enumerate() {
        if let Some(down) = *column {
            holders[down as usize] = row as u8;
        }
    }
    holders
}

/// Gives the row a column, if it has none. The search for it cannot fail.
fn match_row(
    table: &[[u32; MOST_BEAMS]],
    columns: &mut [Option<u8>],
    holders: &mut [u8; MOST_BEAMS],
    row: usize,
)
    requires support { HasSupport table.now (length columns.old) }
    requires long { length columns.old ≤ length table.now }
    requires within { IsWithin table.now (length columns.old) }
    requires few { length columns.old ≤ MOST_BEAMS }
    requires row { row < length columns.old }
    requires matching { IsMatching table.now columns.old }
    requires holders { AreHolders columns.old holders.old }
    ensures matching { IsMatching table.now columns.new }
    ensures holders { AreHolders columns.new holders.new }
    ensures stays { StaysMatched columns.old columns.new }
    ensures found { IsSome (column_of columns.new row) }
{
    if columns[row].is_none() {
        let mut visited = [false; MOST_BEAMS];
        let visited = &mut visited[..columns.len()];
        let found = seek(table, columns, holders, visited, row, 0);
        prove!(found);
    }
}

/// Moves rows to columns of more slots, as long as the row of fewest slots can be moved.
pub(crate) fn widen_rows(table: &[[u32; MOST_BEAMS]], columns: &mut [Option<u8>])
    requires long { length columns.old ≤ length table.now }
    requires within { IsWithin table.now (length columns.old) }
    requires matching { IsMatching table.now columns.old }
    requires partial { IsPartial columns.old }
    requires whole { IsWhole columns.old }
    ensures size { length columns.new ≡ length columns.old }
    ensures matching { IsMatching table.now columns.new }
    ensures partial { IsPartial columns.new }
    ensures whole { IsWhole columns.new }
{
    for _ in 0..MOST_BEAMS * MOST_BEAMS {
        if !widen(table, columns) {
            return;
        }
    }
}

/// Moves the row of fewest slots to a column of more, if it can be done by moving others to columns of more.
fn widen(table: &[[u32; MOST_BEAMS]], columns: &mut [Option<u8>]) -> bool
    requires long { length columns.old ≤ length table.now }
    requires within { IsWithin table.now (length columns.old) }
    requires matching { IsMatching table.now columns.old }
    requires partial { IsPartial columns.old }
    requires whole { IsWhole columns.old }
    ensures size { length columns.new ≡ length columns.old }
    ensures matching { IsMatching table.now columns.new }
    ensures partial { IsPartial columns.new }
    ensures whole { IsWhole columns.new }
{
    let (row, least) = narrowest(table, columns);
    let kept = columns[row];
    columns[row] = None;
    let mut holders = holders_of(columns);
    let mut visited = [false; MOST_BEAMS];
    let visited = &mut visited[..columns.len()];
    let found = seek(table, columns, &mut holders, visited, row, least);
    if !found {
        columns[row] = kept;
    }
    found
}

/// The row whose connection has the fewest slots, and these.
fn narrowest(table: &[[u32; MOST_BEAMS]], columns: &[Option<u8>]) -> (usize, u32)
    requires long { length columns.now ≤ length table.now }
    requires partial { IsPartial columns.now }
    requires whole { IsWhole columns.now }
    ensures row { result.0 < length columns.now }
    ensures reached { (down : ℕ) → column_of columns.now result.0 ≡ Some down → entry table.now result.0 down ≡ result.1 }
    ensures fewest { (row down : ℕ) → row < length columns.now → column_of columns.now row ≡ Some down
        → result.1 ≤ entry table.now row down }
{
    let mut narrowest = 0;
    let mut least = slots_of(table, columns, 0);
    for row in 1..columns.len() {
        let slots = slots_of(table, columns, row);
        if slots < least {
            narrowest = row;
            least = slots;
        }
    }
    (narrowest, least)
}

/// The slots of the connection of a row.
fn slots_of(table: &[[u32; MOST_BEAMS]], columns: &[Option<u8>], row: usize) -> u32
    requires long { length columns.now ≤ length table.now }
    requires partial { IsPartial columns.now }
    requires whole { IsWhole columns.now }
    requires row { row < length columns.now }
    ensures { (down : ℕ) → column_of columns.now row ≡ Some down → entry table.now row down ≡ result }
{
    let down = columns[row].unwrap();
    table[row][down as usize]
}
