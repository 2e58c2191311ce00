// The search along augmenting paths: a row takes a column, and the row that had it moves to another.
ghost use Rattle.std.specs.Prelude.{◌≡◌, ℕ, ◌<◌, ◌≤◌, true, false, length, slice_index, IfSome, IfNone, Some};
ghost use Rattle.std.specs.Bool.{OnTrue, OnFalse};
ghost use Rattle.bt_modes.specs.Matching.{column_of};
ghost use Rattle.bt_modes.specs.Search.{
  IsMatching,
  AreHolders,
  is_visited,
  unvisited,
  StaysVisited,
  IsSpent,
  HasUnvisited,
  IsExplored,
  StaysMatched,
  MovesToUnvisited,
  IsFreeColumn,
  IsWithin,
};

use bt_frame::MOST_BEAMS;

/// The row that has the column.
fn holder(columns: &[Option<u8>], holders: &[u8; MOST_BEAMS], down: u8) -> Option<usize>
    requires down { down < MOST_BEAMS }
    requires holders { AreHolders columns.now holders.now }
    ensures inside { IfSome result (λ row. row < length columns.now) }
    ensures held { IfSome result (λ row. column_of columns.now row ≡ Some down) }
    ensures free { IfNone result (IsFreeColumn columns.now down) }
{
    let row = holders[down as usize] as usize;
    if row < columns.len() && columns[row] == Some(down) {
        Some(row)
    } else {
        None
    }
}

/// The column of most slots among those not visited, if that has more than `above`.
fn widest(slots: &[u32], visited: &[bool], above: u32) -> Option<u8>
    requires few { length visited.now ≤ MOST_BEAMS }
    requires each { length visited.now ≤ length slots.now }
    ensures some { IfSome result (λ down. (down < length visited.now) × (above < slice_index slots.now down) × (is_visited visited.now down ≡ false)) }
    ensures greatest { IfSome result (λ down. (other : ℕ) → other < length visited.now → is_visited visited.now other ≡ false
        → slice_index slots.now other ≤ slice_index slots.now down) }
    ensures none { IfNone result ((down : ℕ) → down < length visited.now → above < slice_index slots.now down → is_visited visited.now down ≡ true) }
{
    let mut widest = None;
    let mut most = above;
    for down in 0..visited.len() {
        if !visited[down] && most < slots[down] {
            most = slots[down];
            widest = Some(down as u8);
        }
    }
    widest
}

/// Seeks another column for the row among those not visited, at entries above a number, and moves other rows out of its way.
///
/// Columns of more slots come first: so modes last longer, and there are fewer of them.
#[cycle(augment)]
pub(crate) fn seek(
    table: &[[u32; MOST_BEAMS]],
    columns: &mut [Option<u8>],
    holders: &mut [u8; MOST_BEAMS],
    visited: &mut [bool],
    row: usize,
    above: u32,
) -> bool
    requires columns { length columns.old ≤ length table.now }
    requires within { IsWithin table.now (length columns.old) }
    requires few { length columns.old ≤ MOST_BEAMS }
    requires visited { length visited.old ≡ length columns.old }
    requires row { row < length columns.old }
    requires matching { IsMatching table.now columns.old }
    requires holders { AreHolders columns.old holders.old }
    ensures matching { IsMatching table.now columns.new }
    ensures holders { AreHolders columns.new holders.new }
    ensures stays { StaysMatched columns.old columns.new }
    ensures moves { MovesToUnvisited visited.old columns.old columns.new }
    ensures found { OnTrue result (HasUnvisited visited.old columns.new row) }

    ensures same { OnFalse result (columns.new ≡ columns.old) }
    ensures spent { OnFalse result (IsSpent above table.now visited.new row) }
    ensures explored { OnFalse result (IsExplored above table.now columns.old visited.old visited.new) }

    ensures visited { StaysVisited visited.old visited.new }
    ensures fewer { unvisited visited.new ≤ unvisited visited.old }
{
    while let Some(down) = widest(&table[row], visited, above) {
        if vacate(table, columns, holders, visited, down, above) {
            columns[row] = Some(down);
            holders[down as usize] = row as u8;
            return true;
        }
    }
    false
}

/// Visits the column, and moves the row that has it to another column.
///
/// Whether no row has the column now.
#[cycle(augment)]
fn vacate(
    table: &[[u32; MOST_BEAMS]],
    columns: &mut [Option<u8>],
    holders: &mut [u8; MOST_BEAMS],
    visited: &mut [bool],
    down: u8,
    above: u32,
) -> bool
    requires columns { length columns.old ≤ length table.now }
    requires within { IsWithin table.now (length columns.old) }
    requires few { length columns.old ≤ MOST_BEAMS }
    requires visited { length visited.old ≡ length columns.old }
    requires down { down < length columns.old }
    requires here { is_visited visited.old down ≡ false }
    requires matching { IsMatching table.now columns.old }
    requires holders { AreHolders columns.old holders.old }
    ensures matching { IsMatching table.now columns.new }
    ensures holders { AreHolders columns.new holders.new }
    ensures stays { StaysMatched columns.old columns.new }
    ensures moves { MovesToUnvisited visited.old columns.old columns.new }
    ensures free { OnTrue result (IsFreeColumn columns.new down) }

    ensures same { OnFalse result (columns.new ≡ columns.old) }
    ensures explored { OnFalse result (IsExplored above table.now columns.old visited.old visited.new) }

    ensures now { is_visited visited.new down ≡ true }
    ensures visited { StaysVisited visited.old visited.new }
    ensures fewer { unvisited visited.new < unvisited visited.old }
{
    visited[down as usize] = true;
    match holder(columns, holders, down) {
        Some(row) => seek(table, columns, holders, visited, row, above),
        None => true,
    }
}
