// A matrix raised within a length, and new lines beside it, so that every line has that length.
//
// What each row still wants is a piece of a line, all pieces one behind the other, and so is what each column wants. Both
// lines of pieces are equally long. Their first `inner` slots go to the old part, and each further length to one new line.
// An entry gains what the pieces of its row and of its column have in common.
//
// Of 2 beams with one unit for each connection, and one connection at once, the length is 4. Each line wants 2, of which
// none goes to the old part, so that one new row and one new column take all:
//
//     1 1 | 2
//     1 1 | 2
//     ----+--
//     2 2 | 0
ghost use Rattle.std.specs.Prelude.{◌≡◌, ℕ, ◌+◌, ◌-◌, ◌*◌, ◌<◌, ◌≤◌, length, map, slice_index, IfOk};
ghost use Rattle.std.specs.List.{range_with_len};
ghost use Rattle.bt_matrix.specs.Traffic.{entry};
ghost use Rattle.bt_modes.specs.Padding.{HasLinesWithin};
ghost use Rattle.bt_trans.specs.Part.{total_slots};
ghost use Rattle.bt_trans.specs.Border.{bordered_cut, bordered_rows, cell_of, column_wants, cut, overlap, row_wants, HasCuts, IsBordered};

use bt_frame::{BeamNo, MOST_BEAMS, MOST_SUM, OutOfMemory};
use bt_matrix::{Crosslinked, Dense, Traffic};
use bt_modes::Padded;
use std::alloc::Global;

/// A place for where the piece of each line begins, and for where the last one ends.
const CUTS: usize = MOST_BEAMS + 1;

/// The most slots of all pieces together.
const MOST_WANTED: u32 = MOST_BEAMS as u32 * MOST_SUM;

/// A matrix whose old part is the matrix, raised by `inner` slots within the length, and with nothing where a new row meets a
/// new column.
pub(crate) fn bordered(
    alloc: Global,
    matrix: &Dense,
    k: u32,
    sum: u32,
    inner: u32,
) -> Result<Padded<Crosslinked>, OutOfMemory>
    requires some { 1 ≤ k }
    requires most { k ≤ length matrix.now }
    requires few { length matrix.now + length matrix.now ≤ MOST_BEAMS + k }
    requires within { HasLinesWithin matrix.now sum }
    requires limit { sum ≤ MOST_SUM }
    requires inner { inner + total_slots matrix.now ≡ k * sum }
    ensures bordered { IfOk result (λ padded. IsBordered matrix.now padded.matrix.rows k padded.sum) }
    ensures sum { IfOk result (λ padded. padded.sum ≡ sum) }
{
    let size = matrix.size() as usize;
    let cuts = cuts_of(matrix, inner, sum);
    let rows = Dense::of(cells(alloc, matrix, &cuts, 2 * size - k as usize)?);
    let matrix = Crosslinked::of(alloc, &rows)?;
    Ok(Padded { matrix, sum })
}

/// Where the pieces of the old rows and of the old columns begin, one behind the other.
#[derive(Drop)]
pub(crate) struct Cuts {
    rows: [u32; CUTS],
    columns: [u32; CUTS],
    /// So many slots of the pieces go to the old part.
    inner: u32,
    /// Slots of each line, and so of what each new line takes.
    sum: u32,
}

/// The pieces of what the lines of a matrix want up to a sum.
fn cuts_of(matrix: &Dense, inner: u32, sum: u32) -> Cuts
    requires within { HasLinesWithin matrix.now sum }
    requires limit { sum ≤ MOST_SUM }
    requires inner { inner ≤ MOST_WANTED }
    ensures cuts { HasCuts matrix.now result }
    ensures inner { result.inner ≡ inner }
    ensures sum { result.sum ≡ sum }
{
    Cuts {
        rows: row_cuts(matrix, sum),
        columns: column_cuts(matrix, sum),
        inner,
        sum,
    }
}

/// Where the piece of each row begins, all of them one behind the other.
fn row_cuts(matrix: &Dense, sum: u32) -> [u32; CUTS]
    requires within { HasLinesWithin matrix.now sum }
    requires limit { sum ≤ MOST_SUM }
    ensures { (up : ℕ) → up ≤ length matrix.now → slice_index result up ≡ cut (row_wants matrix.now sum) up }
{
    let mut cuts = [0; CUTS];
    for up in 0..matrix.size() as u8 {
        cuts[up as usize + 1] = cuts[up as usize] + (sum - matrix.row_sum(BeamNo(up)));
    }
    cuts
}

/// Where the piece of each column begins, all of them one behind the other.
fn column_cuts(matrix: &Dense, sum: u32) -> [u32; CUTS]
    requires within { HasLinesWithin matrix.now sum }
    requires limit { sum ≤ MOST_SUM }
    ensures { (down : ℕ) → down ≤ length matrix.now
        → slice_index result down ≡ cut (column_wants matrix.now sum) down }
{
    let mut cuts = [0; CUTS];
    for down in 0..matrix.size() as u8 {
        cuts[down as usize + 1] = cuts[down as usize] + (sum - matrix.column_sum(BeamNo(down)));
    }
    cuts
}

/// The bordered matrix with so many lines, row by row.
fn cells(
    alloc: Global,
    matrix: &Dense,
    cuts: &Cuts,
    lines: usize,
) -> Result<Vec<Vec<u32>>, OutOfMemory>
    requires cuts { HasCuts matrix.now cuts.now }
    requires lines { lines ≤ MOST_BEAMS }
    ensures { IfOk result (λ rows. map (λ row. row.items) rows.items ≡ bordered_rows matrix.now cuts.now.inner cuts.now.sum lines) }
{
    let mut rows = Vec::with_capacity(alloc, lines)?;
    for up in 0..lines {
        rows.push(cell_row(alloc, matrix, cuts, up, lines)?)?;
    }
    Ok(rows)
}

/// One row of the bordered matrix with so many lines.
fn cell_row(
    alloc: Global,
    matrix: &Dense,
    cuts: &Cuts,
    up: usize,
    lines: usize,
) -> Result<Vec<u32>, OutOfMemory>
    requires cuts { HasCuts matrix.now cuts.now }
    requires up { up < MOST_BEAMS }
    requires lines { lines ≤ MOST_BEAMS }
    ensures { IfOk result (λ row. row.items ≡ map (cell_of matrix.now cuts.now.inner cuts.now.sum up) (range_with_len 0 lines)) }
{
    let mut row = Vec::with_capacity(alloc, lines)?;
    for down in 0..lines {
        row.push(cell(matrix, cuts, up, down))?;
    }
    Ok(row)
}

/// One entry of the bordered matrix.
fn cell(matrix: &Dense, cuts: &Cuts, up: usize, down: usize) -> u32
    requires cuts { HasCuts matrix.now cuts.now }
    requires up { up < MOST_BEAMS }
    requires down { down < MOST_BEAMS }
    ensures { result ≡ cell_of matrix.now cuts.now.inner cuts.now.sum up down }
{
    let size = matrix.size() as usize;
    if up < size {
        let begin = line_cut(&cuts.columns, size, cuts.inner, cuts.sum, down);
        let end = line_cut(&cuts.columns, size, cuts.inner, cuts.sum, down + 1);
        entry_or_none(matrix, up, down) + common(cuts.rows[up], cuts.rows[up + 1], begin, end)
    } else if down < size {
        let begin = line_cut(&cuts.rows, size, cuts.inner, cuts.sum, up);
        let end = line_cut(&cuts.rows, size, cuts.inner, cuts.sum, up + 1);
        common(cuts.columns[down], cuts.columns[down + 1], begin, end)
    } else {
        0
    }
}

/// The entry of an old row; nothing in a new column.
fn entry_or_none(matrix: &Dense, up: usize, down: usize) -> u32
    requires { up < length matrix.now }
    ensures { result ≡ entry matrix.now up down }
{
    if down < matrix.size() as usize {
        matrix.get(BeamNo(up as u8), BeamNo(down as u8))
    } else {
        0
    }
}

/// What two pieces have in common.
fn common(from: u32, to: u32, begin: u32, end: u32) -> u32
    ensures { result ≡ overlap from to begin end }
{
    to.min(end).saturating_sub(from.max(begin))
}

/// Where the piece of a line of the bordered matrix begins, by the cuts of the old lines.
fn line_cut(cuts: &[u32; CUTS], size: usize, inner: u32, sum: u32, line: usize) -> u32
    requires size { size ≤ MOST_BEAMS }
    requires line { line ≤ MOST_BEAMS }
    requires limit { sum ≤ MOST_SUM }
    requires inner { inner ≤ MOST_WANTED }
    ensures { (wants : ℕ → ℕ) → ((i : ℕ) → i ≤ size → slice_index cuts.now i ≡ cut wants i)
        → result ≡ bordered_cut size inner sum wants line }
{
    let old = cuts[line.min(size)].min(inner);
    old + line.saturating_sub(size) as u32 * sum
}
