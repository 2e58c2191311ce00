// The least length of a schedule with so many connections at once at most: the greater of the greatest line sum, and of the
// total shared among the connections.
ghost use Rattle.std.specs.Prelude.{◌≡◌, ◌*◌, ◌≤◌, ◌↔◌, IsTrue, MatchOption, length};
ghost use Rattle.bt_frame.specs.declared.limits.TheConstants.{MOST_SUM};
ghost use Rattle.bt_matrix.specs.Traffic.{line_sum, IsLine};
ghost use Rattle.bt_trans.specs.Part.{total_slots, IsLeastLength, IsNamed, IsReached};
ghost use Rattle.bt_trans.specs.PartVerdict.{IsLeast};

use crate::{Bound, PartSchedule};
use bt_frame::{BeamNo, Critical, MOST_BEAMS, MOST_SUM};
use bt_matrix::{Dense, Traffic};

/// All entries of the matrix together, in slots.
pub(crate) fn total_of(matrix: &Dense) -> u32
    ensures total { result ≡ total_slots matrix.now }
    ensures limit { result ≤ MOST_BEAMS * MOST_SUM }
{
    let mut total = 0;
    for up in 0..matrix.size() as u8 {
        total += matrix.row_sum(BeamNo(up));
    }
    total
}

/// The least length, and what asks for it: the heaviest line where its sum is the length, else the total.
pub(crate) fn least_length(matrix: &Dense, k: u32) -> (u32, Bound)
    requires some { 1 ≤ k }
    ensures least { IsLeastLength matrix.now k result.0 result.1 }
    ensures named { IsNamed matrix.now result.0 result.1 }
    ensures limit { total_slots matrix.now ≤ MOST_SUM → result.0 ≤ MOST_SUM }
{
    // This is there for what holds of each matrix: no line passes `MOST_SUM`.
    let _size = matrix.size();
    let (line, most) = matrix.heaviest();
    let share = total_of(matrix).div_ceil(k);
    if share <= most {
        (most, Bound::Line(line))
    } else {
        (share, Bound::Total)
    }
}

/// The least length, unless a schedule has it and its bound reaches it.
pub(crate) fn least_unless_reached(matrix: &Dense, k: u32, schedule: &PartSchedule) -> Option<u32>
    requires some { 1 ≤ k }
    ensures { MatchOption result
        (IsLeastLength matrix.now k schedule.now.length schedule.now.bound)
        (λ least. ¬ (IsLeastLength matrix.now k schedule.now.length schedule.now.bound) × IsLeast matrix.now k least) }
{
    let (least, _) = least_length(matrix, k);
    if schedule.length == least && is_reached(matrix, k, schedule.length, schedule.bound) {
        None
    } else {
        Some(least)
    }
}

/// Does the bound ask for so many slots?
fn is_reached(matrix: &Dense, k: u32, slots: u32, bound: Bound) -> bool
    requires some { 1 ≤ k }
    ensures { IsTrue result ↔ IsReached matrix.now k slots bound }
{
    match bound {
        Bound::Line(line) => is_line(matrix, line) && line_sum_of(matrix, line) == slots,
        Bound::Total => total_of(matrix).div_ceil(k) == slots,
    }
}

/// Is the line one of the matrix?
fn is_line(matrix: &Dense, line: Critical) -> bool
    ensures { IsTrue result ↔ IsLine matrix.now line }
{
    let size = matrix.size();
    match line {
        Critical::Row(up) => u32::from(up.0) < size,
        Critical::Column(down) => u32::from(down.0) < size,
    }
}

/// The slots of a line of the matrix.
fn line_sum_of(matrix: &Dense, line: Critical) -> u32
    requires { IsLine matrix.now line }
    ensures { result ≡ line_sum matrix.now line }
{
    match line {
        Critical::Row(up) => matrix.row_sum(up),
        Critical::Column(down) => matrix.column_sum(down),
    }
}
