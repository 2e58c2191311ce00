// The heaviest line of a matrix, by the sums of its lines.
ghost use Rattle.std.specs.Prelude.{◌≡◌, ℕ, ◌<◌, ◌≤◌, List, length};
ghost use Rattle.bt_matrix.specs.Traffic.{IsHeaviest};
ghost use Rattle.bt_matrix.specs.Dense.{AreLineSums, IsFirstGreatest};

use bt_frame::{BeamNo, Critical, MOST_BEAMS};

/// The first line that has the greatest sum, rows before columns, and that sum, of a matrix whose rows and columns
/// have these sums. It has 1 to `MOST_BEAMS` beams.
pub fn heaviest_line(row_sums: &[u32], column_sums: &[u32]) -> (Critical, u32)
    requires square { length column_sums.now ≡ length row_sums.now }
    requires some { 0 < length row_sums.now }
    requires few { length row_sums.now ≤ MOST_BEAMS }
    ensures heaviest { (rows : List (List ℕ)) → AreLineSums rows row_sums.now column_sums.now
        → IsHeaviest rows result.0 result.1 }
{
    let (up, most_up) = first_greatest(row_sums);
    let (down, most_down) = first_greatest(column_sums);
    if most_up < most_down {
        (Critical::Column(BeamNo(down)), most_down)
    } else {
        (Critical::Row(BeamNo(up)), most_up)
    }
}

/// The greatest number, and the first place that has it.
fn first_greatest(numbers: &[u32]) -> (u8, u32)
    requires some { 0 < length numbers.now }
    requires few { length numbers.now ≤ MOST_BEAMS }
    ensures { IsFirstGreatest numbers.now result.0 result.1 }
{
    let mut place = 0;
    let mut most = numbers[0];
    for k in 1..numbers.len() {
        if most < numbers[k] {
            place = k as u8;
            most = numbers[k];
        }
    }
    (place, most)
}
