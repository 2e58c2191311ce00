// The schedule of the least length with so many connections at once at most.
ghost use Rattle.std.specs.Prelude.{◌+◌, ◌≤◌, length, IfOk};
ghost use Rattle.bt_trans.specs.Part.{total_slots, HasFewPartModes, IsGoodPart, IsNamed};

use crate::border::bordered;
use crate::clipping::clipped;
use crate::least::{least_length, total_of};
use crate::{PartModes, PartSchedule};
use bt_frame::{MOST_BEAMS, MOST_SUM, OutOfMemory};
use bt_matrix::{Dense, Traffic};
use bt_modes::modes_of;
use std::alloc::Global;

/// A schedule with `k` connections at once at most, than which none is shorter.
///
/// Its bound is the heaviest line where that has as many slots as the schedule, else the total. The matrix has beams and
/// connections so that it and `k` fewer lines than it has beams are no more than `MOST_BEAMS` in all; a schedule has no more modes
/// than a matrix of so many lines has entries.
pub fn part_schedule(alloc: Global, matrix: &Dense, k: u32) -> Result<PartSchedule, OutOfMemory>
    requires some { 1 ≤ k }
    requires most { k ≤ length matrix.now }
    requires few { length matrix.now + length matrix.now ≤ MOST_BEAMS + k }
    requires total { total_slots matrix.now ≤ MOST_SUM }
    ensures good { IfOk result (λ schedule. IsGoodPart matrix.now k schedule) }
    ensures named { IfOk result (λ schedule. IsNamed matrix.now schedule.length schedule.bound) }
    ensures few_modes { IfOk result (λ schedule. HasFewPartModes matrix.now k schedule) }
{
    let size = matrix.size() as usize;
    let (length, bound) = least_length(matrix, k);
    let padded = bordered(alloc, matrix, k, length, k * length - total_of(matrix))?;
    // This is there for what holds of each matrix: it is square.
    let _lines = padded.matrix.size();
    let modes = modes_of(alloc, padded)?;
    let parts = clipped(alloc, modes.as_slice(), size)?;
    Ok(PartSchedule {
        length,
        bound,
        modes: PartModes::of(parts),
    })
}
