// Is a schedule for so many connections at once good for a matrix, and what is wrong with it first?
ghost use Rattle.std.specs.Prelude.{◌≤◌};
ghost use Rattle.bt_trans.specs.PartVerdict.{IsPartVerdict};

use crate::least::least_unless_reached;
use crate::mode_faults::{duration_sum, first_bad, first_crowded, first_empty};
use crate::shortages::first_short;
use crate::{PartSchedule, PartVerdict};
use bt_matrix::{Dense, Traffic};

/// What is wrong first with a schedule for that matrix with `k` connections at once at most, or that it is good.
///
/// It takes no memory.
pub fn check_part(matrix: &Dense, k: u32, schedule: &PartSchedule) -> PartVerdict
    requires some { 1 ≤ k }
    ensures verdict { IsPartVerdict matrix.now k schedule.now result }
{
    if let Some(mode) = first_bad(&schedule.modes, matrix.size()) {
        return PartVerdict::Q1 { mode };
    }
    if let Some(mode) = first_crowded(&schedule.modes, k) {
        return PartVerdict::Q2 { mode };
    }
    if let Some(mode) = first_empty(&schedule.modes) {
        return PartVerdict::Q3 { mode };
    }
    let sum = duration_sum(&schedule.modes);
    let length = schedule.length;
    if sum != u64::from(length) {
        return PartVerdict::Q4 { sum, length };
    }
    if let Some(least) = least_unless_reached(matrix, k, schedule) {
        let least = u64::from(least);
        return PartVerdict::Q5 { least };
    }
    match first_short(matrix, schedule) {
        Some(short) => short.verdict(),
        None => PartVerdict::Good,
    }
}
