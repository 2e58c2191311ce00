// Is a switching schedule good for a matrix, and what is wrong with it first?
ghost use Rattle.bt_matrix.specs.Traffic.{IsLine};
ghost use Rattle.bt_demand.specs.Verdict.{IsVerdict};

use crate::Verdict;
use crate::length_faults::heavier_in_matrix;
use crate::mode_faults::{duration_sum, first_bad, first_empty};
use crate::shortages::first_short;
use bt_frame::Schedule;
use bt_matrix::{Dense, Traffic};

/// What is wrong first with a schedule for that matrix, or that it is good.
///
/// It looks twice at each beam of each mode, for its permutation and for its slots, and once at each entry of the
/// matrix. It takes no memory.
pub fn check_modes(matrix: &Dense, schedule: &Schedule) -> Verdict
    requires line { IsLine matrix.now schedule.now.critical }
    ensures verdict { IsVerdict matrix.now schedule.now result }
{
    verdict_on(matrix, schedule)
}

/// The verdict on a schedule for a matrix of whatever kind.
fn verdict_on<M: Traffic>(matrix: &M, schedule: &Schedule) -> Verdict
    requires { IsLine (M.rows matrix.now) schedule.now.critical }
    ensures { IsVerdict (M.rows matrix.now) schedule.now result }
{
    if let Some(mode) = first_bad(&schedule.modes, matrix.size()) {
        return Verdict::V1 { mode };
    }
    if let Some(mode) = first_empty(&schedule.modes) {
        return Verdict::V2 { mode };
    }
    let sum = duration_sum(&schedule.modes);
    let length = schedule.length;
    if sum != u64::from(length) {
        return Verdict::V3 { sum, length };
    }
    if let Some((critical, sum)) = heavier_in_matrix(matrix, schedule) {
        let sum = u64::from(sum);
        return Verdict::V4 { critical, sum };
    }
    match first_short(matrix, schedule) {
        Some(short) => short.verdict(),
        None => Verdict::Good,
    }
}
