// Laws of matrices and schedules. Each holds of all of them, so that nothing runs.
ghost use Rattle.std.specs.Prelude.{◌≡◌, ℕ, ◌≤◌, List};
ghost use Rattle.bt_frame.specs.declared.schedule.Critical.{Critical};
ghost use Rattle.bt_frame.specs.declared.schedule.Schedule.{Schedule};
ghost use Rattle.bt_matrix.specs.Traffic.{IsTraffic, IsHeaviest};
ghost use Rattle.bt_matrix.specs.Good.{total_duration, HasPermutations, CarriesAll, IsGood};

/// A matrix has one heaviest line, and that has one sum.
pub fn one_line_is_heaviest()
    ensures line { (rows : List (List ℕ)) (a b : Critical) (m n : ℕ) → IsHeaviest rows a m → IsHeaviest rows b n → a ≡ b }
    ensures sum { (rows : List (List ℕ)) (a b : Critical) (m n : ℕ) → IsHeaviest rows a m → IsHeaviest rows b n → m ≡ n }
{}

/// Whatever modes carry a matrix, they last as long as a good schedule at least.
pub fn no_schedule_is_shorter()
    ensures least { (rows : List (List ℕ)) (schedule other : Schedule) → IsTraffic rows → IsGood rows schedule
        → HasPermutations rows other → CarriesAll rows other → schedule.length ≤ total_duration other.modes }
{}
