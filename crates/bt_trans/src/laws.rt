// What holds of allocations and verdicts whatever the program does.
ghost use Rattle.std.specs.Prelude.{◌≡◌, ℕ, ◌≤◌, List};
ghost use Rattle.bt_matrix.specs.Traffic.{IsTraffic};
ghost use Rattle.bt_trans.specs.Allocation.{Grant, IsAllocation};
ghost use Rattle.bt_trans.specs.Part.{IsGoodPart};
ghost use Rattle.bt_trans.specs.PartVerdict.{IsPartVerdict};
ghost use Rattle.bt_trans.specs.declared.part.PartSchedule.{PartSchedule};
ghost use Rattle.bt_trans.specs.declared.verdict.PartVerdict.{PartVerdict};

/// However slots are given out to a matrix with `k` connections at once at most, a good schedule takes no more slots.
pub fn no_allocation_is_shorter()
    ensures least { (rows : List (List ℕ)) (k slots : ℕ) (schedule : PartSchedule) (grants : List Grant) → IsTraffic rows
        → IsGoodPart rows k schedule → IsAllocation rows k slots grants → schedule.length ≤ slots }
{}

/// Some allocation of the matrix takes just as many slots as a good schedule: slot by slot, what the matrix still wants of
/// each connection that the slot's mode makes.
pub fn an_allocation_is_as_short()
    ensures exists { (rows : List (List ℕ)) (k : ℕ) (schedule : PartSchedule) → IsTraffic rows → IsGoodPart rows k schedule
        → (grants : List Grant) × IsAllocation rows k schedule.length grants }
{}

/// A schedule has at most one verdict for a matrix and a number of connections at once.
pub fn one_part_verdict()
    ensures same { (rows : List (List ℕ)) (k : ℕ) (schedule : PartSchedule) (a b : PartVerdict)
        → IsPartVerdict rows k schedule a → IsPartVerdict rows k schedule b → a ≡ b }
{}
