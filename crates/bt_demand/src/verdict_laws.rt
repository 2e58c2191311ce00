// What holds of verdicts whatever the program does.
ghost use Rattle.std.specs.Prelude.{◌≡◌, ℕ, List};
ghost use Rattle.bt_frame.specs.declared.schedule.Schedule.{Schedule};
ghost use Rattle.bt_demand.specs.declared.verdict.Verdict.{Verdict};
ghost use Rattle.bt_demand.specs.Verdict.{IsVerdict};

/// A schedule has at most one verdict for a matrix.
pub fn one_verdict()
    ensures same { (rows : List (List ℕ)) (schedule : Schedule) (a b : Verdict)
        → IsVerdict rows schedule a → IsVerdict rows schedule b → a ≡ b }
{}
