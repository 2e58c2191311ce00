// The log of the plans that were posted, of which the proofs alone know.
use bt_demand::Plan;
use logbook::{Gain, Plain, Play, Rule};

/// The rule of the log: its editions ascend, and its word holds the least edition that may follow.
pub struct PlanLog;

impl Rule<Plan, u64> for PlanLog {
    ghost use Rattle.std.specs.Prelude.{[]};
    ghost use base.Fml.{ftrue};
    ghost use Rattle.bt_shared.specs.Log.{IsKept};

    ghost holds = { λ cells log. IsKept cells log };

    ghost first = { [] };

    ghost hinted = { λ n log. Unit {0} };

    ghost shows = { λ log. [] };

    ghost keeps = { λ names log. ftrue };

    ghost moves = { λ ask before after answer. Unit {0} };
}

/// Callers trade nothing.
pub struct Nothing;

impl Gain<Plan, u64> for Nothing {
    ghost use base.Fml.{ftrue};

    ghost after = { λ names about answer. ftrue };
}

/// A step that adds a plan.
pub struct Add;

impl Play<Plan, u64> for Add {
    ghost use Rattle.bt_shared.specs.Log.{Adds};

    ghost then = { Adds };
}

/// What a step asks for: the plan.
impl Plain<Plan, Plan, u64> for Add {
    ghost use Rattle.std.specs.Prelude.{None};

    ghost ask = { λ plan. plan };

    ghost state = { λ plan. None };
}
