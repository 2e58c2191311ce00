// A plan as it is on the board.
ghost use Rattle.std.specs.Prelude.{◌≡◌, IfOk};
ghost use Rattle.bt_demand.specs.Apart.{bursts_from};

use crate::sent_bursts::SentBursts;
use bt_demand::{Burst, Plan};
use bt_frame::{OutOfMemory, TermNo};
use std::alloc::Global;
use std::marker::Model;

/// A plan, and beside it its bursts once more, by the terminal that sends. Contracts see it as the plan.
#[derive(Drop)]
pub struct PostedPlan {
    plan: Plan,
    sent: SentBursts,
}

impl Model for PostedPlan {
    ghost use Rattle.std.specs.Prelude.{◌≡◌};
    ghost use Rattle.bt_frame.specs.declared.numbers.TermNo.{TermNo};
    ghost use Rattle.bt_demand.specs.declared.plan.Plan.{Plan};
    ghost use Rattle.bt_demand.specs.Apart.{bursts_from};

    ghost Value = { Plan };

    ghost view = { λ a. a.plan };

    ghost invariant = { λ a. (terminal : TermNo) → bursts_from terminal a.sent ≡ bursts_from terminal a.plan.bursts };
}

impl PostedPlan {
    /// The plan, with a copy of its bursts that is sorted by the terminal that sends.
    pub fn of(alloc: Global, plan: Plan) -> Result<PostedPlan, OutOfMemory>
        ensures same { IfOk result (λ posted. posted ≡ plan) }
    {
        let sent = SentBursts::of(alloc, &plan)?;
        Ok(PostedPlan { plan, sent })
    }

    /// The plan.
    pub fn plan(&self) -> &Plan
        ensures same { result.now ≡ self.now }
    {
        &self.plan
    }

    /// The bursts that a terminal sends in the plan, in the order of the plan.
    pub fn sent_by(&self, terminal: TermNo) -> &[Burst]
        ensures sent { result.now ≡ bursts_from terminal self.now.bursts }
    {
        self.sent.sent_by(terminal)
    }
}
