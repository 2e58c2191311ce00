// What the board shows: a plan, and the list of plans that it ends.
ghost use Rattle.std.specs.Prelude.{◌≡◌, Some, IfOk};
ghost use Rattle.std.specs.Arc.{arc_value};
ghost use Rattle.bt_shared.specs.Plans.{last_of, Ascends, AscendsAfter-prop};

use crate::plan_log::PlanLog;
use crate::posted_plan::PostedPlan;
use bt_demand::Plan;
use left_right::Absorb;
use logbook::Seen;
use std::alloc::AllocError;
use std::sync::Arc;

/// A plan that was posted, and the token that shows the list of plans up to it. The token has no bytes.
#[derive(Drop)]
pub struct ShownPlan {
    pub plan: Arc<PostedPlan>,
    pub seen: Seen<Plan, u64, PlanLog>,
    ghost last: { last_of seen.log ≡ Some (arc_value plan) },
    ghost ascends: { Ascends seen.log } by { AscendsAfter-prop _ _ },
}

impl ShownPlan {
    /// The same plan and list.
    pub fn again(&self) -> Result<ShownPlan, AllocError>
        ensures seen { IfOk result (λ s. s.seen ≡ self.now.seen) }
    {
        Ok(ShownPlan {
            plan: Arc::try_clone(&self.plan)?,
            seen: self.seen.again(),
        })
    }
}

impl Absorb<ShownPlan> for ShownPlan {
    type State = Seen<Plan, u64, PlanLog>;

    ghost state = { λ s. s.seen };

    ghost applied = { λ _ next. next.seen };

    fn absorb_first(
        &mut self,
        operation: &ShownPlan,
        _other: &ShownPlan,
    ) -> Result<(), AllocError> {
        *self = operation.again()?;
        Ok(())
    }

    fn absorb_second(&mut self, operation: ShownPlan, _other: &ShownPlan) -> Result<(), ShownPlan> {
        *self = operation;
        Ok(())
    }
}
