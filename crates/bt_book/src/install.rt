// A plan can be installed where it is newer than all that are, and good for the demand of its edition.
ghost use Rattle.std.specs.Prelude.{◌≤◌, IfOk};
ghost use Rattle.bt_journal.specs.declared.call.Change.TheVariants as change;
ghost use Rattle.bt_history.specs.Changes.{edition};
ghost use Rattle.bt_history.specs.Causes.{GetsVerdict, IsPlanOn};
ghost use Rattle.bt_history.specs.Records.{IsFirstCause};

use crate::machine::Machine;
use bt_demand::{Plan, Verdict, check};
use bt_frame::OutOfMemory;
use bt_journal::Reply;
use std::alloc::Global;

impl Machine {
    /// The first cause of a refusal in the plan itself.
    pub(crate) fn cause_of_install(
        &self,
        alloc: Global,
        plan: &Plan,
    ) -> Result<Option<Reply>, OutOfMemory>
        requires { IsPlanOn self.now.net plan.now }
        ensures { IfOk result (λ cause. IsFirstCause self.now.net self.now.state.changes (change.Install plan.now) cause) }
    {
        let newest = self.newest().edition;
        if plan.edition.0 <= newest.0 {
            return Ok(Some(Reply::NotNewer { newest }));
        }
        let last = self.edition();
        if last.0 < plan.edition.0 {
            return Ok(Some(Reply::NoSuchEdition { last }));
        }
        match self.verdict_on(alloc, plan)? {
            Verdict::Good => Ok(None),
            verdict => Ok(Some(Reply::NotGood { verdict })),
        }
    }

    /// What is wrong first with a plan, against the demand of its edition. Only where that is not the last are the
    /// edits made again, up to it.
    fn verdict_on(&self, alloc: Global, plan: &Plan) -> Result<Verdict, OutOfMemory>
        requires on { IsPlanOn self.now.net plan.now }
        requires there { plan.now.edition.0 ≤ edition self.now.state.changes }
        ensures { IfOk result (λ verdict. GetsVerdict self.now.net self.now.state.changes plan.now verdict) }
    {
        let net = self.network();
        if plan.edition == self.edition() {
            return Ok(check(net, self.demand(), plan));
        }
        let demand = self.demand_at(alloc, plan.edition)?;
        Ok(check(net, &demand, plan))
    }
}
