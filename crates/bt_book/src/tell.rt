// The calls that only ask: they are always answered, and change nothing.
ghost use Rattle.std.specs.Prelude.{◌≡◌, ℕ, IfOk, List, Option};
ghost use Rattle.bt_outside.specs.Crash.{Crashes};
ghost use Rattle.bt_history.specs.Machine.{newer_than};
ghost use Rattle.bt_book.specs.Answered.{Answers, with_store};

use crate::machine::Machine;
use bt_demand::Plan;
use bt_frame::{EditionNo, OutOfMemory};
use bt_journal::{Call, Reply};
use std::alloc::Global;

impl Machine {
    /// Tells the last edition, that of the newest plan, and the demand.
    pub(crate) fn snapshot(&mut self, alloc: Global, caller: u32) -> Result<Reply, OutOfMemory>
        ensures { (told : Option (List ℕ)) (faults : ℕ) (crashes : Option Crashes) → Answers (with_store self.old told faults crashes) caller Call.Snapshot result
            (with_store self.new told faults crashes) }
    {
        let reply = Reply::Demand {
            edition: self.edition(),
            newest: self.newest().edition,
            demand: self.demand().copy(alloc)?,
        };
        self.answer(alloc, caller, Call::Snapshot, reply)
    }

    /// Gives a copy of the newest plan, where its edition is greater than that one.
    pub(crate) fn newest_after(
        &mut self,
        alloc: Global,
        caller: u32,
        after: EditionNo,
    ) -> Result<Reply, OutOfMemory>
        ensures { (told : Option (List ℕ)) (faults : ℕ) (crashes : Option Crashes) → Answers (with_store self.old told faults crashes) caller (Call.Newest after) result
            (with_store self.new told faults crashes) }
    {
        let newer = newer_than(alloc, after, self.newest())?;
        self.answer(
            alloc,
            caller,
            Call::Newest { after },
            Reply::Newest { newer },
        )
    }
}

/// A copy of the plan, where its edition is greater than that one.
fn newer_than(alloc: Global, after: EditionNo, plan: &Plan) -> Result<Option<Plan>, OutOfMemory>
    ensures { IfOk result (λ newer. newer ≡ newer_than after plan.now) }
{
    if after.0 < plan.edition.0 {
        Ok(Some(plan.copy(alloc)?))
    } else {
        Ok(None)
    }
}
