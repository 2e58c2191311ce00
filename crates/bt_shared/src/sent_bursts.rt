// The bursts of a plan by the terminal that sends.
ghost use Rattle.std.specs.Prelude.{◌≡◌, IfOk};
ghost use Rattle.bt_frame.specs.declared.numbers.TermNo.{TermNo};
ghost use Rattle.bt_demand.specs.Apart.{bursts_from};

use bt_demand::{Burst, Plan};
use bt_frame::{OutOfMemory, TermNo};
use std::alloc::Global;
use std::marker::Model;

/// The bursts of a plan, put in order of the terminal that sends: so those of one terminal stand side by side, in the order
/// that they have in the plan.
#[derive(Drop)]
pub struct SentBursts {
    bursts: Vec<Burst>,
}

impl Model for SentBursts {
    ghost use Rattle.std.specs.Prelude.{List};
    ghost use Rattle.bt_demand.specs.declared.burst.Burst.{Burst};

    ghost Value = { List Burst };

    ghost use Rattle.std.specs.List.Sorted.{IsNonDecreasingBy};

    ghost view = { λ a. a.bursts.items };

    ghost invariant = { λ a. IsNonDecreasingBy (λ (burst : Burst). burst.from.0) a.bursts.items };
}

impl SentBursts {
    /// The bursts of a plan.
    pub fn of(alloc: Global, plan: &Plan) -> Result<SentBursts, OutOfMemory>
        ensures sent { IfOk result (λ sent. (terminal : TermNo) → bursts_from terminal sent ≡ bursts_from terminal plan.now.bursts) }
    {
        let mut bursts = Vec::from_slice(alloc, plan.bursts.as_slice())?;
        bursts.sort_by_key(|burst| burst.from.0)?;
        Ok(SentBursts { bursts })
    }

    /// Those that a terminal sends, in the order of the plan.
    pub fn sent_by(&self, terminal: TermNo) -> &[Burst]
        ensures sent { result.now ≡ bursts_from terminal self.now }
    {
        let bursts = self.bursts.as_slice();
        let first = bursts.partition_point(|burst| burst.from.0 < terminal.0);
        let rest = &bursts[first..];
        let count = rest.partition_point(|burst| burst.from.0 == terminal.0);
        &rest[..count]
    }
}
