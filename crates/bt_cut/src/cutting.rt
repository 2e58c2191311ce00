// The cutting of a schedule's modes into the bursts of a demand.
ghost use Rattle.std.specs.Prelude.{◌≡◌, IfOk};
ghost use Rattle.bt_frame.specs.declared.limits.TheConstants.{MOST_SLOTS};
ghost use Rattle.bt_matrix.specs.Good.{IsGood};
ghost use Rattle.bt_demand.specs.Plan.{IsGoodPlan};
ghost use Rattle.bt_demand.specs.Apart.{AreBetweenTerminals};
ghost use Rattle.bt_demand.specs.Traffic.{matrix_of, AreOfNetwork, HasSumsTo};
ghost use Rattle.bt_cut.specs.Cutting.{IsCutting};

use crate::burst_order::in_order;
use crate::bursts::bursts_of;
use bt_demand::{Bursts, Demand, Plan};
use bt_frame::{EditionNo, OutOfMemory, Schedule};
use bt_net::Network;
use std::alloc::Global;

/// The plan of a demand that goes through the modes of this schedule, which is good for the demand's matrix.
///
/// No line of the matrix asks for more than `MOST_SLOTS` slots. Each connection gives its slots to its links one after the
/// other; slots that no link asks for stay silent.
pub fn cut(
    alloc: Global,
    net: &Network,
    demand: &Demand,
    edition: EditionNo,
    schedule: Schedule,
) -> Result<Plan, OutOfMemory>
    requires terminals { AreOfNetwork net.now demand.now }
    requires fits { HasSumsTo MOST_SLOTS (matrix_of net.now demand.now) }
    requires good { IsGood (matrix_of net.now demand.now) schedule }
    ensures edition { IfOk result (λ plan. plan.edition ≡ edition) }
    ensures schedule { IfOk result (λ plan. plan.schedule ≡ schedule) }
    ensures bursts { IfOk result (λ plan. IsCutting net.now demand.now schedule.modes plan.bursts) }
    ensures terminals { IfOk result (λ plan. AreBetweenTerminals net.now plan.bursts) }
    ensures good_plan { IfOk result (λ plan. IsGoodPlan net.now demand.now plan) }
{
    let bursts = bursts_of(alloc, net, demand, schedule.modes.as_slice())?;
    let ordered = in_order(alloc, bursts)?;
    Ok(Plan {
        edition,
        schedule,
        bursts: Bursts::of(ordered),
    })
}
