// The plan of a demand.
ghost use Rattle.std.specs.Prelude.{◌≡◌, IfOk};
ghost use Rattle.bt_frame.specs.declared.limits.TheConstants.{MOST_SLOTS};
ghost use Rattle.bt_matrix.specs.Traffic.{IsHeaviest};
ghost use Rattle.bt_demand.specs.Plan.{IsGoodPlan};
ghost use Rattle.bt_demand.specs.Apart.{AreBetweenTerminals};
ghost use Rattle.bt_demand.specs.Traffic.{matrix_of, AreOfNetwork, HasSumsTo};
ghost use Rattle.bt_modes.specs.Few.{HasFewModes};
ghost use Rattle.bt_cut.specs.Cutting.{IsCutting};

use crate::cut;
use bt_demand::{Demand, Plan, traffic_of};
use bt_frame::{EditionNo, OutOfMemory};
use bt_matrix::Dense;
use bt_modes::schedule;
use bt_net::Network;
use std::alloc::Global;

/// A plan of the demand, than which none is shorter. No line of its matrix asks for more than `MOST_SLOTS` slots.
pub fn make_plan(
    alloc: Global,
    net: &Network,
    demand: &Demand,
    edition: EditionNo,
) -> Result<Plan, OutOfMemory>
    requires terminals { AreOfNetwork net.now demand.now }
    requires fits { HasSumsTo MOST_SLOTS (matrix_of net.now demand.now) }
    ensures edition { IfOk result (λ plan. plan.edition ≡ edition) }
    ensures bursts { IfOk result (λ plan. IsCutting net.now demand.now plan.schedule.modes plan.bursts) }
    ensures terminals { IfOk result (λ plan. AreBetweenTerminals net.now plan.bursts) }
    ensures good { IfOk result (λ plan. IsGoodPlan net.now demand.now plan) }
    ensures heaviest { IfOk result (λ plan. IsHeaviest (matrix_of net.now demand.now) plan.schedule.critical plan.schedule.length) }
    ensures few { IfOk result (λ plan. HasFewModes (matrix_of net.now demand.now) plan.schedule) }
{
    let matrix = traffic_of(alloc, net, demand)?;
    make_plan_for(alloc, net, demand, &matrix, edition)
}

/// The same plan, where the demand's matrix is at hand.
pub fn make_plan_for(
    alloc: Global,
    net: &Network,
    demand: &Demand,
    matrix: &Dense,
    edition: EditionNo,
) -> Result<Plan, OutOfMemory>
    requires terminals { AreOfNetwork net.now demand.now }
    requires fits { HasSumsTo MOST_SLOTS (matrix_of net.now demand.now) }
    requires matrix { matrix.now ≡ matrix_of net.now demand.now }
    ensures edition { IfOk result (λ plan. plan.edition ≡ edition) }
    ensures bursts { IfOk result (λ plan. IsCutting net.now demand.now plan.schedule.modes plan.bursts) }
    ensures terminals { IfOk result (λ plan. AreBetweenTerminals net.now plan.bursts) }
    ensures good { IfOk result (λ plan. IsGoodPlan net.now demand.now plan) }
    ensures heaviest { IfOk result (λ plan. IsHeaviest (matrix_of net.now demand.now) plan.schedule.critical plan.schedule.length) }
    ensures few { IfOk result (λ plan. HasFewModes (matrix_of net.now demand.now) plan.schedule) }
{
    let modes = schedule(alloc, matrix)?;
    cut(alloc, net, demand, edition, modes)
}
