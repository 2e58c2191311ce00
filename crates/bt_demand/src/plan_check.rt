// Is a burst time plan good for a demand, and what is wrong with it first?
ghost use Rattle.std.specs.Prelude.{length, MatchOption};
ghost use Rattle.bt_frame.specs.Critical.{IsOfBeams};
ghost use Rattle.bt_demand.specs.Demand.{IsDemand};
ghost use Rattle.bt_demand.specs.Rows.{all_links};
ghost use Rattle.bt_demand.specs.Apart.{AreBetweenTerminals};
ghost use Rattle.bt_demand.specs.PlanVerdict.{HasGoodModes, IsPlanVerdict};
ghost use Rattle.bt_demand.specs.Traffic.{matrix_of, AreOfNetwork, HasSumsTo};

use crate::holding::first_unheld;
use crate::length_faults::heavier_in_demand;
use crate::meetings::first_meeting;
use crate::mode_faults::{duration_sum, first_bad, first_empty};
use crate::plan_verdict_laws::plans_are_good_by_their_parts;
use crate::serving::first_unserved;
use crate::{Demand, LinkRow, Plan, Verdict};
use bt_frame::MOST_SUM;
use bt_net::Network;

/// What is wrong first with a burst time plan for that demand, or that it is good.
///
/// First come the modes: permutations (V1) that last (V2), fill the length (V3) and are no longer than the heaviest line
/// of the demand asks for (V4). Then come the bursts: no two of them meet (V5), a mode holds each (V6), and each link
/// has its slots (V7). Bursts are walked along three times, links twice, modes a few times; where two bursts meet,
/// those before them once more. It takes no memory.
pub fn check(net: &Network, demand: &Demand, plan: &Plan) -> Verdict
    requires demand { AreOfNetwork net.now demand.now }
    requires bursts { AreBetweenTerminals net.now plan.now.bursts }
    requires critical { IsOfBeams (length net.now.beams) plan.now.schedule.critical }
    requires sums { HasSumsTo MOST_SUM (matrix_of net.now demand.now) }
    ensures verdict { IsPlanVerdict net.now demand.now plan.now result }
{
    let rows = demand.rows();
    match modes_fault(net, rows, plan) {
        Some(fault) => fault,
        None => bursts_verdict(net, rows, plan),
    }
}

/// What is wrong first with the modes of a plan.
fn modes_fault(net: &Network, rows: &[LinkRow], plan: &Plan) -> Option<Verdict>
    requires links { AreOfNetwork net.now (all_links rows.now) }
    requires critical { IsOfBeams (length net.now.beams) plan.now.schedule.critical }
    requires sums { HasSumsTo MOST_SUM (matrix_of net.now (all_links rows.now)) }
    ensures { MatchOption result
        (HasGoodModes net.now (all_links rows.now) plan.now.schedule)
        (IsPlanVerdict net.now (all_links rows.now) plan.now) }
{
    let schedule = &plan.schedule;
    if let Some(mode) = first_bad(&schedule.modes, net.beam_count()) {
        return Some(Verdict::V1 { mode });
    }
    if let Some(mode) = first_empty(&schedule.modes) {
        return Some(Verdict::V2 { mode });
    }
    let sum = duration_sum(&schedule.modes);
    let length = schedule.length;
    if sum != u64::from(length) {
        return Some(Verdict::V3 { sum, length });
    }
    let (critical, sum) = heavier_in_demand(net, rows, schedule)?;
    let sum = u64::from(sum);
    Some(Verdict::V4 { critical, sum })
}

/// The verdict on a plan whose modes are good.
fn bursts_verdict(net: &Network, rows: &[LinkRow], plan: &Plan) -> Verdict
    requires links { AreOfNetwork net.now (all_links rows.now) }
    requires demand { IsDemand (all_links rows.now) }
    requires bursts { AreBetweenTerminals net.now plan.now.bursts }
    requires modes { HasGoodModes net.now (all_links rows.now) plan.now.schedule }
    ensures { IsPlanVerdict net.now (all_links rows.now) plan.now result }
{
    let bursts = plan.bursts.as_slice();
    if let Some((first, second)) = first_meeting(net, bursts) {
        return Verdict::V5 { first, second };
    }
    if let Some(burst) = first_unheld(net, plan.schedule.modes.as_slice(), bursts) {
        return Verdict::V6 { burst };
    }
    match first_unserved(net, rows, bursts) {
        Some(unserved) => unserved.verdict(),
        None => {
            plans_are_good_by_their_parts();
            Verdict::Good
        }
    }
}
