// The plan that is cut from a schedule.
ghost use Rattle.std.specs.Prelude.{OnOk};
ghost use Rattle.bt_demand.specs.Traffic.{matrix_of, AreOfNetwork, HasSumsTo};
ghost use Rattle.bt_matrix.specs.Good.{IsGood};

use crate::texts::{demand_from, is_line, put_text, schedule_from};
use bt_cut::cut;
use bt_demand::{Demand, Verdict, check_modes, traffic_of};
use bt_frame::{EditionNo, MOST_SLOTS, Schedule};
use bt_matrix::{MOST_SUM, Traffic};
use bt_net::Network;
use bt_plan::plan_text;
use bt_sheet::{CaseFault, Result, number_of};
use std::alloc::Global;

/// Appends the plan of a demand that is cut from a schedule which is good for it.
pub fn put_cutting(
    alloc: Global,
    net: &[u8],
    traffic: &[u8],
    edition: &str,
    modes: &[u8],
    out: &mut String,
) -> Result<()> {
    let edition = EditionNo(number_of(edition)?);
    match Network::read(alloc, net) {
        Ok(net) => put_cut_for(alloc, &net, traffic, edition, modes, out),
        Err(_fault) => Err(CaseFault("no network")),
    }
}

/// Appends the plan that is cut for the demand of a text from the schedule of another.
fn put_cut_for(
    alloc: Global,
    net: &Network,
    traffic: &[u8],
    edition: EditionNo,
    modes: &[u8],
    out: &mut String,
) -> Result<()> {
    let demand = demand_from(alloc, net, traffic)?;
    see_fit(alloc, net, &demand)?;
    put_cut_from(alloc, net, &demand, edition, modes, out)
}

/// Appends the plan that is cut from the schedule of a text, which must be good for the demand.
fn put_cut_from(
    alloc: Global,
    net: &Network,
    demand: &Demand,
    edition: EditionNo,
    modes: &[u8],
    out: &mut String,
) -> Result<()>
    requires terminals { AreOfNetwork net.now demand.now }
    requires sums { HasSumsTo MOST_SLOTS (matrix_of net.now demand.now) }
{
    let schedule = schedule_from(alloc, net.beam_count(), modes)?;
    see_good(alloc, net, demand, &schedule)?;
    put_cut(alloc, net, demand, edition, schedule, out)
}

/// Appends the plan that is cut from a schedule which is good for the demand.
fn put_cut(
    alloc: Global,
    net: &Network,
    demand: &Demand,
    edition: EditionNo,
    schedule: Schedule,
    out: &mut String,
) -> Result<()>
    requires terminals { AreOfNetwork net.now demand.now }
    requires sums { HasSumsTo MOST_SLOTS (matrix_of net.now demand.now) }
    requires good { IsGood (matrix_of net.now demand.now) schedule }
{
    let Ok(plan) = cut(alloc, net, demand, edition, schedule) else {
        return Err(CaseFault("out of memory"));
    };
    put_text(alloc, plan_text(alloc, net, &plan), out)
}

/// No line of the demand's matrix has more slots than the longest frame.
fn see_fit(alloc: Global, net: &Network, demand: &Demand) -> Result<()>
    requires terminals { AreOfNetwork net.now demand.now }
    requires sums { HasSumsTo MOST_SUM (matrix_of net.now demand.now) }
    ensures { OnOk result (HasSumsTo MOST_SLOTS (matrix_of net.now demand.now)) }
{
    let Ok(matrix) = traffic_of(alloc, net, demand) else {
        return Err(CaseFault("out of memory"));
    };
    let (_, most) = matrix.heaviest();
    if MOST_SLOTS < most {
        return Err(CaseFault("too much for a frame"));
    }
    Ok(())
}

/// The schedule is good for the demand's matrix.
fn see_good(alloc: Global, net: &Network, demand: &Demand, schedule: &Schedule) -> Result<()>
    requires terminals { AreOfNetwork net.now demand.now }
    requires sums { HasSumsTo MOST_SLOTS (matrix_of net.now demand.now) }
    ensures { OnOk result (IsGood (matrix_of net.now demand.now) schedule.now) }
{
    let Ok(matrix) = traffic_of(alloc, net, demand) else {
        return Err(CaseFault("out of memory"));
    };
    if !is_line(&matrix, schedule.critical) {
        return Err(CaseFault("a line of no beam"));
    }
    match check_modes(&matrix, schedule) {
        Verdict::Good => Ok(()),
        _ => Err(CaseFault("no good schedule")),
    }
}
