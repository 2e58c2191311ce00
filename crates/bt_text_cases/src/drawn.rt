// Schedules of drawn demands for each number of connections at once, judged by the checker.
ghost use Rattle.std.specs.Prelude.{◌≤◌, length};
ghost use Rattle.bt_frame.specs.declared.limits.TheConstants.{MOST_SLOTS, MOST_SUM};
ghost use Rattle.bt_demand.specs.Traffic.{HasSumsTo};
ghost use Rattle.bt_trans.specs.Part.{total_slots};
ghost use Rattle.bt_trans.specs.declared.part.TheConstants.{MOST_PART_BEAMS};

use bt_cut::make_demand;
use bt_frame::MOST_NUMBERED_BEAMS;
use bt_matrix::{Dense, Traffic};
use bt_net::Network;
use bt_sheet::{CaseFault, Result};
use bt_trans::{MOST_PART_BEAMS, PartVerdict, check_part, part_schedule};
use std::alloc::Global;

/// Draws so many demands on the network of so many beams, from that number on, and appends how many matrices these are
/// and how many schedules are good for them: one for each number of connections at once, up to that of the beams. Fails
/// where one is not.
pub fn put_drawn(
    alloc: Global,
    beams: u32,
    count: u32,
    number: u32,
    out: &mut String,
) -> Result<()> {
    let net = net_of(alloc, beams)?;
    let schedules = good_schedules(alloc, &net, count, u64::from(number))?;
    write!(out, ">matrices {count} schedules {schedules}\n")?;
    Ok(())
}

/// The network of so many beams.
fn net_of(alloc: Global, beams: u32) -> Result<Network> {
    if beams < 1 || MOST_NUMBERED_BEAMS < beams {
        return Err(CaseFault("no such network"));
    }
    match Network::numbered(alloc, beams) {
        Ok(net) => Ok(net),
        Err(_full) => Err(CaseFault("out of memory")),
    }
}

/// How many schedules are good for so many demands, which are drawn from a number on, from the next one on, and so on.
fn good_schedules(alloc: Global, net: &Network, count: u32, first: u64) -> Result<u64> {
    let mut schedules = 0u64;
    let mut number = first;
    for _ in 0..count {
        let more = good_for_drawn(alloc, net, number)?;
        schedules = schedules.saturating_add(u64::from(more));
        number = number.wrapping_add(1);
    }
    Ok(schedules)
}

/// How many schedules are good for the demand that is drawn from that number on.
fn good_for_drawn(alloc: Global, net: &Network, number: u64) -> Result<u32> {
    // This is there for what holds of each network: its frame has at most `MOST_SLOTS` slots.
    let _slots = net.slots();
    match make_demand(alloc, net, number) {
        Ok(made) => good_for_all(alloc, &made.matrix),
        Err(_full) => Err(CaseFault("out of memory")),
    }
}

/// How many schedules are good for a matrix, which is one for each of its beams.
#[tactic(auto, using(crate::proofs::Fitting::total_of_fitting))]
fn good_for_all(alloc: Global, matrix: &Dense) -> Result<u32>
    requires fits { HasSumsTo MOST_SLOTS matrix.now }
{
    let size = matrix.size();
    if MOST_PART_BEAMS < size {
        return Err(CaseFault("too many beams"));
    }
    for k in 1..size + 1 {
        see_good(alloc, matrix, k)?;
    }
    Ok(size)
}

/// Fails where the schedule of the matrix for `k` connections at once is not good.
fn see_good(alloc: Global, matrix: &Dense, k: u32) -> Result<()>
    requires some { 1 ≤ k }
    requires most { k ≤ length matrix.now }
    requires few { length matrix.now ≤ MOST_PART_BEAMS }
    requires total { total_slots matrix.now ≤ MOST_SUM }
{
    let Ok(schedule) = part_schedule(alloc, matrix, k) else {
        return Err(CaseFault("out of memory"));
    };
    match check_part(matrix, k, &schedule) {
        PartVerdict::Good => Ok(()),
        _ => Err(CaseFault("a schedule that is not good")),
    }
}
