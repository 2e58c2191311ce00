// Which two bursts of a plan meet first?
ghost use Rattle.std.specs.Prelude.{◌<◌, ◌≤◌, ◌↔◌, length, IsTrue, MatchOption, All, AllPairs};
ghost use Rattle.bt_demand.specs.Burst.{AreBursts, IsNotAfter};
ghost use Rattle.bt_demand.specs.Plan.{ShareABeam};
ghost use Rattle.bt_demand.specs.Apart.{Collide, AreApart, AreBetweenTerminals};
ghost use Rattle.bt_demand.specs.PlanVerdict.{IsFirstMeeting};
ghost use Rattle.bt_demand.specs.Meeting.{ShareASlot, IsFirstMet, IsFirstLate};
ghost use Rattle.bt_net.specs.Terminals.{IsBetweenTerminals, IsTerminal};

use crate::{Burst, MOST_BURSTS};
use bt_frame::MOST_BEAMS;
use bt_net::Network;

/// The places of the first burst that meets an earlier one and of the earliest that it meets, the earlier place first.
///
/// It looks once at each burst, and once more at those before the one that it finds.
pub(crate) fn first_meeting(net: &Network, bursts: &[Burst]) -> Option<(u32, u32)>
    requires between { AreBetweenTerminals net.now bursts.now }
    requires bursts { AreBursts bursts.now }
    ensures { MatchOption result
        (AreApart net.now bursts.now)
        (λ places. IsFirstMeeting net.now bursts.now places.0 places.1) }
{
    let Some(second) = first_late(net, bursts) else {
        return None;
    };
    let place = second as usize;
    let Some(first) = first_met(net, &bursts[..place], bursts[place]) else {
        unreachable!();
    };
    Some((first, second))
}

/// The first burst that meets an earlier one.
fn first_late(net: &Network, bursts: &[Burst]) -> Option<u32>
    requires between { AreBetweenTerminals net.now bursts.now }
    requires ordered { AllPairs IsNotAfter bursts.now }
    requires few { length bursts.now ≤ MOST_BURSTS }
    ensures { MatchOption result (AreApart net.now bursts.now) (IsFirstLate net.now bursts.now) }
{
    let mut up_ends = [0; MOST_BEAMS];
    let mut down_ends = [0; MOST_BEAMS];
    for (place, &burst) in bursts.iter().enumerate() {
        let up = net.beam_of(burst.from).0 as usize;
        let down = net.beam_of(burst.to).0 as usize;
        if burst.length != 0 {
            let free = up_ends[up].max(down_ends[down]);
            if u64::from(burst.start) < free {
                return Some(place as u32);
            }
            let end = burst.end();
            up_ends[up] = end;
            down_ends[down] = end;
        }
    }
    None
}

/// The first of these bursts that meets another one.
fn first_met(net: &Network, bursts: &[Burst], burst: Burst) -> Option<u32>
    requires between { AreBetweenTerminals net.now bursts.now }
    requires sends { IsTerminal net.now burst.from }
    requires receives { IsTerminal net.now burst.to }
    requires few { length bursts.now ≤ MOST_BURSTS }
    ensures { MatchOption result
        (All (λ a. ¬ (Collide net.now a burst)) bursts.now)
        (IsFirstMet net.now bursts.now burst) }
{
    for (place, &other) in bursts.iter().enumerate() {
        if collide(net, other, burst) {
            return Some(place as u32);
        }
    }
    None
}

/// Do the bursts share a slot, and a beam there?
fn collide(net: &Network, a: Burst, b: Burst) -> bool
    requires first { IsBetweenTerminals net.now a.from a.to }
    requires second { IsBetweenTerminals net.now b.from b.to }
    ensures { IsTrue result ↔ Collide net.now a b }
{
    share_a_slot(a, b) && share_a_beam(net, a, b)
}

/// Is one slot of both bursts?
fn share_a_slot(a: Burst, b: Burst) -> bool
    ensures { IsTrue result ↔ ShareASlot a b }
{
    let start = a.start.max(b.start);
    u64::from(start) < a.end().min(b.end())
}

/// Do both bursts go up in one beam, or come down in one?
fn share_a_beam(net: &Network, a: Burst, b: Burst) -> bool
    requires first { IsBetweenTerminals net.now a.from a.to }
    requires second { IsBetweenTerminals net.now b.from b.to }
    ensures { IsTrue result ↔ ShareABeam net.now a.from a.to b.from b.to }
{
    net.beam_of(a.from) == net.beam_of(b.from) || net.beam_of(a.to) == net.beam_of(b.to)
}
