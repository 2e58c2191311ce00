// Is each burst of a plan held by one mode, which makes its connection from its first slot to its last?
ghost use Rattle.std.specs.Prelude.{◌≡◌, ◌+◌, ◌<◌, ◌≤◌, ◌↔◌, length, IsTrue, MatchOption, All};
ghost use Rattle.bt_matrix.specs.Good.{IsPermutation};
ghost use Rattle.bt_demand.specs.Plan.{Connects, IsHeld};
ghost use Rattle.bt_demand.specs.Burst.{AreBursts};
ghost use Rattle.bt_demand.specs.Apart.{AreBetweenTerminals};
ghost use Rattle.bt_demand.specs.Turn.{IsTurn, IsTurnAt};
ghost use Rattle.bt_demand.specs.Verdict.{IsFirstWithout};
ghost use Rattle.bt_net.specs.Terminals.{IsTerminal};

use crate::Burst;
use bt_frame::Mode;
use bt_net::Network;

/// A mode of a schedule by its place, and its first slot. Behind the last mode the place is their number.
#[derive(Clone, Copy)]
struct Turn {
    place: usize,
    begin: u64,
}

/// The first burst that is empty or does not lie within one mode that makes its connection.
///
/// It walks along bursts and modes together, so that it looks once at each.
pub(crate) fn first_unheld(net: &Network, modes: &[Mode], bursts: &[Burst]) -> Option<u32>
    requires permutations { All (λ m. IsPermutation (length net.now.beams) m.perm) modes.now }
    requires between { AreBetweenTerminals net.now bursts.now }
    requires bursts { AreBursts bursts.now }
    ensures { MatchOption result
        (All (IsHeld net.now modes.now) bursts.now)
        (IsFirstWithout (IsHeld net.now modes.now) bursts.now) }
{
    let mut turn = Turn { place: 0, begin: 0 };
    for (place, &burst) in bursts.iter().enumerate() {
        turn = turn_at(modes, turn, burst.start);
        if !is_held(net, modes, turn, burst) {
            return Some(place as u32);
        }
    }
    None
}

/// The mode that has that slot, looked for from a mode that begins no later.
fn turn_at(modes: &[Mode], from: Turn, slot: u32) -> Turn
    requires is { IsTurn modes.now from }
    requires begun { from.begin ≤ slot }
    ensures { IsTurnAt modes.now slot result }
{
    let mut begin = from.begin;
    for place in from.place..modes.len() {
        let end = begin + u64::from(modes[place].duration);
        if u64::from(slot) < end {
            return Turn { place, begin };
        }
        begin = end;
    }
    Turn {
        place: modes.len(),
        begin,
    }
}

/// Is the burst not empty, and within that mode, which makes its connection?
fn is_held(net: &Network, modes: &[Mode], turn: Turn, burst: Burst) -> bool
    requires permutations { All (λ m. IsPermutation (length net.now.beams) m.perm) modes.now }
    requires sends { IsTerminal net.now burst.from }
    requires receives { IsTerminal net.now burst.to }
    requires at { IsTurnAt modes.now burst.start turn }
    ensures { IsTrue result ↔ IsHeld net.now modes.now burst }
{
    if turn.place == modes.len() {
        return false;
    }
    let mode = &modes[turn.place];
    let end = turn.begin + u64::from(mode.duration);
    lasts_until(burst, end) && connects(net, mode, burst)
}

/// Is the burst not empty, and over by that slot?
fn lasts_until(burst: Burst, end: u64) -> bool
    ensures { IsTrue result ↔ ((0 < burst.length) × (burst.start + burst.length ≤ end)) }
{
    burst.length != 0 && burst.end() <= end
}

/// Does the mode send the uplink beam of a burst to its downlink beam?
fn connects(net: &Network, mode: &Mode, burst: Burst) -> bool
    requires wide { length mode.now.perm ≡ length net.now.beams }
    requires sends { IsTerminal net.now burst.from }
    requires receives { IsTerminal net.now burst.to }
    ensures { IsTrue result ↔ Connects net.now mode.now burst.from burst.to }
{
    let up = net.beam_of(burst.from);
    let down = net.beam_of(burst.to);
    mode.perm.as_slice()[up.0 as usize] == down.0
}
