// How full the lanes are.
ghost use Rattle.std.specs.Prelude.{◌≡◌, ◌+◌, ◌*◌, ◌<◌, ◌≤◌, ℕ, length, slice_index};
ghost use Rattle.bt_frame.specs.declared.limits.TheConstants.{MOST_BEAMS};
ghost use Rattle.bt_demand.specs.Apart.{AreBetweenTerminals};
ghost use Rattle.bt_net.specs.Terminals.{IsTerminal};
ghost use Rattle.bt_plan_chart.specs.Chart.{slots_in_lane};
ghost use Rattle.bt_plan_chart.specs.Scale.{beam_number, terminal_of};

use crate::Direction;
use bt_demand::Burst;
use bt_frame::{MOST_BEAMS, TermNo};
use bt_net::Network;

/// The slots of the bursts in each lane of a direction.
pub(crate) fn fullness(net: &Network, direction: Direction, bursts: &[Burst]) -> [u64; MOST_BEAMS]
    requires terminals { AreBetweenTerminals net.now bursts.now }
    requires few { length bursts.now ≤ 2147483648 }
    ensures wide { length result ≡ MOST_BEAMS }
    ensures slots { (beam : ℕ) → beam < MOST_BEAMS → slice_index result beam ≡ slots_in_lane net.now direction bursts.now beam }
{
    let mut slots = [0; MOST_BEAMS];
    for burst in bursts {
        let beam = beam_at(net, direction, *burst);
        slots[beam as usize] += u64::from(burst.length);
    }
    slots
}

/// The beam of a burst in a direction.
pub(crate) fn beam_at(net: &Network, direction: Direction, burst: Burst) -> u8
    requires from { IsTerminal net.now burst.from }
    requires to { IsTerminal net.now burst.to }
    ensures beam { result ≡ beam_number net.now (terminal_of direction burst) }
    ensures few { result < MOST_BEAMS }
{
    match direction {
        Direction::Up => beam_number(net, burst.from),
        Direction::Down => beam_number(net, burst.to),
    }
}

/// The number of a terminal's beam.
pub(crate) fn beam_number(net: &Network, terminal: TermNo) -> u8
    requires { IsTerminal net.now terminal }
    ensures beam { result ≡ beam_number net.now terminal }
    ensures few { result < MOST_BEAMS }
{
    net.beam_of(terminal).0
}
