// The bursts of a demand, before they are put in order.
ghost use Rattle.std.specs.Prelude.{ℕ, ◌<◌, ◌≤◌, length, vec_len, All, IfOk};
ghost use Rattle.bt_frame.specs.declared.limits.TheConstants.{MOST_SLOTS};
ghost use Rattle.bt_matrix.specs.Good.{IsPermutation, slots_of, total_duration};
ghost use Rattle.bt_net.specs.Network.{IsSound};
ghost use Rattle.bt_demand.specs.Demand.{IsDemand};
ghost use Rattle.bt_demand.specs.Traffic.{units_between, AreOfNetwork};
ghost use Rattle.bt_cut.specs.Parts.{AreParts};

use crate::table::{connections_of, place_of};
use bt_demand::{Burst, Demand, MOST_BURSTS};
use bt_frame::{Mode, OutOfMemory};
use bt_net::Network;
use std::alloc::Global;

/// The bursts of each link, link by link. Each link takes the next slots of its connection.
pub(crate) fn bursts_of(
    alloc: Global,
    net: &Network,
    demand: &Demand,
    modes: &[Mode],
) -> Result<Vec<Burst>, OutOfMemory>
    requires terminals { AreOfNetwork net.now demand.now }
    requires permutations { All (λ mode. IsPermutation (length net.now.beams) mode.perm) modes.now }
    requires durations { All (λ mode. 0 < mode.duration) modes.now }
    requires short { total_duration modes.now ≤ MOST_SLOTS }
    requires carried { (up down : ℕ) → up < length net.now.beams → down < length net.now.beams
        → units_between net.now demand.now up down ≤ slots_of modes.now up down }
    ensures network { IfOk result (λ _. IsSound net.now) }
    ensures demand { IfOk result (λ _. IsDemand demand.now) }
    ensures few { IfOk result (λ bursts. vec_len bursts ≤ MOST_BURSTS) }
    ensures parts { IfOk result (λ bursts. AreParts net.now demand.now modes.now (length demand.now) bursts.items) }
{
    let mut connections = connections_of(alloc, net.beam_count(), modes)?;
    let mut bursts = Vec::new(alloc);
    for row in demand.rows() {
        for link in row.as_slice() {
            let place = place_of(net.beam_of(link.from), net.beam_of(link.to));
            connections[place].serve(*link, &mut bursts)?;
        }
    }
    Ok(bursts)
}
