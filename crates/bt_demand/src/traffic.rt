// The traffic matrix of a demand.
ghost use Rattle.std.specs.Prelude.{◌≡◌, ◌<◌, IfOk};
ghost use Rattle.bt_demand.specs.Traffic.{matrix_of, AreOfNetwork, HasSumsTo};

use crate::Demand;
use bt_frame::{MOST_SUM, OutOfMemory};
use bt_matrix::{Dense, Traffic};
use bt_net::Network;
use std::alloc::Global;

/// The slots per frame that the links from each beam to each beam ask for together.
///
/// It looks once at each link. Both ends of a link may be in one beam.
pub fn traffic_of(alloc: Global, net: &Network, demand: &Demand) -> Result<Dense, OutOfMemory>
    requires terminals { AreOfNetwork net.now demand.now }
    requires sums { HasSumsTo MOST_SUM (matrix_of net.now demand.now) }
    ensures matrix { IfOk result (λ matrix. matrix ≡ matrix_of net.now demand.now) }
{
    let mut matrix = Dense::new(alloc, net.beam_count())?;
    for row in demand.rows() {
        for link in row.as_slice() {
            matrix.add(net.beam_of(link.from), net.beam_of(link.to), link.units);
        }
    }
    Ok(matrix)
}
