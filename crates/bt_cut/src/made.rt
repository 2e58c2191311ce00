// The demand that draws make.
ghost use Rattle.std.specs.Prelude.{◌≡◌, ◌<◌, ◌≤◌, length, true, false, IfOk, OnOk};
ghost use Rattle.bt_frame.specs.declared.limits.TheConstants.{MOST_TERMINALS};
ghost use Rattle.bt_frame.specs.Range.{IsWithin};
ghost use Rattle.bt_net.specs.Terminals.{IsBetweenTerminals, IsInBeam};
ghost use Rattle.bt_demand.specs.Traffic.{matrix_of, AreOfNetwork, HasSumsTo};
ghost use Rattle.bt_cut.specs.Generator.{next};
ghost use Rattle.bt_cut.specs.Made.{attempt_at, Fits, IsMade, Tries};
ghost use Rattle.bt_cut.specs.Standing.{Stands};

use crate::generator::Generator;
use bt_demand::{Demand, Link};
use bt_frame::{BeamNo, OutOfMemory, TermNo};
use bt_matrix::{Dense, Traffic};
use bt_net::Network;
use std::alloc::Global;

/// Attempts for each beam of the network.
const ATTEMPTS_A_BEAM: u32 = 64;

/// The most units that one attempt gives.
const MOST_GAIN: u32 = 64;

/// A demand and its traffic matrix.
#[derive(Drop)]
pub struct Made {
    pub demand: Demand,
    pub matrix: Dense,
}

/// The demand that the generator makes on a network from a number on, and its traffic matrix.
///
/// Each attempt draws a terminal that sends, one that receives, and 1 to `MOST_GAIN` units. Where the two differ and
/// neither the row nor the column would ask for more slots than the frame has, the link gains the units.
pub fn make_demand(alloc: Global, net: &Network, number: u64) -> Result<Made, OutOfMemory>
    ensures made { IfOk result (λ made. IsMade net.now number made.demand) }
    ensures terminals { IfOk result (λ made. AreOfNetwork net.now made.demand) }
    ensures fits { IfOk result (λ made. HasSumsTo net.now.slots (matrix_of net.now made.demand)) }
    ensures matrix { IfOk result (λ made. made.matrix ≡ matrix_of net.now made.demand) }
{
    let (beams, terminals) = (net.beam_count(), net.terminal_count());
    let mut made = Made {
        demand: Demand::empty(alloc),
        matrix: Dense::new(alloc, beams)?,
    };
    let mut generator = Generator { state: number };
    for _ in 0..ATTEMPTS_A_BEAM * beams {
        let link = next_attempt(&mut generator, terminals);
        try_link(alloc, net, &mut made, link)?;
    }
    // This is there for what holds of each demand: its links are in order.
    let _rows = made.demand.rows();
    Ok(made)
}

/// Draws the next attempt, between two of so many terminals.
fn next_attempt(generator: &mut Generator, terminals: u32) -> Link
    requires { IsWithin 1 MOST_TERMINALS terminals }
    ensures attempt { result ≡ attempt_at terminals generator.old.state }
    ensures state { generator.new.state ≡ next (next (next generator.old.state)) }
{
    let from = TermNo((generator.draw() % terminals) as u8);
    let to = TermNo((generator.draw() % terminals) as u8);
    let units = 1 + generator.draw() % MOST_GAIN;
    Link { from, to, units }
}

/// The link gains its units, where they fit. Where memory runs out nothing is said of what is made.
fn try_link(alloc: Global, net: &Network, made: &mut Made, link: Link) -> Result<(), OutOfMemory>
    requires ends { IsBetweenTerminals net.now link.from link.to }
    requires units { IsWithin 1 MOST_GAIN link.units }
    requires stands { Stands net.now made.old }
    ensures tried { OnOk result (Tries net.now made.old.demand link made.new.demand) }
    ensures stands { OnOk result (Stands net.now made.new) }
{
    // This is there for what holds of each network: its frame has at most `MOST_SLOTS` slots.
    let _slots = net.slots();
    let (up, down) = (net.beam_of(link.from), net.beam_of(link.to));
    if fits(net, made, link, up, down) {
        made.demand.add(alloc, link.from, link.to, link.units)?;
        made.matrix.add(up, down, link.units);
    }
    Ok(())
}

/// Whether the link may gain its units. These are its beams.
fn fits(net: &Network, made: &Made, link: Link, up: BeamNo, down: BeamNo) -> bool
    requires sends { IsInBeam net.now link.from up }
    requires receives { IsInBeam net.now link.to down }
    requires up { up.0 < length net.now.beams }
    requires down { down.0 < length net.now.beams }
    requires units { link.units ≤ MOST_GAIN }
    requires stands { Stands net.now made.now }
    ensures fits { result ≡ true → Fits net.now made.now.demand link }
    ensures fits_not { result ≡ false → ¬ (Fits net.now made.now.demand link) }
{
    let slots = net.slots();
    link.from != link.to
        && made.matrix.row_sum(up) + link.units <= slots
        && made.matrix.column_sum(down) + link.units <= slots
}
