// The table of connections, with the slots that the modes give to each.
ghost use Rattle.std.specs.Prelude.{◌≡◌, ℕ, ◌+◌, ◌*◌, ◌<◌, ◌≤◌, List, length, vec_len, All, IfOk, OnOk};
ghost use Rattle.std.specs.List.{HoldsAt};
ghost use Rattle.bt_frame.specs.declared.limits.TheConstants.{MOST_BEAMS, MOST_SLOTS};
ghost use Rattle.bt_frame.specs.declared.mode.Mode.{Mode};
ghost use Rattle.bt_matrix.specs.Good.{IsPermutation, total_duration};
ghost use Rattle.bt_demand.specs.Plan.{begin_of};
ghost use Rattle.bt_cut.specs.Serving.{IsTable};

use crate::connection::{Connection, Span};
use bt_frame::{BeamNo, MOST_BEAMS, Mode, OutOfMemory};
use std::alloc::Global;

/// Places of a table: one for each uplink beam and each downlink beam that a network may have.
const CONNECTIONS: u32 = MOST_BEAMS as u32 * MOST_BEAMS as u32;

/// The place of a connection in the table: the row of the uplink beam, the column of the downlink beam.
pub(crate) fn place_of(up: BeamNo, down: BeamNo) -> usize
    requires up { up.0 < MOST_BEAMS }
    requires down { down.0 < MOST_BEAMS }
    ensures { result ≡ up.0 * MOST_BEAMS + down.0 }
{
    up.0 as usize * MOST_BEAMS + down.0 as usize
}

/// The connections between so many beams, with the slots that the modes give to each.
pub(crate) fn connections_of(
    alloc: Global,
    beams: u32,
    modes: &[Mode],
) -> Result<Vec<Connection>, OutOfMemory>
    requires few { beams ≤ MOST_BEAMS }
    requires permutations { All (λ mode. IsPermutation beams mode.perm) modes.now }
    requires durations { All (λ mode. 0 < mode.duration) modes.now }
    requires short { total_duration modes.now ≤ MOST_SLOTS }
    ensures { IfOk result (λ table. IsTable modes.now beams (length modes.now) (λ _ _. 0) table.items) }
{
    let mut table = empty_table(alloc)?;
    let mut start = 0;
    for mode in modes {
        add_mode(&mut table, beams, mode, start)?;
        start += mode.duration;
    }
    Ok(table)
}

/// Each connection that the mode makes gets its slots, the first of which is `start`.
fn add_mode(
    table: &mut Vec<Connection>,
    beams: u32,
    mode: &Mode,
    start: u32,
) -> Result<(), OutOfMemory>
    requires few { beams ≤ MOST_BEAMS }
    requires permutation { IsPermutation beams mode.now.perm }
    requires lasts { 0 < mode.now.duration }
    requires short { start + mode.now.duration ≤ MOST_SLOTS }
    requires count { vec_len table.old ≡ CONNECTIONS }
    ensures count { vec_len table.new ≡ CONNECTIONS }
    ensures added { OnOk result ((modes : List Mode) (place : ℕ) → place < length modes → HoldsAt (λ m. m ≡ mode.now) modes place
        → start ≡ begin_of modes place → IsTable modes beams place (λ _ _. 0) table.old.items
        → IsTable modes beams (place + 1) (λ _ _. 0) table.new.items) }
{
    for up in 0..beams as u8 {
        let down = mode.perm.as_slice()[up as usize];
        let span = Span {
            start,
            length: mode.duration,
        };
        table[place_of(BeamNo(up), BeamNo(down))].add(span)?;
    }
    Ok(())
}

/// A table in which no connection has slots.
fn empty_table(alloc: Global) -> Result<Vec<Connection>, OutOfMemory>
    ensures { IfOk result (λ table. (modes : List Mode) (beams : ℕ) → beams ≤ MOST_BEAMS → IsTable modes beams 0 (λ _ _. 0) table.items) }
{
    let mut table = Vec::new(alloc);
    for _ in 0..CONNECTIONS {
        table.push(Connection::empty(alloc))?;
    }
    Ok(table)
}
