// A traffic matrix whose positive entries are linked nodes.
//
// Of two beams, with 3 slots from beam 0 to beam 1 and 2 from beam 1 to beam 0, there are four nodes: a head for each
// beam, of its row and of its column at once, and a node for each positive entry.
//
//     node   stands for       left  right   up  down        table   to 0     to 1
//     0      head of beam 0     2     2      3    3          from 0  none     node 2
//     1      head of beam 1     3     3      2    2          from 1  node 3   none
//     2      entry (0, 1)       0     0      1    1
//     3      entry (1, 0)       1     1      0    0          free    none
//
// Each line is a ring: from its head the right links run through the nodes of a row by ascending column, the down links
// through those of a column by ascending row, and both come back to the head. So to link a node in and out has no case
// for the end of a line. An entry that becomes zero gives its node to the free list, and the next that becomes positive
// takes the last of that list.
ghost use Rattle.std.specs.Prelude.{◌≡◌, ◌<◌, ◌≤◌, [], ◌∷◌, Some, length, replicate, IfOk, MatchOption};
ghost use Rattle.bt_matrix.specs.Cursor.{entries_behind, HasEntry};

use crate::entries::{lower_entry, raise_entry};
use crate::fresh::{empty_table, heads};
use crate::node::Node;
use crate::table::{place_at, start_node};
use crate::{Rows, Traffic, heaviest_line};
use bt_frame::{BeamNo, Critical, MOST_BEAMS, OutOfMemory};
use std::alloc::Global;
use std::marker::Model;

/// A square matrix of slots per frame whose positive entries are nodes, each linked to the nodes beside it in its row
/// and in its column. One of `MOST_BEAMS` beams takes at most 8 KiB.
///
/// The first nodes are the heads of the lines, one for each beam. The table gives the node of each entry, or none. Nodes
/// that are not in use stand in the free list. The sum of each line is kept.
#[derive(Drop)]
pub struct Crosslinked {
    nodes: Vec<Node>,
    table: Vec<Vec<Option<u16>>>,
    free: Vec<u16>,
    row_sums: [u32; MOST_BEAMS],
    column_sums: [u32; MOST_BEAMS],
}

impl Model for Crosslinked {
    ghost use Rattle.std.specs.Prelude.{◌+◌, ◌-◌, ◌<◌, ◌≤◌, ◌^◌, map, length, vec_len, vec_capacity};
    ghost use Rattle.bt_matrix.specs.Matrix.{Matrix};

    ghost Value = { Matrix };

    ghost use Rattle.bt_matrix.specs.Table.{rows_of};
    ghost use Rattle.bt_matrix.specs.Crosslinked.{IsCrosslinked};

    ghost view = { λ a. record {
      rows = rows_of a.nodes.items (map (λ line. line.items) a.table.items);
      room = length a.free.items + vec_capacity a.nodes - vec_len a.nodes;
    } };

    ghost invariant = { λ a. IsCrosslinked a.nodes.items (map (λ line. line.items) a.table.items) a.free.items a.row_sums a.column_sums
        × (vec_capacity a.nodes ≤ vec_capacity a.free) × (vec_capacity a.nodes < 2 ^ 16) };
}

impl Crosslinked {
    /// A matrix of so many beams, 1 to `MOST_BEAMS`, that asks for nothing.
    pub fn new(alloc: Global, size: u32) -> Result<Crosslinked, OutOfMemory>
        requires some { 1 ≤ size }
        requires few { size ≤ MOST_BEAMS }
        ensures zeros { IfOk result (λ matrix. matrix.rows ≡ replicate size (replicate size 0)) }
    {
        let nodes = heads(alloc, size)?;
        let table = empty_table(alloc, size)?;
        let free = Vec::with_capacity(alloc, size as usize)?;
        Ok(Crosslinked {
            nodes,
            table,
            free,
            row_sums: [0; MOST_BEAMS],
            column_sums: [0; MOST_BEAMS],
        })
    }

    /// The first positive entry of a row, or the first behind one of them, by its column and its slots.
    pub(crate) fn entry_behind(&self, row: BeamNo, last: Option<BeamNo>) -> Option<(BeamNo, u32)>
        requires row { row.0 < length self.now.rows }
        requires last { HasEntry self.now.rows row.0 last }
        ensures entry { MatchOption result (entries_behind self.now.rows row.0 last ≡ [])
            (λ found. entries_behind self.now.rows row.0 last ≡ (found.0.0, found.1) ∷ entries_behind self.now.rows row.0 (Some found.0)) }
        ensures positive { MatchOption result (Unit {0}) (λ found. HasEntry self.now.rows row.0 (Some found.0)) }
    {
        let at = start_node(self.table.as_slice(), row, last);
        let k = self.nodes[at as usize].row.after;
        if (k as usize) < self.table.len() {
            return None;
        }
        let found = self.nodes[k as usize].entry;
        Some((BeamNo(found.down), found.units))
    }
}

impl Rows for Crosslinked {
    ghost rows = { λ matrix. matrix.rows };
}

impl Traffic for Crosslinked {
    ghost room = { λ matrix. matrix.room };

    fn size(&self) -> u32 {
        self.table.len() as u32
    }

    fn get(&self, up: BeamNo, down: BeamNo) -> u32 {
        match place_at(self.table.as_slice(), up, down) {
            Some(k) => self.nodes[k as usize].entry.units,
            None => 0,
        }
    }

    fn row_sum(&self, up: BeamNo) -> u32 {
        self.row_sums[up.0 as usize]
    }

    fn column_sum(&self, down: BeamNo) -> u32 {
        self.column_sums[down.0 as usize]
    }

    fn heaviest(&self) -> (Critical, u32) {
        let size = self.table.len();
        heaviest_line(&self.row_sums[..size], &self.column_sums[..size])
    }

    fn spare(&self) -> u32 {
        (self.free.len() + (self.nodes.capacity() - self.nodes.len())) as u32
    }

    fn reserve(&mut self, _: Global, entries: u32) -> Result<(), OutOfMemory> {
        let more = (entries as usize).saturating_sub(self.free.len());
        let most = self.nodes.len() + more;
        if most > u16::MAX as usize {
            return Err(OutOfMemory);
        }
        self.free.reserve(most - self.free.len())?;
        self.nodes.reserve_exact(more)?;
        Ok(())
    }

    fn add(&mut self, up: BeamNo, down: BeamNo, units: u32) {
        raise_entry(
            &mut self.nodes,
            &mut self.free,
            self.table.as_mut_slice(),
            up,
            down,
            units,
        );
        self.row_sums[up.0 as usize] += units;
        self.column_sums[down.0 as usize] += units;
    }

    fn take(&mut self, up: BeamNo, down: BeamNo, units: u32) {
        lower_entry(
            &mut self.nodes,
            &mut self.free,
            self.table.as_mut_slice(),
            up,
            down,
            units,
        );
        self.row_sums[up.0 as usize] -= units;
        self.column_sums[down.0 as usize] -= units;
    }
}
