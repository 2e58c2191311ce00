// Nodes and table of a matrix that asks for nothing.
ghost use Rattle.std.specs.Prelude.{◌≡◌, ◌≤◌, None, map, replicate, IfOk, vec_capacity};
ghost use Rattle.bt_matrix.specs.Links.{AreHeads, head_of};

use crate::node::{Entry, Neighbours, Node};
use bt_frame::{MOST_BEAMS, OutOfMemory};
use std::alloc::Global;

/// The heads of the lines, one node for each beam.
pub(crate) fn heads(alloc: Global, size: u32) -> Result<Vec<Node>, OutOfMemory>
    requires few { size ≤ MOST_BEAMS }
    ensures heads { IfOk result (λ nodes. AreHeads nodes.items size) }
    ensures room { IfOk result (λ nodes. vec_capacity nodes ≡ size) }
{
    let mut nodes = Vec::with_capacity(alloc, size as usize)?;
    for beam in 0..size {
        nodes.push_reserved(head(beam as u8));
    }
    Ok(nodes)
}

/// The head of the row and of the column of a beam, with itself on all sides.
fn head(beam: u8) -> Node
    ensures { result ≡ head_of beam }
{
    let alone = Neighbours {
        before: beam as u16,
        after: beam as u16,
    };
    Node {
        entry: Entry {
            up: beam,
            down: beam,
            units: 0,
        },
        row: alone,
        column: alone,
    }
}

/// A table that names no node.
pub(crate) fn empty_table(alloc: Global, size: u32) -> Result<Vec<Vec<Option<u16>>>, OutOfMemory>
    ensures { IfOk result (λ table. map (λ line. line.items) table.items ≡ replicate size (replicate size None)) }
{
    let mut table = Vec::new(alloc);
    for _ in 0..size {
        table.push(vec![in alloc; None; size as usize]?)?;
    }
    Ok(table)
}
