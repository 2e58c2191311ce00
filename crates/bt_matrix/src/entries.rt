// An entry that becomes positive, and one that becomes zero.
ghost use Rattle.std.specs.Prelude.{◌≡◌, ◌<◌, ◌≤◌, ◌+◌, ◌-◌, ◌^◌, ◌⊎◌, None, Some, length, map, vec_len, vec_capacity};
ghost use Rattle.bt_matrix.specs.Traffic.{entry, with_entry};
ghost use Rattle.bt_matrix.specs.Table.{place, rows_of, new_node};
ghost use Rattle.bt_matrix.specs.Crosslinked.{KeepsLinks, KeepsFree};

use crate::node::{Entry, Neighbours, Node, link, set_units, unlink};
use crate::pool::put_node;
use crate::table::{before_in_column, before_in_row, place_at, set_place};
use bt_frame::BeamNo;

/// The node for a place that has none, with the neighbours that it will have.
pub(crate) fn node_at(
    nodes: &[Node],
    table: &[Vec<Option<u16>>],
    up: BeamNo,
    down: BeamNo,
    units: u32,
) -> Node
    requires up { up.0 < length table.now }
    requires down { down.0 < length table.now }
    requires empty { place (map (λ line. line.items) table.now) up.0 down.0 ≡ None }
    requires links { KeepsLinks nodes.now (map (λ line. line.items) table.now) }
    ensures { result ≡ new_node (map (λ line. line.items) table.now) up.0 down.0 units }
{
    let line = &table[up.0 as usize];
    let left = before_in_row(&line[..down.0 as usize], up.0 as u16);
    let above = before_in_column(&table[..up.0 as usize], down, down.0 as u16);
    Node {
        entry: Entry {
            up: up.0,
            down: down.0,
            units,
        },
        row: Neighbours {
            before: left,
            after: nodes[left as usize].row.after,
        },
        column: Neighbours {
            before: above,
            after: nodes[above as usize].column.after,
        },
    }
}

/// Gives a place that has none a node of these slots.
pub(crate) fn put_entry(
    nodes: &mut Vec<Node>,
    free: &mut Vec<u16>,
    table: &mut [Vec<Option<u16>>],
    up: BeamNo,
    down: BeamNo,
    units: u32,
)
    requires up { up.0 < length table.old }
    requires down { down.0 < length table.old }
    requires empty { place (map (λ line. line.items) table.old) up.0 down.0 ≡ None }
    requires positive { 0 < units }
    requires links { KeepsLinks nodes.old.items (map (λ line. line.items) table.old) }
    requires listed { KeepsFree nodes.old.items (map (λ line. line.items) table.old) free.old.items }
    requires room { (0 < length free.old.items) ⊎ (vec_len nodes.old < vec_capacity nodes.old) }
    requires few { length nodes.old.items < 2 ^ 16 }
    ensures links { KeepsLinks nodes.new.items (map (λ line. line.items) table.new) }
    ensures listed { KeepsFree nodes.new.items (map (λ line. line.items) table.new) free.new.items }
    ensures rows { rows_of nodes.new.items (map (λ line. line.items) table.new)
        ≡ with_entry (rows_of nodes.old.items (map (λ line. line.items) table.old)) up.0 down.0 units }
    ensures came { length nodes.new.items + length free.old.items ≡ length nodes.old.items + length free.new.items + 1 }
    ensures room { vec_capacity nodes.new ≡ vec_capacity nodes.old }
    ensures free { vec_capacity free.new ≡ vec_capacity free.old }
{
    let node = node_at(nodes.as_slice(), table, up, down, units);
    let k = put_node(nodes, free, node);
    link(nodes.as_mut_slice(), k);
    set_place(table, up, down, Some(k));
}

/// Takes the node away from a place.
pub(crate) fn take_entry(
    nodes: &mut Vec<Node>,
    free: &mut Vec<u16>,
    table: &mut [Vec<Option<u16>>],
    up: BeamNo,
    down: BeamNo,
    k: u16,
)
    requires up { up.0 < length table.old }
    requires down { down.0 < length table.old }
    requires full { place (map (λ line. line.items) table.old) up.0 down.0 ≡ Some k }
    requires links { KeepsLinks nodes.old.items (map (λ line. line.items) table.old) }
    requires listed { KeepsFree nodes.old.items (map (λ line. line.items) table.old) free.old.items }
    requires room { vec_len nodes.old ≤ vec_capacity free.old }
    ensures links { KeepsLinks nodes.new.items (map (λ line. line.items) table.new) }
    ensures listed { KeepsFree nodes.new.items (map (λ line. line.items) table.new) free.new.items }
    ensures rows { rows_of nodes.new.items (map (λ line. line.items) table.new)
        ≡ with_entry (rows_of nodes.old.items (map (λ line. line.items) table.old)) up.0 down.0 0 }
    ensures count { length nodes.new.items ≡ length nodes.old.items }
    ensures listed_one { length free.new.items ≡ length free.old.items + 1 }
    ensures room { vec_capacity nodes.new ≡ vec_capacity nodes.old }
    ensures free { vec_capacity free.new ≡ vec_capacity free.old }
{
    unlink(nodes.as_mut_slice(), k);
    set_place(table, up, down, None);
    free.push_reserved(k);
}

/// An entry gains units.
pub(crate) fn raise_entry(
    nodes: &mut Vec<Node>,
    free: &mut Vec<u16>,
    table: &mut [Vec<Option<u16>>],
    up: BeamNo,
    down: BeamNo,
    units: u32,
)
    requires up { up.0 < length table.old }
    requires down { down.0 < length table.old }
    requires positive { 0 < units }
    requires fits { entry (rows_of nodes.old.items (map (λ line. line.items) table.old)) up.0 down.0 + units < 2 ^ 32 }
    requires links { KeepsLinks nodes.old.items (map (λ line. line.items) table.old) }
    requires listed { KeepsFree nodes.old.items (map (λ line. line.items) table.old) free.old.items }
    requires few { vec_capacity nodes.old < 2 ^ 16 }
    requires room { (0 < entry (rows_of nodes.old.items (map (λ line. line.items) table.old)) up.0 down.0)
        ⊎ (1 ≤ length free.old.items + vec_capacity nodes.old - vec_len nodes.old) }
    ensures links { KeepsLinks nodes.new.items (map (λ line. line.items) table.new) }
    ensures listed { KeepsFree nodes.new.items (map (λ line. line.items) table.new) free.new.items }
    ensures rows { rows_of nodes.new.items (map (λ line. line.items) table.new)
        ≡ with_entry (rows_of nodes.old.items (map (λ line. line.items) table.old)) up.0 down.0
        (entry (rows_of nodes.old.items (map (λ line. line.items) table.old)) up.0 down.0 + units) }
    ensures came { length nodes.new.items + length free.old.items ≤ length nodes.old.items + length free.new.items + 1 }
    ensures room { vec_capacity nodes.new ≡ vec_capacity nodes.old }
    ensures free { vec_capacity free.new ≡ vec_capacity free.old }
{
    match place_at(table, up, down) {
        Some(k) => {
            let held = nodes[k as usize].entry.units;
            set_units(nodes.as_mut_slice(), k, held + units);
        }
        None => put_entry(nodes, free, table, up, down, units),
    }
}

/// An entry loses units.
pub(crate) fn lower_entry(
    nodes: &mut Vec<Node>,
    free: &mut Vec<u16>,
    table: &mut [Vec<Option<u16>>],
    up: BeamNo,
    down: BeamNo,
    units: u32,
)
    requires up { up.0 < length table.old }
    requires down { down.0 < length table.old }
    requires positive { 0 < units }
    requires held { units ≤ entry (rows_of nodes.old.items (map (λ line. line.items) table.old)) up.0 down.0 }
    requires links { KeepsLinks nodes.old.items (map (λ line. line.items) table.old) }
    requires listed { KeepsFree nodes.old.items (map (λ line. line.items) table.old) free.old.items }
    requires room { vec_len nodes.old ≤ vec_capacity free.old }
    ensures links { KeepsLinks nodes.new.items (map (λ line. line.items) table.new) }
    ensures listed { KeepsFree nodes.new.items (map (λ line. line.items) table.new) free.new.items }
    ensures rows { rows_of nodes.new.items (map (λ line. line.items) table.new)
        ≡ with_entry (rows_of nodes.old.items (map (λ line. line.items) table.old)) up.0 down.0
        (entry (rows_of nodes.old.items (map (λ line. line.items) table.old)) up.0 down.0 - units) }
    ensures count { length nodes.new.items ≡ length nodes.old.items }
    ensures kept { length free.old.items ≤ length free.new.items }
    ensures room { vec_capacity nodes.new ≡ vec_capacity nodes.old }
    ensures free { vec_capacity free.new ≡ vec_capacity free.old }
{
    if let Some(k) = place_at(table, up, down) {
        let held = nodes[k as usize].entry.units;
        if held == units {
            take_entry(nodes, free, table, up, down, k);
        } else {
            set_units(nodes.as_mut_slice(), k, held - units);
        }
    }
}
