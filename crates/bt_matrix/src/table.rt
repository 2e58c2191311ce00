// The table: which node stands for an entry.
ghost use Rattle.std.specs.Prelude.{◌≡◌, ◌<◌, length, map, All, IfSome};
ghost use Rattle.bt_matrix.specs.Links.{nodes_of, last_or};
ghost use Rattle.bt_matrix.specs.Cursor.{start_of};
ghost use Rattle.bt_matrix.specs.Table.{line_of, column_of, place, with_place};

use bt_frame::BeamNo;

/// The node of an entry, or none.
pub(crate) fn place_at(table: &[Vec<Option<u16>>], up: BeamNo, down: BeamNo) -> Option<u16>
    requires up { up.0 < length table.now }
    requires down { down.0 < length (line_of (map (λ line. line.items) table.now) up.0) }
    ensures { result ≡ place (map (λ line. line.items) table.now) up.0 down.0 }
{
    let line = &table[up.0 as usize];
    line[down.0 as usize]
}

/// The node from whose right link a walk over a row goes on: that of the last entry, or else the head.
pub(crate) fn start_node(table: &[Vec<Option<u16>>], up: BeamNo, last: Option<BeamNo>) -> u16
    requires up { up.0 < length table.now }
    requires down { IfSome last (λ down. down.0 < length (line_of (map (λ line. line.items) table.now) up.0)) }
    ensures { result ≡ start_of (map (λ line. line.items) table.now) up.0 last }
{
    match last {
        Some(down) => place_at(table, up, down).unwrap_or(up.0 as u16),
        None => up.0 as u16,
    }
}

/// Writes which node stands for an entry.
pub(crate) fn set_place(table: &mut [Vec<Option<u16>>], up: BeamNo, down: BeamNo, at: Option<u16>)
    requires up { up.0 < length table.old }
    requires down { down.0 < length (line_of (map (λ line. line.items) table.old) up.0) }
    ensures { map (λ line. line.items) table.new ≡ with_place (map (λ line. line.items) table.old) up.0 down.0 at }
{
    table[up.0 as usize][down.0 as usize] = at;
}

/// The last node of these places, or else the one before them.
pub(crate) fn before_in_row(line: &[Option<u16>], head: u16) -> u16
    ensures { result ≡ last_or head (nodes_of line.now) }
{
    let mut last = head;
    for at in line {
        last = at.unwrap_or(last);
    }
    last
}

/// The last node that these lines have at a column, or else the one before them.
pub(crate) fn before_in_column(table: &[Vec<Option<u16>>], down: BeamNo, head: u16) -> u16
    requires long { All (λ line. down.0 < length line.items) table.now }
    ensures { result ≡ last_or head (nodes_of (column_of (map (λ line. line.items) table.now) down.0)) }
{
    let mut last = head;
    for line in table {
        last = line[down.0 as usize].unwrap_or(last);
    }
    last
}
