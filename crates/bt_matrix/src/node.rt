// Nodes and the links between them. A node is known by its place in the vector of all, a number of 16 bits: a head for
// each of `MOST_BEAMS` beams and a node for each pair of them are far fewer.
ghost use Rattle.std.specs.Prelude.{◌<◌, length};
ghost use Rattle.bt_matrix.specs.Links.{IsJoinedInRow, IsJoinedInColumn, NamesNeighbours, IsLinkable, IsLinkedIn, IsLinkedOut, IsRevalued};

/// The nodes before and after a node in one line, by index.
#[derive(Clone, Copy)]
pub(crate) struct Neighbours {
    /// The one to the left, or above.
    pub before: u16,
    /// The one to the right, or below.
    pub after: u16,
}

/// A positive entry, by its place and its slots.
#[derive(Clone, Copy)]
pub(crate) struct Entry {
    /// The uplink beam.
    pub up: u8,
    /// The downlink beam.
    pub down: u8,
    /// Slots per frame.
    pub units: u32,
}

/// A node: an entry, and its neighbours in its row and in its column.
#[derive(Clone, Copy)]
pub(crate) struct Node {
    /// What the node stands for.
    pub entry: Entry,
    /// Left and right.
    pub row: Neighbours,
    /// Up and down.
    pub column: Neighbours,
}

/// Makes two nodes neighbours in their row.
fn join_in_row(nodes: &mut [Node], left: u16, right: u16)
    requires left { left < length nodes.old }
    requires right { right < length nodes.old }
    ensures { IsJoinedInRow nodes.old nodes.new left right }
{
    nodes[left as usize].row.after = right;
    nodes[right as usize].row.before = left;
}

/// Makes two nodes neighbours in their column.
fn join_in_column(nodes: &mut [Node], above: u16, below: u16)
    requires above { above < length nodes.old }
    requires below { below < length nodes.old }
    ensures { IsJoinedInColumn nodes.old nodes.new above below }
{
    nodes[above as usize].column.after = below;
    nodes[below as usize].column.before = above;
}

/// Puts a node between the neighbours that it names.
pub(crate) fn link(nodes: &mut [Node], k: u16)
    requires { IsLinkable nodes.old k }
    ensures { IsLinkedIn nodes.old nodes.new k }
{
    let Node { row, column, .. } = nodes[k as usize];
    join_in_row(nodes, row.before, k);
    join_in_row(nodes, k, row.after);
    join_in_column(nodes, column.before, k);
    join_in_column(nodes, k, column.after);
}

/// Makes the neighbours of a node neighbours of each other.
pub(crate) fn unlink(nodes: &mut [Node], k: u16)
    requires { NamesNeighbours nodes.old k }
    ensures { IsLinkedOut nodes.old nodes.new k }
{
    let Node { row, column, .. } = nodes[k as usize];
    join_in_row(nodes, row.before, row.after);
    join_in_column(nodes, column.before, column.after);
}

/// Writes the slots of a node.
pub(crate) fn set_units(nodes: &mut [Node], k: u16, units: u32)
    requires { k < length nodes.old }
    ensures { IsRevalued nodes.old nodes.new k units }
{
    nodes[k as usize].entry.units = units;
}
