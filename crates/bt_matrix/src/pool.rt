// Where a node comes from.
ghost use Rattle.std.specs.Prelude.{◌≡◌, ◌<◌, ◌⊎◌, [], length, vec_len, vec_capacity, All, ◌^◌};
ghost use Rattle.bt_matrix.specs.Links.{IsPut};
ghost use Rattle.bt_matrix.specs.Pool.{CameFrom};

use crate::node::Node;

/// Writes a node where the free list says, or else behind the others, and takes no memory.
pub(crate) fn put_node(nodes: &mut Vec<Node>, free: &mut Vec<u16>, node: Node) -> u16
    requires within { All (λ k. k < length nodes.old.items) free.old.items }
    requires room { (0 < length free.old.items) ⊎ (vec_len nodes.old < vec_capacity nodes.old) }
    requires few { length nodes.old.items < 2 ^ 16 }
    ensures put { IsPut nodes.old.items nodes.new.items result node }
    ensures came { CameFrom nodes.old.items nodes.new.items free.old.items free.new.items result }
    ensures room { vec_capacity nodes.old ≡ vec_capacity nodes.new }
    ensures free { vec_capacity free.old ≡ vec_capacity free.new }
{
    match free.pop() {
        Some(k) => {
            nodes[k as usize] = node;
            k
        }
        None => {
            let k = nodes.len() as u16;
            nodes.push_reserved(node);
            k
        }
    }
}
