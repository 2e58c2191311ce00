// Room for one link more of a demand.
ghost use Rattle.std.specs.Prelude.{◌≡◌, []};

use crate::{Link, LinkRow};
use std::alloc::Global;

/// Memory for one link more of a demand, whoever sends on it: for the links of that sender, and for rows up to its own. What takes
/// room or uses it asks for lists without elements, and leaves them so.
#[derive(Drop)]
pub struct LinkRoom {
    /// What takes the memory.
    pub alloc: Global,
    /// Room for links.
    pub links: Vec<Link>,
    /// Room for rows.
    pub rows: Vec<LinkRow>,
}

impl LinkRoom {
    /// No room. It takes no memory.
    pub fn new(alloc: Global) -> LinkRoom
        ensures no_links { result.links.items ≡ [] }
        ensures no_rows { result.rows.items ≡ [] }
    {
        LinkRoom {
            alloc,
            links: Vec::new(alloc),
            rows: Vec::new(alloc),
        }
    }
}
