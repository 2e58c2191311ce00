// The links of a text as they are read: a place for each pair of terminals, since lines come in any order.
ghost use Rattle.std.specs.Prelude.{◌≡◌, ◌≢◌, ◌+◌, ◌*◌, ◌<◌, ◌≤◌, [], IfOk, replicate};
ghost use Rattle.bt_frame.specs.declared.limits.TheConstants.{MOST_TERMINALS, MOST_UNITS};
ghost use Rattle.bt_demand.specs.Demand.{units_of, Gains, IsDemand};
ghost use Rattle.bt_plan.specs.LinkTable.{link_at};

use bt_demand::{Demand, Link};
use bt_frame::{MOST_TERMINALS, OutOfMemory, TermNo};
use std::alloc::Global;
use std::marker::Model;

/// The places of the table: one for each terminal that sends and each that receives.
const PLACES: usize = MOST_TERMINALS * MOST_TERMINALS;

/// Links kept by their ends. It is seen as the links in order.
#[derive(Drop)]
pub(crate) struct LinkTable {
    places: Vec<u32>,
}

impl Model for LinkTable {
    ghost use Rattle.std.specs.Prelude.{List};
    ghost use Rattle.bt_demand.specs.declared.demand.Link.{Link};
    ghost use Rattle.bt_plan.specs.LinkTable.{links_from, IsTable};

    ghost Value = { List Link };

    ghost view = { λ a. links_from 0 a.places.items };

    ghost invariant = { λ a. IsTable a.places.items };
}

impl LinkTable {
    /// No link.
    pub(crate) fn new(alloc: Global) -> Result<LinkTable, OutOfMemory>
        ensures { IfOk result (λ table. table ≡ []) }
    {
        let places = nothing_asked(alloc, PLACES)?;
        Ok(LinkTable { places })
    }

    /// The slots of a link, 0 where it is not in the table.
    pub(crate) fn units(&self, from: TermNo, to: TermNo) -> u32
        requires sends { from.0 < MOST_TERMINALS }
        requires receives { to.0 < MOST_TERMINALS }
        ensures { result ≡ units_of self.now from to }
    {
        self.places[place_of(from, to)]
    }

    /// Adds a link that asked for nothing so far.
    pub(crate) fn add(&mut self, from: TermNo, to: TermNo, units: u32)
        requires sends { from.0 < MOST_TERMINALS }
        requires receives { to.0 < MOST_TERMINALS }
        requires differ { from.0 ≢ to.0 }
        requires few { units ≤ MOST_UNITS }
        requires new { units_of self.old from to ≡ 0 }
        ensures gains { Gains self.old self.new from to units }
        ensures demand { IsDemand self.new }
    {
        self.places[place_of(from, to)] = units;
    }

    /// The links as a demand.
    pub(crate) fn demand(&self, alloc: Global) -> Result<Demand, OutOfMemory>
        ensures { IfOk result (λ demand. demand ≡ self.now) }
    {
        let mut demand = Demand::empty(alloc);
        for place in 0..PLACES {
            let units = self.places[place];
            if units > 0 {
                demand.push(alloc, link_at(place, units))?;
            }
        }
        Ok(demand)
    }
}

// So many places, none of which asks for slots.
fn nothing_asked(alloc: Global, places: usize) -> Result<Vec<u32>, OutOfMemory>
    ensures { IfOk result (λ units. units.items ≡ replicate places 0) }
{
    Ok(vec![in alloc; 0; places]?)
}

// The place of a link.
fn place_of(from: TermNo, to: TermNo) -> usize
    requires sends { from.0 < MOST_TERMINALS }
    requires receives { to.0 < MOST_TERMINALS }
    ensures place { result ≡ from.0 * MOST_TERMINALS + to.0 }
    ensures in_range { result < PLACES }
{
    from.0 as usize * MOST_TERMINALS + to.0 as usize
}

// The link of a place.
fn link_at(place: usize, units: u32) -> Link
    requires { place < PLACES }
    ensures { result ≡ link_at place units }
{
    Link {
        from: TermNo((place / MOST_TERMINALS) as u8),
        to: TermNo((place % MOST_TERMINALS) as u8),
        units,
    }
}
