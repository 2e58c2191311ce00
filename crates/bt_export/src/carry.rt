// The demand of a journal on another network.
ghost use Rattle.std.specs.Prelude.{◌≡◌, ◌≢◌, ◌*◌, ◌<◌, ◌≤◌, [], IfErr, IfNone, IfOk, IfSome, length, true};
ghost use Rattle.bt_frame.specs.declared.limits.TheConstants.{MOST_SUM, MOST_TERMINALS};
ghost use Rattle.bt_demand.specs.Demand.{IsDemand, units_where};
ghost use Rattle.bt_demand.specs.Traffic.{AreOfNetwork, HasSumsTo, matrix_of};
ghost use Rattle.bt_look.specs.Look.{IsLookFault};
ghost use Rattle.bt_net.specs.Terminals.{IsTerminal};
ghost use Rattle.bt_export.specs.Carry.{AreBetween, ComesTo, HasEnds, HasSmallSums, IsCarried, IsFirstGone, TellsCarried};
ghost use Rattle.bt_export.specs.Named.{AreNamed};

use crate::look::look;
use bt_book::{RecoverFault, demands_fit_the_frame};
use bt_demand::{Demand, Link};
use bt_frame::{OutOfMemory, TermNo};
use bt_net::Network;
use std::alloc::Global;

/// What a demand comes to on another network.
#[derive(Drop)]
pub enum Carried {
    /// The demand there, by the names of terminals.
    Demand(Demand),
    /// That network has not both ends of this link, counted from 1 in order, and those of each before it.
    Gone(u32),
}

/// What the demand that a journal's bytes tell comes to on another network.
pub fn carried_of_journal(
    alloc: Global,
    net: &Network,
    bytes: Vec<u8>,
    new: &Network,
) -> Result<Carried, RecoverFault>
    ensures carried { IfOk result (TellsCarried net.now bytes.items new.now) }
    ensures between { IfOk result (AreBetween new.now) }
    ensures sums { IfOk result (HasSmallSums MOST_SUM new.now) }
    ensures fault { IfErr result (IsLookFault net.now bytes.items) }
{
    // This is there for what holds of each network: it is sound.
    let _beams = net.beam_count();
    demands_fit_the_frame();
    let book = look(alloc, net, bytes)?;
    Ok(carry_demand(alloc, net, book.demand(), new)?)
}

/// What a demand, which fits its frame, comes to on another network. Whether it fits the frame there is for the caller to ask.
pub fn carry_demand(
    alloc: Global,
    net: &Network,
    demand: &Demand,
    new: &Network,
) -> Result<Carried, OutOfMemory>
    requires terminals { AreOfNetwork net.now demand.now }
    requires fits { HasSumsTo net.now.slots (matrix_of net.now demand.now) }
    ensures carried { IfOk result (ComesTo net.now demand.now new.now) }
    ensures between { IfOk result (AreBetween new.now) }
    ensures sums { IfOk result (HasSmallSums MOST_SUM new.now) }
{
    // This is there for what holds of each network: it is sound.
    let _terminals = net.terminal_count();
    let links = links_of(alloc, demand)?;
    let mut there = Demand::empty(alloc);
    match add_all(alloc, net, links.as_slice(), new, &mut there)? {
        Some(number) => Ok(Carried::Gone(number)),
        None => Ok(Carried::Demand(there)),
    }
}

/// The links of a demand, one behind the other.
fn links_of(alloc: Global, demand: &Demand) -> Result<Vec<Link>, OutOfMemory>
    ensures links { IfOk result (λ links. links.items ≡ demand.now) }
    ensures demand { IsDemand demand.now }
{
    let mut links = Vec::new(alloc);
    for row in demand.rows() {
        links.extend_from_slice(row.as_slice())?;
    }
    Ok(links)
}

/// Adds each link to a demand on another network, between the terminals of its names there; or answers the first for which that
/// has not both, counted from 1.
fn add_all(
    alloc: Global,
    net: &Network,
    links: &[Link],
    new: &Network,
    there: &mut Demand,
) -> Result<Option<u32>, OutOfMemory>
    requires demand { IsDemand links.now }
    requires terminals { AreOfNetwork net.now links.now }
    requires few { length links.now ≤ MOST_TERMINALS * MOST_TERMINALS }
    requires small { units_where (λ from to. true) links.now ≤ MOST_SUM }
    requires none { there.old ≡ [] }
    ensures gone { IfOk result (λ gone. IfSome gone (IsFirstGone net.now links.now new.now)) }
    ensures carried { IfOk result (λ gone. IfNone gone (IsCarried net.now links.now new.now there.new)) }
{
    // This is there for what holds of each network: no two of its terminals have one name.
    let _terminals = net.terminal_count();
    for (place, link) in links.iter().enumerate() {
        let Some(ends) = ends_on(net, *link, new) else {
            return Ok(Some(place as u32 + 1));
        };
        there.add(alloc, ends.0, ends.1, link.units)?;
    }
    Ok(None)
}

/// The terminals of another network that have the names of a link's ends.
fn ends_on(net: &Network, link: Link, new: &Network) -> Option<(TermNo, TermNo)>
    requires sends { IsTerminal net.now link.from }
    requires receives { IsTerminal net.now link.to }
    ensures some { IfSome result (AreNamed net.now link new.now) }
    ensures none { IfNone result (¬ (HasEnds net.now new.now link)) }
{
    let Some(from) = new.find(net.name_of(link.from)) else {
        return None;
    };
    let Some(to) = new.find(net.name_of(link.to)) else {
        return None;
    };
    Some((from, to))
}
