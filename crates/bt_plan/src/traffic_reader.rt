// The text of a demand: a line for each link, in any order.
ghost use Rattle.std.specs.Prelude.{◌≡◌, ◌+◌, ◌<◌, ◌≤◌, ◌≢◌, length, IfOk, IsTrue, OnOk};
ghost use Rattle.bt_text.specs.Text.{words};
ghost use Rattle.bt_text.specs.Reading.{Gives};
ghost use Rattle.bt_net.specs.Name.{are_names};
ghost use Rattle.bt_demand.specs.Traffic.{matrix_of, AreOfNetwork, HasSumsTo};
ghost use Rattle.bt_frame.specs.declared.limits.TheConstants.{MOST_TERMINALS, MOST_UNITS};
ghost use Rattle.bt_plan.specs.TrafficText.{units_in, link_between, link_with, named_link, link_behind, link_in, links_with, line_with, demand_of, AreRead, IsSpelled};

use crate::link_table::LinkTable;
use crate::names::ends_of;
use crate::{TextCode, TextFault};
use bt_demand::{Demand, Link};
use bt_frame::{MOST_SUM, MOST_UNITS, TermNo};
use bt_matrix::{Dense, Traffic};
use bt_net::{Network, are_names};
use bt_text::{WordReader, fault_at, first_line, number};
use std::alloc::Global;

/// The demand that a text spells for this network, or the first line with a fault.
///
/// Whether it fits the slots of the network is for the caller to ask.
pub fn read_demand(alloc: Global, net: &Network, bytes: &[u8]) -> Result<Demand, TextFault>
    ensures reading { Gives (λ demand. demand) result (demand_of net.now bytes.now) }
    ensures terminals { IfOk result (AreOfNetwork net.now) }
    ensures sums { IfOk result (λ demand. HasSumsTo MOST_SUM (matrix_of net.now demand)) }
{
    let mut links = LinkTable::new(alloc)?;
    let mut matrix = Dense::new(alloc, net.beam_count())?;
    let mut rest = bytes;
    let mut at = 1;
    while let Some((line, after)) = first_line(rest) {
        add_line(net, at, line, &mut links, &mut matrix)?;
        rest = after;
        at += 1;
    }
    if !rest.is_empty() {
        return Err(fault_at(TextCode::T1, at));
    }
    Ok(links.demand(alloc)?)
}

// Adds the link of line `at` to those of the lines above, and to their matrix.
fn add_line(
    net: &Network,
    at: u32,
    line: &[u8],
    links: &mut LinkTable,
    matrix: &mut Dense,
) -> Result<(), TextFault>
    requires few { length net.now.terminals ≤ MOST_TERMINALS }
    requires read { AreRead net.now links.old matrix.old }
    ensures reading { Gives (λ _. links.new) result
        (line_with net.now at links.old (words line.now)) }
    ensures read { OnOk result (AreRead net.now links.new matrix.new) }
    ensures count { OnOk result (length links.new ≡ length links.old + 1) }
{
    let link = read_link(net, at, line)?;
    add_link(net, at, link, links, matrix)
}

// Adds the link of line `at`, if it did not stand before and its sums fit.
fn add_link(
    net: &Network,
    at: u32,
    link: Link,
    links: &mut LinkTable,
    matrix: &mut Dense,
) -> Result<(), TextFault>
    requires link { IsSpelled net.now link }
    requires few { length net.now.terminals ≤ MOST_TERMINALS }
    requires read { AreRead net.now links.old matrix.old }
    ensures reading { Gives (λ _. links.new) result (links_with net.now at links.old link) }
    ensures read { OnOk result (AreRead net.now links.new matrix.new) }
    ensures count { OnOk result (length links.new ≡ length links.old + 1) }
{
    if links.units(link.from, link.to) > 0 {
        return Err(fault_at(TextCode::T5, at));
    }
    let up = net.beam_of(link.from);
    let down = net.beam_of(link.to);
    if matrix.row_sum(up) + link.units > MOST_SUM {
        return Err(fault_at(TextCode::T3, at));
    }
    if matrix.column_sum(down) + link.units > MOST_SUM {
        return Err(fault_at(TextCode::T3, at));
    }
    links.add(link.from, link.to, link.units);
    matrix.add(up, down, link.units);
    Ok(())
}

// The link that line `at` says.
fn read_link(net: &Network, at: u32, line: &[u8]) -> Result<Link, TextFault>
    ensures reading { Gives (λ link. link) result (link_in net.now at (words line.now)) }
    ensures link { IfOk result (IsSpelled net.now) }
{
    link_of_words(net, at, WordReader::of(line))
}

fn link_of_words(net: &Network, at: u32, mut words: WordReader<'_>) -> Result<Link, TextFault>
    ensures reading { Gives (λ link. link) result (link_in net.now at words.entry) }
    ensures link { IfOk result (IsSpelled net.now) }
{
    if words.next_is(b"link") {
        link_behind(net, at, words)
    } else {
        Err(fault_at(TextCode::T1, at))
    }
}

// The link of the words behind `link`.
fn link_behind(net: &Network, at: u32, mut words: WordReader<'_>) -> Result<Link, TextFault>
    ensures reading { Gives (λ link. link) result (link_behind net.now at words.entry) }
    ensures link { IfOk result (IsSpelled net.now) }
{
    let Some(from) = words.next() else {
        return Err(fault_at(TextCode::T1, at));
    };
    let Some(to) = words.next() else {
        return Err(fault_at(TextCode::T1, at));
    };
    let Some(units) = words.next() else {
        return Err(fault_at(TextCode::T1, at));
    };
    if !words.is_done() {
        return Err(fault_at(TextCode::T1, at));
    }
    named_link(net, at, from, to, units)
}

// The link of any two words and of the word for its units.
fn named_link(
    net: &Network,
    at: u32,
    from: &[u8],
    to: &[u8],
    units: &[u8],
) -> Result<Link, TextFault>
    ensures reading { Gives (λ link. link) result (named_link net.now at from.now to.now units.now) }
    ensures link { IfOk result (IsSpelled net.now) }
{
    if !are_names(from, to) {
        return Err(fault_at(TextCode::T1, at));
    }
    let Some(number) = number(units) else {
        return Err(fault_at(TextCode::T1, at));
    };
    link_of(net, at, from, to, number)
}

// The link of two names and a number.
fn link_of(net: &Network, at: u32, from: &[u8], to: &[u8], number: u64) -> Result<Link, TextFault>
    requires names { IsTrue (are_names from.now to.now) }
    ensures reading { Gives (λ link. link) result (link_with net.now at from.now to.now number) }
    ensures link { IfOk result (IsSpelled net.now) }
{
    let ends = ends_of(net, TextCode::T2, at, from, to)?;
    let units = units(at, number)?;
    let link = link_between(at, ends, units)?;
    Ok(link)
}

// The units of a link.
fn units(at: u32, number: u64) -> Result<u32, TextFault>
    ensures reading { Gives (λ units. units) result (units_in at number) }
    ensures some { IfOk result (λ units. 0 < units) }
    ensures few { IfOk result (λ units. units ≤ MOST_UNITS) }
{
    if 1 <= number && number <= u64::from(MOST_UNITS) {
        Ok(number as u32)
    } else {
        Err(fault_at(TextCode::T3, at))
    }
}

// The link between two terminals that are not the same.
fn link_between(at: u32, ends: (TermNo, TermNo), units: u32) -> Result<Link, TextFault>
    ensures reading { Gives (λ link. link) result (link_between at ends units) }
    ensures from { IfOk result (λ link. link.from ≡ ends.0) }
    ensures to { IfOk result (λ link. link.to ≡ ends.1) }
    ensures units { IfOk result (λ link. link.units ≡ units) }
    ensures differ { IfOk result (λ link. link.from.0 ≢ link.to.0) }
{
    let (from, to) = ends;
    if from == to {
        return Err(fault_at(TextCode::T4, at));
    }
    Ok(Link { from, to, units })
}
