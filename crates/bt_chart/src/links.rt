// The links of the demand, the largest first.
ghost use Rattle.std.specs.Prelude.{◌≡◌, ◌-◌, ◌++◌, flat_map, IfOk, OnOk};
ghost use Rattle.std.specs.List.Sorted.{IsNonDecreasingBy, IsPermutation};
ghost use Rattle.bt_demand.specs.Rows.{all_links};
ghost use Rattle.bt_demand.specs.Traffic.{AreOfNetwork};
ghost use Rattle.bt_net.specs.Terminals.{IsTerminal};
ghost use Rattle.bt_chart.specs.Page.{link_item, links_text};

use crate::pieces::add_words;
use bt_demand::{Demand, Link, LinkRow};
use bt_frame::{MOST_SUM, OutOfMemory};
use bt_net::Network;
use bt_words::Word;
use std::alloc::Global;

/// The links of a demand, the largest first.
pub(crate) fn by_size(alloc: Global, demand: &Demand) -> Result<Vec<Link>, OutOfMemory>
    ensures same { IfOk result (λ sorted. IsPermutation demand.now sorted.items) }
    ensures falling { IfOk result (λ sorted. IsNonDecreasingBy (λ link. MOST_SUM - link.units) sorted.items) }
{
    let mut links = links_of(alloc, demand.rows())?;
    links.sort_by_key(|link| MOST_SUM.saturating_sub(link.units))?;
    Ok(links)
}

/// The links of rows, one row behind the other.
fn links_of(alloc: Global, rows: &[LinkRow]) -> Result<Vec<Link>, OutOfMemory>
    ensures { IfOk result (λ links. links.items ≡ all_links rows.now) }
{
    let mut links = Vec::new(alloc);
    for row in rows {
        links.extend_from_slice(row.as_slice())?;
    }
    Ok(links)
}

/// Appends the list of links.
pub(crate) fn add_links(
    alloc: Global,
    net: &Network,
    links: &[Link],
    out: &mut Vec<u8>,
) -> Result<(), OutOfMemory>
    requires terminals { AreOfNetwork net.now links.now }
    ensures { OnOk result (out.new.items ≡ out.old.items ++ links_text net.now links.now) }
{
    let words = [
        Word::Text("<section aria-labelledby='links'>\n<h2 id='links'>"),
        Word::Text("Links, the largest first</h2>\n<ul>\n"),
    ];
    add_words(alloc, &words, out)?;
    add_items(alloc, net, links, out)?;
    add_words(alloc, &[Word::Text("</ul>\n</section>\n")], out)
}

/// Appends the items of links.
fn add_items(
    alloc: Global,
    net: &Network,
    links: &[Link],
    out: &mut Vec<u8>,
) -> Result<(), OutOfMemory>
    requires { AreOfNetwork net.now links.now }
    ensures { OnOk result (out.new.items ≡ out.old.items ++ flat_map (link_item net.now) links.now) }
{
    for link in links {
        add_link(alloc, net, *link, out)?;
    }
    Ok(())
}

/// Appends the item of a link.
fn add_link(alloc: Global, net: &Network, link: Link, out: &mut Vec<u8>) -> Result<(), OutOfMemory>
    requires from { IsTerminal net.now link.from }
    requires to { IsTerminal net.now link.to }
    ensures { OnOk result (out.new.items ≡ out.old.items ++ link_item net.now link) }
{
    let words = [
        Word::Text("<li>"),
        Word::Text(net.name_of(link.from)),
        Word::Text(" to "),
        Word::Text(net.name_of(link.to)),
        Word::Text(" <b>"),
        Word::number(link.units),
        Word::Text("</b></li>\n"),
    ];
    add_words(alloc, &words, out)
}
