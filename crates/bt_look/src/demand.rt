// The demand of an edition, as the text of its links.
ghost use Rattle.std.specs.Prelude.{◌≡◌, ◌++◌, ◌<◌, IfErr, IfNone, IfOk, IfSome, IsSomeAnd, None, OnOk, option_map};
ghost use Rattle.bt_demand.specs.Rows.{all_links};
ghost use Rattle.bt_demand.specs.Traffic.{AreOfNetwork};
ghost use Rattle.bt_net.specs.Terminals.{IsTerminal};
ghost use Rattle.bt_history.specs.Causes.{Follows};
ghost use Rattle.bt_history.specs.Changes.{edition};
ghost use Rattle.bt_timeline.specs.Replayed.{link_line, link_lines};
ghost use Rattle.bt_look.specs.Look.{IsDemandOf, IsDemandText, IsLinksText, IsLookFault, TellsDemand};

use crate::look::look;
use bt_book::{Book, RecoverFault};
use bt_demand::{Demand, Link, LinkRow};
use bt_frame::{EditionNo, OutOfMemory};
use bt_net::Network;
use bt_outside::Keeper;
use bt_words::{Word, add_line};
use std::alloc::Global;

/// The links of the demand of an edition that a journal's bytes tell, of the last without a number: a line each, as the text of
/// a demand has them. None where they tell of no such edition.
pub fn demand_of_journal(
    alloc: Global,
    net: &Network,
    bytes: Vec<u8>,
    asked: Option<EditionNo>,
) -> Result<Option<Vec<u8>>, RecoverFault>
    ensures text { IfOk result (λ text. TellsDemand net.now bytes.items asked (option_map (λ t. t.items) text)) }
    ensures fault { IfErr result (IsLookFault net.now bytes.items) }
{
    let book = look(alloc, net, bytes)?;
    Ok(text_in(alloc, net, &book, asked)?)
}

/// The links of the demand of a book, a line each.
pub fn demand_of_book<K: Keeper>(
    alloc: Global,
    net: &Network,
    book: &Book<K>,
) -> Result<Vec<u8>, OutOfMemory>
    requires follows { Follows net.now book.now.state.changes }
    ensures text { IfOk result (λ text. IsLinksText net.now book.now.state.changes None text.items) }
{
    // This is there for what holds of each network: it is sound.
    let _beams = net.beam_count();
    demand_text(alloc, net, book.demand())
}

/// The same of a book that a journal's bytes came to.
fn text_in<K: Keeper>(
    alloc: Global,
    net: &Network,
    book: &Book<K>,
    asked: Option<EditionNo>,
) -> Result<Option<Vec<u8>>, OutOfMemory>
    requires follows { Follows net.now book.now.state.changes }
    ensures { IfOk result (λ text. IsDemandText net.now book.now.state.changes asked (option_map (λ t. t.items) text)) }
{
    match demand_in(alloc, net, book, asked)? {
        Some(demand) => Ok(Some(demand_text(alloc, net, &demand)?)),
        None => Ok(None),
    }
}

/// The demand of an edition of a book, of the last without a number.
fn demand_in<K: Keeper>(
    alloc: Global,
    net: &Network,
    book: &Book<K>,
    asked: Option<EditionNo>,
) -> Result<Option<Demand>, OutOfMemory>
    requires follows { Follows net.now book.now.state.changes }
    ensures some { IfOk result (λ found. IfSome found (IsDemandOf book.now.state.changes asked)) }
    ensures terminals { IfOk result (λ found. IfSome found (AreOfNetwork net.now)) }
    ensures none { IfOk result (λ found. IfNone found (IsSomeAnd asked (λ number. edition book.now.state.changes < number.0))) }
{
    // This is there for what holds of each network: it is sound.
    let _beams = net.beam_count();
    let Some(number) = asked else {
        return Ok(Some(book.demand().copy(alloc)?));
    };
    if number.0 > book.edition().0 {
        return Ok(None);
    }
    Ok(Some(book.demand_at(alloc, number)?))
}

/// The links of a demand, a line each.
pub fn demand_text(alloc: Global, net: &Network, demand: &Demand) -> Result<Vec<u8>, OutOfMemory>
    requires terminals { AreOfNetwork net.now demand.now }
    ensures text { IfOk result (λ text. text.items ≡ link_lines net.now demand.now) }
{
    let mut text = Vec::new(alloc);
    add_rows(alloc, net, demand.rows(), &mut text)?;
    Ok(text)
}

/// Appends the lines of the links of rows.
fn add_rows(
    alloc: Global,
    net: &Network,
    rows: &[LinkRow],
    text: &mut Vec<u8>,
) -> Result<(), OutOfMemory>
    requires { AreOfNetwork net.now (all_links rows.now) }
    ensures { OnOk result (text.new.items ≡ text.old.items ++ link_lines net.now (all_links rows.now)) }
{
    for row in rows {
        add_links(alloc, net, row.as_slice(), text)?;
    }
    Ok(())
}

/// Appends the lines of links.
fn add_links(
    alloc: Global,
    net: &Network,
    links: &[Link],
    text: &mut Vec<u8>,
) -> Result<(), OutOfMemory>
    requires { AreOfNetwork net.now links.now }
    ensures { OnOk result (text.new.items ≡ text.old.items ++ link_lines net.now links.now) }
{
    for link in links {
        add_link(alloc, net, *link, text)?;
    }
    Ok(())
}

/// Appends the line of a link.
fn add_link(alloc: Global, net: &Network, link: Link, text: &mut Vec<u8>) -> Result<(), OutOfMemory>
    requires sends { IsTerminal net.now link.from }
    requires receives { IsTerminal net.now link.to }
    ensures { OnOk result (text.new.items ≡ text.old.items ++ link_line net.now link) }
{
    let words = [
        Word::Text("link"),
        Word::Text(net.name_of(link.from)),
        Word::Text(net.name_of(link.to)),
        Word::number(link.units),
    ];
    add_line(alloc, &words, text)
}
