// The block that brings the demand of a journal to another.
ghost use Rattle.std.specs.Prelude.{◌≡◌, ◌++◌, IfErr, IfOk, OnOk, flat_map};
ghost use Rattle.bt_demand.specs.Traffic.{AreOfNetwork};
ghost use Rattle.bt_look.specs.Look.{IsLookFault};
ghost use Rattle.bt_net.specs.Terminals.{IsTerminal};
ghost use Rattle.bt_export.specs.Edits.{TellsEdits, block_lines, block_with, edit_line, surplus};

use crate::look::look;
use crate::surplus::surplus;
use bt_book::{RecoverFault, demands_fit_the_frame};
use bt_demand::{Demand, Link};
use bt_frame::OutOfMemory;
use bt_net::Network;
use bt_script::DeskNo;
use bt_words::{Word, add_line};
use std::alloc::Global;

/// The block in which a desk brings the demand that a journal's bytes tell to the one that is wanted: a line for each link whose
/// slots differ, those that lose first, each kind in order of the links. Nothing where no link differs.
pub fn edits_of_journal(
    alloc: Global,
    net: &Network,
    bytes: Vec<u8>,
    desk: DeskNo,
    want: &Demand,
) -> Result<Vec<u8>, RecoverFault>
    requires terminals { AreOfNetwork net.now want.now }
    ensures text { IfOk result (λ text. TellsEdits net.now bytes.items desk want.now text.items) }
    ensures fault { IfErr result (IsLookFault net.now bytes.items) }
{
    // This is there for what holds of each network: it is sound.
    let _beams = net.beam_count();
    demands_fit_the_frame();
    let book = look(alloc, net, bytes)?;
    Ok(edits_text(alloc, net, desk, book.demand(), want)?)
}

/// The block in which a desk brings the one demand to the other.
pub fn edits_text(
    alloc: Global,
    net: &Network,
    desk: DeskNo,
    have: &Demand,
    want: &Demand,
) -> Result<Vec<u8>, OutOfMemory>
    requires have { AreOfNetwork net.now have.now }
    requires want { AreOfNetwork net.now want.now }
    ensures text { IfOk result (λ text. text.items ≡ block_lines net.now desk (surplus have.now want.now) (surplus want.now have.now)) }
{
    let less = surplus(alloc, have, want)?;
    let more = surplus(alloc, want, have)?;
    if less.is_empty() && more.is_empty() {
        return Ok(Vec::new(alloc));
    }
    block_text(alloc, net, desk, less.as_slice(), more.as_slice())
}

/// The block in which a desk drops what the first links have, and adds what the others have.
fn block_text(
    alloc: Global,
    net: &Network,
    desk: DeskNo,
    less: &[Link],
    more: &[Link],
) -> Result<Vec<u8>, OutOfMemory>
    requires less { AreOfNetwork net.now less.now }
    requires more { AreOfNetwork net.now more.now }
    ensures { IfOk result (λ text. text.items ≡ block_with net.now desk less.now more.now) }
{
    let mut text = Vec::new(alloc);
    add_line(alloc, &[Word::Text("round")], &mut text)?;
    add_edits(alloc, net, desk, "drop", less, &mut text)?;
    add_edits(alloc, net, desk, "add", more, &mut text)?;
    add_line(alloc, &[Word::Text("go")], &mut text)?;
    Ok(text)
}

/// Appends the line of a desk's edit of that kind for each link.
fn add_edits(
    alloc: Global,
    net: &Network,
    desk: DeskNo,
    kind: &str,
    links: &[Link],
    text: &mut Vec<u8>,
) -> Result<(), OutOfMemory>
    requires { AreOfNetwork net.now links.now }
    ensures { OnOk result (text.new.items ≡ text.old.items ++ flat_map (edit_line net.now desk kind.now) links.now) }
{
    for link in links {
        add_edit(alloc, net, desk, kind, *link, text)?;
    }
    Ok(())
}

/// Appends the line of a desk's edit of that kind.
fn add_edit<'a>(
    alloc: Global,
    net: &'a Network,
    desk: DeskNo,
    kind: &'a str,
    link: Link,
    text: &mut Vec<u8>,
) -> Result<(), OutOfMemory>
    requires sends { IsTerminal net.now link.from }
    requires receives { IsTerminal net.now link.to }
    ensures { OnOk result (text.new.items ≡ text.old.items ++ edit_line net.now desk kind.now link) }
{
    let words = [
        Word::Text("desk"),
        Word::number(u32::from(desk.get())),
        Word::Text(kind),
        Word::Text(net.name_of(link.from)),
        Word::Text(net.name_of(link.to)),
        Word::number(link.units),
    ];
    add_line(alloc, &words, text)
}
