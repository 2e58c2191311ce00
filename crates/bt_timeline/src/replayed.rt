// What a journal comes to.
ghost use Rattle.std.specs.Prelude.{◌≡◌, ◌++◌, OnOk, OnErr};
ghost use Rattle.bt_net.specs.Terminals.{IsTerminal};
ghost use Rattle.bt_demand.specs.Rows.{all_links};
ghost use Rattle.bt_demand.specs.Traffic.{AreOfNetwork};
ghost use Rattle.bt_timeline.specs.Replayed.{link_line, link_lines, replay_lines, state_lines};
ghost use Rattle.bt_words.specs.Written.{Extends};

use bt_demand::{Demand, Link, LinkRow, Plan};
use bt_frame::{EditionNo, OutOfMemory};
use bt_net::Network;
use bt_words::{Word, add_line};
use std::alloc::Global;

/// Appends the last edition, the newest plan's edition and length in slots, the number of orders, and the links of the
/// demand with their units.
pub fn replay_text(
    alloc: Global,
    net: &Network,
    edition: EditionNo,
    newest: &Plan,
    orders: u32,
    demand: &Demand,
    out: &mut Vec<u8>,
) -> Result<(), OutOfMemory>
    requires demand { AreOfNetwork net.now demand.now }
    ensures added { OnOk result (out.new.items ≡ out.old.items ++ replay_lines net.now edition.0 newest.now orders demand.now) }
    ensures unchanged { OnErr result (out.new.items ≡ out.old.items) }
{
    let before = out.len();
    let added = add_replay(alloc, net, edition, newest, orders, demand, out);
    if added.is_err() {
        out.truncate(before);
    }
    added
}

/// Appends these lines. Want of memory leaves the first of them.
fn add_replay(
    alloc: Global,
    net: &Network,
    edition: EditionNo,
    newest: &Plan,
    orders: u32,
    demand: &Demand,
    out: &mut Vec<u8>,
) -> Result<(), OutOfMemory>
    requires { AreOfNetwork net.now demand.now }
    ensures added { OnOk result (out.new.items ≡ out.old.items ++ replay_lines net.now edition.0 newest.now orders demand.now) }
    ensures kept { Extends out.old.items out.new.items }
{
    add_state(alloc, edition, newest, orders, out)?;
    add_rows(alloc, net, demand.rows(), out)?;
    add_line(alloc, &[Word::Text("end")], out)
}

/// Appends the lines of the edition, the plan and the orders. Want of memory leaves the first of them.
#[tactic(auto, using(bt_words::proofs::Extending::extends_on))]
fn add_state(
    alloc: Global,
    edition: EditionNo,
    newest: &Plan,
    orders: u32,
    out: &mut Vec<u8>,
) -> Result<(), OutOfMemory>
    ensures added { OnOk result (out.new.items ≡ out.old.items ++ state_lines edition.0 newest.now orders) }
    ensures kept { Extends out.old.items out.new.items }
{
    add_line(
        alloc,
        &[Word::Text("edition"), Word::number(edition.0)],
        out,
    )?;
    let words = [
        Word::Text("plan"),
        Word::number(newest.edition.0),
        Word::Text("length"),
        Word::number(newest.schedule.length),
    ];
    add_line(alloc, &words, out)?;
    add_line(alloc, &[Word::Text("orders"), Word::number(orders)], out)
}

/// Appends the lines of the links of rows. Want of memory leaves the first of them.
fn add_rows(
    alloc: Global,
    net: &Network,
    rows: &[LinkRow],
    out: &mut Vec<u8>,
) -> Result<(), OutOfMemory>
    requires { AreOfNetwork net.now (all_links rows.now) }
    ensures added { OnOk result (out.new.items ≡ out.old.items ++ link_lines net.now (all_links rows.now)) }
    ensures kept { Extends out.old.items out.new.items }
{
    for row in rows {
        add_links(alloc, net, row.as_slice(), out)?;
    }
    Ok(())
}

/// Appends the lines of links. Want of memory leaves the first of them.
fn add_links(
    alloc: Global,
    net: &Network,
    links: &[Link],
    out: &mut Vec<u8>,
) -> Result<(), OutOfMemory>
    requires { AreOfNetwork net.now links.now }
    ensures added { OnOk result (out.new.items ≡ out.old.items ++ link_lines net.now links.now) }
    ensures kept { Extends out.old.items out.new.items }
{
    for link in links {
        link_text(alloc, net, link, out)?;
    }
    Ok(())
}

/// Appends the line of a link.
fn link_text(
    alloc: Global,
    net: &Network,
    link: &Link,
    out: &mut Vec<u8>,
) -> Result<(), OutOfMemory>
    requires sends { IsTerminal net.now link.now.from }
    requires receives { IsTerminal net.now link.now.to }
    ensures added { OnOk result (out.new.items ≡ out.old.items ++ link_line net.now link.now) }
    ensures unchanged { OnErr result (out.new.items ≡ out.old.items) }
{
    let words = [
        Word::Text("link"),
        Word::Text(net.name_of(link.from)),
        Word::Text(net.name_of(link.to)),
        Word::number(link.units),
    ];
    add_line(alloc, &words, out)
}
