// The journal with the fewest edits that comes to a demand.
ghost use Rattle.std.specs.Prelude.{◌≡◌, ◌*◌, ◌≤◌, ◌++◌, All, IfErr, IfOk, OnOk, length};
ghost use Rattle.bt_frame.specs.declared.limits.TheConstants.{LAST_EDITION, MOST_TERMINALS};
ghost use Rattle.bt_frame.specs.Range.{IsWithin};
ghost use Rattle.bt_demand.specs.Rows.{all_links};
ghost use Rattle.bt_demand.specs.Traffic.{matrix_of, AreOfNetwork, HasSumsTo};
ghost use Rattle.bt_plan.specs.TrafficText.{IsSpelled};
ghost use Rattle.bt_journal.specs.JournalLines.{change_line, journal_lines};
ghost use Rattle.bt_look.specs.Compact.{add_of, adds_of, compact_lines};
ghost use Rattle.bt_look.specs.Look.{IsLookFault, TellsCompact};

use crate::look::look;
use bt_book::{RecoverFault, demands_fit_the_frame};
use bt_demand::{Demand, Link, LinkRow};
use bt_frame::{EditionNo, OutOfMemory, Units};
use bt_journal::{Change, Edit, mark_text, write_change};
use bt_net::Network;
use std::alloc::Global;

/// The journal with the fewest edits that comes to the demand that a journal's bytes tell: the mark of the network, and an add
/// for each link in order. Its editions are numbered anew, and it has no plan and no order.
pub fn compact_journal(
    alloc: Global,
    net: &Network,
    bytes: Vec<u8>,
) -> Result<Vec<u8>, RecoverFault>
    ensures text { IfOk result (λ text. TellsCompact net.now bytes.items text.items) }
    ensures fault { IfErr result (IsLookFault net.now bytes.items) }
{
    // This is there for what holds of each network: it is sound.
    let _beams = net.beam_count();
    demands_fit_the_frame();
    let book = look(alloc, net, bytes)?;
    Ok(compact_text(alloc, net, book.demand())?)
}

/// The journal with the fewest edits that comes to a demand, which fits the frame.
pub fn compact_text(alloc: Global, net: &Network, demand: &Demand) -> Result<Vec<u8>, OutOfMemory>
    requires terminals { AreOfNetwork net.now demand.now }
    requires fits { HasSumsTo net.now.slots (matrix_of net.now demand.now) }
    ensures text { IfOk result (λ text. text.items ≡ compact_lines net.now demand.now) }
{
    // These are there for what holds of each network: it is sound, and its frame has at most `MOST_SLOTS` slots.
    let _slots = net.slots();
    let _terminals = net.terminal_count();
    let mut text = mark_text(alloc, net)?;
    add_rows(alloc, net, demand.rows(), &mut text)?;
    Ok(text)
}

/// Appends the lines of adds of all that the links of these rows have, numbered from 1.
fn add_rows(
    alloc: Global,
    net: &Network,
    rows: &[LinkRow],
    text: &mut Vec<u8>,
) -> Result<(), OutOfMemory>
    requires spelled { All (IsSpelled net.now) (all_links rows.now) }
    requires few { length (all_links rows.now) ≤ MOST_TERMINALS * MOST_TERMINALS }
    ensures { OnOk result (text.new.items ≡ text.old.items ++ journal_lines net.now (adds_of (all_links rows.now))) }
{
    let mut edition = 0;
    for row in rows {
        for link in row.as_slice() {
            edition += 1;
            add_link(alloc, net, EditionNo(edition), *link, text)?;
        }
    }
    Ok(())
}

/// Appends the line of an add of all that a link has, which makes that edition.
fn add_link(
    alloc: Global,
    net: &Network,
    edition: EditionNo,
    link: Link,
    text: &mut Vec<u8>,
) -> Result<(), OutOfMemory>
    requires edition { IsWithin 1 LAST_EDITION edition.0 }
    requires spelled { IsSpelled net.now link }
    ensures { OnOk result (text.new.items ≡ text.old.items ++ change_line net.now edition.0 (add_of link)) }
{
    let Some(units) = Units::new(link.units) else {
        unreachable!();
    };
    let add = Change::Edit(Edit::Add {
        from: link.from,
        to: link.to,
        units,
    });
    write_change(alloc, net, edition, &add, text)
}
