// The state that a journal tells.
ghost use Rattle.std.specs.Prelude.{◌≡◌, ◌++◌, IfErr, IfOk, OnOk, length};
ghost use Rattle.bt_history.specs.Causes.{Follows};
ghost use Rattle.bt_history.specs.Changes.{matrix_after};
ghost use Rattle.bt_look.specs.Look.{IsLookFault};
ghost use Rattle.bt_look.specs.State.{TellsState, book_lines, lines_with, made_lines, plan_line, plans_lines, size_lines, stopped_line, torn_line};

use crate::capacity::add_loads;
use crate::look::look;
use crate::measure::{JournalSize, size_of_journal};
use bt_book::{Book, RecoverFault, demands_fit_the_frame};
use bt_demand::{Plan, traffic_of};
use bt_frame::{MOST_JOURNAL_BYTES, OutOfMemory};
use bt_matrix::Dense;
use bt_net::Network;
use bt_outside::Keeper;
use bt_words::{Form, Word, add_line, print};
use std::alloc::Global;

/// The state that a journal's bytes tell, a line each: the last edition; the newest plan, with its length in slots, its modes and
/// its bursts; how many orders were placed; the bytes of the lines of its changes and how many a journal of the network may have;
/// those behind the last newline, where there are some; and what is asked of each beam in slots per frame, and free there.
pub fn state_text(alloc: Global, net: &Network, bytes: Vec<u8>) -> Result<Vec<u8>, RecoverFault>
    ensures text { IfOk result (λ text. TellsState net.now bytes.items text.items) }
    ensures fault { IfErr result (IsLookFault net.now bytes.items) }
{
    if bytes.len() as u64 > MOST_JOURNAL_BYTES {
        return Err(RecoverFault::TooLong);
    }
    let size = size_of_journal(alloc, net, bytes.as_slice())?;
    let book = look(alloc, net, bytes)?;
    Ok(text_of(alloc, net, &book, size)?)
}

/// The state that a book tells, in the same lines: of its journal the bytes of the lines of its changes, and none that stand
/// behind the last newline. Where a fault of the store has stopped the book, a line in front of them says so.
pub fn state_of_book<K: Keeper>(
    alloc: Global,
    net: &Network,
    book: &Book<K>,
) -> Result<Vec<u8>, OutOfMemory>
    requires network { book.now.net ≡ net.now }
    requires follows { Follows net.now book.now.state.changes }
    ensures text { IfOk result (λ text. text.items ≡ book_lines net.now book.now.state) }
{
    let size = JournalSize {
        bytes: book.line_bytes(),
        torn: 0,
    };
    let mut text = Vec::new(alloc);
    add_stopped(alloc, book.is_stopped(), &mut text)?;
    add_state(alloc, net, book, size, &mut text)?;
    Ok(text)
}

/// The plans of a book, a line each, in the order of their editions: the empty one of edition 0, and those that were installed.
pub fn plans_of_book<K: Keeper>(alloc: Global, book: &Book<K>) -> Result<Vec<u8>, OutOfMemory>
    ensures text { IfOk result (λ text. text.items ≡ plans_lines book.now.state.changes) }
{
    let mut text = Vec::new(alloc);
    for place in 0..book.plan_count() {
        add_plan(alloc, book.plan(place), &mut text)?;
    }
    Ok(text)
}

/// The state that a book tells, with a journal of these sizes.
fn text_of<K: Keeper>(
    alloc: Global,
    net: &Network,
    book: &Book<K>,
    size: JournalSize,
) -> Result<Vec<u8>, OutOfMemory>
    requires follows { Follows net.now book.now.state.changes }
    ensures { IfOk result (λ text. text.items ≡ lines_with net.now book.now.state.changes size.bytes size.torn) }
{
    let mut text = Vec::new(alloc);
    add_state(alloc, net, book, size, &mut text)?;
    Ok(text)
}

/// Appends the same.
fn add_state<K: Keeper>(
    alloc: Global,
    net: &Network,
    book: &Book<K>,
    size: JournalSize,
    out: &mut Vec<u8>,
) -> Result<(), OutOfMemory>
    requires follows { Follows net.now book.now.state.changes }
    ensures { OnOk result (out.new.items ≡ out.old.items ++ lines_with net.now book.now.state.changes size.bytes size.torn) }
{
    let matrix = matrix_in(alloc, net, book)?;
    add_made(alloc, book, out)?;
    add_size(alloc, net, size, out)?;
    add_loads(alloc, net, &matrix, out)?;
    add_line(alloc, &[Word::Text("end")], out)
}

/// Appends that a fault of the store has stopped a book, where it has.
fn add_stopped(alloc: Global, stopped: bool, out: &mut Vec<u8>) -> Result<(), OutOfMemory>
    ensures { OnOk result (out.new.items ≡ out.old.items ++ stopped_line stopped) }
{
    if stopped {
        print(alloc, Form::Stopped, &[], out)
    } else {
        Ok(())
    }
}

/// The traffic matrix of a book's demand.
pub(crate) fn matrix_in<K: Keeper>(
    alloc: Global,
    net: &Network,
    book: &Book<K>,
) -> Result<Dense, OutOfMemory>
    requires follows { Follows net.now book.now.state.changes }
    ensures matrix { IfOk result (λ matrix. matrix ≡ matrix_after net.now book.now.state.changes) }
    ensures beams { IfOk result (λ matrix. length matrix ≡ length net.now.beams) }
{
    // This is there for what holds of each network: it is sound, and so its frame has at most `MOST_SLOTS` slots.
    let _beams = net.beam_count();
    demands_fit_the_frame();
    traffic_of(alloc, net, book.demand())
}

/// Appends how far a book has come: its edition, its newest plan and how many orders it has.
fn add_made<K: Keeper>(alloc: Global, book: &Book<K>, out: &mut Vec<u8>) -> Result<(), OutOfMemory>
    ensures { OnOk result (out.new.items ≡ out.old.items ++ made_lines book.now.state.changes) }
{
    let edition = book.edition().0;
    add_line(alloc, &[Word::Text("edition"), Word::number(edition)], out)?;
    add_plan(alloc, book.newest(), out)?;
    let orders = book.order_count();
    add_line(alloc, &[Word::Text("orders"), Word::number(orders)], out)
}

/// Appends the line of a plan.
fn add_plan(alloc: Global, plan: &Plan, out: &mut Vec<u8>) -> Result<(), OutOfMemory>
    ensures { OnOk result (out.new.items ≡ out.old.items ++ plan_line plan.now) }
{
    let modes = plan.schedule.modes.as_slice();
    let bursts = plan.bursts.as_slice();
    let words = [
        Word::Text("plan"),
        Word::number(plan.edition.0),
        Word::Text("length"),
        Word::number(plan.schedule.length),
        Word::Text("modes"),
        Word::Number(modes.len() as u64),
        Word::Text("bursts"),
        Word::Number(bursts.len() as u64),
    ];
    add_line(alloc, &words, out)
}

/// Appends how full a journal is.
fn add_size(
    alloc: Global,
    net: &Network,
    size: JournalSize,
    out: &mut Vec<u8>,
) -> Result<(), OutOfMemory>
    ensures { OnOk result (out.new.items ≡ out.old.items ++ size_lines net.now size.bytes size.torn) }
{
    let words = [
        Word::Text("journal"),
        Word::number(size.bytes),
        Word::Text("of"),
        Word::number(net.journal()),
    ];
    add_line(alloc, &words, out)?;
    add_torn(alloc, size.torn, out)
}

/// Appends the line of the bytes behind the last newline, where there are some.
fn add_torn(alloc: Global, torn: u32, out: &mut Vec<u8>) -> Result<(), OutOfMemory>
    ensures { OnOk result (out.new.items ≡ out.old.items ++ torn_line torn) }
{
    if torn == 0 {
        return Ok(());
    }
    add_line(alloc, &[Word::Text("torn"), Word::number(torn)], out)
}
