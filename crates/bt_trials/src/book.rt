// Desks that call one book in turns: each call has its entry, and each edit that is made its line in the store.
ghost use Rattle.std.specs.Prelude.{◌≡◌, ◌<◌, ℕ, length, slice_index_or, IfSome};
ghost use Rattle.bt_net.specs.Network.{Net};
ghost use Rattle.bt_journal.specs.Journal.{NamesTerminals};
ghost use Rattle.bt_history.specs.Machine.{IsOfNetwork};
ghost use Rattle.bt_shared.specs.Passes.{IsOfLine, IsSamePass};

use bt_base::{Keeper, SureKeeper};
use bt_book::Book;
use bt_frame::{EditionNo, TermNo, Units};
use bt_journal::{Call, Edit, Entry};
use bt_net::Network;
use bt_shared::{Line, Pass};
use std::alloc::Global;
use std::sync::Wait;
use std::test;
use std::thread::{Threads, for_each_chunk_mut};

// Two terminals, each in a beam of its own, and 210 slots.
const NETWORK: &str =
    "{\"beams\": [\"N\", \"S\"], \"terminals\": [{\"name\": \"A\", \"beam\": \"N\"}, {\"name\": \"B\", \"beam\": \"S\"}], \"slots\": 210, \"frames\": 4, \"lead\": 2, \"patience\": 3}";

// How many calls a desk makes, for 1 unit, then for 2, and so on. The first 20 ask for 210 units together.
const CALLS: u32 = 30;

// The edit of a desk that adds so many units to its own link: desk 0 sends from the first terminal, any other from the
// second.
fn edit_of(desk: u32, units: Units) -> Edit
    ensures { (net : Net) → length net.terminals ≡ 2 → NamesTerminals net result }
{
    let (from, to) = if desk == 0 {
        (TermNo(0), TermNo(1))
    } else {
        (TermNo(1), TermNo(0))
    };
    Edit::Add { from, to, units }
}

// The call of a desk that makes this edit.
pub(crate) fn call_of(desk: u32, units: Units) -> Call
    ensures { (net : Net) → length net.terminals ≡ 2 → IsOfNetwork net result }
{
    Call::Edit(edit_of(desk, units))
}

// One desk makes its calls.
fn add_many<K: Keeper, R: Wait>(
    rt: &R,
    alloc: Global,
    line: &Line<Book<K>>,
    pass: &mut Pass<Book<K>>,
)
    requires of_line { IsOfLine line.now.table.shared.table_id line.now.table.shared.key.value pass.old.place }
    requires terminals { length line.now.table.shared.key.value.net.terminals ≡ 2 }
    ensures { IsSamePass pass.old.place pass.new.place }
{
    for number in 1..=CALLS {
        if let Some(units) = Units::new(number) {
            let _answer = line.call(rt, alloc, pass, call_of(pass.number, units));
        }
    }
}

// The desk of a piece of one pass.
fn add_as<R: Wait>(
    rt: &R,
    alloc: Global,
    line: &Line<Book<SureKeeper>>,
    part: &mut [Pass<Book<SureKeeper>>],
)
    requires one { length part.old ≡ 1 }
    requires of_line { (d : _) → IsOfLine line.now.table.shared.table_id line.now.table.shared.key.value (slice_index_or part.old 0 d).place }
    requires terminals { length line.now.table.shared.key.value.net.terminals ≡ 2 }
    ensures { (d : _) → IsSamePass (slice_index_or part.old 0 d).place (slice_index_or part.new 0 d).place }
{
    add_many(rt, alloc, line, &mut part[0]);
}

// All desks at once.
fn add_all<R: Threads + Wait + Sync>(
    rt: &R,
    alloc: Global,
    line: &Line<Book<SureKeeper>>,
    passes: &mut [Pass<Book<SureKeeper>>],
)
    requires of_line { (i : ℕ) (d : _) → i < length passes.old → IsOfLine line.now.table.shared.table_id line.now.table.shared.key.value (slice_index_or passes.old i d).place }
    requires terminals { length line.now.table.shared.key.value.net.terminals ≡ 2 }
    ensures length { length passes.new ≡ length passes.old }
    ensures each { (i : ℕ) (d : _) → i < length passes.old → IsSamePass (slice_index_or passes.old i d).place (slice_index_or passes.new i d).place }
{
    for_each_chunk_mut(rt, passes, 1, &|_, part| add_as(rt, alloc, line, part));
}

// The network, or None where memory runs out.
pub(crate) fn network(alloc: Global) -> Option<Network>
    ensures terminals { IfSome result (λ net. length net.terminals ≡ 2) }
{
    let Ok(net) = Network::read(alloc, NETWORK.as_bytes()) else {
        return None;
    };
    if net.terminal_count() != 2 {
        return None;
    }
    Some(net)
}

// A new book of the network, or None where memory runs out.
fn new_book(alloc: Global) -> Option<Book<SureKeeper>>
    ensures terminals { IfSome result (λ book. length book.net.terminals ≡ 2) }
{
    let net = network(alloc)?;
    match Book::recover(alloc, &net, SureKeeper::new(Vec::new(alloc))) {
        Ok(book) => Some(book),
        Err(_end) => None,
    }
}

// The book after all calls of two desks, or None where memory runs out.
fn book_of_two_desks<R: Threads + Wait + Sync>(rt: &R, alloc: Global) -> Option<Book<SureKeeper>> {
    let book = new_book(alloc)?;
    let Ok((line, mut passes)) = Line::start(alloc, book, 2) else {
        return None;
    };
    add_all(rt, alloc, &line, &mut passes[..]);
    Some(line.close(passes))
}

// How many lines end in these bytes.
fn lines_in(bytes: &[u8]) -> usize {
    let mut lines = 0usize;
    for byte in bytes {
        if *byte == b'\n' {
            lines = lines.saturating_add(1);
        }
    }
    lines
}

// What is not as it must be in a book after all calls of two desks, if anything.
fn wrong_in_book(book: &Book<SureKeeper>) -> Option<&'static str> {
    let (there, back) = (TermNo(0), TermNo(1));
    if book.edition() != EditionNo(40) {
        return Some("edition");
    }
    if book.demand().units(there, back) != 210 || book.demand().units(back, there) != 210 {
        return Some("demand");
    }
    None
}

// What is not as it must be in its history, or in what the store keeps, if anything.
fn wrong_in_history(history: &[Entry], kept: &[u8]) -> Option<&'static str> {
    // The mark, and a line for each of the 40 edits.
    if lines_in(kept) != 41 {
        return Some("lines of the store");
    }
    // That they are a legal history of both desks' calls is proved of the lock and of the book.
    if history.len() != 60 {
        return Some("entries");
    }
    None
}

#[test]
fn two_desks_on_threads_make_one_history_of_a_book(rt: HostRuntime) -> Result<(), test::Fail> {
    let Some(book) = book_of_two_desks(&rt, rt.alloc()) else {
        return Err(test::Fail::from("out of memory"));
    };
    let in_book = wrong_in_book(&book);
    let (store, history) = book.into_parts();
    let in_history = wrong_in_history(&history, store.kept());
    assert_eq!(rt; (in_book, in_history), (None, None));
    Ok(())
}
