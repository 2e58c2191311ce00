// A round: the centre's worker, the planner and the desks do their lines at once, each over its own pass of the book's
// line.
ghost use Rattle.std.specs.Prelude.{◌≡◌, ◌+◌, ◌<◌, ◌≤◌, ◌++◌, [], ℕ, length, map, slice_index_or, vec_len, All, IsOk, OnOk};
ghost use Rattle.std.specs.List.{flat_map};
ghost use mathlib.Core.List.{IsPrefix};
ghost use Rattle.bt_shared.specs.Passes.{IsPass, seen_at};
ghost use Rattle.bt_shared.specs.Plans.{next_edition};
ghost use Rattle.bt_history.specs.Causes.{Follows};
ghost use Rattle.bt_history.specs.Changes.{newest};
ghost use Rattle.bt_script.specs.Desks.{AreDesks};
ghost use Rattle.bt_script.specs.Named.{IsRoundFor};
ghost use Rattle.bt_round.specs.declared.seats.TheConstants.{DESKS, SEATS};
ghost use Rattle.bt_round.specs.AirLines.{opening_in};
ghost use Rattle.bt_round.specs.Boards.{IsPublished};
ghost use Rattle.bt_round.specs.Rounds.{BookRan, RoundDone};
ghost use Rattle.bt_round.specs.Seats.{AllAt, HaveWorked, text_at};
ghost use Rattle.bt_round.specs.Workers.{CanDo, WorkDone};

use crate::seats::{Crew, SEATS, room_for, seat_all, take_apart};
use crate::workers::{Worker, work};
use crate::{CentreWorker, Gate};
use bt_book::{Book, locked_books_are_legal, locked_books_go_on};
use bt_frame::OutOfMemory;
use bt_net::Network;
use bt_outside::Keeper;
use bt_script::{DeskLines, Round};
use bt_shared::{Line, Publisher, Reader};
use bt_world::Events;
use std::alloc::Global;
use std::sync::Wait;
use std::thread::{Threads, for_each_chunk_mut};

/// What the parts of a script are played on: the book, the board with its publisher and the readers of the desks in
/// order, and the centre's worker with its world.
pub struct Station<K: Keeper, E: Events> {
    pub book: Book<K>,
    pub publisher: Publisher,
    pub readers: Vec<Reader>,
    pub centre: CentreWorker<E>,
}

/// All workers do their lines: the first `apart` of them at once, so many `together` on a thread of their own where one can be made,
/// and then the others one after the other.
fn work_all<R: Threads + Wait + Sync, G: Gate + Sync, K: Keeper + Send, E: Events + Send>(
    rt: &R,
    alloc: Global,
    net: &Network,
    apart: usize,
    together: usize,
    workers: &mut [Worker<'_, G, K, E>],
)
    requires apart { apart ≤ length workers.old }
    requires together { 0 < together }
    requires can { All (λ worker. (worker.caller.start.net ≡ net.now) × CanDo net.now worker.caller worker.job) workers.old }
    ensures length { length workers.new ≡ length workers.old }
    ensures done { (i : ℕ) (d : _) → i < length workers.old → WorkDone net.now (slice_index_or workers.old i d) (slice_index_or workers.new i d) }
{
    for_each_chunk_mut(
        rt,
        &mut workers[..apart],
        together,
        &|_, part: &mut [Worker<'_, G, K, E>]|
            requires can { All (λ worker. (worker.caller.start.net ≡ net.now) × CanDo net.now worker.caller worker.job) part.old }
            ensures done { (i : ℕ) (d : _) → i < length part.old → WorkDone net.entry.now (slice_index_or part.old i d) (slice_index_or part.new i d) }
        { work_part(rt, alloc, net, part) },
    );
    work_part(rt, alloc, net, &mut workers[apart..]);
}

/// Workers do their lines one after the other.
fn work_part<R: Wait, G: Gate, K: Keeper, E: Events>(
    rt: &R,
    alloc: Global,
    net: &Network,
    workers: &mut [Worker<'_, G, K, E>],
)
    requires can { All (λ worker. (worker.caller.start.net ≡ net.now) × CanDo net.now worker.caller worker.job) workers.old }
    ensures length { length workers.new ≡ length workers.old }
    ensures done { (i : ℕ) (d : _) → i < length workers.old → WorkDone net.now (slice_index_or workers.old i d) (slice_index_or workers.new i d) }
{
    for worker in workers {
        work(rt, alloc, net, worker);
    }
}

/// How many places of a round, from the first on, get threads: those up to the last whose worker has lines. Where one
/// worker at most has lines that is done on this thread, since a thread takes longer to make.
fn seats_apart(round: &Round) -> usize
    ensures { result ≤ SEATS }
{
    let desks = round.desks.as_slice();
    let planner = usize::from(0 < round.plans);
    let centre = usize::from(!round.air.as_slice().is_empty());
    if desks.len().saturating_add(planner + centre) < 2 {
        return 0;
    }
    match desks.last() {
        Some(desk) => usize::from(desk.0) + 2,
        None => 2,
    }
}

/// How many neighbours of those places share a thread: as many as can where no two with lines do, so that few threads are made for
/// workers that have none.
fn seats_together(round: &Round, apart: usize) -> usize
    ensures { 0 < result }
{
    let mut together = apart;
    while 1 < together {
        if are_apart(round, together) {
            return together;
        }
        together -= 1;
    }
    1
}

/// Whether no two workers with lines share a thread where so many neighbours do.
fn are_apart(round: &Round, together: usize) -> bool
    requires { 0 < together }
{
    let mut next = 0;
    if !round.air.as_slice().is_empty() {
        next = 1;
    }
    if 0 < round.plans {
        if 1 / together < next {
            return false;
        }
        next = 1 / together + 1;
    }
    for desk in round.desks.as_slice() {
        let thread = (usize::from(desk.0) + 1) / together;
        if thread < next {
            return false;
        }
        next = thread + 1;
    }
    true
}

/// Appends the texts of a round's workers: of its desks by number, of the planner and of the centre's worker. None of
/// them is whole where memory ran out for one.
fn add_texts<G: Gate, K: Keeper, E: Events>(
    round: &Round,
    workers: &[Worker<'_, G, K, E>],
    text: &mut Vec<u8>,
) -> Result<(), OutOfMemory>
    requires seats { length workers.now ≡ SEATS }
    ensures ended { OnOk result (All (λ worker. IsOk worker.ended) workers.now) }
    ensures texts { OnOk result (text.new.items ≡ text.old.items
        ++ (flat_map (λ desk. text_at (desk.0 + 1) (map (λ worker. worker.text.items) workers.now)) round.now.desks
        ++ text_at 1 (map (λ worker. worker.text.items) workers.now) ++ text_at 0 (map (λ worker. worker.text.items) workers.now))) }
{
    all_ended(workers)?;
    add_desk_texts(round.desks.as_slice(), workers, text)?;
    text.extend_from_slice(workers[1].text.as_slice())?;
    text.extend_from_slice(workers[0].text.as_slice())?;
    Ok(())
}

/// Ok where memory ran out for none of these workers.
fn all_ended<G: Gate, K: Keeper, E: Events>(
    workers: &[Worker<'_, G, K, E>],
) -> Result<(), OutOfMemory>
    ensures { OnOk result (All (λ worker. IsOk worker.ended) workers.now) }
{
    for worker in workers {
        if worker.ended.is_err() {
            return Err(OutOfMemory);
        }
    }
    Ok(())
}

/// Appends the texts of these desks in order.
fn add_desk_texts<G: Gate, K: Keeper, E: Events>(
    desks: &[(u8, DeskLines)],
    workers: &[Worker<'_, G, K, E>],
    text: &mut Vec<u8>,
) -> Result<(), OutOfMemory>
    requires desks { AreDesks desks.now }
    requires seats { length workers.now ≡ SEATS }
    ensures { OnOk result (text.new.items ≡ text.old.items
        ++ flat_map (λ desk. text_at (desk.0 + 1) (map (λ worker. worker.text.items) workers.now)) desks.now) }
{
    for desk in desks {
        text.extend_from_slice(workers[usize::from(desk.0) + 1].text.as_slice())?;
    }
    Ok(())
}

/// Where memory has not run out by now, the publisher meets each reader: each has then seen all that was posted.
fn meet_all<R: Wait>(
    rt: &R,
    ended: Result<(), OutOfMemory>,
    publisher: &mut Publisher,
    readers: &mut [Reader],
) -> Result<(), OutOfMemory>
    requires same { All (λ reader. reader.board ≡ publisher.old.board) readers.old }
    ensures kept { publisher.new ≡ publisher.old }
    ensures length { length readers.new ≡ length readers.old }
    ensures ended { OnOk result (IsOk ended) }
    ensures met { OnOk result (All (λ reader. reader ≡ publisher.old) readers.new) }
    ensures begins { OnOk result (All (λ reader. IsPrefix reader.plans publisher.old.plans) readers.old) }
{
    ended?;
    for reader in readers {
        publisher.meet(rt, reader)?;
    }
    Ok(())
}

/// Runs a round over a line of the book, and appends what is printed of it, but for its number. At its end the publisher
/// has met the readers of all desks. The passes of the line come back in order, the board and the centre's worker, also
/// where memory runs out.
fn run_on<'a, R: Threads + Wait + Sync, G: Gate + Sync, K: Keeper + Send, E: Events + Send>(
    rt: &R,
    alloc: Global,
    net: &Network,
    gate: &'a G,
    line: &'a Line<Book<K>>,
    round: &'a Round,
    crew: Crew<K, E>,
    text: &mut Vec<u8>,
) -> (Crew<K, E>, Result<(), OutOfMemory>)
    requires network { line.now.table.shared.key.value.net ≡ net.now }
    requires air_network { (opening_in crew.centre).net ≡ net.now }
    requires terminals { IsRoundFor net.now round.now }
    requires begins { Follows line.now.table.shared.key.value.net line.now.table.shared.key.value.state.changes }
    requires seats { vec_len crew.passes ≡ SEATS }
    requires passes { AllAt (λ place pass. IsPass line.now.table.shared.table_id line.now.table.shared.key.value SEATS place pass.place) crew.passes.items }
    requires unseen { All (λ pass. seen_at pass.place ≡ []) crew.passes.items }
    requires posted { next_edition crew.publisher.plans ≤ (newest line.now.table.shared.key.value.state.changes).edition.0 + 1 }
    requires desks { length crew.readers.items ≡ DESKS }
    requires met { All (λ reader. reader ≡ crew.publisher) crew.readers.items }
    ensures seats { vec_len result.0.passes ≡ SEATS }
    ensures passes { AllAt (λ place pass. IsPass line.now.table.shared.table_id line.now.table.shared.key.value SEATS place pass.place) result.0.passes.items }
    ensures opening { opening_in result.0.centre ≡ opening_in crew.centre }
    ensures desks { OnOk result.1 (length result.0.readers.items ≡ DESKS) }
    ensures met { OnOk result.1 (All (λ reader. reader ≡ result.0.publisher) result.0.readers.items) }
    ensures done { OnOk result.1 (HaveWorked net.now round.now crew.publisher result.0.publisher crew.centre result.0.centre (map (λ pass. pass.place) result.0.passes.items) text.old.items text.new.items) }
{
    let (workers, passes, readers) = match room_for(alloc) {
        Ok(room) => room,
        Err(fault) => return (crew, Err(fault)),
    };
    let mut workers = seat_all(alloc, gate, line, round, crew, workers);
    let apart = seats_apart(round);
    let together = seats_together(round, apart);
    work_all(rt, alloc, net, apart, together, &mut workers[..]);
    let ended = add_texts(round, &workers[..], text);
    let mut crew = take_apart(workers, passes, readers);
    let met = meet_all(rt, ended, &mut crew.publisher, &mut crew.readers[..]);
    (crew, met)
}

/// Runs a round, and appends what is printed of it, but for its number. The station comes back, also where memory runs
/// out; and where it does not, its board is again that of its book.
pub fn run_round<'a, R: Threads + Wait + Sync, G: Gate + Sync, K: Keeper + Send, E: Events + Send>(
    rt: &R,
    alloc: Global,
    net: &Network,
    gate: &'a G,
    round: &'a Round,
    station: Station<K, E>,
    text: &mut Vec<u8>,
) -> (Station<K, E>, Result<(), OutOfMemory>)
    requires network { station.book.net ≡ net.now }
    requires air_network { (opening_in station.centre).net ≡ net.now }
    requires terminals { IsRoundFor net.now round.now }
    requires follows { Follows net.now station.book.state.changes }
    requires published { IsPublished station.book.state.changes station.publisher station.readers.items }
    ensures network { result.0.book.net ≡ net.now }
    ensures opening { opening_in result.0.centre ≡ opening_in station.centre }
    ensures done { OnOk result.1 (RoundDone net.now round.now station.centre result.0.centre station.book result.0.book text.old.items text.new.items) }
    ensures published { OnOk result.1 (IsPublished result.0.book.state.changes result.0.publisher result.0.readers.items) }
    ensures ran { BookRan station.book result.0.book }
{
    // This is there for what holds of the desks of each round: their numbers ascend from 1.
    let _desks = round.desks.as_slice();
    locked_books_are_legal();
    locked_books_go_on();
    let Station {
        book,
        publisher,
        readers,
        centre,
    } = station;
    match Line::start(alloc, book, SEATS) {
        Ok((line, passes)) => {
            let crew = Crew {
                passes,
                publisher,
                readers,
                centre,
            };
            let (crew, ended) = run_on(rt, alloc, net, gate, &line, round, crew, text);
            let Crew {
                passes,
                publisher,
                readers,
                centre,
            } = crew;
            let book = line.close(passes);
            (
                Station {
                    book,
                    publisher,
                    readers,
                    centre,
                },
                ended,
            )
        }
        Err(book) => (
            Station {
                book,
                publisher,
                readers,
                centre,
            },
            Err(OutOfMemory),
        ),
    }
}
