// The workers of a round get their places, and leave them again.
ghost use Rattle.std.specs.Prelude.{◌≡◌, ◌<◌, ◌≤◌, [], Some, drop, length, map, slice_index_or, vec_capacity, vec_len, All, IfOk};
ghost use Rattle.bt_history.specs.Causes.{Follows};
ghost use Rattle.bt_shared.specs.Passes.{IsPass, seen_at};
ghost use Rattle.bt_round.specs.declared.seats.TheConstants.{DESKS, SEATS};
ghost use Rattle.bt_round.specs.AirLines.{AirState};
ghost use Rattle.bt_round.specs.Seats.{AllAt, IsJobAt, IsOfPlace, IsReady, air_in, lines_of, publisher_in, reader_in};

use crate::workers::{Job, Worker};
use crate::{Caller, CentreWorker, Gate};
use bt_book::Book;
use bt_frame::{MOST_DESKS, OutOfMemory};
use bt_journal::{Call, Reply};
use bt_outside::Keeper;
use bt_script::{DeskLine, DeskLines, Round};
use bt_shared::{Line, Object, Pass, Publisher, Reader};
use bt_world::Events;
use std::alloc::Global;

/// How many desks a round can have: one of each number from 1 on.
pub const DESKS: u32 = MOST_DESKS as u32;

/// How many workers a round has: the centre's worker, the planner, and the desks.
pub(crate) const SEATS: u32 = DESKS + 2;

/// What the workers of a round have, before they have their places and after they left them.
pub(crate) struct Crew<K: Keeper, E: Events>
where
    Book<K>: Object<Call = Call, Reply = Reply>,
{
    /// The passes of all callers in order.
    pub(crate) passes: Vec<Pass<Book<K>>>,
    pub(crate) publisher: Publisher,
    /// The readers of all desks in order.
    pub(crate) readers: Vec<Reader>,
    pub(crate) centre: CentreWorker<E>,
}

/// Room for the workers of a round, and for their passes and readers when they leave.
pub(crate) fn room_for<'a, G: Gate, K: Keeper, E: Events>(
    alloc: Global,
) -> Result<(Vec<Worker<'a, G, K, E>>, Vec<Pass<Book<K>>>, Vec<Reader>), OutOfMemory>
    ensures workers { IfOk result (λ room. (room.0.items ≡ []) × (SEATS ≤ vec_capacity room.0)) }
    ensures passes { IfOk result (λ room. (room.1.items ≡ []) × (SEATS ≤ vec_capacity room.1)) }
    ensures readers { IfOk result (λ room. (room.2.items ≡ []) × (DESKS ≤ vec_capacity room.2)) }
{
    let passes = Vec::with_capacity(alloc, SEATS as usize)?;
    let readers = Vec::with_capacity(alloc, DESKS as usize)?;
    let workers = Vec::with_capacity(alloc, SEATS as usize)?;
    Ok((workers, passes, readers))
}

/// Gives each pass its worker: the first to the centre's worker, the second to the planner, and the others to the desks
/// by number, each with its reader.
pub(crate) fn seat_all<'a, G: Gate, K: Keeper, E: Events>(
    alloc: Global,
    gate: &'a G,
    line: &'a Line<Book<K>>,
    round: &'a Round,
    crew: Crew<K, E>,
    mut workers: Vec<Worker<'a, G, K, E>>,
) -> Vec<Worker<'a, G, K, E>>
    requires seats { vec_len crew.passes ≡ SEATS }
    requires passes { AllAt (λ place pass. IsPass line.now.table.shared.table_id line.now.table.shared.key.value SEATS place pass.place) crew.passes.items }
    requires unseen { All (λ pass. seen_at pass.place ≡ []) crew.passes.items }
    requires begins { Follows line.now.table.shared.key.value.net line.now.table.shared.key.value.state.changes }
    requires desks { length crew.readers.items ≡ DESKS }
    requires met { All (λ reader. reader ≡ crew.publisher) crew.readers.items }
    requires none { workers.items ≡ [] }
    requires room { SEATS ≤ vec_capacity workers }
    ensures seats { vec_len result ≡ SEATS }
    ensures ready { AllAt (λ place worker. IsReady line.now.table.shared.table_id line.now.table.shared.key.value round.now crew.publisher crew.centre place worker.caller worker.job worker.text.items) result.items }
{
    let Crew {
        mut passes,
        publisher,
        readers,
        centre,
    } = crew;
    let first = passes.remove(0);
    let air = Job::Air(round.air.as_slice(), centre);
    workers.push_reserved(seat(alloc, gate, line, first, air));
    let second = passes.remove(0);
    let plans = Job::Plans(round.plans, publisher);
    workers.push_reserved(seat(alloc, gate, line, second, plans));
    let mut others = passes.into_iter();
    let mut readers = readers.into_iter();
    while let Some(pass) = others.next() {
        let Some(reader) = readers.next() else {
            unreachable!()
        };
        let job = desk_job(round, pass.number, reader);
        workers.push_reserved(seat(alloc, gate, line, pass, job));
    }
    workers
}

/// The job of the desk whose caller has that number.
fn desk_job<'a, E: Events>(
    round: &'a Round,
    number: u32,
    reader: Reader,
) -> Job<'a, CentreWorker<E>>
    requires number { (2 ≤ number) × (number < SEATS) }
    ensures job { (air : AirState) → IsJobAt round.now reader air number result }
{
    let desk = (number - 1) as u8;
    Job::Desk(desk, lines_of(round.desks.as_slice(), desk), reader)
}

/// The lines of a desk, and none where these are other desks.
fn lines_of(desks: &[(u8, DeskLines)], number: u8) -> &[DeskLine]
    ensures { result.now ≡ lines_of number desks.now }
{
    for desk in desks {
        if desk.0 == number {
            return desk.1.as_slice();
        }
    }
    &[]
}

/// The worker of a pass, of whose lines nothing is printed yet.
fn seat<'a, G: Gate, K: Keeper, E: Events>(
    alloc: Global,
    gate: &'a G,
    line: &'a Line<Book<K>>,
    pass: Pass<Book<K>>,
    job: Job<'a, CentreWorker<E>>,
) -> Worker<'a, G, K, E>
    requires of_line { IsPass line.now.table.shared.table_id line.now.table.shared.key.value SEATS pass.number pass.place }
    requires unseen { seen_at pass.place ≡ [] }
    requires begins { Follows line.now.table.shared.key.value.net line.now.table.shared.key.value.state.changes }
    ensures caller { result.caller ≡ record {
      table = line.now.table.shared.table_id;
      start = line.now.table.shared.key.value;
      place = pass.place;
    } }
    ensures job { result.job ≡ job.entry }
    ensures text { result.text.items ≡ [] }
{
    Worker {
        caller: Caller::new(gate, line, pass),
        job,
        text: Vec::new(alloc),
        ended: Ok(()),
    }
}

/// Takes workers apart: the passes of their callers and the readers of the desks in order, into vectors with room for
/// them, the centre's worker and the publisher.
pub(crate) fn take_apart<G: Gate, K: Keeper, E: Events>(
    mut workers: Vec<Worker<'_, G, K, E>>,
    mut passes: Vec<Pass<Book<K>>>,
    mut readers: Vec<Reader>,
) -> Crew<K, E>
    requires seats { vec_len workers ≡ SEATS }
    requires jobs { AllAt (λ place worker. IsOfPlace place worker.job) workers.items }
    requires none { (passes.items ≡ []) × (readers.items ≡ []) }
    requires room { (SEATS ≤ vec_capacity passes) × (DESKS ≤ vec_capacity readers) }
    ensures passes { map (λ pass. pass.place) result.passes.items ≡ map (λ worker. worker.caller.place) workers.entry.items }
    ensures centre { (d : _) → air_in (slice_index_or workers.entry.items 0 d).job ≡ Some result.centre }
    ensures publisher { (d : _) → publisher_in (slice_index_or workers.entry.items 1 d).job ≡ Some result.publisher }
    ensures readers { map (λ reader. Some reader) result.readers.items ≡ map (λ worker. reader_in worker.job) (drop 2 workers.entry.items) }
{
    let (first, centre) = leave_air(workers.remove(0));
    passes.push_reserved(first);
    let (second, publisher) = leave_plans(workers.remove(0));
    passes.push_reserved(second);
    let mut others = workers.into_iter();
    while let Some(worker) = others.next() {
        let (pass, reader) = leave_desk(worker);
        passes.push_reserved(pass);
        readers.push_reserved(reader);
    }
    others.destroy_empty();
    Crew {
        passes,
        publisher,
        readers,
        centre,
    }
}

/// Takes the worker of the air apart: its pass, and the centre's worker.
fn leave_air<G: Gate, K: Keeper, E: Events>(
    worker: Worker<'_, G, K, E>,
) -> (Pass<Book<K>>, CentreWorker<E>)
    requires { IsOfPlace 0 worker.job }
    ensures pass { result.0.place ≡ worker.entry.caller.place }
    ensures centre { air_in worker.entry.job ≡ Some result.1 }
{
    let Worker {
        caller,
        job,
        text: _,
        ended: _,
    } = worker;
    match job {
        Job::Air(_, centre) => (caller.into_pass(), centre),
        _ => unreachable!(),
    }
}

/// Takes the planner apart: its pass, and the publisher.
fn leave_plans<G: Gate, K: Keeper, E: Events>(
    worker: Worker<'_, G, K, E>,
) -> (Pass<Book<K>>, Publisher)
    requires { IsOfPlace 1 worker.job }
    ensures pass { result.0.place ≡ worker.entry.caller.place }
    ensures publisher { publisher_in worker.entry.job ≡ Some result.1 }
{
    let Worker {
        caller,
        job,
        text: _,
        ended: _,
    } = worker;
    match job {
        Job::Plans(_, publisher) => (caller.into_pass(), publisher),
        _ => unreachable!(),
    }
}

/// Takes a desk apart: its pass, and its reader.
fn leave_desk<G: Gate, K: Keeper, E: Events>(worker: Worker<'_, G, K, E>) -> (Pass<Book<K>>, Reader)
    requires { IsOfPlace 2 worker.job }
    ensures pass { result.0.place ≡ worker.entry.caller.place }
    ensures reader { reader_in worker.entry.job ≡ Some result.1 }
{
    let Worker {
        caller,
        job,
        text: _,
        ended: _,
    } = worker;
    match job {
        Job::Desk(_, _, reader) => (caller.into_pass(), reader),
        _ => unreachable!(),
    }
}
