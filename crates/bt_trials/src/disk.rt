// A book over a disk that stops at a call: which edits it answers, and what the next book finds after a crash.
ghost use Rattle.std.specs.Prelude.{◌≡◌, length, IfOk};

use crate::book::{call_of, network};
use bt_base::{LineKeeper, MemDisk};
use bt_book::Book;
use bt_frame::Units;
use bt_history::RecoverFault;
use bt_journal::Reply;
use bt_net::Network;
use std::alloc::Global;
use std::test;

// How a book is not opened: the disk failed, and is handed back, or anything else.
#[derive(Drop)]
enum Closed {
    Failed(MemDisk),
    Other,
}

// The book of a disk.
fn open(alloc: Global, net: &Network, disk: MemDisk) -> Result<Book<LineKeeper<MemDisk>>, Closed>
    ensures net { IfOk result (λ book. book.net ≡ net.now) }
{
    match Book::recover(alloc, net, LineKeeper::open(disk)) {
        Ok(book) => Ok(book),
        Err((store, RecoverFault::StoreFault)) => Err(Closed::Failed(store.into_disk())),
        Err((_store, _fault)) => Err(Closed::Other),
    }
}

// How edits were answered.
#[derive(Clone, Copy, Debug, PartialEq, Eq)]
struct Answers {
    done: u32,
    failed: u32,
    stopped: u32,
}

impl Answers {
    const NONE: Answers = Answers {
        done: 0,
        failed: 0,
        stopped: 0,
    };
}

// Adds one unit on the link of desk 0, and counts the answer. None where memory runs out, or at another answer.
fn add_one(alloc: Global, book: &mut Book<LineKeeper<MemDisk>>, sofar: Answers) -> Option<Answers>
    requires terminals { length book.old.net.terminals ≡ 2 }
    ensures terminals { length book.new.net.terminals ≡ 2 }
{
    let mut next = sofar;
    match book.apply(alloc, 1, call_of(0, Units::new(1)?)).ok()? {
        Reply::Done { .. } if sofar.failed == 0 => next.done = sofar.done.saturating_add(1),
        Reply::StoreFault => next.failed = sofar.failed.saturating_add(1),
        Reply::Stopped => next.stopped = sofar.stopped.saturating_add(1),
        _ => return None,
    }
    Some(next)
}

// Three edits.
fn three_edits(alloc: Global, book: &mut Book<LineKeeper<MemDisk>>) -> Option<Answers>
    requires { length book.old.net.terminals ≡ 2 }
{
    let mut answers = Answers::NONE;
    for _number in 0..3 {
        answers = add_one(alloc, book, answers)?;
    }
    Some(answers)
}

// Three edits on a new disk that stops at that call: how they are answered, none where the book is not opened, and the
// disk as it stopped. None where memory runs out, or at another answer.
fn stopped(alloc: Global, net: &Network, stop: u32, kept: u32) -> Option<(Option<Answers>, MemDisk)>
    requires { length net.now.terminals ≡ 2 }
{
    match open(
        alloc,
        net,
        MemDisk::stopping(alloc, Vec::new(alloc), stop, kept),
    ) {
        Ok(mut book) => {
            let answers = three_edits(alloc, &mut book)?;
            let (store, _history) = book.into_parts();
            Some((Some(answers), store.into_disk()))
        }
        Err(Closed::Failed(disk)) => Some((None, disk)),
        Err(Closed::Other) => None,
    }
}

// The edition of the book on what a crash leaves of a disk, with so many bytes of those that were written since.
fn edition_after(alloc: Global, net: &Network, disk: &MemDisk, extra: u64) -> Option<u32> {
    let left = disk.crash(alloc, extra).ok()?;
    match open(alloc, net, MemDisk::new(alloc, left, Vec::new(alloc))) {
        Ok(book) => Some(book.edition().0),
        Err(_closed) => None,
    }
}

// What reads of the line of the edit behind the last that is answered Done, once the disk has stopped.
#[derive(Clone, Copy)]
enum Next {
    // No call on it was made.
    Nothing,
    // Its write failed: so much as that write was to keep.
    Part,
    // Its sync failed.
    Whole,
}

// The bytes of each line.
const LINE: u32 = 17;

#[test]
fn edits_that_are_done_outlast_a_crash(rt: HostRuntime) -> Result<(), test::Fail> {
    let alloc = rt.alloc();
    let Some(net) = network(alloc) else {
        return Err(test::Fail::from("out of memory"));
    };
    // Calls 0 to 2 read the disk, and 3 and 4 write and sync the mark of its journal; then each edit is a write and a sync.
    let rows = [
        // the call at which the disk stops; edits that are done, none where the book is not opened; the next line
        (0, None, Next::Nothing),
        (1, None, Next::Nothing),
        (2, None, Next::Nothing),
        (3, None, Next::Nothing),
        (4, None, Next::Nothing),
        (5, Some(0), Next::Part),
        (6, Some(0), Next::Whole),
        (7, Some(1), Next::Part),
        (8, Some(1), Next::Whole),
        (9, Some(2), Next::Part),
        (10, Some(2), Next::Whole),
        (11, Some(3), Next::Nothing),
    ];
    for (stop, done, next) in rows {
        for kept in [0, 5, LINE] {
            let Some((answers, disk)) = stopped(alloc, &net, stop, kept) else {
                return Err(test::Fail::from("out of memory"));
            };
            assert_eq!(rt; answers, done.map(answers_of), "stop {stop} kept {kept}");
            for extra in [0, 5, LINE] {
                let want = edition_left(done.unwrap_or(0), next, kept, extra);
                let edition = edition_after(alloc, &net, &disk, u64::from(extra));
                assert_eq!(rt;
                    edition,
                    Some(want),
                    "stop {stop} kept {kept} extra {extra}"
                );
            }
        }
    }
    Ok(())
}

// Of three edits so many are done; the next one finds the fault, and any behind it the stopped book.
fn answers_of(done: u32) -> Answers {
    let left = 3u32.saturating_sub(done);
    Answers {
        done,
        failed: left.min(1),
        stopped: left.saturating_sub(1),
    }
}

// The edits that are done, and the next one where all of its line reads and the crash leaves all that reads.
fn edition_left(done: u32, next: Next, kept: u32, extra: u32) -> u32 {
    let reads = match next {
        Next::Nothing => 0,
        Next::Part => kept,
        Next::Whole => LINE,
    };
    done.saturating_add(u32::from(reads >= LINE && extra >= LINE))
}
