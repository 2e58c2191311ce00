// The workers of a round: each does its own lines, over its own pass of the book's line.
ghost use Rattle.std.specs.Prelude.{◌≡◌};
ghost use Rattle.bt_round.specs.Workers.{CanDo, WorkDone};

use crate::{Caller, CentreWorker, Gate, run_desk, run_planner};
use bt_book::Book;
use bt_frame::OutOfMemory;
use bt_journal::{Call, Reply};
use bt_net::Network;
use bt_outside::Keeper;
use bt_script::{AirLine, DeskLine};
use bt_shared::{Object, Publisher, Reader};
use bt_world::Events;
use std::alloc::Global;
use std::sync::Wait;

/// What a worker does in a round, and what it has for it; `C` is the centre's worker. A publisher cannot be let go, and so
/// no worker either.
pub(crate) enum Job<'a, C> {
    /// The centre's worker plays the lines of the air.
    Air(&'a [AirLine], C),
    /// The planner plans so often, and its publisher posts what it installs.
    Plans(u32, Publisher),
    /// The desk of that number does its lines, and its reader looks at the board for its shows.
    Desk(u8, &'a [DeskLine], Reader),
}

/// A worker of a round. Its bound is that of its caller.
pub(crate) struct Worker<'a, G: Gate, K: Keeper, E: Events>
where
    Book<K>: Object<Call = Call, Reply = Reply>,
{
    pub(crate) caller: Caller<'a, G, K>,
    pub(crate) job: Job<'a, CentreWorker<E>>,
    /// What is printed of its lines.
    pub(crate) text: Vec<u8>,
    /// Whether memory ran out over its lines.
    pub(crate) ended: Result<(), OutOfMemory>,
}

/// Does the lines of a worker.
pub(crate) fn work<R: Wait, G: Gate, K: Keeper, E: Events>(
    rt: &R,
    alloc: Global,
    net: &Network,
    worker: &mut Worker<'_, G, K, E>,
)
    requires network { worker.old.caller.start.net ≡ net.now }
    requires job { CanDo net.now worker.old.caller worker.old.job }
    ensures done { WorkDone net.now worker.old worker.new }
{
    worker.ended = match &mut worker.job {
        Job::Air(lines, centre) => {
            centre.play_lines(rt, alloc, net, &mut worker.caller, lines, &mut worker.text)
        }
        Job::Plans(plans, publisher) => run_planner(
            rt,
            alloc,
            net,
            &mut worker.caller,
            *plans,
            publisher,
            &mut worker.text,
        ),
        Job::Desk(desk, lines, reader) => run_desk(
            rt,
            alloc,
            net,
            &mut worker.caller,
            *desk,
            lines,
            reader,
            &mut worker.text,
        ),
    };
}
