// The opening of a board.
ghost use Rattle.std.specs.Prelude.{◌≡◌, ◌<◌, ◌≤◌, IfOk, [], ◌∷◌, drop, length, All};
ghost use Rattle.bt_frame.specs.declared.limits.TheConstants.{MOST_READERS};
ghost use Rattle.left_right.specs.Sides.{view};
ghost use Rattle.bt_shared.specs.Log.{head_of};
ghost use Rattle.bt_shared.specs.Rule.{HasSeen, saw};
ghost use Rattle.bt_shared.specs.Posted.{posted};

use crate::plan_log::PlanLog;
use crate::posted_plan::PostedPlan;
use crate::publisher::{BoardWriter, Publisher, add, publish};
use crate::reader::Reader;
use crate::rule::{Learns, Tells};
use crate::shown::ShownPlan;
use bt_demand::Plan;
use bt_frame::OutOfMemory;
use left_right::writer::Writer;
use logbook::{Seen, Start, Word};
use std::alloc::Global;
use std::sync::{Arc, Wait};

/// A log that has one plan.
fn begin<R: Wait>(
    rt: &R,
    alloc: Global,
    plan: Plan,
) -> Result<(Word<Plan, u64, PlanLog>, ShownPlan), OutOfMemory>
    ensures head { IfOk result (λ b. b.0 ≡ head_of b.1.seen.book) }
    ensures plans { IfOk result (λ b. b.1.seen.log ≡ plan ∷ []) }
{
    let Ok(plan) = Arc::new(alloc, PostedPlan::of(alloc, plan)?) else {
        return Err(OutOfMemory);
    };
    let (mut seen, mut first, _second) = Seen::open(Start::alone(), 0, 0);
    let head = Word::tracked(0, &mut first);
    add(rt, &head, &mut seen, 0, plan.plan());
    Ok((head, ShownPlan { plan, seen }))
}

/// The two copies of what is shown. The first thing that is published is the same plan again: so the publisher
/// knows its log, and has the room that a later post takes.
fn open<R: Wait>(
    rt: &R,
    alloc: Global,
    shown: &ShownPlan,
    readers: u32,
) -> Result<BoardWriter, OutOfMemory>
    requires readers { (1 ≤ readers) × (readers ≤ MOST_READERS) }
    ensures shown { IfOk result (λ d. d.desk.shown.value.seen ≡ shown.now.seen) }
    ensures pending { IfOk result (λ d. drop d.behind d.log.items ≡ []) }
    ensures view { IfOk result (λ d. view d.desk.place ≡ saw d.desk.shown.value) }
{
    let (Ok(first), Ok(second), Ok(third)) = (shown.again(), shown.again(), shown.again()) else {
        return Err(OutOfMemory);
    };
    let Ok(mut writer) = Writer::new(alloc, first, second, readers as usize) else {
        return Err(OutOfMemory);
    };
    match writer.append(third) {
        Ok(()) => Ok(publish(rt, writer)),
        Err(_) => {
            let _shown = writer.take(rt);
            Err(OutOfMemory)
        }
    }
}

/// A reader of the publisher's board.
fn seat_one<R: Wait>(rt: &R, writer: &mut BoardWriter, kept: ShownPlan) -> Reader
    requires { HasSeen (view writer.old.desk.place) kept }
    ensures reader { result ≡ posted kept.seen.book kept.seen.log }
    ensures shown { writer.new.desk.shown ≡ writer.old.desk.shown }
    ensures pending { drop writer.new.behind writer.new.log.items ≡ drop writer.old.behind writer.old.log.items }
    ensures view { view writer.new.desk.place ≡ view writer.old.desk.place }
{
    for _ in rt.forever() {
        if let Ok(mut seat) = writer.factory().reader() {
            seat.learn::<Learns>(writer.tell::<Tells>());
            return Reader::at(seat, kept);
        }
    }
    unreachable!()
}

/// A board that shows a plan, with its publisher and its readers, who have all seen that plan.
pub fn board<R: Wait>(
    rt: &R,
    alloc: Global,
    plan: Plan,
    readers: u32,
) -> Result<(Publisher, Vec<Reader>), OutOfMemory>
    requires readers { (1 ≤ readers) × (readers ≤ MOST_READERS) }
    ensures plans { IfOk result (λ b. b.0.plans ≡ plan ∷ []) }
    ensures count { IfOk result (λ b. length b.1.items ≡ readers) }
    ensures same { IfOk result (λ b. All (λ r. r ≡ b.0) b.1.items) }
{
    let mut all = Vec::with_capacity(alloc, readers as usize)?;
    let (head, shown) = begin(rt, alloc, plan)?;
    let mut writer = open(rt, alloc, &shown, readers)?;
    for _ in 0..readers {
        let Ok(kept) = shown.again() else {
            let _shown = writer.take(rt);
            return Err(OutOfMemory);
        };
        all.push_reserved(seat_one(rt, &mut writer, kept));
    }
    Ok((Publisher::at(head, shown.seen.again(), writer), all))
}
