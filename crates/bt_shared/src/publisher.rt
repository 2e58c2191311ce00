// The publisher.
ghost use Rattle.std.specs.Prelude.{◌≡◌, ◌⊎◌, ◌+◌, ◌<◌, ◌≤◌, Some, MatchResult, [], ◌∷◌, ◌++◌, drop, fold};
ghost use Rattle.left_right.specs.Sides.{view};
ghost use mathlib.Core.List.{IsPrefix};
ghost use Rattle.bt_shared.specs.Plans.{next_edition, last_of, Ascends};
ghost use Rattle.bt_shared.specs.Log.{head_of};
ghost use Rattle.bt_shared.specs.Rule.{saw};
ghost use Rattle.bt_shared.specs.Posted.{posted};

use crate::plan_log::{Add, Nothing, PlanLog};
use crate::posted_plan::PostedPlan;
use crate::reader::Reader;
use crate::rule::{OneList, Posts};
use crate::seen_plans::SeenPlans;
use crate::shown::ShownPlan;
use bt_demand::Plan;
use bt_frame::OutOfMemory;
use left_right::writer::Writer;
use logbook::{Offer, Seen, Word};
use std::alloc::Global;
use std::marker::Model;
use std::sync::{Arc, Wait};

/// The publisher's place at the board.
pub type BoardWriter = Writer<ShownPlan, ShownPlan, SeenPlans, OneList>;

/// Adds a plan to the log. Nobody else does, which no proof shows: it would wait for ever.
pub(crate) fn add<R: Wait>(
    rt: &R,
    head: &Word<Plan, u64, PlanLog>,
    seen: &mut Seen<Plan, u64, PlanLog>,
    expected: u64,
    plan: &Plan,
)
    requires head { head.now ≡ head_of seen.old.book }
    requires expected { next_edition seen.old.log ≡ expected }
    requires newer { expected ≤ plan.now.edition.0 }
    ensures book { seen.new.book ≡ seen.old.book }
    ensures added { seen.new.log ≡ seen.old.log ++ plan.now ∷ [] }
    ensures ascends { Ascends seen.new.log }
{
    let mut offer: Offer<Plan, u64, PlanLog, Nothing> = seen.plain::<Nothing, Plan, Add>(plan);
    let mut pen = seen.no_pen();
    let next = plan.edition.0 as u64 + 1;
    let found = head.compare_exchange::<Add, Nothing>(expected, next, seen, &mut offer, &mut pen);
    if found != expected {
        for _ in rt.forever() {}
        unreachable!()
    }
}

/// Publishes what is pending, over and over until it is done: its list goes on from the one shown.
pub(crate) fn publish<R: Wait>(rt: &R, writer: BoardWriter) -> BoardWriter
    requires same { (fold (λ _ next. next.seen) writer.desk.shown.value.seen (drop writer.behind writer.log.items)).book ≡ writer.desk.shown.value.seen.book }
    requires onward { IsPrefix writer.desk.shown.value.seen.log (fold (λ _ next. next.seen) writer.desk.shown.value.seen (drop writer.behind writer.log.items)).log }
    ensures shown { result.desk.shown.value.seen ≡ fold (λ _ next. next.seen) writer.desk.shown.value.seen (drop writer.behind writer.log.items) }
    ensures pending { drop result.behind result.log.items ≡ [] }
    ensures view { view result.desk.place ≡ saw result.desk.shown.value }
{
    let mut writer = writer;
    for _ in rt.forever() {
        let (after, done) = writer.publish_as::<Posts, R>(rt);
        writer = after;
        if done.is_ok() {
            return writer;
        }
    }
    unreachable!()
}

/// Shows a plan whose list goes on from the one shown.
fn show<R: Wait>(rt: &R, writer: BoardWriter, shown: ShownPlan) -> BoardWriter
    requires same { shown.seen.book ≡ writer.desk.shown.value.seen.book }
    requires onward { IsPrefix writer.desk.shown.value.seen.log shown.seen.log }
    requires pending { drop writer.behind writer.log.items ≡ [] }
    ensures shown { result.desk.shown.value.seen ≡ shown.seen }
    ensures pending { drop result.behind result.log.items ≡ [] }
{
    let mut writer = writer;
    let mut shown = shown;
    for _ in rt.forever() {
        match writer.append(shown) {
            Ok(()) => return publish(rt, writer),
            Err(back) => shown = back,
        }
        writer = publish(rt, writer);
    }
    unreachable!()
}

/// Two lists of one board that end in one edition are one list. It does nothing when it runs.
fn agree(seen: &Seen<Plan, u64, PlanLog>, reader: &Reader)
    requires board { reader.now.board ≡ seen.now.book }
    requires expected { next_edition reader.now.plans ≡ next_edition seen.now.log }
    ensures plans { reader.now.plans ≡ seen.now.log }
    ensures shown { reader.now.shown ≡ last_of seen.now.log }
{
    let mut both = seen.again();
    both.learn(&reader.kept.seen);
}

/// The one that posts plans. Contracts see it as the board, the list of plans that were posted, and the plan that the board shows.
pub struct Publisher {
    head: Word<Plan, u64, PlanLog>,
    seen: Seen<Plan, u64, PlanLog>,
    writer: Option<BoardWriter>,
}

impl Model for Publisher {
    ghost use Rattle.std.specs.Prelude.{◌≡◌, MatchOption, drop, [], option_map};
    ghost use Rattle.std.specs.Arc.{arc_value};
    ghost use Rattle.bt_shared.specs.Log.{head_of};
    ghost use Rattle.bt_shared.specs.Posted.{Posted};

    ghost Value = { Posted };

    ghost view = { λ p. record {
      board = p.seen.book;
      plans = p.seen.log;
      shown = option_map (λ d. arc_value d.desk.shown.value.plan) p.writer;
    } };

    ghost invariant = { λ p. (p.head ≡ head_of p.seen.book) × MatchOption p.writer ⊥ (λ d. (d.desk.shown.value.seen ≡ p.seen) × (drop d.behind d.log.items ≡ [])) };
}

impl Publisher {
    pub(crate) fn at(
        head: Word<Plan, u64, PlanLog>,
        seen: Seen<Plan, u64, PlanLog>,
        writer: BoardWriter,
    ) -> Publisher
        requires head { head ≡ head_of seen.book }
        requires shown { writer.desk.shown.value.seen ≡ seen }
        requires pending { drop writer.behind writer.log.items ≡ [] }
        ensures { result ≡ posted seen.book seen.log }
    {
        Publisher {
            head,
            seen,
            writer: Some(writer),
        }
    }

    /// Posts a plan, which is newer than the last one.
    pub fn post<R: Wait>(&mut self, rt: &R, alloc: Global, plan: Plan) -> Result<(), OutOfMemory>
        requires newer { next_edition self.old.plans ≤ plan.edition.0 }
        ensures board { self.new.board ≡ self.old.board }
        ensures posted { MatchResult result (λ _. self.new.plans ≡ self.old.plans ++ plan ∷ []) (λ _. self.new ≡ self.old) }
        ensures shown { MatchResult result (λ _. self.new.shown ≡ Some plan) (λ _. self.new.shown ≡ self.old.shown) }
    {
        let Ok(plan) = Arc::new(alloc, PostedPlan::of(alloc, plan)?) else {
            return Err(OutOfMemory);
        };
        let Some(writer) = self.writer.take() else {
            unreachable!()
        };
        let last = writer.published().plan.plan().edition.0;
        add(rt, &self.head, &mut self.seen, last as u64 + 1, plan.plan());
        let shown = ShownPlan {
            plan,
            seen: self.seen.again(),
        };
        match self.writer.replace(show(rt, writer, shown)) {
            None => {}
            Some(_other) => unreachable!(),
        }
        Ok(())
    }

    /// The plan that was posted last.
    pub fn newest(&self) -> &Plan
        ensures last { last_of self.now.plans ≡ Some result.now }
        ensures shown { self.now.shown ≡ Some result.now }
        ensures ascends { Ascends self.now.plans }
    {
        match &self.writer {
            Some(writer) => writer.published().plan.plan(),
            None => unreachable!(),
        }
    }

    /// Of the publisher's list and a reader's of one board, the one whose last edition is lower begins the other. It does
    /// nothing when it runs.
    pub fn compare(&self, reader: &Reader)
        requires same { reader.now.board ≡ self.now.board }
        ensures begins { IsPrefix reader.now.plans self.now.plans ⊎ IsPrefix self.now.plans reader.now.plans }
        ensures ahead { next_edition self.now.plans ≤ next_edition reader.now.plans → IsPrefix self.now.plans reader.now.plans }
        ensures behind { next_edition reader.now.plans ≤ next_edition self.now.plans → IsPrefix reader.now.plans self.now.plans }
    {
        let mut both = self.seen.again();
        both.learn(&reader.kept.seen);
    }

    /// The edition of the last plan that it has posted, which is shown.
    pub(crate) fn edition(&self) -> u32
        ensures edition { next_edition self.now.plans ≡ result + 1 }
        ensures shown { self.now.shown ≡ last_of self.now.plans }
    {
        self.newest().edition.0
    }

    /// Waits until the reader has seen what was posted.
    pub fn meet<R: Wait>(&mut self, rt: &R, reader: &mut Reader) -> Result<(), OutOfMemory>
        requires same { reader.old.board ≡ self.old.board }
        ensures kept { self.new ≡ self.old }
        ensures board { reader.new.board ≡ reader.old.board }
        ensures begins { IsPrefix reader.old.plans reader.new.plans }
        ensures met { MatchResult result (λ _. reader.new ≡ self.old) (λ _. reader.new ≡ reader.old) }
    {
        let edition = self.edition();
        if reader.edition() == edition {
            agree(&self.seen, reader);
            return Ok(());
        }
        for _ in rt.forever() {
            if reader.enter(Some(edition))? {
                agree(&self.seen, reader);
                return Ok(());
            }
        }
        unreachable!()
    }

    /// Gives the publisher up. It waits for readers that are reading.
    pub fn close<R: Wait>(self, rt: &R) {
        let Publisher {
            head: _head,
            seen: _seen,
            writer,
        } = self;
        match writer {
            Some(writer) => {
                let _shown = writer.take(rt);
            }
            None => unreachable!(),
        }
    }
}
