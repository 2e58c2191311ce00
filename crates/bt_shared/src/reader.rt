// The readers.
ghost use Rattle.std.specs.Prelude.{◌≡◌, ◌⊎◌, ◌+◌, ◌<◌, ◌≤◌, Some, IfOk, IfErr, IfSome, MatchResult, MatchBool};
ghost use Rattle.left_right.specs.Sides.{view};
ghost use mathlib.Core.List.{IsPrefix};
ghost use Rattle.bt_demand.specs.Apart.{bursts_from};
ghost use Rattle.bt_shared.specs.Plans.{last_of, next_edition, Ascends};
ghost use Rattle.bt_shared.specs.Rule.{HasSeen};
ghost use Rattle.bt_shared.specs.Posted.{posted};

use crate::rule::{OneList, Reads};
use crate::seen_plans::SeenPlans;
use crate::shown::ShownPlan;
use bt_demand::{Burst, Plan};
use bt_frame::{OutOfMemory, TermNo};
use std::marker::Model;

/// A reader's place at the board.
pub type Seat = left_right::reader::Reader<ShownPlan, SeenPlans, OneList>;

/// Enters the board and takes what is shown, where its edition is past that of `kept` and is the one that is wanted, if
/// one is.
fn visit(
    seat: Seat,
    kept: &ShownPlan,
    wanted: Option<u32>,
) -> (Seat, Result<Option<ShownPlan>, OutOfMemory>)
    requires { HasSeen (view seat.place) kept.now }
    ensures view { HasSeen (view result.0.place) kept.now }
    ensures seen { IfOk result.1 (λ o. IfSome o (λ s. HasSeen (view result.0.place) s)) }
    ensures begins { IfOk result.1 (λ o. IfSome o (λ s. (s.seen.book ≡ kept.now.seen.book) × IsPrefix kept.now.seen.log s.seen.log)) }
    ensures newer { IfOk result.1 (λ o. IfSome o (λ s. next_edition kept.now.seen.log < next_edition s.seen.log)) }
    ensures wanted { IfOk result.1 (λ o. IfSome o (λ s. IfSome wanted (λ e. next_edition s.seen.log ≡ e + 1))) }
{
    match seat.enter_as::<Reads>() {
        Ok(reading) => {
            let shown = reading.get();
            let edition = shown.plan.plan().edition.0;
            let takes = kept.plan.plan().edition.0 < edition && wanted.is_none_or(|e| e == edition);
            if !takes {
                return (reading.leave(), Ok(None));
            }
            match shown.again() {
                Ok(shown) => (reading.leave(), Ok(Some(shown))),
                Err(_) => (reading.leave(), Err(OutOfMemory)),
            }
        }
        Err(seat) => (seat, Ok(None)),
    }
}

/// A reader of a board. Contracts see it as the board and the list of plans that it has seen, of which it shows the last.
#[derive(Drop)]
pub struct Reader {
    seat: Option<Seat>,
    pub(crate) kept: ShownPlan,
}

impl Model for Reader {
    ghost use Rattle.std.specs.Prelude.{MatchOption};
    ghost use Rattle.bt_shared.specs.Rule.{HasSeen};
    ghost use Rattle.bt_shared.specs.Posted.{Posted, posted};

    ghost Value = { Posted };

    ghost view = { λ r. posted r.kept.seen.book r.kept.seen.log };

    ghost invariant = { λ r. MatchOption r.seat ⊥ (λ s. HasSeen s.place.me.0.client r.kept) };
}

impl Reader {
    /// A reader that has seen the plans of `kept`.
    pub(crate) fn at(seat: Seat, kept: ShownPlan) -> Reader
        requires { HasSeen (view seat.place) kept }
        ensures { result ≡ posted kept.seen.book kept.seen.log }
    {
        Reader {
            seat: Some(seat),
            kept,
        }
    }

    /// The edition of the last plan that it has seen.
    pub(crate) fn edition(&self) -> u32
        ensures { next_edition self.now.plans ≡ result + 1 }
    {
        self.kept.plan.plan().edition.0
    }

    /// Takes what is shown, where it is newer and is the edition that is wanted, if one is. Says whether it did.
    pub(crate) fn enter(&mut self, wanted: Option<u32>) -> Result<bool, OutOfMemory>
        ensures board { self.new.board ≡ self.old.board }
        ensures begins { IsPrefix self.old.plans self.new.plans }
        ensures rises { next_edition self.old.plans ≤ next_edition self.new.plans }
        ensures taken { MatchResult result (λ b. MatchBool b (IfSome wanted (λ e. next_edition self.new.plans ≡ e + 1)) (self.new ≡ self.old)) (λ _. self.new ≡ self.old) }
    {
        let Some(seat) = self.seat.take() else {
            unreachable!()
        };
        let (seat, found) = visit(seat, &self.kept, wanted);
        match self.seat.replace(seat) {
            None => {}
            Some(_other) => unreachable!(),
        }
        match found? {
            Some(shown) => {
                self.kept = shown;
                Ok(true)
            }
            None => Ok(false),
        }
    }

    /// The last plan that this reader has seen.
    pub fn newest(&self) -> &Plan
        ensures last { last_of self.now.plans ≡ Some result.now }
        ensures ascends { Ascends self.now.plans }
    {
        self.kept.plan.plan()
    }

    /// The bursts that a terminal sends in that plan, in the order of the plan. It looks at no other burst.
    pub fn sent_by(&self, terminal: TermNo) -> &[Burst]
        ensures sent { IfSome (last_of self.now.plans) (λ plan. result.now ≡ bursts_from terminal plan.bursts) }
    {
        self.kept.plan.sent_by(terminal)
    }

    /// Of the lists of two readers of one board, the one whose last edition is lower begins the other. It does nothing when
    /// it runs.
    pub fn compare(&self, other: &Reader)
        requires same { other.now.board ≡ self.now.board }
        ensures begins { IsPrefix self.now.plans other.now.plans ⊎ IsPrefix other.now.plans self.now.plans }
        ensures ahead { next_edition self.now.plans ≤ next_edition other.now.plans → IsPrefix self.now.plans other.now.plans }
        ensures behind { next_edition other.now.plans ≤ next_edition self.now.plans → IsPrefix other.now.plans self.now.plans }
    {
        let mut both = self.kept.seen.again();
        both.learn(&other.kept.seen);
    }

    /// Sees what is shown, where it is newer and the board lets the reader in; else the reader stays as it was. It waits
    /// for nobody.
    pub fn look(&mut self) -> Result<(), OutOfMemory>
        ensures board { self.new.board ≡ self.old.board }
        ensures begins { IsPrefix self.old.plans self.new.plans }
        ensures rises { next_edition self.old.plans ≤ next_edition self.new.plans }
        ensures memory { IfErr result (λ _. self.new ≡ self.old) }
    {
        self.enter(None)?;
        Ok(())
    }
}
