// The rule of the board: it goes forward along one list of plans.
use crate::seen_plans::SeenPlans;
use crate::shown::ShownPlan;
use atomic_table::{Join, Split};
use crossbeam_utils::rule::{Outcome, Protocol};

/// The plan that is shown is the last of its list, whose editions ascend, and what each has seen begins that list: so the
/// board never goes back.
pub struct OneList;

impl Protocol<ShownPlan, SeenPlans> for OneList {
    ghost use Rattle.bt_shared.specs.Rule.{GoesForward, newcomer};

    ghost holds = { GoesForward };

    ghost first = { newcomer };
}

/// A reader enters, and sees the list of what is shown.
pub struct Reads;

impl Outcome<ShownPlan, SeenPlans> for Reads {
    ghost use Rattle.bt_shared.specs.Rule.{Reads};

    ghost then = { Reads };
}

/// The publisher shows a plan whose list goes on from the one shown.
pub struct Posts;

impl Outcome<ShownPlan, SeenPlans> for Posts {
    ghost use Rattle.bt_shared.specs.Rule.{Posts};

    ghost then = { Posts };
}

/// The publisher tells a reader what it has seen.
pub struct Tells;

impl Split<SeenPlans> for Tells {
    ghost left = { λ v. v };

    ghost right = { λ v. v };
}

/// The reader takes it in.
pub struct Learns;

impl Join<SeenPlans> for Learns {
    ghost use Rattle.bt_shared.specs.Rule.{newcomer};

    ghost both = { λ v w. w };

    ghost spent = { newcomer };
}
