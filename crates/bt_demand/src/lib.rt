//! The demand of the terminals and the burst time plan that serves it, as values; and what is wrong first with a schedule or a
//! plan, or that it is good.
//!
//! It stands on the network's terminals (`bt_net`) and on matrices (`bt_matrix`). These are promises:
//! `specs/Demand.antt` says what a demand is, `specs/Rows.antt` what the rows of its senders are, `specs/Traffic.antt` what its
//! traffic matrix is, `specs/Burst.antt` and `specs/Plan.antt` what bursts and a plan are and when no plan is shorter,
//! `specs/Apart.antt` which bursts meet, `specs/Flyable.antt` which plans can be flown. `demand_laws.rt` and `plan_laws.rt` have
//! what holds of every demand and plan.
//!
//! `specs/Verdict.antt` has the table of verdicts on schedules, `specs/PlanVerdict.antt` that of plans. `verdict_laws.rt` and
//! `plan_verdict_laws.rt` have what holds of verdicts and of plans whatever the program does. `Short`, `Meeting`, `Turn` and
//! `Unserved` are for bodies alone.
//!
//! The two checkers stand in `schedule_check.rt` and `plan_check.rt`; what they ask, each in a file of its own:
//! `mode_faults.rt` for V1 to V3, `length_faults.rt` for V4, `meetings.rt` for V5, `holding.rt` for V6, `serving.rt` for
//! V7, `shortages.rt` for V8.
#![tactic(auto)]

mod burst;
mod demand;
mod demand_laws;
mod holding;
mod length_faults;
mod meetings;
mod mode_faults;
mod plan;
mod plan_check;
mod plan_laws;
mod plan_verdict_laws;
mod room;
mod row;
mod schedule_check;
mod serving;
mod shortages;
mod traffic;
mod verdict;
mod verdict_laws;

pub use burst::{Burst, Bursts, MOST_BURSTS};
pub use demand::{Demand, Link};
pub use demand_laws::{gain_adds_to_one_entry, gain_changes_one_link, links_tell_demands};
pub use plan::{Plan, empty_plan};
pub use plan_check::check;
pub use plan_laws::{
    apart_bursts_spell_apart_triples, flyable_plans_are_small, good_plans_are_flyable,
};
pub use plan_verdict_laws::{
    good_plans_have_their_parts, no_assignment_is_shorter, one_plan_verdict,
    plans_are_good_by_their_parts,
};
pub use room::LinkRoom;
pub use row::LinkRow;
pub use schedule_check::check_modes;
pub use traffic::traffic_of;
pub use verdict::Verdict;
pub use verdict_laws::one_verdict;
