//! What a history of calls is: the changes that it made, the desk machine that answers, and what a store tells of it; and how the
//! frame is occupied by the demand.
//!
//! It stands on the network, the demand, which is kept as linked nodes (`bt_matrix`), the checker's verdicts, and the journal's
//! calls, replies and lines. These are promises: `specs/Changes.antt`, what a list of changes made, with each sum taken afresh;
//! `specs/EditCauses.antt` and `specs/Causes.antt`, why a change is refused; `specs/Machine.antt`, the desk machine as a
//! relation over the list of changes; `specs/Recovery.antt`, what a journal tells, and its first line that tells nothing;
//! `specs/Store.antt`, what the store tells after each call, and what the next opening finds there; `specs/Crash.antt`, what a
//! crash leaves of it;
//! `specs/Book.antt`, what contracts see of a book, which a turn lock may hand round. `specs/Faults.antt` and
//! `specs/Records.antt` are for bodies alone, those of `bt_book`, which is the machine that runs. `laws.rt`,
//! `demand_laws.rt`, `journal_laws.rt` and `store_laws.rt` have what holds of all histories, of the demand after them, of
//! all journals and of all stores.
//!
//! An occupancy (`occupancy.rt`) has how many slots the demand asks of each uplink beam and of each downlink beam, and follows each
//! edit. The room for one is taken before it, so that the edit itself takes no memory and nothing fails behind it.
//! `specs/Occupancy.antt` is a promise: what contracts see of an occupancy, what an edit asks of the links, and what it makes of
//! them. The other piece of code is why a book was not recovered (`fault.rt`).
#![tactic(auto)]

mod demand_laws;
mod fault;
mod journal_laws;
mod laws;
mod occupancy;
mod store_laws;

pub use demand_laws::demands_fit_the_frame;
pub use fault::RecoverFault;
pub use journal_laws::{journals_tell_one_thing, marked_journals_tell_the_same};
pub use laws::{
    histories_grow_by_steps, installed_plans_are_good, installed_plans_can_be_flown,
    legal_changes_follow, locked_books_are_legal, locked_books_go_on, locked_calls_are_steps,
    replies_name_beams_of_the_network,
};
pub use occupancy::Occupancy;
pub use store_laws::stores_tell_next_openings;
