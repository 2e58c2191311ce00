//! The book of changes: the desk machine that makes edits of the demand, installs plans and places orders, or refuses
//! each for its first cause.
//!
//! It stands on logs that clauses alone read, the network, the demand and the occupancy of the frame, the checker of
//! plans and the journal's calls, replies and lines, and is handed a store, in which it keeps the line of each change
//! before it answers. What a list of changes made, why a change is refused, the desk machine as a relation, what a
//! journal and a store tell, and what holds of all of them, `bt_history` says, whose laws are given out here too.
//! `book.rt` has the book, `change.rt` the way of a call and of a change, `tell.rt` the calls that only ask, `cause.rt`
//! and `install.rt` the first cause of a refusal, `make.rt` the change that is made, `kept.rt` what it leaves, in room that
//! was taken before, `recover.rt` and `replay.rt` the changes of a journal made again, `changes.rt` all that were made, as
//! clauses see them, `earlier.rt` the demand of an earlier edition, and `trial.rt` with `no_store.rt` a copy of the book
//! without its store. `specs/Answered.antt`, `specs/Kept.antt`, `specs/Lines.antt` and `specs/Noted.antt` are for bodies
//! alone.
#![tactic(auto)]

mod book;
mod cause;
mod change;
mod changes;
mod earlier;
mod install;
mod kept;
mod lines;
mod machine;
mod make;
mod no_store;
mod object;
mod place;
mod recover;
mod replay;
mod tell;
mod trial;

pub use book::Book;
pub use bt_history::{
    RecoverFault, demands_fit_the_frame, histories_grow_by_steps, installed_plans_are_good,
    installed_plans_can_be_flown, journals_tell_one_thing, legal_changes_follow,
    locked_books_are_legal, locked_books_go_on, locked_calls_are_steps,
    marked_journals_tell_the_same, replies_name_beams_of_the_network, stores_tell_next_openings,
};
pub use no_store::NoStore;
pub use trial::Trial;
