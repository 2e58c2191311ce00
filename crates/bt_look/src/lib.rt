//! What a journal, a book or a demand tells without a change of either: texts for an operator who only looks.
//!
//! It stands on the book of changes, whatever store it has, or one that is recovered over a journal's bytes in memory, so that
//! nothing is written where they came from; on matrices, demands, plans and their texts; on the lines of a journal; and on printed
//! lines. These are promises: `specs/Room.antt`, what is asked of each beam and free there, and how much one add may have;
//! `specs/Look.antt`, which demand of a journal is told, and why none is; `specs/Compact.antt`, the journal with the fewest edits
//! that comes to a demand; `specs/State.antt`, the state of a journal or a book, and the plans of a book; `specs/Installed.antt`, which of its plans is told.
//! `specs/Measure.antt` is for bodies alone. `laws.rt` says that the desk machine takes an add exactly where there is room for it,
//! what the journal with the fewest edits comes to, and that a plan that is told is read back, and good for the demand that is told
//! of its edition.
#![tactic(auto)]

mod capacity;
mod compact;
mod demand;
mod installed;
mod laws;
mod look;
mod measure;
mod state;

pub use capacity::{capacity_of_book, capacity_text, room_of_book};
pub use compact::{compact_journal, compact_text};
pub use demand::{demand_of_book, demand_of_journal, demand_text};
pub use installed::{installed_of_journal, newest_of_book};
pub use laws::{
    compact_journals_come_to_the_same, no_journal_has_fewer_edits, room_is_what_an_add_may_have,
    told_plans_are_read_back,
};
pub use measure::{JournalSize, size_of_journal};
pub use state::{plans_of_book, state_of_book, state_text};
