//! The pictures of what a run printed: who sent which message and who heard it, the edition in front, and the bursts on
//! the air, in time from left to right, or from top to bottom as a ladder.
//!
//! Its lines are read (`reading.rt`) as steps (`step.rt`). What is not asked for (`view.rt`) is hidden in them (`range.rt`),
//! and superframes of nothing but routine (`routine.rt`) begin with one step (`folding.rt`).
//!
//! From left to right each step gets a place in a column of a stave (`layout.rt`), and from there all is drawn (`spans.rt`,
//! `lanes.rt`, `folds.rt`, `air.rt`, `messages.rt`); where there are too many messages, they are counted by superframes
//! (`totals.rt`). In a ladder each step gets a row (`rungs.rt`), and from there its ways and its marks are drawn
//! (`ladder_ways.rt`, `ladder_marks.rt`). Both pictures have the ways of `ways.rt`, and the bursts and silences of `frames.rt`.
//!
//! The crate stands on read lines (`bt_run_lines`) and on what is drawn by a pen (`bt_picture`), whose `specs/Drawn.antt`
//! says what is promised: what is written is a picture; and `specs/Titles.antt` of which title. What else is drawn in it is not
//! claimed.
#![tactic(auto)]

mod air;
mod editions;
mod folding;
mod folds;
mod frames;
mod holdings;
mod labels;
mod ladder;
mod ladder_marks;
mod ladder_ways;
mod lanes;
mod layout;
mod messages;
mod numbering;
mod plain;
mod range;
mod reading;
mod routine;
mod rungs;
mod silences;
mod spans;
mod step;
mod titles;
mod totals;
mod view;
mod ways;
mod whole;

pub use ladder::ladder_picture;
pub use view::{Asked, Superframes, View};
pub use whole::run_picture;
