//! What a whole run prints is read as printed lines, and what a session is told is passed over.
//!
//! A crate of laws alone, with no code that runs: it stands on the run of a script (`bt_centre`), on the answers of a session (`bt_talk`) and on the reader of printed lines
//! (`bt_run_lines`). `laws.rt` is the promise, with `specs/Readable.antt`, a text that is printed lines. `specs/Small.antt` is for the
//! proof alone: which numbers are small enough to be read, and whose.
#![tactic(auto)]

mod laws;

pub use laws::{a_runs_output_is_read, answers_are_passed_over};
