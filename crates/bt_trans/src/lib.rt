//! Switching schedules of the least length for a satellite with fewer transponders than beams: at most `k` connections
//! at once, so that uplink beams are silent in some modes.
//!
//! It stands on matrices (`bt_matrix`, `bt_matrix`), on permutations inside them and on decomposition
//! (`bt_modes`), and on the words of a first fault (`bt_demand`). Promises: `specs/Part.antt`, when such a schedule is
//! good; `specs/Allocation.antt`, what an allocation of a matrix is; `specs/PartVerdict.antt`, the table of verdicts; and
//! `specs/PartText.antt`, how a schedule is spelled. `laws.rt` has what holds whatever the program does.
//! `specs/Border.antt` and `specs/Short.antt` are for bodies alone.
//!
//! `planning.rt` goes from a matrix to a schedule: `least.rt` finds the length, `border.rt` puts new lines beside the
//! matrix until every line has that length, and `clipping.rt` keeps the part of each mode that lies in the old lines.
//! The checker stands in `part_check.rt`, and what it asks in `mode_faults.rt` for Q1 to Q4, in `least.rt` for Q5 and in
//! `shortages.rt` for Q6.
#![tactic(auto)]

mod border;
mod clipping;
mod laws;
mod least;
mod mode_faults;
mod part;
mod part_check;
mod planning;
mod shortages;
mod verdict;
mod writer;

pub use laws::{an_allocation_is_as_short, no_allocation_is_shorter, one_part_verdict};
pub use part::{Bound, MOST_PART_BEAMS, PartMode, PartModes, PartSchedule, SILENT};
pub use part_check::check_part;
pub use planning::part_schedule;
pub use verdict::PartVerdict;
pub use writer::part_text;
