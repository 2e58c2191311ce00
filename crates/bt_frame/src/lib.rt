//! The words of the field: beams, terminals, editions, marks and commands, each a number with a type of its own, the
//! modes of the on-board switch, and the schedules that they make up; a counter of steps; and what holds of lists.
//!
//! It stands on no other crate of the repository. These are promises: `specs/Critical.antt`, which lines a matrix of so
//! many beams has, and `specs/Range.antt`, when a number lies in a range.
//!
//! Lemmas for all crates stand in `proofs/`, of lists, tables, walks along them and results, whatever they hold:
//! `Walk.antt` has a walk as far as it has come, `Counts.antt` sums over lists, `Totals.antt` sums over the numbers below a
//! bound, `Tests.antt` tests of these numbers, `Pairs.antt` what holds of each two items, `Images.antt` what a function
//! gives at each number below one, `Prefixes.antt` beginnings, `Results.antt` what is said of an error or of a value alone.
#![tactic(auto)]

mod limits;
mod mode;
mod numbers;
mod schedule;
mod steps;

pub use limits::{
    LAST_BEAM, LAST_COMMAND, LAST_EDITION, LAST_MARK, LAST_MESSAGE, LAST_SLOT, LAST_TERMINAL,
    LAST_TEXT_SLOT, LEAST_JOURNAL_BYTES, LEAST_LEAD, MOST_ANSWERS, MOST_BEAMS, MOST_BOOK_BYTES,
    MOST_BURST_SLOTS, MOST_CALLERS, MOST_COUNTED, MOST_DESKS, MOST_DIGITS, MOST_FILE_BYTES,
    MOST_FRAMES, MOST_INLINE_BEAMS, MOST_JOURNAL_BYTES, MOST_LEAD, MOST_LINES, MOST_MESSAGE_BYTES,
    MOST_NAME_BYTES, MOST_NUMBERED_BEAMS, MOST_PATIENCE, MOST_PLACED, MOST_READERS,
    MOST_SESSION_LINE_BYTES, MOST_SLOTS, MOST_STATION_LINE_BYTES, MOST_SUM, MOST_TERMINALS,
    MOST_TEXT_BYTES, MOST_TEXT_SLOTS, MOST_UNITS,
};
pub use mode::{Columns, Mode, Modes};
pub use numbers::{BeamNo, Command, EditionNo, Mark, OutOfMemory, TermNo, TermSet, Units};
pub use schedule::{Critical, Schedule};
pub use steps::Steps;
