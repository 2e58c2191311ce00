//! What desks ask of the book of changes, what it answers, the entries of its history, and the lines of its journal.
//!
//! It stands on the network's terminals, on demands and plans and their texts, on the orders of the air and on verdicts.
//! Promises are in `specs/Journal.antt`, the words for calls, replies and histories, and in `specs/JournalLines.antt`, the
//! one line of each change. `laws.rt` says that there is no other. `specs/Mark.antt` has the line that says of which network a
//! journal is, and `specs/Kept.antt` which lines keep a list of changes. `specs/LineReading.antt` is for bodies alone.
#![tactic(auto)]

mod call;
mod entry;
mod laws;
mod line_fault;
mod mark;
mod reader;
mod reply;
mod writer;

pub use call::{Call, Change, Edit};
pub use entry::{Entries, Entry};
pub use laws::{lines_end_once, lines_tell_changes, marks_tell_sizes};
pub use line_fault::JournalLineFault;
pub use mark::{mark_text, read_mark};
pub use reader::{read_change, read_change_of};
pub use reply::Reply;
pub use writer::{change_text, write_change};
