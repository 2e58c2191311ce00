//! Cases as text: a sheet of them, which counts how many were played and how many got another answer, and what their lines
//! share.
//!
//! A program that plays cases shows a `Sheet` each line of a file. The sheet says which lines the program has to act on,
//! compares the answer that came with the one that stands below the line, and keeps a `Tally`. Beside it stand the files in
//! memory and the lines that set them up, numbers, and bytes and answers as printed lines. `docs/cases.md` has the lines of a
//! file of cases. The crate stands on `bt_base`: on the files in memory, and on the words for a count that rose.
//! `specs/Tallied.antt` is promise: what is counted.
#![tactic(auto)]

mod answers;
mod escape;
mod fault;
mod files;
mod links;
mod sheet;
mod tally;
mod words;

pub use answers::{Part, put_lines};
pub use escape::{hex_byte, take_bytes};
pub use fault::{CaseFault, Result};
pub use files::{Shelf, set_files};
pub use sheet::Sheet;
pub use tally::Tally;
pub use words::{byte_of, number_of, owned_words};
