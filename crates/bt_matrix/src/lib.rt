//! Traffic matrices: the slots per frame that each uplink beam asks for to each downlink beam.
//!
//! It stands on the words of the field and the counter of steps (`bt_frame`).
//! Promises are in `specs/Traffic.antt`, what a matrix and its line sums are; `specs/Walk.antt`, how many entries are
//! positive and which comes next in a row; `specs/Good.antt`, when a switching schedule is good for a matrix; and
//! `specs/Dense.antt`, line sums that stand beside a matrix, where `KeepsSums` and `IsFirstGreatest` are for bodies
//! alone. `laws.rt` has what holds of every matrix. `docs/definitions.md` has them in words.
//!
//! `Rows` says what a matrix is, `Traffic` what every matrix answers, and `Walk` what is read of one on a counter of
//! steps. `Dense` keeps a matrix in whole; `Crosslinked` is the matrix of linked nodes.
//!
//! Of that one the positive entries are linked, so that the next entry of a row is reached without a walk over zeros, and its room is
//! taken before an entry becomes positive. Of its `specs/` only `Matrix.antt`, what a matrix of linked nodes is seen as, and
//! `Cursor.antt`, the entries that a walk still has before it, are promises. `Links`, `Table`, `Pool`, `Crosslinked` and `Copy` say
//! what nodes, table and free list keep, and are for bodies alone: begin with `specs/Crosslinked.antt` and with the picture in
//! `crosslinked.rt`.
#![tactic(auto)]

mod copy;
mod crosslinked;
mod cursor;
mod dense;
mod entries;
mod fresh;
mod heaviest;
mod laws;
mod node;
mod pool;
mod rows;
mod table;
mod traffic;
mod walk;

pub use bt_frame::MOST_SUM;
pub use crosslinked::Crosslinked;
pub use cursor::Cursor;
pub use dense::Dense;
pub use heaviest::heaviest_line;
pub use laws::{no_schedule_is_shorter, one_line_is_heaviest};
pub use rows::Rows;
pub use traffic::Traffic;
pub use walk::Walk;
