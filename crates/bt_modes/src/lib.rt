//! Switching schedules of the least length. Each mode is a permutation of the beams, held for as long as what is left of the
//! matrix allows, so that it is decided mode by mode which connections get slots that nobody asks for (`schedule`). A matrix
//! whose line sums are equal, as padding makes it, is taken apart into modes that sum to it exactly (`pad`, `decompose`), by
//! permutations inside its positive entries (`perfect`).
//!
//! It stands on matrices (`bt_matrix`), kept as linked nodes (`bt_matrix`), whose entries it reads on a counter of steps. Promises
//! are in `specs/Matching.antt`, what partial maps of rows to columns are, in `specs/Padding.antt`, what a padding is, and in
//! `specs/Decomposition.antt`, when modes together are a matrix. `specs/Search.antt`, what the search for the column of one row
//! keeps and finds, and `specs/Serving.antt`, what a mode may serve and leaves, are
//! for bodies alone. `docs/definitions.md` has them in words, and `docs/architecture.md` the way of a schedule in a picture.
#![tactic(auto)]

mod augmenting;
mod copy;
mod decomposition;
mod hold;
mod matching;
mod padding;
mod partial;
mod perm;
mod planning;
mod search;
mod serving;
mod step;
mod table;

pub use decomposition::decompose;
pub use matching::perfect;
pub use padding::{Padded, pad};
pub use partial::Partial;
pub use perm::Perm;
pub use planning::{modes_of, schedule};
