//! Tests of what only a run shows: the adapters to the real system; the turn lock and the board on threads, and that
//! memory that is there suffices for them; the book behind the lock, and over a disk that stops at a call; and the workers
//! of a round.
//!
//! It stands on what it tests, and no crate stands on it. It has tests alone; `specs/Sums.antt` has the object that is
//! behind the lock in its own tests.
#![tactic(auto)]

#[cfg(test)]
mod adder;
#[cfg(test)]
mod board;
#[cfg(test)]
mod book;
#[cfg(test)]
mod disk;
#[cfg(test)]
mod gate;
#[cfg(test)]
mod line;
#[cfg(test)]
mod outside;
#[cfg(test)]
mod played;
#[cfg(test)]
mod show;
