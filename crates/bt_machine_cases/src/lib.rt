//! The lines of cases that show messages, machines and stations, for the program that plays cases. `docs/cases.md` says what
//! they mean.
//!
//! It stands on messages, on the machines that take them, on a site at work over lines, and on the text of cases. It promises
//! nothing beyond that each step is safe, and has no `specs/`.
#![tactic(auto)]

mod air;
mod centre;
mod lines;
mod message;
mod satellite;
mod shown;
mod stage;
mod standby;
mod station;
mod terminal;
mod world;

pub use stage::Machines;
