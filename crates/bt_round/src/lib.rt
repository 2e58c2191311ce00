//! A round of a script on the book: its workers, each with its own pass of the book's line, and the round in which the desks, the
//! planner and the centre's worker do their lines at once.
//!
//! It stands on scripts, on the book behind its turn lock, on the board, on the world, on the centre of sites apart and on the printed
//! lines. The centre's worker is one over two airs: a simulated one, or that of sites apart. A worker does its lines one after the other,
//! and appends what is printed of them to a text; the planner posts what it installed, and a desk has a reader of the board. Each worker
//! has its place on the book's line; the round's text is put together when all have returned.
//! These are promises: `specs/Rounds.antt`, what a round does, and `specs/Boards.antt`, the board between two rounds;
//! `specs/Done.antt`, what the lines of a desk and of the planner come to, with `Lent`, `Desks` and
//! `Planning`; `specs/AirLines.antt` with `Simulated` and `Waiting`, what those of the air come to; `specs/OnAir.antt`, the lines of
//! how the centre sees the air, which a session asks for (`src/on_air.rt`); `specs/Trial.antt`, what a block of lines comes to on a
//! copy of the book (`src/trial.rt`); and of `Callers`, `Worker` and `Planned` what the public calls name: the number of a caller and
//! its own entries, that a caller is the same, what is asked, and what was posted. The rest of these three, `Seats` and `Workers` are
//! for bodies alone.
#![tactic(auto)]

mod air;
mod back;
mod caller;
mod desk;
mod flow;
mod gate;
mod lines;
mod on_air;
mod planner;
mod round;
mod seats;
mod simulated;
mod standby;
mod trial;
mod turn;
mod waiting;
mod worker;
mod workers;

pub use caller::Caller;
pub use desk::run_desk;
pub use gate::{Gate, NoGate};
pub use planner::run_planner;
pub use round::{Station, run_round};
pub use seats::DESKS;
pub use simulated::SimulatedCentre;
pub use trial::{refusal_of, tried_text};
pub use worker::{CentreOver, CentreWorker};
