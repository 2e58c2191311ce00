//! The texts of matrices, schedules, demands and burst time plans. It also gives out demands and plans, which stand in a crate of
//! their own.
//!
//! It stands on `bt_text` for lines and words, on `bt_net` for the names of terminals, and on the values of `bt_frame`,
//! `bt_matrix` and `bt_demand`. Promises are in `specs/MatrixText.antt`, `specs/ScheduleText.antt`,
//! `specs/TrafficText.antt` and `specs/PlanText.antt`, the grammars line by line with the fault of each line;
//! `specs/TerminalNames.antt`, the ends that two names give; `specs/Reading.antt`, what a reader answers; and
//! `specs/ScheduleSpelling.antt` and `specs/PlanSpelling.antt`, the one text of each schedule and of each plan.
//! `laws.rt` says that there is no other. `specs/LineNumbers.antt` and `specs/LinkTable.antt` are for bodies alone.
#![tactic(auto)]

mod laws;
mod link_table;
mod matrix_reader;
mod names;
mod plan_reader;
mod plan_writer;
mod schedule_reader;
mod schedule_writer;
mod text_fault;
mod traffic_reader;

pub use bt_demand::{Burst, Bursts, Demand, Link, MOST_BURSTS, Plan, traffic_of};
pub use laws::{plans_have_one_spelling, schedules_have_one_spelling};
pub use matrix_reader::read_matrix;
pub use plan_reader::read_plan;
pub use plan_writer::plan_text;
pub use schedule_reader::read_schedule;
pub use schedule_writer::{schedule_text, write_mode};
pub use text_fault::{TextCode, TextFault};
pub use traffic_reader::read_demand;
