//! The commands of the program, and the top call that carries its promise; that of a session stands beside it.
//!
//! It stands on the loader of files (`bt_load`) and on what a report is (`bt_report`), on the planners and checkers, on the
//! book and what its store tells (`bt_book`), on runs and sessions over a store (`bt_centre`) and on the printed lines
//! (`bt_timeline`).
//! Promises: `specs/Top.antt` has the table of the commands, from which how the program ends and what it leaves in the store is
//! read off by the words of `specs/Command.antt`; the files that it names say of each command what it loads, in the words of
//! `bt_load`'s `specs/Loaders.antt`, and what it prints. `specs/Live.antt` says how a session ends. For bodies alone:
//! `CommandLine`.
#![tactic(auto)]

mod asked;
mod capacity;
mod carry;
mod check;
mod check_plan;
mod command_line;
mod commands;
mod edits;
mod fit;
mod json;
mod laws;
mod live;
mod look;
mod make;
mod modes;
mod named_files;
mod number_word;
mod plan;
mod replay;
mod run;
mod summary;
mod table;
mod timing;
mod top;
mod trans;

pub use bt_centre::{Histories, History};
pub use commands::{check_command, modes_command, plan_command, timing_command, trans_command};
pub use laws::{
    ends_are_reports, one_report, printed_plans_are_read_back, printed_schedules_are_read_back,
    sound_input_is_served,
};
pub use live::{live_main, live_words, sound_sessions_are_served};
pub use make::{Made, make_command};
pub use named_files::{journal_of, places_of_files};
pub use replay::replay_command;
pub use top::{Ended, centre_main};
