//! The run of a script: its rounds on the book of changes, and the lines that are printed of them. And a session: a run whose
//! parts are asked by lines that come one by one, each of which is answered before the next is heard.
//!
//! It stands on what a program ends with (`bt_report`), on the book and its store, on the world, on the rounds of a script
//! (`bt_round`), and for sessions on a talk (`bt_outside`) and on what a line comes to (`bt_talk`). A run begins with the changes
//! that its store tells, and reads them again at each restart of the centre. `specs/Run.antt`, `specs/Lines.antt` and
//! `specs/RecoverFaults.antt` are promises: what a run is, and how it ends; so are `specs/Talked.antt` and `specs/Session.antt`:
//! what is said, and what a session is. `Progress`, `Answering`, `Handed` and `Whole` are for bodies alone. `specs/Joining.antt` and
//! `specs/Turns.antt` are promises too: which order joins the world at a restart, and what a turn knows of the plans that
//! are installed; `joining_laws.rt` and `turn_laws.rt` have what holds of that in all runs, each of their parts by
//! `specs/Parts.antt`. `specs/Lasting.antt` is one: what a crash leaves of what was answered in a session, of which
//! `lasting_laws.rt` has what holds in all sessions.
#![tactic(auto)]

mod begin;
mod fault;
mod history;
mod joining_laws;
mod lasting_laws;
mod live;
mod log;
mod open;
mod play;
mod playing;
mod restart;
mod run;
mod say;
mod script;
mod session;
mod station;
mod tally;
mod tell;
mod total;
mod turn_laws;

pub use bt_round::{Gate, NoGate};
pub use bt_world::TracedEvents;
pub use fault::print_fault;
pub use history::{Histories, History, SessionHistories};
pub use joining_laws::orders_join_as_told;
pub use lasting_laws::answered_lines_survive;
pub use say::say_text;
pub use script::{RunEnd, run_script};
pub use session::{InputEnd, SessionEnd, run_session};
pub use turn_laws::turns_know_the_newest_install;
