//! The lines of cases that show texts and the steps of planning, for the program that plays cases. `docs/cases.md` says
//! what they mean.
//!
//! It stands on the readers of texts, on the steps from a matrix to a plan, on drawn demands (`bt_cut`), on schedules for
//! fewer transponders (`bt_trans`), and on the text of cases. It promises nothing beyond that each step is safe, and has no
//! `specs/`; but one small decomposition, whose looks stand in its contract (`crossed.rt`).
#![tactic(auto)]

mod crossed;
mod cutting;
mod delays;
mod demand;
mod drawn;
mod linked;
mod marks;
mod part_text;
mod parts;
mod planning;
mod stage;
mod texts;
mod twins;

pub use parts::show_parts;
pub use stage::Texts;
