//! The lines that a run prints, read back: each has a form, which is its words in order, some of them fixed.
//!
//! It stands on the table of forms (`bt_words`), the texts of `bt_text`, the names of `bt_net` and the answers of `bt_air`;
//! `bt_timeline` and `bt_talk` print lines by the same table. Promises are in `specs/Words.antt`, what a word says at a place;
//! `specs/Lines.antt`, which line the bytes spell, and the first that no run prints; `specs/Spelled.antt`, how a line is
//! spelled, and which values suit its form; and `specs/Printers.antt`, what is printed by a form. `laws.rt` has the laws. By the
//! last forms of the table, those of answers to the planner that no run prints (`is_of_a_run`), nothing is read.
#![tactic(auto)]

mod laws;
mod output;
mod printed;
mod reader;
mod word;

pub use bt_words::Form;
pub use laws::{
    deliveries_are_printed_lines, lines_of_forms_are_printed_lines,
    printed_lines_have_one_spelling, spelled_lines_are_read,
};
pub use output::{OutputCode, check_output};
pub use printed::{LineWord, Printed, Value};
pub use reader::{read_line, told_behind};
