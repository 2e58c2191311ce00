//! What went wrong, for the person at the terminal: the file by its name, the line with its text, the word that is meant, why,
//! and what may help.
//!
//! It looks again at what a program read and at the last line that it printed, and finds by itself what is wrong there. It
//! stands on the words of texts (`bt_text`), on networks (`bt_net`), on the outside (`bt_outside`), on statuses (`bt_report`), on
//! the forms of printed lines (`bt_words`) and on what a session tells of its own (`bt_talk`).
//! No function here promises anything but that it is safe and returns: what standard error says is claimed nowhere. The outside
//! that is remembered here, an output (`last_line.rt`) and files (`kept_files.rt`), and that of which it is told at once, a store
//! (`alarm.rt`) and the talk of a session (`reasons.rt`), keep what the outside promises.
//!
//! `telling.rt` is where a program asks; `fault.rt` goes by the code. `cause.rt` is what is said, `page.rt` the text of it.
#![tactic(auto)]

mod alarm;
mod asked;
mod blocks;
mod bytes;
mod carry;
mod cause;
mod delays;
mod fault;
mod fit;
mod form;
mod journal;
mod json;
mod kept_files;
mod last_line;
mod lines;
mod near;
mod network;
mod output;
mod page;
mod plan;
mod reasons;
mod refusal;
mod row;
mod script;
mod session;
mod telling;
mod traffic;
mod unread;
mod utf8;
mod verdict;
mod walk;
mod words;

pub use alarm::Alarming;
pub use kept_files::KeptFiles;
pub use last_line::LastLine;
pub use reasons::Reasons;
pub use session::Session;
pub use telling::{Done, tell, tell_status};
