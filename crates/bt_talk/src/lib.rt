//! What a line of a session comes to, and its answer.
//!
//! It stands on the lines of a script (`bt_script`), of which a session has all, and `go`, `forget` and lines that ask and change
//! nothing, and on the forms of printed lines (`bt_words`). All of `specs/` is promise: `Block.antt`, the table of a session's lines in
//! the block of their tag, in the order of `block.rt`; `Tags.antt`, which tag a line has; `Opened.antt` and `Blocks.antt`, the blocks
//! that are open, and what a line comes to among them, in the order of `blocks.rt`; `Answers.antt`, what stands behind the text of
//! what a line plays, and in front of what it is told; `Help.antt`, what is told of the lines; `Asked.antt`, the parts that lines ask;
//! `Scripts.antt`, the session that asks what a script asks.
#![tactic(auto)]

mod answer;
mod block;
mod blocks;
mod clock;
mod help;
mod laws;
mod tag;
mod wish;

pub use answer::{add_input_fault, add_ready, answer_text, counted_text};
pub use block::{BlockLines, Query, SaidLines, Step};
pub use blocks::{Blocks, MOST_OPEN_BLOCKS, line_bytes};
pub use clock::{Clock, MemClock};
pub use help::help_text;
pub use laws::scripts_are_sessions;
