//! Texts: numbers, words and lines, how each is spelled, and how a reader goes through them to the first fault.
//!
//! It stands on the kit's `memchr` and `itoa`, and on `bt_frame` for want of memory alone. Promises are in
//! `specs/Text.antt`, what a number, a word and a line are; `specs/Reading.antt`, how a reader goes on from part to part;
//! and `specs/WordReader.antt`, what a reader of a line's words has in front of it. `spelling.rt` says that each is spelled
//! in one way. `short.rt` makes a line in room of a fixed size, and `one_word` of `specs/Short.antt` says what a word adds to it.
//! In `specs/WordReader.antt` `digits_after`, and in `specs/Short.antt` `Placed`, are for bodies alone.
#![tactic(auto)]

mod fault;
mod short;
mod spelling;
mod text;
mod word_reader;

pub use fault::{LineFault, fault_at};
pub use short::ShortText;
pub use spelling::{
    lines_have_one_text, number_lines_have_one_spelling, numbers_have_one_spelling,
    words_have_one_line,
};
pub use text::{first_line, is_word, next_line, number, number_of_digits, number_text};
pub use word_reader::WordReader;
