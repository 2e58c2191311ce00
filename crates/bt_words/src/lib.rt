//! Printed lines: their words, and the one table of their forms.
//!
//! A line is words: texts, numbers and frames. `line.rt` appends one to a text, its newline included, and leaves the text as it was
//! where memory runs out; it adds a word to a short text too, in which a line is made without a call for memory. A form is what
//! stands at each place of a line that a run or a session prints, in order: a fixed word, or a word of some kind. `form.rt` has the
//! forms, `token.rt` and `specs/Forms.antt` the table, a row a form in the same order: what prints a line and what reads one take
//! it from here. The last rows are of answers to the planner that no run prints: by them a line is printed, and none is read. A
//! name is a word here, so that no network is needed. `names.rt` and `specs/Names.antt` say what the open places of each row are
//! called, in the same order. `tag.rt` and `specs/Tags.antt` say which words are tags,
//! `moment.rt` and `specs/Moments.antt` which are moments.
//!
//! It stands on printed numbers (`bt_text`). All of `specs/` is promise: `Lines.antt`, what a line and its words spell;
//! `Written.antt`, that a text only grew; `Forms.antt`, the table; `Filled.antt`, the line of a form with these words at its
//! places, and the front of one; `Names.antt`, the names of these places.
#![tactic(auto)]

mod form;
mod line;
mod moment;
mod names;
mod printing;
mod tag;
mod token;

pub use form::Form;
pub use line::{Word, add_line, add_word, put_word};
pub use moment::is_moment;
pub use names::names_of;
pub use printing::{print, print_front, put};
pub use tag::is_tag;
pub use token::{MOST_VALUES, Token, forms_from, tokens_of};
