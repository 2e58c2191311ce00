//! What a program ends with: the text that it prints, and its status.
//!
//! It stands on what files, output and store tell (`bt_outside`), and on printed lines (`bt_words`). All of `specs/` is
//! promise: `Input`, `Output` and `Stored` say what the outside tells before and after a call; `Outcome` what the work may come
//! to, and `Printing` that it was printed; `Faults` which words name a fault, and `Report` the same of what the code hands on.
//! Each status stands in `status.rt` alone, with what it means in `meaning.rt`.
#![tactic(auto)]

mod faulty;
mod meaning;
mod printing;
mod report;
mod status;
mod words;

pub use faulty::{faulty_words, print_faulty_words};
pub use meaning::{Program, Reason, add_statuses};
pub use printing::{print, print_text, unwritten};
pub use report::{Report, Stop};
pub use status::{
    DONE, FAULTY_JOURNAL, FAULTY_TEXT, FAULTY_WORDS, NO_NETWORK, NOT_GOOD, OUT_OF_MEMORY,
    READ_FAILED, STORE_FAILED, TOO_LONG, WRITE_FAILED,
};
pub use words::{Refusal, STANDARD_INPUT, put_standard_input, words_after_name};
