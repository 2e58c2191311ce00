//! The commands of the program that draws, and its top call; and the page of a journal.
//!
//! It stands on the loader of files (`bt_load`) and on what a report is (`bt_report`), and on the pictures of a plan
//! (`bt_plan_chart`) and of a run (`bt_run_chart`).
//! Promises: `specs/Top.antt` has the table of the commands, and says what is drawn and how the program ends; `specs/Request.antt`
//! says which words are a command, `specs/Choosing.antt` what the words behind a plan choose of it, `specs/Range.antt` which superframes a
//! word names, `specs/Plans.antt`, `specs/Runs.antt` and `specs/Pages.antt` what is loaded for a plan, for a run and for a page, in the words
//! of `bt_load`'s `specs/Loaders.antt`, and what is drawn. For bodies alone: `CommandLine`.
//!
//! The page of a journal: one file in HTML for a browser, with how far the journal has come and how full it is, the use of each
//! beam, the picture of the newest plan, its modes, and the links of the demand.
//!
//!     head      its title, in how many seconds it is loaded again, the style sheet
//!     heading   the edition, and that of the newest plan
//!     state     the numbers of the journal and of the newest plan
//!     beams     of each beam, up and down, a bar of the frame, what is asked and what is free
//!     plan      the picture of the newest plan
//!     modes     each mode of it
//!     links     each link, the largest first
//!
//! The page stands on the book of changes, recovered over a journal's bytes in memory, so that nothing is written where they came
//! from; on looks at a journal (`bt_look`), whose numbers these are; and on the picture of a plan. These are promises:
//! `specs/Page.antt`, which pieces a page has and of which numbers; `specs/Pieces.antt`, how each is spelled; `specs/Fixed.antt`,
//! what is the same in every page. The text is well-formed XML too.
#![tactic(auto)]

mod air_part;
mod answers;
mod beams;
mod choosing;
mod command_line;
mod fixed;
mod journal_page;
mod laws;
mod links;
mod page;
mod pieces;
mod plan;
mod plan_part;
mod range;
mod run;
mod state;
mod top;

pub use air_part::Shown;
pub use journal_page::page_of_journal;
pub use laws::{no_words_choose_the_whole, one_chart};
pub use top::chart_main;
