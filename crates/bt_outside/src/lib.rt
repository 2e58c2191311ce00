//! The outside: what files, a sink, a store of records, an input of lines and the talk of a session promise, and the adapters to
//! the real ones.
//!
//! It stands on `bt_frame`, the words of the field, and on the lines of `bt_text`. All of `specs/` is promise: `Told.antt` says
//! what the outside tells, `Crash.antt` what a crash may leave of a store, `Input.antt` the lines that bytes are and what a source
//! gives of them, `Talk.antt` what was heard and said over a store, in order, and `Kept.antt` the same as it is kept. `proofs/Moments.antt` says
//! for all above how crashes go on from call to call. Files, a sink and stores in memory has `bt_base`, which gives these out too.
//!
//! A `Trace` is a list of what happened that clauses read, and that has no bytes at run time: the ghost list of the kit's
//! `http_server`, which alone of that crate is used here.
#![tactic(auto)]

mod console;
mod dir_files;
mod file_keeper;
mod files;
mod keeper;
mod kept;
mod laws;
mod mem_source;
mod sink;
mod source;
mod std_sink;
mod std_source;
mod streams;
mod talk;
mod trace;
mod waiting;

pub use console::Console;
pub use dir_files::DirFiles;
pub use file_keeper::FileKeeper;
pub use files::{FileFault, Files};
pub use keeper::{KeepFault, Keeper};
pub use kept::{KeptTalk, KeptTurn};
pub use laws::later_crashes_leave_less;
pub use mem_source::MemSource;
pub use sink::{Sink, SinkFault};
pub use source::{Incoming, Source, SourceFault};
pub use std_sink::StdSink;
pub use std_source::StdSource;
pub use streams::take_closed_streams;
pub use talk::Talk;
pub use trace::Trace;
pub use waiting::Waiting;
