//! The outside in memory: files, sinks and stores of records that programs of cases and bodies of proofs are given; and a disk, in
//! memory or real, with the store over it that the program uses.
//!
//! It stands on `bt_outside`, what the outside promises and the adapters to the real one, on `bt_frame` and `bt_text`,
//! the words of the field and of texts, and gives all three out too. `Held.antt`
//! and `Calls.antt` say what the objects in memory are seen as.
//!
//! The disk loses at a crash what was not synced, and its store of records answers once its bytes are on it. `disk.rt` has what a
//! disk promises, `mem_disk.rt` one in memory, whose moments are in `moments.rt`, `file_disk.rt` one over a real file, and
//! `line_keeper.rt` the store. `specs/Medium.antt` is promise: what a disk holds and what a crash leaves of it. So are
//! `specs/Moments.antt`, `specs/MemoryDisk.antt` and `specs/Failing.antt` for the disk in memory; `specs/Lines.antt` is for
//! bodies alone.
#![tactic(auto)]

mod disk;
mod fail;
mod file_disk;
mod line_keeper;
mod mem_disk;
mod mem_files;
mod mem_keeper;
mod mem_sink;
mod moments;
mod named;
mod sure_files;
mod sure_keeper;
mod sure_sink;

pub use bt_frame::{
    BeamNo, Columns, Command, Critical, EditionNo, Mark, Mode, Modes, OutOfMemory, Schedule, Steps,
    TermNo, TermSet, Units,
};
pub use bt_outside::{
    DirFiles, FileFault, FileKeeper, Files, KeepFault, Keeper, Sink, SinkFault, StdSink,
};
pub use bt_text::{next_line, number_text};
pub use disk::{Disk, DiskFault};
pub use fail::Fail;
pub use file_disk::FileDisk;
pub use line_keeper::LineKeeper;
pub use mem_disk::MemDisk;
pub use mem_files::MemFiles;
pub use mem_keeper::MemKeeper;
pub use mem_sink::MemSink;
pub use sure_files::SureFiles;
pub use sure_keeper::SureKeeper;
pub use sure_sink::SureSink;
