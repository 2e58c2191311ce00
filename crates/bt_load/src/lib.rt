//! Files, read and tested one after the other, and the reports that name their faults.
//!
//! It stands on the readers of files, and on what a program ends with (`bt_report`).
//! Promises: `specs/Files.antt` says what comes of a file, and `specs/Loaders.antt` how the loads of a command are put together in
//! the order of its work; `specs/Choice.antt` says which reports may stand for one another. `specs/Kinds.antt` has the kinds of
//! files, and `specs/Lines.antt` the codes of their faults. `Stops` says the same of what the code hands on. Each load reads one
//! file, and its report stands in the place of the command's own where nothing comes of the file.
#![tactic(auto)]

mod codes;
mod load;
mod stops;

pub use codes::FaultCode;
pub use load::{
    load_delays, load_demand, load_journal, load_matrix, load_network, load_output, load_plan,
    load_schedule, load_script, read_file,
};
pub use stops::{line_stop, network_stop};
