//! The claim over processes: satellite, terminals, standby and centre that share nothing but lines, whoever is killed and started again.
//!
//! It stands on the centre of sites apart (`bt_apart`), on the lines of the bus (`bt_script`), on stations (`bt_station`), on what a
//! journal tells (`bt_history`) and on sites that hear lines with stamps (`bt_sites`). `specs/Processes.antt` says what each process
//! is by what it did itself and what it says, `specs/Premises.antt` what must hold of each deed and what is claimed, and
//! `specs/Worker.antt` what the worker of a round (`bt_round`) does as deeds; `claim.rt` has the laws. `specs/Acts.antt` says where
//! the centre is after acts of those sites; `laws.rt` has what holds of it. All of `specs/` is promise.
#![tactic(auto)]

mod claim;
mod laws;

pub use claim::{lines_are_printed, processes_are_safe, some_processes_go, worker_lines_are_deeds};
pub use laws::{
    centre_goes_on, centre_is_a_site, centre_may_act, lines_are_heard_as_said,
    superframes_are_of_installed_plans,
};
