//! Satellite, terminals, centre and standby as sites of their own, which hear of each other by the bytes of messages alone.
//!
//! It stands on whole runs of the air (`bt_site`) and on the three machines. `specs/Step.antt` has what a site does,
//! `specs/Sites.antt` its state by its own steps and what it says, `specs/Fits.antt` what must hold of each step, and
//! `specs/Behind.antt` the world behind a run of sites. `specs/Late.antt` has sites each of which is as late as it likes,
//! and `specs/Stamps.antt` sites that hear each other by lines, each with the superframe of its sayer in front;
//! `specs/OnAir.antt` says what their terminals transmit, and `specs/Acts.antt` which runs such lines make. `laws.rt` has
//! what holds of every run. All of `specs/` is promise.
#![tactic(auto)]

mod laws;

pub use laws::{
    late_sites_are_sites, late_superframes_are_safe, sites_are_a_world, sites_are_safe,
    sites_are_stamped_sites, some_sites_change, some_stamped_sites_change,
    stamped_sites_are_late_sites, stamped_superframes_are_safe, worlds_are_sites,
    worlds_are_stamped_sites,
};
