//! A site at work over lines: the satellite, a terminal or the standby hears line after line, and answers each before the next.
//!
//! It stands on the sites (`bt_site`), on the lines of a bus (`bt_script`) and of a run (`bt_timeline`), and on a talk
//! (`bt_outside`). `docs/sites.md` has the lines. Promises: `specs/Asked.antt` says what a line asks, `specs/Satellite.antt`,
//! `specs/Terminal.antt` and `specs/Standby.antt` what each is once it has heard a line and what it says to it, in the words of
//! `bt_site`, `specs/Station.antt` the same of any of the three, `specs/Lines.antt` the lines that are said, `specs/Turns.antt` that
//! these are all, and how it ends, with `specs/Talked.antt`, and `specs/Top.antt` what the words ask for. `CommandLine`, `Stops`,
//! `Ready` and `Going` are for bodies alone. `laws.rt`, with `specs/Acts.antt`, says that its lines are acts of the sites of
//! `bt_sites`.
#![tactic(auto)]

mod asked;
mod laws;
mod satellite;
mod say;
mod standby;
mod station;
mod talk;
mod terminal;
mod top;

pub use asked::Asked;
pub use laws::{
    lines_are_heard_as_said, satellite_is_a_site, standby_is_a_site, terminals_are_sites,
};
pub use satellite::SatelliteAtWork;
pub use standby::StandbyAtWork;
pub use station::Station;
pub use talk::InputEnd;
pub use terminal::TerminalAtWork;
pub use top::station_main;
