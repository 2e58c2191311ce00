//! The sites of the system at work: satellite, terminal, centre and standby, each with its state and what it says, and the
//! superframe that a site takes for the present one.
//!
//! They stand on the machines (`bt_machines`) and on messages (`bt_air`). A site knows nothing of the others: it hears a
//! message in a superframe, which it is told, and says what it has to say; who runs it brings that to the others.
//! `specs/Sites.antt` says what a site is once it has heard something and what it says, `specs/Present.antt` what the
//! present superframe comes to: these are promises. `specs/Plans.antt` but for `Planned`, `specs/Shares.antt`,
//! `specs/Posted.antt` and `specs/Address.antt` are for bodies.
//!
//! `satellite.rt`, `terminal.rt`, `centre.rt` and `standby.rt` have the sites; `plans.rt` how the centre finds its plans, by
//! edition and with the bursts of each terminal, `says.rt` what it says, `carry.rt` what a message takes along of a plan.
//!
//! Here too are the laws of what happens on the air: satellite, terminals and centre together, over every list of events, and on
//! plans (`bt_demand`). A world is an opening and the events that happened; `specs/World.antt` says of them the superframe,
//! the orders, what each end knows and holds, and every message that was sent, `specs/Air.antt` what is on the air and
//! when that is safe, `specs/Fits.antt` what must hold of an opening and of each event. `laws.rt` has what holds of
//! every world. `specs/Satellite.antt`, `specs/Ground.antt` and `specs/Centre.antt` say what the machines then are,
//! `specs/Answers.antt` what their answers call for, and `specs/Example.antt` has worlds that run. All are promises.
//! `due.rt` finds the superframe in which a world begins.
//! The world that runs is `bt_world`.
#![tactic(auto)]

mod carry;
mod centre;
mod due;
mod laws;
mod plans;
mod posted;
mod present;
mod satellite;
mod says;
mod shares;
mod standby;
mod terminal;

pub use carry::message_of;
pub use centre::CentreSite;
pub use due::greatest_due;
pub use laws::{
    answers_are_said, banks_hold_plans, centre_is_said, examples_are_worlds, frames_are_safe,
    messages_are_in_range, newest_edition_has_a_plan, orders_come_first, plans_stay,
    references_are_right, references_of_a_superframe_agree, satellite_is_said, seconds_are_said,
    some_worlds_change, statuses_stay_true, terminals_are_said, transmissions_are_said,
};
pub use plans::Plans;
pub use posted::{Posted, post};
pub use present::Present;
pub use satellite::SatelliteSite;
pub use standby::StandbySite;
pub use terminal::TerminalSite;
