//! The state machines of the air: satellite, terminal, centre and standby reference station, pure steps without clock, file or
//! thread.
//!
//! They stand on messages and orders (`bt_air`). `docs/machines.md` has their tables; the rows stand in the same order in the file
//! of `specs/` and in that of `src/` that are named for the machine. All of `specs/` is promise.
//!
//! Satellite: its on-board switch with two banks of modes, and the commands that it takes. `Satellite.antt` has its table;
//! `Orders.antt` says what the accepted orders say of it, `SatelliteRun.antt` runs of it, `Slots.antt` the mode of a slot.
//!
//! Terminal: its two banks of bursts, the reference burst that it heard last, and what it transmits. `Terminal.antt` has its
//! table; `TerminalRun.antt` runs of it, `Said.antt` what it has heard and holds by its events, `Banks.antt` where bursts are
//! stored.
//!
//! Centre: which edition it knows to be in front, and the orders by which it brings a new one there. `Turn.antt` has the table of
//! its turn; `Centre.antt` its state and what each thing that happens to it does, `Known.antt` the edition known, `Last.antt` the
//! last order, `Terminals.antt` sets of terminals, `CentreSteps.antt` the state after a step that the plans or a message give.
//!
//! Standby: it bridges superframes in which the centre names no edition. `Standby.antt` has its table, `Heard.antt` what it names
//! by what it heard.
//!
//! What each of them says: `Says.antt`, with what a message carries; `Plans.antt` has what the plans that are installed come to.
//!
//! What holds of every run of a machine stands in `satellite_laws.rt`, `terminal_laws.rt`, `centre_laws.rt` and
//! `standby_laws.rt`.
#![tactic(auto)]

mod banks;
mod burst_bank;
mod centre;
mod centre_laws;
mod known;
mod last;
mod mode_bank;
mod reference;
mod satellite;
mod satellite_laws;
mod slots;
mod standby;
mod standby_laws;
mod terminal;
mod terminal_laws;
mod terminals;
mod turn;

pub use centre::Centre;
pub use centre_laws::sets_hold_what_joined;
pub use satellite::Satellite;
pub use satellite_laws::{
    accepted_commands_ascend, accepted_orders_are_said_by_events, armed_edition_comes_to_the_front,
    changes_are_armed_ahead, past_fronts_stay, satellite_refusals_change_nothing,
    satellites_stand_for_their_orders, some_run_changes,
};
pub use standby::{Noticed, Standby};
pub use standby_laws::{
    names_are_said_by_what_was_heard, some_standby_names, standby_refusals_change_nothing,
};
pub use terminal::Terminal;
pub use terminal_laws::{
    banks_stay_distinct, bursts_in_use_stay, some_run_transmits, terminal_refusals_change_nothing,
    terminals_are_said_by_events, unheard_superframes_are_silent,
};
pub use terminals::{has, with_terminal, without_terminal};
pub use turn::Turn;
