//! When each terminal transmits, so that its bursts arrive in their slots where the true delays are within a guard of the estimates.
//!
//! It stands on lines and words (`bt_text`), on the names of terminals (`bt_net`) and on plans and what makes them good
//! (`bt_demand`). Promises are in `specs/DelayText.antt`, the grammar of a delay file line by line with the fault of each
//! line; `specs/Reading.antt`, what its reader answers; `specs/Times.antt`, its numbers and when a burst is sent by them;
//! `specs/Arrival.antt`, when it arrives, whatever the true delays are; and `specs/SendsText.antt`, how transmit times are
//! printed. `laws.rt` says that bursts of a good plan arrive in their slots. `specs/DelayTable.antt` is for bodies alone.
#![tactic(auto)]

mod delay_table;
mod fault;
mod laws;
mod limits;
mod reader;
mod sends;
mod timing;

pub use delay_table::DelayChange;
pub use fault::{TimingCode, TimingFault};
pub use laws::guarded_bursts_keep_to_their_slots;
pub use limits::{LEAST_CHANGE, LEAST_SLOT_TICKS, MOST_DELAY, MOST_HALF, MOST_SLOT_TICKS};
pub use sends::sends_text;
pub use timing::{SendTime, Timing};
