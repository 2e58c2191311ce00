//! A burst time plan as a picture: which terminal is on the air in which slot, lane by lane.
//!
//!     heading    edition; slots, modes, bursts, the critical line
//!     ruler      slots from the start of the frame
//!     modes      one band from left to right, the slots of each mode and its connections
//!     Uplinks    a lane for each beam, and in it the bursts that go up in it, each with the fill of its downlink beam
//!     Downlinks  a lane for each beam, and in it the bursts that come down in it, each with the fill of its uplink beam
//!     legend     the fill of each beam
//!
//! It stands on pictures (`bt_picture`), on plans and the network, and shows every plan, good or not: bursts that meet are
//! boxes that overlap, and the slots in which they meet have a broken edge, as have what runs past the length and a mode that
//! is no permutation.
//! `specs/Scale.antt` and `specs/Chart.antt` are promise: where each slot and lane lies, and which parts the picture has.
//! `laws.rt` says that boxes overlap exactly where bursts meet, and which bursts have a mark.
#![tactic(auto)]

mod bursts;
mod chart;
mod choice;
mod clashes;
mod fullness;
mod heading;
mod lanes;
mod laws;
mod legend;
mod modes;
mod part;
mod scale;

pub use chart::plan_picture;
pub use choice::{Choice, SlotRange};
pub use laws::{
    good_plans_have_no_overlap, meeting_bursts_are_marked, meeting_bursts_overlap,
    permutations_are_told,
};
pub use modes::connections_of;
pub use scale::{Direction, Scale};
