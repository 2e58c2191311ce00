//! Cutting: how the slots of the modes become the bursts of the links, and so a demand its plan; and the demand that a generator
//! of numbers makes on a network, for trials of any size.
//!
//! `specs/Cutting.antt` has the rule of the cutting, which is promised. `specs/Serving.antt` and `specs/Parts.antt` say
//! the same by the numbers of slots and units, as the code counts them, and `specs/Bucket.antt` how bursts are put in
//! order: these are for bodies alone. Of a drawn demand `specs/Generator.antt` says which numbers are drawn, and
//! `specs/Made.antt` which demand they make, which is promised; `specs/Standing.antt` is for bodies alone.
//!
//! It stands on `bt_modes` for the modes, on `bt_demand` for demands and plans, and on `bt_demand` for what makes a
//! plan good.
#![tactic(auto)]

mod burst_order;
mod bursts;
mod connection;
mod cutting;
mod draw_laws;
mod generator;
mod laws;
mod made;
mod planning;
mod table;

pub use cutting::cut;
pub use draw_laws::first_draw_is_known;
pub use laws::cuttings_are_good;
pub use made::{Made, make_demand};
pub use planning::{make_plan, make_plan_for};
