// What is asked of the book of changes.
ghost use Rattle.std.specs.Prelude.{◌≡◌, IfOk};

use bt_air::Order;
use bt_demand::Plan;
use bt_frame::{EditionNo, OutOfMemory, TermNo, Units};
use std::alloc::Global;

/// An edit of the demand, in units of slots per frame.
#[derive(Clone, Copy, PartialEq, Eq)]
pub enum Edit {
    /// The link gains the units.
    Add {
        from: TermNo,
        to: TermNo,
        units: Units,
    },
    /// The link loses the units.
    Drop {
        from: TermNo,
        to: TermNo,
        units: Units,
    },
    /// The first link loses the units, and the second gains them.
    Move {
        from: TermNo,
        to: TermNo,
        new_from: TermNo,
        new_to: TermNo,
        units: Units,
    },
}

/// A call on the book of changes.
#[derive(Drop)]
pub enum Call {
    /// Edit the demand.
    Edit(Edit),
    /// Tell the demand as it is.
    Snapshot,
    /// Install a plan, for an edition that has none yet and that is newer than those that have one.
    Install(Plan),
    /// Give a copy of the newest plan, where its edition is greater than this one.
    Newest { after: EditionNo },
    /// Place an order to the satellite, before any message carries it.
    Place(Order),
}

impl Call {
    /// An equal call.
    pub fn copy(&self, alloc: Global) -> Result<Call, OutOfMemory>
        ensures same { IfOk result (λ copy. copy ≡ self.now) }
    {
        match self {
            Call::Edit(edit) => Ok(Call::Edit(*edit)),
            Call::Snapshot => Ok(Call::Snapshot),
            Call::Install(plan) => Ok(Call::Install(plan.copy(alloc)?)),
            Call::Newest { after } => Ok(Call::Newest { after: *after }),
            Call::Place(order) => Ok(Call::Place(*order)),
        }
    }
}

/// A change that the book has made.
#[derive(Drop)]
pub enum Change {
    /// The demand was edited.
    Edit(Edit),
    /// A plan was installed.
    Install(Plan),
    /// An order was placed.
    Order(Order),
}
