// A bank of the on-board switch.
ghost use Rattle.std.specs.Prelude.{◌≡◌};
ghost use Rattle.bt_machines.specs.Satellite.{empty_bank};

use bt_frame::{EditionNo, Modes};
use std::alloc::Global;

/// The modes of an edition.
#[derive(Drop)]
pub(crate) struct Bank {
    pub(crate) edition: EditionNo,
    pub(crate) modes: Modes,
}

impl Bank {
    /// A bank of edition 0, without modes.
    pub(crate) fn empty(alloc: Global) -> Bank
        ensures { result ≡ empty_bank }
    {
        Bank {
            edition: EditionNo(0),
            modes: Modes::of(Vec::new(alloc)),
        }
    }
}
