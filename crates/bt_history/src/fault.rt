// Why a book was not recovered.
ghost use Rattle.std.specs.Prelude.{◌≡◌};
ghost use Rattle.bt_history.specs.Faults.{recover_fault};
ghost use Rattle.bt_history.specs.declared.fault.RecoverFault.TheVariants.{OutOfMemory as out_of_memory};

use bt_outside::KeepFault;

/// Why a book was not recovered. Lines are counted from 1.
#[derive(Clone, Copy, PartialEq, Eq)]
pub enum RecoverFault {
    /// This line is of no change and no mark. Those before it are of changes that follow one another, with one mark of the
    /// network among them at most.
    J1 { line: u32 },
    /// This line is of a change that does not follow those before it, or a mark of other numbers than the network's, or a second
    /// mark. Those before it are as for `J1`.
    J2 { line: u32 },
    /// The store failed; its count of faults rose, or stands at its last value.
    StoreFault,
    /// The store holds more bytes than are read.
    TooLong,
    /// Memory ran out.
    OutOfMemory,
}

impl From<KeepFault> for RecoverFault {
    ghost from_gives = { λ k f. f ≡ recover_fault k };

    fn from(fault: KeepFault) -> Self {
        match fault {
            KeepFault::Failed => RecoverFault::StoreFault,
            KeepFault::TooLong => RecoverFault::TooLong,
            KeepFault::OutOfMemory => RecoverFault::OutOfMemory,
        }
    }
}

impl From<bt_frame::OutOfMemory> for RecoverFault {
    ghost from_gives = { λ _ f. f ≡ out_of_memory };

    fn from(_: bt_frame::OutOfMemory) -> Self {
        RecoverFault::OutOfMemory
    }
}
