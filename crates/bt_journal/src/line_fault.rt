// Why a line of a journal is not read.
ghost use Rattle.std.specs.Prelude.{◌≡◌};
ghost use Rattle.bt_journal.specs.declared.line_fault.JournalLineFault.TheVariants.{OutOfMemory};

/// Why a line of a journal is not read.
#[derive(Clone, Copy)]
pub enum JournalLineFault {
    /// No change in range has this line.
    Bad,
    /// Memory ran out.
    OutOfMemory,
}

impl From<bt_frame::OutOfMemory> for JournalLineFault {
    ghost from_gives = { λ _ e. e ≡ OutOfMemory };

    fn from(_: bt_frame::OutOfMemory) -> Self {
        JournalLineFault::OutOfMemory
    }
}
