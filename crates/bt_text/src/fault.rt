// The first fault of a text that is read line by line.
ghost use Rattle.std.specs.Prelude.{◌≡◌};
ghost use Rattle.bt_text.specs.declared.fault.LineFault.TheVariants.{OutOfMemory};

use std::alloc::{AllocError, AllocFailed};

/// Why a text was not read. `Code` says what may be wrong with one of its lines.
#[derive(Clone, Copy)]
pub enum LineFault<Code> {
    /// The first line with a fault, counted from 1.
    At { code: Code, line: u32 },
    /// Memory ran out.
    OutOfMemory,
}

impl<Code> From<AllocError> for LineFault<Code> {
    ghost from_gives = { λ _ e. e ≡ OutOfMemory };

    fn from(_: AllocError) -> Self {
        LineFault::OutOfMemory
    }
}

impl<Code, T: Drop> From<AllocFailed<T>> for LineFault<Code> {
    ghost from_gives = { λ _ e. e ≡ OutOfMemory };

    fn from(_: AllocFailed<T>) -> Self {
        LineFault::OutOfMemory
    }
}

impl<Code> From<bt_frame::OutOfMemory> for LineFault<Code> {
    ghost from_gives = { λ _ e. e ≡ OutOfMemory };

    fn from(_: bt_frame::OutOfMemory) -> Self {
        LineFault::OutOfMemory
    }
}

/// What is wrong with a line, counted from 1.
pub fn fault_at<Code>(code: Code, line: u32) -> LineFault<Code>
    ensures fault { result ≡ LineFault.At code line }
{
    LineFault::At { code, line }
}
