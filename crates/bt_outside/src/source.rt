// Lines that come one by one.
ghost use Rattle.std.specs.Prelude.{◌≡◌, ℕ, List, Option, IfOk};
ghost use Rattle.bt_outside.specs.Told.{HasCause};
ghost use Rattle.bt_outside.specs.declared.source.SourceFault.TheVariants.{OutOfMemory};
ghost use Rattle.bt_outside.specs.Input.{Comes, IsShort};

use std::alloc::{AllocError, AllocFailed, Global};
use thiserror::Error;

/// Why no line came.
#[derive(Clone, Copy, Debug, PartialEq, Eq, Error)]
pub enum SourceFault {
    /// The source failed; the count of faults rose.
    #[error("the input could not be read")]
    Failed,
    /// Memory ran out.
    #[error("out of memory")]
    OutOfMemory,
}

impl From<AllocError> for SourceFault {
    ghost from_gives = { λ _ e. e ≡ OutOfMemory };

    fn from(_: AllocError) -> Self {
        SourceFault::OutOfMemory
    }
}

impl<T: Drop> From<AllocFailed<T>> for SourceFault {
    ghost from_gives = { λ _ e. e ≡ OutOfMemory };

    fn from(_: AllocFailed<T>) -> Self {
        SourceFault::OutOfMemory
    }
}

/// What comes next from a source.
#[derive(Drop)]
pub enum Incoming {
    /// A line, without its newline.
    Line(Vec<u8>),
    /// Bytes that are no line: too many in front of their newline, or some at the end of the input with none behind them.
    /// They were passed over.
    NoLine,
}

/// A text that comes bit by bit. A call waits until the next line is there, or the end, and for no byte behind it.
///
/// After an answer Err some bytes may be lost, and nothing is said of what comes.
pub trait Source {
    /// The bytes that are still to come, where they are told.
    ghost told: { Self → Option (List ℕ) };

    /// How often a call failed.
    ghost fault_count: { Self → ℕ };

    /// How often a call failed, up to the last value of its type.
    fn faults(&self) -> u64
        ensures count { result ≡ fault_count self.now };

    /// The next line, of at most `limit` bytes without its newline; None at the end of the input.
    fn next_line(&mut self, alloc: Global, limit: usize) -> Result<Option<Incoming>, SourceFault>
        ensures next { IfOk result (λ came. Comes limit (told self.old) came (told self.new)) }
        ensures short { IfOk result (λ came. IsShort limit came) }
        ensures cause { HasCause SourceFault.Failed (fault_count self.old) (fault_count self.new) result };
}
