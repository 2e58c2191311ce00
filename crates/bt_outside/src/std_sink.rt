// A writer as a sink.
ghost use Rattle.std.specs.Prelude.{◌≡◌, None, OnOk, IsErrOf};
ghost use Rattle.std.specs.Io.KnownBytes.{Appends};
ghost use Rattle.bt_outside.specs.Told.{HasCause};

use crate::{Sink, SinkFault};
use std::alloc::Global;
use std::io;
use std::io::Write;

/// Standard output, or another writer. What it holds is not told. Whatever the writer answers in the place of a
/// whole piece is a fault.
#[derive(Drop)]
pub struct StdSink<W> {
    out: W,
    faults: u64,
}

impl<W: Write> StdSink<W> {
    /// A sink that writes to `out`.
    pub fn new(out: W) -> StdSink<W>
        ensures faults { ⟦<StdSink<W> as Sink>⟧.fault_count result ≡ 0 }
    {
        StdSink { out, faults: 0 }
    }
}

impl<W: Write> Sink for StdSink<W> {
    ghost told = { λ _. None };

    ghost fault_count = { λ sink. sink.faults };

    fn faults(&self) -> u64 {
        self.faults
    }

    fn write(&mut self, _alloc: Global, piece: &[u8]) -> Result<(), SinkFault>
        ensures same_count { IsErrOf result SinkFault.OutOfMemory → self.new.faults ≡ self.old.faults }
        ensures cause { HasCause SinkFault.Failed self.old.faults self.new.faults result }

        // Where a writer tells its bytes, it has the whole piece after Ok.
        ensures whole { OnOk result (Appends (W.contents self.old.out) (W.contents self.new.out) piece.now) }
    {
        match write_and_flush(&mut self.out, piece) {
            Ok(()) => Ok(()),
            Err(_) => {
                self.faults = self.faults.saturating_add(1);
                Err(SinkFault::Failed)
            }
        }
    }
}

/// Writes the whole piece. A writer that takes nothing of what is left gives an error.
fn write_and_flush<W: Write>(out: &mut W, piece: &[u8]) -> io::Result<()>
    ensures { OnOk result (Appends (W.contents out.old) (W.contents out.new) piece.now) }
{
    out.write_all(piece)?;
    out.flush()
}
