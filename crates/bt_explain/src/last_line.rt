// An output whose last line is remembered.
ghost use Rattle.std.specs.Prelude.{◌≡◌};

use bt_outside::{Sink, SinkFault};
use memchr::memrchr;
use std::alloc::Global;

/// The most bytes of a line that are remembered: a longer one is of no fault.
const MOST_LINE_BYTES: usize = 8192;

/// An output, and its last line as far as that is remembered.
#[derive(Drop)]
pub struct LastLine<O> {
    out: O,
    line: Vec<u8>,
}

impl<O: Sink> LastLine<O> {
    /// That output. Nothing was written yet.
    pub fn new(alloc: Global, out: O) -> LastLine<O>
        ensures told { ⟦<LastLine<O> as Sink>⟧.told result ≡ O.told out }
        ensures faults { ⟦<LastLine<O> as Sink>⟧.fault_count result ≡ O.fault_count out }
    {
        LastLine {
            out,
            line: Vec::new(alloc),
        }
    }

    /// The last line that was written, its newline left out; empty where memory or room for it was wanting.
    pub fn line(&self) -> &[u8] {
        self.line.as_slice()
    }

    /// Remembers the last line of a piece.
    fn remember(&mut self, piece: &[u8])
        ensures same { self.new.out ≡ self.old.out }
    {
        self.line.clear();
        let line = last_line(piece);
        if line.len() <= MOST_LINE_BYTES {
            // where memory is wanting, nothing is told of it
            let _kept = self.line.extend_from_slice(line);
        }
    }
}

/// The last line of a text, its newline left out.
fn last_line(text: &[u8]) -> &[u8] {
    let text = match text {
        [text @ .., b'\n'] => text,
        _ => text,
    };
    match memrchr(b'\n', text) {
        Some(at) => text.get(at..).unwrap_or(&[]).get(1..).unwrap_or(&[]),
        None => text,
    }
}

impl<O: Sink> Sink for LastLine<O> {
    ghost told = { λ a. O.told a.out };

    ghost fault_count = { λ a. O.fault_count a.out };

    fn faults(&self) -> u64 {
        self.out.faults()
    }

    fn write(&mut self, alloc: Global, piece: &[u8]) -> Result<(), SinkFault> {
        let result = self.out.write(alloc, piece);
        self.remember(piece);
        result
    }
}
