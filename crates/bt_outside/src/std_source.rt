// A reader as a source.
ghost use Rattle.std.specs.Prelude.{◌≡◌, None, IfOk};
ghost use Rattle.bt_outside.specs.Input.{IsShort};

use crate::{Incoming, Source, SourceFault};
use std::alloc::Global;
use std::io;
use std::io::{BufRead, ErrorKind, Read};

/// Standard input, or another reader. What it holds is not told. Each answer of the reader but bytes or the end is a fault.
#[derive(Drop)]
pub struct StdSource<B> {
    input: B,
    faults: u64,
    begun: usize,
}

impl<B: BufRead> StdSource<B> {
    /// The lines that come from `input`.
    pub fn new(input: B) -> StdSource<B>
        ensures faults { ⟦<StdSource<B> as Source>⟧.fault_count result ≡ 0 }
    {
        StdSource {
            input,
            faults: 0,
            begun: 0,
        }
    }

    /// How many bytes of a line had come when the input failed last, of a line that is too long some more than the limit. None
    /// where it failed between two lines, or has not failed.
    pub fn begun(&self) -> usize {
        self.begun
    }
}

impl<B: BufRead> Source for StdSource<B> {
    ghost told = { λ _. None };

    ghost fault_count = { λ source. source.faults };

    fn faults(&self) -> u64 {
        self.faults
    }

    fn next_line(&mut self, alloc: Global, limit: usize) -> Result<Option<Incoming>, SourceFault> {
        match read_piece(&mut self.input, alloc, limit) {
            Ok(came) => Ok(came),
            Err(broken) if broken.error.kind() == ErrorKind::OutOfMemory => {
                Err(SourceFault::OutOfMemory)
            }
            Err(broken) => {
                self.faults = self.faults.saturating_add(1);
                self.begun = broken.begun;
                Err(SourceFault::Failed)
            }
        }
    }
}

/// Why a line did not come to its end, and how many bytes of it came.
#[derive(Drop)]
struct Broken {
    error: io::Error,
    begun: usize,
}

/// The next line of a reader, of at most so many bytes; a longer one is passed over to its newline.
fn read_piece<B: BufRead>(
    input: &mut B,
    alloc: Global,
    limit: usize,
) -> Result<Option<Incoming>, Broken>
    ensures { IfOk result (λ came. IsShort limit came) }
{
    let mut line = Vec::new(alloc);
    let most = (limit as u64).saturating_add(1);
    if let Err(error) = input.by_ref().take(most).read_until(b'\n', &mut line) {
        let begun = line.len();
        return Err(Broken { error, begun });
    }
    if line.is_empty() {
        return Ok(None);
    }
    if line.last() == Some(&b'\n') {
        line.truncate(line.len() - 1);
        if line.len() <= limit {
            return Ok(Some(Incoming::Line(line)));
        }
        return Ok(Some(Incoming::NoLine));
    }
    if line.len() > limit
        && let Err(error) = input.skip_until(b'\n')
    {
        let begun = line.len();
        return Err(Broken { error, begun });
    }
    Ok(Some(Incoming::NoLine))
}
