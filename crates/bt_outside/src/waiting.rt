// A stream that is waited for.
ghost use Rattle.std.specs.Io.{ReadsAtMost, WritesAtMost};

use std::io::{ErrorKind, Read, Write};
use std::time::Duration;
use std::{io, rt, thread};

/// How long a stream that answers that it would block is left alone, in milliseconds.
const PAUSE_MS: u64 = 10;

/// A stream that may be set not to block, as a terminal is that another program left so: it is asked again until it gives
/// or takes bytes, comes to its end or fails. One that blocks is as it is.
#[derive(Drop)]
pub struct Waiting<'a, R, S> {
    rt: &'a R,
    stream: S,
}

impl<'a, R: rt::Clock, S> Waiting<'a, R, S> {
    /// That stream, and the clock that is slept by.
    pub fn new(rt: &'a R, stream: S) -> Waiting<'a, R, S> {
        Waiting { rt, stream }
    }

    /// Lets some time go by.
    fn pause(&self) {
        thread::sleep(self.rt, Duration::from_millis(PAUSE_MS));
    }
}

impl<R: rt::Clock, S: Read> Read for Waiting<'_, R, S> {
    fn read(&mut self, buf: &mut [u8]) -> io::Result<usize> {
        for _ in 0..u64::MAX {
            match self.stream.read(buf) {
                Err(error) if error.kind() == ErrorKind::WouldBlock => self.pause(),
                answer => return answer,
            }
        }
        Err(ErrorKind::WouldBlock.into())
    }
}

impl<R: rt::Clock, S: Write> Write for Waiting<'_, R, S> {
    fn write(&mut self, buf: &[u8]) -> io::Result<usize> {
        for _ in 0..u64::MAX {
            match self.stream.write(buf) {
                Err(error) if error.kind() == ErrorKind::WouldBlock => self.pause(),
                answer => return answer,
            }
        }
        Err(ErrorKind::WouldBlock.into())
    }

    fn flush(&mut self) -> io::Result<()> {
        self.stream.flush()
    }
}
