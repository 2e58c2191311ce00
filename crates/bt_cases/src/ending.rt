// How a command ended.
use bt_sheet::{CaseFault, Part, Result, put_lines};
use std::alloc::Global;

/// What a command wrote, and its status.
#[derive(Drop)]
pub struct Ending {
    pub written: Vec<u8>,
    pub status: u8,
}

impl Ending {
    /// A copy of what was written, and the status of a command that was run.
    pub fn of(alloc: Global, written: &[u8], status: Result<u8>) -> Result<Ending> {
        let status = status?;
        Ok(Ending {
            written: written.to_vec(alloc)?,
            status,
        })
    }

    /// These of the lines of a command that was run, and the status.
    pub fn shown(ending: Result<Ending>, alloc: Global, part: Part) -> Result<String> {
        let ending = ending?;
        let mut shown = String::new(alloc);
        ending.put(alloc, part, &mut shown)?;
        Ok(shown)
    }

    /// Appends what a command wrote beyond what was written before it, with which it has to begin, and the status, which
    /// is given back; what it wrote is what was written before the next.
    pub fn put_beyond(
        ending: Result<Ending>,
        alloc: Global,
        before: &mut Vec<u8>,
        out: &mut String,
    ) -> Result<u8> {
        let ending = ending?;
        match ending.written.strip_prefix(before) {
            Some(more) => put_lines(alloc, more, Part::All, out)?,
            None => return Err(CaseFault("no beginning of what is written next")),
        }
        ending.put_status(out)?;
        *before = ending.written;
        Ok(ending.status)
    }

    /// Appends these of its lines and the status.
    pub fn put(&self, alloc: Global, part: Part, out: &mut String) -> Result<()> {
        put_lines(alloc, &self.written, part, out)?;
        self.put_status(out)
    }

    /// Appends the status.
    pub fn put_status(&self, out: &mut String) -> Result<()> {
        write!(out, "= {}\n", self.status)?;
        Ok(())
    }
}
