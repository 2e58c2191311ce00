// Why a program that plays cases fails.
use std::alloc::{AllocError, AllocFailed};
use std::fmt::{self, Debug, Formatter};
use std::io;

/// Why a line of cases can't be taken, or a file of them can't be played.
#[derive(Clone, Copy)]
pub struct CaseFault(pub &'static str);

/// What is asked for, or why it can't be had.
pub type Result<T, E = CaseFault> = std::result::Result<T, E>;

/// The reason alone, which stands on standard error where `main` ends with it.
impl Debug for CaseFault {
    fn fmt<W: fmt::Write>(&self, f: &mut Formatter<W>) -> fmt::Result {
        f.write_str(self.0)
    }
}

impl From<AllocError> for CaseFault {
    fn from(_full: AllocError) -> CaseFault {
        CaseFault("out of memory")
    }
}

impl<T: Drop> From<AllocFailed<T>> for CaseFault {
    fn from(_full: AllocFailed<T>) -> CaseFault {
        CaseFault("out of memory")
    }
}

impl From<io::Error> for CaseFault {
    fn from(_failed: io::Error) -> CaseFault {
        CaseFault("input or output failed")
    }
}
