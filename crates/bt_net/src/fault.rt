// What is wrong with a network file, and where.
ghost use Rattle.std.specs.Prelude.{◌≡◌, IfOk};
ghost use Rattle.bt_net.specs.declared.fault.NetFault.TheVariants.{OutOfMemory};

use std::alloc::{AllocError, AllocFailed, Global};

/// A place in a network file. Entries are counted from 0.
#[derive(Clone, Copy)]
pub enum Path {
    /// The whole value.
    Top,
    /// The field `beams`.
    Beams,
    /// An entry of `beams`.
    Beam(u32),
    /// The field `terminals`.
    Terminals,
    /// An entry of `terminals`.
    Terminal(u32),
    /// The field `name` of an entry of `terminals`.
    TerminalName(u32),
    /// The field `beam` of an entry of `terminals`.
    TerminalBeam(u32),
    /// The field `slots`.
    Slots,
    /// The field `frames`.
    Frames,
    /// The field `lead`.
    Lead,
    /// The field `patience`.
    Patience,
    /// The field `journal`.
    Journal,
}

impl Path {
    ghost use Rattle.std.specs.String.{string_bytes};
    ghost use Rattle.bt_net.specs.Fault.{path_text};

    /// The place as it is printed, such as `beams[1]` or `terminals[3].name`.
    pub fn text(self, alloc: Global) -> Result<String, bt_frame::OutOfMemory>
        ensures text { IfOk result (λ text. string_bytes text ≡ path_text self) }
    {
        let text = self.printed(alloc)?;
        Ok(text)
    }

    fn printed(self, alloc: Global) -> Result<String, AllocError>
        ensures { IfOk result (λ text. string_bytes text ≡ path_text self) }
    {
        match self {
            Path::Top => format!(in alloc; "top"),
            Path::Beams => format!(in alloc; "beams"),
            Path::Beam(entry) => format!(in alloc; "beams[{entry}]"),
            Path::Terminals => format!(in alloc; "terminals"),
            Path::Terminal(entry) => format!(in alloc; "terminals[{entry}]"),
            Path::TerminalName(entry) => format!(in alloc; "terminals[{entry}].name"),
            Path::TerminalBeam(entry) => format!(in alloc; "terminals[{entry}].beam"),
            Path::Slots => format!(in alloc; "slots"),
            Path::Frames => format!(in alloc; "frames"),
            Path::Lead => format!(in alloc; "lead"),
            Path::Patience => format!(in alloc; "patience"),
            Path::Journal => format!(in alloc; "journal"),
        }
    }
}

/// Why bytes are no network: the first fault in the order of the walk over the file.
#[derive(Clone, Copy)]
pub enum NetFault {
    /// The bytes are no JSON.
    N1,
    /// A field is missing, or something is of the wrong kind.
    N2 { path: Path },
    /// A number or a count of entries is out of its range.
    N3 { path: Path },
    /// A name is not of the shape of names, or is one that no terminal may have.
    N4 { path: Path },
    /// An earlier entry has the same name.
    N5 { path: Path },
    /// No beam has this name.
    N6 { path: Path },
    /// Memory ran out.
    OutOfMemory,
}

impl From<AllocError> for NetFault {
    ghost from_gives = { λ _ e. e ≡ OutOfMemory };

    fn from(_: AllocError) -> Self {
        NetFault::OutOfMemory
    }
}

impl<T: Drop> From<AllocFailed<T>> for NetFault {
    ghost from_gives = { λ _ e. e ≡ OutOfMemory };

    fn from(_: AllocFailed<T>) -> Self {
        NetFault::OutOfMemory
    }
}
