// Switching modes: settings of the on-board switch, each held for some slots of the frame.
ghost use Rattle.std.specs.Prelude.{◌≡◌, ◌≤◌, length, vec_len, IfOk};

use crate::{MOST_INLINE_BEAMS, OutOfMemory};
use smallvec::SmallVec;
use std::alloc::Global;
use std::marker::Model;

/// The most entries that a list of columns or of modes may have.
pub const MOST_ENTRIES: usize = 2_147_483_648;

/// The downlink beam of each uplink beam, by number: place `i` has the downlink of uplink `i`.
///
/// The columns of at most `MOST_INLINE_BEAMS` beams take no memory of their own.
#[derive(Drop)]
pub struct Columns {
    values: SmallVec<u8, MOST_INLINE_BEAMS>,
}

impl Model for Columns {
    ghost use Rattle.std.specs.Prelude.{ℕ, List, length, ◌≤◌};

    ghost Value = { List ℕ };

    ghost view = { λ a. a.values.items };

    ghost invariant = { λ a. length a.values.items ≤ 2147483648 };
}

impl Columns {
    /// These values, at most 2,147,483,648 of them.
    pub fn of(values: Vec<u8>) -> Columns
        requires few { vec_len values ≤ MOST_ENTRIES }
        ensures same { result ≡ values.items }
    {
        Columns {
            values: SmallVec::from_vec(values),
        }
    }

    /// The same values, at most 2,147,483,648 of them.
    pub fn from_slice(alloc: Global, values: &[u8]) -> Result<Columns, OutOfMemory>
        requires few { length values.now ≤ MOST_ENTRIES }
        ensures same { IfOk result (λ columns. columns ≡ values.now) }
    {
        Ok(Columns {
            values: SmallVec::from_slice(alloc, values)?,
        })
    }

    /// The entries in order.
    pub fn as_slice(&self) -> &[u8]
        ensures same { result.now ≡ self.now }
        ensures few { length result.now ≤ MOST_ENTRIES }
    {
        self.values.as_slice()
    }

    /// The same values.
    pub fn copy(&self, alloc: Global) -> Result<Columns, OutOfMemory>
        ensures same { IfOk result (λ copy. copy ≡ self.now) }
    {
        Columns::from_slice(alloc, self.values.as_slice())
    }
}

/// One setting of the on-board switch and the slots for which it is held.
#[derive(Drop)]
pub struct Mode {
    /// Slots.
    pub duration: u32,
    /// The downlink of each uplink.
    pub perm: Columns,
}

impl Mode {
    /// The same setting, held for as long.
    pub fn copy(&self, alloc: Global) -> Result<Mode, OutOfMemory>
        ensures same { IfOk result (λ copy. copy ≡ self.now) }
    {
        Ok(Mode {
            duration: self.duration,
            perm: self.perm.copy(alloc)?,
        })
    }
}

/// A list of modes in the order in which the switch takes them.
#[derive(Drop)]
pub struct Modes {
    modes: Vec<Mode>,
}

impl Model for Modes {
    ghost use Rattle.std.specs.Prelude.{List, length, ◌≤◌};
    ghost use Rattle.bt_frame.specs.declared.mode.Mode.{Mode};

    ghost Value = { List Mode };

    ghost view = { λ a. a.modes.items };

    ghost invariant = { λ a. length a.modes.items ≤ 2147483648 };
}

impl Modes {
    /// These modes, at most 2,147,483,648 of them.
    pub fn of(modes: Vec<Mode>) -> Modes
        requires few { vec_len modes ≤ MOST_ENTRIES }
        ensures same { result ≡ modes.items }
    {
        Modes { modes }
    }

    /// The modes in order.
    pub fn as_slice(&self) -> &[Mode]
        ensures same { result.now ≡ self.now }
        ensures few { length result.now ≤ MOST_ENTRIES }
    {
        self.modes.as_slice()
    }

    /// The same modes.
    pub fn copy(&self, alloc: Global) -> Result<Modes, OutOfMemory>
        ensures same { IfOk result (λ copy. copy ≡ self.now) }
    {
        let mut modes = Vec::with_capacity(alloc, self.modes.len())?;
        for mode in self.modes.as_slice() {
            modes.push(mode.copy(alloc)?)?;
        }
        Ok(Modes { modes })
    }
}
