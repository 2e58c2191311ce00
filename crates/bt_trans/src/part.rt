// Schedules in which uplink beams may be silent.
ghost use Rattle.std.specs.Prelude.{◌≡◌, ◌≤◌, vec_len, length};

use bt_frame::{Columns, Critical};
use std::marker::Model;

/// The value of an uplink beam that is silent, in the place of its downlink beam.
pub const SILENT: u8 = 255;

/// The most beams of a matrix for whose text a schedule with fewer transponders is made. With its border it has fewer lines
/// than `MOST_BEAMS`, and all its entries together, each of at most `MOST_UNITS`, are no more than `MOST_SUM`.
pub const MOST_PART_BEAMS: u32 = 16;

/// The most modes of a schedule.
const MOST_MODES: usize = 2_147_483_648;

/// What asks for the length of a schedule.
#[derive(Clone, Copy)]
pub enum Bound {
    /// A line of the matrix, by its sum.
    Line(Critical),
    /// All entries of the matrix together, shared among the connections at once.
    Total,
}

/// One setting of the switch in which uplink beams may be silent, and the slots for which it is held.
#[derive(Drop)]
pub struct PartMode {
    /// Slots.
    pub duration: u32,
    /// The downlink of each uplink, or `SILENT`.
    pub perm: Columns,
}

/// A list of such modes, in the order in which the switch takes them.
#[derive(Drop)]
pub struct PartModes {
    modes: Vec<PartMode>,
}

impl Model for PartModes {
    ghost use Rattle.std.specs.Prelude.{List, length, ◌≤◌};
    ghost use Rattle.bt_trans.specs.declared.part.PartMode.{PartMode};

    ghost Value = { List PartMode };

    ghost view = { λ a. a.modes.items };

    ghost invariant = { λ a. length a.modes.items ≤ 2147483648 };
}

impl PartModes {
    /// These modes, at most 2,147,483,648 of them.
    pub fn of(modes: Vec<PartMode>) -> PartModes
        requires few { vec_len modes ≤ MOST_MODES }
        ensures same { result ≡ modes.items }
    {
        PartModes { modes }
    }

    /// The modes in order.
    pub fn as_slice(&self) -> &[PartMode]
        ensures same { result.now ≡ self.now }
        ensures few { length result.now ≤ MOST_MODES }
    {
        self.modes.as_slice()
    }
}

/// A schedule with so many connections at once at most.
#[derive(Drop)]
pub struct PartSchedule {
    /// Slots from the start of the traffic part of the frame to its last mode's end.
    pub length: u32,
    /// What asks for so many slots, which shows that no shorter schedule carries the traffic.
    pub bound: Bound,
    /// The modes, in order.
    pub modes: PartModes,
}
