// A switching schedule: the modes of a frame, its length, and the line of the matrix that asks for so much.
ghost use Rattle.std.specs.Prelude.{◌≡◌, IfOk};

use crate::{BeamNo, Modes, OutOfMemory};
use std::alloc::Global;

/// A line of a traffic matrix, by the number of its beam.
#[derive(Clone, Copy)]
pub enum Critical {
    /// The row of an uplink beam.
    Row(BeamNo),
    /// The column of a downlink beam.
    Column(BeamNo),
}

/// A switching schedule for one frame.
#[derive(Drop)]
pub struct Schedule {
    /// Slots from the start of the traffic part of the frame to its last mode's end.
    pub length: u32,
    /// A line whose sum is the length, which shows that no shorter schedule carries the traffic.
    pub critical: Critical,
    /// The modes, in order.
    pub modes: Modes,
}

impl Schedule {
    /// The same schedule.
    pub fn copy(&self, alloc: Global) -> Result<Schedule, OutOfMemory>
        ensures same { IfOk result (λ copy. copy ≡ self.now) }
    {
        Ok(Schedule {
            length: self.length,
            critical: self.critical,
            modes: self.modes.copy(alloc)?,
        })
    }
}
