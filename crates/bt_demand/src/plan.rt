// The burst time plan.
ghost use Rattle.std.specs.Prelude.{◌≡◌, IfOk};
ghost use Rattle.bt_demand.specs.Plan.{empty_plan};

use crate::Bursts;
use bt_frame::{BeamNo, Critical, EditionNo, Modes, OutOfMemory, Schedule};
use std::alloc::Global;

/// A burst time plan: the modes that the on-board switch takes in a frame, and the bursts that go through it.
#[derive(Drop)]
pub struct Plan {
    /// The edition of the demand that the plan serves.
    pub edition: EditionNo,
    /// The modes, with the length of the traffic part of the frame.
    pub schedule: Schedule,
    /// The bursts of all terminals.
    pub bursts: Bursts,
}

impl Plan {
    /// The same plan.
    pub fn copy(&self, alloc: Global) -> Result<Plan, OutOfMemory>
        ensures same { IfOk result (λ copy. copy ≡ self.now) }
    {
        Ok(Plan {
            edition: self.edition,
            schedule: self.schedule.copy(alloc)?,
            bursts: self.bursts.copy(alloc)?,
        })
    }
}

/// The empty plan, which edition 0 has: no mode and no burst. Takes no memory.
pub fn empty_plan(alloc: Global) -> Plan
    ensures plan { result ≡ empty_plan }
{
    Plan {
        edition: EditionNo(0),
        schedule: Schedule {
            length: 0,
            critical: Critical::Row(BeamNo(0)),
            modes: Modes::of(Vec::new(alloc)),
        },
        bursts: Bursts::of(Vec::new(alloc)),
    }
}
