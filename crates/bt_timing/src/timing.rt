// The numbers of a delay file, and when a burst is sent by them.
ghost use Rattle.std.specs.Prelude.{◌≡◌, ◌*◌, ◌<◌, length, slice_index};
ghost use Rattle.bt_timing.specs.Times.{send_of, IsSendable};

use bt_demand::Burst;
use bt_frame::TermNo;
use std::marker::Model;

/// How long a slot is, the guard at each end of what is sent, and how far each terminal is from the satellite by its
/// estimate, all in ticks.
#[derive(Drop)]
pub struct Timing {
    pub(crate) slot: u32,
    pub(crate) half: u32,
    pub(crate) delays: Vec<u32>,
}

impl Model for Timing {
    ghost use Rattle.bt_timing.specs.Times.{Times, AreTimes};

    ghost Value = { Times };

    ghost view = { λ a. record { slot = a.slot; half = a.half; delays = a.delays.items } };

    ghost invariant = { λ a. AreTimes (record { slot = a.slot; half = a.half; delays = a.delays.items }) };
}

/// When a terminal transmits a burst: from tick `at` on, for so many `ticks`.
///
/// Tick 0 is the one in which the first slot of the frame begins at the satellite. What is sent for the first slots of a
/// frame leaves the terminal before that, so that `at` may be negative.
#[derive(Clone, Copy)]
pub struct SendTime {
    /// The first tick.
    pub at: i64,
    /// How many ticks.
    pub ticks: u64,
}

impl Timing {
    /// Ticks of a slot.
    pub fn slot(&self) -> u32
        ensures same { result ≡ self.now.slot }
    {
        self.slot
    }

    /// Ticks of the guard at each end of what is sent.
    pub fn half(&self) -> u32
        ensures same { result ≡ self.now.half }
        ensures fits { 2 * result < self.now.slot }
    {
        self.half
    }

    /// The estimated ticks from a terminal to the satellite.
    pub fn delay(&self, terminal: TermNo) -> u32
        requires terminal { terminal.0 < length self.now.delays }
        ensures delay { result ≡ slice_index self.now.delays terminal.0 }
    {
        self.delays[terminal.0 as usize]
    }

    /// When a burst is sent, so that by the estimates it arrives a guard behind the begin of its first slot and ends a
    /// guard before the end of its last one.
    pub fn send_of(&self, burst: &Burst) -> SendTime
        requires sends { burst.now.from.0 < length self.now.delays }
        requires sendable { IsSendable burst.now }
        ensures time { result ≡ send_of self.now burst.now }
        ensures some { 0 < result.ticks }
    {
        let begins = u64::from(burst.start) * u64::from(self.slot) + u64::from(self.half);
        let lasts = u64::from(burst.length) * u64::from(self.slot);
        SendTime {
            at: begins as i64 - i64::from(self.delay(burst.from)),
            ticks: lasts - 2 * u64::from(self.half),
        }
    }
}
