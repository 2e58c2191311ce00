// Do the modes give each connection the slots that a matrix asks for?
ghost use Rattle.std.specs.Prelude.{◌≡◌, ℕ, ◌+◌, ◌*◌, ◌<◌, ◌≤◌, length, MatchOption, All, slice_index};
ghost use Rattle.bt_frame.specs.declared.limits.TheConstants.{MOST_BEAMS};
ghost use Rattle.bt_trans.specs.Part.{part_slots_in, part_slots_of, CarriesAll, HasSwitchings};
ghost use Rattle.bt_trans.specs.PartVerdict.{IsFirstShort};
ghost use Rattle.bt_trans.specs.Short.{IsOfTable, IsShort};

use crate::{PartMode, PartModes, PartSchedule, PartVerdict, SILENT};
use bt_frame::{BeamNo, MOST_BEAMS};
use bt_matrix::{Dense, Traffic};

/// A place for each two beams.
const CONNECTIONS: usize = MOST_BEAMS * MOST_BEAMS;

/// A connection that gets too few slots.
#[derive(Clone, Copy)]
pub(crate) struct Short {
    up: BeamNo,
    down: BeamNo,
    want: u64,
    have: u64,
}

impl Short {
    /// What the checker says of it.
    pub(crate) fn verdict(self) -> PartVerdict
        ensures { result ≡ PartVerdict.Q6 self.up self.down self.want self.have }
    {
        PartVerdict::Q6 {
            up: self.up,
            down: self.down,
            want: self.want,
            have: self.have,
        }
    }
}

/// The first connection in row order that gets fewer slots than it wants.
///
/// It looks once at each beam of each mode, and once at each entry of the matrix.
pub(crate) fn first_short(matrix: &Dense, schedule: &PartSchedule) -> Option<Short>
    requires { HasSwitchings matrix.now schedule.now }
    ensures { MatchOption result
        (CarriesAll matrix.now schedule.now)
        (λ short. IsShort matrix.now schedule.now short
        × IsFirstShort matrix.now schedule.now short.up.0 short.down.0) }
{
    let size = matrix.size() as u8;
    let slots = slots_by_connection(&schedule.modes);
    for up in 0..size {
        for down in 0..size {
            let want = u64::from(matrix.get(BeamNo(up), BeamNo(down)));
            let have = slots[up as usize * MOST_BEAMS + down as usize];
            if have < want {
                return Some(Short {
                    up: BeamNo(up),
                    down: BeamNo(down),
                    want,
                    have,
                });
            }
        }
    }
    None
}

/// The slots that the modes give to each connection: that from one beam to another has the place `MOST_BEAMS` times the
/// first and the second.
fn slots_by_connection(modes: &PartModes) -> [u64; CONNECTIONS]
    requires { All IsOfTable modes.now }
    ensures { (up down : ℕ) → down < MOST_BEAMS → All (λ m. up < length m.perm) modes.now
        → slice_index result (up * MOST_BEAMS + down) ≡ part_slots_of modes.now up down }
{
    let mut slots = [0; CONNECTIONS];
    for mode in modes.as_slice() {
        add_mode(&mut slots, mode);
    }
    slots
}

/// Each connection that a mode makes gets its slots.
fn add_mode(slots: &mut [u64; CONNECTIONS], mode: &PartMode)
    requires mode { IsOfTable mode.now }
    requires room { (k : ℕ) → slice_index slots.old k ≤ 18446744069414584320 }
    ensures added { (up down : ℕ) → up < length mode.now.perm → down < MOST_BEAMS
        → slice_index slots.new (up * MOST_BEAMS + down) ≡ slice_index slots.old (up * MOST_BEAMS + down) + part_slots_in up down mode.now }
    ensures small { (k : ℕ) → slice_index slots.new k ≤ slice_index slots.old k + 4294967295 }
{
    let duration = u64::from(mode.duration);
    for (up, &down) in mode.perm.as_slice().iter().enumerate() {
        if down != SILENT {
            slots[up * MOST_BEAMS + down as usize] += duration;
        }
    }
}
