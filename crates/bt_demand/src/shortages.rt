// Do the modes give each connection the slots that a matrix asks for?
ghost use Rattle.std.specs.Prelude.{◌≡◌, ℕ, ◌+◌, ◌*◌, ◌<◌, ◌≤◌, length, MatchOption, All, slice_index};
ghost use Rattle.bt_frame.specs.declared.limits.TheConstants.{MOST_BEAMS};
ghost use Rattle.bt_matrix.specs.Good.{HasPermutations, CarriesAll, slots_in, slots_of};
ghost use Rattle.bt_demand.specs.Verdict.{IsFirstShort};
ghost use Rattle.bt_demand.specs.Short.{IsShort, IsOfTable};

use crate::Verdict;
use bt_frame::{BeamNo, MOST_BEAMS, Mode, Modes, Schedule};
use bt_matrix::Traffic;

/// A place for each two beams.
const CONNECTIONS: usize = MOST_BEAMS * MOST_BEAMS;

/// A connection that gets too few slots.
#[derive(Clone, Copy)]
pub(crate) struct Short {
    up: BeamNo,
    down: BeamNo,
    want: u64,
    have: u64,
}

impl Short {
    /// What the checker says of it.
    pub(crate) fn verdict(self) -> Verdict
        ensures { result ≡ Verdict.V8 self.up self.down self.want self.have }
    {
        Verdict::V8 {
            up: self.up,
            down: self.down,
            want: self.want,
            have: self.have,
        }
    }
}

/// The first connection in row order that gets fewer slots than it wants.
///
/// It looks once at each beam of each mode, and once at each entry of the matrix.
pub(crate) fn first_short<M: Traffic>(matrix: &M, schedule: &Schedule) -> Option<Short>
    requires { HasPermutations (M.rows matrix.now) schedule.now }
    ensures { MatchOption result
        (CarriesAll (M.rows matrix.now) schedule.now)
        (λ short. IsShort (M.rows matrix.now) schedule.now short
        × IsFirstShort (M.rows matrix.now) schedule.now short.up.0 short.down.0) }
{
    let size = matrix.size() as u8;
    let slots = slots_by_connection(&schedule.modes);
    for up in 0..size {
        for down in 0..size {
            let want = u64::from(matrix.get(BeamNo(up), BeamNo(down)));
            let have = slots[up as usize * MOST_BEAMS + down as usize];
            if have < want {
                return Some(Short {
                    up: BeamNo(up),
                    down: BeamNo(down),
                    want,
                    have,
                });
            }
        }
    }
    None
}

/// The slots that the modes give to each connection: that from one beam to another has the place `MOST_BEAMS` times the
/// first and the second.
fn slots_by_connection(modes: &Modes) -> [u64; CONNECTIONS]
    requires { All IsOfTable modes.now }
    ensures { (up down : ℕ) → down < MOST_BEAMS → All (λ m. up < length m.perm) modes.now
        → slice_index result (up * MOST_BEAMS + down) ≡ slots_of modes.now up down }
{
    let mut slots = [0; CONNECTIONS];
    for mode in modes.as_slice() {
        add_mode(&mut slots, mode);
    }
    slots
}

/// Each connection that a mode makes gets its slots.
fn add_mode(slots: &mut [u64; CONNECTIONS], mode: &Mode)
    requires mode { IsOfTable mode.now }
    requires room { (k : ℕ) → slice_index slots.old k ≤ 18446744069414584320 }
    ensures added { (up down : ℕ) → up < length mode.now.perm → down < MOST_BEAMS
        → slice_index slots.new (up * MOST_BEAMS + down) ≡ slice_index slots.old (up * MOST_BEAMS + down) + slots_in up down mode.now }
    ensures small { (k : ℕ) → slice_index slots.new k ≤ slice_index slots.old k + 4294967295 }
{
    let duration = u64::from(mode.duration);
    for (up, &down) in mode.perm.as_slice().iter().enumerate() {
        slots[up * MOST_BEAMS + down as usize] += duration;
    }
}
