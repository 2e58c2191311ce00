// What a checker says of a schedule or a plan.
use bt_frame::{BeamNo, Critical, TermNo};

/// What is wrong first with a schedule or a plan, or that it is good.
///
/// Modes, bursts and beams are named by their places, counted from 0.
#[derive(Clone, Copy)]
pub enum Verdict {
    /// Nothing is wrong.
    Good,
    /// That mode is no permutation of the beams.
    V1 {
        mode: u32,
    },
    /// That mode has the duration 0.
    V2 {
        mode: u32,
    },
    /// The durations have another sum than the length, both in slots.
    V3 {
        sum: u64,
        length: u32,
    },
    /// The length or the critical line does not have the greatest line sum, which this line has.
    V4 {
        critical: Critical,
        sum: u64,
    },
    /// The second burst is the first that meets an earlier one, the first the earliest that it meets.
    V5 {
        first: u32,
        second: u32,
    },
    /// That burst is empty, or no mode makes its connection for as long as it lasts.
    V6 {
        burst: u32,
    },
    /// The bursts of that link have so many slots in place of those that it wants.
    V7 {
        from: TermNo,
        to: TermNo,
        want: u64,
        have: u64,
    },
    /// The modes give that connection fewer slots than it wants.
    V8 {
        up: BeamNo,
        down: BeamNo,
        want: u64,
        have: u64,
    },
}
