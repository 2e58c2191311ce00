// What the checker says of a schedule for so many connections at once.
use bt_frame::BeamNo;

/// What is wrong first with a schedule, or that it is good.
///
/// Modes and beams are named by their places, counted from 0.
#[derive(Clone, Copy)]
pub enum PartVerdict {
    /// Nothing is wrong.
    Good,
    /// That mode has not one value for each beam, or a value is neither silence nor a beam, or two uplink beams share a
    /// downlink beam.
    Q1 {
        mode: u32,
    },
    /// That mode has too many connections.
    Q2 {
        mode: u32,
    },
    /// That mode has the duration 0.
    Q3 {
        mode: u32,
    },
    /// The durations have another sum than the length, both in slots.
    Q4 {
        sum: u64,
        length: u32,
    },
    /// The length is not this least one, or the bound does not reach it.
    Q5 {
        least: u64,
    },
    /// The modes give that connection fewer slots than it wants.
    Q6 {
        up: BeamNo,
        down: BeamNo,
        want: u64,
        have: u64,
    },
}
