// What of a plan is drawn.

use bt_frame::MOST_BEAMS;

/// Slots of a frame, from the first to the last of them. Where the last would stand before the first, it is that one alone.
#[derive(Clone, Copy)]
pub struct SlotRange {
    /// The first slot.
    pub first: u32,
    /// The last slot.
    pub last: u32,
}

/// What of a plan is drawn.
#[derive(Clone, Copy)]
pub struct Choice {
    /// By the number of a beam, whether it has lanes.
    pub beams: [bool; MOST_BEAMS],
    /// The slots that are shown, where not all are.
    pub slots: Option<SlotRange>,
}
