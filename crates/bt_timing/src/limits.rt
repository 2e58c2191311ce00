// The limits of a delay file. Times are in ticks, the unit of the file: how long a tick lasts is the operator's choice.

/// The fewest ticks of a slot: one less would leave nothing between two guards.
pub const LEAST_SLOT_TICKS: u32 = 2;

/// The most ticks of a slot.
pub const MOST_SLOT_TICKS: u32 = 1_000_000;

/// The most ticks from a terminal to the satellite.
pub const MOST_DELAY: u32 = 10_000_000;

/// The most ticks of the guard at each end of what is sent: two of them leave a tick of the longest slot.
pub const MOST_HALF: u32 = MOST_SLOT_TICKS / 2 - 1;

/// The fewest ticks by which a delay changes.
pub const LEAST_CHANGE: u32 = 1;
