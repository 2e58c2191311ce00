// The statuses with which the program ends.

/// What was asked for is done.
pub const DONE: u8 = 0;

/// Memory ran out.
pub const OUT_OF_MEMORY: u8 = 1;

/// The words are none of a command.
pub const FAULTY_WORDS: u8 = 2;

/// The bytes of a network file are no network.
pub const NO_NETWORK: u8 = 3;

/// A text leaves its grammar or its limits, or a demand does not fit the frame.
pub const FAULTY_TEXT: u8 = 4;

/// A file could not be read.
pub const READ_FAILED: u8 = 5;

/// The output could not be written.
pub const WRITE_FAILED: u8 = 6;

/// The store failed.
pub const STORE_FAILED: u8 = 7;

/// A line of the journal is of no change, or of one that does not follow.
pub const FAULTY_JOURNAL: u8 = 8;

/// The verdict of a check is not good.
pub const NOT_GOOD: u8 = 9;

/// A file, or the store, is longer than is read.
pub const TOO_LONG: u8 = 10;
