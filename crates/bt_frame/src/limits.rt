// The limits of a system: each stands here once, and all else names it by its constant. MOST_ is the greatest count,
// LAST_ the greatest number of its kind, LEAST_ the least.

/// The most beams of a network.
pub const MOST_BEAMS: usize = 32;

/// The most beams whose columns a mode keeps without memory of its own: those of more beams take some.
pub const MOST_INLINE_BEAMS: usize = 16;

/// The most beams of a network whose names are numbered: it has four terminals in each beam, and so `MOST_TERMINALS` of
/// them.
pub const MOST_NUMBERED_BEAMS: u32 = 16;

/// The last number of a beam.
pub const LAST_BEAM: u32 = MOST_BEAMS as u32 - 1;

/// The most terminals of a network.
pub const MOST_TERMINALS: usize = 64;

/// The last number of a terminal.
pub const LAST_TERMINAL: u8 = MOST_TERMINALS as u8 - 1;

/// The most bytes of the name of a beam or of a terminal.
pub const MOST_NAME_BYTES: usize = 16;

/// The most traffic slots of a frame.
pub const MOST_SLOTS: u32 = 4096;

/// The last traffic slot of a frame.
pub const LAST_SLOT: u32 = MOST_SLOTS - 1;

/// The most frames of a superframe.
pub const MOST_FRAMES: u32 = 64;

/// The fewest superframes from the command that arms a change to the change.
pub const LEAST_LEAD: u32 = 2;

/// The most superframes from the command that arms a change to the change.
pub const MOST_LEAD: u32 = 32;

/// The most turns for which missing terminals are waited for.
pub const MOST_PATIENCE: u32 = 32;

/// The most units, in slots per frame, of one edit, of one link line or of one entry of a matrix in a text.
pub const MOST_UNITS: u32 = 4096;

/// The greatest line sum, in slots, that a traffic matrix may have.
pub const MOST_SUM: u32 = 1_048_576;

/// The most slots of a length or of a duration in a text: the greatest line sum of a matrix in a text.
pub const MOST_TEXT_SLOTS: u32 = MOST_BEAMS as u32 * MOST_UNITS;

/// The most slots of a burst in a text.
pub const MOST_BURST_SLOTS: u32 = 65_536;

/// The last slot in a text from which a burst may start.
pub const LAST_TEXT_SLOT: u32 = MOST_BURST_SLOTS - 1;

/// The last superframe mark.
pub const LAST_MARK: u32 = 4_000_000_000;

/// The last edition of the demand.
pub const LAST_EDITION: u32 = 4_294_967_295;

/// The last number of a command.
pub const LAST_COMMAND: u32 = 4_294_967_295;

/// The last number of a message.
pub const LAST_MESSAGE: u32 = 4_294_967_295;

/// The most orders that were placed before a turn of the centre.
pub const MOST_PLACED: u32 = 4_000_000_000;

/// The most messages, and the most orders, when an event happens. So many would not fit in memory, so that more are
/// answered as want of it.
pub const MOST_COUNTED: u32 = 2_000_000_000;

/// The most bytes of a text that is read; those of a message are a text too.
pub const MOST_TEXT_BYTES: usize = 67_108_864;

/// The most bytes of a message as it is written: those of a Load of the most modes of the most beams.
pub const MOST_MESSAGE_BYTES: usize = 12 + MOST_SLOTS as usize * (4 + MOST_BEAMS);

/// The most bytes of a file: 4 MiB.
pub const MOST_FILE_BYTES: u64 = 4_194_304;

/// The fewest bytes to which a journal may be limited.
pub const LEAST_JOURNAL_BYTES: u32 = 32;

/// The most bytes of a journal, and so of a store that is read.
pub const MOST_JOURNAL_BYTES: u64 = MOST_TEXT_BYTES as u64;

/// The most bytes of changes that a journal may have: the mark stands beside them.
pub const MOST_BOOK_BYTES: u64 = 67_108_800;

/// The most lines of a script; remarks count.
pub const MOST_LINES: u32 = 20_000;

/// The most digits of a number in a script.
pub const MOST_DIGITS: usize = 10;

/// The most desks: they are numbered from 1.
pub const MOST_DESKS: u8 = 16;

/// The most callers of a line.
pub const MOST_CALLERS: u32 = 64;

/// The most readers of a board.
pub const MOST_READERS: u32 = 64;

/// The most bytes of a line of a session, its newline left out.
pub const MOST_SESSION_LINE_BYTES: usize = 4_096;

/// The most bytes of a line that a station hears, its newline left out: the longest message has a line.
pub const MOST_STATION_LINE_BYTES: usize = 17 + 2 * MOST_MESSAGE_BYTES;

/// A session and a station hear fewer lines: 2 ^ 63, so that lines and rounds can be counted.
pub const MOST_ANSWERS: u64 = 9_223_372_036_854_775_808;
