// What the lines of each text are made of, a row for each form.
use bt_frame::{
    LAST_BEAM, LAST_COMMAND, LAST_EDITION, LAST_MARK, LAST_MESSAGE, LAST_TEXT_SLOT, MOST_BEAMS,
    MOST_BURST_SLOTS, MOST_DESKS, MOST_TERMINALS, MOST_TEXT_SLOTS, MOST_UNITS,
};
use bt_text::is_word;
use bt_timing::{LEAST_CHANGE, LEAST_SLOT_TICKS, MOST_DELAY, MOST_HALF, MOST_SLOT_TICKS};

/// What may stand at a place of a line.
#[derive(Clone, Copy)]
pub enum Place {
    /// This word alone.
    Word(&'static str),
    /// A name of a terminal.
    Name,
    /// A number. That it is in this range, another code says.
    Number(u32, u32),
    /// A number in this range.
    Within(u32, u32),
    /// As many numbers as there are beams. That they are in this range, another code says.
    EachNumber(u32, u32),
    /// As many numbers as there are beams, in this range.
    EachWithin(u32, u32),
    /// The bytes of a message, in two digits each.
    Bytes,
    /// A tag of lines.
    Tag,
}

impl Place {
    /// Whether this word alone may stand here.
    pub fn is_alone(self, word: &[u8]) -> bool {
        matches!(self, Place::Word(text) if is_word(word, text.as_bytes()))
    }
}

use Place::*;

/// Forms of a line, of each what stands at its places.
pub type Forms = &'static [&'static [Place]];

/// What the values of a mode are at most in a text: whether they are beams, the verdict says.
const MOST_VALUE: u32 = 255;

const DESKS: u32 = MOST_DESKS as u32;

const BEAMS: u32 = MOST_BEAMS as u32;

const TERMINALS: u32 = MOST_TERMINALS as u32;

/// The forms that line `at` of a text may have; the letter is that of the text's codes, L a session's of a simulated air, and B
/// one's whose sites are apart.
#[rattlefmt::skip]
pub fn forms_of(letter: u8, at: u32) -> Forms {
    match (letter, at) {
        (b'X', 1)             => SIZE,
        (b'X', _)             => ROW,
        (b'T', _)             => LINK,
        (b'P', 1)             => EDITION,
        (b'P', 2) | (b'M', 1) => LENGTH,
        (b'P', 3) | (b'M', 2) => CRITICAL,
        (b'P', _)             => BURSTS,
        (b'M', _)             => MODES,
        (b'G', 1)             => SLOT,
        (b'G', 2)             => HALF,
        (b'G', _)             => DELAYS,
        (b'S', _)             => SESSION.get(..SCRIPT_FORMS).unwrap_or(&[]),
        (b'L', _)             => SESSION.get(..LIVE_FORMS).unwrap_or(&[]),
        (b'B', _)             => SESSION,
        (b'J', _)             => JOURNAL,
        _                     => &[],
    }
}

const SIZE: Forms = &[&[Number(1, BEAMS)]];

const ROW: Forms = &[&[EachNumber(0, MOST_UNITS)]];

const LINK: Forms = &[&[Word("link"), Name, Name, Number(1, MOST_UNITS)]];

const EDITION: Forms = &[&[Word("plan"), Within(0, LAST_EDITION)]];

const LENGTH: Forms = &[&[Word("length"), Within(0, MOST_TEXT_SLOTS)]];

#[rattlefmt::skip]
const CRITICAL: Forms = &[
    &[Word("critical"), Word("row"),    Within(0, LAST_BEAM)],
    &[Word("critical"), Word("column"), Within(0, LAST_BEAM)],
];

#[rattlefmt::skip]
const BURSTS: Forms = &[
    &[Word("burst"), Within(0, LAST_TEXT_SLOT), Within(1, MOST_BURST_SLOTS), Name, Name],
    MODE,
    END,
];

const MODES: Forms = &[MODE, END];

const MODE: &[Place] = &[
    Word("mode"),
    Within(0, MOST_TEXT_SLOTS),
    EachWithin(0, MOST_VALUE),
];

const END: &[Place] = &[Word("end")];

const SLOT: Forms = &[&[Word("slot"), Number(LEAST_SLOT_TICKS, MOST_SLOT_TICKS)]];

const HALF: Forms = &[&[Word("half"), Number(0, MOST_HALF)]];

#[rattlefmt::skip]
const DELAYS: Forms = &[
    &[Word("delay"), Name, Number(0, MOST_DELAY)],
    &[Word("late"),  Name, Number(LEAST_CHANGE, MOST_DELAY)],
    &[Word("early"), Name, Number(LEAST_CHANGE, MOST_DELAY)],
];

/// How many of the forms of a session's lines are a script's, and how many are of a session of a simulated air.
const SCRIPT_FORMS: usize = 23;

const LIVE_FORMS: usize = 42;

#[rattlefmt::skip]
const SESSION: Forms = &[
    &[Word("round")],
    &[Word("restart")],
    &[Word("desk"), Number(1, DESKS), Word("add"),  Name, Name, Number(1, MOST_UNITS)],
    &[Word("desk"), Number(1, DESKS), Word("drop"), Name, Name, Number(1, MOST_UNITS)],
    &[Word("desk"), Number(1, DESKS), Word("move"), Name, Name, Name, Name, Number(1, MOST_UNITS)],
    &[Word("desk"), Number(1, DESKS), Word("show"), Name],
    &[Word("plan")],
    &[Word("tick")],
    &[Word("turn")],
    &[Word("back"), Number(0, LAST_EDITION)],
    &[Word("ahead")],
    &[Word("flow")],
    &[Word("lose"), Word("all")],
    &[Word("lose"), Word("sat")],
    &[Word("lose"), Word("centre")],
    &[Word("lose"), Name],
    &[Word("deliver"), Number(0, LAST_MESSAGE), Word("sat")],
    &[Word("deliver"), Number(0, LAST_MESSAGE), Word("centre")],
    &[Word("deliver"), Number(0, LAST_MESSAGE), Name],
    &[Word("frame")],
    &[Word("reset"), Name],
    &[Word("standby"), Word("hears"), Number(0, LAST_MESSAGE)],
    &[Word("standby"), Word("burst")],
    &[Word("desk"), Number(1, DESKS), Word("set"),  Name, Name, Number(0, MOST_UNITS)],
    &[Word("desk"), Number(1, DESKS), Word("undo"), Number(1, LAST_EDITION)],
    &[Word("go")],
    &[Word("all")],
    &[Word("try")],
    &[Word("forget")],
    &[Word("forget"), Tag],
    &[Word("blocks")],
    &[Word("state")],
    &[Word("capacity")],
    &[Word("room"), Name, Name],
    &[Word("demand")],
    &[Word("installed")],
    &[Word("plans")],
    &[Word("air")],
    &[Word("waiting")],
    &[Word("clock"), Word("on")],
    &[Word("clock"), Word("off")],
    &[Word("help")],
    &[Word("mark"), Within(1, LAST_MARK)],
    &[Word("radio"), Within(1, LAST_MARK), Bytes],
];

#[rattlefmt::skip]
const JOURNAL: Forms = &[
    &[Word("edit"), Within(1, LAST_EDITION), Word("add"),  Name, Name, Within(1, MOST_UNITS)],
    &[Word("edit"), Within(1, LAST_EDITION), Word("drop"), Name, Name, Within(1, MOST_UNITS)],
    &[Word("edit"), Within(1, LAST_EDITION), Word("move"), Name, Name, Name, Name, Within(1, MOST_UNITS)],
    &[Word("load"), Within(1, LAST_COMMAND), Within(0, LAST_EDITION)],
    &[Word("arm"), Within(1, LAST_COMMAND), Within(0, LAST_EDITION), Within(1, LAST_MARK)],
    &[Word("journal"), Word("2"), Within(1, BEAMS), Within(1, TERMINALS)],
    &[Word("plan"), Within(0, LAST_EDITION), Word("length"), Within(0, MOST_TEXT_SLOTS), Word("critical")],
];
