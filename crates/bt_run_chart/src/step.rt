// What happens in a run, as far as it is drawn.
use bt_frame::{Mark, TermNo};

/// Who sends and hears. Each has a lane of its own.
#[derive(Clone, Copy, PartialEq, Eq)]
pub enum Station {
    Centre,
    Standby,
    Satellite,
    Terminal(TermNo),
}

/// A change for which the satellite is armed.
#[derive(Clone, Copy, PartialEq, Eq)]
pub struct ArmedChange {
    pub edition: u64,
    pub due: u64,
}

/// What the satellite says of itself.
#[derive(Clone, Copy)]
pub struct ShownStatus {
    pub mark: u64,
    pub fore: u64,
    pub back: u64,
    pub armed: Option<ArmedChange>,
    pub last: u64,
}

/// What a message says.
#[derive(Clone, Copy)]
pub enum Said {
    Load { command: u64, edition: u64 },
    Arm(ArmedChange),
    Status(ShownStatus),
    Bursts { edition: u64, to: TermNo },
    Confirm { edition: u64, from: TermNo },
    Reference { mark: u64, edition: Option<u64> },
    Lost { from: TermNo },
}

/// A message with its number, and its place among the messages of the text, from 0.
#[derive(Clone, Copy)]
pub struct SentMessage {
    pub number: u64,
    pub place: usize,
    pub sender: Station,
    pub said: Said,
}

/// That the message of that place came to a station, and what that did with it.
#[derive(Clone, Copy)]
pub struct Delivery {
    pub number: u64,
    pub place: usize,
    pub hearer: Station,
    pub answer: &'static str,
    pub refused: bool,
}

/// What happens to a station, beside messages.
#[derive(Clone, Copy)]
pub enum Happening {
    Restart,
    Reset,
    Back(u64),
    Ahead,
}

/// A frame that is shown.
#[derive(Clone, Copy)]
pub struct Frame {
    pub mark: Mark,
    pub number: u32,
    pub fore: u64,
}

/// A burst on the air in the frame shown last.
#[derive(Clone, Copy, PartialEq, Eq)]
pub struct OnAir {
    pub start: u64,
    pub length: u64,
    pub from: TermNo,
    pub to: TermNo,
}

/// That a terminal holds its bursts of the edition in front and is silent in a frame.
#[derive(Clone, Copy)]
pub struct Silence {
    pub terminal: TermNo,
    pub frame: Frame,
}

/// What is told beside the air.
#[derive(Clone, Copy)]
pub enum Note {
    /// So many deliveries that waited are lost.
    Lost(u64),
    /// The planner's plan is installed for this edition.
    Planned(u64),
    /// So many edits were taken, of which the last is this edition.
    Edited { count: u64, edition: u64 },
    /// An edit, a plan or an order was not taken.
    Refused(&'static str),
}

/// Superframes one behind the other of which nothing but routine is told.
#[derive(Clone, Copy)]
pub struct Folded {
    pub first: u64,
    pub last: u64,
    pub count: u64,
}

/// One step of a run.
#[derive(Clone, Copy)]
pub enum Step {
    /// This superframe begins.
    Begin(u64),
    /// These superframes begin, and what is told of them is not drawn.
    Folded(Folded),
    /// Superframes begin that are not asked for: nothing of them is drawn.
    Hidden,
    Sent(SentMessage),
    /// The centre sends so many messages to terminals that have no lane.
    Others(u64),
    Got(Delivery),
    Happened(Station, Happening),
    Shown(Frame),
    Burst(OnAir),
    Silent(Silence),
    Noted(Note),
}

/// Whether what is told is drawn.
#[derive(Clone, Copy, PartialEq, Eq)]
pub enum Telling {
    Drawn,
    Folded,
    Hidden,
}

impl Step {
    /// The station that sends, hears or is struck here.
    pub fn station(&self) -> Option<Station> {
        match self {
            Step::Sent(message) => Some(message.sender),
            Step::Got(delivery) => Some(delivery.hearer),
            Step::Happened(station, _) => Some(*station),
            Step::Silent(silence) => Some(Station::Terminal(silence.terminal)),
            Step::Others(_) => Some(Station::Centre),
            _ => None,
        }
    }

    /// Whether this step and those behind it are drawn, where it says so, and else as it was before.
    pub fn telling(&self, before: Telling) -> Telling {
        match self {
            Step::Begin(_) => Telling::Drawn,
            Step::Folded(_) => Telling::Folded,
            Step::Hidden => Telling::Hidden,
            _ => before,
        }
    }

    /// It is drawn, where what is told is drawn or not: the first step of what is folded is in any case.
    pub fn is_drawn(&self, telling: Telling) -> bool {
        telling == Telling::Drawn || matches!(self, Step::Folded(_))
    }

    /// Counts a further message where this stands for some to terminals without a lane; false where it does not.
    pub fn counts_one_more(&mut self) -> bool {
        match self {
            Step::Others(count) => {
                *count = count.saturating_add(1);
                true
            }
            _ => false,
        }
    }
}
