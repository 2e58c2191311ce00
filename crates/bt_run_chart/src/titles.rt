// What is written at a message: short above its circle, in whole words beside the mouse.
use crate::editions::name_of;
use crate::lanes::station_name;
use crate::step::{
    Delivery, Happening, Note, OnAir, Said, SentMessage, ShownStatus, Silence, Station,
};
use bt_frame::OutOfMemory;
use bt_net::Network;
use bt_picture::Pen;
use bt_words::Word;
use bt_words::Word::{Number, Text};

/// What stands above a message.
#[rattlefmt::skip]
pub fn label_of<'a>(said: Said, pen: &Pen<'a>) -> Result<Vec<Word<'a>>, OutOfMemory> {
    match said {
        Said::Load { edition, .. }                       => pen.phrase("load #", &[Number(edition)]),
        Said::Arm(change)                                => pen.phrase("arm # @#", &[Number(change.edition), Number(change.due)]),
        Said::Status(status)                             => pen.phrase("status #", &[Number(status.fore)]),
        Said::Bursts { edition, .. }                     => pen.phrase("bursts #", &[Number(edition)]),
        Said::Confirm { edition, .. }                    => pen.phrase("confirm #", &[Number(edition)]),
        Said::Reference { edition: Some(edition), .. }   => pen.phrase("ref #", &[Number(edition)]),
        Said::Reference { edition: None, .. }            => pen.phrase("ref none", &[]),
        Said::Lost { .. }                                => pen.phrase("lost", &[]),
    }
}

/// What stands above what happens to a station.
#[rattlefmt::skip]
pub fn happening_label<'a>(happening: Happening, pen: &Pen<'a>) -> Result<Vec<Word<'a>>, OutOfMemory> {
    match happening {
        Happening::Restart       => pen.phrase("restart", &[]),
        Happening::Reset         => pen.phrase("reset", &[]),
        Happening::Back(edition) => pen.phrase("back #", &[Number(edition)]),
        Happening::Ahead         => pen.phrase("ahead", &[]),
    }
}

/// What happens to a station, in words.
#[rattlefmt::skip]
pub fn happening_title<'a>(net: &'a Network, station: Station, happening: Happening, pen: &Pen<'a>) -> Result<Vec<Word<'a>>, OutOfMemory> {
    let name = Text(station_name(net, station));
    match happening {
        Happening::Restart       => pen.phrase("the # restarts", &[name]),
        Happening::Reset         => pen.phrase("# restarts and holds nothing", &[name]),
        Happening::Back(edition) => pen.phrase("the # is to go back to edition #", &[name, Number(edition)]),
        Happening::Ahead         => pen.phrase("the # is to bring the newest edition to the front again", &[name]),
    }
}

/// What a message says, in words, and that nobody heard it, where nobody did.
pub fn message_title<'a>(
    net: &'a Network,
    message: SentMessage,
    is_heard: bool,
    pen: &Pen<'a>,
) -> Result<Vec<Word<'a>>, OutOfMemory> {
    let mut title = said_title(net, message, pen)?;
    if !is_heard {
        title.push(Text("; nobody heard it"))?;
    }
    Ok(title)
}

// What a message says, in words.
#[rattlefmt::skip]
fn said_title<'a>(net: &'a Network, message: SentMessage, pen: &Pen<'a>) -> Result<Vec<Word<'a>>, OutOfMemory> {
    let number = Number(message.number);
    match message.said {
        Said::Load { edition, .. }      => pen.phrase("message #, load: the modes of edition # into the background", &[number, Number(edition)]),
        Said::Arm(change)               => pen.phrase("message #, arm: edition # in front from superframe #", &[number, Number(change.edition), Number(change.due)]),
        Said::Status(status)            => status_title(number, status, pen),
        Said::Bursts { edition, to }    => pen.phrase("message #, bursts: those of edition # for #", &[number, Number(edition), Text(name_of(net, to))]),
        Said::Confirm { edition, from } => pen.phrase("message #, confirm: # holds its bursts of edition #", &[number, Text(name_of(net, from)), Number(edition)]),
        Said::Reference { .. } if message.sender == Station::Standby => reference_title("message #, reference burst of the standby, superframe #: edition # in force", message, pen),
        Said::Reference { .. }          => reference_title("message #, reference burst of superframe #: edition # in force", message, pen),
        Said::Lost { from }             => pen.phrase("message #, lost: # has restarted", &[number, Text(name_of(net, from))]),
    }
}

// What the satellite says of itself, in words.
#[rattlefmt::skip]
fn status_title<'a>(number: Word<'a>, status: ShownStatus, pen: &Pen<'a>) -> Result<Vec<Word<'a>>, OutOfMemory> {
    let (mark, fore, back, last) = (Number(status.mark), Number(status.fore), Number(status.back), Number(status.last));
    match status.armed {
        Some(change) => pen.phrase(
            "message #, status of superframe #: edition # in front, # in the background, armed for edition # from superframe #, last command #",
            &[number, mark, fore, back, Number(change.edition), Number(change.due), last],
        ),
        None => pen.phrase(
            "message #, status of superframe #: edition # in front, # in the background, not armed, last command #",
            &[number, mark, fore, back, last],
        ),
    }
}

// What a reference burst says, in the words for a known edition.
fn reference_title<'a>(
    text: &'a str,
    message: SentMessage,
    pen: &Pen<'a>,
) -> Result<Vec<Word<'a>>, OutOfMemory> {
    let number = Number(message.number);
    match message.said {
        Said::Reference {
            mark,
            edition: Some(edition),
        } => pen.phrase(text, &[number, Number(mark), Number(edition)]),
        Said::Reference {
            mark,
            edition: None,
        } => pen.phrase(text, &[number, Number(mark), Text("none")]),
        _ => pen.phrase("message #", &[number]),
    }
}

/// What stands at a message in a ladder: its number and what it says.
pub fn numbered_label<'a>(
    message: SentMessage,
    pen: &Pen<'a>,
) -> Result<Vec<Word<'a>>, OutOfMemory> {
    let mut words = pen.phrase("# ", &[Number(message.number)])?;
    for word in &label_of(message.said, pen)? {
        words.push(*word)?;
    }
    Ok(words)
}

/// What is told beside the air, in a box.
#[rattlefmt::skip]
pub fn note_label<'a>(note: Note, pen: &Pen<'a>) -> Result<Vec<Word<'a>>, OutOfMemory> {
    match note {
        Note::Lost(1)                      => pen.phrase("1 delivery lost", &[]),
        Note::Lost(count)                  => pen.phrase("# deliveries lost", &[Number(count)]),
        Note::Planned(edition)             => pen.phrase("plan of edition #", &[Number(edition)]),
        Note::Edited { count: 1, edition } => pen.phrase("edit: edition #", &[Number(edition)]),
        Note::Edited { count, edition }    => pen.phrase("# edits: edition #", &[Number(count), Number(edition)]),
        Note::Refused(text)                => pen.phrase("#", &[Text(text)]),
    }
}

/// Who sends a burst to whom in which slots, in words.
pub fn burst_title<'a>(
    net: &'a Network,
    burst: OnAir,
    pen: &Pen<'a>,
) -> Result<Vec<Word<'a>>, OutOfMemory> {
    let (from, to) = (Text(name_of(net, burst.from)), Text(name_of(net, burst.to)));
    let first = Number(burst.start);
    let last = burst.start.saturating_add(burst.length).saturating_sub(1);
    if last <= burst.start {
        return pen.phrase("# to #, slot #", &[from, to, first]);
    }
    pen.phrase("# to #, slots # to #", &[from, to, first, Number(last)])
}

/// That a terminal is silent in a frame, in words.
pub fn silence_title<'a>(
    net: &'a Network,
    silence: Silence,
    pen: &Pen<'a>,
) -> Result<Vec<Word<'a>>, OutOfMemory> {
    let name = Text(name_of(net, silence.terminal));
    let frame = silence.frame;
    let shown = Word::Frame(frame.mark, frame.number);
    pen.phrase(
        "# is silent in frame #: it holds its bursts of edition #",
        &[name, shown, Number(frame.fore)],
    )
}

/// What came to a station, in words.
pub fn delivery_title<'a>(
    net: &'a Network,
    delivery: Delivery,
    pen: &Pen<'a>,
) -> Result<Vec<Word<'a>>, OutOfMemory> {
    let name = Text(station_name(net, delivery.hearer));
    pen.phrase(
        "message # came to #: #",
        &[Number(delivery.number), name, Text(delivery.answer)],
    )
}

/// About how many twips wide words in small letters are.
pub fn width_of(words: &[Word<'_>]) -> u64 {
    let mut letters: u64 = 1;
    for word in words {
        letters = letters.saturating_add(letters_of(word));
    }
    letters.saturating_mul(92)
}

/// About how many twips wide a number in small letters is.
pub fn width_of_number(number: u64) -> u64 {
    digits_of(number).saturating_add(1).saturating_mul(92)
}

// About how many letters a word has.
fn letters_of(word: &Word<'_>) -> u64 {
    match word {
        Text(text) => text.len() as u64,
        Number(number) => digits_of(*number),
        _ => 7,
    }
}

// How many digits a number has; at most seven.
fn digits_of(number: u64) -> u64 {
    match number {
        0..=9 => 1,
        10..=99 => 2,
        100..=999 => 3,
        1000..=9999 => 4,
        10_000..=99_999 => 5,
        _ => 7,
    }
}
