// Messages in words, as lines for the satellite and for a terminal give them.
use bt_air::{Armed, Message, Status};
use bt_demand::{Burst, Bursts};
use bt_frame::{Columns, Command, EditionNo, Mark, Mode, Modes, TermNo};
use bt_sheet::{CaseFault, Result, byte_of, number_of};
use std::alloc::Global;

/// The message that the words say: its kind, and its fields.
pub fn message_of(alloc: Global, words: &[&str]) -> Result<Message> {
    let Some((kind, fields)) = words.split_first() else {
        return Err(CaseFault("no message"));
    };
    match *kind {
        "load" => load_of(alloc, fields),
        "arm" => arm_of(fields),
        "plan" => plan_for(alloc, fields),
        "reference" => reference_of(fields),
        "confirm" => confirm_of(fields),
        "lost" => lost_of(fields),
        "status" => Ok(Message::Status(status_of(fields)?)),
        _ => Err(CaseFault("no message")),
    }
}

fn load_of(alloc: Global, fields: &[&str]) -> Result<Message> {
    let [command, edition, durations @ ..] = fields else {
        return Err(CaseFault("no message"));
    };
    let [command, edition] = pair_of(command, edition)?;
    Ok(Message::Load {
        command: Command(command),
        edition: EditionNo(edition),
        modes: modes_of(alloc, durations)?,
    })
}

fn arm_of(fields: &[&str]) -> Result<Message> {
    let [command, edition, due] = fields else {
        return Err(CaseFault("no message"));
    };
    let [command, edition] = pair_of(command, edition)?;
    Ok(Message::Arm {
        command: Command(command),
        edition: EditionNo(edition),
        due: Mark(number_of(due)?),
    })
}

/// A plan of one burst, which the terminal itself sends.
fn plan_for(alloc: Global, fields: &[&str]) -> Result<Message> {
    let [to, load, edition, length] = fields else {
        return Err(CaseFault("no message"));
    };
    let to = TermNo(byte_of(to)?);
    let [load, edition] = pair_of(load, edition)?;
    Ok(Message::PlanFor {
        to,
        load: Command(load),
        edition: EditionNo(edition),
        bursts: burst_of(alloc, to, number_of(length)?)?,
    })
}

fn confirm_of(fields: &[&str]) -> Result<Message> {
    let [from, load, edition] = fields else {
        return Err(CaseFault("no message"));
    };
    let [load, edition] = pair_of(load, edition)?;
    Ok(Message::Confirm {
        from: TermNo(byte_of(from)?),
        load: Command(load),
        edition: EditionNo(edition),
    })
}

/// A reference burst that names an edition, or `none`, and announces a change where `next` stands behind that.
fn reference_of(fields: &[&str]) -> Result<Message> {
    match fields {
        [superframe, edition] => reference_with(superframe, edition, None),
        [superframe, edition, "next", next, due] => {
            reference_with(superframe, edition, armed_with(next, due)?)
        }
        _ => Err(CaseFault("no message")),
    }
}

fn reference_with(superframe: &str, edition: &str, next: Option<Armed>) -> Result<Message> {
    Ok(Message::Reference {
        superframe: Mark(number_of(superframe)?),
        in_force: in_force_of(edition)?,
        next,
    })
}

fn in_force_of(edition: &str) -> Result<Option<EditionNo>> {
    match edition {
        "none" => Ok(None),
        edition => Ok(Some(EditionNo(number_of(edition)?))),
    }
}

fn lost_of(fields: &[&str]) -> Result<Message> {
    match fields {
        [from] => Ok(Message::Lost {
            from: TermNo(byte_of(from)?),
        }),
        _ => Err(CaseFault("no message")),
    }
}

/// The status that the words say: superframe, foreground, background, `none` or the edition and the superframe of a
/// change to come, last command.
pub fn status_of(words: &[&str]) -> Result<Status> {
    match words {
        [mark, fore, back, armed @ .., last] => {
            status_with([mark, fore, back, last], armed_of(armed)?)
        }
        _ => Err(CaseFault("no status")),
    }
}

fn armed_of(words: &[&str]) -> Result<Option<Armed>> {
    match words {
        ["none"] => Ok(None),
        [edition, due] => armed_with(edition, due),
        _ => Err(CaseFault("no status")),
    }
}

fn armed_with(edition: &str, due: &str) -> Result<Option<Armed>> {
    let [edition, due] = pair_of(edition, due)?;
    Ok(Some(Armed {
        edition: EditionNo(edition),
        due: Mark(due),
    }))
}

fn status_with(words: [&str; 4], armed: Option<Armed>) -> Result<Status> {
    let [mark, fore, back, last] = numbers_of(words)?;
    Ok(Status {
        mark: Mark(mark),
        fore: EditionNo(fore),
        back: EditionNo(back),
        armed,
        last: Command(last),
    })
}

/// Four numbers.
pub fn numbers_of(words: [&str; 4]) -> Result<[u32; 4]> {
    let [first, second, third, fourth] = words;
    let [first, second] = pair_of(first, second)?;
    let [third, fourth] = pair_of(third, fourth)?;
    Ok([first, second, third, fourth])
}

/// Two numbers.
fn pair_of(first: &str, second: &str) -> Result<[u32; 2]> {
    Ok([number_of(first)?, number_of(second)?])
}

/// Modes of so many slots for a single beam.
fn modes_of(alloc: Global, durations: &[&str]) -> Result<Modes> {
    let mut modes = Vec::new(alloc);
    for duration in durations {
        modes.push(mode_of(alloc, duration)?)?;
    }
    if 16 < modes.len() {
        return Err(CaseFault("too many modes"));
    }
    Ok(Modes::of(modes))
}

fn mode_of(alloc: Global, duration: &str) -> Result<Mode> {
    let duration = number_of(duration)?;
    let perm = Columns::of(vec![in alloc; 0]?);
    Ok(Mode { duration, perm })
}

/// One burst of so many slots from the first slot on, to terminal 1.
fn burst_of(alloc: Global, from: TermNo, length: u32) -> Result<Bursts> {
    let burst = Burst {
        from,
        to: TermNo(1),
        start: 0,
        length,
    };
    Ok(Bursts::of(vec![in alloc; burst]?))
}
