// The steps of a run, from its printed lines.
//
// A centre of which the other sites are processes of their own prints its messages in `radio` lines too. It does not say who hears
// them, and its deliveries have the numbers of lines that it heard: these are passed over, and a turn begins its superframe, since
// no tick does.
use crate::numbering::Numbering;
use crate::plain::{Plain, PlainLine};
use crate::step::{
    ArmedChange, Delivery, Frame, Happening, Note, OnAir, Said, SentMessage, ShownStatus, Station,
    Step,
};
use bt_air::{Heard, Taken};
use bt_frame::{OutOfMemory, TermNo};
use bt_net::Network;
use bt_run_lines::{Form, read_line, told_behind};
use bt_text::{WordReader, first_line};
use bt_timeline::{heard_text, taken_text};
use std::alloc::Global;

/// The steps of a run, in order. Lines that no run prints, those of which nothing is drawn, and deliveries of messages that
/// the text does not have are passed over; so are the lines that a line told of.
pub fn read_steps(alloc: Global, net: &Network, text: &[u8]) -> Result<Vec<Step>, OutOfMemory> {
    let mut steps = Vec::new(alloc);
    let mut context = Context {
        before: None,
        numbering: Numbering::none(),
        is_apart: is_apart(text),
        mark: None,
    };
    let mut rest = text;
    let mut told = 0;
    while let Some((line, behind)) = first_line(rest) {
        told = context.read(net, told, line, &mut steps)?;
        rest = behind;
    }
    context.read(net, told, rest, &mut steps)?;
    Ok(steps)
}

/// Whether the text is of a centre of which the other sites are processes of their own.
pub fn is_apart(text: &[u8]) -> bool {
    let mut rest = text;
    while let Some((line, behind)) = first_line(rest) {
        if WordReader::of(line).next_is(b"radio") {
            return true;
        }
        rest = behind;
    }
    false
}

// What a line is read by: the form of the line before it, and the messages so far; and of a centre apart its superframe.
#[derive(Clone, Copy)]
struct Context {
    before: Option<Form>,
    numbering: Numbering,
    is_apart: bool,
    mark: Option<u64>,
}

impl Context {
    // Reads a line behind its fellows, where so many were told of that are to be passed over; gives how many are behind it.
    fn read(
        &mut self,
        net: &Network,
        told: u64,
        line: &[u8],
        steps: &mut Vec<Step>,
    ) -> Result<u64, OutOfMemory> {
        if told > 0 {
            return Ok(told - 1);
        }
        let Some(printed) = read_line(net, line) else {
            self.before = None;
            return Ok(0);
        };
        if let Some(step) = self.step_of(&PlainLine::of(&printed)) {
            add_step(step, steps)?;
        }
        self.before = Some(printed.form);
        Ok(told_behind(line))
    }

    // The step that a line tells of.
    fn step_of(&mut self, line: &PlainLine) -> Option<Step> {
        if let Some(message) = self.message_of(line) {
            return Some(Step::Sent(message));
        }
        if let Some(delivery) = self.delivery_of(line) {
            return Some(Step::Got(delivery));
        }
        // A run begins in some superframe, and a restart in its midst begins none.
        if line.form == Form::Start && self.before == Some(Form::Restart) {
            return None;
        }
        if self.is_apart {
            return self.superframe_of(line).or(happening_of(line));
        }
        happening_of(line)
    }

    // The superframe that begins with the turn of a centre apart.
    fn superframe_of(&mut self, line: &PlainLine) -> Option<Step> {
        match (line.form, line.values()) {
            (Form::Turn | Form::BackTurn, [Plain::Number(mark), _]) if self.mark != Some(*mark) => {
                self.mark = Some(*mark);
                Some(Step::Begin(*mark))
            }
            _ => None,
        }
    }

    // The message that was sent.
    fn message_of(&mut self, line: &PlainLine) -> Option<SentMessage> {
        let [Plain::Number(number), rest @ ..] = line.values() else {
            return None;
        };
        let said = said_of(line.form, rest)?;
        let sender = match said {
            Said::Status(_) => Station::Satellite,
            Said::Confirm { from, .. } | Said::Lost { from } => Station::Terminal(from),
            Said::Reference { .. } if self.before == Some(Form::StandbyBurst) => Station::Standby,
            _ => Station::Centre,
        };
        let (number, place) = (*number, self.numbering.send(*number));
        Some(SentMessage {
            number,
            place,
            sender,
            said,
        })
    }

    // The delivery that was made, of a message that the text has.
    fn delivery_of(&self, line: &PlainLine) -> Option<Delivery> {
        if self.is_apart {
            return None;
        }
        let [Plain::Number(number), rest @ ..] = line.values() else {
            return None;
        };
        let (hearer, answer, refused) = answer_of(line.form, rest)?;
        let (number, place) = (*number, self.numbering.meant(*number)?);
        Some(Delivery {
            number,
            place,
            hearer,
            answer,
            refused,
        })
    }
}

// Adds a step; edits one behind the other are one.
fn add_step(step: Step, steps: &mut Vec<Step>) -> Result<(), OutOfMemory> {
    if let Step::Noted(Note::Edited { edition, .. }) = step {
        if let Some(last) = steps.last_mut() {
            if joins(last, edition) {
                return Ok(());
            }
        }
    }
    steps.push(step)?;
    Ok(())
}

// Adds an edit to a step, where that is of edits.
fn joins(step: &mut Step, newest: u64) -> bool {
    match step {
        Step::Noted(note) => joins_edits(note, newest),
        _ => false,
    }
}

fn joins_edits(note: &mut Note, newest: u64) -> bool {
    match note {
        Note::Edited { count, edition } => {
            *count = count.saturating_add(1);
            *edition = newest.max(*edition);
            true
        }
        _ => false,
    }
}

// What a message says, from the values behind its number.
#[rattlefmt::skip]
fn said_of(form: Form, values: &[Plain]) -> Option<Said> {
    match (form, values) {
        (Form::SentLoad, [Plain::Number(command), Plain::Number(edition)]) => Some(Said::Load { command: *command, edition: *edition }),
        (Form::SentArm, [_, Plain::Number(edition), Plain::Number(due)]) => Some(Said::Arm(ArmedChange { edition: *edition, due: *due })),
        (Form::SentStatus | Form::SentArmedStatus, _) => status_of(values),
        (Form::SentPlan, [Plain::Number(edition), Plain::Terminal(to)]) => Some(Said::Bursts { edition: *edition, to: *to }),
        (Form::SentConfirm, [Plain::Number(edition), Plain::Terminal(from)]) => Some(Said::Confirm { edition: *edition, from: *from }),
        (Form::SentReference, [Plain::Number(mark), Plain::Number(edition)]) => Some(Said::Reference { mark: *mark, edition: Some(*edition) }),
        (Form::SentNoReference, [Plain::Number(mark)]) => Some(Said::Reference { mark: *mark, edition: None }),
        (Form::SentLost, [Plain::Terminal(from)]) => Some(Said::Lost { from: *from }),
        _ => None,
    }
}

// What a status says, from the values behind its number.
fn status_of(values: &[Plain]) -> Option<Said> {
    let [
        Plain::Number(mark),
        Plain::Number(fore),
        Plain::Number(back),
        rest @ ..,
    ] = values
    else {
        return None;
    };
    let (armed, last) = match rest {
        [Plain::Number(last)] => (None, *last),
        [
            Plain::Number(edition),
            Plain::Number(due),
            Plain::Number(last),
        ] => {
            let change = ArmedChange {
                edition: *edition,
                due: *due,
            };
            (Some(change), *last)
        }
        _ => return None,
    };
    Some(Said::Status(ShownStatus {
        mark: *mark,
        fore: *fore,
        back: *back,
        armed,
        last,
    }))
}

// Who heard a message, what that did with it, and whether it refused, from the values behind the number.
fn answer_of(form: Form, values: &[Plain]) -> Option<(Station, &'static str, bool)> {
    Some(match (form, values) {
        (Form::GotSatellite, [Plain::Taken(taken)]) => satellite_answer(*taken),
        (Form::GotCentre, []) => (Station::Centre, "noted", false),
        (Form::GotTerminal, [Plain::Terminal(terminal), Plain::Heard(heard)]) => {
            terminal_answer(*terminal, *heard)
        }
        (Form::NotForSatellite, []) => (Station::Satellite, "notforme", true),
        (Form::NotForCentre, []) => (Station::Centre, "notforme", true),
        (Form::NotForTerminal, [Plain::Terminal(terminal)]) => {
            (Station::Terminal(*terminal), "notforme", true)
        }
        (Form::StandbyNoted, []) => (Station::Standby, "noted", false),
        (Form::StandbyWrongMark, []) => (Station::Standby, "wrongmark", true),
        (Form::StandbyNotForMe, []) => (Station::Standby, "notforme", true),
        _ => return None,
    })
}

fn satellite_answer(taken: Taken) -> (Station, &'static str, bool) {
    let refused = !matches!(taken, Taken::Accepted);
    (Station::Satellite, taken_text(taken), refused)
}

fn terminal_answer(terminal: TermNo, heard: Heard) -> (Station, &'static str, bool) {
    let refused = !matches!(heard, Heard::Took | Heard::Held | Heard::Stored);
    (Station::Terminal(terminal), heard_text(heard), refused)
}

// A step that is no message.
#[rattlefmt::skip]
fn happening_of(line: &PlainLine) -> Option<Step> {
    match (line.form, line.values()) {
        (Form::Start, [_, _, Plain::Number(mark)]) => Some(Step::Begin(*mark)),
        (Form::Tick, [Plain::Number(mark)]) => Some(Step::Begin(*mark)),
        (Form::Restart, []) => Some(Step::Happened(Station::Centre, Happening::Restart)),
        (Form::Reset, [Plain::Terminal(terminal)]) => Some(Step::Happened(Station::Terminal(*terminal), Happening::Reset)),
        (Form::Back, [Plain::Number(edition)]) => Some(Step::Happened(Station::Centre, Happening::Back(*edition))),
        (Form::Ahead, []) => Some(Step::Happened(Station::Centre, Happening::Ahead)),
        (Form::Frame, [Plain::Frame(mark, number), Plain::Number(fore)]) => Some(Step::Shown(Frame { mark: *mark, number: *number, fore: *fore })),
        (Form::Lost, [Plain::Number(count)]) if *count > 0 => Some(Step::Noted(Note::Lost(*count))),
        (Form::Planned, [Plain::Number(edition), ..]) => Some(Step::Noted(Note::Planned(*edition))),
        (Form::DeskDone, [_, Plain::Number(edition), _]) => Some(Step::Noted(Note::Edited { count: 1, edition: *edition })),
        (Form::Air, [Plain::Number(start), Plain::Number(length), Plain::Terminal(from), Plain::Terminal(to)]) => Some(Step::Burst(OnAir { start: *start, length: *length, from: *from, to: *to })),
        _ => Some(Step::Noted(Note::Refused(refused_text(line.form)?))),
    }
}

// What was not taken; None where the line tells of no such thing.
#[rattlefmt::skip]
fn refused_text(form: Form) -> Option<&'static str> {
    Some(match form {
        Form::DeskSameTerminal | Form::DeskNotThere | Form::DeskRowFull | Form::DeskColumnFull | Form::DeskBookFull => "edit refused",
        Form::PlanBookFull => "plan refused",
        Form::OrderBookFull | Form::OrderOutOfTurn | Form::OrderNotInstalled => "order refused",
        Form::DeskStoreFault | Form::PlanStoreFault | Form::OrderStoreFault | Form::StoreFault => "store fault",
        _ => return None,
    })
}
