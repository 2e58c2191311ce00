// What the output of a session or of a centre tells of the air, line by line.
use bt_frame::{OutOfMemory, TermNo};
use bt_net::Network;
use bt_run_lines::{Form, Printed, Value, read_line, told_behind};
use bt_text::first_line;
use std::alloc::Global;

/// A change for which the satellite is armed.
#[derive(Clone, Copy)]
pub(crate) struct Armed {
    pub edition: u64,
    pub due: u64,
}

/// What lines tell, each by the last that speaks of it; None, and no terminals, where none does.
#[derive(Drop)]
pub(crate) struct Told<'a> {
    /// The superframe.
    pub mark: Option<u64>,
    /// The edition in front.
    pub front: Option<u64>,
    /// What the satellite is armed for.
    pub armed: Option<Armed>,
    /// The terminals to which the last turn sent bursts.
    pub missing: Vec<TermNo>,
    /// The store failed since the last start.
    pub is_stopped: bool,
    /// The lines of refusals and of faults.
    pub refusals: Vec<&'a [u8]>,
    /// Of each superframe the text from the line on that names it first.
    pub superframes: Vec<&'a [u8]>,
}

/// What the text tells. Lines that no run prints are passed over, and so are those that a line told of.
pub(crate) fn told_by<'a>(
    alloc: Global,
    net: &Network,
    text: &'a [u8],
) -> Result<Told<'a>, OutOfMemory> {
    let mut told = Told::nothing(alloc);
    let mut rest = text;
    let mut passed = 0;
    while let Some((line, behind)) = first_line(rest) {
        passed = told.read(net, passed, rest, line)?;
        rest = behind;
    }
    Ok(told)
}

impl<'a> Told<'a> {
    // No line was read.
    fn nothing(alloc: Global) -> Told<'a> {
        Told {
            mark: None,
            front: None,
            armed: None,
            missing: Vec::new(alloc),
            is_stopped: false,
            refusals: Vec::new(alloc),
            superframes: Vec::new(alloc),
        }
    }

    // Reads the first line of a text, where so many are to be passed over; gives how many are behind it.
    fn read(
        &mut self,
        net: &Network,
        passed: u64,
        text: &'a [u8],
        line: &'a [u8],
    ) -> Result<u64, OutOfMemory> {
        if passed > 0 {
            return Ok(passed - 1);
        }
        let Some(printed) = read_line(net, line) else {
            return Ok(0);
        };
        self.begin(&printed, text)?;
        if is_refusal(printed.form) {
            self.refusals.push(line)?;
        }
        self.hear(&printed)?;
        Ok(told_behind(line))
    }

    // A line that names another superframe than the one before begins it.
    fn begin(&mut self, line: &Printed<'_>, text: &'a [u8]) -> Result<(), OutOfMemory> {
        let Some(mark) = mark_of(line) else {
            return Ok(());
        };
        if self.mark != Some(mark) {
            self.mark = Some(mark);
            self.superframes.push(text)?;
        }
        Ok(())
    }

    // What a line tells of the air and of the store.
    fn hear(&mut self, line: &Printed<'_>) -> Result<(), OutOfMemory> {
        match line.form {
            Form::Start => {
                self.front = None;
                self.armed = None;
                self.missing.clear();
                self.is_stopped = false;
            }
            Form::Turn | Form::BackTurn | Form::TurnWithoutMark => self.missing.clear(),
            Form::SentPlan => self.send_bursts(line.values())?,
            Form::SentStatus | Form::SentArmedStatus => self.hear_status(line.values()),
            Form::SentReference => self.hear_reference(line.values()),
            Form::Frame => self.hear_frame(line.values()),
            Form::OrderArm => self.hear_order(line.values()),
            form if is_of_a_store_that_failed(form) => self.is_stopped = true,
            _ => (),
        }
        Ok(())
    }

    fn send_bursts(&mut self, values: &[Value<'_>]) -> Result<(), OutOfMemory> {
        if let [_, _, terminal] = values {
            if let Value::Terminal(terminal) = terminal {
                return self.add_missing(*terminal);
            }
        }
        Ok(())
    }

    // A terminal is missing, whether one message was sent to it or more.
    fn add_missing(&mut self, terminal: TermNo) -> Result<(), OutOfMemory> {
        let is_there = self.missing.iter().any(|other| *other == terminal);
        if !is_there {
            self.missing.push(terminal)?;
        }
        Ok(())
    }

    fn hear_status(&mut self, values: &[Value<'_>]) {
        if let [_, _, fore, _, rest @ ..] = values {
            self.front = number_of(fore);
            self.armed = match rest {
                [edition, due, _] => armed_for(edition, due),
                _ => None,
            };
        }
    }

    // Once an edition is in force the satellite is armed for it no more.
    fn hear_reference(&mut self, values: &[Value<'_>]) {
        if let [_, _, edition] = values {
            self.front = number_of(edition);
            if let Some(armed) = self.armed {
                if Some(armed.edition) == self.front {
                    self.armed = None;
                }
            }
        }
    }

    fn hear_frame(&mut self, values: &[Value<'_>]) {
        if let [_, fore] = values {
            self.front = number_of(fore);
        }
    }

    fn hear_order(&mut self, values: &[Value<'_>]) {
        if let [_, edition, due] = values {
            self.armed = armed_for(edition, due);
        }
    }
}

// The number that a value is.
fn number_of(value: &Value<'_>) -> Option<u64> {
    match value {
        Value::Number(number) => Some(*number),
        _ => None,
    }
}

// The change of these values.
fn armed_for(edition: &Value<'_>, due: &Value<'_>) -> Option<Armed> {
    Some(Armed {
        edition: number_of(edition)?,
        due: number_of(due)?,
    })
}

// The superframe that a line names as the present one.
fn mark_of(line: &Printed<'_>) -> Option<u64> {
    match (line.form, line.values()) {
        (Form::Start, [_, _, mark]) => number_of(mark),
        (Form::Tick, [mark]) => number_of(mark),
        (Form::Turn | Form::BackTurn, [mark, _]) => number_of(mark),
        _ => None,
    }
}

// Whether such a line says that the store failed, now or before.
fn is_of_a_store_that_failed(form: Form) -> bool {
    matches!(
        form,
        Form::DeskStoreFault
            | Form::DeskStopped
            | Form::PlanStoreFault
            | Form::PlanStopped
            | Form::OrderStoreFault
            | Form::OrderStopped
            | Form::StoreFault
    )
}

// Whether such a line says that something was refused or is at fault.
fn is_refusal(form: Form) -> bool {
    is_of_a_store_that_failed(form)
        || matches!(
            form,
            Form::DeskSameTerminal
                | Form::DeskNotThere
                | Form::DeskRowFull
                | Form::DeskColumnFull
                | Form::DeskBookFull
                | Form::PlanBookFull
                | Form::OrderBookFull
                | Form::OrderOutOfTurn
                | Form::OrderNotInstalled
                | Form::NotInstalled
                | Form::LineFaultS1
                | Form::LineFaultS2
                | Form::LineFaultS3
                | Form::LineFaultS4
                | Form::LineFaultS5
                | Form::InputFault
        )
}
