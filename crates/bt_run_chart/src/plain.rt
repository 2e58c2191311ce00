// A printed line without its tag and its moment, which no picture shows.
use bt_air::{Heard, Taken};
use bt_frame::{Mark, TermNo};
use bt_run_lines::{Form, Printed, Value};
use bt_words::MOST_VALUES;

/// What a word of a line says that is no fixed one.
#[derive(Clone, Copy)]
pub enum Plain {
    /// A number, a count, or the number of a desk.
    Number(u64),
    /// A superframe and the number of a frame of it, from 0.
    Frame(Mark, u32),
    /// A terminal of the network.
    Terminal(TermNo),
    /// What the satellite did with a message.
    Taken(Taken),
    /// What a terminal did with a message.
    Heard(Heard),
    /// What no picture shows: a beam, a tag, or a moment.
    Unshown,
}

/// A printed line: its form, and what its words say that are not fixed, in the order of the line.
#[derive(Clone, Copy)]
pub struct PlainLine {
    pub form: Form,
    places: [Plain; MOST_VALUES],
    count: usize,
}

impl PlainLine {
    /// The line without its tag and its moment.
    pub fn of(line: &Printed<'_>) -> PlainLine {
        let mut places = [Plain::Unshown; MOST_VALUES];
        let mut count = 0;
        for value in line.values() {
            if count < MOST_VALUES {
                places[count] = plain_of(value);
                count += 1;
            }
        }
        PlainLine {
            form: line.form,
            places,
            count,
        }
    }

    /// What the words of the line say that are not fixed, in order.
    pub fn values(&self) -> &[Plain] {
        match self.places.get(..self.count) {
            Some(values) => values,
            None => &[],
        }
    }
}

fn plain_of(value: &Value<'_>) -> Plain {
    match value {
        Value::Number(number) => Plain::Number(*number),
        Value::Frame(mark, number) => Plain::Frame(*mark, *number),
        Value::Terminal(terminal) => Plain::Terminal(*terminal),
        Value::Taken(taken) => Plain::Taken(*taken),
        Value::Heard(heard) => Plain::Heard(*heard),
        Value::Beam(_) | Value::Tag(_) | Value::Moment(_) => Plain::Unshown,
    }
}
