// A printed line: its form and its values.
ghost use Rattle.std.specs.Prelude.{◌≡◌, ◌<◌, [], ◌∷◌, ◌++◌, length};
ghost use Rattle.bt_words.specs.declared.token.TheConstants.{MOST_VALUES};

use arrayvec::ArrayVec;
use bt_air::{Heard, Taken};
use bt_frame::{BeamNo, Mark, TermNo};
use bt_words::{Form, MOST_VALUES};
use std::marker::Model;

/// A word as it is spelled, where it stands in its line: a tag, its `@` included, or a moment.
#[derive(Drop)]
pub struct LineWord<'a> {
    bytes: &'a [u8],
}

impl<'a> Model for LineWord<'a> {
    ghost use Rattle.std.specs.Prelude.{ℕ, List};

    ghost Value = { List ℕ };

    ghost view = { λ a. a.bytes.now };
}

impl<'a> LineWord<'a> {
    // The word of these bytes.
    pub(crate) fn of(bytes: &'a [u8]) -> LineWord<'a>
        ensures { result ≡ bytes.now }
    {
        LineWord { bytes }
    }

    /// Its bytes.
    pub fn as_bytes(&self) -> &'a [u8]
        ensures bytes { result.now ≡ self.now }
    {
        self.bytes
    }
}

/// What a word of a printed line says that is no fixed one.
#[derive(Drop)]
pub enum Value<'a> {
    /// A number, a count, or the number of a desk.
    Number(u64),
    /// A superframe and the number of a frame of it, from 0.
    Frame(Mark, u32),
    /// A beam of the network.
    Beam(BeamNo),
    /// A terminal of the network.
    Terminal(TermNo),
    /// What the satellite did with a message.
    Taken(Taken),
    /// What a terminal did with a message.
    Heard(Heard),
    /// The tag of those who speak.
    Tag(LineWord<'a>),
    /// The moment that a clock told.
    Moment(LineWord<'a>),
}

/// A printed line: its form, and what its words say that are not fixed, in the order of the line.
#[derive(Drop)]
pub struct Printed<'a> {
    pub form: Form,
    pub(crate) said: Values<'a>,
}

impl<'a> Printed<'a> {
    /// What the words of the line say that are not fixed, in order.
    pub fn values(&self) -> &[Value<'a>]
        ensures same { result.now ≡ self.now.said }
    {
        self.said.as_slice()
    }
}

impl Default for Value<'_> {
    fn default() -> Self {
        Value::Number(0)
    }
}

/// The values of a line, in place.
#[derive(Drop)]
pub(crate) struct Values<'a> {
    places: ArrayVec<Value<'a>, MOST_VALUES>,
}

impl<'a> Model for Values<'a> {
    ghost use Rattle.std.specs.Prelude.{List};
    ghost use Rattle.bt_run_lines.specs.declared.printed.Value.{Value as OneValue};

    ghost Value = { List OneValue };

    ghost view = { λ a. a.places.items };
}

impl<'a> Values<'a> {
    // No values.
    pub(crate) fn none() -> Values<'a>
        ensures { result ≡ [] }
    {
        Values {
            places: ArrayVec::new(),
        }
    }

    // Adds a value behind the others.
    pub(crate) fn add(&mut self, value: Value<'a>)
        requires { length self.old < MOST_VALUES }
        ensures { self.new ≡ self.old ++ value.entry ∷ [] }
    {
        self.places.push(value);
    }

    // The values in order.
    pub(crate) fn as_slice(&self) -> &[Value<'a>]
        ensures { result.now ≡ self.now }
    {
        self.places.as_slice()
    }
}
