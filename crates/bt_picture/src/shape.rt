// What stands in a picture.
use crate::Style;
use bt_words::Word;

/// Twips of a pixel. Every place and size of a picture is a whole number of twips.
pub const TWIPS: u64 = 20;

/// A place, in twips from the left and from the top.
#[derive(Clone, Copy)]
pub struct Point {
    /// From the left.
    pub x: u64,
    /// From the top.
    pub y: u64,
}

/// A rectangle by its upper left corner and its size, in twips.
#[derive(Clone, Copy)]
pub struct Rect {
    /// Its left edge.
    pub x: u64,
    /// Its upper edge.
    pub y: u64,
    /// From its left edge to its right one.
    pub width: u64,
    /// From its upper edge to its lower one.
    pub height: u64,
}

/// Which part of a label stands at its place.
#[derive(Clone, Copy)]
pub enum Anchor {
    /// Its first letter begins there.
    Start,
    /// Its middle is there.
    Middle,
    /// Its last letter ends there.
    End,
}

/// A shape at its place, in its style.
#[derive(Clone, Copy)]
pub enum Shape<'a> {
    /// A rectangle.
    Rectangle(Rect, Style),
    /// A line from one place to another.
    Line(Point, Point, Style),
    /// A text of these words, with nothing between them, on a line of letters at that place.
    Label(Point, Anchor, Style, &'a [Word<'a>]),
    /// Two strokes from corner to corner of the square of that upper left corner and that width.
    Cross(Point, u64, Style),
    /// A disc around a place, of that radius.
    Dot(Point, u64, Style),
}
