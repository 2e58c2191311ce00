// What is to be drawn, in order.
use crate::{Anchor, Point, Rect, Shape, Style};
use bt_frame::OutOfMemory;
use bt_words::Word;
use std::alloc::Global;

/// What drawing comes to.
pub type Drawn = Result<(), OutOfMemory>;

/// Words with nothing between them, at their place.
#[derive(Drop)]
pub struct Label<'a> {
    pub at: Point,
    pub anchor: Anchor,
    pub style: Style,
    pub words: Vec<Word<'a>>,
}

/// One thing of a picture.
#[derive(Drop)]
pub enum Drawing<'a> {
    Plain(Shape<'a>),
    Written(Label<'a>),
    /// A shape with a title, which stands beside the mouse there.
    Titled(Shape<'a>, Vec<Word<'a>>),
    /// The same with a label.
    Marked(Shape<'a>, Label<'a>, Vec<Word<'a>>),
}

/// What was drawn so far, in the order in which it lies upon each other.
#[derive(Drop)]
pub struct Pen<'a> {
    alloc: Global,
    pub(crate) drawings: Vec<Drawing<'a>>,
}

impl<'a> Pen<'a> {
    /// Nothing yet.
    pub fn new(alloc: Global) -> Pen<'a> {
        let drawings = Vec::new(alloc);
        Pen { alloc, drawings }
    }

    /// A text in which each `#` is one of the words, in order.
    pub fn phrase(&self, text: &'a str, words: &[Word<'a>]) -> Result<Vec<Word<'a>>, OutOfMemory> {
        let mut phrase = Vec::new(self.alloc);
        let mut rest = text;
        for word in words {
            let (before, behind) = parted(rest);
            phrase.push(Word::Text(before))?;
            phrase.push(*word)?;
            rest = behind;
        }
        phrase.push(Word::Text(rest))?;
        Ok(phrase)
    }

    /// Draws a shape.
    pub fn shape(&mut self, shape: Shape<'a>) -> Drawn {
        self.drawings.push(Drawing::Plain(shape))?;
        Ok(())
    }

    /// Writes words at a place.
    pub fn label(
        &mut self,
        at: Point,
        anchor: Anchor,
        style: Style,
        words: Vec<Word<'a>>,
    ) -> Drawn {
        let label = Label {
            at,
            anchor,
            style,
            words,
        };
        self.drawings.push(Drawing::Written(label))?;
        Ok(())
    }

    /// Draws a shape with a title.
    pub fn titled(&mut self, shape: Shape<'a>, title: Vec<Word<'a>>) -> Drawn {
        self.drawings.push(Drawing::Titled(shape, title))?;
        Ok(())
    }

    /// Draws a shape with words about its middle, and with a title.
    pub fn marked(
        &mut self,
        shape: Shape<'a>,
        at: Point,
        style: Style,
        words: Vec<Word<'a>>,
        title: Vec<Word<'a>>,
    ) -> Drawn {
        let anchor = Anchor::Middle;
        let label = Label {
            at,
            anchor,
            style,
            words,
        };
        self.drawings.push(Drawing::Marked(shape, label, title))?;
        Ok(())
    }
}

// What stands before and behind the first `#` of a text.
fn parted(text: &str) -> (&str, &str) {
    match text.split_once('#') {
        Some(parts) => parts,
        None => (text, ""),
    }
}

/// The place of these twips from the left and from the top.
pub fn place(x: u64, y: u64) -> Point {
    Point { x, y }
}

/// A rectangle from its upper left corner.
pub fn rectangle(at: Point, width: u64, height: u64, style: Style) -> Shape<'static> {
    let (x, y) = (at.x, at.y);
    let rect = Rect {
        x,
        y,
        width,
        height,
    };
    Shape::Rectangle(rect, style)
}
