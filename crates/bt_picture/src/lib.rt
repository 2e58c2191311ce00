//! Pictures: rectangles, lines, labels and marks at their places, each in a style, and how they are spelled as SVG 1.1.
//!
//! A picture is written part by part behind its head, and its foot closes it. Where its size is known only when all is
//! drawn, a pen gathers shapes, labels and titles in order, and they are written between a head and a foot then. It stands
//! on printed words (`bt_words`). `specs/Picture.antt` is promise: what stands in a picture, and its text to the byte.
//! `specs/Sheet.antt` has the style sheet, which is the same in every picture. `specs/Drawn.antt` is promise too: what a pen
//! comes to is a picture. Which shapes that has is not claimed.
//!
//! All numbers are whole, in twips (twentieths of a pixel) from the left and from the top. There is no script in a picture,
//! and no font that must be there.
#![tactic(auto)]

mod drawing;
mod pen_writer;
mod shape;
mod sheet;
mod style;
mod writer;

pub use drawing::{Drawing, Drawn, Label, Pen, place, rectangle};
pub use pen_writer::write_picture;
pub use shape::{Anchor, Point, Rect, Shape, TWIPS};
pub use sheet::SHEET;
pub use style::{FILLS, Style, TINTS};
pub use writer::{write_alone, write_foot, write_head, write_titled};
