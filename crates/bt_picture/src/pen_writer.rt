// Writing what was drawn.
ghost use Rattle.std.specs.Prelude.{OnOk};
ghost use Rattle.bt_picture.specs.Drawn.{AddsParts, BeginsWith, IsPictureBehind};
ghost use Rattle.bt_picture.specs.Picture.{drawn};

use crate::drawing::{Drawing, Drawn, Label, Pen};
use crate::{Shape, write_alone, write_foot, write_head, write_titled};
use bt_words::Word;
use std::alloc::Global;

/// Appends a picture of that size, in twips: its title, and over it all that was drawn. Want of memory leaves a first part
/// of it.
pub fn write_picture(
    alloc: Global,
    width: u64,
    height: u64,
    title: Shape<'_>,
    pen: &Pen<'_>,
    out: &mut Vec<u8>,
) -> Drawn
    ensures picture { OnOk result (IsPictureBehind (BeginsWith (drawn title.entry)) out.old.items out.new.items) }
{
    write_head(alloc, width, height, out)?;
    write_alone(alloc, title, out)?;
    write_drawings(alloc, pen.drawings.as_slice(), out)?;
    write_foot(out)?;
    Ok(())
}

// Appends drawings in order.
#[tactic(auto, using(crate::proofs::Parts::adds_none))]
fn write_drawings(alloc: Global, drawings: &[Drawing<'_>], out: &mut Vec<u8>) -> Drawn
    ensures { OnOk result (AddsParts out.old.items out.new.items) }
{
    for drawing in drawings {
        write_drawing(alloc, drawing, out)?;
    }
    Ok(())
}

// Appends a drawing.
fn write_drawing(alloc: Global, drawing: &Drawing<'_>, out: &mut Vec<u8>) -> Drawn
    ensures { OnOk result (AddsParts out.old.items out.new.items) }
{
    match drawing {
        Drawing::Plain(shape) => write_plain(alloc, *shape, out),
        Drawing::Written(label) => write_plain(alloc, shape_of(label), out),
        Drawing::Titled(shape, title) => write_group(alloc, title.as_slice(), &[*shape], out),
        Drawing::Marked(shape, label, title) => {
            write_group(alloc, title.as_slice(), &[*shape, shape_of(label)], out)
        }
    }
}

// The shape of a label.
fn shape_of<'a>(label: &'a Label<'_>) -> Shape<'a> {
    Shape::Label(label.at, label.anchor, label.style, label.words.as_slice())
}

// Appends a shape.
fn write_plain(alloc: Global, shape: Shape<'_>, out: &mut Vec<u8>) -> Drawn
    ensures { OnOk result (AddsParts out.old.items out.new.items) }
{
    write_alone(alloc, shape, out)?;
    Ok(())
}

// Appends shapes with a title.
fn write_group(alloc: Global, title: &[Word<'_>], shapes: &[Shape<'_>], out: &mut Vec<u8>) -> Drawn
    ensures { OnOk result (AddsParts out.old.items out.new.items) }
{
    write_titled(alloc, title, shapes, out)?;
    Ok(())
}
