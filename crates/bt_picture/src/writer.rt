// Writing a picture, part by part.
ghost use Rattle.std.specs.Prelude.{◌≡◌, ◌++◌, map, flat_map, OnOk};
ghost use Rattle.bt_picture.specs.Picture.{anchor_text, drawn, foot_text, head_text, label_text, line_text, cross_text, dot_text, part_text, rectangle_text, shape_text, size_text, strokes_text, words_text, Alone, Titled, field, letters_text, opening, view_text};

use crate::sheet::sheet;
use crate::style::write_class;
use crate::{Anchor, Point, Rect, Shape, Style, TWIPS};
use bt_frame::OutOfMemory;
use bt_text::number_text;
use bt_words::{Word, add_word};
use std::alloc::Global;

/// Appends the head of a picture of that size, in twips: what stands before its parts.
pub fn write_head(
    alloc: Global,
    width: u64,
    height: u64,
    out: &mut Vec<u8>,
) -> Result<(), OutOfMemory>
    ensures written { OnOk result (out.new.items ≡ out.old.items ++ head_text width height) }
{
    write_size(alloc, width, height, out)?;
    out.extend_from_slice(sheet().as_bytes())?;
    Ok(())
}

// Appends the opening of a picture of that size.
fn write_size(alloc: Global, width: u64, height: u64, out: &mut Vec<u8>) -> Result<(), OutOfMemory>
    ensures { OnOk result (out.new.items ≡ out.old.items ++ size_text width height) }
{
    out.extend_from_slice(b"<svg xmlns='http://www.w3.org/2000/svg'")?;
    write_number(alloc, b" width='", width / TWIPS, out)?;
    write_number(alloc, b"' height='", height / TWIPS, out)?;
    write_view(alloc, width, height, out)
}

// Appends the places that a picture of that size has.
fn write_view(alloc: Global, width: u64, height: u64, out: &mut Vec<u8>) -> Result<(), OutOfMemory>
    ensures { OnOk result (out.new.items ≡ out.old.items ++ view_text width height) }
{
    write_number(alloc, b"' viewBox='0 0 ", width, out)?;
    write_number(alloc, b" ", height, out)?;
    out.extend_from_slice(b"'>\n")?;
    Ok(())
}

/// Appends the foot of a picture: what stands behind its parts.
pub fn write_foot(out: &mut Vec<u8>) -> Result<(), OutOfMemory>
    ensures written { OnOk result (out.new.items ≡ out.old.items ++ foot_text) }
{
    out.extend_from_slice(b"</svg>\n")?;
    Ok(())
}

/// Appends a part of one shape.
pub fn write_alone(alloc: Global, shape: Shape<'_>, out: &mut Vec<u8>) -> Result<(), OutOfMemory>
    ensures written { OnOk result (out.new.items ≡ out.old.items ++ part_text (Alone (drawn shape.entry))) }
{
    write_shape(alloc, &shape, out)?;
    out.push(b'\n')?;
    Ok(())
}

/// Appends a part of these shapes with a title: the words, with nothing between them, that stand beside the mouse while it
/// points at one of the shapes.
pub fn write_titled(
    alloc: Global,
    title: &[Word<'_>],
    shapes: &[Shape<'_>],
    out: &mut Vec<u8>,
) -> Result<(), OutOfMemory>
    ensures written { OnOk result (out.new.items ≡ out.old.items
        ++ part_text (Titled (words_text title.now) (map drawn shapes.now))) }
{
    out.extend_from_slice(b"<g><title>")?;
    write_words(alloc, title, out)?;
    out.extend_from_slice(b"</title>")?;
    write_shapes(alloc, shapes, out)?;
    out.extend_from_slice(b"</g>\n")?;
    Ok(())
}

// Appends the shapes.
fn write_shapes(alloc: Global, shapes: &[Shape<'_>], out: &mut Vec<u8>) -> Result<(), OutOfMemory>
    ensures { OnOk result (out.new.items ≡ out.old.items ++ flat_map shape_text (map drawn shapes.now)) }
{
    for shape in shapes {
        write_shape(alloc, shape, out)?;
    }
    Ok(())
}

// Appends the words, with nothing between them.
fn write_words(alloc: Global, words: &[Word<'_>], out: &mut Vec<u8>) -> Result<(), OutOfMemory>
    ensures { OnOk result (out.new.items ≡ out.old.items ++ words_text words.now) }
{
    for word in words {
        add_word(alloc, word, out)?;
    }
    Ok(())
}

// Appends a shape.
fn write_shape(alloc: Global, shape: &Shape<'_>, out: &mut Vec<u8>) -> Result<(), OutOfMemory>
    ensures { OnOk result (out.new.items ≡ out.old.items ++ shape_text (drawn shape.now)) }
{
    match *shape {
        Shape::Rectangle(rect, style) => write_rectangle(alloc, rect, style, out),
        Shape::Line(from, to, style) => write_line(alloc, from, to, style, out),
        Shape::Label(at, anchor, style, words) => {
            write_label(alloc, at, anchor, style, words, out)
        }
        Shape::Cross(at, size, style) => write_cross(alloc, at, size, style, out),
        Shape::Dot(at, radius, style) => write_dot(alloc, at, radius, style, out),
    }
}

fn write_rectangle(
    alloc: Global,
    rect: Rect,
    style: Style,
    out: &mut Vec<u8>,
) -> Result<(), OutOfMemory>
    ensures { OnOk result (out.new.items ≡ out.old.items ++ rectangle_text rect style) }
{
    write_opening(alloc, b"<rect class='", style, out)?;
    write_number(alloc, b"' x='", rect.x, out)?;
    write_number(alloc, b"' y='", rect.y, out)?;
    write_number(alloc, b"' width='", rect.width, out)?;
    write_number(alloc, b"' height='", rect.height, out)?;
    out.extend_from_slice(b"'/>")?;
    Ok(())
}

fn write_line(
    alloc: Global,
    from: Point,
    to: Point,
    style: Style,
    out: &mut Vec<u8>,
) -> Result<(), OutOfMemory>
    ensures { OnOk result (out.new.items ≡ out.old.items ++ line_text from to style) }
{
    write_opening(alloc, b"<line class='", style, out)?;
    write_number(alloc, b"' x1='", from.x, out)?;
    write_number(alloc, b"' y1='", from.y, out)?;
    write_number(alloc, b"' x2='", to.x, out)?;
    write_number(alloc, b"' y2='", to.y, out)?;
    out.extend_from_slice(b"'/>")?;
    Ok(())
}

fn write_label(
    alloc: Global,
    at: Point,
    anchor: Anchor,
    style: Style,
    words: &[Word<'_>],
    out: &mut Vec<u8>,
) -> Result<(), OutOfMemory>
    ensures { OnOk result (out.new.items ≡ out.old.items ++ label_text at anchor style (words_text words.now)) }
{
    write_opening(alloc, b"<text class='", style, out)?;
    write_number(alloc, b"' x='", at.x, out)?;
    write_number(alloc, b"' y='", at.y, out)?;
    write_letters(alloc, anchor, words, out)
}

// Appends the letters of a label, and what closes it.
fn write_letters(
    alloc: Global,
    anchor: Anchor,
    words: &[Word<'_>],
    out: &mut Vec<u8>,
) -> Result<(), OutOfMemory>
    ensures { OnOk result (out.new.items ≡ out.old.items ++ letters_text anchor (words_text words.now)) }
{
    out.extend_from_slice(anchor_text(anchor).as_bytes())?;
    write_words(alloc, words, out)?;
    out.extend_from_slice(b"</text>")?;
    Ok(())
}

// What closes the opening of a label.
fn anchor_text(anchor: Anchor) -> &'static str
    ensures { result.now ≡ anchor_text anchor }
{
    match anchor {
        Anchor::Start => "'>",
        Anchor::Middle => "' text-anchor='middle'>",
        Anchor::End => "' text-anchor='end'>",
    }
}

fn write_cross(
    alloc: Global,
    at: Point,
    size: u64,
    style: Style,
    out: &mut Vec<u8>,
) -> Result<(), OutOfMemory>
    ensures { OnOk result (out.new.items ≡ out.old.items ++ cross_text at size style) }
{
    write_opening(alloc, b"<path class='", style, out)?;
    write_number(alloc, b"' d='M", at.x, out)?;
    write_number(alloc, b" ", at.y, out)?;
    write_strokes(alloc, size, out)?;
    Ok(())
}

// Appends the two strokes of a cross of that width, and what closes it.
fn write_strokes(alloc: Global, size: u64, out: &mut Vec<u8>) -> Result<(), OutOfMemory>
    ensures { OnOk result (out.new.items ≡ out.old.items ++ strokes_text size) }
{
    write_number(alloc, b"l", size, out)?;
    write_number(alloc, b" ", size, out)?;
    write_number(alloc, b"m0-", size, out)?;
    write_number(alloc, b"l-", size, out)?;
    write_number(alloc, b" ", size, out)?;
    out.extend_from_slice(b"'/>")?;
    Ok(())
}

fn write_dot(
    alloc: Global,
    at: Point,
    radius: u64,
    style: Style,
    out: &mut Vec<u8>,
) -> Result<(), OutOfMemory>
    ensures { OnOk result (out.new.items ≡ out.old.items ++ dot_text at radius style) }
{
    write_opening(alloc, b"<circle class='", style, out)?;
    write_number(alloc, b"' cx='", at.x, out)?;
    write_number(alloc, b"' cy='", at.y, out)?;
    write_number(alloc, b"' r='", radius, out)?;
    out.extend_from_slice(b"'/>")?;
    Ok(())
}

// Appends these bytes, and the class of a style.
fn write_opening(
    alloc: Global,
    tag: &[u8],
    style: Style,
    out: &mut Vec<u8>,
) -> Result<(), OutOfMemory>
    ensures { OnOk result (out.new.items ≡ out.old.items ++ opening tag.now style) }
{
    out.extend_from_slice(tag)?;
    write_class(alloc, style, out)
}

// Appends these bytes, and a number.
fn write_number(
    alloc: Global,
    name: &[u8],
    number: u64,
    out: &mut Vec<u8>,
) -> Result<(), OutOfMemory>
    ensures { OnOk result (out.new.items ≡ out.old.items ++ field name.now number) }
{
    out.extend_from_slice(name)?;
    number_text(alloc, number, out)
}
