// Superframes that are folded.
use crate::layout::{COLUMN, FOLD_COLUMNS, Layout, Stave};
use crate::step::{Folded, Step};
use bt_picture::{Anchor, Drawn, Pen, Point, Style, place, rectangle};
use bt_words::Word::Number;

// Twips from the edge of their columns to the box, and of the box.
const MARGIN: u64 = 30;

const BREADTH: u64 = FOLD_COLUMNS * COLUMN - 2 * MARGIN;

/// Draws a box upon the lanes for superframes that are folded, with how many they are.
pub fn draw_folds<'a>(layout: &Layout<'a>, pen: &mut Pen<'a>) -> Drawn {
    for placed in &layout.placed {
        if let (Step::Folded(folded), Some(stave)) = (placed.step, layout.stave(placed.stave)) {
            draw_fold(layout, &stave, placed.x.saturating_add(MARGIN), folded, pen)?;
        }
    }
    Ok(())
}

fn draw_fold<'a>(
    layout: &Layout<'a>,
    stave: &Stave,
    left: u64,
    folded: Folded,
    pen: &mut Pen<'a>,
) -> Drawn {
    let top = stave.top.saturating_add(400);
    let height = layout
        .heights
        .front_y(stave)
        .saturating_sub(top)
        .saturating_sub(120);
    let numbers = [
        Number(folded.count),
        Number(folded.first),
        Number(folded.last),
    ];
    let title = pen.phrase(
        "# superframes, # to #, with nothing but routine: each status as the one before it, each reference burst heard by all",
        &numbers,
    )?;
    let corner = place(left, top);
    pen.titled(rectangle(corner, BREADTH, height, Style::Free), title)?;
    let middle = place(
        left.saturating_add(BREADTH / 2),
        top.saturating_add(height / 2),
    );
    write_count(middle, folded.count, pen)
}

// Writes how many superframes are folded, in three lines about a place.
fn write_count(middle: Point, count: u64, pen: &mut Pen<'_>) -> Drawn {
    let y = middle.y.saturating_sub(100);
    let words = pen.phrase("#", &[Number(count)])?;
    pen.label(place(middle.x, y), Anchor::Middle, Style::Head, words)?;
    for (number, text) in ["superframes", "routine"].iter().enumerate() {
        let words = pen.phrase(text, &[])?;
        let below = place(middle.x, y.saturating_add(200 + 180 * number as u64));
        pen.label(below, Anchor::Middle, Style::Small, words)?;
    }
    Ok(())
}
