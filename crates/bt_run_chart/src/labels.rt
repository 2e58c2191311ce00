// What is written beside messages and stations, in rows above and below the lanes, upon plates that lie upon all ways.
use crate::layout::{LEFT, Layout, Placed, RIGHT};
use crate::step::{Said, Step};
use crate::titles::{happening_label, label_of, width_of};
use bt_frame::OutOfMemory;
use bt_picture::{Anchor, Drawn, Pen, Style, place, rectangle};
use bt_words::Word;
use bt_words::Word::Text;
use std::alloc::Global;

// Twips from a lane to the foot of the nearer row above it and below it, and from there to the farther one.
const ABOVE: u64 = 215;

const BELOW: u64 = 300;

const FARTHER: u64 = 160;

// Twips of a plate above the foot of its letters, and of all of it.
const RISE: u64 = 122;

const PLATE: u64 = 158;

// Twips from the left that no label is before, and none is behind.
const FIRST: u64 = LEFT - 100;

const LAST: u64 = RIGHT + 440;

/// The label of a message stands above its lane, and not below it. Its way goes to the other side.
pub fn is_labelled_above(said: Said) -> bool {
    !matches!(
        said,
        Said::Status(_) | Said::Confirm { .. } | Said::Lost { .. }
    )
}

// A label, and whether it stands above its lane.
#[derive(Drop)]
struct Label<'a> {
    words: Vec<Word<'a>>,
    is_above: bool,
}

/// Writes the labels of messages, of what happens to stations, and of hearers that refuse, where there is room: the titles
/// have them too.
pub fn write_labels<'a>(alloc: Global, layout: &Layout<'a>, pen: &mut Pen<'a>) -> Drawn {
    let mut shelves = empty_shelves(alloc, layout)?;
    for placed in &layout.placed {
        if let Some(label) = label_beside(placed, pen)? {
            write_beside(layout, placed, label, shelves.as_mut_slice(), pen)?;
        }
    }
    Ok(())
}

// The label of a step, where it has one.
fn label_beside<'a>(placed: &Placed, pen: &Pen<'a>) -> Result<Option<Label<'a>>, OutOfMemory> {
    let (words, is_above) = match placed.step {
        Step::Sent(message) => (
            label_of(message.said, pen)?,
            is_labelled_above(message.said),
        ),
        Step::Others(_) => (pen.phrase("bursts", &[])?, true),
        Step::Happened(_, happening) => (happening_label(happening, pen)?, true),
        Step::Got(delivery) if delivery.refused => {
            (pen.phrase("#", &[Text(delivery.answer)])?, false)
        }
        _ => return Ok(None),
    };
    Ok(Some(Label { words, is_above }))
}

// Writes a label in a row of its lane, where one is free.
fn write_beside<'a>(
    layout: &Layout<'a>,
    placed: &Placed,
    label: Label<'a>,
    shelves: &mut [Shelf],
    pen: &mut Pen<'a>,
) -> Drawn {
    let Some((lane, at)) = layout.lane_of(placed) else {
        return Ok(());
    };
    let Some(shelf) = shelves.get_mut(lane) else {
        return Ok(());
    };
    let width = width_of(label.words.as_slice());
    let from = left_of(at.x, width);
    let taken = shelf.take(placed.stave, label.is_above, from, width);
    let Some(row) = taken else {
        return Ok(());
    };
    let y = if label.is_above {
        at.y.saturating_sub(row.saturating_add(ABOVE))
    } else {
        at.y.saturating_add(row.saturating_add(BELOW))
    };
    write_upon_plate(from, y, width, label.words, pen)
}

// Where a label of that width about a place begins, so that it is within the picture.
fn left_of(x: u64, width: u64) -> u64 {
    let last = LAST.saturating_sub(width);
    x.saturating_sub(width / 2).min(last).max(FIRST)
}

/// Writes words upon a plate of that width, from its left edge and the foot of the letters.
pub fn write_upon_plate<'a>(
    from: u64,
    y: u64,
    width: u64,
    words: Vec<Word<'a>>,
    pen: &mut Pen<'a>,
) -> Drawn {
    let corner = place(from, y.saturating_sub(RISE));
    pen.shape(rectangle(corner, width, PLATE, Style::Plate))?;
    let middle = place(from.saturating_add(width / 2), y);
    pen.label(middle, Anchor::Middle, Style::Small, words)
}

// Up to where the rows of labels of a lane are taken in a stave: two above it, two below it.
#[derive(Clone, Copy)]
struct Shelf {
    stave: usize,
    above: Rows,
    below: Rows,
}

#[derive(Clone, Copy)]
struct Rows {
    near: u64,
    far: u64,
}

const NO_ROWS: Rows = Rows { near: 0, far: 0 };

impl Shelf {
    // Takes a free row for a label of that width: how far it is behind the nearer one. None where both are taken.
    fn take(&mut self, stave: usize, is_above: bool, from: u64, width: u64) -> Option<u64> {
        if self.stave != stave {
            *self = empty_shelf(stave);
        }
        if is_above {
            self.above.take(from, width)
        } else {
            self.below.take(from, width)
        }
    }
}

impl Rows {
    fn take(&mut self, from: u64, width: u64) -> Option<u64> {
        let to = from.saturating_add(width);
        if self.near <= from {
            self.near = to;
            Some(0)
        } else if self.far <= from {
            self.far = to;
            Some(FARTHER)
        } else {
            None
        }
    }
}

fn empty_shelf(stave: usize) -> Shelf {
    Shelf {
        stave,
        above: NO_ROWS,
        below: NO_ROWS,
    }
}

// A shelf for each lane, with nothing on it.
fn empty_shelves(alloc: Global, layout: &Layout<'_>) -> Result<Vec<Shelf>, OutOfMemory> {
    let mut shelves = Vec::new(alloc);
    for _ in &layout.lanes.stations {
        shelves.push(empty_shelf(0))?;
    }
    Ok(shelves)
}
