// The frames that were shown: the bursts on the air, and who was silent.
use crate::editions::beam_of;
use crate::frames::{draw_bar, draw_ring};
use crate::layout::{COLUMN, FRAME_COLUMNS, Layout, Placed};
use crate::step::{Frame, OnAir, Step};
use bt_net::Network;
use bt_picture::{Anchor, Drawn, Pen, Point, Rect, Style, place, rectangle};
use bt_words::Word;

// Twips from the left edge of a frame's columns to its first slot, and the twips of its slots.
const MARGIN: u64 = 60;

const BREADTH: u64 = FRAME_COLUMNS * COLUMN - 2 * MARGIN;

/// Draws the frames that were shown, with the bursts in a row for each uplink beam.
pub fn draw_air<'a>(layout: &Layout<'a>, pen: &mut Pen<'a>) -> Drawn {
    for placed in &layout.placed {
        match placed.step {
            Step::Shown(frame) => draw_frame(layout, placed, frame, pen)?,
            Step::Burst(burst) => draw_burst(layout, placed, burst, pen)?,
            _ => (),
        }
    }
    Ok(())
}

// Where the row of a beam has its first slot.
fn row_of(layout: &Layout<'_>, placed: &Placed, beam: u32) -> Point {
    let y = match layout.stave(placed.stave) {
        Some(stave) => layout.heights.row_y(&stave, u64::from(beam)),
        None => 0,
    };
    place(placed.x.saturating_add(MARGIN), y)
}

// Draws a frame, with a row for each beam.
fn draw_frame<'a>(layout: &Layout<'a>, placed: &Placed, frame: Frame, pen: &mut Pen<'a>) -> Drawn {
    let beams = layout.net.beam_count();
    for beam in 0..beams {
        let corner = row_of(layout, placed, beam);
        pen.shape(rectangle(corner, BREADTH, layout.heights.row(), Style::Lane))?;
    }
    let below = row_of(layout, placed, beams);
    let at = place(
        below.x.saturating_add(BREADTH / 2),
        below.y.saturating_add(200),
    );
    let words = pen.phrase("frame #", &[Word::Frame(frame.mark, frame.number)])?;
    pen.label(at, Anchor::Middle, Style::Small, words)
}

// Draws a burst in the row of its uplink beam.
fn draw_burst<'a>(layout: &Layout<'a>, placed: &Placed, burst: OnAir, pen: &mut Pen<'a>) -> Drawn {
    let net = layout.net;
    let end = burst.start.saturating_add(burst.length);
    let row = row_of(layout, placed, u32::from(beam_of(net, burst.from)));
    let (left, right) = (slot_x(net, burst.start), slot_x(net, end));
    let bar = Rect {
        x: row.x.saturating_add(left),
        y: row.y,
        width: right.saturating_sub(left),
        height: layout.heights.row(),
    };
    draw_bar(net, bar, burst, pen)
}

// Twips from the first slot of a frame to this one.
fn slot_x(net: &Network, slot: u64) -> u64 {
    let slots = u64::from(net.slots());
    let within = if slot < slots { slot } else { slots };
    within.saturating_mul(BREADTH) / slots
}

/// Draws a ring on the lane of each terminal that holds its bursts of the edition in front and is silent in a frame.
pub fn draw_silences<'a>(layout: &Layout<'a>, pen: &mut Pen<'a>) -> Drawn {
    for placed in &layout.placed {
        if let (Step::Silent(silence), Some((_, at))) = (placed.step, layout.lane_of(placed)) {
            let middle = place(at.x.saturating_add(MARGIN + BREADTH / 2), at.y);
            draw_ring(layout.net, middle, 110, silence, pen)?;
        }
    }
    Ok(())
}
