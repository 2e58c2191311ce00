// Messages from lane to lane, and what happens to stations.
use crate::labels::{is_labelled_above, write_upon_plate};
use crate::layout::{LEFT, Layout, Placed, RIGHT};
use crate::step::{Delivery, Said, SentMessage, Step};
use crate::titles::{happening_title, message_title, width_of_number};
use crate::ways::{draw_unheard, draw_way};
use bt_picture::{Drawn, Pen, Point, Shape, Style, place, rectangle};
use bt_words::Word::Number;

// Twips of the circle of a message.
const RADIUS: u64 = 165;

/// Draws the way of each message to each that heard it.
pub fn draw_deliveries<'a>(layout: &Layout<'a>, pen: &mut Pen<'a>) -> Drawn {
    for placed in &layout.placed {
        if let Step::Got(delivery) = placed.step {
            if let Some((from, to)) = way_of(layout, placed, delivery) {
                draw_way(layout.net, from, to, Style::Arrow, delivery, pen)?;
            }
        }
    }
    Ok(())
}

/// Draws what a way that goes on in a later stave has in the one where it begins, and the number of its message at the edges
/// where it leaves and comes in.
pub fn draw_edges<'a>(layout: &Layout<'a>, pen: &mut Pen<'a>) -> Drawn {
    let mut tags = Tags { entry: 0, exit: 0 };
    for placed in &layout.placed {
        if let Step::Got(delivery) = placed.step {
            draw_edges_of(layout, placed, delivery, &mut tags, pen)?;
        }
    }
    Ok(())
}

// Where the last numbers were written at the left edge and at the right one.
#[derive(Clone, Copy)]
struct Tags {
    entry: u64,
    exit: u64,
}

// Where a number is written that should stand at a height: below the last one where it would lie upon that.
fn beside(last: u64, wanted: u64) -> u64 {
    if wanted.saturating_add(150) > last && wanted < last.saturating_add(150) {
        last.saturating_add(150)
    } else {
        wanted
    }
}

fn draw_edges_of<'a>(
    layout: &Layout<'a>,
    placed: &Placed,
    delivery: Delivery,
    tags: &mut Tags,
    pen: &mut Pen<'a>,
) -> Drawn {
    let (Some(posted), Some((from, _))) = (
        layout.posted_as(delivery.place),
        way_of(layout, placed, delivery),
    ) else {
        return Ok(());
    };
    if posted.stave == placed.stave {
        return Ok(());
    }
    tags.entry = beside(tags.entry, from.y);
    write_number(from.x.saturating_add(20), tags.entry, delivery.number, pen)?;
    let (Some(stave), Some(there), Some(lane)) = (
        layout.stave(placed.stave),
        layout.stave(posted.stave),
        posted.lane,
    ) else {
        return Ok(());
    };
    let begin = place(posted.x, layout.heights.lane_y(&there, lane));
    let depth = from.y.saturating_sub(stave.top);
    let edge = place(RIGHT, there.top.saturating_add(depth));
    draw_way(layout.net, begin, edge, Style::Line, delivery, pen)?;
    let width = width_of_number(delivery.number);
    tags.exit = beside(tags.exit, edge.y);
    let left = RIGHT.saturating_sub(width).saturating_sub(20);
    write_number(left, tags.exit, delivery.number, pen)
}

// Writes the number of a message upon a plate from its left edge, in the middle of its height.
fn write_number(left: u64, middle: u64, number: u64, pen: &mut Pen<'_>) -> Drawn {
    let words = pen.phrase("#", &[Number(number)])?;
    let width = width_of_number(number);
    write_upon_plate(left, middle.saturating_add(45), width, words, pen)
}

// From where to where a delivery is drawn: from the left edge where its message was sent in an earlier stave, as far down as a
// straight way would have come there.
fn way_of(layout: &Layout<'_>, placed: &Placed, delivery: Delivery) -> Option<(Point, Point)> {
    let posted = layout.posted_as(delivery.place)?;
    let stave = layout.stave(placed.stave)?;
    let lane = layout.lanes.find(delivery.hearer)?;
    let end = place(placed.x, layout.heights.lane_y(&stave, lane));
    let begin_y = layout.heights.lane_y(&stave, posted.lane?);
    if posted.stave == placed.stave {
        return Some((place(posted.x, begin_y), end));
    }
    if layout.stave(posted.stave).is_none() {
        return Some((place(LEFT, begin_y), end));
    }
    let before = RIGHT.saturating_sub(posted.x);
    let behind = end.x.saturating_sub(LEFT);
    Some((place(LEFT, part_way(begin_y, end.y, before, behind)), end))
}

// The height between two where so much of a straight way is past and so much is left.
fn part_way(from: u64, to: u64, past: u64, left: u64) -> u64 {
    let whole = past.saturating_add(left).max(1);
    let down = to.saturating_sub(from).saturating_mul(past) / whole;
    let up = from.saturating_sub(to).saturating_mul(past) / whole;
    from.saturating_add(down).saturating_sub(up)
}

/// Draws each message on the lane of its sender, and what happens to stations on their lanes.
pub fn draw_senders<'a>(layout: &Layout<'a>, pen: &mut Pen<'a>) -> Drawn {
    for placed in &layout.placed {
        if let Some((_, at)) = layout.lane_of(placed) {
            draw_sender(layout, placed, at, pen)?;
        }
    }
    Ok(())
}

fn draw_sender<'a>(layout: &Layout<'a>, placed: &Placed, at: Point, pen: &mut Pen<'a>) -> Drawn {
    match placed.step {
        Step::Sent(message) => draw_message(layout, at, message, pen),
        Step::Others(count) => draw_others(at, count, pen),
        Step::Happened(station, happening) => {
            let title = happening_title(layout.net, station, happening, pen)?;
            pen.titled(Shape::Dot(at, 100, Style::Mark), title)
        }
        _ => Ok(()),
    }
}

// Draws messages for terminals without a lane.
fn draw_others(at: Point, count: u64, pen: &mut Pen<'_>) -> Drawn {
    let corner = place(at.x.saturating_sub(210), at.y.saturating_sub(RADIUS));
    let text = if count == 1 {
        "# message with bursts for a terminal that has no lane"
    } else {
        "# messages with bursts for terminals that have no lane"
    };
    let title = pen.phrase(text, &[Number(count)])?;
    let words = pen.phrase("+#", &[Number(count)])?;
    let middle = place(at.x, at.y.saturating_add(60));
    let box_of = rectangle(corner, 420, 2 * RADIUS, Style::Band);
    pen.marked(box_of, middle, Style::Small, words, title)
}

// Draws a message, and its end where nobody heard it.
fn draw_message<'a>(
    layout: &Layout<'a>,
    at: Point,
    message: SentMessage,
    pen: &mut Pen<'a>,
) -> Drawn {
    let posted = layout.posted_as(message.place);
    let is_heard = posted.is_some_and(|posted| posted.is_heard);
    if !is_heard {
        draw_unheard(at, end_of_unheard(at, message.said), pen)?;
    }
    let title = message_title(layout.net, message, is_heard, pen)?;
    let circle = Shape::Dot(at, RADIUS, Style::Band);
    let number = pen.phrase("#", &[Number(message.number)])?;
    pen.marked(
        circle,
        place(at.x, at.y.saturating_add(60)),
        Style::Small,
        number,
        title,
    )
}

// Where the way of a message that nobody heard ends: towards its hearers.
fn end_of_unheard(at: Point, said: Said) -> Point {
    let y = if is_labelled_above(said) {
        at.y.saturating_add(430)
    } else {
        at.y.saturating_sub(430)
    };
    place(at.x.saturating_add(220), y)
}
