// The ways of messages in a ladder, with what they are called.
use crate::labels::{is_labelled_above, write_upon_plate};
use crate::rungs::{Departure, Ladder, PAGE, Rung};
use crate::step::{Delivery, SentMessage, Step};
use crate::titles::{message_title, numbered_label, width_of};
use crate::ways::{draw_unheard, draw_way};
use bt_picture::{Anchor, Drawn, Pen, Point, Shape, Style, place};
use bt_words::Word::{Number, Text};

// Twips from a lane to the letters beside it, and from a row up to the foot of the letters above it.
const GAP: u64 = 90;

const RISE: u64 = 50;

// Twips of the way that is drawn where a message goes to another page, or comes in from one.
const STUB: u64 = 800;

/// Draws the ways of all messages to those that heard them.
pub fn draw_ladder_ways<'a>(ladder: &Ladder<'a>, pen: &mut Pen<'a>) -> Drawn {
    for rung in &ladder.rungs {
        if let Step::Got(delivery) = rung.step {
            if let Some(departure) = ladder.departure(delivery.place) {
                draw_arrival(ladder, rung, departure, delivery, pen)?;
            }
        }
    }
    Ok(())
}

// Draws the way of a message to one that heard it.
fn draw_arrival<'a>(
    ladder: &Ladder<'a>,
    rung: &Rung,
    departure: Departure,
    delivery: Delivery,
    pen: &mut Pen<'a>,
) -> Drawn {
    let (Some(from), Some(to)) = (departure.lane, ladder.lanes.find(delivery.hearer)) else {
        return Ok(());
    };
    let end = ladder.at(to, rung.row);
    let is_rightward = from <= to;
    let is_far = departure.is_hidden() || departure.row / PAGE != rung.row / PAGE;
    let begin = if is_far {
        place(aside(end.x, STUB, !is_rightward), end.y.saturating_sub(160))
    } else {
        ladder.at(from, departure.row)
    };
    draw_way(ladder.net, begin, end, Style::Arrow, delivery, pen)?;
    if is_far && !departure.is_hidden() {
        draw_leaving(ladder.at(from, departure.row), is_rightward, pen)?;
    }
    if begin.y != end.y {
        write_beside(end, !is_rightward, 125, delivery.number, pen)?;
    }
    if delivery.refused {
        draw_refusal(end, is_rightward, delivery, pen)?;
    }
    Ok(())
}

// So many twips to the right of a place, or to its left.
fn aside(x: u64, twips: u64, is_rightward: bool) -> u64 {
    if is_rightward {
        x.saturating_add(twips)
    } else {
        x.saturating_sub(twips)
    }
}

// Draws the beginning of a way that ends in another page.
fn draw_leaving(from: Point, is_rightward: bool, pen: &mut Pen<'_>) -> Drawn {
    let end = place(
        aside(from.x, STUB, is_rightward),
        from.y.saturating_add(160),
    );
    pen.shape(Shape::Line(from, end, Style::Line))
}

// Writes a number below the end of a way, to the right or to the left of it.
fn write_beside(
    end: Point,
    is_rightward: bool,
    below: u64,
    number: u64,
    pen: &mut Pen<'_>,
) -> Drawn {
    let words = pen.phrase("#", &[Number(number)])?;
    let anchor = if is_rightward {
        Anchor::Start
    } else {
        Anchor::End
    };
    let at = place(aside(end.x, GAP, is_rightward), end.y.saturating_add(below));
    pen.label(at, anchor, Style::Small, words)
}

// Draws a grey head, and behind the lane what the hearer did.
fn draw_refusal<'a>(
    end: Point,
    is_rightward: bool,
    delivery: Delivery,
    pen: &mut Pen<'a>,
) -> Drawn {
    let x = aside(end.x, 130, !is_rightward);
    for y in [end.y.saturating_sub(70), end.y.saturating_add(70)] {
        pen.shape(Shape::Line(place(x, y), end, Style::Thin))?;
    }
    let words = pen.phrase("#", &[Text(delivery.answer)])?;
    let width = width_of(words.as_slice());
    let left = left_of(end.x, width, is_rightward);
    write_upon_plate(left, end.y.saturating_add(45), width, words, pen)
}

// The left edge of words of that width beside a lane.
fn left_of(x: u64, width: u64, is_rightward: bool) -> u64 {
    if is_rightward {
        x.saturating_add(GAP)
    } else {
        x.saturating_sub(GAP).saturating_sub(width)
    }
}

/// Writes at each message what it is called, and draws how it ends where nobody heard it.
pub fn draw_departures<'a>(ladder: &Ladder<'a>, pen: &mut Pen<'a>) -> Drawn {
    for rung in &ladder.rungs {
        match (rung.step, ladder.place_of(rung)) {
            (Step::Sent(message), Some(at)) => draw_departure(ladder, at, message, pen)?,
            (Step::Others(count), Some(at)) => write_others(at, count, pen)?,
            _ => (),
        }
    }
    Ok(())
}

fn draw_departure<'a>(
    ladder: &Ladder<'a>,
    at: Point,
    message: SentMessage,
    pen: &mut Pen<'a>,
) -> Drawn {
    let is_rightward = is_labelled_above(message.said);
    let words = numbered_label(message, pen)?;
    let width = width_of(words.as_slice());
    let departure = ladder.departure(message.place);
    let is_heard = departure.is_some_and(|departure| departure.is_heard);
    if !is_heard {
        let length = width.saturating_add(2 * GAP + 120);
        let end = place(aside(at.x, length, is_rightward), at.y);
        draw_unheard(at, end, pen)?;
    }
    let title = message_title(ladder.net, message, is_heard, pen)?;
    pen.titled(Shape::Dot(at, 55, Style::Mark), title)?;
    let left = left_of(at.x, width, is_rightward);
    write_upon_plate(left, at.y.saturating_sub(RISE), width, words, pen)
}

// Writes how many messages are sent to terminals without a lane.
fn write_others(at: Point, count: u64, pen: &mut Pen<'_>) -> Drawn {
    let text = if count == 1 {
        "+# message with bursts, for a terminal without a lane"
    } else {
        "+# messages with bursts, for terminals without a lane"
    };
    let words = pen.phrase(text, &[Number(count)])?;
    let width = width_of(&[Text(text)]);
    pen.shape(Shape::Dot(at, 55, Style::Mark))?;
    let left = left_of(at.x, width, true);
    write_upon_plate(left, at.y.saturating_add(45), width, words, pen)
}
