// What stands in a ladder beside messages: names, superframes, frames and notes.
use crate::editions::tint_of;
use crate::frames::{draw_bar, draw_ring};
use crate::lanes::{letters_of, station_name};
use crate::rungs::{Ladder, Rung};
use crate::step::{Folded, Frame, Note, OnAir, Said, Station, Step};
use crate::titles::{happening_label, happening_title, note_label, width_of};
use bt_picture::{Anchor, Drawn, Pen, Point, Rect, Shape, Style, place, rectangle};
use bt_words::Word;
use bt_words::Word::Number;

// Twips from the left to the names of superframes, and to where their rules begin.
const MARGIN: u64 = 320;

// Twips of a box above and below its row, and to the left and to the right of its letters.
const HALF: u64 = 115;

const ASIDE: u64 = 40;

// The most bursts of a terminal that are drawn side by side, and twips from one to the next.
const MOST_BESIDE: u64 = 6;

const BURST: u64 = 190;

/// Draws the lanes from top to bottom, and the superframes and the bands of frames across them.
pub fn draw_rules<'a>(ladder: &Ladder<'a>, pen: &mut Pen<'a>) -> Drawn {
    for lane in 0..ladder.lanes.stations.len() {
        let x = ladder.lane_x(lane);
        let (top, foot) = (place(x, ladder.names_y(0)), place(x, ladder.bottom()));
        pen.shape(Shape::Line(top, foot, Style::Thin))?;
    }
    for rung in &ladder.rungs {
        match rung.step {
            Step::Begin(mark) => draw_superframe(ladder, rung.row, mark, pen)?,
            Step::Folded(folded) => draw_fold(ladder, rung.row, folded, pen)?,
            Step::Shown(_) => draw_band(ladder, rung.row, pen)?,
            _ => (),
        }
    }
    Ok(())
}

fn draw_superframe<'a>(ladder: &Ladder<'a>, row: u64, mark: u64, pen: &mut Pen<'a>) -> Drawn {
    let y = ladder.row_y(row);
    let end = place(ladder.width().saturating_sub(MARGIN), y);
    pen.shape(Shape::Line(place(MARGIN, y), end, Style::Line))?;
    let words = pen.phrase("superframe #", &[Number(mark)])?;
    let breadth = width_of(words.as_slice()).saturating_mul(5) / 4;
    let corner = place(MARGIN, y.saturating_sub(HALF));
    pen.shape(rectangle(corner, breadth, 2 * HALF, Style::Plate))?;
    let at = place(MARGIN, y.saturating_add(75));
    pen.label(at, Anchor::Start, Style::Text, words)
}

fn draw_fold<'a>(ladder: &Ladder<'a>, row: u64, folded: Folded, pen: &mut Pen<'a>) -> Drawn {
    let y = ladder.row_y(row);
    let corner = place(MARGIN, y.saturating_sub(HALF));
    let breadth = ladder.width().saturating_sub(2 * MARGIN);
    pen.shape(rectangle(corner, breadth, 2 * HALF, Style::Free))?;
    let numbers = [
        Number(folded.first),
        Number(folded.last),
        Number(folded.count),
    ];
    let words = pen.phrase("superframes # to #: # superframes, routine", &numbers)?;
    let at = place(MARGIN + ASIDE, y.saturating_add(75));
    pen.label(at, Anchor::Start, Style::Text, words)
}

/// Writes the names above each page.
pub fn write_names<'a>(ladder: &Ladder<'a>, pen: &mut Pen<'a>) -> Drawn {
    for page in 0..ladder.pages() {
        for (lane, station) in ladder.lanes.stations.iter().enumerate() {
            let at = place(
                ladder.lane_x(lane),
                ladder.names_y(page).saturating_add(HALF),
            );
            let name = station_name(ladder.net, *station);
            let words = pen.phrase("#", &[Word::Text(name)])?;
            pen.shape(box_about(at, words.as_slice(), Style::Plate))?;
            pen.label(foot_of(at), Anchor::Middle, letters_of(name), words)?;
        }
    }
    Ok(())
}

/// Draws what is in the frames, and what happens to stations or is told beside the air.
pub fn draw_notes<'a>(ladder: &Ladder<'a>, pen: &mut Pen<'a>) -> Drawn {
    for rung in &ladder.rungs {
        draw_note(ladder, rung, pen)?;
    }
    Ok(())
}

fn draw_note<'a>(ladder: &Ladder<'a>, rung: &Rung, pen: &mut Pen<'a>) -> Drawn {
    let row = rung.row;
    match (rung.step, ladder.place_of(rung)) {
        (Step::Shown(frame), _) => name_frame(ladder, row, frame, pen),
        (Step::Burst(burst), _) => draw_burst(ladder, rung, burst, pen),
        (Step::Silent(silence), Some(at)) => draw_ring(ladder.net, at, 90, silence, pen),
        (Step::Noted(note), _) => {
            let words = note_label(note, pen)?;
            draw_box(
                ladder.at(lane_of(ladder, note), row),
                Style::Band,
                words,
                pen,
            )
        }
        (Step::Happened(station, happening), Some(at)) => {
            let words = happening_label(happening, pen)?;
            let title = happening_title(ladder.net, station, happening, pen)?;
            draw_titled_box(at, words, title, pen)
        }
        (Step::Sent(message), _) if rung.is_new_front => match message.said {
            Said::Status(status) => {
                let at = place(satellite_x(ladder), ladder.row_y(row.saturating_sub(1)));
                draw_front(at, status.fore, pen)
            }
            _ => Ok(()),
        },
        _ => Ok(()),
    }
}

// The lane of what is told beside the air: that of the centre, or of the satellite where it is of deliveries.
fn lane_of(ladder: &Ladder<'_>, note: Note) -> usize {
    match note {
        Note::Lost(_) => satellite_lane(ladder),
        _ => 0,
    }
}

fn satellite_lane(ladder: &Ladder<'_>) -> usize {
    match ladder.lanes.find(Station::Satellite) {
        Some(lane) => lane,
        None => 0,
    }
}

fn satellite_x(ladder: &Ladder<'_>) -> u64 {
    ladder.lane_x(satellite_lane(ladder))
}

// Draws a box with words about a place.
fn draw_box<'a>(at: Point, style: Style, words: Vec<Word<'a>>, pen: &mut Pen<'a>) -> Drawn {
    pen.shape(box_about(at, words.as_slice(), style))?;
    pen.label(foot_of(at), Anchor::Middle, Style::Small, words)
}

fn draw_titled_box<'a>(
    at: Point,
    words: Vec<Word<'a>>,
    title: Vec<Word<'a>>,
    pen: &mut Pen<'a>,
) -> Drawn {
    let shape = box_about(at, words.as_slice(), Style::Band);
    pen.marked(shape, foot_of(at), Style::Small, words, title)
}

// The box of words about a place.
fn box_about(at: Point, words: &[Word<'_>], style: Style) -> Shape<'static> {
    let width = width_of(words).saturating_add(2 * ASIDE);
    let corner = place(at.x.saturating_sub(width / 2), at.y.saturating_sub(HALF));
    rectangle(corner, width, 2 * HALF, style)
}

// The foot of letters in the middle of a box.
fn foot_of(at: Point) -> Point {
    place(at.x, at.y.saturating_add(55))
}

// Draws that another edition is in front.
fn draw_front(at: Point, fore: u64, pen: &mut Pen<'_>) -> Drawn {
    let words = pen.phrase("edition # in front", &[Number(fore)])?;
    draw_box(at, tint_of(fore), words, pen)
}

// Draws the band of a frame across the lanes.
fn draw_band<'a>(ladder: &Ladder<'a>, row: u64, pen: &mut Pen<'a>) -> Drawn {
    let y = ladder.row_y(row);
    let corner = place(ladder.lane_x(0), y.saturating_sub(HALF));
    let breadth = ladder
        .last_x()
        .saturating_sub(corner.x)
        .saturating_add(1200);
    pen.shape(rectangle(corner, breadth, 2 * HALF, Style::Shade))
}

// Names a frame upon its band.
fn name_frame<'a>(ladder: &Ladder<'a>, row: u64, frame: Frame, pen: &mut Pen<'a>) -> Drawn {
    let numbers = [Word::Frame(frame.mark, frame.number), Number(frame.fore)];
    let words = pen.phrase("frame #, edition #", &numbers)?;
    let at = place(satellite_x(ladder), ladder.row_y(row));
    draw_box(at, tint_of(frame.fore), words, pen)
}

// Draws a burst beside the lane of its sender.
fn draw_burst<'a>(ladder: &Ladder<'a>, rung: &Rung, burst: OnAir, pen: &mut Pen<'a>) -> Drawn {
    let Some(lane) = ladder.lanes.find(Station::Terminal(burst.from)) else {
        return Ok(());
    };
    let at = ladder.at(lane, rung.row);
    let right = rung.beside.min(MOST_BESIDE).saturating_mul(BURST);
    let bar = Rect {
        x: at.x.saturating_add(right),
        y: at.y.saturating_sub(80),
        width: BURST - 30,
        height: 160,
    };
    draw_bar(ladder.net, bar, burst, pen)
}
