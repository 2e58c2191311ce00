// What lasts over columns: superframes, and the edition in front.
use crate::editions::tint_of;
use crate::layout::{COLUMN, FOLD_COLUMNS, LEFT, Layout, Placed, RIGHT, Stave};
use crate::step::{Said, Step};
use bt_frame::OutOfMemory;
use bt_picture::{Anchor, Drawn, Pen, Shape, Style, place, rectangle};
use bt_words::Word::Number;
use std::alloc::Global;

// What lasts.
#[derive(Clone, Copy, PartialEq, Eq)]
enum Lasting {
    Superframe,
    InFront,
}

// Its number, that of the last superframe of several, and where it lasts in a stave.
#[derive(Clone, Copy)]
struct Span {
    number: u64,
    last: u64,
    stave: usize,
    from: u64,
    to: u64,
}

impl Span {
    fn width(self) -> u64 {
        self.to.saturating_sub(self.from)
    }

    fn middle(self) -> u64 {
        self.from.saturating_add(self.width() / 2)
    }
}

/// Draws the superframes, each over its columns, every second one upon a shade.
pub fn draw_superframes<'a>(alloc: Global, layout: &Layout<'a>, pen: &mut Pen<'a>) -> Drawn {
    for span in &spans_of(alloc, layout, Lasting::Superframe)? {
        if let Some(stave) = layout.stave(span.stave) {
            let height = layout.heights.bottom(&stave).saturating_sub(stave.top);
            draw_superframe(&stave, *span, height, pen)?;
        }
    }
    Ok(())
}

fn draw_superframe(stave: &Stave, span: Span, height: u64, pen: &mut Pen<'_>) -> Drawn {
    let edge = place(span.from, stave.top);
    let is_one = span.number == span.last;
    if is_one && span.number % 2 == 1 {
        pen.shape(rectangle(edge, span.width(), height, Style::Shade))?;
    }
    let foot = place(span.from, stave.top.saturating_add(height));
    pen.shape(Shape::Line(edge, foot, Style::Thin))?;
    let y = stave.top.saturating_add(260);
    if !is_one {
        let words = pen.phrase("# to #", &[Number(span.number), Number(span.last)])?;
        let at = place(span.from.saturating_add(FOLD_COLUMNS * COLUMN / 2), y);
        return pen.label(at, Anchor::Middle, Style::Small, words);
    }
    let is_wide = span.width() >= 4 * COLUMN;
    let text = if is_wide { "superframe #" } else { "#" };
    let words = pen.phrase(text, &[Number(span.number)])?;
    pen.label(place(span.middle(), y), Anchor::Middle, Style::Text, words)
}

/// Draws the edition in front in the band below the lanes.
pub fn draw_fronts<'a>(alloc: Global, layout: &Layout<'a>, pen: &mut Pen<'a>) -> Drawn {
    for span in &spans_of(alloc, layout, Lasting::InFront)? {
        if let Some(stave) = layout.stave(span.stave) {
            draw_front(layout.heights.front_y(&stave), *span, pen)?;
        }
    }
    Ok(())
}

fn draw_front(y: u64, span: Span, pen: &mut Pen<'_>) -> Drawn {
    let band = rectangle(place(span.from, y), span.width(), 280, tint_of(span.number));
    let is_wide = span.width() >= 3 * COLUMN;
    let text = if is_wide { "edition #" } else { "#" };
    let words = pen.phrase(text, &[Number(span.number)])?;
    let title = pen.phrase("edition # is in front on board", &[Number(span.number)])?;
    let at = place(span.middle(), y.saturating_add(215));
    pen.marked(band, at, Style::Text, words, title)
}

// What a step tells of what lasts: its number, and that of the last superframe of several.
fn told(step: &Step, lasting: Lasting) -> Option<(u64, u64)> {
    let number = match (step, lasting) {
        (Step::Folded(folded), Lasting::Superframe) => return Some((folded.first, folded.last)),
        (Step::Begin(mark), Lasting::Superframe) => *mark,
        (Step::Shown(frame), Lasting::InFront) => frame.fore,
        (Step::Sent(message), Lasting::InFront) => match message.said {
            Said::Status(status) => status.fore,
            _ => return None,
        },
        _ => return None,
    };
    Some((number, number))
}

// The left edge of the columns of a step.
fn edge_of(placed: &Placed) -> u64 {
    match placed.step {
        Step::Sent(_) => placed.x.saturating_sub(COLUMN / 2),
        _ => placed.x,
    }
}

// Where it lasts, from left to right and stave by stave.
fn spans_of(
    alloc: Global,
    layout: &Layout<'_>,
    lasting: Lasting,
) -> Result<Vec<Span>, OutOfMemory> {
    let mut spans = Vec::new(alloc);
    let mut open: Option<Span> = None;
    for placed in &layout.placed {
        open = carried(open, placed.stave, &mut spans)?;
        if let Some(numbers) = told(&placed.step, lasting) {
            open = changed(open, numbers, placed, &mut spans)?;
        }
    }
    close(open, RIGHT, &mut spans)?;
    Ok(spans)
}

// What lasts goes on in a later stave.
fn carried(
    open: Option<Span>,
    stave: usize,
    spans: &mut Vec<Span>,
) -> Result<Option<Span>, OutOfMemory> {
    let Some(span) = open else {
        return Ok(None);
    };
    if span.stave == stave {
        return Ok(open);
    }
    close(open, RIGHT, spans)?;
    Ok(Some(begun((span.number, span.last), stave, LEFT)))
}

// Something else begins to last here, unless it is the same.
fn changed(
    open: Option<Span>,
    numbers: (u64, u64),
    placed: &Placed,
    spans: &mut Vec<Span>,
) -> Result<Option<Span>, OutOfMemory> {
    if open.is_some_and(|span| (span.number, span.last) == numbers) {
        return Ok(open);
    }
    let edge = edge_of(placed);
    close(open, edge, spans)?;
    Ok(Some(begun(numbers, placed.stave, edge)))
}

// What begins to last at an edge.
fn begun((number, last): (u64, u64), stave: usize, from: u64) -> Span {
    let to = from;
    Span {
        number,
        last,
        stave,
        from,
        to,
    }
}

// Keeps what lasted up to here, unless that is nothing.
fn close(open: Option<Span>, to: u64, spans: &mut Vec<Span>) -> Drawn {
    if let Some(span) = open {
        if span.from < to {
            spans.push(Span { to, ..span })?;
        }
    }
    Ok(())
}
