// A run of many messages, counted by superframes.
use crate::editions::tint_of;
use crate::lanes::write_name;
use crate::layout::LEFT;
use crate::step::{Happening, Said, Step, Telling};
use bt_frame::OutOfMemory;
use bt_picture::{Anchor, Drawn, Pen, Point, Style, place, rectangle};
use bt_words::Word::{Number, Text};
use std::alloc::Global;

// Twips of a column, and of a row.
const COLUMN: u64 = 1080;

const ROW: u64 = 300;

// Columns side by side, and the most of them all: where a run has more superframes, several share one.
const COLUMNS: usize = 16;

const MOST_COLUMNS: usize = 128;

// Twips above the first columns, and from the top of columns to those below them.
const TOP: u64 = 1300;

const BELOW: u64 = 13 * ROW;

// What the rows count, from the top: the kinds of message, and what else happens.
const ROWS: [&str; 10] = [
    "load",
    "arm",
    "status",
    "bursts",
    "confirm",
    "reference",
    "has restarted",
    "restarts",
    "resets",
    "frames shown",
];

// How often something was sent or happened, and how often it was heard.
#[derive(Clone, Copy)]
struct Count {
    made: u64,
    heard: u64,
}

// What happened in some superframes, and the edition in front at their end.
#[derive(Clone, Copy)]
struct Total {
    first: u64,
    last: u64,
    fore: Option<u64>,
    counts: [Count; 10],
}

// What was counted so far: the row of each message, by its place, stands beside it.
#[derive(Drop)]
struct Tally {
    totals: Vec<Total>,
    rows: Vec<usize>,
    begun: usize,
    telling: Telling,
}

impl Tally {
    // Counts a step; so many superframes share a total.
    fn add(&mut self, step: &Step, shared: usize) -> Drawn {
        self.telling = step.telling(self.telling);
        if let Step::Begin(mark) = step {
            self.begin(*mark, shared)?;
        }
        if let Step::Sent(message) = step {
            self.rows.push(row_of(message.said))?;
        }
        let heard = match step {
            Step::Got(delivery) => self.rows.get(delivery.place).copied(),
            _ => None,
        };
        if self.telling != Telling::Drawn {
            return Ok(());
        }
        let made = made_row(step);
        if let Some(total) = self.totals.last_mut() {
            total.fore = fore_after(step, total.fore);
            count_more(total, made, 1, 0);
            count_more(total, heard, 0, 1);
        }
        Ok(())
    }

    // A superframe begins.
    fn begin(&mut self, mark: u64, shared: usize) -> Drawn {
        let fore = self.totals.last().and_then(|total| total.fore);
        let shares = self.begun % shared.max(1) != 0;
        self.begun = self.begun.saturating_add(1);
        let counts = [Count { made: 0, heard: 0 }; 10];
        match self.totals.last_mut() {
            Some(total) if shares => total.last = mark,
            _ => self.totals.push(Total {
                first: mark,
                last: mark,
                fore,
                counts,
            })?,
        }
        Ok(())
    }
}

// Counts so many more in a row, where there is one.
fn count_more(total: &mut Total, row: Option<usize>, made: u64, heard: u64) {
    let Some(row) = row else {
        return;
    };
    if let Some(counted) = total.counts.get_mut(row) {
        counted.made = counted.made.saturating_add(made);
        counted.heard = counted.heard.saturating_add(heard);
    }
}

// The edition in front behind a step.
fn fore_after(step: &Step, before: Option<u64>) -> Option<u64> {
    match step {
        Step::Sent(message) => match message.said {
            Said::Status(status) => Some(status.fore),
            _ => before,
        },
        _ => before,
    }
}

// The row of what a step makes.
fn made_row(step: &Step) -> Option<usize> {
    match step {
        Step::Sent(message) => Some(row_of(message.said)),
        Step::Happened(_, Happening::Restart) => Some(7),
        Step::Happened(_, Happening::Reset) => Some(8),
        Step::Shown(_) => Some(9),
        _ => None,
    }
}

// The row of a message.
fn row_of(said: Said) -> usize {
    match said {
        Said::Load { .. } => 0,
        Said::Arm(_) => 1,
        Said::Status(_) => 2,
        Said::Bursts { .. } => 3,
        Said::Confirm { .. } => 4,
        Said::Reference { .. } => 5,
        Said::Lost { .. } => 6,
    }
}

/// Draws how often each kind of message was sent and heard in each superframe, and says how high the picture is.
pub fn draw_totals(alloc: Global, steps: &[Step], pen: &mut Pen<'_>) -> Result<u64, OutOfMemory> {
    let tally = tally_of(alloc, steps)?;
    for (number, total) in tally.totals.iter().enumerate() {
        let top = TOP.saturating_add(BELOW.saturating_mul((number / COLUMNS) as u64));
        if number % COLUMNS == 0 {
            name_rows(top, pen)?;
        }
        let left = COLUMN.saturating_mul((number % COLUMNS) as u64);
        draw_total(total, place(LEFT.saturating_add(left), top), pen)?;
    }
    let rows = tally.totals.len().saturating_add(COLUMNS - 1) / COLUMNS;
    Ok(TOP.saturating_add(BELOW.saturating_mul(rows as u64)))
}

// Counts the steps of a run.
fn tally_of(alloc: Global, steps: &[Step]) -> Result<Tally, OutOfMemory> {
    let begun = steps
        .iter()
        .filter(|step| matches!(step, Step::Begin(_)))
        .count();
    let shared = (begun / MOST_COLUMNS).saturating_add(1);
    let (totals, rows) = (Vec::new(alloc), Vec::new(alloc));
    let mut tally = Tally {
        totals,
        rows,
        begun: 0,
        telling: Telling::Drawn,
    };
    for step in steps {
        tally.add(step, shared)?;
    }
    Ok(tally)
}

// Writes what each row counts.
fn name_rows(top: u64, pen: &mut Pen<'_>) -> Drawn {
    name_row(top, "superframe", pen)?;
    name_row(top.saturating_add(ROW), "in front", pen)?;
    for (row, name) in ROWS.iter().enumerate() {
        name_row(row_y(top, row), name, pen)?;
    }
    Ok(())
}

fn name_row<'a>(y: u64, name: &'a str, pen: &mut Pen<'a>) -> Drawn {
    write_name(pen, y.saturating_add(220), Style::Text, name)
}

// Where a row begins.
fn row_y(top: u64, row: usize) -> u64 {
    top.saturating_add(ROW.saturating_mul((row as u64).saturating_add(2)))
}

// Draws the column of a total, from its upper left corner.
fn draw_total(total: &Total, at: Point, pen: &mut Pen<'_>) -> Drawn {
    let above = place(at.x.saturating_add(COLUMN / 2), at.y.saturating_add(220));
    let (first, last) = (Number(total.first), Number(total.last));
    if total.first == total.last {
        let words = pen.phrase("#", &[last])?;
        pen.label(above, Anchor::Middle, Style::Head, words)?;
    } else {
        let words = pen.phrase("# to #", &[first, last])?;
        pen.label(above, Anchor::Middle, Style::Small, words)?;
    }
    if let Some(fore) = total.fore {
        draw_front(total.last, fore, place(at.x, at.y.saturating_add(ROW)), pen)?;
    }
    for (row, counted) in total.counts.iter().enumerate() {
        draw_count(total, row, *counted, place(at.x, row_y(at.y, row)), pen)?;
    }
    Ok(())
}

// Draws the edition in front at the end of a superframe.
fn draw_front(mark: u64, fore: u64, at: Point, pen: &mut Pen<'_>) -> Drawn {
    let cell = rectangle(at, COLUMN, ROW, tint_of(fore));
    let inside = place(at.x.saturating_add(COLUMN / 2), at.y.saturating_add(225));
    let words = pen.phrase("#", &[Number(fore)])?;
    let title = pen.phrase(
        "edition # is in front at the end of superframe #",
        &[Number(fore), Number(mark)],
    )?;
    pen.marked(cell, inside, Style::Text, words, title)
}

// Draws how often something was sent or happened.
fn draw_count(total: &Total, row: usize, counted: Count, at: Point, pen: &mut Pen<'_>) -> Drawn {
    if counted.made == 0 && counted.heard == 0 {
        return pen.shape(rectangle(at, COLUMN, ROW, Style::Shade));
    }
    let cell = rectangle(at, COLUMN, ROW, Style::Band);
    let inside = place(at.x.saturating_add(COLUMN / 2), at.y.saturating_add(210));
    let (made, heard) = (Number(counted.made), Number(counted.heard));
    let (name, first, last) = (Text(row_name(row)), Number(total.first), Number(total.last));
    if row < 7 {
        let words = pen.phrase("# / #", &[made, heard])?;
        let title = pen.phrase(
            "#, superframes # to #: # sent, heard # times",
            &[name, first, last, made, heard],
        )?;
        pen.marked(cell, inside, Style::Small, words, title)
    } else {
        let words = pen.phrase("#", &[made])?;
        let title = pen.phrase("#, superframes # to #: #", &[name, first, last, made])?;
        pen.marked(cell, inside, Style::Small, words, title)
    }
}

// What a row counts.
fn row_name(row: usize) -> &'static str {
    match ROWS.get(row) {
        Some(name) => name,
        None => "",
    }
}
