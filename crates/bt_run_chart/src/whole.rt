// The whole picture.
ghost use Rattle.std.specs.Prelude.{All, OnOk};
ghost use Rattle.bt_net.specs.Terminals.{IsTerminal};
ghost use Rattle.bt_picture.specs.Drawn.{IsPictureBehind};
ghost use Rattle.bt_run_chart.specs.Titles.{IsOfRun, IsTitled};

use crate::air::{draw_air, draw_silences};
use crate::folding::folded;
use crate::folds::draw_folds;
use crate::labels::write_labels;
use crate::lanes::{Lanes, draw_lanes};
use crate::layout::{Layout, TOP};
use crate::messages::{draw_deliveries, draw_edges, draw_senders};
use crate::range::within;
use crate::reading::read_steps;
use crate::silences::with_silences;
use crate::spans::{draw_fronts, draw_superframes};
use crate::step::{Step, Telling};
use crate::totals::draw_totals;
use crate::view::{Asked, View};
use bt_frame::{OutOfMemory, TermNo};
use bt_net::Network;
use bt_picture::{Anchor, Drawn, Pen, Point, Shape, Style, place, write_picture};
use bt_words::Word;
use std::alloc::Global;

// The lines below the title above lanes, and that above totals, with how far from the top they stand.
const ROWS_HEADING: [(u64, Style, &str); 2] = [
    (
        820,
        Style::Text,
        "A circle: a message with its number. An arrow: it was heard. A grey line: its hearer refused it. A cross: nobody heard it. A dot: a restart, a reset, back or ahead.",
    ),
    (
        1120,
        Style::Text,
        "A box: superframes of nothing but routine. Below the lanes: the edition in front, and the bursts on the air by uplink beam. A ring: a terminal with bursts is silent.",
    ),
];

const TOTALS_HEADING: [(u64, Style, &str); 1] = [(
    820,
    Style::Text,
    "Of each kind of message, how many were sent / how often one came to a station, refused or not; above them the edition in front on board at the end.",
)];

// Twips from the left to the right edge of a picture.
const WIDTH: u64 = 20_000;

// The most messages that are drawn one by one.
const MOST_MESSAGES: usize = 400;

// The most steps that are drawn one by one: each message may come to 64 terminals, and frames and their bursts stand beside.
const MOST_STEPS: usize = 40_000;

/// Appends the picture of what a run printed, as SVG.
///
/// `text` is the run's output; lines that no run prints are passed over. Want of memory leaves `out` with a first part of
/// the picture.
pub fn run_picture(
    alloc: Global,
    net: &Network,
    text: &[u8],
    asked: Asked<'_>,
    out: &mut Vec<u8>,
) -> Result<(), OutOfMemory>
    requires chosen { All (IsTerminal net.now) asked.chosen.now }
    ensures picture { OnOk result (IsPictureBehind IsOfRun out.old.items out.new.items) }
{
    let steps = asked_steps(alloc, net, text, asked.view)?;
    let mut pen = Pen::new(alloc);
    let drawn = draw_run(alloc, net, steps.as_slice(), asked, &mut pen)?;
    if drawn.is_counted {
        write_counted(alloc, drawn.height, &pen, out)
    } else {
        write_steps(alloc, drawn.height, &pen, out)
    }
}

// Appends the picture of a run that was drawn step by step.
fn write_steps(alloc: Global, height: u64, pen: &Pen<'_>, out: &mut Vec<u8>) -> Drawn
    ensures { OnOk result (IsPictureBehind IsOfRun out.old.items out.new.items) }
{
    write_titled_picture(alloc, WIDTH, height, "What the run printed", pen, out)
}

// Appends the picture of a run that was counted by superframes.
fn write_counted(alloc: Global, height: u64, pen: &Pen<'_>, out: &mut Vec<u8>) -> Drawn
    ensures { OnOk result (IsPictureBehind IsOfRun out.old.items out.new.items) }
{
    let title = "What the run printed, by superframes";
    write_titled_picture(alloc, WIDTH, height, title, pen, out)
}

/// Appends a picture of that size, in twips, of that title.
pub fn write_titled_picture(
    alloc: Global,
    width: u64,
    height: u64,
    title: &str,
    pen: &Pen<'_>,
    out: &mut Vec<u8>,
) -> Drawn
    ensures { OnOk result (IsPictureBehind (IsTitled title.now) out.old.items out.new.items) }
{
    let words = [Word::Text(title)];
    let at = Point { x: 320, y: 480 };
    let label = Shape::Label(at, Anchor::Start, Style::Title, &words);
    write_picture(alloc, width, height, label, pen, out)
}

// A run that was drawn: whether it is counted by superframes, and how high its picture is.
#[derive(Clone, Copy)]
struct DrawnRun {
    is_counted: bool,
    height: u64,
}

// Draws a run below its title.
fn draw_run<'a>(
    alloc: Global,
    net: &'a Network,
    steps: &[Step],
    asked: Asked<'_>,
    pen: &mut Pen<'a>,
) -> Result<DrawnRun, OutOfMemory> {
    if !asked.view.folds {
        return draw_steps(alloc, net, steps, steps, asked.chosen, pen);
    }
    let folded = folded(alloc, net, steps)?;
    draw_steps(alloc, net, folded.as_slice(), steps, asked.chosen, pen)
}

// Draws steps, and where they are too many, counts the whole ones.
fn draw_steps<'a>(
    alloc: Global,
    net: &'a Network,
    steps: &[Step],
    whole: &[Step],
    chosen: &[TermNo],
    pen: &mut Pen<'a>,
) -> Result<DrawnRun, OutOfMemory> {
    if is_long(steps) {
        write_heading(&TOTALS_HEADING, pen)?;
        let height = draw_totals(alloc, whole, pen)?;
        return Ok(DrawnRun {
            is_counted: true,
            height,
        });
    }
    write_heading(&ROWS_HEADING, pen)?;
    let lanes = Lanes::of(alloc, steps, chosen)?;
    let layout = Layout::of(alloc, net, lanes, steps)?;
    draw_lanes_and_ways(alloc, &layout, pen)?;
    if is_silent(steps) {
        write_silence(&layout, pen)?;
    }
    let height = match layout.staves.last() {
        Some(stave) => layout.heights.bottom(stave).saturating_add(300),
        None => TOP,
    };
    Ok(DrawnRun {
        is_counted: false,
        height,
    })
}

// Whether a run is too long to be drawn step by step.
fn is_long(steps: &[Step]) -> bool {
    let drawn = count_drawn(steps);
    drawn.steps > MOST_STEPS || drawn.messages > MOST_MESSAGES
}

// How many steps are drawn, how many messages are among them, and how many are messages or frames.
#[derive(Clone, Copy)]
struct DrawnCount {
    steps: usize,
    messages: usize,
    shown: usize,
}

fn count_drawn(steps: &[Step]) -> DrawnCount {
    let mut drawn = DrawnCount {
        steps: 0,
        messages: 0,
        shown: 0,
    };
    let mut telling = Telling::Drawn;
    for step in steps {
        telling = step.telling(telling);
        let is_drawn = telling == Telling::Drawn;
        let counts = usize::from(is_drawn);
        let of_message = usize::from(is_drawn && matches!(step, Step::Sent(_)));
        let of_frame = usize::from(is_drawn && matches!(step, Step::Shown(_)));
        let of_fold = usize::from(matches!(step, Step::Folded(_)));
        drawn.steps = drawn.steps.saturating_add(counts);
        drawn.messages = drawn.messages.saturating_add(of_message);
        drawn.shown = drawn
            .shown
            .saturating_add(of_message)
            .saturating_add(of_frame)
            .saturating_add(of_fold);
    }
    drawn
}

// Draws a run from lane to lane: what is drawn later lies upon the rest.
fn draw_lanes_and_ways<'a>(alloc: Global, layout: &Layout<'a>, pen: &mut Pen<'a>) -> Drawn {
    draw_superframes(alloc, layout, pen)?;
    draw_fronts(alloc, layout, pen)?;
    draw_lanes(layout, pen)?;
    draw_folds(layout, pen)?;
    draw_air(layout, pen)?;
    draw_deliveries(layout, pen)?;
    draw_edges(layout, pen)?;
    draw_silences(layout, pen)?;
    draw_senders(layout, pen)?;
    write_labels(alloc, layout, pen)
}

// Says in the midst of the lanes that nothing was on the air.
fn write_silence(layout: &Layout<'_>, pen: &mut Pen<'_>) -> Drawn {
    let Some(stave) = layout.stave(0) else {
        return Ok(());
    };
    let words = pen.phrase(
        "Nothing was on the air: no message was sent, and no frame was shown.",
        &[],
    )?;
    let y = layout.heights.lane_y(&stave, 0).saturating_add(580);
    pen.label(place(WIDTH / 2, y), Anchor::Middle, Style::Head, words)
}

// Whether no message and no frame is drawn, and nothing is folded.
fn is_silent(steps: &[Step]) -> bool {
    count_drawn(steps).shown == 0
}

/// The steps of a run that are asked for.
pub fn asked_steps(
    alloc: Global,
    net: &Network,
    text: &[u8],
    view: View,
) -> Result<Vec<Step>, OutOfMemory> {
    let read = read_steps(alloc, net, text)?;
    let steps = with_silences(alloc, read.as_slice())?;
    match view.range {
        Some(range) => within(alloc, range, steps.as_slice()),
        None => Ok(steps),
    }
}

/// Says below the title how the picture is read.
pub fn write_heading(lines: &[(u64, Style, &'static str)], pen: &mut Pen<'_>) -> Drawn {
    for (y, style, text) in lines {
        let words = pen.phrase(text, &[])?;
        pen.label(place(320, *y), Anchor::Start, *style, words)?;
    }
    Ok(())
}
