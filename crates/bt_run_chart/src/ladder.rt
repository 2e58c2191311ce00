// The picture of a run as a ladder.
ghost use Rattle.std.specs.Prelude.{All, OnOk};
ghost use Rattle.bt_net.specs.Terminals.{IsTerminal};
ghost use Rattle.bt_picture.specs.Drawn.{IsPictureBehind};
ghost use Rattle.bt_run_chart.specs.Titles.{IsLadder};

use crate::folding::folded;
use crate::ladder_marks::{draw_notes, draw_rules, write_names};
use crate::ladder_ways::{draw_departures, draw_ladder_ways};
use crate::lanes::Lanes;
use crate::reading::is_apart;
use crate::rungs::Ladder;
use crate::view::Asked;
use crate::whole::{asked_steps, write_heading, write_titled_picture};
use bt_frame::OutOfMemory;
use bt_net::Network;
use bt_picture::{Drawn, Pen, Style};
use std::alloc::Global;

// The lines below the title, with how far from the top they stand.
const HEADING: [(u64, Style, &str); 2] = [
    (
        820,
        Style::Text,
        "An arrow: a message with its number, from its sender to one that heard it; aslant where that heard it later. A grey one: its hearer refused it.",
    ),
    (
        1120,
        Style::Text,
        "A cross: nobody heard it. A box: what happened or was told. In a frame: the bursts of each sender; a ring: a terminal with bursts is silent.",
    ),
];

/// Appends the picture of what a run printed as a ladder, as SVG: time runs down, and each station has a lane.
///
/// `text` is the run's output; lines that no run prints are passed over. Want of memory leaves `out` with a first part of
/// the picture.
pub fn ladder_picture(
    alloc: Global,
    net: &Network,
    text: &[u8],
    asked: Asked<'_>,
    out: &mut Vec<u8>,
) -> Result<(), OutOfMemory>
    requires chosen { All (IsTerminal net.now) asked.chosen.now }
    ensures picture { OnOk result (IsPictureBehind IsLadder out.old.items out.new.items) }
{
    let mut steps = asked_steps(alloc, net, text, asked.view)?;
    if asked.view.folds {
        steps = folded(alloc, net, steps.as_slice())?;
    }
    let lanes = Lanes::of(alloc, steps.as_slice(), asked.chosen)?;
    let ladder = Ladder::of(alloc, net, lanes, is_apart(text), steps.as_slice())?;
    let mut pen = Pen::new(alloc);
    draw_ladder(&ladder, &mut pen)?;
    let height = ladder.bottom().saturating_add(300);
    let title = "What the run printed, from top to bottom";
    write_titled_picture(alloc, ladder.width(), height, title, &pen, out)
}

// Draws a ladder: what is drawn later lies upon the rest.
fn draw_ladder<'a>(ladder: &Ladder<'a>, pen: &mut Pen<'a>) -> Drawn {
    write_heading(&HEADING, pen)?;
    draw_rules(ladder, pen)?;
    draw_ladder_ways(ladder, pen)?;
    write_names(ladder, pen)?;
    draw_notes(ladder, pen)?;
    draw_departures(ladder, pen)
}
