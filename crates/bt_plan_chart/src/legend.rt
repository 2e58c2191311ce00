// What the fills mean.
ghost use Rattle.std.specs.Prelude.{◌≡◌, ◌++◌, ◌<◌, ◌≤◌, ◌^◌, [], ◌∷◌, length, OnOk};
ghost use Rattle.bt_frame.specs.declared.limits.TheConstants.{MOST_BEAMS};
ghost use Rattle.bt_plan_chart.specs.Chart.{fill_part_at, free_part, item_letters, item_part, legend_parts, silent_part};
ghost use Rattle.bt_plan_chart.specs.Parts.{parts_text};
ghost use Rattle.bt_plan_chart.specs.Scale.{IsScale};

use crate::Scale;
use crate::heading::name_of_beam;
use crate::part::{add_alone, add_titled};
use crate::scale::{LEFT, legend_top};
use bt_frame::{BeamNo, OutOfMemory};
use bt_net::Network;
use bt_picture::{Anchor, Point, Rect, Shape, Style};
use bt_words::Word;
use std::alloc::Global;

/// Appends the legend.
pub(crate) fn add_legend(
    alloc: Global,
    net: &Network,
    scale: Scale,
    out: &mut Vec<u8>,
) -> Result<(), OutOfMemory>
    requires scale { IsScale scale }
    requires beams { scale.beams ≡ length net.now.beams }
    ensures { OnOk result (out.new.items ≡ out.old.items ++ parts_text (legend_parts net.now scale)) }
{
    let words = [Word::Text("other beam")];
    let at = Point {
        x: 1560,
        y: legend_top(scale) + 230,
    };
    add_alone(
        alloc,
        Shape::Label(at, Anchor::End, Style::Text, &words),
        out,
    )?;
    for beam in 0..scale.beams {
        add_fill(alloc, net, scale, beam, out)?;
    }
    add_unfilled(alloc, scale, out)
}

/// Appends what a lane looks like where it is silent, and behind the plan.
fn add_unfilled(alloc: Global, scale: Scale, out: &mut Vec<u8>) -> Result<(), OutOfMemory>
    requires { IsScale scale }
    ensures { OnOk result (out.new.items ≡ out.old.items ++ parts_text (silent_part scale ∷ free_part scale ∷ [])) }
{
    add_silent(alloc, scale, out)?;
    add_free(alloc, scale, out)
}

/// Appends what a lane looks like where it is silent.
fn add_silent(alloc: Global, scale: Scale, out: &mut Vec<u8>) -> Result<(), OutOfMemory>
    requires { IsScale scale }
    ensures { OnOk result (out.new.items ≡ out.old.items ++ parts_text (silent_part scale ∷ [])) }
{
    let top = legend_top(scale);
    add_item(alloc, top, scale.beams, Style::Lane, "silent", out)
}

/// Appends what a lane looks like behind the plan.
fn add_free(alloc: Global, scale: Scale, out: &mut Vec<u8>) -> Result<(), OutOfMemory>
    requires { IsScale scale }
    ensures { OnOk result (out.new.items ≡ out.old.items ++ parts_text (free_part scale ∷ [])) }
{
    let top = legend_top(scale);
    add_item(alloc, top, scale.beams + 1, Style::Free, "free", out)
}

/// Appends the fill of a beam.
fn add_fill(
    alloc: Global,
    net: &Network,
    scale: Scale,
    beam: u64,
    out: &mut Vec<u8>,
) -> Result<(), OutOfMemory>
    requires scale { IsScale scale }
    requires few { beam < MOST_BEAMS }
    requires beam { beam < length net.now.beams }
    ensures { OnOk result (out.new.items ≡ out.old.items ++ parts_text (fill_part_at net.now scale beam ∷ [])) }
{
    let name = name_of_beam(net, BeamNo(beam as u8));
    add_item(
        alloc,
        legend_top(scale),
        beam,
        Style::Fill(beam as u8),
        name,
        out,
    )
}

/// Appends an item at its place in the legend.
fn add_item(
    alloc: Global,
    top: u64,
    place: u64,
    look: Style,
    name: &str,
    out: &mut Vec<u8>,
) -> Result<(), OutOfMemory>
    requires top { top ≤ 2 ^ 17 }
    requires place { place ≤ 2 ^ 8 }
    ensures { OnOk result (out.new.items ≡ out.old.items ++ parts_text (item_part top place look name.now ∷ [])) }
{
    let words = [Word::Text(name)];
    let x = LEFT + place % 7 * 2400;
    let y = top + place / 7 * 440;
    let at = Point {
        x: x + 380,
        y: y + 230,
    };
    let shapes = [
        Shape::Rectangle(
            Rect {
                x,
                y,
                width: 280,
                height: 280,
            },
            look,
        ),
        Shape::Label(at, Anchor::Start, item_letters(name), &words),
    ];
    add_titled(alloc, &words, &shapes, out)
}

/// How a name in the legend looks: a long one has to be small, to leave room for the next.
fn item_letters(name: &str) -> Style
    ensures { result ≡ item_letters (length name.now) }
{
    if name.len() > 12 {
        Style::Small
    } else {
        Style::Text
    }
}
