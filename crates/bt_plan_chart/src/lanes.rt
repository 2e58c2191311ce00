// The lanes of the beams.
ghost use Rattle.std.specs.Prelude.{◌≡◌, ◌++◌, ◌<◌, ◌≤◌, ◌^◌, [], ◌∷◌, codes, length, OnOk};
ghost use Rattle.bt_demand.specs.Apart.{AreBetweenTerminals};
ghost use Rattle.bt_picture.specs.Picture.{drawn, words_text, Titled};
ghost use Rattle.bt_plan_chart.specs.Chart.{direction_head, each_lane_parts, is_critical, lane_letters, lane_part, lane_part_at, lane_parts_at, lane_style, lanes_head, lanes_parts, name_letters, slots_in_lane};
ghost use Rattle.bt_plan_chart.specs.Parts.{parts_text};
ghost use Rattle.bt_plan_chart.specs.Scale.{IsScale};

use crate::fullness::fullness;
use crate::heading::{counted, direction_name, name_of_beam};
use crate::part::{add_alone, add_titled};
use crate::scale::{is_drawn, lane_top, slots_box, x_of};
use crate::{Direction, Scale};
use bt_demand::Plan;
use bt_frame::{BeamNo, Critical, OutOfMemory};
use bt_net::Network;
use bt_picture::{Anchor, Point, Rect, Shape, Style};
use bt_words::Word;
use std::alloc::Global;

/// Appends the lanes of a direction.
pub(crate) fn add_lanes(
    alloc: Global,
    net: &Network,
    scale: Scale,
    plan: &Plan,
    direction: Direction,
    out: &mut Vec<u8>,
) -> Result<(), OutOfMemory>
    requires scale { IsScale scale }
    requires beams { scale.beams ≡ length net.now.beams }
    requires terminals { AreBetweenTerminals net.now plan.now.bursts }
    ensures { OnOk result (out.new.items ≡ out.old.items ++ parts_text (lanes_parts net.now scale plan.now direction)) }
{
    add_lanes_head(alloc, scale, direction, out)?;
    add_each_lane(alloc, net, scale, plan, direction, out)
}

/// Appends the lanes of all beams that have one in a direction.
fn add_each_lane(
    alloc: Global,
    net: &Network,
    scale: Scale,
    plan: &Plan,
    direction: Direction,
    out: &mut Vec<u8>,
) -> Result<(), OutOfMemory>
    requires scale { IsScale scale }
    requires beams { scale.beams ≡ length net.now.beams }
    requires terminals { AreBetweenTerminals net.now plan.now.bursts }
    ensures { OnOk result (out.new.items ≡ out.old.items ++ parts_text (each_lane_parts net.now scale plan.now direction)) }
{
    let slots = fullness(net, direction, plan.bursts.as_slice());
    for beam in 0..scale.beams {
        add_lane_if_any(
            alloc,
            net,
            scale,
            plan,
            direction,
            beam,
            slots[beam as usize],
            out,
        )?;
    }
    Ok(())
}

/// Appends the lane of a beam, where it has one, with so many slots of bursts in it.
#[tactic(auto, using(crate::proofs::Adding::left_out))]
fn add_lane_if_any(
    alloc: Global,
    net: &Network,
    scale: Scale,
    plan: &Plan,
    direction: Direction,
    beam: u64,
    slots: u64,
    out: &mut Vec<u8>,
) -> Result<(), OutOfMemory>
    requires scale { IsScale scale }
    requires beams { scale.beams ≡ length net.now.beams }
    requires beam { beam < scale.beams }
    requires slots { slots ≡ slots_in_lane net.now direction plan.now.bursts beam }
    ensures { OnOk result (out.new.items ≡ out.old.items ++ parts_text (lane_parts_at net.now scale plan.now direction beam)) }
{
    let drawn = is_drawn(scale, beam);
    if drawn {
        add_lane_of(alloc, net, scale, plan, direction, beam, slots, out)
    } else {
        Ok(())
    }
}

/// Appends what stands over the lanes of a direction.
fn add_lanes_head(
    alloc: Global,
    scale: Scale,
    direction: Direction,
    out: &mut Vec<u8>,
) -> Result<(), OutOfMemory>
    requires { IsScale scale }
    ensures { OnOk result (out.new.items ≡ out.old.items ++ parts_text (lanes_head scale direction ∷ [])) }
{
    let words = [Word::Text(direction_head(direction))];
    let at = Point {
        x: 320,
        y: lane_top(scale, direction, 0) - 160,
    };
    add_alone(
        alloc,
        Shape::Label(at, Anchor::Start, Style::Head, &words),
        out,
    )
}

/// What stands over the lanes of a direction.
fn direction_head(direction: Direction) -> &'static str
    ensures { result.now ≡ direction_head direction }
{
    match direction {
        Direction::Up => "Uplinks",
        Direction::Down => "Downlinks",
    }
}

/// Whether a lane is that of the critical line.
fn is_critical(critical: Critical, direction: Direction, beam: u64) -> bool
    ensures { result ≡ is_critical critical direction beam }
{
    match (critical, direction) {
        (Critical::Row(up), Direction::Up) => u64::from(up.0) == beam,
        (Critical::Row(_), Direction::Down) => false,
        (Critical::Column(_), Direction::Up) => false,
        (Critical::Column(down), Direction::Down) => u64::from(down.0) == beam,
    }
}

/// Appends the lane of a beam, with so many slots of bursts in it.
fn add_lane_of(
    alloc: Global,
    net: &Network,
    scale: Scale,
    plan: &Plan,
    direction: Direction,
    beam: u64,
    slots: u64,
    out: &mut Vec<u8>,
) -> Result<(), OutOfMemory>
    requires scale { IsScale scale }
    requires beams { scale.beams ≡ length net.now.beams }
    requires beam { beam < scale.beams }
    requires slots { slots ≡ slots_in_lane net.now direction plan.now.bursts beam }
    ensures { OnOk result (out.new.items ≡ out.old.items ++ parts_text (lane_part_at net.now scale plan.now direction beam ∷ [])) }
{
    let name = name_of_beam(net, BeamNo(beam as u8));
    let heavy = is_critical(plan.schedule.critical, direction, beam);
    let lane = slots_box(scale, direction, beam, 0, scale.length);
    let free = scale.frame.saturating_sub(scale.length);
    let rest = slots_box(scale, direction, beam, scale.length, free);
    let right = x_of(scale, scale.end) + 160;
    add_lane(
        alloc,
        direction,
        name,
        slots,
        scale.length,
        heavy,
        lane,
        rest,
        right,
        out,
    )
}

/// Appends a lane: its name, its slots of bursts and all its slots, its box, that of the rest of the frame, and where the
/// numbers behind it begin.
fn add_lane(
    alloc: Global,
    direction: Direction,
    name: &str,
    slots: u64,
    whole: u64,
    heavy: bool,
    lane: Rect,
    rest: Rect,
    right: u64,
    out: &mut Vec<u8>,
) -> Result<(), OutOfMemory>
    requires { lane.y ≤ 2 ^ 16 }
    ensures { OnOk result (out.new.items ≡ out.old.items ++ parts_text (lane_part direction name.now slots whole heavy lane rest right ∷ [])) }
{
    let name_words = [Word::Text(name)];
    let number_words = [
        Word::Number(slots),
        Word::Text(stroke_beside(name)),
        Word::Number(whole),
    ];
    let name_at = Point {
        x: 1560,
        y: lane.y + 320,
    };
    let numbers_at = Point {
        x: right,
        y: lane.y + 320,
    };
    let name_label = Shape::Label(name_at, Anchor::End, name_letters(heavy, name), &name_words);
    let numbers = Shape::Label(
        numbers_at,
        Anchor::Start,
        lane_letters(heavy),
        &number_words,
    );
    let title = [
        Word::Text(direction_name(direction)),
        Word::Text(" "),
        Word::Text(name),
        Word::Text(": "),
        Word::Number(slots),
        Word::Text(" of "),
        Word::Number(whole),
        Word::Text(counted(whole, " slot", " slots")),
    ];
    let free = Shape::Rectangle(rest, Style::Free);
    let look = Shape::Rectangle(lane, lane_style(heavy));
    add_four(alloc, &title, free, look, name_label, numbers, out)
}

/// What stands between the numbers of a lane, for as long as its name.
fn stroke_beside<'x>(_name: &'x str) -> &'x str
    ensures { result.now ≡ codes "/" }
{
    "/"
}

/// Appends a part of four shapes.
fn add_four<'x>(
    alloc: Global,
    title: &[Word<'_>],
    first: Shape<'x>,
    second: Shape<'x>,
    third: Shape<'x>,
    fourth: Shape<'x>,
    out: &mut Vec<u8>,
) -> Result<(), OutOfMemory>
    ensures { OnOk result (out.new.items ≡ out.old.items
        ++ parts_text (Titled (words_text title.now) (drawn first.entry ∷ drawn second.entry ∷ drawn third.entry ∷ drawn fourth.entry ∷ []) ∷ [])) }
{
    add_titled(alloc, title, &[first, second, third, fourth], out)
}

/// How the box of a lane looks.
fn lane_style(heavy: bool) -> Style
    ensures { result ≡ lane_style heavy }
{
    if heavy { Style::Heavy } else { Style::Lane }
}

/// How the numbers of a lane look.
fn lane_letters(heavy: bool) -> Style
    ensures { result ≡ lane_letters heavy }
{
    if heavy { Style::Head } else { Style::Text }
}

/// How the name of a lane looks: a long one has to be small, to fit.
fn name_letters(heavy: bool, name: &str) -> Style
    ensures { result ≡ name_letters heavy (length name.now) }
{
    if name.len() > 11 {
        Style::Small
    } else {
        lane_letters(heavy)
    }
}
