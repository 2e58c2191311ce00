// The bursts in the lanes.
ghost use Rattle.std.specs.Prelude.{◌≡◌, ◌++◌, ◌+◌, ◌/◌, ◌<◌, ◌≤◌, ◌^◌, [], ◌∷◌, length, flat_map, OnOk};
ghost use Rattle.bt_frame.specs.declared.limits.TheConstants.{MOST_BEAMS};
ghost use Rattle.bt_demand.specs.Apart.{AreBetweenTerminals};
ghost use Rattle.bt_net.specs.Terminals.{name_at, IsTerminal};
ghost use Rattle.bt_picture.specs.Picture.{words_text, Titled};
ghost use Rattle.bt_plan_chart.specs.Chart.{at, boxed_parts, burst_parts, burst_parts_of, burst_shapes, has_room, have_lines, lined_shapes, one_box_shapes, one_lined_shapes, overrun_parts, overrun_parts_of};
ghost use Rattle.bt_plan_chart.specs.Parts.{parts_text};
ghost use Rattle.bt_plan_chart.specs.Scale.{beam_number, is_drawn, slots_box, IsScale};
ghost use Rattle.bt_plan_chart.specs.declared.scale.Direction.TheVariants.{Up, Down};

use crate::fullness::beam_number;
use crate::part::add_titled;
use crate::scale::{end_of, is_drawn, is_shown, slots_box};
use crate::{Direction, Scale};
use bt_demand::Burst;
use bt_frame::{OutOfMemory, TermNo};
use bt_net::Network;
use bt_picture::{Anchor, Point, Rect, Shape, Style};
use bt_words::Word;
use std::alloc::Global;

/// What stands between the names of a burst.
pub const ARROW: &str = "→";

/// One end of a burst: its beam, and the name of its terminal.
#[derive(Clone, Copy)]
struct End<'a> {
    beam: u8,
    name: &'a str,
}

/// Appends all bursts.
pub(crate) fn add_bursts(
    alloc: Global,
    net: &Network,
    scale: Scale,
    bursts: &[Burst],
    out: &mut Vec<u8>,
) -> Result<(), OutOfMemory>
    requires scale { IsScale scale }
    requires terminals { AreBetweenTerminals net.now bursts.now }
    ensures { OnOk result (out.new.items ≡ out.old.items ++ parts_text (flat_map (burst_parts_of net.now scale) bursts.now)) }
{
    for burst in bursts {
        add_burst_of(alloc, net, scale, *burst, out)?;
    }
    Ok(())
}

/// Appends a burst of the network, where slots of it are shown.
#[tactic(auto, using(crate::proofs::Adding::left_out))]
fn add_burst_of(
    alloc: Global,
    net: &Network,
    scale: Scale,
    burst: Burst,
    out: &mut Vec<u8>,
) -> Result<(), OutOfMemory>
    requires scale { IsScale scale }
    requires from { IsTerminal net.now burst.from }
    requires to { IsTerminal net.now burst.to }
    ensures { OnOk result (out.new.items ≡ out.old.items ++ parts_text (burst_parts_of net.now scale burst)) }
{
    let shown = is_shown(scale, u64::from(burst.start), end_of(burst));
    if shown {
        add_burst(
            alloc,
            scale,
            burst,
            end_at(net, burst.from),
            end_at(net, burst.to),
            out,
        )
    } else {
        Ok(())
    }
}

/// The end of a burst at a terminal.
fn end_at(net: &Network, terminal: TermNo) -> End<'_>
    requires { IsTerminal net.now terminal }
    ensures beam { result.beam ≡ beam_number net.now terminal }
    ensures few { result.beam < MOST_BEAMS }
    ensures name { result.name.now ≡ name_at net.now terminal }
{
    End {
        beam: beam_number(net, terminal),
        name: net.name_of(terminal),
    }
}

/// Appends a burst between two ends.
fn add_burst<'a>(
    alloc: Global,
    scale: Scale,
    burst: Burst,
    from: End<'a>,
    to: End<'a>,
    out: &mut Vec<u8>,
) -> Result<(), OutOfMemory>
    requires scale { IsScale scale }
    requires from { from.beam < MOST_BEAMS }
    requires to { to.beam < MOST_BEAMS }
    ensures { OnOk result (out.new.items ≡ out.old.items ++ parts_text (burst_parts scale burst from.entry.beam from.entry.name.now to.entry.beam to.entry.name.now)) }
{
    let start = u64::from(burst.start);
    let slots = u64::from(burst.length);
    if burst.length == 1 {
        let title = [
            Word::Text(from.name),
            Word::Text(" to "),
            Word::Text(to.name),
            Word::Text(", slot "),
            Word::Number(start),
        ];
        add_under_title(alloc, scale, &title, burst, from, to, out)
    } else {
        let title = [
            Word::Text(from.name),
            Word::Text(" to "),
            Word::Text(to.name),
            Word::Text(", slots "),
            Word::Number(start),
            Word::Text(" to "),
            Word::Number((start + slots).saturating_sub(1)),
        ];
        add_under_title(alloc, scale, &title, burst, from, to, out)
    }
}

/// Appends the boxes of a burst that have lanes, under a title.
#[tactic(auto, using(crate::proofs::Adding::none_yet))]
fn add_under_title<'a>(
    alloc: Global,
    scale: Scale,
    title: &[Word<'_>],
    burst: Burst,
    from: End<'a>,
    to: End<'a>,
    out: &mut Vec<u8>,
) -> Result<(), OutOfMemory>
    requires scale { IsScale scale }
    requires from { from.beam < MOST_BEAMS }
    requires to { to.beam < MOST_BEAMS }
    ensures { OnOk result (out.new.items ≡ out.old.items ++ parts_text (boxed_parts (is_drawn scale from.entry.beam) (is_drawn scale to.entry.beam) (words_text title.now)
        (slots_box scale Up from.entry.beam burst.start burst.length) (slots_box scale Down to.entry.beam burst.start burst.length)
        from.entry.beam to.entry.beam from.entry.name.now to.entry.name.now)) }
{
    let start = u64::from(burst.start);
    let slots = u64::from(burst.length);
    let up = slots_box(scale, Direction::Up, u64::from(from.beam), start, slots);
    let down = slots_box(scale, Direction::Down, u64::from(to.beam), start, slots);
    let up_drawn = is_drawn(scale, u64::from(from.beam));
    let down_drawn = is_drawn(scale, u64::from(to.beam));
    if up_drawn && down_drawn {
        add_boxes(alloc, title, up, down, from, to, out)
    } else if up_drawn {
        add_one_box(alloc, title, up, to.beam, from.name, to.name, out)
    } else if down_drawn {
        add_one_box(alloc, title, down, from.beam, from.name, to.name, out)
    } else {
        Ok(())
    }
}

/// Appends one box of a burst with its fill under a title, with the names of its ends where there is room.
fn add_one_box<'x>(
    alloc: Global,
    title: &[Word<'_>],
    rect: Rect,
    fill: u8,
    from: &'x str,
    to: &'x str,
    out: &mut Vec<u8>,
) -> Result<(), OutOfMemory>
    requires across { rect.x ≤ 2 ^ 48 }
    requires wide { rect.width ≤ 2 ^ 48 }
    requires down { rect.y ≤ 2 ^ 16 }
    ensures { OnOk result (out.new.items ≡ out.old.items
        ++ parts_text (Titled (words_text title.now) (one_box_shapes rect fill from.now to.now) ∷ [])) }
{
    let filled = Shape::Rectangle(rect, Style::Fill(fill));
    if has_room(rect.width, from, to) {
        let words = [Word::Text(from), Word::Text(ARROW), Word::Text(to)];
        let names = Shape::Label(middle_of(rect, 320), Anchor::Middle, Style::Text, &words);
        add_titled(alloc, title, &[filled, names], out)
    } else if have_lines(rect.width, from, to) {
        let first = [Word::Text(from)];
        let second = [Word::Text(ARROW), Word::Text(to)];
        add_one_lined(alloc, title, rect, fill, &first, &second, out)
    } else {
        add_titled(alloc, title, &[filled], out)
    }
}

/// Appends the boxes of a burst under a title, with the names of its ends where there is room.
fn add_boxes<'a>(
    alloc: Global,
    title: &[Word<'_>],
    up: Rect,
    down: Rect,
    from: End<'a>,
    to: End<'a>,
    out: &mut Vec<u8>,
) -> Result<(), OutOfMemory>
    requires up_across { up.x ≤ 2 ^ 48 }
    requires up_wide { up.width ≤ 2 ^ 48 }
    requires up_down { up.y ≤ 2 ^ 16 }
    requires down_across { down.x ≤ 2 ^ 48 }
    requires down_wide { down.width ≤ 2 ^ 48 }
    requires down_down { down.y ≤ 2 ^ 16 }
    ensures { OnOk result (out.new.items ≡ out.old.items
        ++ parts_text (Titled (words_text title.now) (burst_shapes up down from.entry.beam to.entry.beam from.entry.name.now to.entry.name.now) ∷ [])) }
{
    let up_box = Shape::Rectangle(up, Style::Fill(to.beam));
    let down_box = Shape::Rectangle(down, Style::Fill(from.beam));
    if has_room(up.width, from.name, to.name) {
        let words = [
            Word::Text(from.name),
            Word::Text(ARROW),
            Word::Text(to.name),
        ];
        let up_names = Shape::Label(middle_of(up, 320), Anchor::Middle, Style::Text, &words);
        let down_names = Shape::Label(middle_of(down, 320), Anchor::Middle, Style::Text, &words);
        add_titled(alloc, title, &[up_box, down_box, up_names, down_names], out)
    } else if have_lines(up.width, from.name, to.name) {
        let first = [Word::Text(from.name)];
        let second = [Word::Text(ARROW), Word::Text(to.name)];
        add_lines(
            alloc, title, up, down, to.beam, from.beam, &first, &second, out,
        )
    } else {
        add_titled(alloc, title, &[up_box, down_box], out)
    }
}

/// Appends a box with its fill under a title, and two lines of letters in it.
fn add_one_lined<'x>(
    alloc: Global,
    title: &[Word<'_>],
    rect: Rect,
    fill: u8,
    first: &'x [Word<'x>],
    second: &'x [Word<'x>],
    out: &mut Vec<u8>,
) -> Result<(), OutOfMemory>
    requires across { rect.x ≤ 2 ^ 48 }
    requires wide { rect.width ≤ 2 ^ 48 }
    requires down { rect.y ≤ 2 ^ 16 }
    ensures { OnOk result (out.new.items ≡ out.old.items
        ++ parts_text (Titled (words_text title.now) (one_lined_shapes rect fill (words_text first.now) (words_text second.now)) ∷ [])) }
{
    let shapes = [
        Shape::Rectangle(rect, Style::Fill(fill)),
        Shape::Label(middle_of(rect, 210), Anchor::Middle, Style::Small, first),
        Shape::Label(middle_of(rect, 400), Anchor::Middle, Style::Small, second),
    ];
    add_titled(alloc, title, &shapes, out)
}

/// Appends two boxes with their fills under a title, and two lines of letters in each.
fn add_lines<'x>(
    alloc: Global,
    title: &[Word<'_>],
    up: Rect,
    down: Rect,
    up_fill: u8,
    down_fill: u8,
    first: &'x [Word<'x>],
    second: &'x [Word<'x>],
    out: &mut Vec<u8>,
) -> Result<(), OutOfMemory>
    requires up_across { up.x ≤ 2 ^ 48 }
    requires up_wide { up.width ≤ 2 ^ 48 }
    requires up_down { up.y ≤ 2 ^ 16 }
    requires down_across { down.x ≤ 2 ^ 48 }
    requires down_wide { down.width ≤ 2 ^ 48 }
    requires down_down { down.y ≤ 2 ^ 16 }
    ensures { OnOk result (out.new.items ≡ out.old.items
        ++ parts_text (Titled (words_text title.now) (lined_shapes up down up_fill down_fill (words_text first.now) (words_text second.now)) ∷ [])) }
{
    let shapes = [
        Shape::Rectangle(up, Style::Fill(up_fill)),
        Shape::Rectangle(down, Style::Fill(down_fill)),
        Shape::Label(middle_of(up, 210), Anchor::Middle, Style::Small, first),
        Shape::Label(middle_of(up, 400), Anchor::Middle, Style::Small, second),
        Shape::Label(middle_of(down, 210), Anchor::Middle, Style::Small, first),
        Shape::Label(middle_of(down, 400), Anchor::Middle, Style::Small, second),
    ];
    add_titled(alloc, title, &shapes, out)
}

/// The middle of a box, so far below its upper edge.
fn middle_of(rect: Rect, below: u64) -> Point
    requires across { rect.x ≤ 2 ^ 48 }
    requires wide { rect.width ≤ 2 ^ 48 }
    requires down { rect.y ≤ 2 ^ 16 }
    requires below { below ≤ 2 ^ 16 }
    ensures { result ≡ at (rect.x + rect.width / 2) (rect.y + below) }
{
    Point {
        x: rect.x + rect.width / 2,
        y: rect.y + below,
    }
}

/// Whether both names have room in a box of that width.
fn has_room(width: u64, from: &str, to: &str) -> bool
    ensures { result ≡ has_room width from.now to.now }
{
    (from.len() as u64) < width / 260 && (to.len() as u64) < width / 260
}

/// Whether each name has room in a line of its own, in small letters, the second behind an arrow.
fn have_lines(width: u64, from: &str, to: &str) -> bool
    ensures { result ≡ have_lines width from.now to.now }
{
    (from.len() as u64) <= width / 100 && (to.len() as u64) < width / 100
}

/// Appends the marks of all bursts that run past the length.
pub(crate) fn add_overruns(
    alloc: Global,
    net: &Network,
    scale: Scale,
    bursts: &[Burst],
    out: &mut Vec<u8>,
) -> Result<(), OutOfMemory>
    requires scale { IsScale scale }
    requires terminals { AreBetweenTerminals net.now bursts.now }
    ensures { OnOk result (out.new.items ≡ out.old.items ++ parts_text (flat_map (overrun_parts_of net.now scale) bursts.now)) }
{
    for burst in bursts {
        add_overrun_of(alloc, net, scale, *burst, out)?;
    }
    Ok(())
}

/// Appends the mark of a burst, where it runs past the length and slots of it there are shown.
#[tactic(auto, using(crate::proofs::Adding::left_out))]
fn add_overrun_of(
    alloc: Global,
    net: &Network,
    scale: Scale,
    burst: Burst,
    out: &mut Vec<u8>,
) -> Result<(), OutOfMemory>
    requires scale { IsScale scale }
    requires from { IsTerminal net.now burst.from }
    requires to { IsTerminal net.now burst.to }
    ensures { OnOk result (out.new.items ≡ out.old.items ++ parts_text (overrun_parts_of net.now scale burst)) }
{
    let end = end_of(burst);
    let start = u64::from(burst.start).max(scale.length);
    let marked = scale.length < end && is_shown(scale, start, end);
    if marked {
        let up = u64::from(beam_number(net, burst.from));
        let down = u64::from(beam_number(net, burst.to));
        add_overrun(
            alloc,
            scale,
            up,
            down,
            start,
            end.saturating_sub(start),
            out,
        )
    } else {
        Ok(())
    }
}

/// Appends the mark of slots past the length, in the lanes of two beams.
#[tactic(auto, using(crate::proofs::Adding::none_yet))]
fn add_overrun(
    alloc: Global,
    scale: Scale,
    up: u64,
    down: u64,
    start: u64,
    slots: u64,
    out: &mut Vec<u8>,
) -> Result<(), OutOfMemory>
    requires scale { IsScale scale }
    requires up { up < MOST_BEAMS }
    requires down { down < MOST_BEAMS }
    requires start { start ≤ 2 ^ 33 }
    requires slots { slots ≤ 2 ^ 33 }
    ensures { OnOk result (out.new.items ≡ out.old.items ++ parts_text (overrun_parts scale up down start slots)) }
{
    let title = [Word::Text("past the length")];
    let up_box = slots_box(scale, Direction::Up, up, start, slots);
    let down_box = slots_box(scale, Direction::Down, down, start, slots);
    let up_edge = Shape::Rectangle(up_box, Style::Fault);
    let down_edge = Shape::Rectangle(down_box, Style::Fault);
    let up_drawn = is_drawn(scale, up);
    let down_drawn = is_drawn(scale, down);
    if up_drawn && down_drawn {
        add_titled(alloc, &title, &[up_edge, down_edge], out)
    } else if up_drawn {
        add_titled(alloc, &title, &[up_edge], out)
    } else if down_drawn {
        add_titled(alloc, &title, &[down_edge], out)
    } else {
        Ok(())
    }
}
