// What stands over the lanes: the heading and the ruler.
ghost use Rattle.std.specs.Prelude.{◌≡◌, ◌++◌, ◌+◌, ◌*◌, ◌≤◌, ◌<◌, ◌^◌, true, [], ◌∷◌, length, Some, None, OnOk};
ghost use Rattle.bt_frame.specs.Critical.{IsOfBeams};
ghost use Rattle.bt_plan_chart.specs.Chart.{counted, counts_part, critical_beam, critical_direction, direction_name, first_tick, has_tick, heading_parts, last_tick_parts, name_of_beam, ruler_parts, step_among, step_of, tick_part, tick_parts, ticks_parts, title_part};
ghost use Rattle.bt_plan_chart.specs.Parts.{parts_text};
ghost use Rattle.bt_plan_chart.specs.Scale.{IsScale, x_of};

use crate::choice::{Choice, SlotRange};
use crate::part::{add_alone, add_titled};
use crate::scale::x_of;
use crate::{Direction, Scale};
use bt_demand::Plan;
use bt_frame::{BeamNo, Critical, OutOfMemory};
use bt_net::Network;
use bt_picture::{Anchor, Point, Shape, Style};
use bt_words::Word;
use std::alloc::Global;

/// The most ticks of a ruler.
pub const TICKS: u64 = 12;

/// Slots from a tick of the ruler to the next: the first of these is taken that leaves few enough ticks.
#[rattlefmt::skip]
pub const STEPS: [u32; 28] = [
    1, 2, 5, 10, 20, 50, 100, 200, 500, 1_000, 2_000, 5_000, 10_000, 20_000, 50_000,
    100_000, 200_000, 500_000, 1_000_000, 2_000_000, 5_000_000, 10_000_000, 20_000_000, 50_000_000,
    100_000_000, 200_000_000, 500_000_000, 1_000_000_000,
];

/// The last of them, which leaves few enough ticks to every plan.
pub const LAST_STEP: u32 = 1_000_000_000;

/// Appends the heading.
pub(crate) fn add_heading(
    alloc: Global,
    net: &Network,
    plan: &Plan,
    choice: Choice,
    out: &mut Vec<u8>,
) -> Result<(), OutOfMemory>
    requires { IsOfBeams (length net.now.beams) plan.now.schedule.critical }
    ensures { OnOk result (out.new.items ≡ out.old.items ++ parts_text (heading_parts net.now plan.now choice)) }
{
    add_title(alloc, plan.edition.0, choice.slots, out)?;
    add_counts(alloc, net, plan, out)
}

/// Appends the edition, and the slots where not all are shown.
fn add_title(
    alloc: Global,
    edition: u32,
    slots: Option<SlotRange>,
    out: &mut Vec<u8>,
) -> Result<(), OutOfMemory>
    ensures { OnOk result (out.new.items ≡ out.old.items ++ parts_text (title_part edition slots ∷ [])) }
{
    match slots {
        None => add_whole_title(alloc, edition, out),
        Some(range) => add_part_title(alloc, edition, range, out),
    }
}

/// Appends the edition, where all slots are shown.
fn add_whole_title(alloc: Global, edition: u32, out: &mut Vec<u8>) -> Result<(), OutOfMemory>
    ensures { OnOk result (out.new.items ≡ out.old.items ++ parts_text (title_part edition None ∷ [])) }
{
    let words = [
        Word::Text("Plan of edition "),
        Word::Number(u64::from(edition)),
    ];
    let at = Point { x: 320, y: 480 };
    add_alone(
        alloc,
        Shape::Label(at, Anchor::Start, Style::Title, &words),
        out,
    )
}

/// Appends the edition and the slots that are shown.
fn add_part_title(
    alloc: Global,
    edition: u32,
    range: SlotRange,
    out: &mut Vec<u8>,
) -> Result<(), OutOfMemory>
    ensures { OnOk result (out.new.items ≡ out.old.items ++ parts_text (title_part edition (Some range) ∷ [])) }
{
    let words = [
        Word::Text("Plan of edition "),
        Word::Number(u64::from(edition)),
        Word::Text(", slots "),
        Word::Number(u64::from(range.first)),
        Word::Text(" to "),
        Word::Number(u64::from(range.last)),
    ];
    let at = Point { x: 320, y: 480 };
    add_alone(
        alloc,
        Shape::Label(at, Anchor::Start, Style::Title, &words),
        out,
    )
}

/// Appends what the plan has.
fn add_counts(
    alloc: Global,
    net: &Network,
    plan: &Plan,
    out: &mut Vec<u8>,
) -> Result<(), OutOfMemory>
    requires { IsOfBeams (length net.now.beams) plan.now.schedule.critical }
    ensures { OnOk result (out.new.items ≡ out.old.items ++ parts_text (counts_part plan.now.schedule.length (length plan.now.schedule.modes) (length plan.now.bursts)
        (direction_name (critical_direction plan.now.schedule.critical)) (name_of_beam net.now (critical_beam plan.now.schedule.critical)) net.now.slots ∷ [])) }
{
    let (direction, beam) = line_of(plan.schedule.critical);
    let slots = u64::from(plan.schedule.length);
    let modes = plan.schedule.modes.as_slice().len() as u64;
    let bursts = plan.bursts.as_slice().len() as u64;
    let name = name_of_beam(net, beam);
    let frame = u64::from(net.slots());
    add_count_line(
        alloc,
        slots,
        modes,
        bursts,
        direction_name(direction),
        name,
        frame,
        out,
    )
}

/// Appends so many slots, modes and bursts, the critical line, and the slots of a frame.
fn add_count_line<'x>(
    alloc: Global,
    slots: u64,
    modes: u64,
    bursts: u64,
    line: &'x str,
    name: &'x str,
    frame: u64,
    out: &mut Vec<u8>,
) -> Result<(), OutOfMemory>
    ensures { OnOk result (out.new.items ≡ out.old.items ++ parts_text (counts_part slots modes bursts line.now name.now frame ∷ [])) }
{
    let words = [
        Word::Number(slots),
        Word::Text(counted(slots, " slot, ", " slots, ")),
        Word::Number(modes),
        Word::Text(counted(modes, " mode, ", " modes, ")),
        Word::Number(bursts),
        Word::Text(counted(bursts, " burst", " bursts")),
        Word::Text("; the critical line is "),
        Word::Text(line),
        Word::Text(" "),
        Word::Text(name),
        Word::Text(" (frame of "),
        Word::Number(frame),
        Word::Text(counted(frame, " slot)", " slots)")),
    ];
    let at = Point { x: 320, y: 880 };
    add_alone(
        alloc,
        Shape::Label(at, Anchor::Start, Style::Text, &words),
        out,
    )
}

/// The words for one thing, or those for another number of them.
pub(crate) fn counted<'x>(number: u64, one: &'x str, many: &'x str) -> &'x str
    ensures { result.now ≡ counted number one.now many.now }
{
    if number == 1 { one } else { many }
}

/// The direction and the beam of a line.
fn line_of(critical: Critical) -> (Direction, BeamNo)
    ensures direction { result.0 ≡ critical_direction critical }
    ensures beam { result.1.0 ≡ critical_beam critical }
{
    match critical {
        Critical::Row(up) => (Direction::Up, up),
        Critical::Column(down) => (Direction::Down, down),
    }
}

/// What the lines of a direction are called.
pub(crate) fn direction_name(direction: Direction) -> &'static str
    ensures { result.now ≡ direction_name direction }
{
    match direction {
        Direction::Up => "uplink",
        Direction::Down => "downlink",
    }
}

/// The name of a beam.
pub(crate) fn name_of_beam(net: &Network, beam: BeamNo) -> &str
    requires { beam.0 < length net.now.beams }
    ensures { result.now ≡ name_of_beam net.now beam.0 }
{
    net.beam_name(beam)
}

/// Slots from a tick to the next.
fn step_of(span: u64) -> u32
    ensures same { result ≡ step_of span }
    ensures some { 1 ≤ result }
{
    step_among(&STEPS, span)
}

/// The first of some steps that leaves few enough ticks.
fn step_among(steps: &[u32], span: u64) -> u32
    ensures same { result ≡ step_among steps.now span }
    ensures some { 1 ≤ result }
{
    match steps {
        [step, rest @ ..] => {
            if span / TICKS < u64::from(*step) {
                *step
            } else {
                step_among(rest, span)
            }
        }
        _ => LAST_STEP,
    }
}

/// Appends the ruler.
pub(crate) fn add_ruler(alloc: Global, scale: Scale, out: &mut Vec<u8>) -> Result<(), OutOfMemory>
    requires { IsScale scale }
    ensures { OnOk result (out.new.items ≡ out.old.items ++ parts_text (ruler_parts scale)) }
{
    let step = step_of(scale.end - scale.begin);
    add_ticks(alloc, scale, u64::from(step), out)
}

/// Appends the ticks of a ruler, with so many slots from one to the next, and that at the end of the frame.
fn add_ticks(alloc: Global, scale: Scale, step: u64, out: &mut Vec<u8>) -> Result<(), OutOfMemory>
    requires scale { IsScale scale }
    requires some { 1 ≤ step }
    requires small { step ≤ 2 ^ 32 }
    ensures { OnOk result (out.new.items ≡ out.old.items ++ parts_text (ticks_parts scale step)) }
{
    let first = first_tick(scale.begin, step);
    for tick in 0..TICKS {
        add_tick_within(alloc, scale, step, first + tick * step, out)?;
    }
    add_last_tick(alloc, scale, out)
}

/// The first slot from one on that is a multiple of a step.
fn first_tick(begin: u64, step: u64) -> u64
    requires begin { begin ≤ 2 ^ 33 }
    requires some { 1 ≤ step }
    requires small { step ≤ 2 ^ 32 }
    ensures same { result ≡ first_tick begin step }
    ensures near { result ≤ begin + step }
{
    let past = begin % step;
    if past == 0 {
        begin
    } else {
        begin.saturating_sub(past) + step
    }
}

/// Appends the tick at the end of the frame, where that is shown.
#[tactic(auto, using(crate::proofs::Adding::left_out))]
fn add_last_tick(alloc: Global, scale: Scale, out: &mut Vec<u8>) -> Result<(), OutOfMemory>
    requires { IsScale scale }
    ensures { OnOk result (out.new.items ≡ out.old.items ++ parts_text (last_tick_parts scale)) }
{
    if scale.begin <= scale.frame && scale.frame <= scale.end {
        add_tick_at(alloc, scale, scale.frame, out)
    } else {
        Ok(())
    }
}

/// Appends a tick at a slot, where it has one.
fn add_tick_within(
    alloc: Global,
    scale: Scale,
    step: u64,
    slot: u64,
    out: &mut Vec<u8>,
) -> Result<(), OutOfMemory>
    requires scale { IsScale scale }
    requires step { step ≤ 2 ^ 32 }
    requires slot { slot ≤ 2 ^ 36 }
    ensures { OnOk result (out.new.items ≡ out.old.items ++ parts_text (tick_parts scale step slot)) }
{
    let marked = has_tick(scale, step, slot);
    if marked {
        add_tick_at(alloc, scale, slot, out)
    } else {
        Ok(())
    }
}

/// Whether a slot has a tick.
fn has_tick(scale: Scale, step: u64, slot: u64) -> bool
    requires scale { IsScale scale }
    requires step { step ≤ 2 ^ 32 }
    requires slot { slot ≤ 2 ^ 36 }
    ensures same { result ≡ has_tick scale step slot }
    ensures shown { result ≡ true → slot ≤ scale.end }
{
    let half = step / 2;
    scale.begin <= slot
        && slot <= scale.end
        && (slot + half < scale.frame || scale.frame + half < slot)
}

/// Appends the tick at a slot.
fn add_tick_at(alloc: Global, scale: Scale, slot: u64, out: &mut Vec<u8>) -> Result<(), OutOfMemory>
    requires scale { IsScale scale }
    requires slot { slot ≤ 2 ^ 33 }
    ensures { OnOk result (out.new.items ≡ out.old.items ++ parts_text (tick_part slot (x_of scale slot) ∷ [])) }
{
    add_tick(alloc, slot, x_of(scale, slot), out)
}

/// Appends a tick.
fn add_tick(alloc: Global, slot: u64, x: u64, out: &mut Vec<u8>) -> Result<(), OutOfMemory>
    ensures { OnOk result (out.new.items ≡ out.old.items ++ parts_text (tick_part slot x ∷ [])) }
{
    let words = [Word::Number(slot)];
    let shapes = [
        Shape::Line(Point { x, y: 1400 }, Point { x, y: 1520 }, Style::Line),
        Shape::Label(Point { x, y: 1340 }, Anchor::Middle, Style::Text, &words),
    ];
    let title = [Word::Text("slot "), Word::Number(slot)];
    add_titled(alloc, &title, &shapes, out)
}
