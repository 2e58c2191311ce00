// Where slots and lanes lie in the picture. All places and sizes are in twips.
ghost use Rattle.std.specs.Prelude.{◌≡◌, ◌+◌, ◌-◌, ◌*◌, ◌^◌, ◌<◌, ◌≤◌, max, length, if◌then◌else◌};
ghost use Rattle.bt_frame.specs.declared.limits.TheConstants.{MOST_BEAMS};
ghost use Rattle.bt_plan_chart.specs.Scale.{IsScale, column_of, end_of, end_shown, first_shown, height_of, is_drawn, is_shown, lane_top, lanes_before, legend_top, places_of, scale_of, slots_box, span_of, unit_of, width_of, x_of};

use crate::choice::{Choice, SlotRange};
use bt_demand::{Burst, Plan};
use bt_frame::MOST_BEAMS;
use bt_net::Network;
use bt_picture::Rect;

/// Where slot 0 begins.
pub const LEFT: u64 = 1720;

/// What is left free for the numbers behind the lanes.
pub const RIGHT: u64 = 1480;

/// The room that all slots have together, unless there are more of them.
pub const ROOM: u64 = 16_800;

/// The width of a picture whose slots fit in the room: 1000 pixels.
pub const LEAST_WIDTH: u64 = 20_000;

/// Where the first lane begins.
pub const FIRST_LANE: u64 = 2520;

/// From a lane to the next.
pub const PITCH: u64 = 600;

/// The height of a lane and of the bursts in it.
pub const LANE: u64 = 480;

/// What lies between the lanes of the uplinks and those of the downlinks.
pub const GAP: u64 = 560;

/// The places for lanes of a direction: one for each beam, and that behind the last one.
pub const PLACES: usize = 33;

/// The two ways through the satellite.
#[derive(Clone, Copy)]
pub enum Direction {
    /// From a terminal to the satellite.
    Up,
    /// From the satellite to a terminal.
    Down,
}

/// What the places in a picture depend on.
#[derive(Clone, Copy)]
pub struct Scale {
    /// The beams of the network.
    pub beams: u64,
    /// By the number of a beam, whether it has lanes.
    pub drawn: [bool; MOST_BEAMS],
    /// By the number of a beam, how many beams before it have lanes.
    pub places: [u8; PLACES],
    /// The slots of the plan.
    pub length: u64,
    /// The slots of a frame.
    pub frame: u64,
    /// Whether slots were chosen, so that what lies before or behind them is cut off.
    pub is_cut: bool,
    /// The first slot that is shown.
    pub begin: u64,
    /// The slot behind the last one that is shown; without a choice that of a frame, of the plan, and of the bursts that run
    /// past both.
    pub end: u64,
    /// The width of a slot.
    pub unit: u64,
}

/// The scale of what is chosen of a plan.
pub(crate) fn scale_of(net: &Network, plan: &Plan, choice: Choice) -> Scale
    ensures same { result ≡ scale_of net.now plan.now choice }
    ensures scale { IsScale result }
{
    let span = span_of(
        net.slots().max(plan.schedule.length),
        plan.bursts.as_slice(),
    );
    let begin = first_shown(choice.slots);
    let end = end_shown(span, choice.slots);
    Scale {
        beams: u64::from(net.beam_count()),
        drawn: choice.beams,
        places: places_of(choice.beams),
        length: u64::from(plan.schedule.length),
        frame: u64::from(net.slots()),
        is_cut: choice.slots.is_some(),
        begin,
        end,
        unit: unit_of(end - begin),
    }
}

/// The first slot that is shown.
fn first_shown(slots: Option<SlotRange>) -> u64
    ensures { result ≡ first_shown slots }
{
    match slots {
        None => 0,
        Some(range) => u64::from(range.first),
    }
}

/// The slot behind the last one that is shown, where so many are without a choice.
fn end_shown(span: u64, slots: Option<SlotRange>) -> u64
    requires some { 1 ≤ span }
    requires small { span ≤ 2 ^ 33 }
    ensures same { result ≡ end_shown span slots }
    ensures some { first_shown slots + 1 ≤ result }
    ensures small { result ≤ 2 ^ 33 }
{
    match slots {
        None => span,
        Some(range) => u64::from(range.first.max(range.last)) + 1,
    }
}

/// How many beams before each have lanes, and how many of all.
fn places_of(drawn: [bool; MOST_BEAMS]) -> [u8; PLACES]
    requires { length drawn ≡ MOST_BEAMS }
    ensures { result ≡ places_of drawn }
{
    let mut places = [0; PLACES];
    let mut lanes = 0u8;
    for beam in 0..MOST_BEAMS {
        lanes += lanes_of(drawn[beam]);
        places[beam + 1] = lanes;
    }
    places
}

/// One lane of a direction, where a beam has lanes.
fn lanes_of(drawn: bool) -> u8
    ensures same { result ≡ (if drawn then 1 else 0) }
    ensures few { result ≤ 1 }
{
    if drawn { 1 } else { 0 }
}

/// How many beams before one have lanes.
fn lanes_before(scale: Scale, beam: u64) -> u64
    requires scale { IsScale scale }
    requires beam { beam ≤ MOST_BEAMS }
    ensures same { result ≡ lanes_before scale.drawn beam }
    ensures few { result ≤ MOST_BEAMS }
{
    u64::from(scale.places[beam as usize])
}

/// Whether a beam has lanes.
pub(crate) fn is_drawn(scale: Scale, beam: u64) -> bool
    requires scale { IsScale scale }
    requires beam { beam < MOST_BEAMS }
    ensures { result ≡ is_drawn scale beam }
{
    scale.drawn[beam as usize]
}

/// Whether slots are shown, from one to that behind the last.
pub(crate) fn is_shown(scale: Scale, from: u64, to: u64) -> bool
    ensures { result ≡ is_shown scale from to }
{
    !scale.is_cut || (from < scale.end && scale.begin < to)
}

/// The width of a slot, where so many are shown.
fn unit_of(span: u64) -> u64
    requires { 1 ≤ span }
    ensures same { result ≡ unit_of span }
    ensures small { result ≤ ROOM }
{
    (ROOM / span).max(1)
}

/// The slots that are shown: so many at least, and those of all bursts.
fn span_of(slots: u32, bursts: &[Burst]) -> u64
    ensures same { result ≡ span_of slots bursts.now }
    ensures some { 1 ≤ result }
    ensures whole { slots ≤ result }
    ensures small { result ≤ 2 ^ 33 }
{
    let mut span = u64::from(slots).max(1);
    for burst in bursts {
        span = span.max(end_of(*burst));
    }
    span
}

/// The slot behind the last one of a burst.
pub(crate) fn end_of(burst: Burst) -> u64
    ensures same { result ≡ end_of burst }
    ensures small { result ≤ 2 ^ 33 }
{
    burst.end()
}

/// How many of the slots that are shown stand before one.
fn column_of(scale: Scale, slot: u64) -> u64
    requires scale { IsScale scale }
    requires slot { slot ≤ 2 ^ 34 }
    ensures same { result ≡ column_of scale slot }
    ensures near { result ≤ slot }
{
    if scale.is_cut {
        slot.max(scale.begin).min(scale.end) - scale.begin
    } else {
        slot
    }
}

/// How wide the slots are that are shown of those from one to that behind the last.
pub(crate) fn width_between(scale: Scale, from: u64, to: u64) -> u64
    requires scale { IsScale scale }
    requires from { from ≤ 2 ^ 33 }
    requires to { to ≤ from + 2 ^ 33 }
    ensures same { result ≡ (column_of scale to - column_of scale from) * scale.unit }
    ensures small { result ≤ 2 ^ 48 }
{
    let columns = columns_between(scale, from, to);
    columns * scale.unit
}

/// How many of the slots that are shown stand from one to that behind the last.
fn columns_between(scale: Scale, from: u64, to: u64) -> u64
    requires scale { IsScale scale }
    requires from { from ≤ 2 ^ 33 }
    requires to { to ≤ from + 2 ^ 33 }
    ensures same { result ≡ column_of scale to - column_of scale from }
    ensures small { result ≤ 2 ^ 33 }
{
    column_of(scale, to).saturating_sub(column_of(scale, from))
}

/// The place of a slot from the left; one that is not shown stands at the edge on its side.
pub(crate) fn x_of(scale: Scale, slot: u64) -> u64
    requires scale { IsScale scale }
    requires slot { slot ≤ 2 ^ 33 }
    ensures same { result ≡ x_of scale slot }
    ensures small { result ≤ 2 ^ 48 }
{
    LEFT + column_of(scale, slot) * scale.unit
}

/// The place of a beam's lane from the top; behind the last beam, the place of the next lane.
pub(crate) fn lane_top(scale: Scale, direction: Direction, beam: u64) -> u64
    requires scale { IsScale scale }
    requires beam { beam ≤ MOST_BEAMS }
    ensures same { result ≡ lane_top scale direction beam }
    ensures low { FIRST_LANE ≤ result }
    ensures small { result ≤ 2 ^ 16 }
{
    match direction {
        Direction::Up => FIRST_LANE + lanes_before(scale, beam) * PITCH,
        Direction::Down => {
            let lanes = lanes_before(scale, scale.beams) + lanes_before(scale, beam);
            FIRST_LANE + lanes * PITCH + GAP
        }
    }
}

/// So many slots of a lane, from a slot on, as far as they are shown.
pub(crate) fn slots_box(
    scale: Scale,
    direction: Direction,
    beam: u64,
    start: u64,
    slots: u64,
) -> Rect
    requires scale { IsScale scale }
    requires beam { beam ≤ MOST_BEAMS }
    requires start { start ≤ 2 ^ 33 }
    requires slots { slots ≤ 2 ^ 33 }
    ensures same { result ≡ slots_box scale direction beam start slots }
    ensures across { result.x ≤ 2 ^ 48 }
    ensures wide { result.width ≤ 2 ^ 48 }
    ensures down { result.y ≤ 2 ^ 16 }
{
    Rect {
        x: x_of(scale, start),
        y: lane_top(scale, direction, beam),
        width: width_between(scale, start, start + slots),
        height: LANE,
    }
}

/// Where the legend begins.
pub(crate) fn legend_top(scale: Scale) -> u64
    requires { IsScale scale }
    ensures same { result ≡ legend_top scale }
    ensures small { result ≤ 2 ^ 17 }
{
    lane_top(scale, Direction::Down, scale.beams) + 260
}

/// How high the picture is.
pub(crate) fn height_of(scale: Scale) -> u64
    requires { IsScale scale }
    ensures { result ≡ height_of scale }
{
    legend_top(scale) + ((scale.beams + 1) / 7 + 1) * 440 + 160
}

/// How wide the picture is.
pub(crate) fn width_of(scale: Scale) -> u64
    requires { IsScale scale }
    ensures { result ≡ width_of scale }
{
    (x_of(scale, scale.end) + RIGHT).max(LEAST_WIDTH)
}
