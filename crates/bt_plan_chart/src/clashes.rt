// The marks of bursts that meet.
ghost use Rattle.std.specs.Prelude.{◌≡◌, ◌++◌, ◌<◌, ◌≤◌, ◌^◌, [], ◌∷◌, OnOk};
ghost use Rattle.bt_frame.specs.declared.limits.TheConstants.{MOST_BEAMS};
ghost use Rattle.bt_demand.specs.Apart.{AreBetweenTerminals};
ghost use Rattle.bt_plan_chart.specs.Chart.{clash_mark, clash_part, clash_parts, clashes_parts};
ghost use Rattle.bt_plan_chart.specs.Parts.{parts_text};
ghost use Rattle.bt_plan_chart.specs.Scale.{IsScale};

use crate::fullness::beam_at;
use crate::part::add_titled;
use crate::scale::{end_of, is_drawn, is_shown, slots_box};
use crate::{Direction, Scale};
use bt_demand::Burst;
use bt_frame::{MOST_BEAMS, OutOfMemory};
use bt_net::Network;
use bt_picture::{Rect, Shape, Style};
use bt_words::Word;
use std::alloc::Global;

/// Appends the marks of all bursts that meet in lanes of a direction: one where a burst begins before the end of one before
/// it in its lane.
pub(crate) fn add_clashes(
    alloc: Global,
    net: &Network,
    scale: Scale,
    direction: Direction,
    bursts: &[Burst],
    out: &mut Vec<u8>,
) -> Result<(), OutOfMemory>
    requires scale { IsScale scale }
    requires terminals { AreBetweenTerminals net.now bursts.now }
    ensures { OnOk result (out.new.items ≡ out.old.items ++ parts_text (clashes_parts net.now scale direction bursts.now)) }
{
    let mut latest = [0; MOST_BEAMS];
    for burst in bursts {
        let beam = beam_at(net, direction, *burst);
        let before: u64 = latest[beam as usize];
        add_clash_of(alloc, scale, direction, beam, *burst, before, out)?;
        latest[beam as usize] = before.max(end_of(*burst));
    }
    Ok(())
}

/// Appends the mark of a burst, where those before it in its lane end behind its start, where it has a lane and slots of the
/// mark are shown.
#[tactic(auto, using(crate::proofs::Adding::left_out))]
fn add_clash_of(
    alloc: Global,
    scale: Scale,
    direction: Direction,
    beam: u8,
    burst: Burst,
    latest: u64,
    out: &mut Vec<u8>,
) -> Result<(), OutOfMemory>
    requires scale { IsScale scale }
    requires beam { beam < MOST_BEAMS }
    ensures { OnOk result (out.new.items ≡ out.old.items ++ parts_text (clash_parts scale direction beam burst latest)) }
{
    let start = u64::from(burst.start);
    let end = end_of(burst).min(latest);
    let beam = u64::from(beam);
    let marked = start < end && (is_drawn(scale, beam) && is_shown(scale, start, end));
    if marked {
        add_clash(
            alloc,
            scale,
            direction,
            beam,
            start,
            end.saturating_sub(start),
            out,
        )
    } else {
        Ok(())
    }
}

/// Appends the mark of slots in which bursts meet in a lane.
fn add_clash(
    alloc: Global,
    scale: Scale,
    direction: Direction,
    beam: u64,
    start: u64,
    slots: u64,
    out: &mut Vec<u8>,
) -> Result<(), OutOfMemory>
    requires scale { IsScale scale }
    requires beam { beam < MOST_BEAMS }
    requires start { start ≤ 2 ^ 32 }
    requires slots { slots ≤ 2 ^ 33 }
    ensures { OnOk result (out.new.items ≡ out.old.items ++ parts_text (clash_part scale direction beam start slots ∷ [])) }
{
    let last = (start + slots).saturating_sub(1);
    let edge = slots_box(scale, direction, beam, start, slots);
    add_mark(alloc, start, last, edge, out)
}

/// Appends the mark of slots from one to another, in their box.
fn add_mark(
    alloc: Global,
    first: u64,
    last: u64,
    edge: Rect,
    out: &mut Vec<u8>,
) -> Result<(), OutOfMemory>
    ensures { OnOk result (out.new.items ≡ out.old.items ++ parts_text (clash_mark first last edge ∷ [])) }
{
    let title = [
        Word::Text("bursts meet from slot "),
        Word::Number(first),
        Word::Text(" to slot "),
        Word::Number(last),
    ];
    add_titled(alloc, &title, &[Shape::Rectangle(edge, Style::Fault)], out)
}
