// The text of a burst time plan: its edition, its length, its critical line, its modes and its bursts in a line
// each, and `end`.
ghost use Rattle.std.specs.Prelude.{◌≡◌, ◌<◌, ◌≤◌, ◌+◌, ◌==◌, ◌-◌, None, Some, Ok, Err, length, IfOk, IsTrue, AllPairs, if◌then◌else◌};
ghost use Rattle.bt_frame.specs.declared.limits.TheConstants.{MOST_TEXT_BYTES};
ghost use Rattle.bt_text.specs.Text.{words, lines};
ghost use Rattle.bt_text.specs.declared.fault.LineFault.TheVariants.{At};
ghost use Rattle.bt_text.specs.Reading.{or_fault, Gives};
ghost use Rattle.bt_plan.specs.declared.text_fault.TextCode.TheVariants.{P1};
ghost use Rattle.bt_demand.specs.Burst.{IsNotAfter};
ghost use Rattle.bt_frame.specs.Critical.{IsOfBeams};
ghost use Rattle.bt_plan.specs.PlanText.{edition_in, burst_with, burst_between, burst_behind, burst_in, in_order, burst_below, bursts_in, is_mode, modes_and_bursts, critical_behind, length_behind, plan_reading};
ghost use Rattle.bt_demand.specs.Apart.{AreBetweenTerminals};
ghost use Rattle.bt_plan.specs.ScheduleText.{mode_in};
ghost use Rattle.bt_net.specs.Name.{are_names};

use crate::names::ends_of;
use crate::schedule_reader::{read_critical, read_length, read_mode};
use crate::{TextCode, TextFault};
use bt_demand::{Burst, Bursts, Plan};
use bt_frame::{EditionNo, LAST_EDITION, LAST_TEXT_SLOT, MOST_BURST_SLOTS, Mode, Modes, Schedule};
use bt_net::{Network, are_names};
use bt_text::{WordReader, fault_at, first_line, is_word};
use std::alloc::Global;

/// The plan that a text spells for this network, or the first line with a fault.
pub fn read_plan(alloc: Global, net: &Network, bytes: &[u8]) -> Result<Plan, TextFault>
    requires short { length bytes.now ≤ MOST_TEXT_BYTES }
    ensures reading { Gives (λ plan. plan) result (plan_reading net.now bytes.now) }
    ensures terminals { IfOk result (λ plan. AreBetweenTerminals net.now plan.bursts) }
    ensures critical { IfOk result (λ plan. IsOfBeams (length net.now.beams) plan.schedule.critical) }
{
    let Some((line, rest)) = first_line(bytes) else {
        return Err(fault(1));
    };
    let edition = read_edition(line)?;
    read_from_length(alloc, net, edition, rest)
}

// What is wrong with every line of a plan but one that names strangers or stands out of order.
fn fault(line: u32) -> TextFault
    ensures { result ≡ At P1 line }
{
    fault_at(TextCode::P1, line)
}

// The edition that the first line says.
fn read_edition(line: &[u8]) -> Result<EditionNo, TextFault>
    ensures { Gives (λ edition. edition) result (or_fault (P1, 1) (edition_in (words line.now))) }
{
    edition_of_words(WordReader::of(line)).ok_or(fault(1))
}

fn edition_of_words(mut words: WordReader<'_>) -> Option<EditionNo>
    ensures { result ≡ edition_in words.entry }
{
    if !words.next_is(b"plan") {
        return None;
    }
    let edition = words.number_to(LAST_EDITION)?;
    if words.is_done() {
        Some(EditionNo(edition))
    } else {
        None
    }
}

// The length in line 2, and what follows it.
fn read_from_length(
    alloc: Global,
    net: &Network,
    edition: EditionNo,
    text: &[u8],
) -> Result<Plan, TextFault>
    requires short { length text.now ≤ MOST_TEXT_BYTES }
    ensures reading { Gives (λ plan. plan) result (length_behind net.now edition (lines text.now)) }
    ensures terminals { IfOk result (λ plan. AreBetweenTerminals net.now plan.bursts) }
    ensures critical { IfOk result (λ plan. IsOfBeams (length net.now.beams) plan.schedule.critical) }
{
    let Some((line, rest)) = first_line(text) else {
        return Err(fault(2));
    };
    let slots = read_length(TextCode::P1, 2, line)?;
    read_from_critical(alloc, net, edition, slots, rest)
}

// The critical line in line 3, and what follows it.
fn read_from_critical(
    alloc: Global,
    net: &Network,
    edition: EditionNo,
    slots: u32,
    text: &[u8],
) -> Result<Plan, TextFault>
    requires short { length text.now ≤ MOST_TEXT_BYTES }
    ensures reading { Gives (λ plan. plan) result
        (critical_behind net.now edition slots (lines text.now)) }
    ensures terminals { IfOk result (λ plan. AreBetweenTerminals net.now plan.bursts) }
    ensures critical { IfOk result (λ plan. IsOfBeams (length net.now.beams) plan.schedule.critical) }
{
    let Some((line, rest)) = first_line(text) else {
        return Err(fault(3));
    };
    let critical = read_critical(TextCode::P1, 3, net.beam_count(), line)?;
    let (modes, bursts) = read_modes_and_bursts(alloc, net, rest)?;
    let schedule = Schedule {
        length: slots,
        critical,
        modes,
    };
    Ok(Plan {
        edition,
        schedule,
        bursts,
    })
}

// The modes, the first of them in line 4, and the bursts behind them.
fn read_modes_and_bursts(
    alloc: Global,
    net: &Network,
    text: &[u8],
) -> Result<(Modes, Bursts), TextFault>
    requires short { length text.now ≤ MOST_TEXT_BYTES }
    ensures { Gives (λ parts. parts) result (modes_and_bursts net.now 4 (lines text.now)) }
{
    let mut modes = Vec::new(alloc);
    let mut rest = text;
    let mut at = 4;
    while let Some((line, after)) = first_line(rest) {
        if !is_mode(line) {
            let bursts = read_bursts(alloc, net, at, rest)?;
            return Ok((Modes::of(modes), bursts));
        }
        modes.push(read_plan_mode(alloc, net, at, line)?)?;
        rest = after;
        at += 1;
    }
    Err(fault(at))
}

// The first word is `mode`.
fn is_mode(line: &[u8]) -> bool
    ensures { result ≡ is_mode (words line.now) }
{
    let mut words = WordReader::of(line);
    words.next_is(b"mode")
}

// The mode that line `at` says.
fn read_plan_mode(alloc: Global, net: &Network, at: u32, line: &[u8]) -> Result<Mode, TextFault>
    ensures { Gives (λ mode. mode) result
        (or_fault (P1, at) (mode_in (length net.now.beams) (words line.now))) }
{
    read_mode(alloc, TextCode::P1, net.beam_count(), at, line)
}

// The bursts, the first of them in line `first`, then `end` and nothing behind it.
fn read_bursts(alloc: Global, net: &Network, first: u32, text: &[u8]) -> Result<Bursts, TextFault>
    requires short { first + length text.now ≤ MOST_TEXT_BYTES + 4 }
    ensures { Gives (λ bursts. bursts) result (bursts_in net.now first None (lines text.now)) }
{
    let mut bursts = Vec::new(alloc);
    let mut above = None;
    let mut rest = text;
    let mut at = first;
    while let Some((line, after)) = first_line(rest) {
        if is_word(line, b"end") {
            return read_end(bursts, at + 1, after);
        }
        let burst = read_burst(net, at, above, line)?;
        bursts.push(burst)?;
        above = Some(burst);
        rest = after;
        at += 1;
    }
    Err(fault(at))
}

// The bursts, if nothing stands behind the newline of `end`.
fn read_end(bursts: Vec<Burst>, at: u32, rest: &[u8]) -> Result<Bursts, TextFault>
    requires ordered { AllPairs IsNotAfter bursts.items }
    requires few { length bursts.items ≤ MOST_TEXT_BYTES + 4 }
    ensures { Gives (λ bursts. bursts) result
        (if length rest.now == 0 then Ok bursts.items else Err (P1, at)) }
{
    if rest.is_empty() {
        Ok(Bursts::of(bursts))
    } else {
        Err(fault(at))
    }
}

// The burst in line `at`, which does not belong before the burst of the line above.
fn read_burst(net: &Network, at: u32, above: Option<Burst>, line: &[u8]) -> Result<Burst, TextFault>
    ensures { Gives (λ burst. burst) result (burst_below net.now at above (words line.now)) }
{
    let burst = burst_of_words(net, at, WordReader::of(line))?;
    in_order(at, above, burst)
}

// The burst, where it does not belong before the burst of the line above.
fn in_order(at: u32, above: Option<Burst>, burst: Burst) -> Result<Burst, TextFault>
    ensures { Gives (λ burst. burst) result (in_order at above burst) }
{
    match above {
        Some(above) if !above.is_not_after(burst) => Err(fault_at(TextCode::P3, at)),
        _ => Ok(burst),
    }
}

// The burst that the words of line `at` say.
fn burst_of_words(net: &Network, at: u32, mut words: WordReader<'_>) -> Result<Burst, TextFault>
    ensures { Gives (λ burst. burst) result (burst_in net.now at words.entry) }
{
    if words.next_is(b"burst") {
        burst_behind(net, at, words)
    } else {
        Err(fault(at))
    }
}

// The burst of the words behind `burst`.
fn burst_behind(net: &Network, at: u32, mut words: WordReader<'_>) -> Result<Burst, TextFault>
    ensures { Gives (λ burst. burst) result (burst_behind net.now at words.entry) }
{
    let Some(start) = words.number_to(LAST_TEXT_SLOT) else {
        return Err(fault(at));
    };
    let Some(slots) = words.number_to(MOST_BURST_SLOTS) else {
        return Err(fault(at));
    };
    if slots == 0 {
        return Err(fault(at));
    }
    burst_between(net, at, (start, slots), words)
}

// The burst of so many slots between the terminals of two names.
fn burst_between(
    net: &Network,
    at: u32,
    span: (u32, u32),
    mut words: WordReader<'_>,
) -> Result<Burst, TextFault>
    ensures { Gives (λ burst. burst) result (burst_between net.now at span words.entry) }
{
    let Some(from) = words.next() else {
        return Err(fault(at));
    };
    let Some(to) = words.next() else {
        return Err(fault(at));
    };
    if !words.is_done() || !are_names(from, to) {
        return Err(fault(at));
    }
    burst_of(net, at, span, from, to)
}

// The burst of so many slots between the terminals of two names.
fn burst_of(
    net: &Network,
    at: u32,
    span: (u32, u32),
    from: &[u8],
    to: &[u8],
) -> Result<Burst, TextFault>
    requires names { IsTrue (are_names from.now to.now) }
    ensures { Gives (λ burst. burst) result (burst_with net.now at span from.now to.now) }
{
    let (from, to) = ends_of(net, TextCode::P2, at, from, to)?;
    Ok(Burst {
        from,
        to,
        start: span.0,
        length: span.1,
    })
}
