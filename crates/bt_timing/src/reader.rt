// The text of a delay file: `slot S`, `half H`, `delay NAME D` for each terminal in any order, and `late NAME N` or
// `early NAME N` any number of times.
ghost use Rattle.std.specs.Prelude.{◌≡◌, ◌*◌, ◌<◌, ◌≤◌, length, IfOk, OnOk, All, IsTrue};
ghost use Rattle.bt_frame.specs.Range.{IsWithin};
ghost use Rattle.bt_frame.specs.declared.limits.TheConstants.{MOST_TEXT_BYTES};
ghost use Rattle.bt_net.specs.Name.{is_name};
ghost use Rattle.bt_net.specs.Terminals.{IsTerminal};
ghost use Rattle.bt_text.specs.Reading.{Gives};
ghost use Rattle.bt_text.specs.Text.{words, lines};
ghost use Rattle.bt_timing.specs.DelayText.{number_within, worded_number, number_line, slot_in, half_of, half_in, terminal_within, named_number, named_behind, delay_behind, change_behind, line_by, line_with, delays_in, nothing_known, behind_slot, times_of};
ghost use Rattle.bt_timing.specs.Times.{AreTimes, IsDelay};
ghost use Rattle.bt_timing.specs.declared.limits.TheConstants.{LEAST_SLOT_TICKS, MOST_SLOT_TICKS, MOST_HALF, MOST_DELAY};

use crate::delay_table::{DelayChange, DelayTable};
use crate::{
    LEAST_CHANGE, LEAST_SLOT_TICKS, MOST_DELAY, MOST_HALF, MOST_SLOT_TICKS, Timing, TimingCode,
    TimingFault,
};
use bt_frame::TermNo;
use bt_net::{Network, is_name};
use bt_text::{WordReader, fault_at, first_line, is_word, number};
use std::alloc::Global;

impl Timing {
    /// The numbers of a delay file for this network, with all changes of delays made, or the first line with a fault.
    pub fn read(alloc: Global, net: &Network, bytes: &[u8]) -> Result<Timing, TimingFault>
        requires short { length bytes.now ≤ MOST_TEXT_BYTES }
        ensures reading { Gives (λ times. times) result (times_of net.now bytes.now) }
        ensures times { IfOk result AreTimes }
        ensures terminals { IfOk result (λ times. length times.delays ≡ length net.now.terminals) }
    {
        let Some((line, rest)) = first_line(bytes) else {
            return Err(fault_at(TimingCode::G1, 1));
        };
        let slot = read_slot(line)?;
        read_from_half(alloc, net, slot, rest)
    }
}

// The ticks of a slot that the first line says.
fn read_slot(line: &[u8]) -> Result<u32, TimingFault>
    ensures reading { Gives (λ slot. slot) result (slot_in (words line.now)) }
    ensures in_range { IfOk result (IsWithin LEAST_SLOT_TICKS MOST_SLOT_TICKS) }
{
    let words = WordReader::of(line);
    number_line(b"slot", LEAST_SLOT_TICKS, MOST_SLOT_TICKS, 1, words)
}

// The guard in line 2, and what follows it.
fn read_from_half(
    alloc: Global,
    net: &Network,
    slot: u32,
    text: &[u8],
) -> Result<Timing, TimingFault>
    requires short { length text.now ≤ MOST_TEXT_BYTES }
    requires slot { IsWithin LEAST_SLOT_TICKS MOST_SLOT_TICKS slot }
    ensures reading { Gives (λ times. times) result (behind_slot net.now slot (lines text.now)) }
    ensures terminals { IfOk result (λ times. length times.delays ≡ length net.now.terminals) }
{
    let Some((line, rest)) = first_line(text) else {
        return Err(fault_at(TimingCode::G1, 2));
    };
    let half = read_half(slot, line)?;
    let delays = read_delays(alloc, net, rest)?;
    Ok(Timing { slot, half, delays })
}

// The ticks of the guard that the second line says.
fn read_half(slot: u32, line: &[u8]) -> Result<u32, TimingFault>
    ensures reading { Gives (λ half. half) result (half_in slot (words line.now)) }
    ensures fits { IfOk result (λ half. 2 * half < slot) }
{
    let half = number_line(b"half", 0, MOST_HALF, 2, WordReader::of(line))?;
    half_of(slot, half)
}

// A guard of which two leave something of a slot.
fn half_of(slot: u32, half: u32) -> Result<u32, TimingFault>
    requires small { half ≤ MOST_HALF }
    ensures reading { Gives (λ half. half) result (half_of slot half) }
    ensures fits { IfOk result (λ half. 2 * half < slot) }
{
    if 2 * half < slot {
        Ok(half)
    } else {
        Err(fault_at(TimingCode::G3, 2))
    }
}

// The delays of all terminals, from line 3 on.
fn read_delays(alloc: Global, net: &Network, text: &[u8]) -> Result<Vec<u32>, TimingFault>
    requires short { length text.now ≤ MOST_TEXT_BYTES }
    ensures reading { Gives (λ delays. delays.items) result
        (delays_in net.now 3 (nothing_known net.now) (lines text.now)) }
    ensures each { IfOk result (λ delays. All IsDelay delays.items) }
    ensures count { IfOk result (λ delays. length delays.items ≡ length net.now.terminals) }
{
    let mut table = DelayTable::new(alloc, net)?;
    let mut rest = text;
    let mut at = 3;
    while let Some((line, after)) = first_line(rest) {
        add_line(net, at, &mut table, WordReader::of(line))?;
        rest = after;
        at += 1;
    }
    if !rest.is_empty() {
        return Err(fault_at(TimingCode::G1, at));
    }
    table.all(alloc, at)
}

// Takes in the words of line `at`.
fn add_line(
    net: &Network,
    at: u32,
    table: &mut DelayTable,
    mut words: WordReader<'_>,
) -> Result<(), TimingFault>
    requires terminals { length table.old.known ≡ length net.now.terminals }
    ensures reading { Gives (λ _. table.new) result (line_with net.now at table.old words.entry) }
    ensures count { OnOk result (length table.new.known ≡ length table.old.known) }
{
    let Some(word) = words.next() else {
        return Err(fault_at(TimingCode::G1, at));
    };
    add_words(net, at, table, word, words)
}

// Takes in a line by its first word.
fn add_words(
    net: &Network,
    at: u32,
    table: &mut DelayTable,
    word: &[u8],
    rest: WordReader<'_>,
) -> Result<(), TimingFault>
    requires terminals { length table.old.known ≡ length net.now.terminals }
    ensures reading { Gives (λ _. table.new) result (line_by net.now at table.old word.now rest.entry) }
    ensures count { OnOk result (length table.new.known ≡ length table.old.known) }
{
    if is_word(word, b"delay") {
        add_delay(net, at, table, rest)
    } else if is_word(word, b"late") {
        add_change(net, at, table, DelayChange::Late, rest)
    } else if is_word(word, b"early") {
        add_change(net, at, table, DelayChange::Early, rest)
    } else {
        Err(fault_at(TimingCode::G1, at))
    }
}

// Takes in the words behind `delay`, which no line has behind a change.
fn add_delay(
    net: &Network,
    at: u32,
    table: &mut DelayTable,
    words: WordReader<'_>,
) -> Result<(), TimingFault>
    requires terminals { length table.old.known ≡ length net.now.terminals }
    ensures reading { Gives (λ _. table.new) result (delay_behind net.now at table.old words.entry) }
    ensures count { OnOk result (length table.new.known ≡ length table.old.known) }
{
    if table.is_changing() {
        return Err(fault_at(TimingCode::G1, at));
    }
    let (terminal, delay) = named_behind(net, at, 0, words)?;
    table.add_delay(at, terminal, delay)
}

// Takes in the words behind `late` or `early`.
fn add_change(
    net: &Network,
    at: u32,
    table: &mut DelayTable,
    change: DelayChange,
    words: WordReader<'_>,
) -> Result<(), TimingFault>
    requires terminals { length table.old.known ≡ length net.now.terminals }
    ensures reading { Gives (λ _. table.new) result
        (change_behind net.now at table.old change words.entry) }
    ensures count { OnOk result (length table.new.known ≡ length table.old.known) }
{
    let (terminal, ticks) = named_behind(net, at, LEAST_CHANGE, words)?;
    table.add_change(at, change, terminal, ticks)
}

// The number in range of a line that has this word and one.
fn number_line(
    name: &[u8],
    least: u32,
    most: u32,
    at: u32,
    mut words: WordReader<'_>,
) -> Result<u32, TimingFault>
    requires small { most ≤ MOST_DELAY }
    ensures reading { Gives (λ number. number) result (number_line name.now least most at words.entry) }
    ensures in_range { IfOk result (IsWithin least most) }
{
    let Some(word) = words.next() else {
        return Err(fault_at(TimingCode::G1, at));
    };
    let Some(digits) = words.next() else {
        return Err(fault_at(TimingCode::G1, at));
    };
    if !words.is_done() {
        return Err(fault_at(TimingCode::G1, at));
    }
    worded_number(name, least, most, at, word, digits)
}

// The number in range behind a word that is this one.
fn worded_number(
    name: &[u8],
    least: u32,
    most: u32,
    at: u32,
    word: &[u8],
    digits: &[u8],
) -> Result<u32, TimingFault>
    requires small { most ≤ MOST_DELAY }
    ensures reading { Gives (λ number. number) result
        (worded_number name.now least most at word.now digits.now) }
    ensures in_range { IfOk result (IsWithin least most) }
{
    if !is_word(word, name) {
        return Err(fault_at(TimingCode::G1, at));
    }
    let Some(number) = number(digits) else {
        return Err(fault_at(TimingCode::G1, at));
    };
    number_within(least, most, at, number)
}

// The terminal and the ticks in range of the words behind the first of line `at`.
fn named_behind(
    net: &Network,
    at: u32,
    least: u32,
    mut words: WordReader<'_>,
) -> Result<(TermNo, u32), TimingFault>
    ensures reading { Gives (λ named. named) result (named_behind net.now at least words.entry) }
    ensures terminal { IfOk result (λ named. IsTerminal net.now named.0) }
    ensures ticks { IfOk result (λ named. IsDelay named.1) }
{
    let Some(name) = words.next() else {
        return Err(fault_at(TimingCode::G1, at));
    };
    let Some(digits) = words.next() else {
        return Err(fault_at(TimingCode::G1, at));
    };
    if !words.is_done() {
        return Err(fault_at(TimingCode::G1, at));
    }
    named_number(net, at, least, name, digits)
}

// The terminal and the ticks in range of any two words.
fn named_number(
    net: &Network,
    at: u32,
    least: u32,
    name: &[u8],
    digits: &[u8],
) -> Result<(TermNo, u32), TimingFault>
    ensures reading { Gives (λ named. named) result
        (named_number net.now at least name.now digits.now) }
    ensures terminal { IfOk result (λ named. IsTerminal net.now named.0) }
    ensures ticks { IfOk result (λ named. IsDelay named.1) }
{
    if !is_name(name) {
        return Err(fault_at(TimingCode::G1, at));
    }
    let Some(number) = number(digits) else {
        return Err(fault_at(TimingCode::G1, at));
    };
    terminal_within(net, at, least, name, number)
}

// The terminal of a name, and ticks in range.
fn terminal_within(
    net: &Network,
    at: u32,
    least: u32,
    name: &[u8],
    number: u64,
) -> Result<(TermNo, u32), TimingFault>
    requires name { IsTrue (is_name name.now) }
    ensures reading { Gives (λ named. named) result
        (terminal_within net.now at least name.now number) }
    ensures terminal { IfOk result (λ named. IsTerminal net.now named.0) }
    ensures ticks { IfOk result (λ named. IsDelay named.1) }
{
    let Some(terminal) = net.terminal_of(name) else {
        return Err(fault_at(TimingCode::G2, at));
    };
    let ticks = number_within(least, MOST_DELAY, at, number)?;
    Ok((terminal, ticks))
}

// The number of line `at`, where it is in range.
fn number_within(least: u32, most: u32, at: u32, number: u64) -> Result<u32, TimingFault>
    ensures reading { Gives (λ number. number) result (number_within least most at number) }
    ensures in_range { IfOk result (IsWithin least most) }
{
    if u64::from(least) <= number && number <= u64::from(most) {
        Ok(number as u32)
    } else {
        Err(fault_at(TimingCode::G3, at))
    }
}
