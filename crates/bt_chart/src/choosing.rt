// What the words behind the file of a plan choose of it.
ghost use Rattle.std.specs.Prelude.{◌≡◌, map};
ghost use Rattle.std.specs.List.{list_any};
ghost use Rattle.std.specs.Str.{bytes_eq};
ghost use Rattle.std.specs.String.{string_bytes};
ghost use Rattle.bt_frame.specs.declared.limits.TheConstants.{MOST_BEAMS};
ghost use Rattle.bt_plan_chart.specs.Chart.{name_of_beam};
ghost use Rattle.bt_chart.specs.Choosing.{are_parts, beams_in, choice_of, is_beam, is_named, named_beams, range_between, range_of, slot_of, slots_in};

use crate::range::hyphen_in;
use bt_frame::{BeamNo, MOST_BEAMS};
use bt_net::Network;
use bt_plan_chart::{Choice, SlotRange};
use bt_text::number;

/// What the words choose.
pub(crate) fn choice_of(net: &Network, words: &[String]) -> Choice
    ensures { result ≡ choice_of net.now (map string_bytes words.now) }
{
    Choice {
        beams: beams_in(net, words),
        slots: slots_in(net.slots(), words),
    }
}

/// Whether each of the words is the name of a beam, but that the last may be slots.
pub(crate) fn are_parts(net: &Network, words: &[String]) -> bool
    ensures { result ≡ are_parts net.now (map string_bytes words.now) }
{
    let mut rest = words;
    while let [word, after @ ..] = rest {
        if !is_beam(net, word) {
            return after.is_empty() && range_of(net.slots(), word.as_bytes()).is_some();
        }
        rest = after;
    }
    true
}

/// Whether the word is the name of a beam.
fn is_beam(net: &Network, word: &str) -> bool
    ensures { result ≡ is_beam net.now word.now }
{
    for beam in 0..net.beam_count() {
        if word == net.beam_name(BeamNo(beam as u8)) {
            return true;
        }
    }
    false
}

/// By the number of a beam, whether a word names it; all beams where no word names one.
fn beams_in(net: &Network, words: &[String]) -> [bool; MOST_BEAMS]
    ensures { result ≡ beams_in net.now (map string_bytes words.now) }
{
    if any_beam(net, words) {
        named_beams(net, words)
    } else {
        [true; MOST_BEAMS]
    }
}

/// Whether one of the words is the name of a beam.
fn any_beam(net: &Network, words: &[String]) -> bool
    ensures { result ≡ list_any (is_beam net.now) (map string_bytes words.now) }
{
    let mut rest = words;
    while let [word, after @ ..] = rest {
        if is_beam(net, word) {
            return true;
        }
        rest = after;
    }
    false
}

/// By the number of a beam, whether a word names it.
fn named_beams(net: &Network, words: &[String]) -> [bool; MOST_BEAMS]
    ensures { result ≡ named_beams net.now (map string_bytes words.now) }
{
    let mut beams = [false; MOST_BEAMS];
    for beam in 0..MOST_BEAMS {
        beams[beam] = is_named(name_if_any(net, beam), words);
    }
    beams
}

/// The name of a beam, and nothing where the network has none of that number.
fn name_if_any(net: &Network, beam: usize) -> &str
    ensures { result.now ≡ name_of_beam net.now beam }
{
    if beam < net.beam_count() as usize {
        net.beam_name(BeamNo(beam as u8))
    } else {
        ""
    }
}

/// Whether one of the words is that name.
fn is_named(name: &str, words: &[String]) -> bool
    ensures { result ≡ list_any (bytes_eq name.now) (map string_bytes words.now) }
{
    let mut rest = words;
    while let [word, after @ ..] = rest {
        if name == word.as_str() {
            return true;
        }
        rest = after;
    }
    false
}

/// The slots that the last word is.
fn slots_in(slots: u32, words: &[String]) -> Option<SlotRange>
    ensures { result ≡ slots_in slots (map string_bytes words.now) }
{
    let mut rest = words;
    while let [word, after @ ..] = rest {
        if after.is_empty() {
            return range_of(slots, word.as_bytes());
        }
        rest = after;
    }
    None
}

/// The slots FIRST-LAST that a word is, of a frame of so many.
fn range_of(slots: u32, word: &[u8]) -> Option<SlotRange>
    ensures { result ≡ range_of slots word.now }
{
    let hyphen = hyphen_in(word)?;
    range_between(slots, &word[..hyphen], &word[hyphen + 1..])
}

/// The slots from the slot that one word is to that which another is.
fn range_between(slots: u32, first: &[u8], last: &[u8]) -> Option<SlotRange>
    ensures { result ≡ range_between slots first.now last.now }
{
    let first = slot_of(slots, first)?;
    let last = slot_of(slots, last)?;
    if first <= last {
        Some(SlotRange { first, last })
    } else {
        None
    }
}

/// The slot that a word is, of a frame of so many.
fn slot_of(slots: u32, word: &[u8]) -> Option<u32>
    ensures { result ≡ slot_of slots word.now }
{
    let slot = number(word)?;
    if slot < u64::from(slots) {
        Some(slot as u32)
    } else {
        None
    }
}
