// What a verdict says, looked up in the files: which modes, which bursts, which slot.
use crate::bytes::{line_at, number_at, word_of};
use crate::cause::{Cause, add_other_line};
use crate::fault::{Named, add_heading};
use crate::lines::Lines;
use crate::page::Page;
use crate::telling::Done;
use bt_frame::BeamNo;
use bt_net::Network;
use bt_text::is_word;
use std::alloc::Global;

/// A line of a text, with its number.
#[derive(Clone, Copy)]
struct At<'a> {
    at: u32,
    line: &'a [u8],
}

/// Tells of a verdict, whose last line is that of `done`. `plan` is the plan or the schedule, `asked` the traffic or the matrix.
pub fn tell_verdict(
    alloc: Global,
    done: &Done<'_>,
    plan: Named<'_>,
    asked: Named<'_>,
    page: &mut Page,
) -> bool {
    let code = word_of(done.line, 0);
    let mut cause = Cause::new(alloc);
    let is_of_asked = matches!(digit_of(code), b'7' | b'8');
    let found = if is_of_asked {
        find_asked(done.line, code, asked, &mut cause)
    } else {
        find_plan(done.line, code, plan, &mut cause)
    };
    let file = if is_of_asked { asked.file } else { plan.file };
    add_heading(done, file, found.map(|found| found.at), code, page);
    cause.add_why(page);
    if let Some(found) = found {
        cause.add_line(found.line, page);
    }
    cause.add_hint(page);
    cause.is_found()
}

/// The digit of a code.
fn digit_of(code: &[u8]) -> u8 {
    code.get(1).copied().unwrap_or(b' ')
}

/// Looks up the line of the plan or of the schedule that a verdict means.
fn find_plan<'a>(
    verdict: &[u8],
    code: &[u8],
    plan: Named<'a>,
    cause: &mut Cause,
) -> Option<At<'a>> {
    let first = number_at(verdict, 1).unwrap_or(0);
    match digit_of(code) {
        b'1' => {
            let mode = nth_line(plan.text, b"mode", first)?;
            find_no_permutation(mode.line, plan.beams, plan.net, cause);
            Some(mode)
        }
        b'2' => {
            cause.say_at(5, 1, "this mode is held for no slot");
            nth_line(plan.text, b"mode", first)
        }
        b'3' => find_sum(first, plan, cause),
        b'4' => find_length(verdict, plan, cause),
        b'5' => find_meeting(first, number_at(verdict, 2).unwrap_or(0), plan, cause),
        b'6' => find_unheld(first, plan, cause),
        _ => None,
    }
}

/// The line of that number, from 0, of those whose first word is this.
fn nth_line<'a>(text: &'a [u8], word: &[u8], number: u32) -> Option<At<'a>> {
    let mut before: u32 = 0;
    for (at, line) in Lines::of(text) {
        if is_word(word_of(line, 0), word) {
            if before == number {
                return Some(At { at, line });
            }
            before = before.saturating_add(1);
        }
    }
    None
}

/// Says why a mode is no permutation of the beams.
fn find_no_permutation(mode: &[u8], beams: u32, net: Option<&Network>, cause: &mut Cause) {
    for up in 0..beams {
        let index = (up as usize).saturating_add(2);
        if number_at(mode, index).unwrap_or(beams) >= beams {
            cause.say_of_word(
                mode,
                index,
                "no beam has this number: they are counted from 0, and there are ",
            );
            return cause.why.add_number(u64::from(beams));
        }
        if let Some(other) = stands_before(mode, index, word_of(mode, index)) {
            cause.say_of_word(
                mode,
                index,
                "this downlink beam stands in the mode already: two uplink beams would come down in it",
            );
            return say_both(net, other, up, number_at(mode, index).unwrap_or(0), cause);
        }
    }
}

/// The uplink beam whose downlink beam in a mode, before the word of that number, is this word.
fn stands_before(mode: &[u8], index: usize, word: &[u8]) -> Option<u32> {
    let mut up: u32 = 0;
    for other in 2..index {
        if word_of(mode, other) == word {
            return Some(up);
        }
        up = up.saturating_add(1);
    }
    None
}

/// Names two uplink beams and the downlink beam in which both would come down, where there is a network.
fn say_both(net: Option<&Network>, one: u32, other: u32, down: u32, cause: &mut Cause) {
    let Some(net) = net else {
        return;
    };
    cause.say(", ");
    cause.say(name_of_beam(net, one));
    cause.say(" and ");
    cause.say(name_of_beam(net, other));
    cause.say(" in ");
    cause.say(name_of_beam(net, down));
}

/// The name of the beam of a number, nothing where the network has none of it.
fn name_of_beam(net: &Network, beam: u32) -> &str {
    if beam < net.beam_count() {
        net.beam_name(BeamNo(beam as u8))
    } else {
        ""
    }
}

/// Says that the modes do not fill the length.
fn find_sum<'a>(sum: u32, plan: Named<'a>, cause: &mut Cause) -> Option<At<'a>> {
    cause.say("the modes are held for ");
    cause.why.add_number(u64::from(sum));
    cause.say(" slots together, and this is the length");
    let length = nth_line(plan.text, b"length", 0)?;
    cause.mark_word(length.line, 1);
    Some(length)
}

/// Says that the length is not the greatest line sum, or that the critical line does not have it.
fn find_length<'a>(verdict: &[u8], plan: Named<'a>, cause: &mut Cause) -> Option<At<'a>> {
    let (side, beam) = (word_of(verdict, 1), number_at(verdict, 2).unwrap_or(0));
    let sum = number_at(verdict, 3).unwrap_or(0);
    let length = nth_line(plan.text, b"length", 0)?;
    let is_length = number_at(length.line, 1) != Some(sum);
    if is_length {
        cause.say_of_word(
            length.line,
            1,
            "the length is to be the greatest line sum, ",
        );
        cause.why.add_number(u64::from(sum));
        cause.say(": that of ");
    } else {
        cause.say("the critical line is to have the greatest line sum, ");
        cause.why.add_number(u64::from(sum));
        cause.say(", as has ");
    }
    say_line_of(side, beam, plan.net, cause);
    if is_length {
        Some(length)
    } else {
        nth_line(plan.text, b"critical", 0)
    }
}

/// Names a row or a column, and what its beam does.
pub fn say_line_of(side: &[u8], beam: u32, net: Option<&Network>, cause: &mut Cause) {
    cause.why.add_bytes(side);
    cause.say(" ");
    cause.why.add_number(u64::from(beam));
    if let Some(net) = net
        && beam < net.beam_count()
    {
        cause.say(", what beam ");
        cause.say(name_of_beam(net, beam));
        cause.say(if is_word(side, b"row") {
            " sends"
        } else {
            " receives"
        });
    }
}

/// The name of the beam of the terminal of a name.
fn beam_of<'n>(net: &'n Network, name: &[u8]) -> Option<&'n str> {
    let terminal = net.terminal_named(name)?;
    Some(net.beam_name(net.beam_of(terminal)))
}

/// Says where two bursts meet.
fn find_meeting<'a>(first: u32, second: u32, plan: Named<'a>, cause: &mut Cause) -> Option<At<'a>> {
    let one = nth_line(plan.text, b"burst", first)?;
    let other = nth_line(plan.text, b"burst", second)?;
    cause.say("this burst and that of line ");
    cause.why.add_number(u64::from(one.at));
    if let Some(net) = plan.net {
        say_beam_of_both(net, one.line, other.line, cause);
    }
    cause.say(" in slot ");
    let slot = number_at(one.line, 1)
        .unwrap_or(0)
        .max(number_at(other.line, 1).unwrap_or(0));
    cause.why.add_number(u64::from(slot));
    add_other_line(one.at, one.line, &mut cause.note);
    Some(other)
}

fn say_beam_of_both(net: &Network, one: &[u8], other: &[u8], cause: &mut Cause) {
    let (from, to) = (
        beam_of(net, word_of(other, 3)),
        beam_of(net, word_of(other, 4)),
    );
    let is_up = is_same(from, beam_of(net, word_of(one, 3)));
    let (index, beam) = if is_up { (3, from) } else { (4, to) };
    cause.mark_word(other, index);
    cause.say(if is_up {
        " both go up in beam "
    } else {
        " both come down in beam "
    });
    cause.say(beam.unwrap_or(""));
}

fn is_same(one: Option<&str>, other: Option<&str>) -> bool {
    match (one, other) {
        (Some(one), Some(other)) => one == other,
        _ => false,
    }
}

/// Says that a burst lies in no mode of its beams.
fn find_unheld<'a>(burst: u32, plan: Named<'a>, cause: &mut Cause) -> Option<At<'a>> {
    let found = nth_line(plan.text, b"burst", burst)?;
    cause.say("no mode connects the beams of this burst in all of its slots");
    if let Some(net) = plan.net {
        let (from, to) = (word_of(found.line, 3), word_of(found.line, 4));
        cause.say(": it goes up in beam ");
        cause.say(beam_of(net, from).unwrap_or(""));
        cause.say(" and comes down in beam ");
        cause.say(beam_of(net, to).unwrap_or(""));
    }
    Some(found)
}

/// Looks up the line of the traffic or of the matrix that a verdict means.
fn find_asked<'a>(
    verdict: &[u8],
    code: &[u8],
    asked: Named<'a>,
    cause: &mut Cause,
) -> Option<At<'a>> {
    let want = number_at(verdict, 3).unwrap_or(0);
    let have = number_at(verdict, 4).unwrap_or(0);
    if is_word(code, b"V7") {
        say_want("this link", want, "its bursts have ", have, cause);
        link_line(asked.text, word_of(verdict, 1), word_of(verdict, 2), cause)
    } else {
        say_want("this connection", want, "the modes give it ", have, cause);
        let (up, down) = (number_at(verdict, 1)?, number_at(verdict, 2)?);
        let at = up.saturating_add(2);
        let line = line_at(asked.text, at)?.bytes;
        cause.mark_word(line, down as usize);
        Some(At { at, line })
    }
}

fn say_want(what: &str, want: u32, whose: &str, have: u32, cause: &mut Cause) {
    cause.say(what);
    cause.say(" wants ");
    cause.why.add_number(u64::from(want));
    cause.say(" slots, and ");
    cause.say(whose);
    cause.why.add_number(u64::from(have));
}

/// The line of a link of traffic.
fn link_line<'a>(text: &'a [u8], from: &[u8], to: &[u8], cause: &mut Cause) -> Option<At<'a>> {
    for (at, line) in Lines::of(text) {
        if word_of(line, 1) == from && word_of(line, 2) == to {
            cause.mark_word(line, 3);
            return Some(At { at, line });
        }
    }
    cause.hint.add("the traffic has no link ");
    cause.hint.add_bytes(from);
    cause.hint.add(" ");
    cause.hint.add_bytes(to);
    None
}
