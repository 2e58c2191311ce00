// Demands and sizes that do not fit.
use crate::bytes::{bytes_at, number_at, word_of};
use crate::cause::{Cause, INDENT, add_other_line};
use crate::fault::{Named, add_heading};
use crate::lines::Lines;
use crate::page::Page;
use crate::plan::beams_of;
use crate::telling::Done;
use crate::verdict::say_line_of;
use bt_frame::BeamNo;
use bt_net::Network;
use bt_text::is_word;
use std::alloc::Global;

/// Tells that a line of the traffic matrix asks for more slots than the frame has.
pub fn tell_fit(alloc: Global, done: &Done<'_>, traffic: Named<'_>, page: &mut Page) -> bool {
    let (side, beam) = (word_of(done.line, 2), number_at(done.line, 3).unwrap_or(0));
    let mut cause = Cause::new(alloc);
    say_load(done.line, traffic.net, &mut cause);
    if let Some(net) = traffic.net {
        ask_largest(net, traffic.text, side, beam, &mut cause);
    }
    let tells_all = done
        .words
        .first()
        .is_some_and(|command| command.as_str() == "capacity");
    if !tells_all {
        cause.hint.add("'capacity' tells each line that is over");
    }
    add_heading(done, traffic.file, None, b"T6", page);
    cause.add_why(page);
    cause.add_hint(page);
    if tells_all && let Some(net) = traffic.net {
        add_lines_over(net, traffic.text, page);
    }
    true
}

/// Says how many slots a frame has, and what the line asks for that a printed line names.
pub fn say_load(printed: &[u8], net: Option<&Network>, cause: &mut Cause) {
    let (side, beam) = (word_of(printed, 2), number_at(printed, 3).unwrap_or(0));
    cause.say("a frame has ");
    cause
        .why
        .add_number(u64::from(net.map_or(0, |net| net.slots())));
    cause.say(" slots, and ");
    say_line_of(side, beam, net, cause);
    cause.say(", asks for ");
    cause.why.add_bytes(word_of(printed, 4));
}

/// Appends each line that asks for more slots than the frame has: by how many, and its links.
fn add_lines_over(net: &Network, text: &[u8], page: &mut Page) {
    for number in 0..net.beam_count() {
        let beam = net.beam_name(BeamNo(number as u8));
        add_line_over(net, text, number, 1, (beam, " sends"), page);
        add_line_over(net, text, number, 2, (beam, " receives"), page);
    }
}

/// Appends what a beam does, where it is more than the frame has; the name of its terminal is the word of that number of a link.
fn add_line_over(
    net: &Network,
    text: &[u8],
    beam: u32,
    index: usize,
    does: (&str, &str),
    page: &mut Page,
) {
    let over = asked_of(net, text, beam, index).saturating_sub(u64::from(net.slots()));
    if over == 0 {
        return;
    }
    page.add(INDENT);
    page.add("over by ");
    page.add_number(over);
    page.add(": what beam ");
    page.add(does.0);
    page.add(does.1);
    page.add("\n");
    for (_, line) in Lines::of(text) {
        if is_in(net, word_of(line, index), beam) {
            page.add(INDENT);
            page.add(INDENT);
            page.add_bytes(line);
            page.add("\n");
        }
    }
}

/// The slots of the links of which the word of that number names a terminal of a beam.
fn asked_of(net: &Network, text: &[u8], beam: u32, index: usize) -> u64 {
    let mut asked: u64 = 0;
    for (_, line) in Lines::of(text) {
        if is_in(net, word_of(line, index), beam) {
            asked = asked.saturating_add(u64::from(number_at(line, 3).unwrap_or(0)));
        }
    }
    asked
}

/// Names the line that asks for most of a row or a column.
fn ask_largest(net: &Network, text: &[u8], side: &[u8], beam: u32, cause: &mut Cause) {
    let index = if is_word(side, b"row") { 1 } else { 2 };
    let (mut most, mut largest) = (0, (0, b"".as_slice()));
    for (at, line) in Lines::of(text) {
        let units = number_at(line, 3).unwrap_or(0);
        if units > most && is_in(net, word_of(line, index), beam) {
            most = units;
            largest = (at, line);
        }
    }
    if most > 0 {
        cause.note.add("its largest link: ");
        add_other_line(largest.0, largest.1, &mut cause.note);
    }
}

/// Whether the terminal of a name is in that beam.
fn is_in(net: &Network, name: &[u8], beam: u32) -> bool {
    match net.terminal_named(name) {
        Some(terminal) => u32::from(net.beam_of(terminal).0) == beam,
        None => false,
    }
}

/// Tells that a matrix has too many beams for fewer transponders, or too few.
pub fn tell_size(alloc: Global, done: &Done<'_>, matrix: Named<'_>, page: &mut Page) -> bool {
    let mut cause = Cause::new(alloc);
    let beams = beams_of(matrix.text);
    cause.say("the matrix has ");
    cause.why.add_number(u64::from(beams));
    if beams > 16 {
        cause.say(" beams, and 16 is the most for fewer transponders");
    } else {
        cause.say(" beams, and there are more transponders than that");
    }
    let line = bytes_at(matrix.text, 1);
    cause.mark_word(line, 0);
    add_heading(done, matrix.file, Some(1), b"X3", page);
    cause.add_why(page);
    cause.add_line(line, page);
    true
}
