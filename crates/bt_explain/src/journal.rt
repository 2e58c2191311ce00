// What is wrong with a line of a journal, where its words have a form.
use crate::bytes::{number_at, word_of};
use crate::cause::Cause;
use crate::fault::Fault;
use crate::lines::Lines;
use crate::near::ask_terminal;
use bt_net::Network;
use bt_text::is_word;
use std::alloc::Global;

/// What is to be done with a journal of another network.
const CARRIED: &str =
    "'carry NET JOURNAL NEWNET' prints a journal's demand as one of another network, by the names of terminals";

/// Finds out why a line of a journal is at fault that has a form.
pub fn find_journal(alloc: Global, fault: &Fault<'_>, cause: &mut Cause) {
    if fault.digit == b'1' {
        find_stranger(alloc, fault, cause);
    } else if is_word(word_of(fault.line, 0), b"journal") {
        find_mark(fault, cause);
    } else if is_word(word_of(fault.line, 0), b"edit") {
        find_edit(fault, cause);
    } else if is_word(word_of(fault.line, 0), b"plan") {
        cause.say(
            "the book would refuse this plan here: it is no newer than the last one, its edition is not made yet, or it is not good for the demand of that edition",
        );
    } else {
        cause.say(
            "the book would refuse this order here: its command is not the one behind the last, or its edition has no plan",
        );
    }
}

/// Looks for a name of an edit that no terminal has.
fn find_stranger(alloc: Global, fault: &Fault<'_>, cause: &mut Cause) {
    if is_word(word_of(fault.line, 0), b"plan") {
        return cause.say("what stands behind 'plan' is no plan for this network");
    }
    let Some(net) = fault.net else {
        return;
    };
    if is_word(word_of(fault.line, 0), b"edit") {
        find_stranger_of(alloc, net, fault.line, cause);
    }
}

fn find_stranger_of(alloc: Global, net: &Network, line: &[u8], cause: &mut Cause) {
    let behind: usize = if is_word(word_of(line, 2), b"move") {
        7
    } else {
        5
    };
    for index in 3..behind {
        let name = word_of(line, index);
        if net.terminal_named(name).is_none() {
            cause.say_of_word(line, index, "no terminal has this name");
            cause.note.add(CARRIED);
            return ask_terminal(alloc, net, name, &mut cause.hint);
        }
    }
}

/// Says why a mark does not stand rightly.
fn find_mark(fault: &Fault<'_>, cause: &mut Cause) {
    let (beams, terminals) = match fault.net {
        Some(net) => (net.beam_count(), net.terminal_count()),
        None => (0, 0),
    };
    if number_at(fault.line, 2) == Some(beams) && number_at(fault.line, 3) == Some(terminals) {
        cause.say("this is a second mark, and a journal has one");
    } else {
        cause.say("this mark is of another network: this one has ");
        cause.why.add_number(u64::from(beams));
        cause.say(" beams and ");
        cause.why.add_number(u64::from(terminals));
        cause.say(" terminals");
        cause.hint.add(CARRIED);
    }
}

/// Says why an edit does not follow.
fn find_edit(fault: &Fault<'_>, cause: &mut Cause) {
    let next = edits_above(fault).saturating_add(1);
    if number_at(fault.line, 1) == Some(next) {
        say_refused(fault.line, cause);
    } else {
        cause.say_of_word(fault.line, 1, "the edit that follows here makes edition ");
        cause.why.add_number(u64::from(next));
    }
}

/// Says why the book would refuse an edit.
fn say_refused(line: &[u8], cause: &mut Cause) {
    let kind = word_of(line, 2);
    if word_of(line, 3) == word_of(line, 4) {
        cause.say_of_word(line, 4, "both ends of this link are one terminal");
    } else if is_word(kind, b"add") {
        cause.say(
            "the book would refuse this edit here: a beam would be asked for more slots than a frame has",
        );
    } else if is_word(kind, b"drop") {
        cause.say("the book would refuse this edit here: it takes more slots than the link has");
    } else {
        cause.say(
            "the book would refuse this edit here: the ends of a link are one terminal, it takes more slots than the link has, or a beam would be asked for more than a frame has",
        );
    }
}

/// How many edits stand above a line.
fn edits_above(fault: &Fault<'_>) -> u32 {
    let mut edits: u32 = 0;
    for (at, line) in Lines::of(fault.text) {
        if at >= fault.at {
            return edits;
        }
        if is_word(word_of(line, 0), b"edit") {
            edits = edits.saturating_add(1);
        }
    }
    edits
}
