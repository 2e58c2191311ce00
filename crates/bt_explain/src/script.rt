// What is wrong with a line of a script, where its words have a form; and what may help where its first word is none of a script.
use crate::bytes::word_of;
use crate::cause::Cause;
use crate::fault::Fault;
use crate::form::forms_of;
use crate::lines::{Lines, Words};
use bt_frame::MOST_DIGITS;
use bt_script::Sites;
use bt_talk::help_text;
use bt_text::{is_word, number};
use std::alloc::Global;

/// Finds out why a line of a script is at fault that has a form.
pub fn find_script(fault: &Fault<'_>, cause: &mut Cause) {
    match fault.digit {
        b'1' => find_long_number(fault.line, cause),
        b'4' => find_round(fault, cause),
        b'5' => cause.say("a script has 20000 lines at most"),
        _ => {}
    }
}

/// Looks for a number of too many digits.
pub fn find_long_number(line: &[u8], cause: &mut Cause) {
    for (at, word) in Words::of(line) {
        if word.len() > MOST_DIGITS && number(word).is_some() {
            return cause.say_at(at, word.len(), "a number of a script has 10 digits at most");
        }
    }
}

/// Says why no round is open at a line.
fn find_round(fault: &Fault<'_>, cause: &mut Cause) {
    cause.say_of_word(
        fault.line,
        0,
        "this stands in a round, and no round is open here",
    );
    if stands_above(fault, b"restart") {
        cause
            .hint
            .add("a 'restart' ends its round: put a line 'round' behind it");
    } else {
        cause.hint.add("put a line 'round' before it");
    }
}

/// Whether a line is this one above the line at fault.
fn stands_above(fault: &Fault<'_>, wanted: &[u8]) -> bool {
    for (at, line) in Lines::of(fault.text) {
        if at >= fault.at {
            return false;
        }
        if line == wanted {
            return true;
        }
    }
    false
}

/// Helps where a line of a session begins with a word that stands behind the number of a desk.
pub fn ask_desk(word: &[u8], letter: u8, cause: &mut Cause) {
    if matches!(letter, b'L' | b'B') && is_of_desk(word) {
        say_desk(cause);
    }
}

fn say_desk(cause: &mut Cause) {
    cause.hint.clear();
    cause.hint.add("put 'desk D' in front");
}

/// Helps where a line of a script begins with a word of another place.
pub fn ask_slip(alloc: Global, word: &[u8], cause: &mut Cause) {
    if is_of_desk(word) {
        say_desk(cause);
    } else if begins_session_line(alloc, word) {
        cause.hint.clear();
        cause.hint.add("only a session has this line");
    }
}

/// Whether a word stands behind the number of a desk.
fn is_of_desk(word: &[u8]) -> bool {
    forms_of(b'S', 1).iter().any(|form| match *form {
        [first, _, own, ..] => first.is_alone(b"desk") && own.is_alone(word),
        _ => false,
    })
}

/// Whether a line of a session begins with this word, by what a session tells of its lines. Where memory is wanting, none does.
fn begins_session_line(alloc: Global, word: &[u8]) -> bool {
    match help_text(alloc, Sites::Together) {
        Ok(help) => Lines::of(help.as_slice()).any(|(_, line)| is_word(told_first(line), word)),
        Err(_) => false,
    }
}

/// The first word of the line that a line of help tells of: a colon stands behind the last.
fn told_first(line: &[u8]) -> &[u8] {
    match word_of(line, 0) {
        [word @ .., b':'] => word,
        word => word,
    }
}
