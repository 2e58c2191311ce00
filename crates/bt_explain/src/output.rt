// What is wrong with a line of what a run printed.
use crate::cause::Cause;
use crate::fault::Fault;
use crate::lines::Words;
use crate::near::{Near, is_beam};
use crate::walk::say_number;
use bt_frame::LAST_EDITION;
use bt_net::Network;
use bt_text::{is_word, number};
use bt_words::{Form, Token, forms_from, is_moment, is_tag, tokens_of};
use memchr::memchr;
use std::alloc::Global;

/// The words with which the lines of a run and of a session begin: the table has the forms of each, and their words.
const HEADS: [&str; 31] = [
    "start",
    "round",
    "restart",
    "total",
    "desk",
    "plan",
    "burst",
    "tick",
    "turn",
    "back",
    "ahead",
    "order",
    "flow",
    "got",
    "lost",
    "deliver",
    "frame",
    "air",
    "reset",
    "standby",
    "sent",
    "fault",
    "ready",
    "block",
    "stopped",
    "lines",
    "superframe",
    "status",
    "last",
    "missing",
    "asks",
];

/// The words at places of the table that it leaves open: what the satellite or a terminal does with a message that is for it.
const ANSWERS: [&str; 10] = [
    "accepted",
    "stale",
    "busy",
    "notloaded",
    "toolate",
    "took",
    "held",
    "stored",
    "older",
    "inuse",
];

/// Looks for the first word that no line of a run has.
pub fn find_output(alloc: Global, fault: &Fault<'_>, cause: &mut Cause) {
    for (at, word) in Words::of(fault.line) {
        if !is_told(word) && !is_spoken(word) && !is_named(fault.net, word) {
            return say_word(alloc, at, word, cause);
        }
    }
    cause.say("no line of a run has these words in this order");
}

/// Whether a word is a number, a tag or a moment.
fn is_told(word: &[u8]) -> bool {
    is_number(word) || is_tag(word) || is_moment(word)
}

/// Whether a word is a number, or a superframe and the number of a frame of it.
fn is_number(word: &[u8]) -> bool {
    match memchr(b'.', word) {
        Some(at) => {
            let behind = at.saturating_add(1);
            number(word.get(..at).unwrap_or(&[])).is_some()
                && number(word.get(behind..).unwrap_or(&[])).is_some()
        }
        None => number(word).is_some(),
    }
}

/// Whether a word stands in some line of a run.
fn is_spoken(word: &[u8]) -> bool {
    HEADS.iter().any(|head| {
        forms_from(head.as_bytes())
            .iter()
            .any(|form| has_word(*form, word))
    }) || ANSWERS
        .iter()
        .any(|answer| is_word(word, answer.as_bytes()))
}

/// Whether a line of this form has this word, whatever stands at its open places.
fn has_word(form: Form, word: &[u8]) -> bool {
    tokens_of(form).iter().any(
        |token| matches!(*token, Token::Text(text) if is_word(word, text.as_bytes())),
    )
}

/// Whether a terminal or a beam has this name.
fn is_named(net: Option<&Network>, word: &[u8]) -> bool {
    net.is_some_and(|net| net.terminal_named(word).is_some() || is_beam(net, word))
}

/// Says that a word is none of a run's lines.
fn say_word(alloc: Global, at: usize, word: &[u8], cause: &mut Cause) {
    match word {
        [b'0'..=b'9' | b'-' | b'+', ..] => {
            cause.mark(at, word.len());
            say_number(word, 0, LAST_EDITION, cause);
        }
        _ => {
            cause.say_at(
                at,
                word.len(),
                "no line of a run has this word, and it is no name of this network",
            );
            ask_spoken(alloc, word, cause);
        }
    }
}

fn ask_spoken(alloc: Global, word: &[u8], cause: &mut Cause) {
    let mut near = Near::to(word);
    for head in &HEADS {
        for form in forms_from(head.as_bytes()) {
            look_at_words(alloc, *form, &mut near);
        }
    }
    for answer in &ANSWERS {
        near.look(alloc, *answer);
    }
    near.ask(&mut cause.hint);
}

fn look_at_words(alloc: Global, form: Form, near: &mut Near<'_>) {
    for token in tokens_of(form) {
        if let Token::Text(text) = *token {
            near.look(alloc, text);
        }
    }
}
