// Words that are none of a command: which of them, and what is wanted.
use crate::bytes::word_of;
use crate::lines::Words;
use crate::near::{Near, ask_beam, ask_terminal, is_beam};
use crate::page::Page;
use crate::telling::{Done, add_program, name_of};
use bt_frame::{LAST_EDITION, LAST_MARK, MOST_DESKS, MOST_NUMBERED_BEAMS};
use bt_net::Network;
use bt_report::{Program, Refusal};
use bt_text::{is_word, number};
use std::alloc::Global;

/// Tells which word of a command line is wrong. `net` is the network that the words name, where it is one.
pub fn tell_words(alloc: Global, done: &Done<'_>, net: Option<&Network>, page: &mut Page) -> bool {
    add_program(done, page);
    if let Some(refusal) = done.refusal {
        say_refusal(refusal, page);
        return true;
    }
    match done.words.split_first() {
        None => page.add("no command was given"),
        Some((command, _)) if !is_command(done.forms, command) => {
            say_command(alloc, done.forms, command, page);
        }
        Some((command, behind)) => say_behind(alloc, done, command, behind, net, page),
    }
    page.add("\n");
    add_usages(done, page);
    true
}

/// Says why the words were taken as none.
fn say_refusal(refusal: &Refusal, page: &mut Page) {
    match refusal {
        Refusal::NoText { number, bytes } => {
            say_number(*number, page);
            page.add(" is not UTF-8: '");
            page.add_escaped(bytes.as_slice());
        }
        Refusal::OneFile {
            number,
            name,
            journal,
        } => {
            say_number(*number, page);
            page.add(" and the last one name one file, which cannot be a journal too: '");
            page.add_name(name);
            page.add("' and '");
            page.add_name(journal);
        }
    }
    page.add("'\n");
}

/// Names a word by its number, counted from 1 behind the program's name.
fn say_number(number: usize, page: &mut Page) {
    if number == 0 {
        page.add("the program's own name");
    } else {
        page.add("word ");
        page.add_number(number as u64);
        page.add(" behind the program's name");
    }
}

/// Whether a form begins with that command.
pub fn is_form_of(usage: &str, command: &str) -> bool {
    is_word(word_of(usage.as_bytes(), 0), command.as_bytes())
}

fn is_command(forms: &[&str], command: &str) -> bool {
    forms.iter().any(|usage| is_form_of(usage, command))
}

/// Says that there is no such command, and asks for one that is near.
fn say_command(alloc: Global, forms: &[&str], command: &str, page: &mut Page) {
    page.add("no command is called '");
    page.add_name(command);
    page.add("'");
    let mut near = Near::to(command.as_bytes());
    for usage in forms {
        if let Some((name, _)) = usage.split_once(' ') {
            near.look(alloc, name);
        }
    }
    if near.is_found() {
        page.add("; ");
        near.ask(page);
    }
}

/// Says what is wrong with the words behind a command.
fn say_behind(
    alloc: Global,
    done: &Done<'_>,
    command: &str,
    behind: &[String],
    net: Option<&Network>,
    page: &mut Page,
) {
    let has_empty = behind.iter().any(|word| word.as_str().is_empty());
    if !is_counted(done.forms, command, behind.len()) {
        say_counts(done.forms, command, behind.len(), page);
    } else if has_empty {
        page.add("one of the words is empty");
    } else if done.program == Program::Station {
        say_site(command, behind, page);
    } else if done.program == Program::Chart && command == "plan" {
        say_part(alloc, behind, net, page);
    } else if done.program == Program::Chart && command == "page" {
        page.add("the words behind JOURNAL are to be ANSWERS, or every SECONDS, or both, ");
        page.add("SECONDS 1 to 86400, in digits without a 0 in front");
    } else if done.program == Program::Chart {
        say_stranger(alloc, behind, net, page);
    } else if command == "demand" {
        say_edition(0, "edition", behind, page);
    } else if command == "installed" {
        say_edition(1, "plan of edition", behind, page);
    } else if command == "edits" {
        say_desk(page);
    } else {
        say_numbers(behind, page);
    }
}

/// Says that the second word behind a command of a site is no superframe, or the name of no terminal.
fn say_site(command: &str, behind: &[String], page: &mut Page) {
    if command == "satellite" {
        page.add("MARK is to be 0 to ");
        page.add_number(u64::from(LAST_MARK));
        page.add(", in digits without a 0 in front");
    } else if let [_, name, ..] = behind {
        page.add("no terminal of the network is called '");
        page.add_name(name);
        page.add("'");
    }
}

/// Whether a form of a command has so many words.
fn is_counted(forms: &[&str], command: &str, count: usize) -> bool {
    forms.iter().any(|usage| is_form_of(usage, command) && has_count(usage.as_bytes(), count))
}

/// Whether a form has so many words behind its command.
pub fn has_count(usage: &[u8], count: usize) -> bool {
    let (least, most) = counts_of(usage);
    least <= count && count <= most
}

/// The fewest and the most words of a form behind its command; those that begin with a `[` or end with a `]` may be wanting, and
/// where `..` stands there may be any number of them.
fn counts_of(usage: &[u8]) -> (usize, usize) {
    // the command itself is none of them
    let (mut least, mut most): (usize, usize) = (0, 0);
    for (at, word) in Words::of(usage) {
        match word {
            _ if at == 0 => {}
            [b'.', ..] => return (least, usize::MAX),
            [b'[', ..] | [.., b']'] => most = most.saturating_add(1),
            _ => {
                least = least.saturating_add(1);
                most = most.saturating_add(1);
            }
        }
    }
    (least, most)
}

/// Says how many words a command takes, and that there are others.
fn say_counts(forms: &[&str], command: &str, count: usize, page: &mut Page) {
    page.add(command);
    let mut is_first = true;
    for usage in forms {
        if is_form_of(usage, command) {
            page.add(if is_first { " takes " } else { ", or " });
            add_counts(usage, page);
            is_first = false;
        }
    }
    page.add("; ");
    if count == 0 {
        page.add("none");
    } else {
        page.add_number(count as u64);
    }
    page.add(if count > 1 {
        " were given"
    } else {
        " was given"
    });
}

/// Appends how many words a form has, and their names.
fn add_counts(usage: &str, page: &mut Page) {
    let (least, most) = counts_of(usage.as_bytes());
    page.add_number(least as u64);
    if most == usize::MAX {
        page.add(" or more");
    } else if most > least {
        page.add(if most.saturating_sub(least) == 1 {
            " or "
        } else {
            " to "
        });
        page.add_number(most as u64);
    }
    page.add(if most == 1 { " word" } else { " words" });
    if let Some((_, names)) = usage.split_once(' ') {
        page.add(", ");
        page.add(names);
    }
}

/// Says which NAME is that of no terminal.
fn say_stranger(alloc: Global, behind: &[String], net: Option<&Network>, page: &mut Page) {
    page.add("a NAME is that of no terminal");
    let (Some(net), [_, _, words @ ..]) = (net, behind) else {
        return;
    };
    for name in names_of(words) {
        if net.terminal_named(name.as_bytes()).is_none() {
            page.add(": '");
            page.add_name(name);
            page.add("'");
            return ask_stranger(alloc, net, name, page);
        }
    }
}

/// The names behind the words that choose superframes, `all` and FIRST-LAST.
fn names_of(words: &[String]) -> &[String] {
    let behind = match words {
        [word, rest @ ..] if word.as_str() == "all" => rest,
        _ => words,
    };
    match behind {
        [word, names @ ..] if is_range(word) => names,
        _ => behind,
    }
}

/// Whether a word is two numbers with a hyphen between them, the first at most the last.
fn is_range(word: &str) -> bool {
    let Some((first, last)) = word.split_once('-') else {
        return false;
    };
    match (number(first.as_bytes()), number(last.as_bytes())) {
        (Some(first), Some(last)) => first <= last && last <= u64::from(u32::MAX),
        _ => false,
    }
}

/// Says where superframes stand for a word that has a `-`, and asks for a terminal for another.
fn ask_stranger(alloc: Global, net: &Network, name: &str, page: &mut Page) {
    if name.contains('-') {
        page.add("; superframes FIRST-LAST stand in front of the names, FIRST at most LAST");
        return;
    }
    let mut hint = Page::new(alloc);
    ask_terminal(alloc, net, name.as_bytes(), &mut hint);
    add_hint(&hint, page);
}

/// Appends a hint, where there is one.
fn add_hint(hint: &Page, page: &mut Page) {
    if !hint.is_empty() {
        page.add("; ");
        page.add_page(hint);
    }
}

/// Says which word behind a plan is no beam, and no slots that may stand there.
fn say_part(alloc: Global, behind: &[String], net: Option<&Network>, page: &mut Page) {
    page.add(
        "a word behind PLAN is neither a beam nor, as the last, slots FIRST-LAST of the frame",
    );
    let (Some(net), [_, _, words @ ..]) = (net, behind) else {
        return;
    };
    for word in words {
        if !is_beam(net, word.as_bytes()) {
            page.add(": '");
            page.add_name(word);
            page.add("'");
            return ask_part(alloc, net, word, page);
        }
    }
}

/// Names the slots of the frame for a word that has a `-`, and asks for a beam for another.
fn ask_part(alloc: Global, net: &Network, word: &str, page: &mut Page) {
    if word.contains('-') {
        page.add("; slots are 0 to ");
        page.add_number(u64::from(net.slots().saturating_sub(1)));
        return;
    }
    let mut hint = Page::new(alloc);
    ask_beam(alloc, net, word.as_bytes(), &mut hint);
    add_hint(&hint, page);
}

/// Says which word is no number, or out of its range: those of `make` and of `trans` are the only ones.
fn say_numbers(behind: &[String], page: &mut Page) {
    match behind {
        [first, ..] if is_small(first) => {
            page.add("NUMBER is to be 0 to 18446744073709551615, in digits without a 0 in front");
        }
        [_, ..] => page.add("the first word is to be a number, 1 to 16, without a 0 in front"),
        [] => {}
    }
}

/// Says that EDITION is no number from `least` on, or that a journal has no such edition, or plan.
fn say_edition(least: u64, what: &str, behind: &[String], page: &mut Page) {
    match behind {
        [_, _, edition] if is_edition(least, edition) => {
            page.add("the journal has no ");
            page.add(what);
            page.add(" ");
            page.add_name(edition);
        }
        [_, _, _] => {
            page.add("EDITION is to be ");
            page.add_number(least);
            page.add(" to ");
            page.add_number(u64::from(LAST_EDITION));
            page.add(", in digits without a 0 in front");
        }
        _ => page.add("the journal has no plan"),
    }
}

/// Says that DESK is no desk: the one word of `edits` that is a number.
fn say_desk(page: &mut Page) {
    page.add("DESK is to be 1 to ");
    page.add_number(u64::from(MOST_DESKS));
    page.add(", in digits without a 0 in front");
}

fn is_edition(least: u64, word: &str) -> bool {
    number(word.as_bytes()).is_some_and(|number| least <= number
        && number <= u64::from(LAST_EDITION))
}

fn is_small(word: &str) -> bool {
    number(word.as_bytes()).is_some_and(|number| 1 <= number
        && number <= u64::from(MOST_NUMBERED_BEAMS))
}

/// Appends the forms of the command, or of all where there is no such one.
fn add_usages(done: &Done<'_>, page: &mut Page) {
    let command = match done.words {
        [command, ..] if is_command(done.forms, command) => command.as_str(),
        _ => "",
    };
    for usage in done.forms {
        if command.is_empty() || is_form_of(usage, command) {
            page.add("usage: ");
            page.add(name_of(done.program));
            page.add(" ");
            page.add(usage);
            page.add("\n");
        }
    }
    page.add("       ");
    page.add(name_of(done.program));
    page.add(" --help has a page on all of it\n");
}
