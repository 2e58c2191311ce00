// Faults of the lines of texts: which file, which line, and why.
use crate::bytes::{Line, find_bytes, line_at};
use crate::cause::Cause;
use crate::delays::{find_delay, find_undelayed};
use crate::journal::find_journal;
use crate::output::find_output;
use crate::page::Page;
use crate::plan::{find_behind_end, find_plan, say_wanting};
use crate::script::find_script;
use crate::telling::{Done, add_program};
use crate::traffic::find_link;
use crate::walk::{find_in_form, find_misfit};
use bt_net::Network;
use std::alloc::Global;

/// A file that is at fault.
#[derive(Clone, Copy)]
pub struct Named<'a> {
    /// Its name.
    pub file: &'a str,
    /// What it held.
    pub text: &'a [u8],
    /// The network that the words name, where it is one.
    pub net: Option<&'a Network>,
    /// How many beams there are, by the network or by the matrix; 0 where that is not known.
    pub beams: u32,
}

/// A fault of a line of a text; it has no bytes where the text ends before it.
#[derive(Clone, Copy)]
pub struct Fault<'a> {
    /// The name of its file.
    pub file: &'a str,
    /// The letter of its code, which is that of its file.
    pub letter: u8,
    /// The digit of its code.
    pub digit: u8,
    pub text: &'a [u8],
    /// The line, counted from 1.
    pub at: u32,
    pub line: &'a [u8],
    /// The network, where there is one.
    pub net: Option<&'a Network>,
    /// How many beams there are.
    pub beams: u32,
}

/// Tells of a fault of line `at` of the file of that letter, which has this text. Says whether it could.
pub fn tell_line(
    alloc: Global,
    done: &Done<'_>,
    named: Named<'_>,
    code: &[u8],
    at: u32,
    page: &mut Page,
) -> bool {
    let [letter, digit] = *code else {
        return false;
    };
    let mut cause = Cause::new(alloc);
    let found = line_at(named.text, at);
    let fault = Fault {
        file: named.file,
        letter,
        digit,
        text: named.text,
        at,
        line: found.map_or(b"".as_slice(), |line| line.bytes),
        net: named.net,
        beams: named.beams,
    };
    find(alloc, &fault, found, &mut cause);
    if !cause.is_found() {
        cause.say(usual(letter));
    }
    add_heading(done, named.file, Some(at), code, page);
    cause.add_why(page);
    cause.add_line(fault.line, page);
    cause.add_hint(page);
    true
}

/// Finds out why a line is at fault, or that it is wanting.
fn find(alloc: Global, fault: &Fault<'_>, line: Option<Line<'_>>, cause: &mut Cause) {
    match line {
        None if fault.letter == b'G' && fault.digit == b'5' => find_undelayed(fault, cause),
        None => say_wanting(fault.letter, fault.at, cause),
        Some(line) => {
            find_in_line(alloc, fault, line, cause);
            if !cause.is_found() {
                find_in_text(alloc, fault, cause);
            }
        }
    }
}

/// Looks at the line by itself: its bytes, its form, its names and its numbers.
fn find_in_line(alloc: Global, fault: &Fault<'_>, line: Line<'_>, cause: &mut Cause) {
    if fault.digit == b'1' {
        find_behind_end(fault, cause);
        if !cause.is_found() {
            find_bytes(fault, line, cause);
        }
        if !cause.is_found() {
            find_misfit(alloc, fault, cause);
        }
    } else {
        find_in_form(alloc, fault, cause);
    }
}

/// Looks at what stands elsewhere in the text, or has no place in a form.
fn find_in_text(alloc: Global, fault: &Fault<'_>, cause: &mut Cause) {
    match fault.letter {
        b'T' => find_link(fault, cause),
        b'P' | b'M' => find_plan(fault, cause),
        b'G' => find_delay(fault, cause),
        b'S' => find_script(fault, cause),
        b'O' => find_output(alloc, fault, cause),
        b'J' => find_journal(alloc, fault, cause),
        _ => {}
    }
}

/// What is said of a line of which no more was found out.
fn usual(letter: u8) -> &'static str {
    match letter {
        b'T' => "this is no line of traffic, 'link FROM TO UNITS'",
        b'P' => "this is no line that a plan has in this place",
        b'M' => "this is no line that a schedule has in this place",
        b'X' => "this is no line that a matrix has in this place",
        b'G' => "this is no line that delays have in this place",
        b'S' => "this is no line of a script",
        b'J' => "this is the line of no change",
        _ => "this line is at fault",
    }
}

/// Appends what stands in front of a cause: the program, the file, the line and the code.
pub fn add_heading(done: &Done<'_>, file: &str, at: Option<u32>, code: &[u8], page: &mut Page) {
    add_program(done, page);
    page.add_name(file);
    page.add(":");
    if let Some(at) = at {
        page.add_number(u64::from(at));
        page.add(":");
    }
    page.add(" ");
    page.add_bytes(code);
    page.add(": ");
}
