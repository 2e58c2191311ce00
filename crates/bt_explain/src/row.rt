// What is wrong with a row of a table of links.
use crate::bytes::bytes_at;
use crate::cause::{Cause, add_other_line};
use crate::fault::{Named, add_heading};
use crate::lines::{Lines, Words};
use crate::near::ask_terminal;
use crate::page::Page;
use crate::telling::Done;
use crate::walk::{say_bad_name, say_number};
use bt_frame::MOST_UNITS;
use bt_net::{Network, is_name};
use bt_text::number;
use std::alloc::Global;

/// A field of a row, the quotes around it left out, and where it begins.
#[derive(Clone, Copy)]
struct Field<'a> {
    at: usize,
    bytes: &'a [u8],
}

/// The fields of a row of three, and how many it has.
#[derive(Clone, Copy)]
struct Row<'a> {
    from: Field<'a>,
    to: Field<'a>,
    units: Field<'a>,
    count: u32,
}

/// Tells of a fault of row `at` of a table of links, by the code of a traffic's line.
pub fn tell_row(
    alloc: Global,
    done: &Done<'_>,
    table: Named<'_>,
    code: &[u8],
    at: u32,
    page: &mut Page,
) -> bool {
    let [_, digit] = *code else {
        return false;
    };
    let line = bytes_at(table.text, at);
    let row = row_of(line);
    let mut cause = Cause::new(alloc);
    match digit {
        b'1' => find_shape(row, &mut cause),
        b'2' => find_stranger(alloc, table.net, row, &mut cause),
        b'3' => find_units(row, &mut cause),
        b'4' => say_of(
            row.to,
            "both ends of this link are one terminal",
            &mut cause,
        ),
        _ => {
            cause.say("this link stood in a row before");
            ask_row_before(table.text, at, row, &mut cause);
        }
    }
    add_heading(done, table.file, Some(at), code, page);
    cause.add_why(page);
    cause.add_line(line, page);
    cause.add_hint(page);
    true
}

/// The fields of a line of CSV, as far as commas part them.
fn row_of(line: &[u8]) -> Row<'_> {
    let none = Field {
        at: line.len(),
        bytes: &[],
    };
    let mut row = Row {
        from: none,
        to: none,
        units: none,
        count: 0,
    };
    for (at, bytes) in Words::parted(without_return(line), b',') {
        put_field(&mut row, at, bytes);
    }
    row
}

/// A line without the carriage return that may end it.
fn without_return(line: &[u8]) -> &[u8] {
    match line {
        [front @ .., b'\r'] => front,
        _ => line,
    }
}

/// Puts the next field into a row.
fn put_field<'a>(row: &mut Row<'a>, at: usize, bytes: &'a [u8]) {
    let field = match bytes {
        [b'"', inner @ .., b'"'] => Field {
            at: at.saturating_add(1),
            bytes: inner,
        },
        _ => Field { at, bytes },
    };
    match row.count {
        0 => row.from = field,
        1 => row.to = field,
        _ => row.units = field,
    }
    row.count = row.count.saturating_add(1);
}

fn say_of(field: Field<'_>, why: &str, cause: &mut Cause) {
    cause.say_at(field.at, field.bytes.len(), why);
}

/// Says what a row does not have of three fields, two names and a number.
fn find_shape(row: Row<'_>, cause: &mut Cause) {
    if row.count != 3 {
        cause.say("a row has three fields, FROM,TO,UNITS, and this one has ");
        cause.why.add_number(u64::from(row.count));
    } else if !is_name(row.from.bytes) {
        find_bad_name(row.from, cause);
    } else if !is_name(row.to.bytes) {
        find_bad_name(row.to, cause);
    } else {
        find_number(row.units, cause);
    }
}

fn find_bad_name(field: Field<'_>, cause: &mut Cause) {
    cause.mark(field.at, field.bytes.len());
    say_bad_name(field.bytes, cause);
}

fn find_number(field: Field<'_>, cause: &mut Cause) {
    cause.mark(field.at, field.bytes.len());
    say_number(field.bytes, 1, MOST_UNITS, cause);
}

/// Looks for the name that no terminal has.
fn find_stranger(alloc: Global, net: Option<&Network>, row: Row<'_>, cause: &mut Cause) {
    let Some(net) = net else {
        return cause.say("no terminal has this name");
    };
    let field = if net.terminal_named(row.from.bytes).is_none() {
        row.from
    } else {
        row.to
    };
    say_of(field, "no terminal has this name", cause);
    ask_terminal(alloc, net, field.bytes, &mut cause.hint);
}

/// Says that the units are out of range, or too many for a beam.
fn find_units(row: Row<'_>, cause: &mut Cause) {
    match number(row.units.bytes) {
        Some(units) if 1 <= units && units <= u64::from(MOST_UNITS) => {
            cause.say("with this link a beam would be asked for more than 1048576 slots");
        }
        _ => find_number(row.units, cause),
    }
}

/// Names the first row with the link of this one.
fn ask_row_before(text: &[u8], before: u32, row: Row<'_>, cause: &mut Cause) {
    for (at, line) in Lines::of(text) {
        if at >= before {
            return;
        }
        let other = row_of(line);
        if other.from.bytes == row.from.bytes && other.to.bytes == row.to.bytes {
            return add_other_line(at, line, &mut cause.note);
        }
    }
}
