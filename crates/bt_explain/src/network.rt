// What is wrong with a network's file.
use crate::bytes::bytes_at;
use crate::cause::Cause;
use crate::fault::{Named, add_heading};
use crate::json::{Spot, find_near_name, find_spot, inside, name_in};
use crate::near::Near;
use crate::page::Page;
use crate::telling::Done;
use crate::walk::say_bad_name;
use bt_frame::MOST_BEAMS;
use bt_net::is_name;
use bt_text::is_word;
use serde_json::Value;
use std::alloc::Global;

/// Tells of a fault of a network, with its place there.
pub fn tell_network(
    alloc: Global,
    done: &Done<'_>,
    named: Named<'_>,
    code: &[u8],
    place: &[u8],
    page: &mut Page,
) -> bool {
    let mut cause = Cause::new(alloc);
    if place.is_empty() {
        tell_json(alloc, done, named, code, &mut cause, page);
    } else {
        tell_place(alloc, done, named, code, place, &mut cause, page);
    }
    cause.add_hint(page);
    true
}

/// Tells that a text is no JSON, and where.
fn tell_json(
    alloc: Global,
    done: &Done<'_>,
    named: Named<'_>,
    code: &[u8],
    cause: &mut Cause,
    page: &mut Page,
) {
    let at = find_no_json(alloc, named.text, cause);
    add_heading(done, named.file, at, code, page);
    cause.add_why(page);
    if let Some(at) = at {
        cause.add_line(bytes_at(named.text, at), page);
    }
}

/// Finds out why a text is no JSON, and in which line.
fn find_no_json(alloc: Global, text: &[u8], cause: &mut Cause) -> Option<u32> {
    if text.starts_with(&[0xEF, 0xBB, 0xBF]) {
        cause.say_at(0, 3, "a byte order mark stands in front of the text");
        return Some(1);
    }
    match Value::from_slice(alloc, text) {
        Err(error) if error.is_eof() => find_end(text, cause),
        Err(error) => {
            let (line, column) = (
                u32::try_from(error.line()).ok(),
                error.column().saturating_sub(1),
            );
            cause.say_at(column, 1, "this is no JSON: ");
            let (before, byte) = bytes_about(text, line.unwrap_or(0), column);
            cause.say(why_no_json(before, byte));
            line
        }
        Ok(_) => {
            cause.say("this is no JSON");
            None
        }
    }
}

/// Says that a text ends too early, and in which line, the last that is not blank.
fn find_end(text: &[u8], cause: &mut Cause) -> Option<u32> {
    let (mut lines, mut at, mut end, mut last): (u32, usize, usize, Option<u32>) = (1, 0, 0, None);
    for byte in text {
        at = at.saturating_add(1);
        if *byte == b'\n' {
            lines = lines.saturating_add(1);
            at = 0;
        } else if !byte.is_ascii_whitespace() {
            end = at;
            last = Some(lines);
        }
    }
    if last.is_some() {
        cause.say_at(end, 1, "the text ends here, before the value is whole");
    } else {
        cause.say("the file is empty");
    }
    last
}

/// The byte at a place of a text, behind the last one before it that is no space; spaces where there is none.
fn bytes_about(text: &[u8], line: u32, column: usize) -> (u8, u8) {
    let (mut at_line, mut at_column, mut before): (u32, usize, u8) = (1, 0, b' ');
    for byte in text {
        if at_line == line && at_column == column {
            return (before, *byte);
        }
        at_column = at_column.saturating_add(1);
        if *byte == b'\n' {
            at_line = at_line.saturating_add(1);
            at_column = 0;
        }
        if !byte.is_ascii_whitespace() {
            before = *byte;
        }
    }
    (before, b' ')
}

/// Why a byte may not stand behind another one.
#[rattlefmt::skip]
fn why_no_json(before: u8, byte: u8) -> &'static str {
    match (before, byte) {
        (_, b'\'')                         => "a text stands in double quotes",
        (_, b'/' | b'#')                   => "a remark may not stand in this file",
        (_, 128..)                         => "this byte is of no text in UTF-8",
        (_, 0..=31)                        => "a text ends in the line in which it begins, and has no tab",
        (b',', b'}' | b']' | b',')         => "a value is wanting behind the comma before this",
        (b'}' | b']', b'}' | b']')         => "nothing is open that this could close",
        (b'"', b'[' | b'{' | b'0'..=b'9')  => "a colon or a comma is wanting before this",
        (b'"' | b'}' | b']' | b'0'..=b'9', b'"' | b'[' | b'{') => "a comma is wanting before this",
        (_, b'0')                          => "a number does not begin with 0, unless that is all of it",
        (_, b'A'..=b'Z' | b'a'..=b'z')     => "a text stands in double quotes",
        _                                  => "this may not stand here",
    }
}

/// Tells of a fault at a place.
fn tell_place(
    alloc: Global,
    done: &Done<'_>,
    named: Named<'_>,
    code: &[u8],
    place: &[u8],
    cause: &mut Cause,
    page: &mut Page,
) {
    let spot = find_spot(named.text, place);
    let value = spot.map_or(b"".as_slice(), |spot| spot.value);
    say_fault(alloc, named.text, code, place, value, cause);
    let spot = match spot {
        None => ask_near_name(alloc, named.text, place, cause),
        found => found,
    };
    add_heading(done, named.file, spot.map(|spot| spot.line), code, page);
    page.add_bytes(place);
    page.add(": ");
    if let Some(spot) = spot {
        cause.mark(spot.column, spot.value.len());
    }
    cause.add_why(page);
    if let Some(spot) = spot {
        cause.add_line(bytes_at(named.text, spot.line), page);
    }
}

/// Asks whether a name that is near to one that is wanting was meant for it, and says where it stands.
fn ask_near_name<'a>(
    alloc: Global,
    text: &'a [u8],
    place: &[u8],
    cause: &mut Cause,
) -> Option<Spot<'a>> {
    let found = find_near_name(alloc, text, place);
    if found.is_some() {
        cause.hint.add("did you mean '");
        cause.hint.add_bytes(name_in(place));
        cause.hint.add("'?");
    }
    found
}

/// Says what is wrong at a place, whose value is this; no bytes where nothing stands there.
fn say_fault(
    alloc: Global,
    text: &[u8],
    code: &[u8],
    place: &[u8],
    value: &[u8],
    cause: &mut Cause,
) {
    match code.get(1).copied().unwrap_or(b' ') {
        b'2' => say_kind(place, value, cause),
        b'3' => say_range(place, cause),
        b'4' => say_no_name(inside(value), cause),
        b'5' => cause.say("an earlier one has this name"),
        _ => {
            cause.say("no beam has this name");
            ask_beam(alloc, text, inside(value), cause);
        }
    }
}

/// Says what kind of value is to stand at a place.
fn say_kind(place: &[u8], value: &[u8], cause: &mut Cause) {
    let kind = kind_of(place);
    if value.is_empty() {
        cause.say("this is wanting: ");
    } else {
        cause.say("this is to be ");
    }
    cause.say(kind);
}

/// What is to stand at a place. The first letter tells the fields apart, and the last one an entry from its members.
fn kind_of(place: &[u8]) -> &'static str {
    if is_word(place, b"top") {
        "an object, { .. }"
    } else if is_word(place, b"beams") {
        "a list of texts, [\"N\", \"S\"]"
    } else if is_word(place, b"terminals") {
        "a list of objects, [{\"name\": \"A\", \"beam\": \"N\"}]"
    } else if place.starts_with(b"beams[") {
        "a text"
    } else if place.starts_with(b"terminals[") {
        if place.last() == Some(&b']') {
            "an object with a name and a beam"
        } else {
            "a text"
        }
    } else {
        "a whole number, with no sign, point or quotes"
    }
}

/// Says in which range a value is to lie; the first letter tells the fields apart.
fn say_range(place: &[u8], cause: &mut Cause) {
    cause.say(match place.first().copied().unwrap_or(b' ') {
        b'b' => "a network has 1 to 32 beams",
        b't' => "a network has 1 to 64 terminals",
        b's' => "a frame has 1 to 4096 traffic slots",
        b'f' => "a superframe has 1 to 64 frames",
        b'l' => "the lead is 2 to 32 superframes",
        b'p' => "the patience is 1 to 32 turns",
        _ => "a journal may be limited to 32 to 67108864 bytes",
    });
}

/// Says why a word is the name of no beam or terminal.
fn say_no_name(name: &[u8], cause: &mut Cause) {
    if is_name(name) {
        cause.say("no terminal is called 'all', 'sat' or 'centre', which are words of scripts");
    } else {
        say_bad_name(name, cause);
    }
}

/// Asks for the beam whose name is near to a word.
fn ask_beam(alloc: Global, text: &[u8], word: &[u8], cause: &mut Cause) {
    let mut near = Near::to(word);
    let mut place = Page::new(alloc);
    for number in 0..MOST_BEAMS {
        place.clear();
        place.add("beams[");
        place.add_number(number as u64);
        place.add("]");
        if let Some(place) = place.text()
            && let Some(spot) = find_spot(text, place.as_bytes())
            && let Ok(name) = str::from_utf8(inside(spot.value))
        {
            near.look(alloc, name);
        }
    }
    near.ask(&mut cause.hint);
}
