// What the output of a session or of a centre tells, as parts of a page. What of it is shown is not claimed: names and numbers that
// were read from printed lines alone, so that no text of it comes into the page as it stands.
ghost use Rattle.std.specs.Prelude.{◌≡◌, []};

use crate::answers::{Told, told_by};
use crate::pieces::add_words;
use bt_frame::{BeamNo, OutOfMemory, TermNo};
use bt_net::Network;
use bt_run_chart::{Asked, View, ladder_picture};
use bt_run_lines::{Printed, Value, read_line};
use bt_text::{first_line, is_word};
use bt_words::{Word, print};
use std::alloc::Global;

/// The most superframes that a ladder on a page has, and the most refusals that are listed.
pub const MOST_SUPERFRAMES: usize = 4;

pub const MOST_REFUSALS: usize = 8;

/// What a page shows beside its journal: a part behind the numbers, and a part behind the modes.
#[derive(Drop)]
pub struct Shown {
    pub air: Vec<u8>,
    pub ladder: Vec<u8>,
}

/// Nothing.
pub(crate) fn nothing_shown(alloc: Global) -> Shown
    ensures air { result.air.items ≡ [] }
    ensures ladder { result.ladder.items ≡ [] }
{
    Shown {
        air: Vec::new(alloc),
        ladder: Vec::new(alloc),
    }
}

/// What the output of a session or of a centre tells.
pub(crate) fn shown_of(alloc: Global, net: &Network, text: &[u8]) -> Result<Shown, OutOfMemory> {
    let told = told_by(alloc, net, text)?;
    let mut air = Vec::new(alloc);
    add_air(alloc, net, &told, &mut air)?;
    let mut ladder = Vec::new(alloc);
    add_ladder(alloc, net, last_superframes(&told, text), &mut ladder)?;
    Ok(Shown { air, ladder })
}

// The text of the last superframes; all of it where there are few.
fn last_superframes<'a>(told: &Told<'a>, text: &'a [u8]) -> &'a [u8] {
    let first = told.superframes.len().saturating_sub(MOST_SUPERFRAMES);
    match told.superframes.get(first) {
        Some(rest) if first > 0 => *rest,
        _ => text,
    }
}

// Appends the ladder of a text.
fn add_ladder(
    alloc: Global,
    net: &Network,
    text: &[u8],
    out: &mut Vec<u8>,
) -> Result<(), OutOfMemory> {
    let words = [
        Word::Text("<section aria-labelledby='ladder'>\n<h2 id='ladder'>"),
        Word::Text("Last superframes</h2>\n<div class='plan' role='group'"),
        Word::Text(" tabindex='0' aria-label='ladder of the last superframes'>\n"),
    ];
    add_words(alloc, &words, out)?;
    let view = View {
        folds: true,
        range: None,
    };
    let asked = Asked { chosen: &[], view };
    let mut picture = Vec::new(alloc);
    ladder_picture(alloc, net, text, asked, &mut picture)?;
    add_bare(picture.as_slice(), out)?;
    add_words(alloc, &[Word::Text("</div>\n</section>\n")], out)
}

// Appends a picture without its sheet of styles, which the picture of the plan has already, and which a page may have once.
fn add_bare(picture: &[u8], out: &mut Vec<u8>) -> Result<(), OutOfMemory> {
    let Some((opening, rest)) = first_line(picture) else {
        return Ok(());
    };
    out.extend_from_slice(opening)?;
    out.push(b'\n')?;
    out.extend_from_slice(behind_sheet(rest))?;
    Ok(())
}

// What stands behind the sheet of styles of a picture.
fn behind_sheet(picture: &[u8]) -> &[u8] {
    let mut rest = picture;
    while let Some((line, behind)) = first_line(rest) {
        if is_word(line, b"</defs>") {
            return behind;
        }
        rest = behind;
    }
    picture
}

// Appends what is told of the air and of the store, and the last refusals.
fn add_air(
    alloc: Global,
    net: &Network,
    told: &Told<'_>,
    out: &mut Vec<u8>,
) -> Result<(), OutOfMemory> {
    let words = [
        Word::Text("<section aria-labelledby='air'>\n<h2 id='air'>"),
        Word::Text("On the air, by the answers</h2>\n<dl>\n"),
    ];
    add_words(alloc, &words, out)?;
    add_number(alloc, "superframe", told.mark, out)?;
    add_number(alloc, "edition in front", told.front, out)?;
    add_armed(alloc, told, out)?;
    add_missing(alloc, net, told.missing.as_slice(), out)?;
    add_store(alloc, told.is_stopped, out)?;
    add_refusals(alloc, net, told.refusals.as_slice(), out)
}

// Appends a number under its term, where it is known.
fn add_number(
    alloc: Global,
    term: &str,
    number: Option<u64>,
    out: &mut Vec<u8>,
) -> Result<(), OutOfMemory> {
    let value = match number {
        Some(number) => Word::Number(number),
        None => Word::Text("not told"),
    };
    let words = [
        Word::Text("<div><dt>"),
        Word::Text(term),
        Word::Text("</dt><dd>"),
        value,
        Word::Text("</dd></div>\n"),
    ];
    add_words(alloc, &words, out)
}

// Appends what the satellite is armed for.
fn add_armed(alloc: Global, told: &Told<'_>, out: &mut Vec<u8>) -> Result<(), OutOfMemory> {
    add_words(
        alloc,
        &[Word::Text("<div class='wide'><dt>armed for</dt><dd>")],
        out,
    )?;
    match told.armed {
        Some(armed) => {
            let words = [
                Word::Text("edition "),
                Word::Number(armed.edition),
                Word::Text(", due in superframe "),
                Word::Number(armed.due),
            ];
            add_words(alloc, &words, out)?;
        }
        None => add_words(alloc, &[Word::Text("nothing")], out)?,
    }
    add_words(alloc, &[Word::Text("</dd></div>\n")], out)
}

// Appends the terminals that were missing in the last turn.
fn add_missing(
    alloc: Global,
    net: &Network,
    missing: &[TermNo],
    out: &mut Vec<u8>,
) -> Result<(), OutOfMemory> {
    if missing.is_empty() {
        let words = [Word::Text("<div class='wide'><dt>missing</dt><dd>no terminal</dd></div>\n")];
        return add_words(alloc, &words, out);
    }
    add_words(
        alloc,
        &[Word::Text("<div class='wide alarm'><dt>missing</dt><dd>")],
        out,
    )?;
    for terminal in missing {
        let words = [Word::Text(terminal_name(net, *terminal)), Word::Text(" ")];
        add_words(alloc, &words, out)?;
    }
    add_words(alloc, &[Word::Text("</dd></div>\n")], out)
}

// Appends whether the store failed, and what closes the list of numbers.
fn add_store(alloc: Global, is_stopped: bool, out: &mut Vec<u8>) -> Result<(), OutOfMemory> {
    let words = if is_stopped {
        [Word::Text("<div class='alarm'><dt>store</dt><dd>failed, stopped</dd></div>\n</dl>\n")]
    } else {
        [Word::Text("<div><dt>store</dt><dd>no fault told</dd></div>\n</dl>\n")]
    };
    add_words(alloc, &words, out)
}

// Appends the last refusals and faults, the last one first, and what closes the part.
fn add_refusals(
    alloc: Global,
    net: &Network,
    refusals: &[&[u8]],
    out: &mut Vec<u8>,
) -> Result<(), OutOfMemory> {
    if refusals.is_empty() {
        let words = [Word::Text(
            "<p>Nothing was refused, and no line was at fault.</p>\n</section>\n",
        )];
        return add_words(alloc, &words, out);
    }
    let words = [
        Word::Text("<h3>Last refusals and faults, of "),
        Word::Number(refusals.len() as u64),
        Word::Text("</h3>\n<ol class='told' reversed='reversed' start='"),
        Word::Number(refusals.len() as u64),
        Word::Text("'>\n"),
    ];
    add_words(alloc, &words, out)?;
    for back in 0..MOST_REFUSALS {
        add_refusal(alloc, net, refusals, back, out)?;
    }
    add_words(alloc, &[Word::Text("</ol>\n</section>\n")], out)
}

// Appends the refusal that stands so many in front of the last, where there is one.
fn add_refusal(
    alloc: Global,
    net: &Network,
    refusals: &[&[u8]],
    back: usize,
    out: &mut Vec<u8>,
) -> Result<(), OutOfMemory> {
    let Some(at) = refusals.len().checked_sub(back.saturating_add(1)) else {
        return Ok(());
    };
    let Some(line) = refusals.get(at) else {
        return Ok(());
    };
    match read_line(net, *line) {
        Some(printed) => add_line(alloc, net, &printed, out),
        None => Ok(()),
    }
}

// Appends a printed line as an item of a list.
fn add_line(
    alloc: Global,
    net: &Network,
    line: &Printed<'_>,
    out: &mut Vec<u8>,
) -> Result<(), OutOfMemory> {
    let mut words = Vec::new(alloc);
    for value in line.values() {
        words.push(word_of(net, value))?;
    }
    add_words(alloc, &[Word::Text("<li>")], out)?;
    print(alloc, line.form, words.as_slice(), out)?;
    add_words(alloc, &[Word::Text("</li>\n")], out)
}

// The word of a value; no refusal has another than these.
fn word_of<'a>(net: &'a Network, value: &Value<'_>) -> Word<'a> {
    match value {
        Value::Number(number) => Word::Number(*number),
        Value::Frame(mark, number) => Word::Frame(*mark, *number),
        Value::Beam(beam) => Word::Text(beam_name(net, *beam)),
        Value::Terminal(terminal) => Word::Text(terminal_name(net, *terminal)),
        _ => Word::Text(""),
    }
}

// The name of a beam; nothing where the network has none of that number.
fn beam_name(net: &Network, beam: BeamNo) -> &str {
    if u32::from(beam.0) < net.beam_count() {
        net.beam_name(beam)
    } else {
        ""
    }
}

// The name of a terminal, in the same way.
fn terminal_name(net: &Network, terminal: TermNo) -> &str {
    if u32::from(terminal.0) < net.terminal_count() {
        net.name_of(terminal)
    } else {
        ""
    }
}
