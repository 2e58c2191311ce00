// The pieces of a page, one behind the other.
ghost use Rattle.std.specs.Prelude.{◌≡◌, ◌++◌, flat_map, OnOk};
ghost use Rattle.bt_words.specs.Lines.{word_bytes};
ghost use Rattle.bt_chart.specs.Pieces.{bar_text, counts_text, fact_text, head_text, refresh_text, side_row, title_text};

use crate::fixed::{opening, style};
use bt_frame::OutOfMemory;
use bt_words::{Word, add_word};
use std::alloc::Global;

/// Appends words with nothing between them.
pub(crate) fn add_words(
    alloc: Global,
    words: &[Word<'_>],
    out: &mut Vec<u8>,
) -> Result<(), OutOfMemory>
    ensures { OnOk result (out.new.items ≡ out.old.items ++ flat_map word_bytes words.now) }
{
    for word in words {
        add_word(alloc, word, out)?;
    }
    Ok(())
}

/// Appends all that stands before the body.
pub(crate) fn add_head(
    alloc: Global,
    edition: u64,
    plan: u64,
    seconds: Option<u32>,
    out: &mut Vec<u8>,
) -> Result<(), OutOfMemory>
    ensures { OnOk result (out.new.items ≡ out.old.items ++ head_text edition plan seconds) }
{
    out.extend_from_slice(opening().as_bytes())?;
    add_refresh(alloc, seconds, out)?;
    add_title(alloc, edition, plan, out)?;
    out.extend_from_slice(style().as_bytes())?;
    Ok(())
}

/// Appends in how many seconds a browser loads the page again, where it does.
fn add_refresh(alloc: Global, seconds: Option<u32>, out: &mut Vec<u8>) -> Result<(), OutOfMemory>
    ensures { OnOk result (out.new.items ≡ out.old.items ++ refresh_text seconds) }
{
    match seconds {
        None => Ok(()),
        Some(seconds) => {
            let words = [
                Word::Text("<meta http-equiv='refresh' content='"),
                Word::Number(u64::from(seconds)),
                Word::Text("'/>\n"),
            ];
            add_words(alloc, &words, out)
        }
    }
}

/// Appends the title.
fn add_title(alloc: Global, edition: u64, plan: u64, out: &mut Vec<u8>) -> Result<(), OutOfMemory>
    ensures { OnOk result (out.new.items ≡ out.old.items ++ title_text edition plan) }
{
    let words = [
        Word::Text("<title>Edition "),
        Word::Number(edition),
        Word::Text(", plan of edition "),
        Word::Number(plan),
        Word::Text("</title>\n"),
    ];
    add_words(alloc, &words, out)
}

/// Appends a number under its term.
pub(crate) fn add_fact<'a>(
    alloc: Global,
    term: &'a str,
    number: u64,
    out: &mut Vec<u8>,
) -> Result<(), OutOfMemory>
    ensures { OnOk result (out.new.items ≡ out.old.items ++ fact_text term.now number) }
{
    let words = [
        Word::Text("<div><dt>"),
        Word::Text(term),
        Word::Text("</dt><dd>"),
        Word::Number(number),
        Word::Text("</dd></div>\n"),
    ];
    add_words(alloc, &words, out)
}

/// Appends a bar: so much of the whole is filled.
pub(crate) fn add_bar(
    alloc: Global,
    filled: u64,
    whole: u64,
    out: &mut Vec<u8>,
) -> Result<(), OutOfMemory>
    ensures { OnOk result (out.new.items ≡ out.old.items ++ bar_text filled whole) }
{
    let words = [
        Word::Text("<svg class='bar' viewBox='0 0 "),
        Word::Number(whole),
        Word::Text(" 1' preserveAspectRatio='none' aria-hidden='true'>"),
        Word::Text("<rect class='room' width='"),
        Word::Number(whole),
        Word::Text("' height='1'/><rect class='used' width='"),
        Word::Number(filled),
        Word::Text("' height='1'/></svg>"),
    ];
    add_words(alloc, &words, out)
}

/// Appends the row of one side of a beam, of which so many of the frame's slots are asked, and so many free.
pub(crate) fn add_side<'a>(
    alloc: Global,
    name: &'a str,
    side: &'a str,
    asked: u64,
    free: u64,
    slots: u64,
    out: &mut Vec<u8>,
) -> Result<(), OutOfMemory>
    ensures { OnOk result (out.new.items ≡ out.old.items ++ side_row name.now side.now asked free slots) }
{
    let named = [
        Word::Text("<tr><th scope='row'>"),
        Word::Text(name),
        Word::Text("</th><td>"),
        Word::Text(side),
        Word::Text("</td><td class='wide'>"),
    ];
    add_words(alloc, &named, out)?;
    add_bar(alloc, asked, slots, out)?;
    add_counts(alloc, asked, free, out)
}

/// Appends the last columns of a row: so many slots are asked, and so many are free.
fn add_counts(alloc: Global, asked: u64, free: u64, out: &mut Vec<u8>) -> Result<(), OutOfMemory>
    ensures { OnOk result (out.new.items ≡ out.old.items ++ counts_text asked free) }
{
    let words = [
        Word::Text("</td><td class='number'>"),
        Word::Number(asked),
        Word::Text("</td><td class='number'>"),
        Word::Number(free),
        Word::Text("</td></tr>\n"),
    ];
    add_words(alloc, &words, out)
}
