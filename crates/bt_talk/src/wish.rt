// What a desk wishes that becomes an edit by what the book holds.
ghost use Rattle.std.specs.Prelude.{◌≡◌, IfSome, option_map};
ghost use Rattle.bt_text.specs.Text.{number_of_digits, words};
ghost use Rattle.bt_frame.specs.declared.limits.TheConstants.{MOST_DIGITS, MOST_UNITS};
ghost use Rattle.bt_net.specs.Terminals.{IsTerminal};
ghost use Rattle.bt_journal.specs.Journal.{NamesTerminals};
ghost use Rattle.bt_history.specs.Changes.{held_after};
ghost use Rattle.bt_script.specs.LineShape.{link_in, lone_number};
ghost use Rattle.bt_script.specs.Range.{up_to, within};
ghost use Rattle.bt_talk.specs.Wishes.{IsWishedFor, desk_words, edit_numbered, inverse, set_by, set_to, set_words, setting, undo_words, undone, wished_in};

use bt_book::Book;
use bt_frame::{EditionNo, LAST_EDITION, MOST_DIGITS, MOST_UNITS, TermNo, Units};
use bt_journal::Edit;
use bt_net::Network;
use bt_outside::Keeper;
use bt_script::{DeskLine, DeskNo, LinkWords, ScriptCode, ScriptLine, link_in, lone_number};
use bt_text::{WordReader, is_word, number_of_digits};

/// What a wish comes to: a line that a desk says; no line, since the link has so many slots already; or its fault.
pub(crate) type Wished = Result<Option<ScriptLine>, ScriptCode>;

/// What a line wishes of a book, if it wishes something.
pub(crate) fn wished_in<K: Keeper>(net: &Network, book: &Book<K>, text: &[u8]) -> Option<Wished>
    requires network { book.now.net ≡ net.now }
    ensures wished { result ≡ wished_in net.now book.now.state.changes (words text.now) }
    ensures terminals { IfSome result (IsWishedFor net.now) }
{
    match undo_words(text) {
        Some((desk, number)) => Some(undone(net, book, desk, number)),
        None => match set_words(text) {
            Some((desk, ((from, to), units))) => Some(set_by(net, book, desk, from, to, units)),
            None => None,
        },
    }
}

/// `desk D undo K`: the number of the desk, and that of the edit.
fn undo_words(text: &[u8]) -> Option<(u64, u64)>
    ensures { result ≡ undo_words (words text.now) }
{
    let Some((desk, words)) = desk_words(b"undo", WordReader::of(text)) else {
        return None;
    };
    let Some(number) = lone_number(words) else {
        return None;
    };
    Some((desk, number))
}

/// `desk D set FROM TO UNITS`: the number of the desk, and the link with its units.
fn set_words(text: &[u8]) -> Option<(u64, LinkWords<'_>)>
    ensures { option_map (λ all. (all.0, ((all.1.0.0.now, all.1.0.1.now), all.1.1))) result ≡ set_words (words text.now) }
{
    let Some((desk, words)) = desk_words(b"set", WordReader::of(text)) else {
        return None;
    };
    let Some(link) = link_in(words) else {
        return None;
    };
    Some((desk, link))
}

/// `desk D` and this word: the number of the desk, and the words behind.
fn desk_words<'a>(kind: &[u8], mut words: WordReader<'a>) -> Option<(u64, WordReader<'a>)>
    ensures { option_map (λ both. (both.0, both.1)) result ≡ desk_words kind.now words.entry }
{
    let Some(head) = words.next() else {
        return None;
    };
    let Some(desk) = words.next() else {
        return None;
    };
    let Some(word) = words.next() else {
        return None;
    };
    if !is_word(head, b"desk") || !is_word(word, kind) {
        return None;
    }
    let Some(desk) = number_of_digits(desk, MOST_DIGITS) else {
        return None;
    };
    Some((desk, words))
}

/// The inverse of the edit that made this edition, where one did.
fn undone<K: Keeper>(net: &Network, book: &Book<K>, desk: u64, number: u64) -> Wished
    requires network { book.now.net ≡ net.now }
    ensures wished { result ≡ undone book.now.state.changes (desk, number) }
    ensures terminals { IsWishedFor net.now result }
{
    match (DeskNo::new(desk), edit_numbered(net, book, number)) {
        (Some(desk), Some(edit)) => Ok(Some(ScriptLine::Desk {
            desk,
            line: DeskLine::Edit(inverse(&edit)),
        })),
        _ => Err(ScriptCode::S3),
    }
}

/// The edit that made this edition, where one did.
fn edit_numbered<K: Keeper>(net: &Network, book: &Book<K>, number: u64) -> Option<Edit>
    requires network { book.now.net ≡ net.now }
    ensures edit { result ≡ edit_numbered book.now.state.changes number }
    ensures terminals { IfSome result (NamesTerminals net.now) }
{
    if number > u64::from(LAST_EDITION) {
        return None;
    }
    book.edit(EditionNo(number as u32))
}

/// The edit that takes an edit back.
fn inverse(edit: &Edit) -> Edit
    ensures { result ≡ inverse edit.now }
{
    match *edit {
        Edit::Add { from, to, units } => Edit::Drop { from, to, units },
        Edit::Drop { from, to, units } => Edit::Add { from, to, units },
        Edit::Move {
            from,
            to,
            new_from,
            new_to,
            units,
        } => Edit::Move {
            from: new_from,
            to: new_to,
            new_from: from,
            new_to: to,
            units,
        },
    }
}

/// What it comes to that a link of these names is to have so many slots.
fn set_by<K: Keeper>(
    net: &Network,
    book: &Book<K>,
    desk: u64,
    from: &[u8],
    to: &[u8],
    units: u64,
) -> Wished
    ensures wished { result ≡ set_by net.now book.now.state.changes (desk, ((from.now, to.now), units)) }
    ensures terminals { IsWishedFor net.now result }
{
    let (Some(from), Some(to)) = (net.terminal_named(from), net.terminal_named(to)) else {
        return Err(ScriptCode::S2);
    };
    let (Some(desk), true) = (DeskNo::new(desk), units <= u64::from(MOST_UNITS)) else {
        return Err(ScriptCode::S3);
    };
    match setting(from, to, book.held(from, to), units as u32) {
        Some(edit) => Ok(Some(ScriptLine::Desk {
            desk,
            line: DeskLine::Edit(edit),
        })),
        None => Ok(None),
    }
}

/// The edit that brings a link which holds so many slots to so many, where they are others.
fn setting(from: TermNo, to: TermNo, held: u32, units: u32) -> Option<Edit>
    ensures { result ≡ setting from to held units }
{
    match Units::new(units.saturating_sub(held)) {
        Some(units) => Some(Edit::Add { from, to, units }),
        None => match Units::new(held.saturating_sub(units)) {
            Some(units) => Some(Edit::Drop { from, to, units }),
            None => None,
        },
    }
}
