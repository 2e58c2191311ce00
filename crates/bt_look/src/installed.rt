// The installed plan of an edition, as the text of its file.
ghost use Rattle.std.specs.Prelude.{◌≡◌, ◌<◌, IfErr, IfOk, IfSome, None, Some, length, option_map};
ghost use Rattle.bt_plan.specs.PlanSpelling.{plan_spelling};
ghost use Rattle.bt_history.specs.Causes.{Follows};
ghost use Rattle.bt_history.specs.Changes.{newest, plans};
ghost use Rattle.bt_look.specs.Installed.{TellsInstalled, plan_asked, plan_at};
ghost use Rattle.bt_look.specs.Look.{IsLookFault};

use crate::look::look;
use bt_book::{Book, RecoverFault, installed_plans_can_be_flown};
use bt_frame::{EditionNo, OutOfMemory};
use bt_net::Network;
use bt_outside::Keeper;
use bt_plan::plan_text;
use std::alloc::Global;

/// The plan of that edition that a journal's bytes tell as installed, the newest without a number: the text of the plan, as
/// `read_plan` reads it. None where they tell of no such plan; the empty plan of edition 0 is not installed.
pub fn installed_of_journal(
    alloc: Global,
    net: &Network,
    bytes: Vec<u8>,
    asked: Option<EditionNo>,
) -> Result<Option<Vec<u8>>, RecoverFault>
    ensures text { IfOk result (λ text. TellsInstalled net.now bytes.items asked (option_map (λ t. t.items) text)) }
    ensures fault { IfErr result (IsLookFault net.now bytes.items) }
{
    let book = look(alloc, net, bytes)?;
    Ok(text_in(alloc, net, &book, asked)?)
}

/// The newest plan of a book, the empty one of edition 0 where none is installed: the text of the plan, as `read_plan` reads it.
pub fn newest_of_book<K: Keeper>(
    alloc: Global,
    net: &Network,
    book: &Book<K>,
) -> Result<Vec<u8>, OutOfMemory>
    requires follows { Follows net.now book.now.state.changes }
    ensures text { IfOk result (λ text. text.items ≡ plan_spelling net.now (newest book.now.state.changes)) }
{
    let last = book.plan_count() - 1;
    text_at(alloc, net, book, last)
}

/// The same of a book that a journal's bytes came to.
fn text_in<K: Keeper>(
    alloc: Global,
    net: &Network,
    book: &Book<K>,
    asked: Option<EditionNo>,
) -> Result<Option<Vec<u8>>, OutOfMemory>
    requires follows { Follows net.now book.now.state.changes }
    ensures { IfOk result (λ text. option_map (λ t. t.items) text ≡ option_map (plan_spelling net.now) (plan_asked book.now.state.changes asked)) }
{
    match place_in(book, asked) {
        Some(place) => Ok(Some(text_at(alloc, net, book, place)?)),
        None => Ok(None),
    }
}

/// The text of the plan at a place of a book.
fn text_at<K: Keeper>(
    alloc: Global,
    net: &Network,
    book: &Book<K>,
    place: u32,
) -> Result<Vec<u8>, OutOfMemory>
    requires follows { Follows net.now book.now.state.changes }
    requires place { place < length (plans book.now.state.changes) }
    ensures { IfOk result (λ text. text.items ≡ plan_spelling net.now (plan_at book.now.state.changes place)) }
{
    // This is there for what holds of each network: it is sound.
    let _beams = net.beam_count();
    installed_plans_can_be_flown();
    plan_text(alloc, net, book.plan(place))
}

/// The place of the plan that is asked for among those of a book, the empty one of which is at 0.
fn place_in<K: Keeper>(book: &Book<K>, asked: Option<EditionNo>) -> Option<u32>
    ensures within { IfSome result (λ place. place < length (plans book.now.state.changes)) }
    ensures plan { option_map (plan_at book.now.state.changes) result ≡ plan_asked book.now.state.changes asked }
{
    match asked {
        Some(number) => place_of(book, number),
        None => newest_place(book),
    }
}

/// The place of the plan of that edition.
fn place_of<K: Keeper>(book: &Book<K>, number: EditionNo) -> Option<u32>
    ensures within { IfSome result (λ place. place < length (plans book.now.state.changes)) }
    ensures plan { option_map (plan_at book.now.state.changes) result ≡ plan_asked book.now.state.changes (Some number) }
{
    for place in 1..book.plan_count() {
        if book.plan(place).edition.0 == number.0 {
            return Some(place);
        }
    }
    None
}

/// The place of the plan that was installed last.
fn newest_place<K: Keeper>(book: &Book<K>) -> Option<u32>
    ensures within { IfSome result (λ place. place < length (plans book.now.state.changes)) }
    ensures plan { option_map (plan_at book.now.state.changes) result ≡ plan_asked book.now.state.changes None }
{
    let last = book.plan_count().saturating_sub(1);
    if last == 0 { None } else { Some(last) }
}
