// A block of lines is tried on a copy of the book: what its edits are answered, what the planner makes of them, and which of them is
// the first that is not done.
ghost use Rattle.std.specs.Prelude.{◌≡◌, ◌≢◌, ◌++◌, ℕ, List, All, IfOk, IfSome, None, OnErr, OnOk, Some, option_map};
ghost use Rattle.bt_frame.specs.declared.limits.TheConstants.{MOST_DESKS};
ghost use Rattle.bt_frame.specs.Range.{IsWithin};
ghost use Rattle.bt_journal.specs.declared.reply.Reply.TheVariants.{StoreFault};
ghost use Rattle.bt_history.specs.Causes.{Follows};
ghost use Rattle.bt_history.specs.Machine.{IsOfNetwork, Step};
ghost use Rattle.bt_script.specs.Said.{IsSaidFor};
ghost use Rattle.bt_round.specs.Trial.{AllTried, IsDoneThere, IsRefusedThere, IsTry, TriesEdit, TriesPlan, edit_asked};

use bt_book::{Book, Trial, demands_fit_the_frame, replies_name_beams_of_the_network};
use bt_cut::make_plan;
use bt_frame::OutOfMemory;
use bt_journal::{Call, Edit, Entry, Reply};
use bt_net::Network;
use bt_outside::Keeper;
use bt_script::{DeskLine, ScriptLine};
use bt_timeline::entry_text;
use bt_words::{Form, Word, print};
use std::alloc::Global;

/// What the lines of a block come to, as it is printed: the answer to the edit of each, tried one after the other, and then what the
/// planner makes of them. The book stays as it is.
pub fn tried_text<K: Keeper>(
    alloc: Global,
    net: &Network,
    book: &Book<K>,
    lines: &[ScriptLine],
) -> Result<Vec<u8>, OutOfMemory>
    requires network { book.now.net ≡ net.now }
    requires follows { Follows net.now book.now.state.changes }
    requires terminals { All (IsSaidFor net.now) lines.now }
    ensures { IfOk result (λ text. IsTry net.now book.now.state lines.now text.items) }
{
    let mut trial = book.trial(alloc)?;
    let mut text = Vec::new(alloc);
    for line in lines {
        try_line(alloc, net, &mut trial, line, &mut text)?;
    }
    try_plan(alloc, net, &mut trial, &mut text)?;
    Ok(text)
}

/// Why a block is refused, as it is printed: the place of the first line whose edit is not done behind those before it, from 1 on, and
/// what that edit is answered. None where each of its edits is done. The book stays as it is.
pub fn refusal_of<K: Keeper>(
    alloc: Global,
    net: &Network,
    book: &Book<K>,
    lines: &[ScriptLine],
) -> Result<Option<Vec<u8>>, OutOfMemory>
    requires network { book.now.net ≡ net.now }
    requires follows { Follows net.now book.now.state.changes }
    requires terminals { All (IsSaidFor net.now) lines.now }
    ensures { IfOk result (λ refusal. AllTried net.now book.now.state 1 lines.now (option_map (λ text. text.items) refusal)) }
{
    let mut trial = book.trial(alloc)?;
    for place in 0..lines.len() {
        let refusal = refusal_at(alloc, net, &mut trial, place as u64 + 1, &lines[place])?;
        if refusal.is_some() {
            return Ok(refusal);
        }
    }
    Ok(None)
}

/// Tries the edit that a line of a block asks, and appends what it is answered.
fn try_line(
    alloc: Global,
    net: &Network,
    trial: &mut Trial,
    line: &ScriptLine,
    text: &mut Vec<u8>,
) -> Result<(), OutOfMemory>
    requires network { trial.old.net ≡ net.now }
    requires follows { Follows net.now trial.old.state.changes }
    requires terminals { IsSaidFor net.now line.now }
    ensures network { trial.new.net ≡ net.now }
    ensures follows { Follows net.now trial.new.state.changes }
    ensures tried { OnOk result ((told : List ℕ) × TriesEdit net.now trial.old.state (edit_asked line.now) told trial.new.state
        × (text.new.items ≡ text.old.items ++ told)) }
{
    let Some((desk, edit)) = edit_asked(line) else {
        return Ok(());
    };
    // This is there for what holds of each network: it is sound.
    let _beams = net.beam_count();
    replies_name_beams_of_the_network();
    let entry = ask(alloc, trial, u32::from(desk) + 1, Call::Edit(edit))?;
    entry_text(alloc, net, Some(desk), &entry, text)
}

/// Tries the edit that the line at this place of a block asks, and gives the refusal of the block where it is not done.
fn refusal_at(
    alloc: Global,
    net: &Network,
    trial: &mut Trial,
    place: u64,
    line: &ScriptLine,
) -> Result<Option<Vec<u8>>, OutOfMemory>
    requires network { trial.old.net ≡ net.now }
    requires follows { Follows net.now trial.old.state.changes }
    requires terminals { IsSaidFor net.now line.now }
    ensures network { trial.new.net ≡ net.now }
    ensures follows { Follows net.now trial.new.state.changes }
    ensures done { IfOk result (λ refusal. refusal ≡ None → IsDoneThere net.now trial.old.state (edit_asked line.now) trial.new.state) }
    ensures refused { IfOk result (λ refusal. IfSome refusal (λ text. IsRefusedThere net.now trial.old.state place (edit_asked line.now) (Some text.items))) }
{
    let Some((desk, edit)) = edit_asked(line) else {
        return Ok(None);
    };
    // This is there for what holds of each network: it is sound.
    let _beams = net.beam_count();
    replies_name_beams_of_the_network();
    let entry = ask(alloc, trial, u32::from(desk) + 1, Call::Edit(edit))?;
    if entry.reply.is_made() {
        return Ok(None);
    }
    let mut text = Vec::new(alloc);
    print(alloc, Form::BlockRefused, &[Word::Number(place)], &mut text)?;
    entry_text(alloc, net, Some(desk), &entry, &mut text)?;
    Ok(Some(text))
}

/// Tries what the planner does, and appends what is printed of it.
fn try_plan(
    alloc: Global,
    net: &Network,
    trial: &mut Trial,
    text: &mut Vec<u8>,
) -> Result<(), OutOfMemory>
    requires network { trial.old.net ≡ net.now }
    requires follows { Follows net.now trial.old.state.changes }
    ensures tried { OnOk result ((plan : List ℕ) × TriesPlan net.now trial.old.state plan × (text.new.items ≡ text.old.items ++ plan)) }
{
    // This is there for what holds of each network: its frame has at most `MOST_SLOTS` slots.
    let _beams = net.beam_count();
    demands_fit_the_frame();
    replies_name_beams_of_the_network();
    let seen = ask(alloc, trial, 1, Call::Snapshot)?;
    let Reply::Demand {
        edition,
        newest,
        demand,
    } = &seen.reply
    else {
        unreachable!()
    };
    if edition.0 == newest.0 {
        return entry_text(alloc, net, None, &seen, text);
    }
    let plan = make_plan(alloc, net, demand, *edition)?;
    let entry = ask(alloc, trial, 1, Call::Install(plan))?;
    entry_text(alloc, net, None, &entry, text)
}

/// Makes a call on a book without a store, and gives its entry.
fn ask(alloc: Global, trial: &mut Trial, caller: u32, call: Call) -> Result<Entry, OutOfMemory>
    requires terminals { IsOfNetwork trial.old.net call }
    ensures caller { IfOk result (λ entry. entry.caller ≡ caller) }
    ensures call { IfOk result (λ entry. entry.call ≡ call) }
    ensures step { IfOk result (λ entry. Step trial.old.net trial.old.state call entry.reply trial.new.state) }
    ensures sure { IfOk result (λ entry. entry.reply ≢ StoreFault) }
    ensures net { trial.new.net ≡ trial.old.net }
    ensures err { OnErr result (trial.new ≡ trial.old) }
{
    let asked = call.copy(alloc)?;
    // These two are there for what holds of its store: it has no fault.
    let _before = trial.store();
    let reply = trial.apply(alloc, caller, call)?;
    let _after = trial.store();
    Ok(Entry {
        caller,
        call: asked,
        reply,
    })
}

/// The edit that a line of a block asks, behind its desk, if it asks one.
fn edit_asked(line: &ScriptLine) -> Option<(u8, Edit)>
    ensures asked { result ≡ edit_asked line.now }
    ensures desk { IfSome result (λ asked. IsWithin 1 MOST_DESKS asked.0) }
{
    match *line {
        ScriptLine::Desk {
            desk,
            line: DeskLine::Edit(edit),
        } => Some((desk.get(), edit)),
        _ => None,
    }
}
