// The last line of a run: how its edits were answered.
ghost use Rattle.std.specs.Prelude.{◌≡◌, ◌+◌, ◌++◌, ◌&&◌, if◌then◌else◌, length, IfOk, OnOk};
ghost use Rattle.std.specs.List.{list_any};
ghost use Rattle.bt_history.specs.Store.{is_lost};
ghost use Rattle.bt_journal.specs.Journal.{asks_edit, failed_of, is_fault, is_made, is_refusal, refused_of};
ghost use Rattle.bt_centre.specs.Lines.{done_of, total_of};
ghost use Rattle.bt_centre.specs.Run.{entries_of, has_lost};

use crate::History;
use bt_frame::OutOfMemory;
use bt_journal::{Call, Entry, Reply};
use bt_timeline::{Totals, total_text};
use std::alloc::Global;

/// Appends the last line of a run with these histories. It counts edits alone, and no install or order.
pub(crate) fn add_total(
    alloc: Global,
    histories: &[History],
    text: &mut Vec<u8>,
) -> Result<(), OutOfMemory>
    ensures { OnOk result (text.new.items ≡ text.old.items ++ total_of (entries_of histories.now)) }
{
    let mut totals = Totals {
        done: 0,
        refused: 0,
        failed: 0,
    };
    for history in histories {
        totals = sum(totals, totals_of(history.entries.as_slice()))?;
    }
    total_text(alloc, totals, text)
}

/// The sum of two totals. So many entries as would pass its type would not fit in memory, so that they are answered as
/// want of it.
pub(crate) fn sum(one: Totals, other: Totals) -> Result<Totals, OutOfMemory>
    ensures done { IfOk result (λ both. both.done ≡ one.done + other.done) }
    ensures refused { IfOk result (λ both. both.refused ≡ one.refused + other.refused) }
    ensures failed { IfOk result (λ both. both.failed ≡ one.failed + other.failed) }
{
    Ok(Totals {
        done: add(one.done, other.done)?,
        refused: add(one.refused, other.refused)?,
        failed: add(one.failed, other.failed)?,
    })
}

fn add(one: u64, other: u64) -> Result<u64, OutOfMemory>
    ensures { IfOk result (λ both. both ≡ one + other) }
{
    one.checked_add(other).ok_or(OutOfMemory)
}

/// The store failed over a change in one of these histories.
pub(crate) fn has_lost(histories: &[History]) -> bool
    ensures { result ≡ has_lost histories.now }
{
    histories
        .iter()
        .any(|history| has_lost_entry(history.entries.as_slice()))
}

/// The store failed over a change in one of these entries.
pub(crate) fn has_lost_entry(entries: &[Entry]) -> bool
    ensures { result ≡ list_any (λ entry. is_lost entry.reply) entries.now }
{
    entries.iter().any(|entry| is_lost(&entry.reply))
}

fn is_lost(reply: &Reply) -> bool
    ensures { result ≡ is_lost reply.now }
{
    matches!(*reply, Reply::StoreFault)
}

/// How many edits were done, how many were refused, and how many the store failed.
pub(crate) fn totals_of(entries: &[Entry]) -> Totals
    ensures done { result.done ≡ length (done_of entries.now) }
    ensures refused { result.refused ≡ length (refused_of entries.now) }
    ensures failed { result.failed ≡ length (failed_of entries.now) }
{
    let mut done = 0u64;
    let mut refused = 0u64;
    let mut failed = 0u64;
    for entry in entries {
        done += one_if(is_done(entry));
        refused += one_if(is_refused(entry));
        failed += one_if(is_failed(entry));
    }
    Totals {
        done,
        refused,
        failed,
    }
}

/// 1 where the test is passed, else 0.
fn one_if(test: bool) -> u64
    ensures { result ≡ (if test then 1 else 0) }
{
    if test { 1 } else { 0 }
}

/// The entry is that of an edit that was made.
fn is_done(entry: &Entry) -> bool
    ensures { result ≡ (asks_edit entry.now.call && is_made entry.now.reply) }
{
    is_edit(&entry.call) && entry.reply.is_made()
}

/// The entry is that of an edit that was refused for a cause of its own.
fn is_refused(entry: &Entry) -> bool
    ensures { result ≡ (asks_edit entry.now.call && is_refusal entry.now.reply) }
{
    is_edit(&entry.call) && entry.reply.is_refusal()
}

/// The entry is that of an edit that a fault of the store kept from being made.
fn is_failed(entry: &Entry) -> bool
    ensures { result ≡ (asks_edit entry.now.call && is_fault entry.now.reply) }
{
    is_edit(&entry.call) && entry.reply.is_fault()
}

fn is_edit(call: &Call) -> bool
    ensures { result ≡ asks_edit call.now }
{
    match *call {
        Call::Edit(_) => true,
        Call::Snapshot | Call::Install(_) | Call::Newest { .. } | Call::Place(_) => false,
    }
}
