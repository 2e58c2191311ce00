// What a session keeps of the entries that its book handed over: how the edits among them were answered.
ghost use Rattle.std.specs.Prelude.{◌≡◌, ◌++◌, [], IfOk, List, OnOk};
ghost use Rattle.bt_journal.specs.declared.entry.Entry.{Entry};
ghost use Rattle.bt_centre.specs.Handed.{IsCounted, IsTally};
ghost use Rattle.bt_centre.specs.Lines.{total_of};

use crate::total::{has_lost_entry, sum, totals_of};
use bt_frame::OutOfMemory;
use bt_journal::Entry;
use bt_timeline::{Totals, total_text};
use std::alloc::Global;

/// How the edits among entries were answered, and whether the store failed over a change.
#[derive(Clone, Copy)]
pub(crate) struct Tally {
    /// The same as for a run, whose entries are counted at its end: more than the type has are answered as want of memory.
    pub(crate) totals: Result<Totals, OutOfMemory>,
    pub(crate) lost: bool,
}

impl Tally {
    /// That of no entry.
    pub(crate) fn none() -> Tally
        ensures none { IsTally [] result }
    {
        Tally {
            totals: Ok(Totals {
                done: 0,
                refused: 0,
                failed: 0,
            }),
            lost: false,
        }
    }

    /// With these entries behind those that it counts.
    pub(crate) fn with_entries(self, entries: &[Entry]) -> Tally
        ensures counted { (before : List Entry) → IsTally before self → IsTally (before ++ entries.now) result }
    {
        Tally {
            totals: totals_with(self.totals, entries),
            lost: self.lost || has_lost_entry(entries),
        }
    }

    /// Appends the last line of a session.
    pub(crate) fn add_total(self, alloc: Global, text: &mut Vec<u8>) -> Result<(), OutOfMemory>
        ensures total { (entries : List Entry) → IsTally entries self → OnOk result (text.new.items ≡ text.old.items ++ total_of entries) }
    {
        total_text(alloc, self.totals?, text)
    }
}

/// The totals with these entries behind.
fn totals_with(
    before: Result<Totals, OutOfMemory>,
    entries: &[Entry],
) -> Result<Totals, OutOfMemory>
    ensures counted { (first : List Entry) → IfOk before (λ totals. IsCounted first totals) → IfOk result (λ totals. IsCounted (first ++ entries.now) totals) }
{
    sum(before?, totals_of(entries))
}
