// The first cause for which a change is refused, and that of an edit. Nothing changes while it is looked for.
ghost use Rattle.std.specs.Prelude.{◌≡◌, ◌==◌, ◌≤◌, if◌then◌else◌, IfOk};
ghost use Rattle.bt_journal.specs.Journal.{NamesTerminals};
ghost use Rattle.bt_history.specs.Changes.{held_after};
ghost use Rattle.bt_history.specs.Causes.{IsChangeOn};
ghost use Rattle.bt_history.specs.Records.{IsFirstCause, IsFirstEditCause, IsShortOf};
ghost use Rattle.bt_book.specs.Lines.{AreLinesAfter};

use crate::lines::{Lines, full_line};
use crate::machine::Machine;
use bt_frame::{BeamNo, OutOfMemory, TermNo, Units};
use bt_journal::{Change, Edit, Reply};
use std::alloc::Global;

impl Machine {
    /// The first cause of a refusal in a change.
    #[inline(always)]
    pub(crate) fn cause_in(
        &self,
        alloc: Global,
        asked: &Change,
    ) -> Result<Option<Reply>, OutOfMemory>
        requires { IsChangeOn self.now.net asked.now }
        ensures { IfOk result (λ cause. IsFirstCause self.now.net self.now.state.changes asked.now cause) }
    {
        match asked {
            Change::Edit(edit) => Ok(self.cause_of(edit)),
            Change::Install(plan) => self.cause_of_install(alloc, plan),
            Change::Order(order) => Ok(self.cause_of_order(order)),
        }
    }

    /// The first cause of a refusal in the edit itself.
    #[inline(always)]
    fn cause_of(&self, edit: &Edit) -> Option<Reply>
        requires { NamesTerminals self.now.net edit.now }
        ensures { IsFirstEditCause self.now.net self.now.state.changes edit.now result }
    {
        match *edit {
            Edit::Add { from, to, units } => self.cause_of_add(from, to, units),
            Edit::Drop { from, to, units } => self.cause_of_drop(from, to, units),
            Edit::Move {
                from,
                to,
                new_from,
                new_to,
                units,
            } => self.cause_of_move(from, to, new_from, new_to, units),
        }
    }

    #[inline(always)]
    fn cause_of_add(&self, from: TermNo, to: TermNo, units: Units) -> Option<Reply>
        requires { NamesTerminals self.now.net (Edit.Add from to units) }
        ensures { IsFirstEditCause self.now.net self.now.state.changes (Edit.Add from to units) result }
    {
        if from == to {
            Some(Reply::SameTerminal)
        } else {
            full_line(
                self.lines_after_add(from, to, units),
                self.kept.occupancy.slots(),
            )
        }
    }

    #[inline(always)]
    fn cause_of_drop(&self, from: TermNo, to: TermNo, units: Units) -> Option<Reply>
        requires { NamesTerminals self.now.net (Edit.Drop from to units) }
        ensures { IsFirstEditCause self.now.net self.now.state.changes (Edit.Drop from to units) result }
    {
        if from == to {
            Some(Reply::SameTerminal)
        } else {
            self.not_there(from, to, units)
        }
    }

    #[inline(never)]
    fn cause_of_move(
        &self,
        from: TermNo,
        to: TermNo,
        new_from: TermNo,
        new_to: TermNo,
        units: Units,
    ) -> Option<Reply>
        requires { NamesTerminals self.now.net (Edit.Move from to new_from new_to units) }
        ensures { IsFirstEditCause self.now.net self.now.state.changes (Edit.Move from to new_from new_to units) result }
    {
        if from == to || new_from == new_to {
            return Some(Reply::SameTerminal);
        }
        match self.not_there(from, to, units) {
            Some(refusal) => Some(refusal),
            None => full_line(
                self.lines_after_move(from, to, new_from, new_to, units),
                self.kept.occupancy.slots(),
            ),
        }
    }

    /// The refusal where a link holds fewer slots than are taken from it.
    fn not_there(&self, from: TermNo, to: TermNo, units: Units) -> Option<Reply>
        ensures { IsShortOf self.now.state.changes from to units result }
    {
        let held = self.kept.occupancy.units(from, to);
        if held < units.get() {
            Some(Reply::NotThere { held })
        } else {
            None
        }
    }

    /// The lines of a link after it gained.
    fn lines_after_add(&self, from: TermNo, to: TermNo, units: Units) -> Lines
        requires { NamesTerminals self.now.net (Edit.Add from to units) }
        ensures { AreLinesAfter self.now.net self.now.state.changes (Edit.Add from to units) result }
    {
        let (row, row_slots) = self.kept.occupancy.row_of(from);
        let (column, column_slots) = self.kept.occupancy.column_of(to);
        let slots = units.get();
        Lines {
            row,
            row_slots: row_slots + slots,
            column,
            column_slots: column_slots + slots,
        }
    }

    /// The lines of a link after it gained what the first link lost.
    fn lines_after_move(
        &self,
        from: TermNo,
        to: TermNo,
        new_from: TermNo,
        new_to: TermNo,
        units: Units,
    ) -> Lines
        requires terminals { NamesTerminals self.now.net (Edit.Move from to new_from new_to units) }
        requires held { units ≤ held_after self.now.state.changes from to }
        ensures { AreLinesAfter self.now.net self.now.state.changes (Edit.Move from to new_from new_to units) result }
    {
        let (old_row, _) = self.kept.occupancy.row_of(from);
        let (old_column, _) = self.kept.occupancy.column_of(to);
        let (row, row_slots) = self.kept.occupancy.row_of(new_from);
        let (column, column_slots) = self.kept.occupancy.column_of(new_to);
        let slots = units.get();
        Lines {
            row,
            row_slots: row_slots + slots - freed(old_row, row, slots),
            column,
            column_slots: column_slots + slots - freed(old_column, column, slots),
        }
    }
}

/// The slots that a link leaves free in the line of a beam: all of them, or none.
fn freed(line: BeamNo, other: BeamNo, slots: u32) -> u32
    ensures slots { result ≡ (if line.0 == other.0 then slots else 0) }
    ensures few { result ≤ slots }
{
    if line == other { slots } else { 0 }
}
