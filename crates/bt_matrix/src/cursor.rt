// Walks over the positive entries of a row, one step for each entry that is told.
ghost use Rattle.std.specs.Prelude.{◌≡◌, ℕ, List, [], ◌∷◌, ◌+◌, ◌<◌, length, None, IfSome, IfNone, MatchOption};
ghost use Rattle.bt_matrix.specs.Walk.{IsNextEntry, IsEmptyFrom};
ghost use Rattle.bt_matrix.specs.Cursor.{column_behind, entries_behind, HasEntry};

use crate::Traffic;
use crate::crosslinked::Crosslinked;
use bt_frame::{BeamNo, Steps};
use std::marker::Model;
use std::sync::ledger::Ledger;

/// The positive entries of a row that are still to come, from left to right.
#[derive(Drop)]
pub struct Cursor<'a> {
    matrix: &'a Crosslinked,
    row: BeamNo,
    last: Option<BeamNo>,
}

impl<'a> Model for Cursor<'a> {
    ghost use Rattle.std.specs.Prelude.{ℕ, List, ◌<◌, length};

    ghost Value = { List (ℕ × ℕ) };

    ghost use Rattle.bt_matrix.specs.Cursor.{entries_behind, HasEntry};

    ghost view = { λ c. entries_behind c.matrix.now.rows c.row.0 c.last };

    ghost invariant = { λ c. (c.row.0 < length c.matrix.now.rows) × HasEntry c.matrix.now.rows c.row.0 c.last };
}

impl Crosslinked {
    /// A walk over the positive entries of a row, each with its column and its slots.
    pub fn cursor(&self, row: BeamNo) -> Cursor<'_>
        requires row { row.0 < length self.now.rows }
        ensures all { result ≡ entries_behind self.now.rows row.0 None }
    {
        Cursor {
            matrix: self,
            row,
            last: None,
        }
    }

    /// The first positive entry of a row, or the first behind one of them, at the cost of a step where there is one.
    fn next_entry<L: Ledger>(
        &self,
        row: BeamNo,
        last: Option<BeamNo>,
        steps: &mut Steps<L>,
    ) -> Option<(BeamNo, u32)>
        requires row { row.0 < length self.now.rows }
        requires last { HasEntry self.now.rows row.0 last }
        ensures next { IfSome result (λ found. IsNextEntry self.now.rows row.0 (column_behind last) found.0.0 found.1) }
        ensures none { IfNone result (IsEmptyFrom self.now.rows row.0 (column_behind last)) }
        ensures step { IfSome result (λ _. steps.new ≡ steps.old + 1) }
        ensures no_step { IfNone result (steps.new ≡ steps.old) }
    {
        let found = self.entry_behind(row, last)?;
        steps.tick();
        Some(found)
    }
}

impl<'a> Cursor<'a> {
    /// The next positive entry, by its column and its slots. It counts one step where there is one.
    pub fn next<L: Ledger>(&mut self, steps: &mut Steps<L>) -> Option<(BeamNo, u32)>
        ensures entry { MatchOption result ((self.old ≡ []) × (self.new ≡ [])) (λ found. self.old ≡ (found.0.0, found.1) ∷ self.new) }
        ensures steps { MatchOption result (steps.new ≡ steps.old) (λ _. steps.new ≡ steps.old + 1) }
    {
        let matrix = self.matrix;
        let (down, units) = matrix.entry_behind(self.row, self.last)?;
        self.last = Some(down);
        steps.tick();
        Some((down, units))
    }
}

impl<L: Ledger> crate::Walk<L> for Crosslinked {
    fn size(&self) -> u32 {
        Traffic::size(self)
    }

    fn first(&self, row: BeamNo, steps: &mut Steps<L>) -> Option<(BeamNo, u32)> {
        self.next_entry(row, None, steps)
    }

    fn after(&self, row: BeamNo, down: BeamNo, steps: &mut Steps<L>) -> Option<(BeamNo, u32)> {
        // This is there for what holds of each matrix.
        let _size = Traffic::size(self);
        self.next_entry(row, Some(down), steps)
    }

    fn units(&self, up: BeamNo, down: BeamNo, steps: &mut Steps<L>) -> u32 {
        steps.tick();
        self.get(up, down)
    }

    fn take(&mut self, up: BeamNo, down: BeamNo, units: u32) {
        Traffic::take(self, up, down, units)
    }
}
