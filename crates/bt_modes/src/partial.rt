// Partial maps of rows to columns.
ghost use Rattle.std.specs.Prelude.{◌≡◌, ◌≢◌, ℕ, ◌+◌, ◌*◌, ◌<◌, ◌≤◌, length, map, slice_index, Some, None, IsOk, IfOk};
ghost use Rattle.bt_matrix.specs.Good.{IsPermutation};
ghost use Rattle.bt_matrix.specs.Walk.{positive_entries};
ghost use Rattle.bt_matrix.specs.Traffic.{entry};
ghost use Rattle.bt_modes.specs.Search.{IsWithin};
ghost use Rattle.bt_modes.specs.Matching.{column_of, free_rows, IsEmpty, IsWhole, HasColumnsOf, HasEqualLineSums, HasSupport, IsInside, IsInsidePerm};

use crate::matching::{match_free_rows, match_rows, widen_rows};
use crate::perm::Perm;
use bt_frame::{BeamNo, MOST_BEAMS, OutOfMemory, Steps};
use bt_matrix::Walk;
use std::alloc::Global;
use std::marker::Model;
use std::sync::ledger::Ledger;

/// A column for some of 1 to `MOST_BEAMS` rows, each below their number and no column twice.
#[derive(Drop)]
pub struct Partial {
    columns: [Option<u8>; MOST_BEAMS],
    size: usize,
}

impl Model for Partial {
    ghost use Rattle.std.specs.Prelude.{ℕ, List, Option, take, ◌≤◌};
    ghost use Rattle.bt_modes.specs.Matching.{IsPartial};
    ghost use Rattle.bt_frame.specs.declared.limits.TheConstants.{MOST_BEAMS};

    ghost Value = { List (Option ℕ) };

    ghost view = { λ a. take a.size a.columns };

    ghost invariant = { λ a. (a.size ≤ MOST_BEAMS) × IsPartial (take a.size a.columns) };
}

impl Partial {
    /// No row of so many, 1 to `MOST_BEAMS`, has a column.
    pub fn empty(_alloc: Global, size: u32) -> Result<Partial, OutOfMemory>
        requires some { 1 ≤ size }
        requires few { size ≤ MOST_BEAMS }
        ensures size { IfOk result (λ partial. length partial ≡ size) }
        ensures empty { IfOk result IsEmpty }
        ensures ok { IsOk result }
    {
        Ok(Partial {
            columns: [None; MOST_BEAMS],
            size: size as usize,
        })
    }

    /// Every row has the column that the permutation gives it.
    pub fn of(perm: Perm) -> Partial
        ensures size { length result ≡ length perm }
        ensures whole { IsWhole result }
        ensures columns { HasColumnsOf result perm }
    {
        let mut columns = [None; MOST_BEAMS];
        let perm = perm.as_slice();
        copy_columns(perm, &mut columns[..perm.len()]);
        Partial {
            columns,
            size: perm.len(),
        }
    }

    /// The row has no column from now on. A row that has none stays so, and all other rows stay as they are.
    pub fn free(&mut self, row: BeamNo)
        ensures size { length self.new ≡ length self.old }
        ensures freed { column_of self.new row.0 ≡ None }
        ensures others { (other : ℕ) → other ≢ row.0 → column_of self.new other ≡ column_of self.old other }
    {
        let row = row.0 as usize;
        if row < self.size {
            self.columns[row] = None;
        }
    }

    /// Gives every row a column at a positive entry of the matrix, whose line sums are equal and positive.
    pub(crate) fn complete<M: Walk<L>, L: Ledger>(
        mut self,
        matrix: &M,
        steps: &mut Steps<L>,
    ) -> Perm
        requires equal { HasEqualLineSums (M.rows matrix.now) }
        requires size { length self ≡ length (M.rows matrix.now) }
        requires inside { IsInside (M.rows matrix.now) self }
        ensures permutation { IsPermutation (length (M.rows matrix.now)) result }
        ensures inside { IsInsidePerm (M.rows matrix.now) result }
        ensures looks { steps.new ≤ steps.old + positive_entries (M.rows matrix.now) * free_rows self }
    {
        let size = self.size;
        let columns = &mut self.columns[..size];
        match_rows(matrix, columns, steps);
        Perm::of(columns)
    }

    /// Gives every row a column at a positive entry of the table, and moves rows to columns of more slots as long as the row of
    /// fewest slots can be moved.
    pub fn widest(mut self, table: &[[u32; MOST_BEAMS]; MOST_BEAMS]) -> Perm
        requires support { HasSupport table.now (length self) }
        requires within { IsWithin table.now (length self) }
        requires inside { IsInside table.now self }
        ensures size { length result ≡ length self }
        ensures inside { (up : ℕ) → up < length self → 0 < entry table.now up (slice_index result up) }
    {
        let size = self.size;
        let columns = &mut self.columns[..size];
        match_free_rows(table, columns);
        widen_rows(table, columns);
        Perm::of(columns)
    }
}

/// Gives each row the column that the permutation has at its place.
fn copy_columns(perm: &[u8], columns: &mut [Option<u8>])
    requires { length columns.old ≡ length perm.now }
    ensures { columns.new ≡ map Some perm.now }
{
    for (row, down) in perm.iter().enumerate() {
        columns[row] = Some(*down);
    }
}
