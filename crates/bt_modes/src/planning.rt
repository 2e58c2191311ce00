// The switching schedule of the least length.
ghost use Rattle.std.specs.Prelude.{◌≡◌, ◌+◌, ◌<◌, ◌≤◌, [], length, vec_len, IfOk};
ghost use Rattle.bt_matrix.specs.Good.{IsGood, total_duration};
ghost use Rattle.bt_matrix.specs.Traffic.{IsHeaviest};
ghost use Rattle.bt_matrix.specs.Walk.{positive_entries};
ghost use Rattle.bt_modes.specs.Decomposition.{DecomposesTo};
ghost use Rattle.bt_modes.specs.Few.{HasFewModes};

use crate::decomposition::decompose;
use crate::padding::Padded;
use crate::serving::serve;
use bt_frame::{Mode, Modes, OutOfMemory, Schedule, Steps};
use bt_matrix::{Crosslinked, Dense, Traffic};
use std::alloc::Global;
use std::marker::Brand;
use std::sync::ledger::{Blank, Ledger};

/// A schedule for the matrix, than which none is shorter. Each mode serves part of the matrix, and what is left always fits
/// into the slots that are left.
pub fn schedule(alloc: Global, matrix: &Dense) -> Result<Schedule, OutOfMemory>
    ensures heaviest { IfOk result (λ schedule. IsHeaviest matrix.now schedule.critical schedule.length) }
    ensures good { IfOk result (λ schedule. IsGood matrix.now schedule) }
    ensures few { IfOk result (λ schedule. HasFewModes matrix.now schedule) }
{
    let (critical, length) = matrix.heaviest();
    let modes = serve(alloc, matrix, length)?;
    Ok(Schedule {
        length,
        critical,
        modes: Modes::of(modes),
    })
}

/// The modes whose slots are those of a padded matrix of linked nodes.
pub fn modes_of(alloc: Global, padded: Padded<Crosslinked>) -> Result<Vec<Mode>, OutOfMemory>
    ensures modes { IfOk result (λ modes. DecomposesTo padded.matrix.rows modes.items) }
    ensures filled { IfOk result (λ modes. total_duration modes.items ≡ padded.sum) }
    ensures few { 0 < padded.sum → IfOk result (λ modes.
        vec_len modes + length padded.matrix.rows ≤ positive_entries padded.matrix.rows + 1) }
    ensures none { padded.sum ≡ 0 → IfOk result (λ modes. modes.items ≡ []) }
{
    modes_on::<Brand>(alloc, padded, Blank::new(1))
}

/// The same, on a counter of their own that nobody reads.
fn modes_on<L: Ledger>(
    alloc: Global,
    padded: Padded<Crosslinked>,
    blank: Blank,
) -> Result<Vec<Mode>, OutOfMemory>
    requires name { blank.name ≡ L.name }
    requires parts { blank.parts ≡ L.parts }
    requires some { 0 < blank.parts }
    ensures modes { IfOk result (λ modes. DecomposesTo padded.matrix.rows modes.items) }
    ensures filled { IfOk result (λ modes. total_duration modes.items ≡ padded.sum) }
    ensures few { 0 < padded.sum → IfOk result (λ modes.
        vec_len modes + length padded.matrix.rows ≤ positive_entries padded.matrix.rows + 1) }
    ensures none { padded.sum ≡ 0 → IfOk result (λ modes. modes.items ≡ []) }
{
    let mut steps = Steps::<L>::open(blank);
    decompose(alloc, padded, &mut steps)
}
