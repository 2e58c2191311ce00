// A matrix served mode by mode. Nothing is padded beforehand: each mode decides which connections get slots that nobody asks for.
ghost use Rattle.std.specs.Prelude.{◌≡◌, ℕ, ◌+◌, ◌*◌, ◌<◌, ◌≤◌, max, length, vec_len, slice_index, IfOk};
ghost use Rattle.bt_frame.specs.declared.schedule.Critical.{Critical};
ghost use Rattle.bt_matrix.specs.Good.{IsPermutation, slots_in};
ghost use Rattle.bt_matrix.specs.Traffic.{entry, line_sum, row_of, IsLine, IsTraffic};
ghost use Rattle.bt_matrix.specs.Walk.{positive_entries};
ghost use Rattle.bt_modes.specs.Padding.{HasLinesWithin, IsGreatestSum, IsPartPadding};
ghost use Rattle.bt_modes.specs.Serving.{MayHold, ServesMatrix, ServesPart};

use crate::Perm;
use crate::copy::copy_of;
use crate::hold::hold_of;
use crate::search::Tables;
use bt_frame::{BeamNo, Columns, MOST_SUM, Mode, OutOfMemory};
use bt_matrix::{Dense, Traffic};
use std::alloc::Global;

/// Modes that serve the matrix, of as many slots together as its heaviest line has.
pub(crate) fn serve(alloc: Global, matrix: &Dense, slots: u32) -> Result<Vec<Mode>, OutOfMemory>
    requires greatest { IsGreatestSum matrix.now slots }
    ensures limit { IfOk result (λ _. slots ≤ MOST_SUM) }
    ensures served { IfOk result (λ modes. ServesMatrix matrix.now modes.items slots) }
    ensures few { IfOk result (λ modes. vec_len modes ≤ positive_entries matrix.now + 2 * length matrix.now) }
{
    let mut rest = copy_of(alloc, matrix)?;
    let mut left = slots;
    let mut modes = Vec::new(alloc);
    let mut perm = Perm::identity(matrix.size());
    let mut tables = Tables::empty();
    while 0 < left {
        perm = tables.search(&rest, left, perm);
        let mode = serve_mode(alloc, &mut rest, left, &perm)?;
        left -= mode.duration;
        modes.push(mode)?;
    }
    Ok(modes)
}

/// Serves part of the matrix by one mode, which lasts as long as its permutation may be held.
fn serve_mode(alloc: Global, rest: &mut Dense, left: u32, perm: &Perm) -> Result<Mode, OutOfMemory>
    requires size { length perm.now ≡ length rest.old }
    requires within { HasLinesWithin rest.old left }
    requires held { MayHold rest.old left perm.now 1 }
    requires limit { left ≤ MOST_SUM }
    ensures served { IfOk result (λ mode. ServesPart rest.old left mode rest.new) }
{
    let duration = hold_of(rest, left, perm);
    let columns = Columns::from_slice(alloc, perm.as_slice())?;
    raise_entries(rest, columns.as_slice(), duration, left);
    take_entries(rest, columns.as_slice(), duration);
    Ok(Mode {
        duration,
        perm: columns,
    })
}

/// Raises each connection of the permutation to so many slots, for which it may be held.
fn raise_entries(rest: &mut Dense, perm: &[u8], slots: u32, left: u32)
    requires permutation { IsPermutation (length rest.old) perm.now }
    requires held { MayHold rest.old left perm.now slots }
    requires within { HasLinesWithin rest.old left }
    requires limit { left ≤ MOST_SUM }
    ensures traffic { IsTraffic rest.old }
    ensures raised { IsPartPadding rest.old rest.new left }
    ensures least { (up : ℕ) → up < length rest.old → slots ≤ entry rest.new up (slice_index perm.now up) }
    ensures most { (up down : ℕ) → up < length rest.old → down < length rest.old
        → entry rest.new up down ≤ max (entry rest.old up down) (slots_in up down (record { duration = slots; perm = perm.now })) }
{
    for up in 0..rest.size() as u8 {
        let down = BeamNo(perm[up as usize]);
        let short = slots.saturating_sub(rest.get(BeamNo(up), down));
        if 0 < short {
            rest.add(BeamNo(up), down, short);
        }
    }
}

/// Takes so many slots off each connection of the permutation.
fn take_entries(rest: &mut Dense, perm: &[u8], slots: u32)
    requires permutation { IsPermutation (length rest.old) perm.now }
    requires some { 0 < slots }
    requires least { (up : ℕ) → up < length rest.old → slots ≤ entry rest.old up (slice_index perm.now up) }
    ensures size { length rest.new ≡ length rest.old }
    ensures square { (up : ℕ) → up < length rest.old → length (row_of rest.new up) ≡ length rest.old }
    ensures entries { (up down : ℕ) → up < length rest.old → down < length rest.old
        → entry rest.old up down ≡ entry rest.new up down + slots_in up down (record { duration = slots; perm = perm.now }) }
    ensures lines { (line : Critical) → IsLine rest.old line → line_sum rest.old line ≡ line_sum rest.new line + slots }
{
    for up in 0..rest.size() as u8 {
        rest.take(BeamNo(up), BeamNo(perm[up as usize]), slots);
    }
}
