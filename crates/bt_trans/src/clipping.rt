// Modes of a bordered matrix, of which the part in the old lines is kept.
ghost use Rattle.std.specs.Prelude.{◌≡◌, ◌≤◌, All, map, length, IfOk};
ghost use Rattle.bt_trans.specs.Border.{clip, clip_to};

use crate::{PartMode, SILENT};
use bt_frame::{Columns, MOST_BEAMS, Mode, OutOfMemory};
use std::alloc::Global;

/// The parts of these modes between the first so many beams.
pub(crate) fn clipped(
    alloc: Global,
    modes: &[Mode],
    size: usize,
) -> Result<Vec<PartMode>, OutOfMemory>
    requires few { size ≤ MOST_BEAMS }
    requires long { All (λ mode. size ≤ length mode.perm) modes.now }
    ensures parts { IfOk result (λ parts. parts.items ≡ map (clip size) modes.now) }
{
    let mut parts = Vec::new(alloc);
    for mode in modes {
        parts.push(clipped_mode(alloc, mode, size)?)?;
    }
    Ok(parts)
}

/// The part of a mode between the first so many beams.
fn clipped_mode(alloc: Global, mode: &Mode, size: usize) -> Result<PartMode, OutOfMemory>
    requires few { size ≤ MOST_BEAMS }
    requires long { size ≤ length mode.now.perm }
    ensures { IfOk result (λ part. part ≡ clip size mode.now) }
{
    let perm = mode.perm.as_slice();
    let values = clipped_columns(alloc, &perm[..size], size)?;
    Ok(PartMode {
        duration: mode.duration,
        perm: Columns::of(values),
    })
}

/// The downlink beams below a size, and silence in place of the others.
fn clipped_columns(alloc: Global, columns: &[u8], size: usize) -> Result<Vec<u8>, OutOfMemory>
    ensures { IfOk result (λ values. values.items ≡ map (clip_to size) columns.now) }
{
    let mut values = Vec::new(alloc);
    for down in columns {
        values.push(clipped_column(*down, size))?;
    }
    Ok(values)
}

/// The downlink beam if it is below the size, else silence.
fn clipped_column(down: u8, size: usize) -> u8
    ensures { result ≡ clip_to size down }
{
    if (down as usize) < size { down } else { SILENT }
}
