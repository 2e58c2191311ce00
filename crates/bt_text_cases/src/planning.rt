// Steps of planning that a command does not show one by one.
ghost use Rattle.std.specs.Bool.{OnTrue};
ghost use Rattle.std.specs.Prelude.{◌≡◌, ◌<◌};
ghost use Rattle.bt_modes.specs.Matching.{HasEqualLineSums};

use crate::crossed::put_crossed;
use crate::cutting::put_cutting;
use crate::texts::{matrix_from, put_verdict};
use bt_frame::{BeamNo, Steps};
use bt_matrix::{Crosslinked, Dense, Traffic};
use bt_modes::{Partial, Perm, perfect};
use bt_sheet::{CaseFault, Result, Shelf, byte_of};
use std::alloc::Global;
use std::marker::Brand;
use std::sync::ledger::{Blank, Ledger};

/// Shows steps of planning over texts.
pub fn show_steps(alloc: Global, shelf: &Shelf, words: &[&str], out: &mut String) -> Result<bool> {
    let shown = match *words {
        ["judge", matrix, beams, modes] => judge(alloc, shelf, matrix, beams, modes, out),
        ["cutting", net, traffic, edition, modes] => {
            cut_texts(alloc, shelf, net, traffic, edition, modes, out)
        }
        ["match", matrix, first, second, third] => {
            show_permutations(alloc, shelf, matrix, [first, second, third], out)
        }
        ["crossed"] => put_crossed::<Brand>(alloc, Blank::new(1), out),
        _ => return Ok(false),
    };
    shown?;
    Ok(true)
}

fn show_permutations(
    alloc: Global,
    shelf: &Shelf,
    matrix: &str,
    [first, second, third]: [&str; 3],
    out: &mut String,
) -> Result<()> {
    let rows = [byte_of(first)?, byte_of(second)?, byte_of(third)?];
    put_permutations(alloc, shelf.text(matrix)?, rows, out)
}

fn judge(
    alloc: Global,
    shelf: &Shelf,
    matrix: &str,
    beams: &str,
    modes: &str,
    out: &mut String,
) -> Result<()> {
    put_verdict(alloc, shelf.text(matrix)?, beams, shelf.text(modes)?, out)
}

fn cut_texts(
    alloc: Global,
    shelf: &Shelf,
    net: &str,
    traffic: &str,
    edition: &str,
    modes: &str,
    out: &mut String,
) -> Result<()> {
    let net = shelf.text(net)?;
    let traffic = shelf.text(traffic)?;
    let modes = shelf.text(modes)?;
    put_cutting(alloc, net, traffic, edition, modes, out)
}

/// Appends a permutation inside a matrix of equal line sums, and the one that is found after three rows were freed.
fn put_permutations(alloc: Global, matrix: &[u8], rows: [u8; 3], out: &mut String) -> Result<()> {
    let matrix = matrix_from(alloc, matrix)?;
    if !has_equal_sums(&matrix) {
        return Err(CaseFault("other line sums"));
    }
    let Ok(matrix) = Crosslinked::of(alloc, &matrix) else {
        return Err(CaseFault("out of memory"));
    };
    put_counted::<Brand>(alloc, &matrix, rows, Blank::new(1), out)
}

/// The same on a counter that is opened for it.
fn put_counted<L: Ledger>(
    alloc: Global,
    matrix: &Crosslinked,
    freed: [u8; 3],
    blank: Blank,
    out: &mut String,
) -> Result<()>
    requires equal { HasEqualLineSums matrix.now.rows }
    requires name { blank.name ≡ L.name }
    requires parts { blank.parts ≡ L.parts }
    requires some { 0 < blank.parts }
{
    put_perms(alloc, matrix, freed, &mut Steps::<L>::open(blank), out)
}

fn put_perms<L: Ledger>(
    alloc: Global,
    matrix: &Crosslinked,
    freed: [u8; 3],
    steps: &mut Steps<L>,
    out: &mut String,
) -> Result<()>
    requires { HasEqualLineSums matrix.now.rows }
{
    let [first, second, third] = freed;
    let Ok(begin) = Partial::empty(alloc, matrix.size()) else {
        return Err(CaseFault("out of memory"));
    };
    let Ok(perm) = perfect(alloc, matrix, begin, steps) else {
        return Err(CaseFault("out of memory"));
    };
    put_perm(&perm, out)?;
    let mut begin = Partial::of(perm);
    begin.free(BeamNo(first));
    begin.free(BeamNo(second));
    begin.free(BeamNo(third));
    let Ok(perm) = perfect(alloc, matrix, begin, steps) else {
        return Err(CaseFault("out of memory"));
    };
    put_perm(&perm, out)
}

fn put_perm(perm: &Perm, out: &mut String) -> Result<()> {
    write!(out, ">{:?}\n", perm.as_slice())?;
    Ok(())
}

/// All lines of the matrix have one positive sum.
fn has_equal_sums(matrix: &Dense) -> bool
    ensures { OnTrue result (HasEqualLineSums matrix.now) }
{
    let size = matrix.size() as u8;
    let sum = matrix.row_sum(BeamNo(0));
    for beam in 0..size {
        if matrix.row_sum(BeamNo(beam)) != sum || matrix.column_sum(BeamNo(beam)) != sum {
            return false;
        }
    }
    0 < sum
}
