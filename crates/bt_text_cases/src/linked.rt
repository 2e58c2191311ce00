// The lines of a matrix of linked nodes, of which entries gain and lose slots.
ghost use Rattle.std.specs.Prelude.{◌≡◌, ◌<◌, length};

use bt_frame::{BeamNo, Critical, MOST_BEAMS, Steps};
use bt_matrix::{Crosslinked, MOST_SUM, Traffic};
use bt_sheet::{CaseFault, Result, byte_of, number_of};
use std::alloc::Global;
use std::marker::Brand;
use std::sync::ledger::{Blank, Ledger};

/// A matrix of so many beams that asks for nothing.
pub fn linked_of(alloc: Global, beams: u32) -> Result<Crosslinked> {
    if beams == 0 || (MOST_BEAMS as u32) < beams {
        return Err(CaseFault("no number of beams"));
    }
    match Crosslinked::new(alloc, beams) {
        Ok(matrix) => Ok(matrix),
        Err(_full) => Err(CaseFault("out of memory")),
    }
}

/// Does to the matrix what the words say, and appends its heaviest line, or what was asked for.
pub fn put_linked(
    alloc: Global,
    matrix: &mut Crosslinked,
    words: &[&str],
    out: &mut String,
) -> Result<()> {
    match *words {
        ["reserve", entries] => reserve(alloc, matrix, number_of(entries)?)?,
        ["add", up, down, units] => add(matrix, entry_of(up, down, units)?)?,
        ["take", up, down, units] => take(matrix, entry_of(up, down, units)?)?,
        ["spare"] => return put_spare(matrix, out),
        ["row", up] => return put_row::<Brand>(matrix, byte_of(up)?, Blank::new(1), out),
        _ => return Err(CaseFault("no line of a linked matrix")),
    }
    put_heaviest(matrix, out)
}

/// The beams of a connection, and slots.
fn entry_of(up: &str, down: &str, units: &str) -> Result<(u8, u8, u32)> {
    Ok((byte_of(up)?, byte_of(down)?, number_of(units)?))
}

fn reserve(alloc: Global, matrix: &mut Crosslinked, entries: u32) -> Result<()> {
    match matrix.reserve(alloc, entries) {
        Ok(()) => Ok(()),
        Err(_full) => Err(CaseFault("out of memory")),
    }
}

fn add(matrix: &mut Crosslinked, (up, down, units): (u8, u8, u32)) -> Result<()> {
    if adds(matrix, BeamNo(up), BeamNo(down), units) {
        Ok(())
    } else {
        Err(CaseFault("no room for the entry"))
    }
}

fn take(matrix: &mut Crosslinked, (up, down, units): (u8, u8, u32)) -> Result<()> {
    if takes(matrix, BeamNo(up), BeamNo(down), units) {
        Ok(())
    } else {
        Err(CaseFault("not so many slots there"))
    }
}

/// The entry gains units, if the limit of sums and the room allow it. Whether it did.
pub fn adds<M: Traffic>(matrix: &mut M, up: BeamNo, down: BeamNo, units: u32) -> bool {
    let size = matrix.size();
    if size <= up.0 as u32 || size <= down.0 as u32 || units == 0 || MOST_SUM < units {
        return false;
    }
    let most = MOST_SUM - units;
    let fits = matrix.row_sum(up) <= most && matrix.column_sum(down) <= most;
    let room = 0 < matrix.get(up, down) || 0 < matrix.spare();
    if fits && room {
        matrix.add(up, down, units);
    }
    fits && room
}

/// The entry loses units, if it has them. Whether it did.
pub fn takes<M: Traffic>(matrix: &mut M, up: BeamNo, down: BeamNo, units: u32) -> bool {
    let size = matrix.size();
    if size <= up.0 as u32 || size <= down.0 as u32 || units == 0 {
        return false;
    }
    let held = units <= matrix.get(up, down);
    if held {
        matrix.take(up, down, units);
    }
    held
}

/// Appends whether an entry more may become positive.
fn put_spare(matrix: &Crosslinked, out: &mut String) -> Result<()> {
    let room = if 0 < matrix.spare() { "room" } else { "none" };
    Ok(write!(out, ">{room}\n")?)
}

/// Appends the heaviest line and its sum.
pub fn put_heaviest<M: Traffic>(matrix: &M, out: &mut String) -> Result<()> {
    match matrix.heaviest() {
        (Critical::Row(up), sum) => write!(out, ">row {} {sum}\n", up.0)?,
        (Critical::Column(down), sum) => write!(out, ">column {} {sum}\n", down.0)?,
    }
    Ok(())
}

/// Appends the positive entries of a row, column and slots, on a counter that is opened for them.
fn put_row<L: Ledger>(matrix: &Crosslinked, up: u8, blank: Blank, out: &mut String) -> Result<()>
    requires name { blank.name ≡ L.name }
    requires parts { blank.parts ≡ L.parts }
    requires some { 0 < blank.parts }
{
    if matrix.size() <= up as u32 {
        return Err(CaseFault("no such beam"));
    }
    put_entries(matrix, BeamNo(up), &mut Steps::<L>::open(blank), out)
}

fn put_entries<L: Ledger>(
    matrix: &Crosslinked,
    up: BeamNo,
    steps: &mut Steps<L>,
    out: &mut String,
) -> Result<()>
    requires { up.0 < length matrix.now.rows }
{
    let mut cursor = matrix.cursor(up);
    let mut none = true;
    while let Some((down, units)) = cursor.next(steps) {
        none = false;
        write!(out, ">{} {units}\n", down.0)?;
    }
    if none {
        out.push_str(">none\n")?;
    }
    Ok(())
}
