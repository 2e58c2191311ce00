// The same calls on two matrices that are kept in different ways.
use crate::linked::{adds, linked_of, put_heaviest, takes};
use bt_frame::{BeamNo, Critical, MOST_BEAMS};
use bt_matrix::{Crosslinked, Dense, Traffic};
use bt_sheet::{CaseFault, Result};
use std::alloc::Global;

/// Numbers that follow from the first one.
#[derive(Drop)]
struct Draws(u64);

impl Draws {
    /// The next number, of 31 bits.
    fn draw(&mut self) -> u32 {
        self.0 = self
            .0
            .wrapping_mul(6364136223846793005)
            .wrapping_add(1442695040888963407);
        (self.0 >> 33) as u32
    }

    /// A connection between so many beams, the slots that it gains or loses, and what it does: 0 and 1 gain them, 2 loses
    /// at most as many, and 3 loses all.
    fn call(&mut self, beams: u32) -> Call {
        let beams = beams.min(MOST_BEAMS as u32).max(1);
        Call {
            up: BeamNo((self.draw() % beams) as u8),
            down: BeamNo((self.draw() % beams) as u8),
            units: 1 + self.draw() % 64,
            kind: self.draw() % 4,
        }
    }
}

/// A change of an entry.
#[derive(Drop)]
struct Call {
    up: BeamNo,
    down: BeamNo,
    units: u32,
    kind: u32,
}

/// Makes so many calls on a matrix kept in whole and on one of linked nodes, and appends the entries and the slots of the
/// one and the heaviest line of the other. After each call both have the same sums and the same heaviest line, and room
/// that was taken was there; at the end they have the same entries.
pub fn put_twins(
    alloc: Global,
    beams: u32,
    calls: u32,
    number: u32,
    out: &mut String,
) -> Result<()> {
    let mut linked = linked_of(alloc, beams)?;
    let mut dense = dense_of(alloc, &linked)?;
    let mut draws = Draws(number as u64);
    for _ in 0..calls {
        let call = draws.call(beams);
        let first = make_call(alloc, &mut dense, &call)?;
        let second = make_call(alloc, &mut linked, &call)?;
        if first != second || !are_alike(&dense, &linked, &call) {
            return Err(CaseFault("the matrices differ"));
        }
    }
    let (entries, slots) = compare(&dense, &linked)?;
    write!(out, ">entries {entries} slots {slots}\n")?;
    put_heaviest(&linked, out)
}

/// A matrix kept in whole of as many beams.
fn dense_of(alloc: Global, linked: &Crosslinked) -> Result<Dense> {
    match Dense::new(alloc, linked.size()) {
        Ok(matrix) => Ok(matrix),
        Err(_full) => Err(CaseFault("out of memory")),
    }
}

/// Makes one call, and takes the room for it before. Whether it changed an entry.
fn make_call<M: Traffic>(alloc: Global, matrix: &mut M, call: &Call) -> Result<bool> {
    let size = matrix.size();
    if size <= call.up.0 as u32 || size <= call.down.0 as u32 {
        return Err(CaseFault("no such beam"));
    }
    let held = matrix.get(call.up, call.down);
    match call.kind {
        0 | 1 => gain(alloc, matrix, call),
        2 => Ok(takes(matrix, call.up, call.down, call.units.min(held))),
        _ => Ok(takes(matrix, call.up, call.down, held)),
    }
}

/// Takes room for an entry, and raises it.
fn gain<M: Traffic>(alloc: Global, matrix: &mut M, call: &Call) -> Result<bool> {
    if matrix.reserve(alloc, 1).is_err() {
        return Err(CaseFault("out of memory"));
    }
    let room = matrix.spare();
    let gained = adds(matrix, call.up, call.down, call.units);
    if room == 0 || matrix.spare() < room - 1 {
        return Err(CaseFault("the room lies"));
    }
    Ok(gained)
}

/// The lines of the call, and the heaviest line, are the same in both.
fn are_alike<M: Traffic, N: Traffic>(first: &M, second: &N, call: &Call) -> bool {
    let (up, down) = (call.up, call.down);
    let size = first.size().min(second.size());
    if size <= up.0 as u32 || size <= down.0 as u32 {
        return false;
    }
    first.get(up, down) == second.get(up, down)
        && first.row_sum(up) == second.row_sum(up)
        && first.column_sum(down) == second.column_sum(down)
        && heaviest_of(first) == heaviest_of(second)
}

/// The heaviest line: whether it is a row, its beam, and its sum.
fn heaviest_of<M: Traffic>(matrix: &M) -> (bool, u8, u32) {
    match matrix.heaviest() {
        (Critical::Row(up), sum) => (true, up.0, sum),
        (Critical::Column(down), sum) => (false, down.0, sum),
    }
}

/// How many entries of both are positive, and the slots of all; a fault where they differ.
fn compare<M: Traffic, N: Traffic>(first: &M, second: &N) -> Result<(u32, u32)> {
    let size = first.size();
    if size != second.size() {
        return Err(CaseFault("the matrices differ"));
    }
    let (mut entries, mut slots) = (0u32, 0u32);
    for up in 0..size as u8 {
        for down in 0..size as u8 {
            let units = first.get(BeamNo(up), BeamNo(down));
            if units != second.get(BeamNo(up), BeamNo(down)) {
                return Err(CaseFault("the matrices differ"));
            }
            entries = entries.saturating_add((0 < units) as u32);
            slots = slots.saturating_add(units);
        }
    }
    Ok((entries, slots))
}
