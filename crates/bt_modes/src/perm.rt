// Permutations of the beams.
ghost use Rattle.std.specs.Prelude.{◌≡◌, ◌≢◌, ℕ, ◌<◌, ◌≤◌, length, map, Some, slice_index};
ghost use Rattle.std.specs.List.{swap};
ghost use Rattle.bt_matrix.specs.Good.{IsPermutation};
ghost use Rattle.bt_modes.specs.Matching.{IsPartial, IsWhole};

use bt_frame::MOST_BEAMS;
use std::marker::Model;

/// A permutation of 1 to `MOST_BEAMS` beams: place `i` has the downlink beam of uplink beam `i`.
#[derive(Drop)]
pub struct Perm {
    columns: [u8; MOST_BEAMS],
    size: usize,
}

impl Model for Perm {
    ghost use Rattle.std.specs.Prelude.{ℕ, List, take, ◌≤◌};
    ghost use Rattle.bt_matrix.specs.Good.{IsPermutation};
    ghost use Rattle.bt_frame.specs.declared.limits.TheConstants.{MOST_BEAMS};

    ghost Value = { List ℕ };

    ghost view = { λ a. take a.size a.columns };

    ghost invariant = { λ a. (1 ≤ a.size) × (a.size ≤ MOST_BEAMS) × IsPermutation a.size (take a.size a.columns) };
}

impl Perm {
    /// The downlink beams in the order of the uplink beams.
    pub fn as_slice(&self) -> &[u8]
        ensures same { result.now ≡ self.now }
        ensures some { 1 ≤ length self.now }
        ensures few { length self.now ≤ MOST_BEAMS }
        ensures permutation { IsPermutation (length self.now) self.now }
    {
        &self.columns[..self.size]
    }

    /// Each of 1 to `MOST_BEAMS` uplink beams has the downlink beam of its own number.
    pub fn identity(size: u32) -> Perm
        requires some { 1 ≤ size }
        requires few { size ≤ MOST_BEAMS }
        ensures size { length result ≡ size }
        ensures own { (up : ℕ) → up < size → slice_index result up ≡ up }
    {
        let mut columns = [0; MOST_BEAMS];
        for up in 0..size as u8 {
            columns[up as usize] = up;
        }
        Perm {
            columns,
            size: size as usize,
        }
    }

    /// The number of beams.
    pub fn size(&self) -> usize
        ensures size { result ≡ length self.now }
        ensures some { 1 ≤ result }
        ensures few { result ≤ MOST_BEAMS }
    {
        self.size
    }

    /// The downlink beam of an uplink beam.
    pub fn at(&self, up: usize) -> usize
        requires up { up < length self.now }
        ensures same { result ≡ slice_index self.now up }
        ensures below { result < length self.now }
        ensures few { length self.now ≤ MOST_BEAMS }
    {
        self.columns[up] as usize
    }

    /// Two uplink beams take the downlink beams of each other.
    pub fn exchange(&mut self, one: usize, other: usize)
        requires one { one < length self.old }
        requires other { other < length self.old }
        ensures exchanged { self.new ≡ swap self.old one other }
        ensures size { length self.new ≡ length self.old }
        ensures one { slice_index self.new one ≡ slice_index self.old other }
        ensures other { slice_index self.new other ≡ slice_index self.old one }
        ensures others { (up : ℕ) → up ≢ one → up ≢ other → slice_index self.new up ≡ slice_index self.old up }
    {
        let down = self.columns[one];
        self.columns[one] = self.columns[other];
        self.columns[other] = down;
    }

    /// The permutation in which each row has the column that it has here.
    pub(crate) fn of(columns: &[Option<u8>]) -> Perm
        requires partial { IsPartial columns.now }
        requires whole { IsWhole columns.now }
        ensures { map Some result ≡ columns.now }
    {
        let mut perm = [0; MOST_BEAMS];
        write_columns(columns, &mut perm[..columns.len()]);
        Perm {
            columns: perm,
            size: columns.len(),
        }
    }
}

/// Writes the column of each row.
fn write_columns(columns: &[Option<u8>], perm: &mut [u8])
    requires size { length perm.old ≡ length columns.now }
    requires whole { IsWhole columns.now }
    ensures { map Some perm.new ≡ columns.now }
{
    for (row, column) in columns.iter().enumerate() {
        perm[row] = column.unwrap();
    }
}
