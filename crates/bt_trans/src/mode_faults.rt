// What is wrong with the modes alone? Is each a switching with few connections, does each last, and how many slots have they
// together?
ghost use Rattle.std.specs.Prelude.{◌≡◌, ◌⊎◌, ◌<◌, ◌≤◌, ◌↔◌, IsTrue, MatchOption, All, AllPairs};
ghost use Rattle.bt_demand.specs.Verdict.{IsFirstWithout};
ghost use Rattle.bt_trans.specs.Part.{connections, part_duration, IsPartSwitching};

use crate::{PartModes, SILENT};
use bt_frame::MOST_BEAMS;

/// Are these beams below the size, none of them twice, but for those that are silent?
fn are_own_downlinks(columns: &[u8], size: u32) -> bool
    requires { size ≤ MOST_BEAMS }
    ensures { IsTrue result ↔ (All (λ down. (down ≡ SILENT) ⊎ (down < size)) columns.now
        × AllPairs (λ a b. a ≡ b → a ≡ SILENT) columns.now) }
{
    let mut seen = [false; MOST_BEAMS];
    for &down in columns {
        if down != SILENT {
            if u32::from(down) >= size || seen[down as usize] {
                return false;
            }
            seen[down as usize] = true;
        }
    }
    true
}

/// Has each of so many beams a downlink of its own, or is silent?
fn is_switching(columns: &[u8], size: u32) -> bool
    requires { size ≤ MOST_BEAMS }
    ensures { IsTrue result ↔ IsPartSwitching size columns.now }
{
    columns.len() == size as usize && are_own_downlinks(columns, size)
}

/// How many uplink beams are not silent.
fn connection_count(columns: &[u8]) -> usize
    ensures { result ≡ connections columns.now }
{
    columns.iter().filter(|down| **down != SILENT).count()
}

/// The first mode that is no switching of so many beams.
pub(crate) fn first_bad(modes: &PartModes, size: u32) -> Option<u32>
    requires { size ≤ MOST_BEAMS }
    ensures { MatchOption result
        (All (λ m. IsPartSwitching size m.perm) modes.now)
        (IsFirstWithout (λ m. IsPartSwitching size m.perm) modes.now) }
{
    for (place, mode) in modes.as_slice().iter().enumerate() {
        if !is_switching(mode.perm.as_slice(), size) {
            return Some(place as u32);
        }
    }
    None
}

/// The first mode with more than `k` connections.
pub(crate) fn first_crowded(modes: &PartModes, k: u32) -> Option<u32>
    ensures { MatchOption result
        (All (λ m. connections m.perm ≤ k) modes.now)
        (IsFirstWithout (λ m. connections m.perm ≤ k) modes.now) }
{
    for (place, mode) in modes.as_slice().iter().enumerate() {
        if connection_count(mode.perm.as_slice()) > k as usize {
            return Some(place as u32);
        }
    }
    None
}

/// The first mode that is held for no slot.
pub(crate) fn first_empty(modes: &PartModes) -> Option<u32>
    ensures { MatchOption result
        (All (λ m. 0 < m.duration) modes.now)
        (IsFirstWithout (λ m. 0 < m.duration) modes.now) }
{
    for (place, mode) in modes.as_slice().iter().enumerate() {
        if mode.duration == 0 {
            return Some(place as u32);
        }
    }
    None
}

/// The slots of all modes together.
pub(crate) fn duration_sum(modes: &PartModes) -> u64
    ensures { result ≡ part_duration modes.now }
{
    let mut sum = 0;
    for mode in modes.as_slice() {
        sum += u64::from(mode.duration);
    }
    sum
}
