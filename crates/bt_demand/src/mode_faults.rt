// What is wrong with the modes alone? Is each a permutation, does each last, and how many slots have they together?
ghost use Rattle.std.specs.Prelude.{◌≡◌, ◌≢◌, ◌<◌, ◌≤◌, ◌↔◌, IsTrue, MatchOption, All, AllPairs};
ghost use Rattle.bt_matrix.specs.Good.{IsPermutation, total_duration};
ghost use Rattle.bt_demand.specs.Verdict.{IsFirstWithout};

use bt_frame::{MOST_BEAMS, Modes};

/// Are these beams below the size, none of them twice?
fn are_distinct_beams(columns: &[u8], size: u32) -> bool
    requires { size ≤ MOST_BEAMS }
    ensures { IsTrue result ↔ (All (λ down. down < size) columns.now × AllPairs (λ a b. a ≢ b) columns.now) }
{
    let mut seen = [false; MOST_BEAMS];
    for &down in columns {
        if u32::from(down) >= size || seen[down as usize] {
            return false;
        }
        seen[down as usize] = true;
    }
    true
}

/// Does each of so many beams occur once?
fn is_permutation(columns: &[u8], size: u32) -> bool
    requires { size ≤ MOST_BEAMS }
    ensures { IsTrue result ↔ IsPermutation size columns.now }
{
    columns.len() == size as usize && are_distinct_beams(columns, size)
}

/// The first mode that is no permutation of so many beams.
pub(crate) fn first_bad(modes: &Modes, size: u32) -> Option<u32>
    requires { size ≤ MOST_BEAMS }
    ensures { MatchOption result
        (All (λ m. IsPermutation size m.perm) modes.now)
        (IsFirstWithout (λ m. IsPermutation size m.perm) modes.now) }
{
    for (place, mode) in modes.as_slice().iter().enumerate() {
        if !is_permutation(mode.perm.as_slice(), size) {
            return Some(place as u32);
        }
    }
    None
}

/// The first mode that is held for no slot.
pub(crate) fn first_empty(modes: &Modes) -> Option<u32>
    ensures { MatchOption result
        (All (λ m. 0 < m.duration) modes.now)
        (IsFirstWithout (λ m. 0 < m.duration) modes.now) }
{
    for (place, mode) in modes.as_slice().iter().enumerate() {
        if mode.duration == 0 {
            return Some(place as u32);
        }
    }
    None
}

/// The slots of all modes together.
pub(crate) fn duration_sum(modes: &Modes) -> u64
    ensures { result ≡ total_duration modes.now }
{
    let mut sum = 0;
    for mode in modes.as_slice() {
        sum += u64::from(mode.duration);
    }
    sum
}
