// The word FIRST-LAST: superframes by their numbers.
ghost use Rattle.std.specs.Prelude.{◌≡◌, ◌<◌, ◌==◌, IfSome, length, position};
ghost use Rattle.bt_chart.specs.Range.{superframe_in, superframes_in};

use bt_run_chart::Superframes;
use bt_text::number;

/// The superframes that a word names.
pub fn superframes_in(word: &[u8]) -> Option<Superframes>
    ensures { result ≡ superframes_in word.now }
{
    let hyphen = hyphen_in(word)?;
    let first = superframe_in(&word[..hyphen])?;
    let last = superframe_in(&word[hyphen + 1..])?;
    if first <= last {
        Some(Superframes { first, last })
    } else {
        None
    }
}

// The number of a superframe that a word is.
fn superframe_in(word: &[u8]) -> Option<u64>
    ensures { result ≡ superframe_in word.now }
{
    let number = number(word)?;
    if number <= u64::from(u32::MAX) {
        Some(number)
    } else {
        None
    }
}

/// Where the first hyphen of a word stands.
pub(crate) fn hyphen_in(word: &[u8]) -> Option<usize>
    ensures at { result ≡ position (λ byte. byte == 45) word.now }
    ensures within { IfSome result (λ at. at < length word.now) }
{
    let mut at = 0;
    while at < word.len() {
        if word[at] == b'-' {
            return Some(at);
        }
        at += 1;
    }
    None
}
