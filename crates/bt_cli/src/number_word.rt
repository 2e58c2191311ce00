// Words of a command that are numbers.
ghost use Rattle.std.specs.Prelude.{◌≡◌, option_map};
ghost use Rattle.bt_frame.specs.Range.{IsWithin};
ghost use Rattle.bt_frame.specs.declared.limits.TheConstants.{MOST_DESKS, MOST_NUMBERED_BEAMS};
ghost use Rattle.bt_trans.specs.declared.part.TheConstants.{MOST_PART_BEAMS};
ghost use Rattle.bt_cli.specs.NumberWords.{beam_count_of, desk_of, edition_of, seed_of, transponders_of};

use bt_frame::{EditionNo, LAST_EDITION, MOST_NUMBERED_BEAMS};
use bt_script::DeskNo;
use bt_text::number;
use bt_trans::MOST_PART_BEAMS;

/// The last number of 64 bits, as a word.
const LAST_SEED: &str = "18446744073709551615";

/// How many beams a network is to have.
#[derive(Clone, Copy)]
pub struct BeamCount {
    pub count: u32,
    ghost in_range: { IsWithin 1 MOST_NUMBERED_BEAMS count },
}

impl BeamCount {
    /// The number of beams that a word is; None where no network is numbered with so many, or the word is no number.
    pub fn of(word: &str) -> Option<BeamCount>
        ensures count { option_map (λ beams. beams.count) result ≡ beam_count_of word.now }
    {
        match number(word.as_bytes()) {
            Some(count @ 1..=16) => Some(BeamCount {
                count: count as u32,
            }),
            _ => None,
        }
    }
}

/// How many transponders a satellite has, and so how many connections it makes at once.
#[derive(Clone, Copy)]
pub struct Transponders {
    pub count: u32,
    ghost in_range: { IsWithin 1 MOST_PART_BEAMS count },
}

impl Transponders {
    /// The number of transponders that a word is; None where no schedule is made for so many, or the word is no number.
    pub fn of(word: &str) -> Option<Transponders>
        ensures count { option_map (λ transponders. transponders.count) result ≡ transponders_of word.now }
    {
        match number(word.as_bytes()) {
            Some(count @ 1..=16) => Some(Transponders {
                count: count as u32,
            }),
            _ => None,
        }
    }
}

/// Which desk asks.
#[derive(Clone, Copy)]
pub struct AskingDesk {
    pub number: u32,
    ghost in_range: { IsWithin 1 MOST_DESKS number },
}

impl AskingDesk {
    /// The desk of a command that names none.
    pub fn first() -> AskingDesk
        ensures number { result.number ≡ 1 }
    {
        AskingDesk { number: 1 }
    }

    /// The desk that a word is; None where there is no such desk, or the word is no number.
    pub fn of(word: &str) -> Option<AskingDesk>
        ensures desk { option_map (λ desk. desk.number) result ≡ desk_of word.now }
    {
        match number(word.as_bytes()) {
            Some(number @ 1..=16) => Some(AskingDesk {
                number: number as u32,
            }),
            _ => None,
        }
    }

    /// It, as a line of a script names it.
    pub fn as_desk_no(self) -> DeskNo
        ensures number { result ≡ self.number }
    {
        match DeskNo::new(u64::from(self.number)) {
            Some(desk) => desk,
            None => unreachable!(),
        }
    }
}

/// The number of 64 bits that a word is; None where it is a larger one, or no number.
pub fn seed_of(word: &str) -> Option<u64>
    ensures seed { result ≡ seed_of word.now }
{
    let seed = number(word.as_bytes())?;
    // The last number stands for every larger one too.
    if seed < u64::MAX || word == LAST_SEED {
        Some(seed)
    } else {
        None
    }
}

/// The edition that a word is, from this one to the last; None where it is another number, or no number.
pub fn edition_of(least: u32, word: &str) -> Option<EditionNo>
    ensures edition { result ≡ edition_of least word.now }
{
    let edition = number(word.as_bytes())?;
    if u64::from(least) <= edition && edition <= u64::from(LAST_EDITION) {
        Some(EditionNo(edition as u32))
    } else {
        None
    }
}
