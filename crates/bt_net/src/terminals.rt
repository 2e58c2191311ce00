// The terminals and the beam of each, numbered in the order in which they were added; no two have one name.
ghost use Rattle.std.specs.Prelude.{◌≡◌, ◌<◌, [], ◌∷◌, ◌++◌, false, Some, length, position, slice_get, IfOk, IfSome, OnOk, AllPairs, ◌≢◌};
ghost use Rattle.std.specs.List.{list_any};
ghost use Rattle.std.specs.Option.{option_map};
ghost use Rattle.std.specs.Str.{bytes_eq};
ghost use Rattle.bt_net.specs.Network.{names_of};

use bt_frame::BeamNo;
use indexmap::IndexMap;
use std::alloc::{AllocError, Global};
use std::marker::Model;

/// A place for the endings of names.
const ENDINGS: usize = 256;

/// The place of a name by its last two bytes. Any place would do, as long as few names of a network share one.
fn ending_of(name: &[u8]) -> u8 {
    match name {
        [.., before, last] => before.wrapping_mul(10).wrapping_add(*last),
        _ => 0,
    }
}

#[derive(Drop)]
pub(crate) struct Terminals {
    beams: IndexMap<String, BeamNo>,
    /// The number of the last terminal whose name has an ending, by that ending. It only says where to look first.
    by_ending: [u8; ENDINGS],
}

impl Model for Terminals {
    ghost use Rattle.std.specs.Prelude.{ℕ, List, map, string_bytes};
    ghost use Rattle.bt_frame.specs.declared.numbers.BeamNo.{BeamNo};

    ghost Value = { List (List ℕ × BeamNo) };

    ghost view = { λ a. map (λ entry. (string_bytes entry.0, entry.1)) a.beams.entries };
}

impl Terminals {
    pub(crate) fn new(alloc: Global) -> Terminals
        ensures { result ≡ [] }
    {
        Terminals {
            beams: IndexMap::new(alloc),
            by_ending: [0; ENDINGS],
        }
    }

    pub(crate) fn len(&self) -> usize
        ensures { result ≡ length self.now }
    {
        self.beams.len()
    }

    /// Whether a terminal has this name.
    pub(crate) fn has(&self, name: &str) -> bool
        ensures { result ≡ list_any (bytes_eq name.now) (names_of self.now) }
    {
        self.beams.contains_key(name)
    }

    /// The number of the terminal of this name.
    pub(crate) fn find(&self, name: &str) -> Option<usize>
        ensures { result ≡ position (bytes_eq name.now) (names_of self.now) }
    {
        self.beams.get_index_of(name)
    }

    /// The same, where no two terminals have one name. It is looked for first where its ending says.
    pub(crate) fn number_of(&self, name: &str) -> Option<usize>
        requires { AllPairs (λ a b. a ≢ b) (names_of self.now) }
        ensures { result ≡ position (bytes_eq name.now) (names_of self.now) }
    {
        match self.found(name.as_bytes()) {
            Some(number) => Some(number),
            None => self.find(name),
        }
    }

    /// The number of the terminal whose name a word is, where its ending says it.
    #[inline(always)]
    pub(crate) fn found(&self, word: &[u8]) -> Option<usize>
        requires { AllPairs (λ a b. a ≢ b) (names_of self.now) }
        ensures { IfSome result (λ number. position (bytes_eq word.now) (names_of self.now) ≡ Some number) }
    {
        match self.with_ending(word) {
            Some(number) => Some(number),
            None => None,
        }
    }

    /// The number of the last terminal whose name ends so, if this word is its name.
    #[inline(always)]
    fn with_ending(&self, word: &[u8]) -> Option<usize>
        ensures { IfSome result (λ number. option_map (λ t. t.0) (slice_get self.now number) ≡ Some word.now) }
    {
        let number = self.by_ending[ending_of(word) as usize] as usize;
        if number < self.len() && self.at(number).0.as_bytes() == word {
            Some(number)
        } else {
            None
        }
    }

    /// The name and the beam of a terminal.
    pub(crate) fn at(&self, number: usize) -> (&str, BeamNo)
        requires { number < length self.now }
        ensures { slice_get self.now number ≡ Some (result.0.now, result.1) }
    {
        let (name, beam) = self.beams.get_index(number).unwrap();
        (name.as_str(), *beam)
    }

    pub(crate) fn add(&mut self, alloc: Global, name: &str, beam: BeamNo) -> Result<(), AllocError>
        requires { list_any (bytes_eq name.now) (names_of self.old) ≡ false }
        ensures { OnOk result (self.new ≡ self.old ++ (name.now, beam) ∷ []) }
    {
        let number = self.len().min(ENDINGS - 1) as u8;
        self.beams.insert(String::from_str(alloc, name)?, beam)?;
        self.by_ending[ending_of(name.as_bytes()) as usize] = number;
        Ok(())
    }

    pub(crate) fn copy(&self, alloc: Global) -> Result<Terminals, AllocError>
        requires { AllPairs (λ a b. a ≢ b) (names_of self.now) }
        ensures { IfOk result (λ terminals. terminals ≡ self.now) }
    {
        let mut copy = Terminals::new(alloc);
        for number in 0..self.len() {
            let (name, beam) = self.at(number);
            copy.add(alloc, name, beam)?;
        }
        Ok(copy)
    }
}
