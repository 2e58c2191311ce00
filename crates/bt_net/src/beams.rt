// The names of the beams, each of them once, numbered in the order in which they were added.
ghost use Rattle.std.specs.Prelude.{◌≡◌, ◌<◌, [], ◌∷◌, ◌++◌, false, Some, length, position, slice_get, IfOk, OnOk, AllPairs, ◌≢◌};
ghost use Rattle.std.specs.List.{list_any};
ghost use Rattle.std.specs.Str.{bytes_eq};

use indexmap::IndexSet;
use std::alloc::{AllocError, Global};
use std::marker::Model;

#[derive(Drop)]
pub(crate) struct Beams {
    names: IndexSet<String>,
}

impl Model for Beams {
    ghost use Rattle.std.specs.Prelude.{ℕ, List, map, string_bytes};

    ghost Value = { List (List ℕ) };

    ghost view = { λ a. map string_bytes a.names.keys };
}

impl Beams {
    pub(crate) fn new(alloc: Global) -> Beams
        ensures { result ≡ [] }
    {
        Beams {
            names: IndexSet::new(alloc),
        }
    }

    pub(crate) fn len(&self) -> usize
        ensures { result ≡ length self.now }
    {
        self.names.len()
    }

    /// Whether a beam has this name.
    pub(crate) fn has(&self, name: &str) -> bool
        ensures { result ≡ list_any (bytes_eq name.now) self.now }
    {
        self.names.contains(name)
    }

    /// The number of the beam of this name.
    pub(crate) fn find(&self, name: &str) -> Option<usize>
        ensures { result ≡ position (bytes_eq name.now) self.now }
    {
        self.names.get_index_of(name)
    }

    pub(crate) fn name_of(&self, number: usize) -> &str
        requires { number < length self.now }
        ensures { slice_get self.now number ≡ Some result.now }
    {
        self.names[number].as_str()
    }

    pub(crate) fn add(&mut self, alloc: Global, name: &str) -> Result<(), AllocError>
        requires { list_any (bytes_eq name.now) self.old ≡ false }
        ensures { OnOk result (self.new ≡ self.old ++ name.now ∷ []) }
    {
        self.names.insert(String::from_str(alloc, name)?)?;
        Ok(())
    }

    pub(crate) fn copy(&self, alloc: Global) -> Result<Beams, AllocError>
        requires { AllPairs (λ a b. a ≢ b) self.now }
        ensures { IfOk result (λ beams. beams ≡ self.now) }
    {
        let mut copy = Beams::new(alloc);
        for number in 0..self.len() {
            copy.add(alloc, self.name_of(number))?;
        }
        Ok(copy)
    }
}
