// A network, as the rest of the centre asks it.
ghost use Rattle.std.specs.Prelude.{◌≡◌, ◌<◌, Some, IfSome, IfNone, IfOk, IsTrue, length, position, slice_get, Contains};
ghost use Rattle.std.specs.Option.{option_map};
ghost use Rattle.bt_net.specs.Name.{is_name as is_name_of, is_terminal_name};
ghost use Rattle.std.specs.Str.{bytes_eq};
ghost use Rattle.bt_frame.specs.declared.limits.TheConstants.{MOST_BEAMS, MOST_TERMINALS, MOST_SLOTS, MOST_FRAMES, LEAST_LEAD, MOST_LEAD, MOST_PATIENCE, LEAST_JOURNAL_BYTES, MOST_BOOK_BYTES};
ghost use Rattle.bt_net.specs.Network.{IsSound, names_of};
ghost use Rattle.bt_net.specs.Terminals.{terminal_of, IsTerminal};
ghost use Rattle.bt_frame.specs.Range.{IsWithin};

use crate::beams::Beams;
use crate::is_name;
use crate::terminals::Terminals;
use bt_frame::{BeamNo, OutOfMemory, TermNo};
use std::alloc::Global;
use std::marker::Model;

/// A network: its beams, its terminals, and the limits of its frames, its changes and its journal.
///
/// Their order in the file numbers beams and terminals, from 0.
#[derive(Drop)]
pub struct Network {
    pub(crate) beams: Beams,
    pub(crate) terminals: Terminals,
    pub(crate) slots: u32,
    pub(crate) frames: u32,
    pub(crate) lead: u32,
    pub(crate) patience: u32,
    pub(crate) journal: u32,
}

impl Model for Network {
    ghost use Rattle.bt_net.specs.Network.{Net, IsSound};

    ghost Value = { Net };

    ghost view = { λ a. record { beams = a.beams; terminals = a.terminals; slots = a.slots; frames = a.frames; lead = a.lead; patience = a.patience; journal = a.journal } };

    ghost invariant = { λ a. IsSound (record { beams = a.beams; terminals = a.terminals; slots = a.slots; frames = a.frames; lead = a.lead; patience = a.patience; journal = a.journal }) };
}

impl Network {
    /// The number of beams.
    pub fn beam_count(&self) -> u32
        ensures count { result ≡ length self.now.beams }
        ensures in_range { IsWithin 1 MOST_BEAMS result }
        ensures sound { IsSound self.now }
    {
        self.beams.len() as u32
    }

    /// The number of terminals.
    pub fn terminal_count(&self) -> u32
        ensures count { result ≡ length self.now.terminals }
        ensures in_range { IsWithin 1 MOST_TERMINALS result }
        ensures sound { IsSound self.now }
    {
        self.terminals.len() as u32
    }

    /// Traffic slots of a frame.
    pub fn slots(&self) -> u32
        ensures same { result ≡ self.now.slots }
        ensures in_range { IsWithin 1 MOST_SLOTS result }
    {
        self.slots
    }

    /// Frames of a superframe.
    pub fn frames(&self) -> u32
        ensures same { result ≡ self.now.frames }
        ensures in_range { IsWithin 1 MOST_FRAMES result }
    {
        self.frames
    }

    /// Superframes from the command that arms a change to the change.
    pub fn lead(&self) -> u32
        ensures same { result ≡ self.now.lead }
        ensures in_range { IsWithin LEAST_LEAD MOST_LEAD result }
    {
        self.lead
    }

    /// Turns for which the centre waits for terminals that have not confirmed.
    pub fn patience(&self) -> u32
        ensures same { result ≡ self.now.patience }
        ensures in_range { IsWithin 1 MOST_PATIENCE result }
    {
        self.patience
    }

    /// The most bytes of changes that a journal may have.
    pub fn journal(&self) -> u32
        ensures same { result ≡ self.now.journal }
        ensures in_range { IsWithin LEAST_JOURNAL_BYTES MOST_BOOK_BYTES result }
    {
        self.journal
    }

    /// The beam of a terminal.
    pub fn beam_of(&self, terminal: TermNo) -> BeamNo
        requires terminal { IsTerminal self.now terminal }
        ensures beam { option_map (λ t. t.1) (slice_get self.now.terminals terminal.0) ≡ Some result }
        ensures in_range { result.0 < length self.now.beams }
        ensures few { result.0 < MOST_BEAMS }
    {
        self.terminals.at(terminal.0 as usize).1
    }

    /// The name of a terminal.
    pub fn name_of(&self, terminal: TermNo) -> &str
        requires terminal { IsTerminal self.now terminal }
        ensures name { option_map (λ t. t.0) (slice_get self.now.terminals terminal.0) ≡ Some result.now }
        ensures good { IsTrue (is_terminal_name result.now) }
    {
        self.terminals.at(terminal.0 as usize).0
    }

    /// The name of a beam.
    pub fn beam_name(&self, beam: BeamNo) -> &str
        requires beam { beam.0 < length self.now.beams }
        ensures name { slice_get self.now.beams beam.0 ≡ Some result.now }
        ensures good { IsTrue (is_name_of result.now) }
    {
        self.beams.name_of(beam.0 as usize)
    }

    /// The terminal that a word names.
    pub fn terminal_named(&self, word: &[u8]) -> Option<TermNo>
        ensures terminal { result ≡ terminal_of self.now word.now }
        ensures in_range { IfSome result (IsTerminal self.now) }
    {
        if let Some(number) = self.terminals.found(word) {
            return Some(TermNo(number as u8));
        }
        // No terminal has another word as its name.
        if !is_name(word) {
            return None;
        }
        self.terminal_of(word)
    }

    /// The terminal of a name, for callers that know the word's shape.
    pub fn terminal_of(&self, name: &[u8]) -> Option<TermNo>
        requires shape { IsTrue (is_name_of name.now) }
        ensures terminal { result ≡ terminal_of self.now name.now }
        ensures in_range { IfSome result (IsTerminal self.now) }
    {
        // A name is ASCII.
        let text = unsafe { str::from_utf8_unchecked(name) };
        let number = self.terminals.number_of(text)?;
        Some(TermNo(number as u8))
    }

    /// The terminal of a text.
    pub fn find(&self, name: &str) -> Option<TermNo>
        ensures number { option_map (λ t. t.0) result ≡ position (bytes_eq name.now) (names_of self.now.terminals) }
        ensures none { IfNone result (¬ (Contains (names_of self.now.terminals) name.now)) }
        ensures some { IfSome result (λ t. option_map (λ p. p.0) (slice_get self.now.terminals t.0) ≡ Some name.now) }
        ensures in_range { IfSome result (IsTerminal self.now) }
    {
        let number = self.terminals.find(name)?;
        Some(TermNo(number as u8))
    }

    /// An equal network.
    pub fn copy(&self, alloc: Global) -> Result<Network, OutOfMemory>
        ensures same { IfOk result (λ net. net ≡ self.now) }
    {
        Ok(Network {
            beams: self.beams.copy(alloc)?,
            terminals: self.terminals.copy(alloc)?,
            slots: self.slots,
            frames: self.frames,
            lead: self.lead,
            patience: self.patience,
            journal: self.journal,
        })
    }
}
