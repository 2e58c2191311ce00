// The name that may have been meant.
use crate::page::Page;
use bt_frame::{BeamNo, TermNo};
use bt_net::Network;
use bt_text::is_word;
use std::alloc::Global;
use strsim::levenshtein;

/// How many letters a name may be away, at most, to be taken for the one that was meant.
const MOST_EDITS: usize = 2;

/// The most terminals or beams of a network that are named one by one.
const MOST_NAMED: u32 = 8;

/// A word that is none of those that may stand there, and the nearest one of these so far.
#[derive(Drop)]
pub struct Near<'a> {
    word: &'a str,
    nearest: Option<&'a str>,
    edits: usize,
}

impl<'a> Near<'a> {
    /// No other word was looked at yet.
    pub fn to(word: &'a [u8]) -> Near<'a> {
        let word = str::from_utf8(word).unwrap_or("");
        Near {
            word,
            nearest: None,
            // a word of one letter is near to each other one
            edits: word.len().min(MOST_EDITS.saturating_add(1)),
        }
    }

    /// Looks at a word.
    pub fn look(&mut self, alloc: Global, other: &'a str) {
        if self.word.eq_ignore_ascii_case(other) {
            self.nearest = Some(other);
            self.edits = 0;
        } else if self.word.len() <= 32
            && let Ok(edits) = levenshtein(alloc, self.word, other)
            && edits < self.edits
        {
            self.nearest = Some(other);
            self.edits = edits;
        }
    }

    /// Looks at the names of a network's terminals.
    pub fn look_at_terminals(&mut self, alloc: Global, net: &'a Network) {
        for number in 0..net.terminal_count() {
            self.look(alloc, net.name_of(TermNo(number as u8)));
        }
    }

    /// Looks at the names of a network's beams.
    pub fn look_at_beams(&mut self, alloc: Global, net: &'a Network) {
        for number in 0..net.beam_count() {
            self.look(alloc, net.beam_name(BeamNo(number as u8)));
        }
    }

    /// Whether one is near.
    pub fn is_found(&self) -> bool {
        self.nearest.is_some()
    }

    /// Asks whether the nearest one was meant, where one is near.
    pub fn ask(&self, page: &mut Page) {
        if let Some(nearest) = self.nearest {
            page.add("did you mean '");
            page.add(nearest);
            page.add("'?");
        }
    }
}

/// Asks for the terminal whose name is near to a word, or names them all where they are few.
pub fn ask_terminal(alloc: Global, net: &Network, word: &[u8], page: &mut Page) {
    let mut near = Near::to(word);
    near.look_at_terminals(alloc, net);
    near.ask(page);
    if !near.is_found() {
        name_terminals(net, page);
    }
}

/// Names the terminals of a network, where they are few.
pub fn name_terminals(net: &Network, page: &mut Page) {
    if net.terminal_count() <= MOST_NAMED {
        page.add("the terminals of the network are");
        for number in 0..net.terminal_count() {
            page.add(" ");
            page.add(net.name_of(TermNo(number as u8)));
        }
    }
}

/// Asks for the beam whose name is near to a word, or names them all where they are few.
pub fn ask_beam(alloc: Global, net: &Network, word: &[u8], page: &mut Page) {
    let mut near = Near::to(word);
    near.look_at_beams(alloc, net);
    near.ask(page);
    if !near.is_found() {
        name_beams(net, page);
    }
}

/// Names the beams of a network, where they are few.
fn name_beams(net: &Network, page: &mut Page) {
    if net.beam_count() <= MOST_NAMED {
        page.add("the beams of the network are");
        for number in 0..net.beam_count() {
            page.add(" ");
            page.add(net.beam_name(BeamNo(number as u8)));
        }
    }
}

/// Whether a beam has this name.
pub fn is_beam(net: &Network, word: &[u8]) -> bool {
    (0..net.beam_count()).any(|number| is_word(
        word,
        net.beam_name(BeamNo(number as u8)).as_bytes(),
    ))
}
