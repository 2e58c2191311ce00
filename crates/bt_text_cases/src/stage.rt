// The lines of texts and of planning: each goes to the file of what it shows. `docs/cases.md` says what they mean.
use crate::delays::show_sends;
use crate::demand::{put_gain, put_loss, put_units};
use crate::linked::{linked_of, put_linked};
use crate::marks::show_mark;
use crate::planning::show_steps;
use crate::texts::show_text;
use crate::twins::put_twins;
use bt_demand::Demand;
use bt_matrix::Crosslinked;
use bt_sheet::{CaseFault, Result, Shelf, number_of};
use std::alloc::Global;

/// What the lines act on.
#[derive(Drop)]
pub struct Texts {
    demand: Demand,
    linked: Option<Crosslinked>,
}

impl Texts {
    /// An empty demand, and no matrix of linked nodes.
    pub fn new(alloc: Global) -> Texts {
        Texts {
            demand: Demand::empty(alloc),
            linked: None,
        }
    }

    /// Does what the words of a line say, and appends what is answered; false where the words are another line. Files
    /// stand on the shelf.
    pub fn show(
        &mut self,
        alloc: Global,
        shelf: &Shelf,
        words: &[&str],
        out: &mut String,
    ) -> Result<bool> {
        if show_text(alloc, shelf, words, out)? {
            return Ok(true);
        }
        if show_sends(alloc, shelf, words, out)? {
            return Ok(true);
        }
        if show_mark(alloc, shelf, words, out)? {
            return Ok(true);
        }
        self.show_planning(alloc, shelf, words, out)
    }

    /// Shows steps of planning, and a demand.
    fn show_planning(
        &mut self,
        alloc: Global,
        shelf: &Shelf,
        words: &[&str],
        out: &mut String,
    ) -> Result<bool> {
        let shown = match *words {
            ["gain", from, to, units] => put_gain(alloc, &mut self.demand, from, to, units, out),
            ["lose", from, to, units] => put_loss(alloc, &mut self.demand, from, to, units, out),
            ["units", from, to] => put_units(&self.demand, from, to, out),
            ["linked", ref words @ ..] => self.show_linked(alloc, words, out),
            _ => return show_steps(alloc, shelf, words, out),
        };
        shown?;
        Ok(true)
    }

    /// Shows a matrix of linked nodes, or the same calls on two.
    fn show_linked(&mut self, alloc: Global, words: &[&str], out: &mut String) -> Result<()> {
        if let ["calls", beams, calls, number] = *words {
            return put_twins(
                alloc,
                number_of(beams)?,
                number_of(calls)?,
                number_of(number)?,
                out,
            );
        }
        if let [beams] = *words
            && beams != "spare"
        {
            self.linked = Some(linked_of(alloc, number_of(beams)?)?);
            return Ok(());
        }
        match &mut self.linked {
            Some(matrix) => put_linked(alloc, matrix, words, out),
            None => Err(CaseFault("no linked matrix")),
        }
    }
}
