// The lines of a journal, whose changes are made again one after the other.
ghost use Rattle.std.specs.Prelude.{◌≡◌, ◌↔◌, ◌+◌, ◌<◌, ◌≤◌, ◌++◌, ◌∷◌, [], false, length, IfOk, IfErr, IsTrue, OnOk, OnErr};
ghost use Rattle.bt_frame.specs.declared.limits.TheConstants.{MOST_JOURNAL_BYTES};
ghost use Rattle.bt_history.specs.Causes.{IsChangeOn};
ghost use Rattle.bt_history.specs.Machine.{bytes_of, line_behind, running};
ghost use Rattle.bt_history.specs.Records.{CanJoin, IsLineFault, IsTextFault, TakesLine, TakesText};
ghost use Rattle.bt_history.specs.Recovery.{IsNext, IsNoChange, IsNumbered};
ghost use Rattle.bt_journal.specs.Mark.{mark_of};
ghost use Rattle.bt_text.specs.Text.{lines};

use crate::RecoverFault;
use crate::machine::Machine;
use bt_frame::{EditionNo, OutOfMemory};
use bt_journal::{Change, JournalLineFault, read_change_of, read_mark};
use bt_text::first_line;
use std::alloc::Global;

/// What was taken of a text: how many bytes its lines have, and whether the mark stands among them.
#[derive(Clone, Copy)]
pub(crate) struct Taken {
    pub(crate) kept: usize,
    pub(crate) marked: bool,
}

impl Machine {
    /// Makes the changes of the lines of a text again, on a machine that has made none. What stands behind the last newline is
    /// passed over.
    pub(crate) fn take_lines(&mut self, alloc: Global, text: &[u8]) -> Result<Taken, RecoverFault>
        requires state { self.old.state ≡ running [] }
        requires history { self.old.history ≡ [] }
        requires short { length text.now ≤ MOST_JOURNAL_BYTES }
        ensures net { self.new.net ≡ self.old.net }
        ensures history { self.new.history ≡ [] }
        ensures taken { IfOk result (λ taken. TakesText self.old.net text.now self.new.state taken.kept taken.marked) }
        ensures err { IfErr result (IsTextFault self.old.net text.now) }
    {
        let mut rest = text;
        let mut number = 0;
        let mut marked = false;
        while let Some((line, after)) = first_line(rest) {
            number += 1;
            marked = self.take_line(alloc, &rest[..line.len() + 1], line, number, marked)?;
            rest = after;
        }
        Ok(Taken {
            kept: text.len() - rest.len(),
            marked,
        })
    }

    /// Makes the change of the next line again, or passes the mark, and answers whether the mark stands now. The line has its
    /// newline behind its text, and is the one of that number.
    fn take_line(
        &mut self,
        alloc: Global,
        line: &[u8],
        text: &[u8],
        number: u32,
        marked: bool,
    ) -> Result<bool, RecoverFault>
        requires state { self.old.state ≡ running self.old.state.changes }
        requires history { self.old.history ≡ [] }
        requires text { lines line.now ≡ text.now ∷ [] ∷ [] }
        requires short { bytes_of self.old.net self.old.state.changes + length line.now ≤ MOST_JOURNAL_BYTES }
        ensures taken { IfOk result (λ stands. TakesLine self.old.net self.old.state marked line.now self.new.state stands) }
        ensures net { self.new.net ≡ self.old.net }
        ensures history { self.new.history ≡ [] }
        ensures fault { IfErr result (IsLineFault self.old.net self.old.state.changes marked number line.now) }
    {
        match read_change_of(alloc, self.network(), line, text) {
            Ok((edition, change)) => {
                if !self.is_next(alloc, edition, &change)? {
                    return Err(RecoverFault::J2 { line: number });
                }
                self.make_again(alloc, change, line.len() as u32)?;
                Ok(marked)
            }
            Err(JournalLineFault::Bad) => {
                self.test_mark(line, number, marked)?;
                Ok(true)
            }
            Err(JournalLineFault::OutOfMemory) => Err(RecoverFault::OutOfMemory),
        }
    }

    /// Tests whether a line that is of no change is the mark of the network, behind none.
    fn test_mark(&self, line: &[u8], number: u32, marked: bool) -> Result<(), RecoverFault>
        requires none { IsNoChange self.now.net line.now }
        ensures mark { OnOk result (line.now ≡ mark_of self.now.net) }
        ensures first { OnOk result (marked ≡ false) }
        ensures fault { IfErr result (IsLineFault self.now.net self.now.state.changes marked number line.now) }
    {
        let Some((beams, terminals)) = read_mark(line) else {
            return Err(RecoverFault::J1 { line: number });
        };
        if beams != self.network().beam_count() {
            return Err(RecoverFault::J2 { line: number });
        }
        if terminals != self.network().terminal_count() {
            return Err(RecoverFault::J2 { line: number });
        }
        if marked {
            return Err(RecoverFault::J2 { line: number });
        }
        Ok(())
    }

    /// Whether a change follows those made so far, an edit by that number too.
    fn is_next(
        &self,
        alloc: Global,
        edition: EditionNo,
        change: &Change,
    ) -> Result<bool, OutOfMemory>
        requires { IsChangeOn self.now.net change.now }
        ensures { IfOk result (λ next. IsTrue next ↔ IsNext self.now.net self.now.state.changes edition.0 change.now) }
    {
        if !self.is_numbered(edition, change) {
            return Ok(false);
        }
        Ok(self.cause_in(alloc, change)?.is_none())
    }

    /// Whether an edit makes that edition. Other changes make none.
    fn is_numbered(&self, edition: EditionNo, change: &Change) -> bool
        ensures { IsTrue result ↔ IsNumbered self.now.state.changes edition.0 change.now }
    {
        match change {
            Change::Edit(_) => edition.0 == self.kept.edits + 1,
            _ => true,
        }
    }

    /// Makes a change again, before any call. Its line has so many bytes.
    fn make_again(&mut self, alloc: Global, change: Change, line: u32) -> Result<(), OutOfMemory>
        requires on { IsChangeOn self.old.net change }
        requires can { CanJoin self.old.net self.old.state change }
        requires line { line ≡ length (line_behind self.old.net self.old.state.changes change) }
        ensures state { OnOk result (self.new.state ≡ running (self.old.state.changes ++ change ∷ [])) }
        ensures net { self.new.net ≡ self.old.net }
        ensures history { self.new.history ≡ self.old.history }
        ensures err { OnErr result (self.new ≡ self.old) }
    {
        self.kept.reserve(alloc, &change)?;
        self.kept.apply(change, line);
        Ok(())
    }
}
