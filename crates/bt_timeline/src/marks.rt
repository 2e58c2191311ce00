// The lines of a run that belong to no caller.
ghost use Rattle.std.specs.Prelude.{◌≡◌, ◌++◌, OnOk, OnErr};
ghost use Rattle.bt_timeline.specs.Timeline.{restart_line, round_line, start_line, total_line};

use bt_frame::OutOfMemory;
use bt_words::{Form, Word, print};
use std::alloc::Global;

/// Appends the line of a start: the last edition, the edition of the newest plan, and the mark of the superframe.
pub fn start_text(
    alloc: Global,
    edition: u32,
    plan: u32,
    mark: u32,
    out: &mut Vec<u8>,
) -> Result<(), OutOfMemory>
    ensures added { OnOk result (out.new.items ≡ out.old.items ++ start_line edition plan mark) }
    ensures unchanged { OnErr result (out.new.items ≡ out.old.items) }
{
    let numbers = [
        Word::number(edition),
        Word::number(plan),
        Word::number(mark),
    ];
    print(alloc, Form::Start, &numbers, out)
}

/// Appends the line that begins a round.
pub fn round_text(alloc: Global, number: u64, out: &mut Vec<u8>) -> Result<(), OutOfMemory>
    ensures added { OnOk result (out.new.items ≡ out.old.items ++ round_line number) }
    ensures unchanged { OnErr result (out.new.items ≡ out.old.items) }
{
    print(alloc, Form::Round, &[Word::Number(number)], out)
}

/// How the edits of a run were answered.
#[derive(Clone, Copy)]
pub struct Totals {
    /// Edits that were done.
    pub done: u64,
    /// Edits that were refused.
    pub refused: u64,
    /// Edits that a fault of the store kept from being done.
    pub failed: u64,
}

/// Appends the last line of a run: how many edits were done, how many were refused, and how many the store failed.
pub fn total_text(alloc: Global, totals: Totals, out: &mut Vec<u8>) -> Result<(), OutOfMemory>
    ensures added { OnOk result (out.new.items ≡ out.old.items ++ total_line totals.done totals.refused totals.failed) }
    ensures unchanged { OnErr result (out.new.items ≡ out.old.items) }
{
    let counts = [
        Word::Number(totals.done),
        Word::Number(totals.refused),
        Word::Number(totals.failed),
    ];
    print(alloc, Form::Total, &counts, out)
}

/// Appends the line of a restart. The line of the start that follows is another.
pub fn restart_text(alloc: Global, out: &mut Vec<u8>) -> Result<(), OutOfMemory>
    ensures added { OnOk result (out.new.items ≡ out.old.items ++ restart_line) }
    ensures unchanged { OnErr result (out.new.items ≡ out.old.items) }
{
    print(alloc, Form::Restart, &[], out)
}
