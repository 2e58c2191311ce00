// The lines of the bus as they are said.
ghost use Rattle.std.specs.Prelude.{◌≡◌, ◌++◌, OnOk};
ghost use Rattle.bt_air.specs.Range.{IsInRange};
ghost use Rattle.bt_script.specs.BusSaid.{mark_line, radio_line};

use bt_air::{Message, encode};
use bt_frame::{Mark, OutOfMemory};
use bt_words::{Word, add_line};
use std::alloc::Global;

/// Appends that a superframe begins.
pub fn add_mark(alloc: Global, mark: Mark, out: &mut Vec<u8>) -> Result<(), OutOfMemory>
    ensures added { OnOk result (out.new.items ≡ out.old.items ++ mark_line mark) }
{
    let words = [Word::Text("mark"), Word::number(mark.0)];
    add_line(alloc, &words, out)
}

/// Appends the line of a message that is said in a superframe.
pub fn add_radio(
    alloc: Global,
    stamp: Mark,
    message: &Message,
    out: &mut Vec<u8>,
) -> Result<(), OutOfMemory>
    requires in_range { IsInRange message.now }
    ensures added { OnOk result (out.new.items ≡ out.old.items ++ radio_line stamp message.now) }
{
    let digits = hex::encode(alloc, encode(alloc, message)?)?;
    let words = [
        Word::Text("radio"),
        Word::number(stamp.0),
        Word::Text(digits.as_str()),
    ];
    add_line(alloc, &words, out)
}
