// The lines of the standby.
ghost use Rattle.std.specs.Prelude.{◌≡◌, ◌++◌, OnOk, OnErr};
ghost use Rattle.bt_timeline.specs.Air.{noticed_form, noticed_line, standby_burst_line, unnoticed_line, unsent_line};

use bt_frame::OutOfMemory;
use bt_machines::Noticed;
use bt_words::{Form, Word, print};
use std::alloc::Global;

/// Appends the line of a status that the standby heard: the number of its message, and what the standby did with it.
pub fn noticed_text(
    alloc: Global,
    number: u32,
    noticed: Noticed,
    out: &mut Vec<u8>,
) -> Result<(), OutOfMemory>
    ensures added { OnOk result (out.new.items ≡ out.old.items ++ noticed_line number noticed) }
    ensures unchanged { OnErr result (out.new.items ≡ out.old.items) }
{
    print(alloc, noticed_form(noticed), &[Word::number(number)], out)
}

/// The form of the line of a status that the standby heard.
fn noticed_form(noticed: Noticed) -> Form
    ensures { result ≡ noticed_form noticed }
{
    match noticed {
        Noticed::Noted => Form::StandbyNoted,
        Noticed::WrongMark => Form::StandbyWrongMark,
    }
}

/// Appends the line of a message that is no status, and so none for the standby.
pub fn unnoticed_text(alloc: Global, number: u32, out: &mut Vec<u8>) -> Result<(), OutOfMemory>
    ensures added { OnOk result (out.new.items ≡ out.old.items ++ unnoticed_line number) }
    ensures unchanged { OnErr result (out.new.items ≡ out.old.items) }
{
    print(alloc, Form::StandbyNotForMe, &[Word::number(number)], out)
}

/// Appends the line of a message that the standby was to hear and that was not sent.
pub fn unsent_text(alloc: Global, number: u32, out: &mut Vec<u8>) -> Result<(), OutOfMemory>
    ensures added { OnOk result (out.new.items ≡ out.old.items ++ unsent_line number) }
    ensures unchanged { OnErr result (out.new.items ≡ out.old.items) }
{
    print(alloc, Form::StandbyNotSent, &[Word::number(number)], out)
}

/// Appends the line of the standby's reference burst. That of its message is another.
pub fn standby_burst_text(alloc: Global, out: &mut Vec<u8>) -> Result<(), OutOfMemory>
    ensures added { OnOk result (out.new.items ≡ out.old.items ++ standby_burst_line) }
    ensures unchanged { OnErr result (out.new.items ≡ out.old.items) }
{
    print(alloc, Form::StandbyBurst, &[], out)
}
