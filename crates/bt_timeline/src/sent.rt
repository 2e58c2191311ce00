// The line of a message that was sent.
ghost use Rattle.std.specs.Prelude.{◌≡◌, ◌++◌, OnOk, OnErr};
ghost use Rattle.bt_timeline.specs.Air.{NamesTerminal, reference_line, sent_line, status_line};

use bt_air::{Sent, Status};
use bt_frame::{EditionNo, Mark, OutOfMemory};
use bt_net::Network;
use bt_words::{Form, Word, print};
use std::alloc::Global;

/// Appends the line of the message of that number: what it says, without its modes and bursts.
pub fn sent_text(
    alloc: Global,
    net: &Network,
    number: u32,
    sent: &Sent,
    out: &mut Vec<u8>,
) -> Result<(), OutOfMemory>
    requires terminal { NamesTerminal net.now sent.now }
    ensures added { OnOk result (out.new.items ≡ out.old.items ++ sent_line net.now number sent.now) }
    ensures unchanged { OnErr result (out.new.items ≡ out.old.items) }
{
    match *sent {
        Sent::Load { command, edition } => {
            let words = [
                Word::number(number),
                Word::number(command.0),
                Word::number(edition.0),
            ];
            print(alloc, Form::SentLoad, &words, out)
        }
        Sent::Arm {
            command,
            edition,
            due,
        } => {
            let words = [
                Word::number(number),
                Word::number(command.0),
                Word::number(edition.0),
                Word::number(due.0),
            ];
            print(alloc, Form::SentArm, &words, out)
        }
        Sent::Status(status) => status_text(alloc, number, status, out),
        Sent::PlanFor { to, edition } => {
            let words = [
                Word::number(number),
                Word::number(edition.0),
                Word::Text(net.name_of(to)),
            ];
            print(alloc, Form::SentPlan, &words, out)
        }
        Sent::Confirm { from, edition } => {
            let words = [
                Word::number(number),
                Word::number(edition.0),
                Word::Text(net.name_of(from)),
            ];
            print(alloc, Form::SentConfirm, &words, out)
        }
        Sent::Reference {
            superframe,
            in_force,
        } => reference_text(alloc, number, superframe, in_force, out),
        Sent::Lost { from } => {
            let words = [Word::number(number), Word::Text(net.name_of(from))];
            print(alloc, Form::SentLost, &words, out)
        }
    }
}

/// Appends the line of a status, with the number of its message.
fn status_text(
    alloc: Global,
    number: u32,
    status: Status,
    out: &mut Vec<u8>,
) -> Result<(), OutOfMemory>
    ensures added { OnOk result (out.new.items ≡ out.old.items ++ status_line number status status.armed) }
    ensures unchanged { OnErr result (out.new.items ≡ out.old.items) }
{
    let number = Word::number(number);
    let mark = Word::number(status.mark.0);
    let (fore, back) = (Word::number(status.fore.0), Word::number(status.back.0));
    let last = Word::number(status.last.0);
    match status.armed {
        Some(change) => {
            let (edition, due) = (Word::number(change.edition.0), Word::number(change.due.0));
            let words = [number, mark, fore, back, edition, due, last];
            print(alloc, Form::SentArmedStatus, &words, out)
        }
        None => {
            let words = [number, mark, fore, back, last];
            print(alloc, Form::SentStatus, &words, out)
        }
    }
}

/// Appends the line of a reference burst, with the number of its message.
fn reference_text(
    alloc: Global,
    number: u32,
    superframe: Mark,
    in_force: Option<EditionNo>,
    out: &mut Vec<u8>,
) -> Result<(), OutOfMemory>
    ensures added { OnOk result (out.new.items ≡ out.old.items ++ reference_line number superframe in_force) }
    ensures unchanged { OnErr result (out.new.items ≡ out.old.items) }
{
    let (number, superframe) = (Word::number(number), Word::number(superframe.0));
    match in_force {
        Some(edition) => {
            let words = [number, superframe, Word::number(edition.0)];
            print(alloc, Form::SentReference, &words, out)
        }
        None => print(alloc, Form::SentNoReference, &[number, superframe], out),
    }
}
