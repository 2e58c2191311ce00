// The lines of how the centre sees the air.
ghost use Rattle.std.specs.Prelude.{◌≡◌, ◌++◌, OnOk, OnErr};
ghost use Rattle.bt_net.specs.Terminals.{IsTerminal};
ghost use Rattle.bt_air.specs.Orders.{command_of};
ghost use Rattle.bt_timeline.specs.OnAir.{age_in, aged_line, asks_line, is_confirmed, kept_line, last_arm_form, last_line, last_load_form, last_order_line, missing_line, superframe_line};

use bt_air::{Order, Status};
use bt_frame::{Command, Mark, OutOfMemory, TermNo};
use bt_net::Network;
use bt_words::{Form, Word, print};
use std::alloc::Global;

/// Appends the line of the superframe that the centre takes for the present one, or that it has heard of none since its start.
pub fn superframe_text(
    alloc: Global,
    present: Option<Mark>,
    out: &mut Vec<u8>,
) -> Result<(), OutOfMemory>
    ensures added { OnOk result (out.new.items ≡ out.old.items ++ superframe_line present) }
    ensures unchanged { OnErr result (out.new.items ≡ out.old.items) }
{
    match present {
        Some(mark) => print(alloc, Form::Superframe, &[Word::number(mark.0)], out),
        None => print(alloc, Form::NoSuperframe, &[], out),
    }
}

/// Appends the line of the status that the centre keeps, in the superframe that it takes for the present one.
pub fn kept_text(
    alloc: Global,
    present: Mark,
    kept: Option<Status>,
    out: &mut Vec<u8>,
) -> Result<(), OutOfMemory>
    ensures added { OnOk result (out.new.items ≡ out.old.items ++ kept_line present kept) }
    ensures unchanged { OnErr result (out.new.items ≡ out.old.items) }
{
    match kept {
        Some(status) => aged_text(alloc, age_in(present, &status), status, out),
        None => print(alloc, Form::NoStatus, &[], out),
    }
}

/// The age of a status in a superframe.
fn age_in(present: Mark, status: &Status) -> u32
    ensures { result ≡ age_in present status.now }
{
    present.0.saturating_sub(status.mark.0)
}

/// Appends the line of a status of this age.
fn aged_text(alloc: Global, age: u32, status: Status, out: &mut Vec<u8>) -> Result<(), OutOfMemory>
    ensures added { OnOk result (out.new.items ≡ out.old.items ++ aged_line age status status.armed) }
    ensures unchanged { OnErr result (out.new.items ≡ out.old.items) }
{
    let (mark, age) = (Word::number(status.mark.0), Word::number(age));
    let (fore, back) = (Word::number(status.fore.0), Word::number(status.back.0));
    let last = Word::number(status.last.0);
    match status.armed {
        Some(change) => {
            let (edition, due) = (Word::number(change.edition.0), Word::number(change.due.0));
            let words = [mark, age, fore, back, edition, due, last];
            print(alloc, Form::ArmedStatus, &words, out)
        }
        None => {
            let words = [mark, age, fore, back, last];
            print(alloc, Form::Status, &words, out)
        }
    }
}

/// Appends the line of the last order, if one was placed, by the status that the centre keeps.
pub fn last_text(
    alloc: Global,
    kept: Option<Status>,
    last: Option<Order>,
    out: &mut Vec<u8>,
) -> Result<(), OutOfMemory>
    ensures added { OnOk result (out.new.items ≡ out.old.items ++ last_line kept last) }
    ensures unchanged { OnErr result (out.new.items ≡ out.old.items) }
{
    match last {
        Some(order) => last_order_text(alloc, is_confirmed(kept, order), order, out),
        None => print(alloc, Form::NoLast, &[], out),
    }
}

/// The status that is kept says that the command of this order was the last that the satellite took.
fn is_confirmed(kept: Option<Status>, order: Order) -> bool
    ensures { result ≡ is_confirmed kept order }
{
    match kept {
        Some(status) => status.last == command_of(order),
        None => false,
    }
}

/// The number of an order.
fn command_of(order: Order) -> Command
    ensures { result ≡ command_of order }
{
    match order {
        Order::Load { command, .. } => command,
        Order::Arm { command, .. } => command,
    }
}

/// Appends the line of the order that was placed last, by whether it is confirmed.
fn last_order_text(
    alloc: Global,
    confirmed: bool,
    order: Order,
    out: &mut Vec<u8>,
) -> Result<(), OutOfMemory>
    ensures added { OnOk result (out.new.items ≡ out.old.items ++ last_order_line confirmed order) }
    ensures unchanged { OnErr result (out.new.items ≡ out.old.items) }
{
    match order {
        Order::Load { command, edition } => {
            let numbers = [Word::number(command.0), Word::number(edition.0)];
            print(alloc, last_load_form(confirmed), &numbers, out)
        }
        Order::Arm {
            command,
            edition,
            due,
        } => {
            let numbers = [
                Word::number(command.0),
                Word::number(edition.0),
                Word::number(due.0),
            ];
            print(alloc, last_arm_form(confirmed), &numbers, out)
        }
    }
}

/// The form of the line of a Load that was placed last, by whether it is confirmed.
fn last_load_form(confirmed: bool) -> Form
    ensures { result ≡ last_load_form confirmed }
{
    if confirmed {
        Form::LastLoadConfirmed
    } else {
        Form::LastLoad
    }
}

/// The form of the line of an Arm that was placed last, by whether it is confirmed.
fn last_arm_form(confirmed: bool) -> Form
    ensures { result ≡ last_arm_form confirmed }
{
    if confirmed {
        Form::LastArmConfirmed
    } else {
        Form::LastArm
    }
}

/// Appends the line of a terminal that has still to confirm the edition of the last order.
pub fn missing_text(
    alloc: Global,
    net: &Network,
    terminal: TermNo,
    out: &mut Vec<u8>,
) -> Result<(), OutOfMemory>
    requires terminal { IsTerminal net.now terminal }
    ensures added { OnOk result (out.new.items ≡ out.old.items ++ missing_line net.now terminal) }
    ensures unchanged { OnErr result (out.new.items ≡ out.old.items) }
{
    let terminal = Word::Text(net.name_of(terminal));
    print(alloc, Form::Missing, &[terminal], out)
}

/// Appends the line of a terminal that asks for its bursts.
pub fn asks_text(
    alloc: Global,
    net: &Network,
    terminal: TermNo,
    out: &mut Vec<u8>,
) -> Result<(), OutOfMemory>
    requires terminal { IsTerminal net.now terminal }
    ensures added { OnOk result (out.new.items ≡ out.old.items ++ asks_line net.now terminal) }
    ensures unchanged { OnErr result (out.new.items ≡ out.old.items) }
{
    let terminal = Word::Text(net.name_of(terminal));
    print(alloc, Form::Asks, &[terminal], out)
}
