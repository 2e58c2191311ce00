// The lines of the orders that the centre wants.
ghost use Rattle.std.specs.Prelude.{◌≡◌, ◌++◌, OnOk, OnErr};
ghost use Rattle.bt_timeline.specs.Air.{IsUnplaced, order_line, unplaced_line};

use bt_air::Order;
use bt_frame::OutOfMemory;
use bt_journal::Reply;
use bt_words::{Form, Word, print};
use std::alloc::Global;

/// Appends the line of an order that the centre wants.
pub fn order_text(alloc: Global, order: Order, out: &mut Vec<u8>) -> Result<(), OutOfMemory>
    ensures added { OnOk result (out.new.items ≡ out.old.items ++ order_line order) }
    ensures unchanged { OnErr result (out.new.items ≡ out.old.items) }
{
    match order {
        Order::Load { command, edition } => {
            let numbers = [Word::number(command.0), Word::number(edition.0)];
            print(alloc, Form::OrderLoad, &numbers, out)
        }
        Order::Arm {
            command,
            edition,
            due,
        } => {
            let numbers = [
                Word::number(command.0),
                Word::number(edition.0),
                Word::number(due.0),
            ];
            print(alloc, Form::OrderArm, &numbers, out)
        }
    }
}

/// Appends the line of an order that was not placed, by the reply to it: a refusal, a fault of the store, or that the
/// book is stopped.
pub fn unplaced_text(alloc: Global, reply: &Reply, out: &mut Vec<u8>) -> Result<(), OutOfMemory>
    requires unplaced { IsUnplaced reply.now }
    ensures added { OnOk result (out.new.items ≡ out.old.items ++ unplaced_line reply.now) }
    ensures unchanged { OnErr result (out.new.items ≡ out.old.items) }
{
    match reply {
        Reply::BookFull { length } => {
            let length = Word::number(*length);
            print(alloc, Form::OrderBookFull, &[length], out)
        }
        Reply::OutOfTurn { last } => {
            let last = Word::number(last.0);
            print(alloc, Form::OrderOutOfTurn, &[last], out)
        }
        Reply::NotInstalled { newest } => {
            let newest = Word::number(newest.0);
            print(alloc, Form::OrderNotInstalled, &[newest], out)
        }
        Reply::StoreFault => print(alloc, Form::OrderStoreFault, &[], out),
        Reply::Stopped => print(alloc, Form::OrderStopped, &[], out),
        _ => unreachable!(),
    }
}
