// The last of the orders that were placed.
ghost use Rattle.std.specs.Prelude.{◌≡◌, reverse};
ghost use Rattle.bt_machines.specs.Last.{greater_of, is_load, load_with, is_load_numbered, load_of, next_of};

use bt_air::{Armed, Order};
use bt_frame::{Command, EditionNo, Mark};

/// The order is a Load.
pub(crate) fn is_load(order: Option<Order>) -> bool
    ensures { result ≡ is_load order }
{
    matches!(order, Some(Order::Load { .. }))
}

/// The order is the Load of this number.
pub(crate) fn is_load_numbered(order: Option<Order>, number: Command) -> bool
    ensures { result ≡ is_load_numbered order number }
{
    match order {
        Some(Order::Load { command, .. }) => command == number,
        _ => false,
    }
}

/// The change that is announced in a superframe: that of the order, where this is an Arm that is due later.
pub(crate) fn next_of(order: Option<Order>, mark: Mark) -> Option<Armed>
    ensures { result ≡ next_of order mark.0 }
{
    match order {
        Some(Order::Arm { edition, due, .. }) if mark < due => Some(Armed { edition, due }),
        _ => None,
    }
}

/// The greatest number of a Load of this edition among orders, the first first, or 0 where there is none.
pub(crate) fn load_among(orders: &[Order], edition: EditionNo) -> Command
    ensures { result ≡ load_of (reverse orders.now) edition }
{
    let mut greatest = Command(0);
    for order in orders {
        greatest = load_with(order, edition, greatest);
    }
    greatest
}

// The greatest number of a Load of this edition, with one order more.
fn load_with(order: &Order, edition: EditionNo, greatest: Command) -> Command
    ensures { result ≡ load_with order.now edition greatest }
{
    match order {
        Order::Load {
            command,
            edition: loaded,
        } if *loaded == edition => greater_of(*command, greatest),
        _ => greatest,
    }
}

// The greater of two numbers.
fn greater_of(a: Command, b: Command) -> Command
    ensures { result ≡ greater_of a b }
{
    if a < b { b } else { a }
}
