// What the centre knows of the satellite by a status and by the orders placed.
ghost use Rattle.std.specs.Prelude.{◌≡◌, Some};
ghost use Rattle.std.specs.List.{list_any};
ghost use Rattle.bt_air.specs.Editions.{names};
ghost use Rattle.bt_machines.specs.Known.{is_unseen, known, later_of, told_fore};

use bt_air::{Order, Status};
use bt_frame::{EditionNo, Mark};

/// The edition known in a superframe, by a status and the orders placed.
pub(crate) fn known_by(status: &Status, mark: Mark, orders: &[Order]) -> Option<EditionNo>
    ensures { result ≡ known (Some status.now) orders.now mark.0 }
{
    if has_unseen(status, mark, orders) {
        return None;
    }
    let told = told_fore(status, mark);
    Some(told)
}

// The order is an Arm that the status does not know of, and that may have made its change after the status and by
// this superframe.
fn is_unseen(status: &Status, mark: Mark, order: &Order) -> bool
    ensures { result ≡ is_unseen status.now mark.0 order.now }
{
    match order {
        Order::Load { .. } => false,
        Order::Arm { command, due, .. } => {
            *command > status.last && *due > status.mark && *due <= mark
        }
    }
}

// One of the orders is such an Arm.
fn has_unseen(status: &Status, mark: Mark, orders: &[Order]) -> bool
    ensures { result ≡ list_any (is_unseen status.now mark.0) orders.now }
{
    for order in orders {
        if is_unseen(status, mark, order) {
            return true;
        }
    }
    false
}

// The edition in front in a superframe by what the status alone says.
fn told_fore(status: &Status, mark: Mark) -> EditionNo
    ensures { result ≡ told_fore status.now.armed status.now.fore mark.0 }
{
    match status.armed {
        Some(armed) if armed.due <= mark => armed.edition,
        _ => status.fore,
    }
}

/// The later of the status that is kept, where there is one, and a new one.
pub(crate) fn later_of(kept: Option<Status>, new: Status) -> Status
    ensures { result ≡ later_of kept new }
{
    match kept {
        None => new,
        Some(old) => {
            if new.mark > old.mark || (new.mark == old.mark && new.last > old.last) {
                new
            } else {
                old
            }
        }
    }
}

/// This edition is the one named.
pub(crate) fn names(named: Option<EditionNo>, edition: EditionNo) -> bool
    ensures { result ≡ names named edition }
{
    match named {
        Some(named) => edition == named,
        None => false,
    }
}
