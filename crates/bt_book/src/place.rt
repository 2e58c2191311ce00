// An order can be placed where it is the next, for an edition that has a plan.
ghost use Rattle.std.specs.Prelude.{◌≡◌};
ghost use Rattle.bt_air.specs.Orders.{command_of, edition_ordered};
ghost use Rattle.bt_journal.specs.declared.call.Change.TheVariants as change;
ghost use Rattle.bt_history.specs.Changes.{is_installed, last_command};
ghost use Rattle.bt_history.specs.Records.{IsFirstCause};

use crate::machine::Machine;
use bt_air::Order;
use bt_frame::{Command, EditionNo};
use bt_journal::Reply;

impl Machine {
    /// The first cause of a refusal in the order itself.
    pub(crate) fn cause_of_order(&self, order: &Order) -> Option<Reply>
        ensures { IsFirstCause self.now.net self.now.state.changes (change.Order order.now) result }
    {
        let (command, edition) = parts_of(order);
        let last = self.last_command();
        if command.0 <= last.0 || 1 < command.0 - last.0 {
            return Some(Reply::OutOfTurn { last });
        }
        if self.is_installed(edition) {
            None
        } else {
            Some(Reply::NotInstalled {
                newest: self.newest().edition,
            })
        }
    }

    /// The command of the last order, 0 where there is none.
    fn last_command(&self) -> Command
        ensures { result ≡ last_command self.now.state.changes }
    {
        match self.kept.orders.last() {
            Some(order) => parts_of(order).0,
            None => Command(0),
        }
    }

    /// A plan of that edition is installed.
    fn is_installed(&self, edition: EditionNo) -> bool
        ensures { result ≡ is_installed self.now.state.changes edition }
    {
        self.kept
            .plans
            .iter()
            .any(|plan| plan.edition.0 == edition.0)
    }
}

/// The number of an order, and the edition that it names.
pub(crate) fn parts_of(order: &Order) -> (Command, EditionNo)
    ensures command { result.0 ≡ command_of order.now }
    ensures edition { result.1 ≡ edition_ordered order.now }
{
    match *order {
        Order::Load { command, edition } => (command, edition),
        Order::Arm {
            command,
            edition,
            ..
        } => (command, edition),
    }
}
