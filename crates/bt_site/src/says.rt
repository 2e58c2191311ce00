// What the centre says with an order and in its turn, appended to what was said. There is room for it.
ghost use Rattle.std.specs.Prelude.{◌≡◌, ◌+◌, ◌<◌, ◌≤◌, ◌++◌, List, vec_len, vec_capacity, Some};
ghost use Rattle.std.specs.List.{filter};
ghost use Rattle.bt_frame.specs.declared.limits.TheConstants.{MOST_TERMINALS};
ghost use Rattle.bt_frame.specs.declared.numbers.TermNo.{TermNo};
ghost use Rattle.bt_air.specs.declared.order.Order.{Order};
ghost use Rattle.bt_machines.specs.Centre.{is_missing};
ghost use Rattle.bt_machines.specs.Last.{last_order};
ghost use Rattle.bt_machines.specs.Plans.{has_burst, plan_of};
ghost use Rattle.bt_machines.specs.Says.{last_plans, order_again, plans_for, sent_by_act, sent_by_order, sent_to_asking};
ghost use Rattle.bt_machines.specs.Terminals.{has, terminals_of};
ghost use Rattle.bt_site.specs.Plans.{is_answered};

use crate::plans::Plans;
use crate::posted::{Posted, post};
use bt_air::{Act, Aired, Order};
use bt_frame::{Command, EditionNo, TermNo};
use bt_machines::Centre;

/// Sends an order, and where it is a Load the bursts of its edition to each terminal that transmits in it.
pub(crate) fn send_order(sent: &mut Vec<Posted>, plans: &Plans, order: Order)
    requires room { vec_len sent.old + (plans.now.terminals + 1) ≤ vec_capacity sent.old }
    ensures { sent.new.items ≡ sent.old.items ++ sent_by_order plans.now.all (terminals_of plans.now.terminals) (Some order) }
{
    match order {
        Order::Load { command, edition } => {
            post(sent, Aired::Load { command, edition });
            send_needed(sent, plans, command, edition);
        }
        Order::Arm {
            command,
            edition,
            due,
        } => post(
            sent,
            Aired::Arm {
                command,
                edition,
                due,
            },
        ),
    }
}

// Sends the bursts of an edition, for a Load, to each terminal that transmits in it.
fn send_needed(sent: &mut Vec<Posted>, plans: &Plans, load: Command, edition: EditionNo)
    requires room { vec_len sent.old + plans.now.terminals ≤ vec_capacity sent.old }
    ensures { sent.new.items ≡ sent.old.items ++ plans_for (filter (has_burst (plan_of plans.now.all edition)) (terminals_of plans.now.terminals)) load edition }
{
    for number in 0..plans.terminal_count() as u8 {
        let to = TermNo(number);
        if plans.has_burst(edition, to) {
            post(sent, Aired::PlanFor { to, load, edition });
        }
    }
}

/// Sends the bursts of an edition, for a Load, to each terminal that has still to confirm.
fn send_missing(
    sent: &mut Vec<Posted>,
    plans: &Plans,
    centre: &Centre,
    load: Command,
    edition: EditionNo,
)
    requires room { vec_len sent.old + plans.now.terminals ≤ vec_capacity sent.old }
    ensures said { sent.new.items ≡ sent.old.items ++ plans_for (filter (is_missing centre.now) (terminals_of plans.now.terminals)) load edition }
    ensures capacity { vec_capacity sent.new ≡ vec_capacity sent.old }
    ensures count { vec_len sent.new ≤ vec_len sent.old + plans.now.terminals }
{
    for number in 0..plans.terminal_count() as u8 {
        let to = TermNo(number);
        if centre.missing(to) {
            post(sent, Aired::PlanFor { to, load, edition });
        }
    }
}

/// Sends the bursts of an edition, for a Load, to each terminal that asks and transmits in it.
fn send_asking(
    sent: &mut Vec<Posted>,
    plans: &Plans,
    centre: &Centre,
    load: Command,
    edition: EditionNo,
)
    requires room { vec_len sent.old + plans.now.terminals ≤ vec_capacity sent.old }
    ensures { sent.new.items ≡ sent.old.items ++ plans_for (filter (is_answered (plan_of plans.now.all edition) centre.now) (terminals_of plans.now.terminals)) load edition }
{
    for number in 0..plans.terminal_count() as u8 {
        let to = TermNo(number);
        if is_answered(plans, centre, edition, to) {
            post(sent, Aired::PlanFor { to, load, edition });
        }
    }
}

// The terminal asks the centre, and transmits in the edition.
fn is_answered(plans: &Plans, centre: &Centre, edition: EditionNo, terminal: TermNo) -> bool
    requires known { terminal.0 < plans.now.terminals }
    requires few { terminal.0 < MOST_TERMINALS }
    ensures { result ≡ is_answered (plan_of plans.now.all edition) centre.now terminal }
{
    centre.asking(terminal) && plans.has_burst(edition, terminal)
}

/// Sends an order once more, if there is one.
fn send_again(sent: &mut Vec<Posted>, last: Option<Order>)
    requires room { vec_len sent.old < vec_capacity sent.old }
    ensures said { (all : List Order) → last ≡ last_order all → sent.new.items ≡ sent.old.items ++ order_again all }
    ensures capacity { vec_capacity sent.new ≡ vec_capacity sent.old }
    ensures count { vec_len sent.new ≤ vec_len sent.old + 1 }
{
    match last {
        Some(Order::Load { command, edition }) => {
            post(sent, Aired::Load { command, edition });
        }
        Some(
            Order::Arm {
                command,
                edition,
                due,
            },
        ) => post(
            sent,
            Aired::Arm {
                command,
                edition,
                due,
            },
        ),
        None => {}
    }
}

/// Sends what an act calls for.
pub(crate) fn send_act(sent: &mut Vec<Posted>, plans: &Plans, centre: &Centre, act: Act)
    requires room { vec_len sent.old + (plans.now.terminals + 1) ≤ vec_capacity sent.old }
    ensures said { sent.new.items ≡ sent.old.items ++ sent_by_act centre.now.orders (filter (is_missing centre.now) (terminals_of plans.now.terminals)) act }
    ensures capacity { vec_capacity sent.new ≡ vec_capacity sent.old }
    ensures count { vec_len sent.new ≤ vec_len sent.old + (plans.now.terminals + 1) }
{
    let last = centre.last_order();
    match act {
        Act::RepeatLoad { load } => {
            if load {
                send_again(sent, last);
            }
            send_last(sent, plans, centre, last);
        }
        Act::RepeatArm => send_again(sent, last),
        _ => {}
    }
}

/// Sends the bursts of the edition that is known, if one is, to each terminal that asks and transmits in it.
pub(crate) fn send_known(
    sent: &mut Vec<Posted>,
    plans: &Plans,
    centre: &Centre,
    in_force: Option<EditionNo>,
)
    requires room { vec_len sent.old + plans.now.terminals ≤ vec_capacity sent.old }
    ensures { sent.new.items ≡ sent.old.items ++ sent_to_asking in_force centre.now.orders plans.now.all (filter (λ (terminal : TermNo). has centre.now.asking terminal) (terminals_of plans.now.terminals)) }
{
    if let Some(edition) = in_force {
        send_asking(sent, plans, centre, centre.load_of(edition), edition);
    }
}

// Sends the bursts of the edition of the last order, a Load, to each terminal that has still to confirm.
fn send_last(sent: &mut Vec<Posted>, plans: &Plans, centre: &Centre, last: Option<Order>)
    requires room { vec_len sent.old + plans.now.terminals ≤ vec_capacity sent.old }
    ensures said { (all : List Order) → last ≡ last_order all → sent.new.items ≡ sent.old.items ++ last_plans all (filter (is_missing centre.now) (terminals_of plans.now.terminals)) }
    ensures capacity { vec_capacity sent.new ≡ vec_capacity sent.old }
    ensures count { vec_len sent.new ≤ vec_len sent.old + plans.now.terminals }
{
    if let Some(Order::Load { command, edition }) = last {
        send_missing(sent, plans, centre, command, edition);
    }
}
