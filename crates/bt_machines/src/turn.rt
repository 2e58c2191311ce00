// What the centre does in its turn.
ghost use Rattle.std.specs.Prelude.{◌≡◌, ◌≤◌};
ghost use Rattle.bt_frame.specs.declared.limits.TheConstants.{MOST_LEAD, MOST_PLACED};
ghost use Rattle.bt_machines.specs.Last.{number_of};
ghost use Rattle.bt_machines.specs.Turn.{act_of, arm_after, attempt, is_ready, may_arm, one_more, waited_with, wanted_by};

use bt_air::{Act, Order, Status};
use bt_frame::{Command, EditionNo, LAST_MARK, MOST_PATIENCE, Mark};

/// What a turn goes by.
#[derive(Clone, Copy)]
pub struct Turn {
    /// The present superframe.
    pub mark: Mark,
    /// The edition to bring to the front.
    pub target: EditionNo,
    /// Superframes from an Arm to its change.
    pub lead: u32,
    /// Turns that are waited for confirmations.
    pub patience: u32,
    /// Turns that were waited, with this one.
    pub waited: u32,
    /// Some terminal has still to confirm.
    pub some_missing: bool,
    /// The edition known in the present superframe, if one is.
    pub in_force: Option<EditionNo>,
}

/// What the centre does, by the order that is wanted, the status that is kept and the last order placed: the table of
/// `docs/machines.md`, a line for each of its rows.
#[rattlefmt::skip]
pub(crate) fn act_of(turn: &Turn, wanted: Option<Order>, kept: Option<Status>, last: Option<Order>) -> Act
    requires mark { turn.now.mark.0 ≤ LAST_MARK }
    requires lead { turn.now.lead ≤ MOST_LEAD }
    requires few { number_of last ≤ MOST_PLACED }
    ensures { result ≡ act_of turn.now wanted kept last }
{
    use Act::*;
    if let Some(order) = wanted { return Want(order); }
    let Some(status) = kept else { return Quiet; };
    match last {
        Some(Order::Arm { due, .. }) if status.mark < due && turn.mark < due      => RepeatArm,
        Some(Order::Arm { due, .. }) if status.mark < due                         => Quiet,
        Some(Order::Arm { command, .. })                                          => attempt(turn, command.0),
        Some(Order::Load { command, edition }) if may_arm(turn, &status, command) => Want(arm(turn, command, edition)),
        Some(Order::Load { command, .. })                                         => RepeatLoad { load: status.last != command },
        None                                                                      => attempt(turn, 0),
    }
}

// The Arm that follows a Load.
fn arm(turn: &Turn, command: Command, edition: EditionNo) -> Order
    requires mark { turn.now.mark.0 ≤ LAST_MARK }
    requires lead { turn.now.lead ≤ MOST_LEAD }
    requires few { command.0 ≤ MOST_PLACED }
    ensures { result ≡ arm_after turn.now command edition }
{
    Order::Arm {
        command: Command(command.0 + 1),
        edition,
        due: Mark(turn.mark.0 + turn.lead),
    }
}

// A new change begins, with the command after the last one, where an edition is known and the target is another.
fn attempt(turn: &Turn, last: u32) -> Act
    requires { last ≤ MOST_PLACED }
    ensures { result ≡ attempt turn.now.in_force turn.now.target last }
{
    match turn.in_force {
        Some(fore) if turn.target != fore => Act::Want(Order::Load {
            command: Command(last + 1),
            edition: turn.target,
        }),
        _ => Act::Quiet,
    }
}

// The satellite has the last Load, the terminals are ready, and the change would come by the last superframe.
fn may_arm(turn: &Turn, status: &Status, command: Command) -> bool
    requires mark { turn.now.mark.0 ≤ LAST_MARK }
    requires lead { turn.now.lead ≤ MOST_LEAD }
    ensures { result ≡ may_arm turn.now status.now command }
{
    status.last == command && is_ready(turn) && turn.mark.0 + turn.lead <= LAST_MARK
}

// Nobody has still to confirm, or enough turns were waited.
fn is_ready(turn: &Turn) -> bool
    ensures { result ≡ is_ready turn.now }
{
    !turn.some_missing || turn.waited >= turn.patience
}

/// The turns that were waited, with this one. It counts where no order is wanted, a status is kept and the last order
/// is a Load.
pub(crate) fn waited_with(
    waited: u32,
    wanted: Option<Order>,
    kept: Option<Status>,
    last: Option<Order>,
) -> u32
    ensures { result ≡ waited_with waited wanted kept last }
{
    match last {
        Some(Order::Load { .. }) if wanted.is_none() && kept.is_some() => one_more(waited),
        _ => waited,
    }
}

// One turn more was waited, and the most patience stands for all further ones.
fn one_more(waited: u32) -> u32
    ensures { result ≡ one_more waited }
{
    if waited < MOST_PATIENCE {
        waited + 1
    } else {
        MOST_PATIENCE
    }
}

/// The order that an act wants, if it wants one.
pub(crate) fn wanted_by(act: Act) -> Option<Order>
    ensures { result ≡ wanted_by act }
{
    match act {
        Act::Want(order) => Some(order),
        _ => None,
    }
}
