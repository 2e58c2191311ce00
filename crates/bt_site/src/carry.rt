// What a message takes along of the plan of its edition.
ghost use Rattle.std.specs.Prelude.{◌≡◌, IfOk};
ghost use Rattle.std.specs.Option.{option_copied};
ghost use Rattle.bt_demand.specs.Burst.{AreBursts};
ghost use Rattle.bt_air.specs.Range.{IsInRange};
ghost use Rattle.bt_machines.specs.Plans.{modes_of};
ghost use Rattle.bt_machines.specs.Says.{carried};
ghost use Rattle.bt_site.specs.Address.{IsAddressed, IsLoaded};

use crate::plans::Plans;
use bt_air::{Aired, Message};
use bt_demand::{Burst, Bursts, Plan};
use bt_frame::{Modes, OutOfMemory};
use std::alloc::Global;

/// The message that is said: a Load with the modes of the plan of its edition, a PlanFor with the bursts that its
/// terminal transmits in it.
///
/// `loaded` is the plan of that edition where the message is a Load, and may be anything else where it is none.
pub fn message_of(
    alloc: Global,
    plans: &Plans,
    loaded: Option<&Plan>,
    said: Aired,
) -> Result<Message, OutOfMemory>
    requires addressed { IsAddressed plans.now.terminals said }
    requires in_range { IsInRange (carried plans.now.all said) }
    requires loaded { IsLoaded plans.now.all said (option_copied loaded) }
    ensures carried { IfOk result (λ message. message ≡ carried plans.now.all said) }
{
    Ok(match said {
        Aired::Load { command, edition } => Message::Load {
            command,
            edition,
            modes: modes_of(alloc, loaded)?,
        },
        Aired::Arm {
            command,
            edition,
            due,
        } => Message::Arm {
            command,
            edition,
            due,
        },
        Aired::Status(status) => Message::Status(status),
        Aired::PlanFor { to, load, edition } => Message::PlanFor {
            to,
            load,
            edition,
            bursts: bursts_of(alloc, plans.share(edition, to))?,
        },
        Aired::Confirm {
            from,
            load,
            edition,
        } => Message::Confirm {
            from,
            load,
            edition,
        },
        Aired::Reference {
            superframe,
            in_force,
            next,
        } => Message::Reference {
            superframe,
            in_force,
            next,
        },
        Aired::Lost { from } => Message::Lost { from },
    })
}

/// The modes of a plan, none where there is no plan.
fn modes_of(alloc: Global, plan: Option<&Plan>) -> Result<Modes, OutOfMemory>
    ensures { IfOk result (λ modes. modes ≡ modes_of (option_copied plan.entry)) }
{
    match plan {
        Some(plan) => plan.schedule.modes.copy(alloc),
        None => Ok(Modes::of(Vec::new(alloc))),
    }
}

/// A copy of these bursts.
fn bursts_of(alloc: Global, bursts: &[Burst]) -> Result<Bursts, OutOfMemory>
    requires { AreBursts bursts.now }
    ensures { IfOk result (λ copy. copy ≡ bursts.now) }
{
    Ok(Bursts::of(Vec::from_slice(alloc, bursts)?))
}
