// Writing a burst time plan as its text.
ghost use Rattle.std.specs.Prelude.{◌≡◌, ◌<◌, ◌++◌, ◌∷◌, [], IfOk, OnOk, length, map};
ghost use Rattle.bt_text.specs.Text.{ended};
ghost use Rattle.bt_plan.specs.PlanSpelling.{edition_line, burst_line, plan_spelling};
ghost use Rattle.bt_demand.specs.Apart.{AreBetweenTerminals};
ghost use Rattle.bt_net.specs.Terminals.{name_at, IsTerminal};

use crate::schedule_writer::{write_next, write_schedule};
use bt_demand::{Burst, Plan};
use bt_frame::{EditionNo, OutOfMemory, TermNo};
use bt_net::Network;
use std::alloc::Global;

/// The text of a burst time plan, as `read_plan` reads it. Its bursts are between terminals of the network.
pub fn plan_text(alloc: Global, net: &Network, plan: &Plan) -> Result<Vec<u8>, OutOfMemory>
    requires terminals { AreBetweenTerminals net.now plan.now.bursts }
    ensures spelled { IfOk result (λ text. text.items ≡ plan_spelling net.now plan.now) }
{
    let mut text = Vec::new(alloc);
    write_edition(alloc, plan.edition, &mut text)?;
    write_schedule(alloc, &plan.schedule, &mut text)?;
    write_bursts(alloc, net, plan.bursts.as_slice(), &mut text)?;
    text.extend_from_slice(b"end\n")?;
    Ok(text)
}

// Appends `plan E`.
fn write_edition(alloc: Global, edition: EditionNo, text: &mut Vec<u8>) -> Result<(), OutOfMemory>
    ensures { OnOk result (text.new.items ≡ text.old.items ++ edition_line edition ++ 10 ∷ []) }
{
    text.extend_from_slice(b"plan")?;
    write_next(alloc, u64::from(edition.0), text)?;
    text.push(b'\n')?;
    Ok(())
}

// Appends the lines of the bursts.
fn write_bursts(
    alloc: Global,
    net: &Network,
    bursts: &[Burst],
    text: &mut Vec<u8>,
) -> Result<(), OutOfMemory>
    requires { AreBetweenTerminals net.now bursts.now }
    ensures { OnOk result
        (text.new.items ≡ text.old.items ++ ended (map (burst_line net.now) bursts.now)) }
{
    for burst in bursts {
        write_burst(alloc, net, *burst, text)?;
    }
    Ok(())
}

// Appends `burst START LENGTH FROM TO`.
fn write_burst(
    alloc: Global,
    net: &Network,
    burst: Burst,
    text: &mut Vec<u8>,
) -> Result<(), OutOfMemory>
    requires sends { IsTerminal net.now burst.from }
    requires receives { IsTerminal net.now burst.to }
    ensures { OnOk result (text.new.items ≡ text.old.items ++ burst_line net.now burst ++ 10 ∷ []) }
{
    text.extend_from_slice(b"burst")?;
    write_next(alloc, u64::from(burst.start), text)?;
    write_next(alloc, u64::from(burst.length), text)?;
    write_name(net, burst.from, text)?;
    write_name(net, burst.to, text)?;
    text.push(b'\n')?;
    Ok(())
}

// Appends the name of a terminal, behind a space.
fn write_name(net: &Network, terminal: TermNo, text: &mut Vec<u8>) -> Result<(), OutOfMemory>
    requires { IsTerminal net.now terminal }
    ensures { OnOk result (text.new.items ≡ text.old.items ++ 32 ∷ name_at net.now terminal) }
{
    text.push(b' ')?;
    text.extend_from_slice(net.name_of(terminal).as_bytes())?;
    Ok(())
}
