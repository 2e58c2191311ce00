// Writing the transmit times of a plan as their text.
ghost use Rattle.std.specs.Prelude.{◌≡◌, ◌++◌, ◌∷◌, [], All, IfOk, OnOk, decimal, map};
ghost use Rattle.std.specs.Fmt.{signed_decimal};
ghost use Rattle.bt_text.specs.Text.{ended};
ghost use Rattle.bt_net.specs.Terminals.{name_at, IsTerminal};
ghost use Rattle.bt_timing.specs.SendsText.{IsTimed, time_line, send_line, sends_spelling};

use crate::{SendTime, Timing};
use bt_demand::{Burst, Plan};
use bt_frame::{OutOfMemory, TermNo};
use bt_net::Network;
use bt_text::number_text;
use itoa::Buffer;
use std::alloc::Global;

/// The transmit times of a plan: a line `send AT TICKS FROM TO` for each burst, and `end`. AT and TICKS are in ticks.
pub fn sends_text(
    alloc: Global,
    net: &Network,
    timing: &Timing,
    plan: &Plan,
) -> Result<Vec<u8>, OutOfMemory>
    requires timed { All (IsTimed net.now timing.now) plan.now.bursts }
    ensures spelled { IfOk result
        (λ text. text.items ≡ sends_spelling net.now timing.now plan.now.bursts) }
{
    let mut text = Vec::new(alloc);
    write_sends(alloc, net, timing, plan.bursts.as_slice(), &mut text)?;
    text.extend_from_slice(b"end\n")?;
    Ok(text)
}

// Appends the lines of the bursts.
fn write_sends(
    alloc: Global,
    net: &Network,
    timing: &Timing,
    bursts: &[Burst],
    text: &mut Vec<u8>,
) -> Result<(), OutOfMemory>
    requires { All (IsTimed net.now timing.now) bursts.now }
    ensures { OnOk result
        (text.new.items ≡ text.old.items ++ ended (map (send_line net.now timing.now) bursts.now)) }
{
    for burst in bursts {
        write_send(alloc, net, timing, *burst, text)?;
    }
    Ok(())
}

// Appends the line of a burst.
fn write_send(
    alloc: Global,
    net: &Network,
    timing: &Timing,
    burst: Burst,
    text: &mut Vec<u8>,
) -> Result<(), OutOfMemory>
    requires timed { IsTimed net.now timing.now burst }
    ensures { OnOk result
        (text.new.items ≡ text.old.items ++ send_line net.now timing.now burst ++ 10 ∷ []) }
{
    write_time(alloc, net, burst, timing.send_of(&burst), text)
}

// Appends `send AT TICKS FROM TO`.
fn write_time(
    alloc: Global,
    net: &Network,
    burst: Burst,
    time: SendTime,
    text: &mut Vec<u8>,
) -> Result<(), OutOfMemory>
    requires sends { IsTerminal net.now burst.from }
    requires receives { IsTerminal net.now burst.to }
    ensures { OnOk result
        (text.new.items ≡ text.old.items ++ time_line net.now burst time ++ 10 ∷ []) }
{
    text.extend_from_slice(b"send")?;
    write_tick(time.at, text)?;
    write_count(alloc, time.ticks, text)?;
    write_name(net, burst.from, text)?;
    write_name(net, burst.to, text)?;
    text.push(b'\n')?;
    Ok(())
}

// Appends a tick behind a space, with `-` before it where it is negative.
fn write_tick(tick: i64, text: &mut Vec<u8>) -> Result<(), OutOfMemory>
    ensures { OnOk result (text.new.items ≡ text.old.items ++ 32 ∷ signed_decimal tick) }
{
    text.push(b' ')?;
    let mut buffer = Buffer::new();
    text.extend_from_slice(buffer.format(tick).as_bytes())?;
    Ok(())
}

// Appends how many ticks, behind a space.
fn write_count(alloc: Global, ticks: u64, text: &mut Vec<u8>) -> Result<(), OutOfMemory>
    ensures { OnOk result (text.new.items ≡ text.old.items ++ 32 ∷ decimal ticks) }
{
    text.push(b' ')?;
    number_text(alloc, ticks, text)
}

// Appends the name of a terminal, behind a space.
fn write_name(net: &Network, terminal: TermNo, text: &mut Vec<u8>) -> Result<(), OutOfMemory>
    requires { IsTerminal net.now terminal }
    ensures { OnOk result (text.new.items ≡ text.old.items ++ 32 ∷ name_at net.now terminal) }
{
    text.push(b' ')?;
    text.extend_from_slice(net.name_of(terminal).as_bytes())?;
    Ok(())
}
