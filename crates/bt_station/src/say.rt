// The lines that a station says.
ghost use Rattle.std.specs.Prelude.{◌≡◌, ◌++◌, [], IfOk, OnOk};
ghost use Rattle.bt_air.specs.Range.{IsInRange};
ghost use Rattle.bt_machines.specs.Says.{carried};
ghost use Rattle.bt_net.specs.Terminals.{name_at};
ghost use Rattle.bt_timeline.specs.Timeline.{burst_lines};
ghost use Rattle.bt_words.specs.declared.form.Form.TheVariants as form;
ghost use Rattle.bt_station.specs.Lines.{burst_frame_lines, fault_line, input_fault_line, mode_lines, radio_line};

use bt_air::{Aired, Message};
use bt_demand::{Burst, Bursts};
use bt_frame::{Mark, Mode, Modes, OutOfMemory, TermNo};
use bt_net::Network;
use bt_plan::write_mode;
use bt_script::add_radio;
use bt_words::{Form, Word, add_line, print};
use std::alloc::Global;

/// Appends the line of what is said in a superframe by who has no plan.
pub(crate) fn add_said(
    alloc: Global,
    stamp: Mark,
    said: Aired,
    out: &mut Vec<u8>,
) -> Result<(), OutOfMemory>
    requires in_range { IsInRange (carried [] said) }
    ensures added { OnOk result (out.new.items ≡ out.old.items ++ radio_line stamp said) }
{
    add_radio(alloc, stamp, &carried(alloc, said), out)
}

/// A message as it is carried by who has no plan.
fn carried(alloc: Global, said: Aired) -> Message
    ensures carried { result ≡ carried [] said }
{
    match said {
        Aired::Load { command, edition } => Message::Load {
            command,
            edition,
            modes: Modes::of(Vec::new(alloc)),
        },
        Aired::Arm {
            command,
            edition,
            due,
        } => Message::Arm {
            command,
            edition,
            due,
        },
        Aired::Status(status) => Message::Status(status),
        Aired::PlanFor { to, load, edition } => Message::PlanFor {
            to,
            load,
            edition,
            bursts: Bursts::of(Vec::new(alloc)),
        },
        Aired::Confirm {
            from,
            load,
            edition,
        } => Message::Confirm {
            from,
            load,
            edition,
        },
        Aired::Reference {
            superframe,
            in_force,
            next,
        } => Message::Reference {
            superframe,
            in_force,
            next,
        },
        Aired::Lost { from } => Message::Lost { from },
    }
}

/// That the line of that number is at fault.
pub(crate) fn fault_text(alloc: Global, at: u64) -> Result<Vec<u8>, OutOfMemory>
    ensures text { IfOk result (λ text. text.items ≡ fault_line at) }
{
    let mut text = Vec::new(alloc);
    print(alloc, Form::LineFaultS1, &[Word::Number(at)], &mut text)?;
    Ok(text)
}

/// That the input failed.
pub(crate) fn input_fault_text(alloc: Global) -> Result<Vec<u8>, OutOfMemory>
    ensures text { IfOk result (λ text. text.items ≡ input_fault_line) }
{
    let mut text = Vec::new(alloc);
    print(alloc, Form::InputFault, &[], &mut text)?;
    Ok(text)
}

/// Appends what a terminal transmits in a frame.
pub(crate) fn add_burst_frame(
    alloc: Global,
    net: &Network,
    mark: Mark,
    number: u32,
    bursts: &[Burst],
    out: &mut Vec<u8>,
) -> Result<(), OutOfMemory>
    ensures added { OnOk result (out.new.items ≡ out.old.items ++ burst_frame_lines net.now mark number bursts.now) }
{
    let words = [Word::Text("frame"), Word::Frame(mark, number)];
    add_line(alloc, &words, out)?;
    add_bursts(alloc, net, bursts, out)
}

/// Appends the lines of bursts on the air.
fn add_bursts(
    alloc: Global,
    net: &Network,
    bursts: &[Burst],
    out: &mut Vec<u8>,
) -> Result<(), OutOfMemory>
    ensures added { OnOk result (out.new.items ≡ out.old.items ++ burst_lines net.now form.Air bursts.now) }
{
    for burst in bursts {
        let words = [
            Word::number(burst.start),
            Word::number(burst.length),
            Word::Text(name_at(net, burst.from)),
            Word::Text(name_at(net, burst.to)),
        ];
        print(alloc, Form::Air, &words, out)?;
    }
    Ok(())
}

/// Appends the lines of modes, as a plan has them.
pub(crate) fn add_modes(alloc: Global, modes: &[Mode], out: &mut Vec<u8>) -> Result<(), OutOfMemory>
    ensures added { OnOk result (out.new.items ≡ out.old.items ++ mode_lines modes.now) }
{
    for mode in modes {
        write_mode(alloc, mode, out)?;
    }
    Ok(())
}

/// The name of a terminal, and nothing where the network has none of that number.
fn name_at(net: &Network, terminal: TermNo) -> &str
    ensures { result.now ≡ name_at net.now terminal }
{
    if u32::from(terminal.0) < net.terminal_count() {
        net.name_of(terminal)
    } else {
        ""
    }
}
