// A desk in a round: its edits are asked, and its shows are shown.
ghost use Rattle.std.specs.Prelude.{◌≡◌, ◌+◌, ◌++◌, ◌∷◌, [], All, OnOk, OnErr};
ghost use Rattle.bt_demand.specs.Apart.{bursts_from};
ghost use Rattle.bt_script.specs.Named.{IsLineFor};
ghost use Rattle.bt_round.specs.Callers.{IsSameCaller, caller_number, own_of};
ghost use Rattle.bt_round.specs.Desks.{plan_shown};
ghost use Rattle.bt_round.specs.Done.{DeskDone};

use crate::caller::Caller;
use crate::gate::Gate;
use bt_book::replies_name_beams_of_the_network;
use bt_demand::{Burst, Plan};
use bt_frame::{OutOfMemory, TermNo};
use bt_journal::Call;
use bt_net::Network;
use bt_outside::Keeper;
use bt_script::DeskLine;
use bt_shared::Reader;
use bt_timeline::{entry_text, show_text};
use std::alloc::Global;
use std::sync::Wait;

/// Does the lines of a desk in order, and appends what is printed of them. A show looks at the board, and
/// gives the plan that the desk's reader then lends.
pub fn run_desk<R: Wait, G: Gate, K: Keeper>(
    rt: &R,
    alloc: Global,
    net: &Network,
    caller: &mut Caller<'_, G, K>,
    desk: u8,
    lines: &[DeskLine],
    reader: &mut Reader,
    text: &mut Vec<u8>,
) -> Result<(), OutOfMemory>
    requires network { caller.old.start.net ≡ net.now }
    requires number { caller_number caller.old ≡ desk + 1 }
    requires terminals { All (IsLineFor net.now) lines.now }
    ensures same { IsSameCaller caller.old caller.new }
    ensures board { reader.new.board ≡ reader.old.board }
    ensures done { OnOk result (DeskDone net.now desk lines.now reader.old.plans reader.new.plans (own_of caller.old) (own_of caller.new) text.old.items text.new.items) }
{
    for line in lines {
        run_line(rt, alloc, net, caller, desk, line, reader, text)?;
    }
    Ok(())
}

/// Does a line of a desk, and appends what is printed of it.
fn run_line<R: Wait, G: Gate, K: Keeper>(
    rt: &R,
    alloc: Global,
    net: &Network,
    caller: &mut Caller<'_, G, K>,
    desk: u8,
    line: &DeskLine,
    reader: &mut Reader,
    text: &mut Vec<u8>,
) -> Result<(), OutOfMemory>
    requires network { caller.old.start.net ≡ net.now }
    requires number { caller_number caller.old ≡ desk + 1 }
    requires terminals { IsLineFor net.now line.now }
    ensures same { IsSameCaller caller.old caller.new }
    ensures board { reader.new.board ≡ reader.old.board }
    ensures done { OnOk result (DeskDone net.now desk (line.now ∷ []) reader.old.plans reader.new.plans (own_of caller.old) (own_of caller.new) text.old.items text.new.items) }
{
    // This is there for what holds of each network: its terminals are in beams.
    let _beams = net.beam_count();
    replies_name_beams_of_the_network();
    match line {
        DeskLine::Edit(edit) => {
            let entry = caller.ask(rt, alloc, net, Call::Edit(*edit))?;
            entry_text(alloc, net, Some(desk), &entry, text)
        }
        DeskLine::Show(terminal) => {
            reader.look()?;
            let sent = reader.sent_by(*terminal);
            show_plan(alloc, net, desk, *terminal, reader.newest(), sent, text)
        }
    }
}

/// Appends what a desk is shown of a plan, of the bursts of a terminal, which are given.
fn show_plan(
    alloc: Global,
    net: &Network,
    desk: u8,
    terminal: TermNo,
    plan: &Plan,
    sent: &[Burst],
    text: &mut Vec<u8>,
) -> Result<(), OutOfMemory>
    requires sent { sent.now ≡ bursts_from terminal plan.now.bursts }
    ensures added { OnOk result (text.new.items ≡ text.old.items ++ plan_shown net.now desk plan.now terminal) }
    ensures unchanged { OnErr result (text.new.items ≡ text.old.items) }
{
    let modes = plan.schedule.modes.as_slice().len() as u32;
    let length = plan.schedule.length;
    show_text(
        alloc,
        net,
        desk,
        terminal,
        plan.edition,
        length,
        modes,
        sent,
        text,
    )
}
