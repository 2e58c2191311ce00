// Transmit times of a plan by a delay file.
ghost use Rattle.std.specs.Prelude.{◌≤◌, length, All};
ghost use Rattle.std.specs.Bool.{OnTrue};
ghost use Rattle.bt_timing.specs.Times.{IsSendable};

use crate::texts::put_text;
use bt_demand::Burst;
use bt_frame::{LAST_SLOT, MOST_SLOTS, MOST_TEXT_BYTES};
use bt_net::Network;
use bt_plan::read_plan;
use bt_sheet::{CaseFault, Result, Shelf};
use bt_timing::{Timing, TimingCode, TimingFault, sends_text};
use std::alloc::Global;

/// Shows the transmit times of a plan by a delay file, or the first fault of that file.
pub fn show_sends(alloc: Global, shelf: &Shelf, words: &[&str], out: &mut String) -> Result<bool> {
    match *words {
        ["sends", net, plan, delays] => {
            let texts = [shelf.text(net)?, shelf.text(plan)?, shelf.text(delays)?];
            put_sends(alloc, texts, out)?;
            Ok(true)
        }
        _ => Ok(false),
    }
}

/// Appends the transmit times of the texts of a network, a plan and a delay file.
fn put_sends(alloc: Global, [net, plan, delays]: [&[u8]; 3], out: &mut String) -> Result<()> {
    match Network::read(alloc, net) {
        Ok(net) => put_over(alloc, &net, plan, delays, out),
        Err(_fault) => Err(CaseFault("no network")),
    }
}

fn put_over(
    alloc: Global,
    net: &Network,
    plan: &[u8],
    delays: &[u8],
    out: &mut String,
) -> Result<()> {
    if MOST_TEXT_BYTES < delays.len() {
        return Err(CaseFault("a long text"));
    }
    match Timing::read(alloc, net, delays) {
        Ok(timing) => put_times(alloc, net, &timing, plan, out),
        Err(TimingFault::At { code, line }) => put_fault(code, line, out),
        Err(TimingFault::OutOfMemory) => Err(CaseFault("out of memory")),
    }
}

/// Appends the transmit times of a plan.
fn put_times(
    alloc: Global,
    net: &Network,
    timing: &Timing,
    plan: &[u8],
    out: &mut String,
) -> Result<()>
    requires { length net.now.terminals ≤ length timing.now.delays }
{
    if MOST_TEXT_BYTES < plan.len() {
        return Err(CaseFault("a long text"));
    }
    let Ok(plan) = read_plan(alloc, net, plan) else {
        return Err(CaseFault("no plan"));
    };
    if !are_sendable(plan.bursts.as_slice()) {
        return Err(CaseFault("a plan longer than a frame"));
    }
    put_text(alloc, sends_text(alloc, net, timing, &plan), out)
}

/// Appends a fault as a command prints it.
fn put_fault(code: TimingCode, line: u32, out: &mut String) -> Result<()> {
    let code = match code {
        TimingCode::G1 => "G1",
        TimingCode::G2 => "G2",
        TimingCode::G3 => "G3",
        TimingCode::G4 => "G4",
        TimingCode::G5 => "G5",
    };
    write!(out, ">fault {code} {line}\n")?;
    Ok(())
}

/// All bursts lie among the slots that a frame may have.
fn are_sendable(bursts: &[Burst]) -> bool
    ensures { OnTrue result (All IsSendable bursts.now) }
{
    bursts.iter().all(|burst| {
        burst.start <= LAST_SLOT && 1 <= burst.length && burst.length <= MOST_SLOTS
    })
}
