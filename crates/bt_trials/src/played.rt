// A script that is run behind a gate.
use bt_base::{SureKeeper, SureSink};
use bt_centre::{Gate, run_script};
use bt_net::Network;
use bt_script::Script;
use std::alloc::Global;
use std::sync::Wait;
use std::thread::Threads;

/// Runs a script on a network, and gives the status and what was printed; None where memory runs out, or a text is none.
pub(crate) fn play<R: Threads + Wait + Sync, G: Gate + Sync>(
    rt: &R,
    alloc: Global,
    net: &str,
    script: &str,
    gate: &G,
) -> Option<(u8, Vec<u8>)> {
    if net.len() > 1000 {
        return None;
    }
    let net = Network::read(alloc, net.as_bytes()).ok()?;
    play_on(rt, alloc, &net, script, gate)
}

// The same on a network that was read.
fn play_on<R: Threads + Wait + Sync, G: Gate + Sync>(
    rt: &R,
    alloc: Global,
    net: &Network,
    script: &str,
    gate: &G,
) -> Option<(u8, Vec<u8>)> {
    if script.len() > 1000 {
        return None;
    }
    let script = Script::read(alloc, net, script.as_bytes()).ok()?;
    let mut out = SureSink::new(alloc);
    let store = SureKeeper::new(Vec::new(alloc));
    let end = run_script(rt, alloc, net, &script, gate, &mut out, store);
    let text = Vec::from_slice(alloc, out.written()).ok()?;
    Some((end.status, text))
}
