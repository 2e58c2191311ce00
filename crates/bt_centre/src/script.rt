// The run of a script from its start to its last line.
ghost use Rattle.std.specs.Prelude.{◌≡◌, ◌≤◌, All, IsErrOf, OnOk};
ghost use Rattle.bt_outside.specs.Told.{GainsPrefix, Rose, gained};
ghost use Rattle.bt_script.specs.declared.sites.Sites.TheVariants.{Together};
ghost use Rattle.bt_script.specs.Named.{IsItemFor};
ghost use Rattle.bt_centre.specs.Lines.{total_of};
ghost use Rattle.bt_centre.specs.Progress.{IsBegun, PartsEnded};
ghost use Rattle.bt_centre.specs.Run.{RunsTo, entries_of, status_after};

use crate::fault::print_fault;
use crate::open::open;
use crate::playing::Playing;
use crate::run::play_items;
use crate::total::{add_total, has_lost};
use crate::{Histories, History};
use bt_air::Event;
use bt_book::installed_plans_are_good;
use bt_net::Network;
use bt_outside::{Keeper, Sink, SinkFault};
use bt_report::{DONE, STORE_FAILED, unwritten};
use bt_round::Gate;
use bt_script::{Script, Sites};
use bt_world::{KeptEvents, frames_are_safe};
use std::alloc::Global;
use std::sync::Wait;
use std::thread::Threads;

/// What a run gives back.
#[derive(Drop)]
pub struct RunEnd<K> {
    /// 0 where the script was run and printed, 1 where memory ran out, 6 where the sink failed, 7 where the store failed, 8
    /// where its journal is faulty, 10 where it holds more than is read.
    pub status: u8,
    /// The store, as the run left it.
    pub store: K,
    /// What was asked and answered, for each start of the centre.
    pub histories: Histories,
    /// What happened on the air, from the first on.
    pub events: Vec<Event>,
}

/// Runs a script on its network, whose satellite and terminals are simulated, from the changes that the store tells, and prints what was answered and what happened:
/// each part of the script when it is over. The store keeps each change that is made.
///
/// The workers of a round, which are its desks, its planner and the centre's, go side by side: where more than one has
/// lines, each is given a thread while threads can be made. Whoever calls the book tells the gate before the call and
/// after its answer, on the thread of the call.
pub fn run_script<R: Threads + Wait + Sync, G: Gate + Sync, O: Sink, K: Keeper + Send>(
    rt: &R,
    alloc: Global,
    net: &Network,
    script: &Script,
    gate: &G,
    out: &mut O,
    store: K,
) -> RunEnd<K>
    requires terminals { All (IsItemFor net.now) script.now.items }
    ensures ends { RunsTo net.now script.now
        (record { before = O.told out.old; after = O.told out.new; faults_before = O.fault_count out.old; faults_after = O.fault_count out.new })
        (record { before = K.told store; after = K.told result.store; faults_before = K.fault_count store; faults_after = K.fault_count result.store })
        result.status result.histories result.events.items }
{
    frames_are_safe();
    match open(rt, alloc, net, Sites::Together, store) {
        Ok(playing) => run_from(rt, alloc, net, script, gate, playing, out),
        Err((store, fault)) => RunEnd {
            status: print_fault(alloc, fault, out),
            store,
            histories: Histories::none(alloc),
            events: Vec::new(alloc),
        },
    }
}

/// Runs a script from its first line on.
fn run_from<R: Threads + Wait + Sync, G: Gate + Sync, O: Sink, K: Keeper + Send>(
    rt: &R,
    alloc: Global,
    net: &Network,
    script: &Script,
    gate: &G,
    playing: Playing<K, KeptEvents>,
    out: &mut O,
) -> RunEnd<K>
    requires begun { IsBegun net.now Together playing }
    requires terminals { All (IsItemFor net.now) script.now.items }
    ensures ended { PartsEnded net.now script.now.items
        (record { before = O.told out.old; after = O.told out.new; faults_before = O.fault_count out.old; faults_after = O.fault_count out.new })
        playing.book (record { told = K.told result.store; faults = K.fault_count result.store; crashes = K.crashes result.store; histories = result.histories; events = result.events.items }) result.status }
{
    installed_plans_are_good();
    match play_items(rt, alloc, net, gate, script.items.as_slice(), playing, out) {
        Ok(playing) => {
            let remains = playing.stop(rt, alloc);
            match write_total(alloc, remains.histories.as_slice(), out) {
                Ok(()) => {
                    let status = status_after(remains.histories.as_slice());
                    remains.end(status)
                }
                Err(fault) => remains.end(unwritten(fault)),
            }
        }
        Err(end) => end,
    }
}

/// Writes the last line of a run with these histories.
fn write_total<O: Sink>(alloc: Global, histories: &[History], out: &mut O) -> Result<(), SinkFault>
    ensures ok { OnOk result (O.told out.new ≡ gained (O.told out.old) (total_of (entries_of histories.now))) }
    ensures failed { IsErrOf result SinkFault.Failed → GainsPrefix (O.told out.old) (total_of (entries_of histories.now)) (O.told out.new) }
    ensures cause { IsErrOf result SinkFault.Failed → Rose (O.fault_count out.old) (O.fault_count out.new) }
    ensures later { O.fault_count out.old ≤ O.fault_count out.new }
{
    let mut text = Vec::new(alloc);
    if add_total(alloc, histories, &mut text).is_err() {
        return Err(SinkFault::OutOfMemory);
    }
    out.write(alloc, text.as_slice())
}

/// The status of a run with these histories that came to its end.
fn status_after(histories: &[History]) -> u8
    ensures { result ≡ status_after histories.now }
{
    if has_lost(histories) {
        STORE_FAILED
    } else {
        DONE
    }
}
