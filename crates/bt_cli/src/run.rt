// `run NET SCRIPT JOURNAL`.
ghost use Rattle.std.specs.Prelude.{◌≤◌};
ghost use Rattle.bt_load.specs.Kinds.{script_file};
ghost use Rattle.bt_load.specs.Loaders.{file};
ghost use Rattle.bt_cli.specs.Calls.{input_of, output_of, stored_of};
ghost use Rattle.bt_cli.specs.Command.{EndsBy};
ghost use Rattle.bt_cli.specs.Run.{HasRun, script_files};

use crate::Ended;
use bt_centre::{NoGate, run_script};
use bt_load::{load_network, load_script};
use bt_net::Network;
use bt_outside::{Files, Keeper, Sink};
use bt_report::print;
use std::alloc::Global;
use std::sync::Wait;
use std::thread::Threads;

/// Runs the script in a file on the network in a file, from the changes that the store tells, and prints what was answered
/// and what happened on the air. The store keeps each change that is made; where no run is begun it comes back as it was.
pub fn run_files<R: Threads + Wait + Sync, F: Files, O: Sink, K: Keeper + Send>(
    rt: &R,
    alloc: Global,
    net: &str,
    script: &str,
    files: &mut F,
    out: &mut O,
    store: K,
) -> Ended<K>
    ensures ends { EndsBy (script_files net.now script.now) (λ both. HasRun both.0 both.1) (input_of F.told F.fault_count files.old files.new) (output_of O.told O.fault_count out.old out.new)
        (stored_of K.told K.fault_count store result.store)
        (record { status = result.status; histories = result.histories; events = result.events.items }) }
{
    match load_network(alloc, files, net) {
        Ok(net) => run_script_file(rt, alloc, &net, script, files, out, store),
        Err(stop) => Ended::without_run(alloc, print(alloc, out, Err(stop)), store),
    }
}

/// Runs the script in a file on a network.
fn run_script_file<R: Threads + Wait + Sync, F: Files, O: Sink, K: Keeper + Send>(
    rt: &R,
    alloc: Global,
    net: &Network,
    script: &str,
    files: &mut F,
    out: &mut O,
    store: K,
) -> Ended<K>
    ensures ends { EndsBy (file (script_file net.now) script.now) (HasRun net.now) (input_of F.told F.fault_count files.old files.new) (output_of O.told O.fault_count out.old out.new)
        (stored_of K.told K.fault_count store result.store)
        (record { status = result.status; histories = result.histories; events = result.events.items }) }
    ensures later { F.fault_count files.old ≤ F.fault_count files.new }
{
    // This is there for what holds of each network: it is sound.
    let _beams = net.beam_count();
    match load_script(alloc, files, script, net) {
        Ok(script) => Ended::of_run(run_script(rt, alloc, net, &script, &NoGate, out, store)),
        Err(stop) => Ended::without_run(alloc, print(alloc, out, Err(stop)), store),
    }
}
