// The parts of a script are played in order, and each is written when it is over.
ghost use Rattle.std.specs.Prelude.{◌≡◌, ◌≤◌, All, IfErr, IfOk, IsErrOf, OnOk};
ghost use Rattle.bt_outside.specs.Told.{GainsPrefix, Rose, gained};
ghost use Rattle.bt_script.specs.declared.sites.Sites.TheVariants.{Together};
ghost use Rattle.bt_script.specs.Named.{IsItemFor};
ghost use Rattle.bt_centre.specs.Progress.{IsBegun, ItemsWritten, PartsEnded, start_of};

use crate::RunEnd;
use crate::begin::add_begin;
use crate::fault::print_restart_fault;
use crate::play::play_item;
use crate::playing::Playing;
use bt_book::installed_plans_are_good;
use bt_net::Network;
use bt_outside::{Keeper, Sink, SinkFault};
use bt_report::unwritten;
use bt_round::Gate;
use bt_script::Item;
use bt_world::KeptEvents;
use std::alloc::Global;
use std::sync::Wait;
use std::thread::Threads;

/// Writes the first line of a run, then plays the parts of a script in order, and writes the text of each when it is over.
/// Gives the run, or its end where it stops before.
pub(crate) fn play_items<R: Threads + Wait + Sync, G: Gate + Sync, O: Sink, K: Keeper + Send>(
    rt: &R,
    alloc: Global,
    net: &Network,
    gate: &G,
    items: &[Item],
    mut playing: Playing<K, KeptEvents>,
    out: &mut O,
) -> Result<Playing<K, KeptEvents>, RunEnd<K>>
    requires begun { IsBegun net.now Together playing }
    requires terminals { All (IsItemFor net.now) items.now }
    ensures written { IfOk result (λ on. ItemsWritten net.now playing.book items.now on (O.told out.old) (O.told out.new)) }
    ensures ended { IfErr result (λ end. PartsEnded net.now items.now
        (record { before = O.told out.old; after = O.told out.new; faults_before = O.fault_count out.old; faults_after = O.fault_count out.new })
        playing.book (record { told = K.told end.store; faults = K.fault_count end.store; crashes = K.crashes end.store; histories = end.histories; events = end.events.items }) end.status) }
    ensures later { O.fault_count out.old ≤ O.fault_count out.new }
{
    installed_plans_are_good();
    if let Err(fault) = write_start(alloc, &playing, out) {
        return Err(playing.stop(rt, alloc).end(unwritten(fault)));
    }
    for item in items {
        match play_item(rt, alloc, net, gate, item, playing) {
            Ok((next, text)) => {
                playing = next;
                if let Err(fault) = out.write(alloc, text.as_slice()) {
                    return Err(playing.stop(rt, alloc).end(unwritten(fault)));
                }
            }
            Err((remains, fault)) => {
                return Err(remains.end(print_restart_fault(alloc, fault, out)));
            }
        }
    }
    Ok(playing)
}

/// Writes the first line of a run.
fn write_start<O: Sink, K: Keeper>(
    alloc: Global,
    playing: &Playing<K, KeptEvents>,
    out: &mut O,
) -> Result<(), SinkFault>
    ensures ok { OnOk result (O.told out.new ≡ gained (O.told out.old) (start_of playing.now)) }
    ensures failed { IsErrOf result SinkFault.Failed → GainsPrefix (O.told out.old) (start_of playing.now) (O.told out.new) }
    ensures cause { IsErrOf result SinkFault.Failed → Rose (O.fault_count out.old) (O.fault_count out.new) }
    ensures later { O.fault_count out.old ≤ O.fault_count out.new }
{
    let book = &playing.station.book;
    let mut text = Vec::new(alloc);
    let centre = &playing.station.centre;
    if add_begin(alloc, book, centre.mark(), centre.back(), &mut text).is_err() {
        return Err(SinkFault::OutOfMemory);
    }
    out.write(alloc, text.as_slice())
}
