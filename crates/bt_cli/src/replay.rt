// `replay NET JOURNAL`.
ghost use Rattle.std.specs.Prelude.{◌≡◌, map, codes};
ghost use Rattle.std.specs.String.{string_bytes};
ghost use Rattle.bt_history.specs.Causes.{Follows};
ghost use Rattle.bt_report.specs.Printing.{CameTo};
ghost use Rattle.bt_cli.specs.Calls.{input_of, output_of, stored_of};
ghost use Rattle.bt_cli.specs.Replay.{EndsRecovery, EndsReplay, EndsReplayWords, PrintsState};
ghost use Rattle.bt_cli.specs.Request.{first_word, request_of};

use crate::command_line::{CommandLine, command_line_of};
use bt_book::{Book, demands_fit_the_frame};
use bt_centre::print_fault;
use bt_load::load_network;
use bt_net::Network;
use bt_outside::{Files, Keeper, Sink};
use bt_report::{DONE, Report, Stop, print, print_faulty_words};
use bt_timeline::replay_text;
use std::alloc::Global;

/// Prints what the journal in a store comes to: the last edition of the demand, the newest plan, the number of orders,
/// and the links of the demand. What stands behind the journal's last newline is cut from the
/// store, and the mark of the network is appended where no line is it and there is room for it.
///
/// The words are those after the program's name, of which the first is `replay`. The status is 0 where all that is
/// printed; the refusals are those of the top call. The store comes back with the status.
pub fn replay_command<F: Files, O: Sink, K: Keeper>(
    alloc: Global,
    words: &[String],
    files: &mut F,
    out: &mut O,
    store: K,
) -> (u8, K)
    requires first { first_word (map string_bytes words.now) ≡ Some (codes "replay") }
    ensures ends { EndsReplayWords (input_of F.told F.fault_count files.old files.new) (output_of O.told O.fault_count out.old out.new)
        (stored_of K.told K.fault_count store result.1) (request_of (map string_bytes words.now)) result.0 }
{
    match command_line_of(words) {
        CommandLine::ReplayJournal { net, .. } => replay_files(alloc, net, files, out, store),
        _ => (print_faulty_words(alloc, out), store),
    }
}

/// Replays the store over the network in a file.
pub(crate) fn replay_files<F: Files, O: Sink, K: Keeper>(
    alloc: Global,
    net: &str,
    files: &mut F,
    out: &mut O,
    store: K,
) -> (u8, K)
    ensures { EndsReplay (input_of F.told F.fault_count files.old files.new) (output_of O.told O.fault_count out.old out.new)
        (stored_of K.told K.fault_count store result.1) net.now result.0 }
{
    match load_network(alloc, files, net) {
        Ok(net) => replay_store(alloc, &net, out, store),
        Err(stop) => (print(alloc, out, Err(stop)), store),
    }
}

/// Replays the store over the network.
fn replay_store<O: Sink, K: Keeper>(alloc: Global, net: &Network, out: &mut O, store: K) -> (u8, K)
    ensures { EndsRecovery net.now (output_of O.told O.fault_count out.old out.new) (stored_of K.told K.fault_count store result.1) result.0 }
{
    // This is there for what holds of each network: it is sound.
    let _beams = net.beam_count();
    match Book::recover(alloc, net, store) {
        Ok(book) => {
            let status = print(alloc, out, state_report(alloc, net, &book));
            (status, book.into_parts().0)
        }
        Err((store, fault)) => (print_fault(alloc, fault, out), store),
    }
}

/// The text of what the changes of a book come to.
fn state_report<K: Keeper>(alloc: Global, net: &Network, book: &Book<K>) -> Result<Report, Stop>
    requires follow { Follows net.now book.now.state.changes }
    ensures { CameTo (PrintsState net.now book.now.state.changes) result }
{
    // This is there for what holds of each network: it is sound.
    let _beams = net.beam_count();
    demands_fit_the_frame();
    let (edition, newest, orders) = (book.edition(), book.newest(), book.order_count());
    let mut text = Vec::new(alloc);
    replay_text(
        alloc,
        net,
        edition,
        newest,
        orders,
        book.demand(),
        &mut text,
    )?;
    Ok(Report { text, status: DONE })
}
