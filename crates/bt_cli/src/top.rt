// The top call.
ghost use Rattle.std.specs.Prelude.{◌≡◌, map, []};
ghost use Rattle.std.specs.String.{string_bytes};
ghost use Rattle.bt_cli.specs.Calls.{input_of, output_of, stored_of};
ghost use Rattle.bt_cli.specs.Request.{asked, request_of};
ghost use Rattle.bt_cli.specs.Top.{Ends};

use crate::command_line::{CommandLine, command_line_of};
use crate::commands::report;
use crate::replay::replay_files;
use crate::run::run_files;
use bt_air::Event;
use bt_centre::{Histories, RunEnd};
use bt_outside::{Files, Keeper, Sink};
use std::alloc::Global;
use std::sync::Wait;
use std::thread::Threads;

/// What the top call gives back.
#[derive(Drop)]
pub struct Ended<K> {
    /// The status with which the program ends.
    pub status: u8,
    /// The store, as the command left it.
    pub store: K,
    /// The histories of a run, one for each start of the centre; none where no run was begun.
    pub histories: Histories,
    /// What happened on the air in a run, from the first on; nothing where no run was begun.
    pub events: Vec<Event>,
}

impl<K> Ended<K> {
    /// The end of a run.
    pub(crate) fn of_run(end: RunEnd<K>) -> Ended<K>
        ensures status { result.status ≡ end.status }
        ensures store { result.store ≡ end.store }
        ensures histories { result.histories ≡ end.histories }
        ensures events { result.events.items ≡ end.events.items }
    {
        Ended {
            status: end.status,
            store: end.store,
            histories: end.histories,
            events: end.events,
        }
    }

    /// The end where no run was begun.
    pub(crate) fn without_run(alloc: Global, status: u8, store: K) -> Ended<K>
        ensures status { result.status ≡ status }
        ensures store { result.store ≡ store }
        ensures histories { result.histories ≡ [] }
        ensures events { result.events.items ≡ [] }
    {
        Ended {
            status,
            store,
            histories: Histories::none(alloc),
            events: Vec::new(alloc),
        }
    }
}

/// Does what the words after the program's name ask for. A run and a replay read the store; any other command hands it back
/// as it was.
///
/// The status is one of the table in `bt_report`, `meaning.rt`.
pub fn centre_main<R: Threads + Wait + Sync, F: Files, O: Sink, K: Keeper + Send>(
    rt: &R,
    alloc: Global,
    words: &[String],
    files: &mut F,
    out: &mut O,
    store: K,
) -> Ended<K>
    ensures ends { Ends (input_of F.told F.fault_count files.old files.new) (output_of O.told O.fault_count out.old out.new)
        (stored_of K.told K.fault_count store result.store) (request_of (map string_bytes words.now))
        (record { status = result.status; histories = result.histories; events = result.events.items }) }
{
    serve(rt, alloc, command_line_of(words), files, out, store)
}

/// Does what a command line asks for.
fn serve<R: Threads + Wait + Sync, F: Files, O: Sink, K: Keeper + Send>(
    rt: &R,
    alloc: Global,
    line: CommandLine<'_>,
    files: &mut F,
    out: &mut O,
    store: K,
) -> Ended<K>
    ensures ends { Ends (input_of F.told F.fault_count files.old files.new) (output_of O.told O.fault_count out.old out.new)
        (stored_of K.told K.fault_count store result.store) (asked line.entry)
        (record { status = result.status; histories = result.histories; events = result.events.items }) }
{
    match line {
        CommandLine::RunScript { net, script, .. } => {
            run_files(rt, alloc, net, script, files, out, store)
        }
        CommandLine::ReplayJournal { net, .. } => {
            let (status, store) = replay_files(alloc, net, files, out, store);
            Ended::without_run(alloc, status, store)
        }
        _ => Ended::without_run(alloc, report(alloc, line, files, out), store),
    }
}
