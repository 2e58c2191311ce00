// `live NET JOURNAL` and `centre NET JOURNAL`.
ghost use Rattle.std.specs.Prelude.{◌≡◌, ℕ, List, None, Some, map, option_map};
ghost use Rattle.std.specs.String.{string_bytes};
ghost use Rattle.bt_outside.specs.Told.{Rose};
ghost use Rattle.bt_script.specs.declared.sites.Sites.{Sites};
ghost use Rattle.bt_net.specs.Network.{Net};
ghost use Rattle.bt_load.specs.Kinds.{network_file};
ghost use Rattle.bt_centre.specs.Talked.{Talked};
ghost use Rattle.bt_report.specs.Faults.{SaysFaultyWords};
ghost use Rattle.bt_report.specs.Input.{Input};
ghost use Rattle.bt_report.specs.Stored.{Stored};
ghost use Rattle.bt_load.specs.Files.{Spells};
ghost use Rattle.bt_cli.specs.Calls.{input_of, output_of, stored_of};
ghost use Rattle.bt_cli.specs.Complete.{IsDone, NothingFails, TellsChanges};
ghost use Rattle.bt_cli.specs.Live.{EndsLive, EndsOn, SaysOneOf, SaysStop, is_session, live_request, live_words, sites_asked};
ghost use Rattle.bt_cli.specs.Run.{End};

use bt_book::journals_tell_one_thing;
use bt_centre::{NoGate, SessionEnd, run_session, say_text};
use bt_demand::links_tell_demands;
use bt_load::load_network;
use bt_outside::{Files, Keeper, Talk};
use bt_report::{OUT_OF_MEMORY, Stop, faulty_words};
use bt_script::Sites;
use bt_talk::Clock;
use std::alloc::Global;
use std::sync::Wait;
use std::thread::Threads;

/// The files of the network and of the journal of a session; None where the words ask for none.
pub fn live_words(words: &[String]) -> Option<(&str, &str)>
    ensures asked { option_map (λ on. (on.0.now, on.1.now)) result ≡ live_words (map string_bytes words.now) }
{
    match words {
        [command, net, journal] => live_of(command, net, journal),
        _ => None,
    }
}

fn live_of<'a>(command: &str, net: &'a str, journal: &'a str) -> Option<(&'a str, &'a str)>
    ensures asked { option_map (λ on. (on.0.now, on.1.now)) result ≡ live_request command.now net.now journal.now }
{
    if !is_session(command) || net.is_empty() || journal.is_empty() {
        None
    } else {
        Some((net, journal))
    }
}

/// Whether the word is a command that holds a session.
fn is_session(command: &str) -> bool
    ensures { result ≡ is_session command.now }
{
    command == "live" || command == "centre"
}

/// Where the sites of the session are for which the words ask.
fn sites_asked(words: &[String]) -> Sites
    ensures { result ≡ sites_asked (map string_bytes words.now) }
{
    match words {
        [command, ..] if command.as_str() == "centre" => Sites::Apart,
        _ => Sites::Together,
    }
}

/// Holds the session that the words after the program's name ask for: hears line after line, plays each on the network in
/// the file, from the changes that the store tells, and answers it before the next is heard. The store keeps each change
/// that is made; where there is no session it comes back as it was.
///
/// The status is one of the table in `bt_report`, `meaning.rt`.
pub fn live_main<R: Threads + Wait + Sync, F: Files, T: Talk<K>, C: Clock, K: Keeper + Send>(
    rt: &R,
    alloc: Global,
    words: &[String],
    files: &mut F,
    talk: &mut T,
    clock: &mut C,
    store: K,
) -> SessionEnd<K>
    ensures ends { EndsLive (sites_asked (map string_bytes words.now)) (input_of F.told F.fault_count files.old files.new)
        (record {
          coming = T.coming talk.old;
          unheard_before = T.unheard talk.old;
          unheard_after = T.unheard talk.new;
          output = output_of T.told T.fault_count talk.old talk.new;
          turns_before = T.turns talk.old;
          turns_after = T.turns talk.new;
          moments_before = C.coming clock.old;
          moments_after = C.coming clock.new;
          store = record { told = K.told result.store; faults = K.fault_count result.store; crashes = K.crashes result.store };
        })
        (stored_of K.told K.fault_count store result.store) (live_words (map string_bytes words.now))
        (record { status = result.status; histories = result.histories; events = result.events.all }) }
{
    match live_words(words) {
        Some((net, _)) => {
            live_on(
                rt,
                alloc,
                net,
                sites_asked(words),
                files,
                talk,
                clock,
                store,
            )
        },
        None => {
            let status = say_faulty_words(alloc, talk, &store);
            SessionEnd::unbegun(alloc, status, store)
        },
    }
}

/// A session on the network in a file.
fn live_on<R: Threads + Wait + Sync, F: Files, T: Talk<K>, C: Clock, K: Keeper + Send>(
    rt: &R,
    alloc: Global,
    net: &str,
    sites: Sites,
    files: &mut F,
    talk: &mut T,
    clock: &mut C,
    store: K,
) -> SessionEnd<K>
    ensures ends { EndsOn sites (input_of F.told F.fault_count files.old files.new)
        (record {
          coming = T.coming talk.old;
          unheard_before = T.unheard talk.old;
          unheard_after = T.unheard talk.new;
          output = output_of T.told T.fault_count talk.old talk.new;
          turns_before = T.turns talk.old;
          turns_after = T.turns talk.new;
          moments_before = C.coming clock.old;
          moments_after = C.coming clock.new;
          store = record { told = K.told result.store; faults = K.fault_count result.store; crashes = K.crashes result.store };
        })
        (stored_of K.told K.fault_count store result.store) net.now (record { status = result.status; histories = result.histories; events = result.events.all }) }
{
    match load_network(alloc, files, net) {
        Ok(network) => {
            // This is there for what holds of each network: it is sound.
            let _beams = network.beam_count();
            run_session(rt, alloc, &network, sites, &NoGate, talk, clock, store)
        }
        Err(stop) => {
            let status = say_stop(alloc, stop, talk, &store);
            SessionEnd::unbegun(alloc, status, store)
        }
    }
}

/// Says that the words are no command's, and gives the status to end with.
fn say_faulty_words<T: Talk<K>, K: Keeper>(alloc: Global, talk: &mut T, store: &K) -> u8
    ensures said { SaysOneOf
        (record {
          coming = T.coming talk.old;
          unheard_before = T.unheard talk.old;
          unheard_after = T.unheard talk.new;
          output = output_of T.told T.fault_count talk.old talk.new;
          turns_before = T.turns talk.old;
          turns_after = T.turns talk.new;
          moments_before = None;
          moments_after = None;
          store = record { told = K.told store.now; faults = K.fault_count store.now; crashes = K.crashes store.now };
        })
        SaysFaultyWords result }
{
    match faulty_words(alloc) {
        Ok(report) => say_stop(alloc, Stop::Early(report), talk, store),
        Err(_) => OUT_OF_MEMORY,
    }
}

/// Says what kept the session from its start, and gives the status to end with.
fn say_stop<T: Talk<K>, K: Keeper>(alloc: Global, stop: Stop, talk: &mut T, store: &K) -> u8
    ensures said { SaysStop
        (record {
          coming = T.coming talk.old;
          unheard_before = T.unheard talk.old;
          unheard_after = T.unheard talk.new;
          output = output_of T.told T.fault_count talk.old talk.new;
          turns_before = T.turns talk.old;
          turns_after = T.turns talk.new;
          moments_before = None;
          moments_after = None;
          store = record { told = K.told store.now; faults = K.fault_count store.now; crashes = K.crashes store.now };
        })
        stop result }
{
    match stop {
        Stop::Early(report) => say_text(alloc, report.text.as_slice(), report.status, talk, store),
        Stop::OutOfMemory => OUT_OF_MEMORY,
    }
}

/// Where the words ask for a session, the network is told, within its limit and of its grammar, the store is told, within its
/// limit, and tells changes, and neither a file nor the input, the output nor the store fails in the call, the lines are
/// played and answered to the end of the input: the status is 0, or that of want of memory.
pub fn sound_sessions_are_served()
    ensures served { (sites : Sites) (input : Input) (talk : Talked) (stored : Stored) (net journal : List ℕ) (end : End)
        → NothingFails input talk.output stored → ¬ (Rose talk.unheard_before talk.unheard_after) → EndsLive sites input talk stored (Some (net, journal)) end
        → (network : Net) → Spells network_file input.told net network → TellsChanges network stored → IsDone end.status }
{
    links_tell_demands();
    journals_tell_one_thing();
}
