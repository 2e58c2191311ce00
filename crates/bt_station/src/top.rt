// The top call.
ghost use Rattle.std.specs.Prelude.{◌≡◌, IfSome, map};
ghost use Rattle.std.specs.String.{string_bytes};
ghost use Rattle.bt_frame.specs.declared.limits.TheConstants.{LAST_MARK};
ghost use Rattle.bt_report.specs.Faults.{SaysFaultyWords};
ghost use Rattle.bt_station.specs.CommandLine.{IsSuperframe, if_wanted, named, wanted};
ghost use Rattle.bt_station.specs.Ready.{IsReady};
ghost use Rattle.bt_station.specs.Stops.{SaysStop};
ghost use Rattle.bt_station.specs.Talked.{EndsEarly};
ghost use Rattle.bt_station.specs.Top.{EndsAs, EndsOn, EndsStation, request_of, site_of, standby_of, station_of};

use crate::satellite::SatelliteAtWork;
use crate::standby::StandbyAtWork;
use crate::station::Station;
use crate::talk::hold_talk;
use crate::terminal::TerminalAtWork;
use bt_frame::{LAST_MARK, Mark};
use bt_load::load_network;
use bt_net::Network;
use bt_outside::{Files, Keeper, Talk};
use bt_report::{OUT_OF_MEMORY, Stop, faulty_words, unwritten};
use bt_script::number_in;
use std::alloc::Global;

/// A site of a network.
#[derive(Clone, Copy)]
pub(crate) enum SiteName<'a> {
    /// The satellite, from a superframe on.
    Satellite(u32),
    /// The terminal of a name.
    Terminal(&'a str),
    /// The standby.
    Standby,
}

/// The file of a network, and a site of it.
#[derive(Clone, Copy)]
pub(crate) struct Wanted<'a> {
    net: &'a str,
    site: SiteName<'a>,
}

/// Is the site that the words after the program's name ask for: says what it says at its start, hears line after line, and
/// answers each before the next is heard. The store is only asked what it tells.
///
/// The status is one of the table in `bt_report`, `meaning.rt`.
pub fn station_main<F: Files, T: Talk<K>, K: Keeper>(
    alloc: Global,
    words: &[String],
    files: &mut F,
    talk: &mut T,
    store: &K,
) -> u8
    ensures ends { EndsStation (record { told = F.told files.old; faults_before = F.fault_count files.old; faults_after = F.fault_count files.new })
        (record {
          coming = T.coming talk.old;
          unheard_before = T.unheard talk.old;
          unheard_after = T.unheard talk.new;
          output = record { before = T.told talk.old; after = T.told talk.new; faults_before = T.fault_count talk.old; faults_after = T.fault_count talk.new };
          turns_before = T.turns talk.old;
          turns_after = T.turns talk.new;
          store = record { told = K.told store.now; faults = K.fault_count store.now; crashes = K.crashes store.now };
        })
        (request_of (map string_bytes words.now)) result }
{
    match wanted_by(words) {
        Some(wanted) => work_on(alloc, wanted, files, talk, store),
        None => say_faulty_words(alloc, talk, store),
    }
}

/// What the words ask for.
fn wanted_by(words: &[String]) -> Option<Wanted<'_>>
    ensures wanted { if_wanted result ≡ request_of (map string_bytes words.now) }
    ensures mark { IfSome result (λ one. IsSuperframe one.site) }
{
    match words {
        [site, net, word] => site_of(site, net, word),
        [site, net] => standby_of(site, net),
        [] => None,
        [_] => None,
        [_, _, _, _, ..] => None,
    }
}

/// `satellite NET MARK` and `terminal NET NAME`.
fn site_of<'a>(site: &str, net: &'a str, word: &'a str) -> Option<Wanted<'a>>
    ensures wanted { if_wanted result ≡ site_of site.now net.now word.now }
    ensures mark { IfSome result (λ one. IsSuperframe one.site) }
{
    if site == "satellite" {
        let site = SiteName::Satellite(number_in(LAST_MARK, word.as_bytes())?);
        Some(Wanted { net, site })
    } else if site == "terminal" {
        let site = SiteName::Terminal(word);
        Some(Wanted { net, site })
    } else {
        None
    }
}

/// `standby NET`.
fn standby_of<'a>(site: &str, net: &'a str) -> Option<Wanted<'a>>
    ensures wanted { if_wanted result ≡ standby_of site.now net.now }
    ensures mark { IfSome result (λ one. IsSuperframe one.site) }
{
    if site == "standby" {
        let site = SiteName::Standby;
        Some(Wanted { net, site })
    } else {
        None
    }
}

/// A site of the network in a file.
fn work_on<F: Files, T: Talk<K>, K: Keeper>(
    alloc: Global,
    one: Wanted<'_>,
    files: &mut F,
    talk: &mut T,
    store: &K,
) -> u8
    requires mark { IsSuperframe one.site }
    ensures ends { EndsOn (record { told = F.told files.old; faults_before = F.fault_count files.old; faults_after = F.fault_count files.new })
        (record {
          coming = T.coming talk.old;
          unheard_before = T.unheard talk.old;
          unheard_after = T.unheard talk.new;
          output = record { before = T.told talk.old; after = T.told talk.new; faults_before = T.fault_count talk.old; faults_after = T.fault_count talk.new };
          turns_before = T.turns talk.old;
          turns_after = T.turns talk.new;
          store = record { told = K.told store.now; faults = K.fault_count store.now; crashes = K.crashes store.now };
        })
        (wanted one.entry) result }
{
    match load_network(alloc, files, one.net) {
        Ok(net) => work_as(alloc, &net, one.site, talk, store),
        Err(stop) => say_stop(alloc, stop, talk, store),
    }
}

/// A site of a network.
fn work_as<T: Talk<K>, K: Keeper>(
    alloc: Global,
    net: &Network,
    site: SiteName<'_>,
    talk: &mut T,
    store: &K,
) -> u8
    requires mark { IsSuperframe site }
    ensures ends { EndsAs
        (record {
          coming = T.coming talk.old;
          unheard_before = T.unheard talk.old;
          unheard_after = T.unheard talk.new;
          output = record { before = T.told talk.old; after = T.told talk.new; faults_before = T.fault_count talk.old; faults_after = T.fault_count talk.new };
          turns_before = T.turns talk.old;
          turns_after = T.turns talk.new;
          store = record { told = K.told store.now; faults = K.fault_count store.now; crashes = K.crashes store.now };
        })
        net.now (station_of net.now (named site.entry)) result }
{
    match station_of(alloc, net, site) {
        Some(station) => hold_talk(alloc, net, station, talk, store),
        None => say_faulty_words(alloc, talk, store),
    }
}

/// The site of that name at its start.
fn station_of(alloc: Global, net: &Network, site: SiteName<'_>) -> Option<Station>
    requires mark { IsSuperframe site }
    ensures station { result ≡ station_of net.now (named site.entry) }
    ensures ready { IfSome result (IsReady net.now) }
{
    match site {
        SiteName::Satellite(mark) => {
            let work = SatelliteAtWork::start(alloc, Mark(mark));
            Some(Station::Satellite(work))
        }
        SiteName::Terminal(name) => {
            let number = net.terminal_named(name.as_bytes())?;
            Some(Station::Terminal(TerminalAtWork::start(alloc, number)))
        }
        SiteName::Standby => Some(Station::Standby(StandbyAtWork::start())),
    }
}

/// Says that the words are no command's, and gives the status to end with.
fn say_faulty_words<T: Talk<K>, K: Keeper>(alloc: Global, talk: &mut T, store: &K) -> u8
    ensures said { EndsEarly
        (record {
          coming = T.coming talk.old;
          unheard_before = T.unheard talk.old;
          unheard_after = T.unheard talk.new;
          output = record { before = T.told talk.old; after = T.told talk.new; faults_before = T.fault_count talk.old; faults_after = T.fault_count talk.new };
          turns_before = T.turns talk.old;
          turns_after = T.turns talk.new;
          store = record { told = K.told store.now; faults = K.fault_count store.now; crashes = K.crashes store.now };
        })
        SaysFaultyWords result }
{
    match faulty_words(alloc) {
        Ok(report) => say_stop(alloc, Stop::Early(report), talk, store),
        Err(_) => OUT_OF_MEMORY,
    }
}

/// Says what kept the site from its start, and gives the status to end with.
fn say_stop<T: Talk<K>, K: Keeper>(alloc: Global, stop: Stop, talk: &mut T, store: &K) -> u8
    ensures said { SaysStop
        (record {
          coming = T.coming talk.old;
          unheard_before = T.unheard talk.old;
          unheard_after = T.unheard talk.new;
          output = record { before = T.told talk.old; after = T.told talk.new; faults_before = T.fault_count talk.old; faults_after = T.fault_count talk.new };
          turns_before = T.turns talk.old;
          turns_after = T.turns talk.new;
          store = record { told = K.told store.now; faults = K.fault_count store.now; crashes = K.crashes store.now };
        })
        stop result }
{
    match stop {
        Stop::Early(report) => match talk.say(alloc, report.text.as_slice(), store) {
            Ok(()) => report.status,
            Err(fault) => unwritten(fault),
        },
        Stop::OutOfMemory => OUT_OF_MEMORY,
    }
}
