// A station over a talk: each line is answered before the next is heard.
ghost use Rattle.std.specs.Prelude.{◌≡◌, ◌≤◌, IfErr, IfOk, IsErrOf, OnErr, OnOk};
ghost use Rattle.bt_outside.specs.Told.{GainsPrefix, Rose, gained};
ghost use Rattle.bt_outside.specs.Talk.{said, took};
ghost use Rattle.bt_station.specs.Going.{HasHeard};
ghost use Rattle.bt_station.specs.Lines.{input_fault_line};
ghost use Rattle.bt_station.specs.Ready.{IsReady};
ghost use Rattle.bt_station.specs.Station.{opening_of};
ghost use Rattle.bt_station.specs.Turns.{StationEnds};

use crate::say::input_fault_text;
use crate::station::Station;
use bt_frame::{MOST_ANSWERS, MOST_STATION_LINE_BYTES, OutOfMemory};
use bt_net::Network;
use bt_outside::{Keeper, SinkFault, SourceFault, Talk};
use bt_report::{DONE, OUT_OF_MEMORY, READ_FAILED, unwritten};
use std::alloc::Global;

/// Why no more lines are heard.
#[derive(Clone, Copy)]
pub enum InputEnd {
    /// The input came to its end, or as many lines were heard as are counted.
    Over,
    /// The input failed.
    Failed,
}

/// Says what a station says at its start, then hears line after line, and answers each before the next is heard. Gives the
/// status to end with.
pub(crate) fn hold_talk<T: Talk<K>, K: Keeper>(
    alloc: Global,
    net: &Network,
    station: Station,
    talk: &mut T,
    store: &K,
) -> u8
    requires ready { IsReady net.now station }
    ensures ends { StationEnds net.now
        (record {
          coming = T.coming talk.old;
          unheard_before = T.unheard talk.old;
          unheard_after = T.unheard talk.new;
          output = record { before = T.told talk.old; after = T.told talk.new; faults_before = T.fault_count talk.old; faults_after = T.fault_count talk.new };
          turns_before = T.turns talk.old;
          turns_after = T.turns talk.new;
          store = record { told = K.told store.now; faults = K.fault_count store.now; crashes = K.crashes store.now };
        })
        station result }
{
    match hear_lines(alloc, net, station, talk, store) {
        Ok(InputEnd::Over) => DONE,
        Ok(InputEnd::Failed) => match say_input_fault(alloc, talk, store) {
            Ok(()) => READ_FAILED,
            Err(fault) => unwritten(fault),
        },
        Err(status) => status,
    }
}

/// Hears and answers line after line. Gives why no more are heard, or the status to end with where that comes before.
fn hear_lines<T: Talk<K>, K: Keeper>(
    alloc: Global,
    net: &Network,
    mut station: Station,
    talk: &mut T,
    store: &K,
) -> Result<InputEnd, u8>
    requires ready { IsReady net.now station }
    ensures heard { IfOk result (λ end. HasHeard net.now
        (record {
          coming = T.coming talk.old;
          unheard_before = T.unheard talk.old;
          unheard_after = T.unheard talk.new;
          output = record { before = T.told talk.old; after = T.told talk.new; faults_before = T.fault_count talk.old; faults_after = T.fault_count talk.new };
          turns_before = T.turns talk.old;
          turns_after = T.turns talk.new;
          store = record { told = K.told store.now; faults = K.fault_count store.now; crashes = K.crashes store.now };
        })
        station end) }
    ensures ends { IfErr result (λ status. StationEnds net.now
        (record {
          coming = T.coming talk.old;
          unheard_before = T.unheard talk.old;
          unheard_after = T.unheard talk.new;
          output = record { before = T.told talk.old; after = T.told talk.new; faults_before = T.fault_count talk.old; faults_after = T.fault_count talk.new };
          turns_before = T.turns talk.old;
          turns_after = T.turns talk.new;
          store = record { told = K.told store.now; faults = K.fault_count store.now; crashes = K.crashes store.now };
        })
        station status) }
    ensures later { T.fault_count talk.old ≤ T.fault_count talk.new }
{
    if let Err(fault) = say_opening(alloc, net, &station, talk, store) {
        return Err(unwritten(fault));
    }
    for at in 1..MOST_ANSWERS {
        let came = match talk.hear(alloc, MOST_STATION_LINE_BYTES) {
            Ok(Some(came)) => came,
            Ok(None) => return Ok(InputEnd::Over),
            Err(SourceFault::Failed) => return Ok(InputEnd::Failed),
            Err(SourceFault::OutOfMemory) => return Err(OUT_OF_MEMORY),
        };
        let (behind, text) = match station.hear(alloc, net, at, &came) {
            Ok(answered) => answered,
            Err(OutOfMemory) => return Err(OUT_OF_MEMORY),
        };
        station = behind;
        if let Err(fault) = talk.say(alloc, text.as_slice(), store) {
            return Err(unwritten(fault));
        }
    }
    Ok(InputEnd::Over)
}

/// Says what a station says at its start.
fn say_opening<T: Talk<K>, K: Keeper>(
    alloc: Global,
    net: &Network,
    station: &Station,
    talk: &mut T,
    store: &K,
) -> Result<(), SinkFault>
    requires ready { IsReady net.now station.now }
    ensures ok { OnOk result (T.told talk.new ≡ gained (T.told talk.old) (opening_of station.now)) }
    ensures failed { IsErrOf result SinkFault.Failed → GainsPrefix (T.told talk.old) (opening_of station.now) (T.told talk.new) }
    ensures out_of_memory { IsErrOf result SinkFault.OutOfMemory → T.told talk.new ≡ T.told talk.old }
    ensures cause { IsErrOf result SinkFault.Failed → Rose (T.fault_count talk.old) (T.fault_count talk.new) }
    ensures later { T.fault_count talk.old ≤ T.fault_count talk.new }
    ensures turn { OnOk result (T.turns talk.new ≡ took (T.turns talk.old) (said (opening_of station.now)
        (record { told = K.told store.now; faults = K.fault_count store.now; crashes = K.crashes store.now }))) }
    ensures no_turn { OnErr result (T.turns talk.new ≡ T.turns talk.old) }
    ensures input { T.coming talk.new ≡ T.coming talk.old }
    ensures input_faults { T.unheard talk.new ≡ T.unheard talk.old }
{
    match station.opening(alloc, net) {
        Ok(text) => talk.say(alloc, text.as_slice(), store),
        Err(_) => Err(SinkFault::OutOfMemory),
    }
}

/// Says that the input failed.
fn say_input_fault<T: Talk<K>, K: Keeper>(
    alloc: Global,
    talk: &mut T,
    store: &K,
) -> Result<(), SinkFault>
    ensures ok { OnOk result (T.told talk.new ≡ gained (T.told talk.old) input_fault_line) }
    ensures failed { IsErrOf result SinkFault.Failed → GainsPrefix (T.told talk.old) input_fault_line (T.told talk.new) }
    ensures out_of_memory { IsErrOf result SinkFault.OutOfMemory → T.told talk.new ≡ T.told talk.old }
    ensures cause { IsErrOf result SinkFault.Failed → Rose (T.fault_count talk.old) (T.fault_count talk.new) }
    ensures later { T.fault_count talk.old ≤ T.fault_count talk.new }
    ensures turn { OnOk result (T.turns talk.new ≡ took (T.turns talk.old) (said input_fault_line
        (record { told = K.told store.now; faults = K.fault_count store.now; crashes = K.crashes store.now }))) }
    ensures no_turn { OnErr result (T.turns talk.new ≡ T.turns talk.old) }
    ensures input_faults { T.unheard talk.new ≡ T.unheard talk.old }
{
    match input_fault_text(alloc) {
        Ok(text) => talk.say(alloc, text.as_slice(), store),
        Err(_) => Err(SinkFault::OutOfMemory),
    }
}
