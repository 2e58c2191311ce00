// How a talk is told that something failed, and what its status is.
ghost use Rattle.std.specs.Prelude.{◌≡◌, ◌≤◌, []};
ghost use Rattle.bt_timeline.specs.Timeline.{restart_line};
ghost use Rattle.bt_centre.specs.Answering.{SaysNamed};
ghost use Rattle.bt_centre.specs.Talked.{SaysOrNot};

use crate::fault::{fault_text, recover_status, restart_fault_text};
use bt_book::RecoverFault;
use bt_outside::{Keeper, Talk};
use bt_report::{OUT_OF_MEMORY, unwritten};
use std::alloc::Global;

/// Says a piece, and gives the status to end with: this one where it was said whole.
pub fn say_text<T: Talk<K>, K: Keeper>(
    alloc: Global,
    piece: &[u8],
    status: u8,
    talk: &mut T,
    store: &K,
) -> u8
    ensures said { SaysOrNot
        (record {
          coming = T.coming talk.old;
          unheard_before = T.unheard talk.old;
          unheard_after = T.unheard talk.new;
          output = record { before = T.told talk.old; after = T.told talk.new; faults_before = T.fault_count talk.old; faults_after = T.fault_count talk.new };
          turns_before = T.turns talk.old;
          turns_after = T.turns talk.new;
          moments_before = None;
          moments_after = None;
          store = record { told = K.told store.now; faults = K.fault_count store.now; crashes = K.crashes store.now };
        })
        piece.now status result }
    ensures later { T.fault_count talk.old ≤ T.fault_count talk.new }
    ensures input_faults { T.unheard talk.new ≡ T.unheard talk.old }
{
    match talk.say(alloc, piece, store) {
        Ok(()) => status,
        Err(fault) => unwritten(fault),
    }
}

/// Says the line of a recovery that failed, and gives the status to end with. Want of memory has no line.
pub(crate) fn say_fault<T: Talk<K>, K: Keeper>(
    alloc: Global,
    fault: RecoverFault,
    talk: &mut T,
    store: &K,
) -> u8
    ensures said { SaysNamed
        (record {
          coming = T.coming talk.old;
          unheard_before = T.unheard talk.old;
          unheard_after = T.unheard talk.new;
          output = record { before = T.told talk.old; after = T.told talk.new; faults_before = T.fault_count talk.old; faults_after = T.fault_count talk.new };
          turns_before = T.turns talk.old;
          turns_after = T.turns talk.new;
          moments_before = None;
          moments_after = None;
          store = record { told = K.told store.now; faults = K.fault_count store.now; crashes = K.crashes store.now };
        })
        [] fault result }
{
    match fault_text(alloc, fault) {
        Ok(text) => say_text(alloc, text.as_slice(), recover_status(fault), talk, store),
        Err(_) => OUT_OF_MEMORY,
    }
}

/// Says the line of a restart, and behind it that of the recovery that failed there; gives the status to end with.
pub(crate) fn say_restart_fault<T: Talk<K>, K: Keeper>(
    alloc: Global,
    fault: RecoverFault,
    talk: &mut T,
    store: &K,
) -> u8
    ensures said { SaysNamed
        (record {
          coming = T.coming talk.old;
          unheard_before = T.unheard talk.old;
          unheard_after = T.unheard talk.new;
          output = record { before = T.told talk.old; after = T.told talk.new; faults_before = T.fault_count talk.old; faults_after = T.fault_count talk.new };
          turns_before = T.turns talk.old;
          turns_after = T.turns talk.new;
          moments_before = None;
          moments_after = None;
          store = record { told = K.told store.now; faults = K.fault_count store.now; crashes = K.crashes store.now };
        })
        restart_line fault result }
    ensures later { T.fault_count talk.old ≤ T.fault_count talk.new }
{
    match restart_fault_text(alloc, fault) {
        Ok(text) => say_text(alloc, text.as_slice(), recover_status(fault), talk, store),
        Err(_) => OUT_OF_MEMORY,
    }
}
