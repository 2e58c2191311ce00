// The line and the status of a recovery that failed.
ghost use Rattle.std.specs.Prelude.{◌≡◌, ◌≢◌, ◌≤◌, ◌++◌, [], IfOk, OnOk};
ghost use Rattle.bt_timeline.specs.Timeline.{restart_line};
ghost use Rattle.bt_centre.specs.RecoverFaults.{PrintsNamed, recover_line, recover_status};

use bt_book::RecoverFault;
use bt_frame::OutOfMemory;
use bt_outside::Sink;
use bt_report::{FAULTY_JOURNAL, OUT_OF_MEMORY, STORE_FAILED, TOO_LONG, print_text};
use bt_timeline::restart_text;
use bt_words::{Word, add_line};
use std::alloc::Global;

/// Prints the line of a recovery that failed, and gives the status to end with. Want of memory has no line.
pub fn print_fault<O: Sink>(alloc: Global, fault: RecoverFault, out: &mut O) -> u8
    ensures printed { PrintsNamed (record { before = O.told out.old; after = O.told out.new; faults_before = O.fault_count out.old; faults_after = O.fault_count out.new })
        [] fault result }
    ensures later { O.fault_count out.old ≤ O.fault_count out.new }
{
    match fault_text(alloc, fault) {
        Ok(text) => print_text(alloc, text.as_slice(), recover_status(fault), out),
        Err(_) => OUT_OF_MEMORY,
    }
}

/// Prints the line of a restart, and behind it that of the recovery that failed there; gives the status to end with.
pub(crate) fn print_restart_fault<O: Sink>(alloc: Global, fault: RecoverFault, out: &mut O) -> u8
    ensures printed { PrintsNamed (record { before = O.told out.old; after = O.told out.new; faults_before = O.fault_count out.old; faults_after = O.fault_count out.new })
        restart_line fault result }
    ensures later { O.fault_count out.old ≤ O.fault_count out.new }
{
    match restart_fault_text(alloc, fault) {
        Ok(text) => print_text(alloc, text.as_slice(), recover_status(fault), out),
        Err(_) => OUT_OF_MEMORY,
    }
}

/// The line of a recovery that failed. Want of memory has none.
pub(crate) fn fault_text(alloc: Global, fault: RecoverFault) -> Result<Vec<u8>, OutOfMemory>
    ensures named { OnOk result (fault ≢ RecoverFault.OutOfMemory) }
    ensures text { IfOk result (λ text. text.items ≡ recover_line fault) }
{
    with_fault(alloc, Vec::new(alloc), fault)
}

/// The line of a restart, and behind it that of the recovery that failed there.
pub(crate) fn restart_fault_text(alloc: Global, fault: RecoverFault) -> Result<Vec<u8>, OutOfMemory>
    ensures named { OnOk result (fault ≢ RecoverFault.OutOfMemory) }
    ensures text { IfOk result (λ text. text.items ≡ restart_line ++ recover_line fault) }
{
    let mut text = Vec::new(alloc);
    restart_text(alloc, &mut text)?;
    with_fault(alloc, text, fault)
}

/// A text and the line of a fault behind it.
fn with_fault(alloc: Global, mut text: Vec<u8>, fault: RecoverFault) -> Result<Vec<u8>, OutOfMemory>
    ensures named { OnOk result (fault ≢ RecoverFault.OutOfMemory) }
    ensures text { IfOk result (λ all. all.items ≡ text.items ++ recover_line fault) }
{
    if fault == RecoverFault::OutOfMemory {
        return Err(OutOfMemory);
    }
    add_fault(alloc, fault, &mut text)?;
    Ok(text)
}

/// Appends the line of a recovery that failed, which is not for want of memory.
fn add_fault(alloc: Global, fault: RecoverFault, text: &mut Vec<u8>) -> Result<(), OutOfMemory>
    ensures { OnOk result ((fault ≢ RecoverFault.OutOfMemory) → text.new.items ≡ text.old.items ++ recover_line fault) }
{
    let name = Word::Text("fault");
    match fault {
        RecoverFault::J1 { line } => add_line(
            alloc,
            &[name, Word::Text("J1"), Word::number(line)],
            text,
        ),
        RecoverFault::J2 { line } => add_line(
            alloc,
            &[name, Word::Text("J2"), Word::number(line)],
            text,
        ),
        RecoverFault::StoreFault => add_line(alloc, &[name, Word::Text("store")], text),
        RecoverFault::TooLong => {
            let words = [
                name,
                Word::Text("too"),
                Word::Text("long"),
                Word::Text("store"),
            ];
            add_line(alloc, &words, text)
        }
        RecoverFault::OutOfMemory => Ok(()),
    }
}

/// The status of a recovery that failed.
pub(crate) fn recover_status(fault: RecoverFault) -> u8
    ensures { result ≡ recover_status fault }
{
    match fault {
        RecoverFault::J1 { .. } | RecoverFault::J2 { .. } => FAULTY_JOURNAL,
        RecoverFault::StoreFault => STORE_FAILED,
        RecoverFault::TooLong => TOO_LONG,
        RecoverFault::OutOfMemory => OUT_OF_MEMORY,
    }
}
