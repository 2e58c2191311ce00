// A text is printed, and the status says what came of it.
ghost use Rattle.std.specs.Prelude.{◌≡◌, ◌≤◌};
ghost use Rattle.bt_report.specs.declared.status.TheConstants.{OUT_OF_MEMORY, WRITE_FAILED};
ghost use Rattle.bt_report.specs.Output.{PrintsOrNot};
ghost use Rattle.bt_report.specs.Printing.{EndsWith};

use crate::report::{Report, Stop};
use crate::status::{OUT_OF_MEMORY, WRITE_FAILED};
use bt_outside::{Sink, SinkFault};
use std::alloc::Global;

/// Prints what the work came to, and gives the status to end with.
pub fn print<O: Sink>(alloc: Global, out: &mut O, outcome: Result<Report, Stop>) -> u8
    ensures ends { EndsWith (record { before = O.told out.old; after = O.told out.new; faults_before = O.fault_count out.old; faults_after = O.fault_count out.new }) outcome result }
{
    match outcome {
        Ok(report) | Err(Stop::Early(report)) => {
            print_text(alloc, report.text.as_slice(), report.status, out)
        }
        Err(Stop::OutOfMemory) => OUT_OF_MEMORY,
    }
}

/// Prints a text behind what was printed before, and gives the status to end with: this one where it was written whole.
pub fn print_text<O: Sink>(alloc: Global, text: &[u8], status: u8, out: &mut O) -> u8
    ensures printed { PrintsOrNot (record { before = O.told out.old; after = O.told out.new; faults_before = O.fault_count out.old; faults_after = O.fault_count out.new })
        text.now status result }
    ensures later { O.fault_count out.old ≤ O.fault_count out.new }
{
    match out.write(alloc, text) {
        Ok(()) => status,
        Err(fault) => unwritten(fault),
    }
}

/// The status to end with where a text was not written.
pub fn unwritten(fault: SinkFault) -> u8
    ensures memory { fault ≡ SinkFault.OutOfMemory → result ≡ OUT_OF_MEMORY }
    ensures failed { fault ≡ SinkFault.Failed → result ≡ WRITE_FAILED }
{
    match fault {
        SinkFault::OutOfMemory => OUT_OF_MEMORY,
        SinkFault::Failed => WRITE_FAILED,
    }
}
