// The report to words that are none of the table.
ghost use Rattle.std.specs.Prelude.{IfOk};
ghost use Rattle.bt_report.specs.Report.{ReportIs};
ghost use Rattle.bt_report.specs.Outcome.{PrintsOneOf};
ghost use Rattle.bt_report.specs.Faults.{SaysFaultyWords};

use crate::printing::print;
use crate::report::{Report, Stop};
use crate::status::FAULTY_WORDS;
use bt_frame::OutOfMemory;
use bt_outside::Sink;
use bt_words::Word;
use std::alloc::Global;

/// The report to words that are no command's.
pub fn faulty_words(alloc: Global) -> Result<Report, OutOfMemory>
    ensures report { IfOk result (ReportIs SaysFaultyWords) }
{
    let words = [Word::Text("fault"), Word::Text("words")];
    Report::says(alloc, &words, FAULTY_WORDS)
}

/// Prints that report, and gives the status to end with.
pub fn print_faulty_words<O: Sink>(alloc: Global, out: &mut O) -> u8
    ensures printed { PrintsOneOf (record { before = O.told out.old; after = O.told out.new; faults_before = O.fault_count out.old; faults_after = O.fault_count out.new })
        SaysFaultyWords result }
{
    let outcome = faulty_words(alloc).map_err(Stop::from);
    print(alloc, out, outcome)
}
