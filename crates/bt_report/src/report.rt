// What is to be printed, and the status that goes with it.
ghost use Rattle.bt_report.specs.declared.report.Stop.TheVariants.{OutOfMemory};
ghost use Rattle.std.specs.Prelude.{◌≡◌, map, IfOk};
ghost use Rattle.bt_words.specs.Lines.{word_bytes};
ghost use Rattle.bt_report.specs.Faults.{line_fault_words};
ghost use Rattle.bt_report.specs.Report.{ReportIs, StopIs};
ghost use Rattle.bt_report.specs.Outcome.{Says};

use crate::status::FAULTY_TEXT;
use bt_words::{Word, add_line};
use std::alloc::{AllocError, Global};

/// A text to print, its last newline included, and the status to end with.
#[derive(Drop)]
pub struct Report {
    pub text: Vec<u8>,
    pub status: u8,
}

impl Report {
    /// One line of these words, and the status to end with.
    pub fn says(
        alloc: Global,
        words: &[Word<'_>],
        status: u8,
    ) -> Result<Report, bt_frame::OutOfMemory>
        ensures report { IfOk result (ReportIs (Says (map word_bytes words.now) status)) }
    {
        let mut text = Vec::new(alloc);
        add_line(alloc, words, &mut text)?;
        Ok(Report { text, status })
    }
}

/// Why the work stops before its end.
#[derive(Drop)]
pub enum Stop {
    /// This report stands in the place of the command's own.
    Early(Report),
    /// Memory ran out.
    OutOfMemory,
}

impl Stop {
    /// One line of these words in the place of the command's own report, and the status to end with.
    pub fn says(alloc: Global, words: &[Word<'_>], status: u8) -> Stop
        ensures report { StopIs (Says (map word_bytes words.now) status) result }
    {
        match Report::says(alloc, words, status) {
            Ok(report) => Stop::Early(report),
            Err(_) => Stop::OutOfMemory,
        }
    }

    /// The report that names a text's fault of this code, with its line.
    pub fn names(alloc: Global, code: &str, line: u32) -> Stop
        ensures report { StopIs (Says (line_fault_words code.now line) FAULTY_TEXT) result }
    {
        let words = [Word::Text("fault"), Word::Text(code), Word::number(line)];
        Stop::says(alloc, &words, FAULTY_TEXT)
    }
}

impl From<AllocError> for Stop {
    ghost from_gives = { λ _ e. e ≡ OutOfMemory };

    fn from(_: AllocError) -> Self {
        Stop::OutOfMemory
    }
}

impl From<bt_frame::OutOfMemory> for Stop {
    ghost from_gives = { λ _ e. e ≡ OutOfMemory };

    fn from(_: bt_frame::OutOfMemory) -> Self {
        Stop::OutOfMemory
    }
}
