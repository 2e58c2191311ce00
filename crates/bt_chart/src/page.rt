// `page NET JOURNAL [ANSWERS] [every SECONDS]`.
ghost use Rattle.std.specs.Prelude.{◌≤◌, codes, length};
ghost use Rattle.bt_frame.specs.declared.limits.TheConstants.{MOST_JOURNAL_BYTES};
ghost use Rattle.bt_outside.specs.Told.{Rose};
ghost use Rattle.bt_report.specs.Printing.{CameTo};
ghost use Rattle.bt_report.specs.Report.{StopIs};
ghost use Rattle.bt_load.specs.Kinds.{journal_file};
ghost use Rattle.bt_load.specs.Loaders.{Loads, file};
ghost use Rattle.bt_chart.specs.Pages.{AreShown, DrawsPage, NamesLine, ShowsAnswers, ShowsNothing, answered_files, both_files, page_files};

use crate::air_part::{Shown, nothing_shown, shown_of};
use crate::page_of_journal;
use bt_book::RecoverFault;
use bt_load::{load_journal, load_network};
use bt_net::Network;
use bt_outside::Files;
use bt_report::{DONE, FAULTY_JOURNAL, Report, Stop};
use bt_words::Word;
use std::alloc::Global;

/// The page of the journal in a file, for the network in another. With a number of seconds a browser loads it again each time that
/// so many have passed.
pub fn chart_page<F: Files>(
    alloc: Global,
    files: &mut F,
    net: &str,
    journal: &str,
    seconds: Option<u32>,
) -> Result<Report, Stop>
    ensures { CameTo (Loads (page_files net.now journal.now) (λ both. DrawsPage ShowsNothing seconds both.0 both.1) (F.told files.old) (Rose (F.fault_count files.old) (F.fault_count files.new))) result }
{
    let net = load_network(alloc, files, net)?;
    chart_journal(alloc, files, &net, journal, seconds)
}

fn chart_journal<F: Files>(
    alloc: Global,
    files: &mut F,
    net: &Network,
    journal: &str,
    seconds: Option<u32>,
) -> Result<Report, Stop>
    ensures { CameTo (Loads (file journal_file journal.now) (DrawsPage ShowsNothing seconds net.now) (F.told files.old) (Rose (F.fault_count files.old) (F.fault_count files.new))) result }
{
    let bytes = load_journal(alloc, files, journal)?;
    plain_report(alloc, net, bytes, seconds)
}

/// The same with what is shown of the output of a session or of a centre, in a third file.
pub fn chart_answered<F: Files>(
    alloc: Global,
    files: &mut F,
    net: &str,
    journal: &str,
    answers: &str,
    seconds: Option<u32>,
) -> Result<Report, Stop>
    ensures { CameTo (Loads (answered_files net.now journal.now answers.now) (λ all. DrawsPage ShowsAnswers seconds all.0 all.1.0) (F.told files.old) (Rose (F.fault_count files.old) (F.fault_count files.new))) result }
{
    let net = load_network(alloc, files, net)?;
    answered_journal(alloc, files, &net, journal, answers, seconds)
}

fn answered_journal<F: Files>(
    alloc: Global,
    files: &mut F,
    net: &Network,
    journal: &str,
    answers: &str,
    seconds: Option<u32>,
) -> Result<Report, Stop>
    ensures { CameTo (Loads (both_files journal.now answers.now) (λ both. DrawsPage ShowsAnswers seconds net.now both.0) (F.told files.old) (Rose (F.fault_count files.old) (F.fault_count files.new))) result }
{
    let bytes = load_journal(alloc, files, journal)?;
    chart_answers(alloc, files, net, bytes, answers, seconds)
}

fn chart_answers<F: Files>(
    alloc: Global,
    files: &mut F,
    net: &Network,
    bytes: Vec<u8>,
    answers: &str,
    seconds: Option<u32>,
) -> Result<Report, Stop>
    requires short { length bytes.items ≤ MOST_JOURNAL_BYTES }
    ensures { CameTo (Loads (file journal_file answers.now) (λ text. DrawsPage ShowsAnswers seconds net.now bytes.items) (F.told files.old) (Rose (F.fault_count files.old) (F.fault_count files.new))) result }
{
    let text = load_journal(alloc, files, answers)?;
    answered_report(alloc, net, bytes, &text, seconds)
}

/// The page of a journal's bytes alone.
fn plain_report(
    alloc: Global,
    net: &Network,
    bytes: Vec<u8>,
    seconds: Option<u32>,
) -> Result<Report, Stop>
    requires short { length bytes.items ≤ MOST_JOURNAL_BYTES }
    ensures { CameTo (DrawsPage ShowsNothing seconds net.now bytes.items) result }
{
    let shown = nothing_shown(alloc);
    page_report(alloc, net, bytes, &shown, seconds)
}

/// The same with what is shown of answers.
fn answered_report(
    alloc: Global,
    net: &Network,
    bytes: Vec<u8>,
    answers: &[u8],
    seconds: Option<u32>,
) -> Result<Report, Stop>
    requires short { length bytes.items ≤ MOST_JOURNAL_BYTES }
    ensures { CameTo (DrawsPage ShowsAnswers seconds net.now bytes.items) result }
{
    let shown = shown_of(alloc, net, answers)?;
    page_report(alloc, net, bytes, &shown, seconds)
}

/// The page of a journal's bytes, with what else is shown.
fn page_report(
    alloc: Global,
    net: &Network,
    bytes: Vec<u8>,
    shown: &Shown,
    seconds: Option<u32>,
) -> Result<Report, Stop>
    requires short { length bytes.items ≤ MOST_JOURNAL_BYTES }
    ensures { CameTo (DrawsPage (AreShown shown.now.air.items shown.now.ladder.items) seconds net.now bytes.items) result }
{
    // This is there for what holds of each network: it is sound.
    let _beams = net.beam_count();
    match page_of_journal(alloc, net, bytes, shown, seconds) {
        Ok(text) => Ok(Report { text, status: DONE }),
        Err(RecoverFault::J1 { line }) => Err(names_line(alloc, "J1", line)),
        Err(RecoverFault::J2 { line }) => Err(names_line(alloc, "J2", line)),
        Err(RecoverFault::OutOfMemory) => Err(Stop::OutOfMemory),
        Err(RecoverFault::StoreFault | RecoverFault::TooLong) => unreachable!(),
    }
}

/// The report that names a line of a journal, by this code.
fn names_line(alloc: Global, code: &str, line: u32) -> Stop
    ensures { StopIs (NamesLine code.now line) result }
{
    let words = [Word::Text("fault"), Word::Text(code), Word::number(line)];
    Stop::says(alloc, &words, FAULTY_JOURNAL)
}
