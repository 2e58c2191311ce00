// Looks at a journal: `state NET JOURNAL`, `demand NET JOURNAL [EDITION]`, `installed NET JOURNAL [EDITION]`, `compact NET JOURNAL`
// and `metrics NET JOURNAL`.
ghost use Rattle.std.specs.Prelude.{◌≡◌, ◌≤◌, IfErr, IfOk, length, option_map};
ghost use Rattle.bt_frame.specs.declared.limits.TheConstants.{MOST_JOURNAL_BYTES};
ghost use Rattle.bt_outside.specs.Told.{Rose};
ghost use Rattle.bt_look.specs.Look.{IsLookFault};
ghost use Rattle.bt_report.specs.declared.status.TheConstants.{FAULTY_JOURNAL};
ghost use Rattle.bt_report.specs.Faults.{line_fault_words};
ghost use Rattle.bt_report.specs.Outcome.{Says};
ghost use Rattle.bt_report.specs.Printing.{CameTo};
ghost use Rattle.bt_report.specs.Report.{StopIs};
ghost use Rattle.bt_load.specs.Loaders.{Loads};
ghost use Rattle.bt_cli.specs.Looks.{IsOfLines, PrintsLook, TellsLook, journal_files};
ghost use Rattle.bt_cli.specs.Replay.{NamesRecoverFault};

use bt_book::RecoverFault;
use bt_export::metrics_of_journal;
use bt_frame::EditionNo;
use bt_load::{load_journal, load_network};
use bt_look::{compact_journal, demand_of_journal, installed_of_journal, state_text};
use bt_net::Network;
use bt_outside::Files;
use bt_report::{DONE, FAULTY_JOURNAL, Report, Stop, faulty_words};
use bt_words::Word;
use std::alloc::Global;

/// What is told of a journal.
#[derive(Clone, Copy)]
pub enum Look {
    /// `state`: how far it has come, and how full it is.
    State,
    /// `demand`: the links of the demand of an edition, of the last without a number.
    Demand(Option<EditionNo>),
    /// `installed`: the installed plan of an edition, the newest without a number.
    Installed(Option<EditionNo>),
    /// `compact`: the journal with the fewest edits of its demand.
    Compact,
    /// `metrics`: its state, as gauges.
    Metrics,
}

/// What is told of the journal in a file on the network in another.
pub fn tell_journal<F: Files>(
    alloc: Global,
    files: &mut F,
    net: &str,
    journal: &str,
    look: Look,
) -> Result<Report, Stop>
    ensures { CameTo (Loads (journal_files net.now journal.now) (λ both. PrintsLook look both.0 both.1) (F.told files.old) (Rose (F.fault_count files.old) (F.fault_count files.new))) result }
{
    let looked = load_looked(alloc, files, net, journal)?;
    look_report(alloc, looked, look)
}

/// A network, and the bytes of a journal.
#[derive(Drop)]
pub(crate) struct Looked {
    pub net: Network,
    pub bytes: Vec<u8>,
}

/// The network and the bytes of the journal in two files.
pub(crate) fn load_looked<F: Files>(
    alloc: Global,
    files: &mut F,
    net: &str,
    journal: &str,
) -> Result<Looked, Stop>
    ensures loaded { IfOk result (λ looked. (journal_files net.now journal.now).gives (F.told files.old) (looked.net, looked.bytes.items)) }
    ensures short { IfOk result (λ looked. length looked.bytes.items ≤ MOST_JOURNAL_BYTES) }
    ensures stops { IfErr result (StopIs ((journal_files net.now journal.now).stops (F.told files.old)
        (Rose (F.fault_count files.old) (F.fault_count files.new)))) }
    ensures later { F.fault_count files.old ≤ F.fault_count files.new }
    ensures same { F.told files.new ≡ F.told files.old }
{
    let net = load_network(alloc, files, net)?;
    let bytes = load_journal(alloc, files, journal)?;
    Ok(Looked { net, bytes })
}

/// The report of a look, where both are at hand.
fn look_report(alloc: Global, looked: Looked, look: Look) -> Result<Report, Stop>
    requires short { length looked.bytes.items ≤ MOST_JOURNAL_BYTES }
    ensures { CameTo (PrintsLook look looked.net looked.bytes.items) result }
{
    let Looked { net, bytes } = looked;
    // This is there for what holds of each network: it is sound.
    let _beams = net.beam_count();
    match look_text(alloc, &net, bytes, look) {
        Ok(Some(text)) => Ok(Report { text, status: DONE }),
        Ok(None) => Ok(faulty_words(alloc)?),
        Err(fault) => Err(fault_stop(alloc, fault)),
    }
}

/// The text of a look; none where the journal does not have what is asked for.
fn look_text(
    alloc: Global,
    net: &Network,
    bytes: Vec<u8>,
    look: Look,
) -> Result<Option<Vec<u8>>, RecoverFault>
    ensures text { IfOk result (λ text. TellsLook look net.now bytes.items (option_map (λ t. t.items) text)) }
    ensures fault { IfErr result (IsLookFault net.now bytes.items) }
{
    match look {
        Look::State => Ok(Some(state_text(alloc, net, bytes)?)),
        Look::Demand(edition) => demand_of_journal(alloc, net, bytes, edition),
        Look::Installed(edition) => installed_of_journal(alloc, net, bytes, edition),
        Look::Compact => Ok(Some(compact_journal(alloc, net, bytes)?)),
        Look::Metrics => Ok(Some(metrics_of_journal(alloc, net, bytes)?)),
    }
}

/// The report that names the line at fault of a journal.
pub(crate) fn fault_stop(alloc: Global, fault: RecoverFault) -> Stop
    requires lines { IsOfLines fault }
    ensures stop { StopIs (NamesRecoverFault fault) result }
{
    match fault {
        RecoverFault::J1 { line } => names_line(alloc, "J1", line),
        RecoverFault::J2 { line } => names_line(alloc, "J2", line),
        RecoverFault::OutOfMemory => Stop::OutOfMemory,
        RecoverFault::StoreFault | RecoverFault::TooLong => unreachable!(),
    }
}

/// The report that names a line of a journal, by this code.
fn names_line(alloc: Global, code: &str, line: u32) -> Stop
    ensures stop { StopIs (Says (line_fault_words code.now line) FAULTY_JOURNAL) result }
{
    let words = [Word::Text("fault"), Word::Text(code), Word::number(line)];
    Stop::says(alloc, &words, FAULTY_JOURNAL)
}
