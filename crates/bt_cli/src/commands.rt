// The commands that ask for no store: what each command line comes to, and a public call for each name.
ghost use Rattle.std.specs.Prelude.{◌≡◌, Some, map, codes};
ghost use Rattle.std.specs.String.{string_bytes};
ghost use Rattle.bt_outside.specs.Told.{Rose};
ghost use Rattle.bt_report.specs.Printing.{CameTo};
ghost use Rattle.bt_cli.specs.Calls.{input_of, output_of};
ghost use Rattle.bt_cli.specs.Request.{asked, first_word, request_of};
ghost use Rattle.bt_cli.specs.Command.{no_store};
ghost use Rattle.bt_cli.specs.Top.{AsksNoStore, Reported, Reports};

use crate::capacity::tell_capacity;
use crate::carry::tell_carry;
use crate::check::check_files;
use crate::check_plan::check_plan_files;
use crate::command_line::{CommandLine, command_line_of};
use crate::edits::tell_edits;
use crate::json::tell_json;
use crate::look::tell_journal;
use crate::make::drawn_report;
use crate::modes::plan_modes;
use crate::plan::plan_files;
use crate::table::tell_traffic;
use crate::timing::time_files;
use crate::trans::plan_part;
use bt_outside::{Files, Sink};
use bt_report::{Report, Stop, faulty_words, print};
use std::alloc::Global;

/// Does what a command line asks for that asks for no store, reports on it, and gives the status to end with.
pub(crate) fn report<F: Files, O: Sink>(
    alloc: Global,
    line: CommandLine<'_>,
    files: &mut F,
    out: &mut O,
) -> u8
    requires { AsksNoStore (asked line) }
    ensures { Reported (input_of F.told F.fault_count files.old files.new) (output_of O.told O.fault_count out.old out.new) (asked line.entry) result }
{
    let outcome = answer(alloc, line, files);
    print(alloc, out, outcome)
}

/// What it comes to.
fn answer<F: Files>(alloc: Global, line: CommandLine<'_>, files: &mut F) -> Result<Report, Stop>
    requires { AsksNoStore (asked line) }
    ensures { CameTo (Reports (F.told files.old) (Rose (F.fault_count files.old) (F.fault_count files.new)) no_store (asked line.entry)) result }
{
    match line {
        CommandLine::Faulty => Ok(faulty_words(alloc)?),
        CommandLine::CheckModes { matrix, modes } => check_files(alloc, files, matrix, modes),
        CommandLine::CheckPlan { net, traffic, plan } => {
            check_plan_files(alloc, files, net, traffic, plan)
        }
        CommandLine::PlanModes { matrix } => plan_modes(alloc, files, matrix),
        CommandLine::PlanDemand { net, traffic } => plan_files(alloc, files, net, traffic),
        CommandLine::TimeSends {
            net,
            traffic,
            plan,
            delays,
        } => time_files(alloc, files, net, traffic, plan, delays),
        CommandLine::PlanPart {
            transponders,
            matrix,
        } => plan_part(alloc, files, transponders, matrix),
        CommandLine::TellCapacity { net, traffic } => tell_capacity(alloc, files, net, traffic),
        CommandLine::TellJournal { net, journal, look } => {
            tell_journal(alloc, files, net, journal, look)
        }
        CommandLine::TellEdits {
            net,
            journal,
            traffic,
            desk,
        } => tell_edits(alloc, files, net, journal, traffic, desk.as_desk_no()),
        CommandLine::TellCarry { net, journal, new } => {
            tell_carry(alloc, files, net, journal, new)
        }
        CommandLine::TellTraffic { net, table } => tell_traffic(alloc, files, net, table),
        CommandLine::TellJson { text } => tell_json(alloc, files, text),
        CommandLine::PlanDrawn { beams, seed } => drawn_report(alloc, beams, seed),
        CommandLine::RunScript { .. } | CommandLine::ReplayJournal { .. } => unreachable!(),
    }
}

/// Checks a switching schedule against a traffic matrix, or a burst time plan against a demand, and prints the
/// verdict.
///
/// The words are those after the program's name, of which the first is `check`. The status is 0 where the
/// verdict is good, and 9 where it is not; the refusals are those of the top call.
pub fn check_command<F: Files, O: Sink>(
    alloc: Global,
    words: &[String],
    files: &mut F,
    out: &mut O,
) -> u8
    requires first { first_word (map string_bytes words.now) ≡ Some (codes "check") }
    ensures reported { Reported (input_of F.told F.fault_count files.old files.new) (output_of O.told O.fault_count out.old out.new)
        (request_of (map string_bytes words.now)) result }
{
    report(alloc, command_line_of(words), files, out)
}

/// Prints a switching schedule of the least length that carries a traffic matrix.
///
/// The words are those after the program's name, of which the first is `modes`. The status is 0 where the
/// schedule is printed; the refusals are those of the top call.
pub fn modes_command<F: Files, O: Sink>(
    alloc: Global,
    words: &[String],
    files: &mut F,
    out: &mut O,
) -> u8
    requires first { first_word (map string_bytes words.now) ≡ Some (codes "modes") }
    ensures reported { Reported (input_of F.told F.fault_count files.old files.new) (output_of O.told O.fault_count out.old out.new)
        (request_of (map string_bytes words.now)) result }
{
    report(alloc, command_line_of(words), files, out)
}

/// Prints a switching schedule of the least length that carries a traffic matrix with so many transponders.
///
/// The words are those after the program's name, of which the first is `trans`. The status is 0 where the
/// schedule is printed; the refusals are those of the top call.
pub fn trans_command<F: Files, O: Sink>(
    alloc: Global,
    words: &[String],
    files: &mut F,
    out: &mut O,
) -> u8
    requires first { first_word (map string_bytes words.now) ≡ Some (codes "trans") }
    ensures reported { Reported (input_of F.told F.fault_count files.old files.new) (output_of O.told O.fault_count out.old out.new)
        (request_of (map string_bytes words.now)) result }
{
    report(alloc, command_line_of(words), files, out)
}

/// Prints a burst time plan of the least length that carries a demand.
///
/// The words are those after the program's name, of which the first is `plan`. The status is 0 where the plan is
/// printed; the refusals are those of the top call.
pub fn plan_command<F: Files, O: Sink>(
    alloc: Global,
    words: &[String],
    files: &mut F,
    out: &mut O,
) -> u8
    requires first { first_word (map string_bytes words.now) ≡ Some (codes "plan") }
    ensures reported { Reported (input_of F.told F.fault_count files.old files.new) (output_of O.told O.fault_count out.old out.new)
        (request_of (map string_bytes words.now)) result }
{
    report(alloc, command_line_of(words), files, out)
}

/// Prints when each burst of a plan is to be sent, so that it arrives in its slots by the delays of a file.
///
/// The words are those after the program's name, of which the first is `timing`. The status is 0 where the times are
/// printed, and 9 with the verdict where the plan is not good for the traffic; the refusals are those of the top call.
pub fn timing_command<F: Files, O: Sink>(
    alloc: Global,
    words: &[String],
    files: &mut F,
    out: &mut O,
) -> u8
    requires first { first_word (map string_bytes words.now) ≡ Some (codes "timing") }
    ensures reported { Reported (input_of F.told F.fault_count files.old files.new) (output_of O.told O.fault_count out.old out.new)
        (request_of (map string_bytes words.now)) result }
{
    report(alloc, command_line_of(words), files, out)
}
