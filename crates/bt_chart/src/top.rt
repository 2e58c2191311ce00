// The top call.
ghost use Rattle.std.specs.Prelude.{map};
ghost use Rattle.std.specs.String.{string_bytes};
ghost use Rattle.bt_outside.specs.Told.{Rose};
ghost use Rattle.bt_report.specs.Printing.{CameTo};
ghost use Rattle.bt_chart.specs.Request.{chart_request_of};
ghost use Rattle.bt_chart.specs.Top.{Charted, Charts};

use crate::command_line::{CommandLine, command_line_of};
use crate::page::{chart_answered, chart_page};
use crate::plan::chart_plan;
use crate::run::{Drawing, chart_run};
use bt_outside::{Files, Sink};
use bt_report::{Report, Stop, faulty_words, print};
use std::alloc::Global;

/// Does what the words after the program's name ask for, and gives the status to end with.
///
/// The status is one of the table in `bt_report`, `meaning.rt`.
pub fn chart_main<F: Files, O: Sink>(
    alloc: Global,
    words: &[String],
    files: &mut F,
    out: &mut O,
) -> u8
    ensures ends { Charted (record { told = F.told files.old; faults_before = F.fault_count files.old; faults_after = F.fault_count files.new })
        (record { before = O.told out.old; after = O.told out.new; faults_before = O.fault_count out.old; faults_after = O.fault_count out.new })
        (chart_request_of (map string_bytes words.now)) result }
{
    let outcome = chart_words(alloc, words, files);
    print(alloc, out, outcome)
}

fn chart_words<F: Files>(alloc: Global, words: &[String], files: &mut F) -> Result<Report, Stop>
    ensures { CameTo (Charts (F.told files.old) (Rose (F.fault_count files.old) (F.fault_count files.new)) (chart_request_of (map string_bytes words.now))) result }
{
    match command_line_of(words) {
        CommandLine::Faulty => Ok(faulty_words(alloc)?),
        CommandLine::ChartPlan { net, plan, words } => {
            chart_plan(alloc, files, net, plan, words)
        }
        CommandLine::ChartRun {
            net,
            output,
            view,
            names,
        } => chart_run(alloc, files, Drawing::Rows, net, output, view, names),
        CommandLine::ChartLadder {
            net,
            output,
            view,
            names,
        } => chart_run(alloc, files, Drawing::Ladder, net, output, view, names),
        CommandLine::ChartPage {
            net,
            journal,
            seconds,
        } => chart_page(alloc, files, net, journal, seconds),
        CommandLine::ChartAnswered {
            net,
            journal,
            answers,
            seconds,
        } => chart_answered(alloc, files, net, journal, answers, seconds),
    }
}
