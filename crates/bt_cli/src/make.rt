// `make N NUMBER`.
ghost use Rattle.std.specs.Prelude.{◌≡◌, map, codes, IfOk};
ghost use Rattle.std.specs.String.{string_bytes};
ghost use Rattle.bt_report.specs.declared.status.TheConstants.{DONE};
ghost use Rattle.bt_cli.specs.Calls.{output_of};
ghost use Rattle.bt_cli.specs.Make.{AnswersPlan, PrintsSummary, Summarizes};
ghost use Rattle.bt_report.specs.Input.{Input};
ghost use Rattle.bt_report.specs.Printing.{CameTo};
ghost use Rattle.bt_report.specs.Outcome.{PrintsOneOf, text_alone};
ghost use Rattle.bt_cli.specs.Request.{PlanDrawn, first_word, request_of};
ghost use Rattle.bt_cli.specs.Top.{Reported};

use crate::command_line::{CommandLine, command_line_of};
use crate::number_word::BeamCount;
use crate::plan::EDITION;
use crate::summary::summary_text;
use bt_cut::{make_demand, make_plan_for};
use bt_demand::Plan;
use bt_frame::OutOfMemory;
use bt_net::Network;
use bt_outside::Sink;
use bt_report::{DONE, OUT_OF_MEMORY, Report, Stop, print_faulty_words, print_text};
use std::alloc::Global;

/// What `make` gives back.
#[derive(Drop)]
pub struct Made {
    /// The status with which the program ends.
    pub status: u8,
    /// The plan that was made, where the status is 0.
    pub plan: Option<Plan>,
}

/// Draws a demand on a network of so many beams, makes a burst time plan of the least length that carries it, and prints
/// how many links and slots it has, how long the plan is, and how many modes and bursts that has.
///
/// The words are those after the program's name, of which the first is `make`. The status is 0 where that is printed; the
/// refusals are those of the top call.
pub fn make_command<O: Sink>(alloc: Global, words: &[String], out: &mut O) -> Made
    requires first { first_word (map string_bytes words.now) ≡ Some (codes "make") }
    ensures reported { (input : Input) → Reported input (output_of O.told O.fault_count out.old out.new) (request_of (map string_bytes words.now)) result.status }
    ensures plan { AnswersPlan (output_of O.told O.fault_count out.old out.new) (request_of (map string_bytes words.now)) result.status result.plan }
{
    match command_line_of(words) {
        CommandLine::PlanDrawn { beams, seed } => plan_drawn(alloc, beams, seed, out),
        _ => Made {
            status: print_faulty_words(alloc, out),
            plan: None,
        },
    }
}

/// Prints what a drawn demand and its plan come to.
fn plan_drawn<O: Sink>(alloc: Global, beams: BeamCount, seed: u64, out: &mut O) -> Made
    ensures reported { PrintsOneOf (output_of O.told O.fault_count out.old out.new) (PrintsSummary beams.count seed) result.status }
    ensures plan { AnswersPlan (output_of O.told O.fault_count out.old out.new) (PlanDrawn beams.count seed) result.status result.plan }
{
    let Ok(drawn) = draw(alloc, beams, seed) else {
        return Made {
            status: OUT_OF_MEMORY,
            plan: None,
        };
    };
    let status = print_text(alloc, drawn.text.as_slice(), DONE, out);
    let plan = if status == DONE {
        Some(drawn.plan)
    } else {
        None
    };
    Made { status, plan }
}

/// What a drawn demand and its plan come to.
pub(crate) fn drawn_report(alloc: Global, beams: BeamCount, seed: u64) -> Result<Report, Stop>
    ensures { CameTo (PrintsSummary beams.count seed) result }
{
    let drawn = draw(alloc, beams, seed)?;
    Ok(Report {
        text: drawn.text,
        status: DONE,
    })
}

/// The plan of a drawn demand, and what is printed of it.
#[derive(Drop)]
struct Drawn {
    plan: Plan,
    text: Vec<u8>,
}

/// Draws a demand and makes its plan.
fn draw(alloc: Global, beams: BeamCount, seed: u64) -> Result<Drawn, OutOfMemory>
    ensures { IfOk result (λ drawn. Summarizes beams.count seed drawn.plan (text_alone drawn.text.items DONE)) }
{
    let net = Network::numbered(alloc, beams.count)?;
    let made = make_demand(alloc, &net, seed)?;
    // This is there for what holds of each network: its frame has at most `MOST_SLOTS` slots.
    let _slots = net.slots();
    let plan = make_plan_for(alloc, &net, &made.demand, &made.matrix, EDITION)?;
    let text = summary_text(alloc, &net, seed, &made.demand, &plan)?;
    Ok(Drawn { plan, text })
}
