// `check NET TRAFFIC PLAN`.
ghost use Rattle.std.specs.Prelude.{length, Some};
ghost use Rattle.bt_outside.specs.Told.{Rose};
ghost use Rattle.bt_frame.specs.Critical.{IsOfBeams};
ghost use Rattle.bt_demand.specs.PlanVerdict.{AreBetweenTerminals, IsPlanVerdict};
ghost use Rattle.bt_demand.specs.Traffic.{matrix_of, AreOfNetwork, HasSumsTo};
ghost use Rattle.bt_load.specs.Kinds.{plan_file};
ghost use Rattle.bt_load.specs.Loaders.{Loads, file};
ghost use Rattle.bt_cli.specs.CheckPlan.{JudgesPlan, plan_files};
ghost use Rattle.bt_timeline.specs.Verdicts.{CanName};
ghost use Rattle.bt_report.specs.Printing.{CameTo};

use crate::asked::load_asked;
use crate::check::status_of;
use bt_demand::{Demand, Plan, Verdict, check};
use bt_load::load_plan;
use bt_matrix::MOST_SUM;
use bt_net::Network;
use bt_outside::Files;
use bt_report::{Report, Stop};
use bt_timeline::verdict_text;
use std::alloc::Global;

/// The verdict on the plan in a file, for the demand and the network in two others.
pub fn check_plan_files<F: Files>(
    alloc: Global,
    files: &mut F,
    net: &str,
    traffic: &str,
    plan: &str,
) -> Result<Report, Stop>
    ensures judged { CameTo (Loads (plan_files net.now traffic.now plan.now) (λ both. JudgesPlan both.0.0 both.0.1 both.1) (F.told files.old) (Rose (F.fault_count files.old) (F.fault_count files.new))) result }
{
    let asked = load_asked(alloc, files, net, traffic)?;
    check_plan_file(alloc, files, &asked.net, &asked.demand, plan)
}

fn check_plan_file<F: Files>(
    alloc: Global,
    files: &mut F,
    net: &Network,
    demand: &Demand,
    plan: &str,
) -> Result<Report, Stop>
    requires terminals { AreOfNetwork net.now demand.now }
    requires sums { HasSumsTo MOST_SUM (matrix_of net.now demand.now) }
    ensures { CameTo (Loads (file (plan_file net.now) plan.now) (JudgesPlan net.now demand.now) (F.told files.old) (Rose (F.fault_count files.old) (F.fault_count files.new))) result }
{
    let plan = load_plan(alloc, files, plan, net)?;
    judge_plan(alloc, net, demand, &plan)
}

/// The line of the verdict on the plan.
fn judge_plan(alloc: Global, net: &Network, demand: &Demand, plan: &Plan) -> Result<Report, Stop>
    requires demand { AreOfNetwork net.now demand.now }
    requires bursts { AreBetweenTerminals net.now plan.now.bursts }
    requires critical { IsOfBeams (length net.now.beams) plan.now.schedule.critical }
    requires sums { HasSumsTo MOST_SUM (matrix_of net.now demand.now) }
    ensures { CameTo (JudgesPlan net.now demand.now plan.now) result }
{
    // This is there for what holds of each demand: its links are in order.
    let _rows = demand.rows();
    let verdict = verdict_on(net, demand, plan);
    let mut text = Vec::new(alloc);
    verdict_text(alloc, Some(net), &verdict, &mut text)?;
    let status = status_of(&verdict);
    Ok(Report { text, status })
}

/// The verdict, which names terminals of the network alone.
#[tactic(auto, using(crate::proofs::Named::verdict_names))]
pub(crate) fn verdict_on(net: &Network, demand: &Demand, plan: &Plan) -> Verdict
    requires demand { AreOfNetwork net.now demand.now }
    requires bursts { AreBetweenTerminals net.now plan.now.bursts }
    requires critical { IsOfBeams (length net.now.beams) plan.now.schedule.critical }
    requires sums { HasSumsTo MOST_SUM (matrix_of net.now demand.now) }
    ensures verdict { IsPlanVerdict net.now demand.now plan.now result }
    ensures names { CanName (Some net.now) result }
{
    check(net, demand, plan)
}
