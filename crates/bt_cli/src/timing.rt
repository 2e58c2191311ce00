// `timing NET TRAFFIC PLAN DELAYS`.
ghost use Rattle.std.specs.Prelude.{◌≡◌, IfErr, OnOk, Some, length};
ghost use Rattle.bt_outside.specs.Told.{Rose};
ghost use Rattle.bt_frame.specs.Critical.{IsOfBeams};
ghost use Rattle.bt_demand.specs.Plan.{IsGoodPlan};
ghost use Rattle.bt_demand.specs.Traffic.{matrix_of, AreOfNetwork, HasSumsTo};
ghost use Rattle.bt_timing.specs.Times.{AreTimes};
ghost use Rattle.bt_demand.specs.PlanVerdict.{AreBetweenTerminals};
ghost use Rattle.bt_timeline.specs.Verdicts.{CanName, verdict_words};
ghost use Rattle.bt_report.specs.declared.status.TheConstants.{NOT_GOOD};
ghost use Rattle.bt_cli.specs.Fitting.{Fits};
ghost use Rattle.bt_report.specs.Outcome.{Says};
ghost use Rattle.bt_report.specs.Printing.{CameTo};
ghost use Rattle.bt_report.specs.Report.{StopIs};
ghost use Rattle.bt_load.specs.Kinds.{delay_file};
ghost use Rattle.bt_load.specs.Loaders.{Loads, file};
ghost use Rattle.bt_cli.specs.Timing.{NamesVerdict, PrintsSends, TellsTimes, delay_files, delays_of_good, timed_plan};

use crate::asked::load_asked;
use crate::check_plan::verdict_on;
use bt_demand::{Demand, Plan, Verdict, one_plan_verdict};
use bt_load::{load_delays, load_plan};
use bt_matrix::MOST_SUM;
use bt_net::Network;
use bt_outside::Files;
use bt_report::{DONE, NOT_GOOD, Report, Stop};
use bt_timeline::verdict_text;
use bt_timing::{Timing, sends_text};
use std::alloc::Global;

/// The times of the plan in a file, for the demand and the network in two others and by the delays in a fourth.
pub fn time_files<F: Files>(
    alloc: Global,
    files: &mut F,
    net: &str,
    traffic: &str,
    plan: &str,
    delays: &str,
) -> Result<Report, Stop>
    ensures { CameTo (Loads (delay_files net.now traffic.now plan.now delays.now) (λ all. TellsTimes all.0.0 all.0.1 all.1.0 all.1.1) (F.told files.old) (Rose (F.fault_count files.old) (F.fault_count files.new))) result }
{
    let asked = load_asked(alloc, files, net, traffic)?;
    time_plan_file(alloc, files, &asked.net, &asked.demand, plan, delays)
}

fn time_plan_file<F: Files>(
    alloc: Global,
    files: &mut F,
    net: &Network,
    demand: &Demand,
    plan: &str,
    delays: &str,
) -> Result<Report, Stop>
    requires terminals { AreOfNetwork net.now demand.now }
    requires sums { HasSumsTo MOST_SUM (matrix_of net.now demand.now) }
    requires fits { Fits net.now demand.now }
    ensures { CameTo (Loads (timed_plan net.now demand.now plan.now delays.now) (λ both. TellsTimes net.now demand.now both.0 both.1) (F.told files.old) (Rose (F.fault_count files.old) (F.fault_count files.new))) result }
{
    let plan = load_plan(alloc, files, plan, net)?;
    time_plan(alloc, files, net, demand, &plan, delays)
}

/// The times of a plan, where it is good.
fn time_plan<F: Files>(
    alloc: Global,
    files: &mut F,
    net: &Network,
    demand: &Demand,
    plan: &Plan,
    delays: &str,
) -> Result<Report, Stop>
    requires demand { AreOfNetwork net.now demand.now }
    requires bursts { AreBetweenTerminals net.now plan.now.bursts }
    requires critical { IsOfBeams (length net.now.beams) plan.now.schedule.critical }
    requires sums { HasSumsTo MOST_SUM (matrix_of net.now demand.now) }
    requires fits { Fits net.now demand.now }
    ensures { CameTo (Loads (delays_of_good net.now demand.now plan.now delays.now) (TellsTimes net.now demand.now plan.now) (F.told files.old) (Rose (F.fault_count files.old) (F.fault_count files.new))) result }
{
    one_plan_verdict();
    test_good(alloc, net, demand, plan)?;
    time_by_file(alloc, files, net, demand, plan, delays)
}

/// The plan is good, or the report that names what is wrong with it first.
fn test_good(alloc: Global, net: &Network, demand: &Demand, plan: &Plan) -> Result<(), Stop>
    requires demand { AreOfNetwork net.now demand.now }
    requires bursts { AreBetweenTerminals net.now plan.now.bursts }
    requires critical { IsOfBeams (length net.now.beams) plan.now.schedule.critical }
    requires sums { HasSumsTo MOST_SUM (matrix_of net.now demand.now) }
    ensures good { OnOk result (IsGoodPlan net.now demand.now plan.now) }
    ensures stops { IfErr result (StopIs (NamesVerdict net.now demand.now plan.now)) }
{
    // This is there for what holds of each demand: its links are in order.
    let _rows = demand.rows();
    match verdict_on(net, demand, plan) {
        Verdict::Good => Ok(()),
        verdict => Err(verdict_stop(alloc, net, &verdict)),
    }
}

/// The report that names a verdict.
fn verdict_stop(alloc: Global, net: &Network, verdict: &Verdict) -> Stop
    requires { CanName (Some net.now) verdict.now }
    ensures { StopIs (Says (verdict_words (Some net.now) verdict.now) NOT_GOOD) result }
{
    let mut text = Vec::new(alloc);
    match verdict_text(alloc, Some(net), verdict, &mut text) {
        Ok(()) => Stop::Early(Report {
            text,
            status: NOT_GOOD,
        }),
        Err(_) => Stop::OutOfMemory,
    }
}

/// The times of a good plan by the delays in a file.
fn time_by_file<F: Files>(
    alloc: Global,
    files: &mut F,
    net: &Network,
    demand: &Demand,
    plan: &Plan,
    delays: &str,
) -> Result<Report, Stop>
    requires bursts { AreBetweenTerminals net.now plan.now.bursts }
    requires good { IsGoodPlan net.now demand.now plan.now }
    requires fits { Fits net.now demand.now }
    ensures { CameTo (Loads (file (delay_file net.now) delays.now) (PrintsSends net.now plan.now) (F.told files.old) (Rose (F.fault_count files.old) (F.fault_count files.new))) result }
{
    let timing = load_delays(alloc, files, delays, net)?;
    sends_report(alloc, net, demand, plan, &timing)
}

/// The text of when the bursts of a good plan are to be sent.
fn sends_report(
    alloc: Global,
    net: &Network,
    demand: &Demand,
    plan: &Plan,
    timing: &Timing,
) -> Result<Report, Stop>
    requires bursts { AreBetweenTerminals net.now plan.now.bursts }
    requires good { IsGoodPlan net.now demand.now plan.now }
    requires fits { Fits net.now demand.now }
    requires times { AreTimes timing.now }
    requires delays { length timing.now.delays ≡ length net.now.terminals }
    ensures { CameTo (PrintsSends net.now plan.now timing.now) result }
{
    // This is there for what holds of each network: its frame has at most `MOST_SLOTS` slots.
    let _slots = net.slots();
    let text = sends_text(alloc, net, timing, plan)?;
    Ok(Report { text, status: DONE })
}
