// `plan NET PLAN [BEAM ..] [FIRST-LAST]`.
ghost use Rattle.std.specs.Prelude.{map};
ghost use Rattle.std.specs.String.{string_bytes};
ghost use Rattle.bt_outside.specs.Told.{Rose};
ghost use Rattle.bt_report.specs.Printing.{CameTo};
ghost use Rattle.bt_load.specs.Kinds.{plan_file};
ghost use Rattle.bt_load.specs.Loaders.{Loads, file};
ghost use Rattle.bt_chart.specs.Plans.{DrawsPart, DrawsPlan, plan_files};

use crate::choosing::{are_parts, choice_of};
use bt_load::{load_network, load_plan};
use bt_net::Network;
use bt_outside::Files;
use bt_plan_chart::{Choice, plan_picture};
use bt_report::{DONE, Report, Stop, faulty_words};
use std::alloc::Global;

/// The picture of what the words choose of the plan in a file, for the network in another.
pub fn chart_plan<F: Files>(
    alloc: Global,
    files: &mut F,
    net: &str,
    plan: &str,
    words: &[String],
) -> Result<Report, Stop>
    ensures { CameTo (Loads (plan_files net.now plan.now (map string_bytes words.now)) (λ both. DrawsPlan (map string_bytes words.now) both.0 both.1) (F.told files.old) (Rose (F.fault_count files.old) (F.fault_count files.new))) result }
{
    let net = load_network(alloc, files, net)?;
    if !are_parts(&net, words) {
        return Ok(faulty_words(alloc)?);
    }
    let choice = choice_of(&net, words);
    chart_plan_file(alloc, files, &net, plan, choice)
}

fn chart_plan_file<F: Files>(
    alloc: Global,
    files: &mut F,
    net: &Network,
    plan: &str,
    choice: Choice,
) -> Result<Report, Stop>
    ensures { CameTo (Loads (file (plan_file net.now) plan.now) (DrawsPart choice net.now) (F.told files.old) (Rose (F.fault_count files.old) (F.fault_count files.new))) result }
{
    let plan = load_plan(alloc, files, plan, net)?;
    let mut text = Vec::new(alloc);
    plan_picture(alloc, net, &plan, choice, &mut text)?;
    Ok(Report { text, status: DONE })
}
