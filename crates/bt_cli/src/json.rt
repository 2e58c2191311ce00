// `json FILE`.
ghost use Rattle.std.specs.Prelude.{◌≡◌, ◌≤◌, IfErr, IfOk};
ghost use Rattle.bt_outside.specs.Told.{Rose};
ghost use Rattle.bt_report.specs.Printing.{CameTo};
ghost use Rattle.bt_report.specs.Report.{StopIs};
ghost use Rattle.bt_load.specs.Files.{IsLoaded, StopsAtLoad};
ghost use Rattle.bt_load.specs.Loaders.{Loads, file};
ghost use Rattle.bt_load.specs.Stops.{NamesLineFault};
ghost use Rattle.bt_cli.specs.Json.{PrintsJson, json_code_name, json_file};

use bt_export::{JsonCode, json_of};
use bt_frame::MOST_JOURNAL_BYTES;
use bt_load::read_file;
use bt_outside::Files;
use bt_report::{DONE, Report, Stop};
use bt_text::LineFault;
use std::alloc::Global;

/// The lines of the text in a file, each as an object of JSON.
pub fn tell_json<F: Files>(alloc: Global, files: &mut F, text: &str) -> Result<Report, Stop>
    ensures { CameTo (Loads (file json_file text.now) PrintsJson (F.told files.old) (Rose (F.fault_count files.old) (F.fault_count files.new))) result }
{
    let json = load_json(alloc, files, text)?;
    json_report(json)
}

/// The report that has these objects.
fn json_report(json: Vec<u8>) -> Result<Report, Stop>
    ensures { CameTo (PrintsJson json.items) result }
{
    Ok(Report {
        text: json,
        status: DONE,
    })
}

/// The objects of the lines of the text in a file.
#[tactic(auto, using(crate::proofs::Misread::json_misspelt))]
fn load_json<F: Files>(alloc: Global, files: &mut F, name: &str) -> Result<Vec<u8>, Stop>
    ensures loaded { IfOk result (λ json. IsLoaded json_file (F.told files.old) name.now json.items) }
    ensures stops { IfErr result (StopIs (StopsAtLoad json_file (F.told files.old)
        (Rose (F.fault_count files.old) (F.fault_count files.new)) name.now)) }
    ensures later { F.fault_count files.old ≤ F.fault_count files.new }
    ensures same { F.told files.new ≡ F.told files.old }
{
    let bytes = read_file(alloc, files, name, MOST_JOURNAL_BYTES)?;
    match json_of(alloc, &bytes) {
        Ok(json) => Ok(json),
        Err(fault) => Err(json_stop(alloc, fault)),
    }
}

/// The report that names the first line that has no object.
fn json_stop(alloc: Global, fault: LineFault<JsonCode>) -> Stop
    ensures stop { StopIs (NamesLineFault json_code_name fault) result }
{
    match fault {
        LineFault::OutOfMemory => Stop::OutOfMemory,
        LineFault::At {
            code: JsonCode::O1,
            line,
        } => Stop::names(alloc, "O1", line),
    }
}
