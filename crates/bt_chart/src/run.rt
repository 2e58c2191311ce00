// `run` and `ladder NET OUTPUT [all] [FIRST-LAST] [NAME ..]`.
ghost use Rattle.std.specs.Prelude.{◌≡◌, All, IfOk, OnOk, map};
ghost use Rattle.std.specs.List.{list_all};
ghost use Rattle.std.specs.String.{string_bytes};
ghost use Rattle.bt_net.specs.Terminals.{IsTerminal};
ghost use Rattle.bt_outside.specs.Told.{Rose};
ghost use Rattle.bt_report.specs.Printing.{CameTo};
ghost use Rattle.bt_load.specs.Kinds.{output_file};
ghost use Rattle.bt_load.specs.Loaders.{Loads, file};
ghost use Rattle.bt_picture.specs.Drawn.{IsPictureBehind};
ghost use Rattle.bt_chart.specs.Runs.{DrawsRun, IsDrawnSo, is_terminal, output_files};

use bt_frame::{OutOfMemory, TermNo};
use bt_load::{load_network, load_output};
use bt_net::Network;
use bt_outside::Files;
use bt_report::{DONE, Report, Stop, faulty_words};
use bt_run_chart::{Asked, View, ladder_picture, run_picture};
use std::alloc::Global;

/// How a run is drawn.
#[derive(Clone, Copy)]
pub enum Drawing {
    /// From left to right.
    Rows,
    /// From top to bottom.
    Ladder,
}

/// The picture of what a run printed, for the network in another file: of the superframes that are asked for, with lanes for the
/// terminals of these names.
pub fn chart_run<F: Files>(
    alloc: Global,
    files: &mut F,
    drawing: Drawing,
    net: &str,
    output: &str,
    view: View,
    names: &[String],
) -> Result<Report, Stop>
    ensures { CameTo (Loads (output_files net.now output.now (map string_bytes names.now)) (λ both. DrawsRun drawing) (F.told files.old) (Rose (F.fault_count files.old) (F.fault_count files.new))) result }
{
    let net = load_network(alloc, files, net)?;
    if !are_terminals(&net, names) {
        return Ok(faulty_words(alloc)?);
    }
    chart_output(alloc, files, drawing, &net, output, view, names)
}

/// Whether each word is the name of a terminal.
fn are_terminals(net: &Network, names: &[String]) -> bool
    ensures { result ≡ list_all (is_terminal net.now) (map string_bytes names.now) }
{
    let mut rest = names;
    while let [name, after @ ..] = rest {
        if net.terminal_named(name.as_bytes()).is_none() {
            return false;
        }
        rest = after;
    }
    true
}

/// The terminals of these names, in their order.
fn terminals_named(
    alloc: Global,
    net: &Network,
    names: &[String],
) -> Result<Vec<TermNo>, OutOfMemory>
    ensures { IfOk result (λ chosen. All (IsTerminal net.now) chosen.items) }
{
    let mut chosen = Vec::new(alloc);
    for name in names {
        if let Some(terminal) = net.terminal_named(name.as_bytes()) {
            chosen.push(terminal)?;
        }
    }
    Ok(chosen)
}

fn chart_output<F: Files>(
    alloc: Global,
    files: &mut F,
    drawing: Drawing,
    net: &Network,
    output: &str,
    view: View,
    names: &[String],
) -> Result<Report, Stop>
    ensures { CameTo (Loads (file (output_file net.now) output.now) (λ printed. DrawsRun drawing) (F.told files.old) (Rose (F.fault_count files.old) (F.fault_count files.new))) result }
{
    let chosen = terminals_named(alloc, net, names)?;
    let text = load_output(alloc, files, output, net)?;
    let mut picture = Vec::new(alloc);
    let asked = Asked {
        chosen: &chosen,
        view,
    };
    draw_run(alloc, net, drawing, &text, asked, &mut picture)?;
    Ok(Report {
        text: picture,
        status: DONE,
    })
}

/// Appends the picture of what a run printed, drawn so.
fn draw_run(
    alloc: Global,
    net: &Network,
    drawing: Drawing,
    text: &[u8],
    asked: Asked<'_>,
    out: &mut Vec<u8>,
) -> Result<(), OutOfMemory>
    requires { All (IsTerminal net.now) asked.chosen.now }
    ensures { OnOk result (IsPictureBehind (IsDrawnSo drawing) out.old.items out.new.items) }
{
    match drawing {
        Drawing::Rows => run_picture(alloc, net, text, asked, out),
        Drawing::Ladder => ladder_picture(alloc, net, text, asked, out),
    }
}
