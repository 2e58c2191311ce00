// The reports that name the first fault of a file's bytes.
ghost use Rattle.std.specs.Prelude.{◌∷◌, [], codes};
ghost use Rattle.bt_net.specs.Fault.{path_text};
ghost use Rattle.bt_report.specs.declared.status.TheConstants.{NO_NETWORK};
ghost use Rattle.bt_report.specs.Outcome.{Says};
ghost use Rattle.bt_report.specs.Report.{StopIs};
ghost use Rattle.bt_load.specs.Stops.{NamesLineFault, NamesNetworkFault};

use crate::codes::FaultCode;
use bt_net::{NetFault, Path};
use bt_report::{NO_NETWORK, Stop};
use bt_text::LineFault;
use bt_words::Word;
use std::alloc::Global;

/// The report that names a text's first fault.
pub fn line_stop<C: FaultCode>(alloc: Global, fault: LineFault<C>) -> Stop
    ensures stop { StopIs (NamesLineFault C.name fault) result }
{
    match fault {
        LineFault::OutOfMemory => Stop::OutOfMemory,
        LineFault::At { code, line } => Stop::names(alloc, code.text(), line),
    }
}

/// The report that names a network's first fault.
pub fn network_stop(alloc: Global, fault: NetFault) -> Stop
    ensures stop { StopIs (NamesNetworkFault fault) result }
{
    match fault {
        NetFault::OutOfMemory => Stop::OutOfMemory,
        NetFault::N1 => Stop::says(alloc, &[Word::Text("fault"), Word::Text("N1")], NO_NETWORK),
        NetFault::N2 { path } => path_stop(alloc, "N2", path),
        NetFault::N3 { path } => path_stop(alloc, "N3", path),
        NetFault::N4 { path } => path_stop(alloc, "N4", path),
        NetFault::N5 { path } => path_stop(alloc, "N5", path),
        NetFault::N6 { path } => path_stop(alloc, "N6", path),
    }
}

/// The report that names a fault and its place in a network file.
fn path_stop(alloc: Global, code: &str, path: Path) -> Stop
    ensures { StopIs (Says (codes "fault" ∷ code.now ∷ path_text path ∷ []) NO_NETWORK) result }
{
    match path.text(alloc) {
        Ok(path) => {
            let words = [Word::Text("fault"), Word::Text(code), Word::Text(&path)];
            Stop::says(alloc, &words, NO_NETWORK)
        }
        Err(_) => Stop::OutOfMemory,
    }
}
