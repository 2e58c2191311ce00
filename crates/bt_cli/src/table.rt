// `traffic NET CSV`.
ghost use Rattle.std.specs.Prelude.{◌≡◌, ◌≤◌, IfErr, IfOk};
ghost use Rattle.bt_outside.specs.Told.{Rose};
ghost use Rattle.bt_demand.specs.Traffic.{AreOfNetwork};
ghost use Rattle.bt_report.specs.Printing.{CameTo};
ghost use Rattle.bt_report.specs.Report.{StopIs};
ghost use Rattle.bt_load.specs.Files.{IsLoaded, StopsAtLoad};
ghost use Rattle.bt_load.specs.Loaders.{Loads, file};
ghost use Rattle.bt_cli.specs.Table.{PrintsTraffic, table_file, table_files};

use bt_demand::Demand;
use bt_export::demand_of_table;
use bt_frame::MOST_FILE_BYTES;
use bt_load::{line_stop, load_network, read_file};
use bt_look::demand_text;
use bt_net::Network;
use bt_outside::Files;
use bt_report::{DONE, Report, Stop};
use std::alloc::Global;

/// The demand that a table of links in a file says for the network in another, as the text of its links.
pub fn tell_traffic<F: Files>(
    alloc: Global,
    files: &mut F,
    net: &str,
    table: &str,
) -> Result<Report, Stop>
    ensures { CameTo (Loads (table_files net.now table.now) (λ both. PrintsTraffic both.0 both.1) (F.told files.old) (Rose (F.fault_count files.old) (F.fault_count files.new))) result }
{
    let net = load_network(alloc, files, net)?;
    traffic_of_file(alloc, files, &net, table)
}

/// The text of the links of a table in a file.
fn traffic_of_file<F: Files>(
    alloc: Global,
    files: &mut F,
    net: &Network,
    table: &str,
) -> Result<Report, Stop>
    ensures { CameTo (Loads (file (table_file net.now) table.now) (PrintsTraffic net.now) (F.told files.old) (Rose (F.fault_count files.old) (F.fault_count files.new))) result }
{
    let demand = load_table(alloc, files, table, net)?;
    traffic_report(alloc, net, &demand)
}

/// The text of the links of a demand.
fn traffic_report(alloc: Global, net: &Network, demand: &Demand) -> Result<Report, Stop>
    requires terminals { AreOfNetwork net.now demand.now }
    ensures { CameTo (PrintsTraffic net.now demand.now) result }
{
    let text = demand_text(alloc, net, demand)?;
    Ok(Report { text, status: DONE })
}

/// The demand on a network that a table of links in a file says.
#[tactic(auto, using(crate::proofs::Misread::table_misspelt))]
fn load_table<F: Files>(
    alloc: Global,
    files: &mut F,
    name: &str,
    net: &Network,
) -> Result<Demand, Stop>
    ensures terminals { IfOk result (λ demand. AreOfNetwork net.now demand) }
    ensures loaded { IfOk result (λ demand. IsLoaded (table_file net.now) (F.told files.old) name.now demand) }
    ensures stops { IfErr result (StopIs (StopsAtLoad (table_file net.now) (F.told files.old)
        (Rose (F.fault_count files.old) (F.fault_count files.new)) name.now)) }
    ensures later { F.fault_count files.old ≤ F.fault_count files.new }
    ensures same { F.told files.new ≡ F.told files.old }
{
    let bytes = read_file(alloc, files, name, MOST_FILE_BYTES)?;
    match demand_of_table(alloc, net, &bytes) {
        Ok(demand) => Ok(demand),
        Err(fault) => Err(line_stop(alloc, fault)),
    }
}
