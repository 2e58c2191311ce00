// A network and a demand on it, each from its file.
ghost use Rattle.std.specs.Prelude.{◌≡◌, ◌≤◌, IfErr, IfOk};
ghost use Rattle.bt_outside.specs.Told.{Rose};
ghost use Rattle.bt_demand.specs.Traffic.{matrix_of, AreOfNetwork, HasSumsTo};
ghost use Rattle.bt_report.specs.Report.{StopIs};
ghost use Rattle.bt_load.specs.Files.{IsLoaded};
ghost use Rattle.bt_load.specs.Kinds.{demand_file};
ghost use Rattle.bt_cli.specs.Fitting.{Fits, asked_files, fitting_file};

use crate::fit::fitting_matrix;
use bt_demand::Demand;
use bt_load::{load_demand, load_network};
use bt_matrix::{Dense, MOST_SUM};
use bt_net::Network;
use bt_outside::Files;
use bt_report::Stop;
use std::alloc::Global;

/// A network and a demand that fits its frame, with the matrix of the demand.
#[derive(Drop)]
pub struct Asked {
    pub net: Network,
    pub demand: Demand,
    pub matrix: Dense,
}

/// The network and the demand in two files, where the demand fits.
pub fn load_asked<F: Files>(
    alloc: Global,
    files: &mut F,
    net: &str,
    traffic: &str,
) -> Result<Asked, Stop>
    ensures loaded { IfOk result (λ asked. (asked_files net.now traffic.now).gives (F.told files.old) (asked.net, asked.demand)) }
    ensures terminals { IfOk result (λ asked. AreOfNetwork asked.net asked.demand) }
    ensures sums { IfOk result (λ asked. HasSumsTo MOST_SUM (matrix_of asked.net asked.demand)) }
    ensures matrix { IfOk result (λ asked. asked.matrix ≡ matrix_of asked.net asked.demand) }
    ensures stops { IfErr result (StopIs ((asked_files net.now traffic.now).stops (F.told files.old)
        (Rose (F.fault_count files.old) (F.fault_count files.new)))) }
    ensures later { F.fault_count files.old ≤ F.fault_count files.new }
    ensures same { F.told files.new ≡ F.told files.old }
{
    let net = load_network(alloc, files, net)?;
    let (demand, matrix) = load_fitting(alloc, files, &net, traffic)?;
    Ok(Asked {
        net,
        demand,
        matrix,
    })
}

/// The demand in a file, where it fits, with its matrix.
#[tactic(auto, using(crate::proofs::LoadsAsked::overload_stops))]
pub(crate) fn load_fitting<F: Files>(
    alloc: Global,
    files: &mut F,
    net: &Network,
    traffic: &str,
) -> Result<(Demand, Dense), Stop>
    ensures loaded { IfOk result (λ found. IsLoaded (demand_file net.now) (F.told files.old) traffic.now found.0) }
    ensures fits { IfOk result (λ found. Fits net.now found.0) }
    ensures terminals { IfOk result (λ found. AreOfNetwork net.now found.0) }
    ensures sums { IfOk result (λ found. HasSumsTo MOST_SUM (matrix_of net.now found.0)) }
    ensures matrix { IfOk result (λ found. found.1 ≡ matrix_of net.now found.0) }
    ensures stops { IfErr result (StopIs ((fitting_file net.now traffic.now).stops (F.told files.old)
        (Rose (F.fault_count files.old) (F.fault_count files.new)))) }
    ensures later { F.fault_count files.old ≤ F.fault_count files.new }
    ensures same { F.told files.new ≡ F.told files.old }
{
    let demand = load_demand(alloc, files, traffic, net)?;
    let matrix = fitting_matrix(alloc, net, &demand)?;
    Ok((demand, matrix))
}
