// Files, read and tested one after the other.
ghost use Rattle.std.specs.Prelude.{◌≡◌, ◌≤◌, All, IfErr, IfOk, OnOk, length};
ghost use Rattle.bt_frame.specs.declared.limits.TheConstants.{MOST_BEAMS, MOST_FILE_BYTES, MOST_JOURNAL_BYTES};
ghost use Rattle.bt_outside.specs.Told.{Rose};
ghost use Rattle.bt_frame.specs.Critical.{IsOfBeams};
ghost use Rattle.bt_demand.specs.PlanVerdict.{AreBetweenTerminals};
ghost use Rattle.bt_demand.specs.Traffic.{matrix_of, AreOfNetwork, HasSumsTo};
ghost use Rattle.bt_script.specs.Named.{IsItemFor};
ghost use Rattle.bt_timing.specs.Times.{AreTimes};
ghost use Rattle.bt_load.specs.Files.{CannotRead, IsContent, IsLoaded, IsOfItsKind, StopsAtLoad};
ghost use Rattle.bt_load.specs.Kinds.{delay_file, demand_file, journal_file, matrix_file, network_file, output_file, plan_file, schedule_file, script_file};
ghost use Rattle.bt_report.specs.Report.{StopIs};

use crate::stops::{line_stop, network_stop};
use bt_demand::{Demand, Plan};
use bt_frame::{MOST_FILE_BYTES, MOST_JOURNAL_BYTES, Schedule};
use bt_matrix::{Dense, MOST_SUM};
use bt_net::Network;
use bt_outside::{FileFault, Files};
use bt_plan::{read_demand, read_matrix, read_plan, read_schedule};
use bt_report::{READ_FAILED, Stop, TOO_LONG};
use bt_run_lines::check_output;
use bt_script::Script;
use bt_timing::Timing;
use bt_words::Word;
use std::alloc::Global;

/// The file's bytes, at most so many.
pub fn read_file<F: Files>(
    alloc: Global,
    files: &mut F,
    name: &str,
    most: u64,
) -> Result<Vec<u8>, Stop>
    ensures content { IfOk result (λ bytes. IsContent most (F.told files.old) name.now bytes.items) }
    ensures stops { IfErr result (StopIs (CannotRead most (F.told files.old)
        (Rose (F.fault_count files.old) (F.fault_count files.new)) name.now)) }
    ensures later { F.fault_count files.old ≤ F.fault_count files.new }
    ensures same { F.told files.new ≡ F.told files.old }
{
    match files.read(alloc, name, most) {
        Ok(bytes) => Ok(bytes),
        Err(FileFault::Failed) => {
            let words = [Word::Text("fault"), Word::Text("read"), Word::Text(name)];
            Err(Stop::says(alloc, &words, READ_FAILED))
        }
        Err(FileFault::TooLong) => {
            let long = (Word::Text("too"), Word::Text("long"));
            let words = [Word::Text("fault"), long.0, long.1, Word::Text(name)];
            Err(Stop::says(alloc, &words, TOO_LONG))
        }
        Err(FileFault::OutOfMemory) => Err(Stop::OutOfMemory),
    }
}

/// The traffic matrix in a file.
#[tactic(auto, using(crate::proofs::Misspelt::matrix_misspelt))]
pub fn load_matrix<F: Files>(alloc: Global, files: &mut F, name: &str) -> Result<Dense, Stop>
    ensures loaded { IfOk result (λ matrix. IsLoaded matrix_file (F.told files.old) name.now matrix) }
    ensures stops { IfErr result (StopIs (StopsAtLoad matrix_file (F.told files.old)
        (Rose (F.fault_count files.old) (F.fault_count files.new)) name.now)) }
    ensures later { F.fault_count files.old ≤ F.fault_count files.new }
    ensures same { F.told files.new ≡ F.told files.old }
{
    let bytes = read_file(alloc, files, name, MOST_FILE_BYTES)?;
    match read_matrix(alloc, &bytes) {
        Ok(matrix) => Ok(matrix),
        Err(fault) => Err(line_stop(alloc, fault)),
    }
}

/// The switching schedule in a file, for so many beams.
#[tactic(auto, using(crate::proofs::Misspelt::schedule_misspelt))]
pub fn load_schedule<F: Files>(
    alloc: Global,
    files: &mut F,
    name: &str,
    size: u32,
) -> Result<Schedule, Stop>
    requires few { size ≤ MOST_BEAMS }
    ensures critical { IfOk result (λ schedule. IsOfBeams size schedule.critical) }
    ensures loaded { IfOk result (λ schedule. IsLoaded (schedule_file size) (F.told files.old) name.now schedule) }
    ensures stops { IfErr result (StopIs (StopsAtLoad (schedule_file size) (F.told files.old)
        (Rose (F.fault_count files.old) (F.fault_count files.new)) name.now)) }
    ensures later { F.fault_count files.old ≤ F.fault_count files.new }
    ensures same { F.told files.new ≡ F.told files.old }
{
    let bytes = read_file(alloc, files, name, MOST_FILE_BYTES)?;
    match read_schedule(alloc, size, &bytes) {
        Ok(schedule) => Ok(schedule),
        Err(fault) => Err(line_stop(alloc, fault)),
    }
}

/// The demand on a network in a file.
#[tactic(auto, using(crate::proofs::Misspelt::demand_misspelt))]
pub fn load_demand<F: Files>(
    alloc: Global,
    files: &mut F,
    name: &str,
    net: &Network,
) -> Result<Demand, Stop>
    ensures terminals { IfOk result (λ demand. AreOfNetwork net.now demand) }
    ensures sums { IfOk result (λ demand. HasSumsTo MOST_SUM (matrix_of net.now demand)) }
    ensures loaded { IfOk result (λ demand. IsLoaded (demand_file net.now) (F.told files.old) name.now demand) }
    ensures stops { IfErr result (StopIs (StopsAtLoad (demand_file net.now) (F.told files.old)
        (Rose (F.fault_count files.old) (F.fault_count files.new)) name.now)) }
    ensures later { F.fault_count files.old ≤ F.fault_count files.new }
    ensures same { F.told files.new ≡ F.told files.old }
{
    let bytes = read_file(alloc, files, name, MOST_FILE_BYTES)?;
    match read_demand(alloc, net, &bytes) {
        Ok(demand) => Ok(demand),
        Err(fault) => Err(line_stop(alloc, fault)),
    }
}

/// The burst time plan in a file, for a network.
#[tactic(auto, using(crate::proofs::Misspelt::plan_misspelt))]
pub fn load_plan<F: Files>(
    alloc: Global,
    files: &mut F,
    name: &str,
    net: &Network,
) -> Result<Plan, Stop>
    ensures terminals { IfOk result (λ plan. AreBetweenTerminals net.now plan.bursts) }
    ensures critical { IfOk result (λ plan. IsOfBeams (length net.now.beams) plan.schedule.critical) }
    ensures loaded { IfOk result (λ plan. IsLoaded (plan_file net.now) (F.told files.old) name.now plan) }
    ensures stops { IfErr result (StopIs (StopsAtLoad (plan_file net.now) (F.told files.old)
        (Rose (F.fault_count files.old) (F.fault_count files.new)) name.now)) }
    ensures later { F.fault_count files.old ≤ F.fault_count files.new }
    ensures same { F.told files.new ≡ F.told files.old }
{
    let bytes = read_file(alloc, files, name, MOST_FILE_BYTES)?;
    match read_plan(alloc, net, &bytes) {
        Ok(plan) => Ok(plan),
        Err(fault) => Err(line_stop(alloc, fault)),
    }
}

/// The network in a file.
#[tactic(auto, using(crate::proofs::Misspelt::network_misspelt))]
pub fn load_network<F: Files>(alloc: Global, files: &mut F, name: &str) -> Result<Network, Stop>
    ensures loaded { IfOk result (λ net. IsLoaded network_file (F.told files.old) name.now net) }
    ensures stops { IfErr result (StopIs (StopsAtLoad network_file (F.told files.old)
        (Rose (F.fault_count files.old) (F.fault_count files.new)) name.now)) }
    ensures later { F.fault_count files.old ≤ F.fault_count files.new }
    ensures same { F.told files.new ≡ F.told files.old }
{
    let bytes = read_file(alloc, files, name, MOST_FILE_BYTES)?;
    match Network::read(alloc, &bytes) {
        Ok(net) => Ok(net),
        Err(fault) => Err(network_stop(alloc, fault)),
    }
}

/// The script in a file, for a network.
#[tactic(auto, using(crate::proofs::Misspelt::script_misspelt))]
pub fn load_script<F: Files>(
    alloc: Global,
    files: &mut F,
    name: &str,
    net: &Network,
) -> Result<Script, Stop>
    ensures terminals { IfOk result (λ script. All (IsItemFor net.now) script.items) }
    ensures loaded { IfOk result (λ script. IsLoaded (script_file net.now) (F.told files.old) name.now script) }
    ensures stops { IfErr result (StopIs (StopsAtLoad (script_file net.now) (F.told files.old)
        (Rose (F.fault_count files.old) (F.fault_count files.new)) name.now)) }
    ensures later { F.fault_count files.old ≤ F.fault_count files.new }
    ensures same { F.told files.new ≡ F.told files.old }
{
    let bytes = read_file(alloc, files, name, MOST_FILE_BYTES)?;
    match Script::read(alloc, net, &bytes) {
        Ok(script) => Ok(script),
        Err(fault) => Err(line_stop(alloc, fault)),
    }
}

/// The delays of a network's terminals in a file.
#[tactic(auto, using(crate::proofs::Misspelt::delays_misspelt))]
pub fn load_delays<F: Files>(
    alloc: Global,
    files: &mut F,
    name: &str,
    net: &Network,
) -> Result<Timing, Stop>
    ensures times { IfOk result AreTimes }
    ensures terminals { IfOk result (λ times. length times.delays ≡ length net.now.terminals) }
    ensures loaded { IfOk result (λ times. IsLoaded (delay_file net.now) (F.told files.old) name.now times) }
    ensures stops { IfErr result (StopIs (StopsAtLoad (delay_file net.now) (F.told files.old)
        (Rose (F.fault_count files.old) (F.fault_count files.new)) name.now)) }
    ensures later { F.fault_count files.old ≤ F.fault_count files.new }
    ensures same { F.told files.new ≡ F.told files.old }
{
    let bytes = read_file(alloc, files, name, MOST_FILE_BYTES)?;
    match Timing::read(alloc, net, &bytes) {
        Ok(times) => Ok(times),
        Err(fault) => Err(line_stop(alloc, fault)),
    }
}

/// The bytes of what a run on a network printed.
#[tactic(auto, using(crate::proofs::Misspelt::is_output, crate::proofs::Misspelt::output_misspelt))]
pub fn load_output<F: Files>(
    alloc: Global,
    files: &mut F,
    name: &str,
    net: &Network,
) -> Result<Vec<u8>, Stop>
    ensures loaded { OnOk result (IsOfItsKind (output_file net.now) (F.told files.old) name.now) }
    ensures content { IfOk result (λ bytes. IsContent MOST_FILE_BYTES (F.told files.old) name.now bytes.items) }
    ensures stops { IfErr result (StopIs (StopsAtLoad (output_file net.now) (F.told files.old)
        (Rose (F.fault_count files.old) (F.fault_count files.new)) name.now)) }
    ensures later { F.fault_count files.old ≤ F.fault_count files.new }
    ensures same { F.told files.new ≡ F.told files.old }
{
    let bytes = read_file(alloc, files, name, MOST_FILE_BYTES)?;
    match check_output(net, &bytes) {
        Ok(()) => Ok(bytes),
        Err(fault) => Err(line_stop(alloc, fault)),
    }
}

/// The bytes of a journal in a file, whatever its lines are.
pub fn load_journal<F: Files>(alloc: Global, files: &mut F, name: &str) -> Result<Vec<u8>, Stop>
    ensures loaded { IfOk result (λ bytes. IsLoaded journal_file (F.told files.old) name.now bytes.items) }
    ensures short { IfOk result (λ bytes. length bytes.items ≤ MOST_JOURNAL_BYTES) }
    ensures stops { IfErr result (StopIs (StopsAtLoad journal_file (F.told files.old)
        (Rose (F.fault_count files.old) (F.fault_count files.new)) name.now)) }
    ensures later { F.fault_count files.old ≤ F.fault_count files.new }
    ensures same { F.told files.new ≡ F.told files.old }
{
    let bytes = read_file(alloc, files, name, MOST_JOURNAL_BYTES)?;
    Ok(bytes)
}
