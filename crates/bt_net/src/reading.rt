// The walk over a network file.
ghost use Rattle.std.specs.Prelude.{◌≡◌, ◌+◌, ◌<◌, ◌≤◌, ◌⊎◌, [], length, map, option_map, OnOk, IfOk};
ghost use Rattle.std.specs.Option.{ok_or};
ghost use Rattle.serde_json.specs.Errors.{IsMemory};
ghost use Rattle.serde_json.specs.View.{view};
ghost use Rattle.bt_net.specs.declared.fault.NetFault.TheVariants.{N1};
ghost use Rattle.bt_net.specs.Walk.{Gives};
ghost use Rattle.bt_net.specs.Network.{AreBeams, AreTerminals};
ghost use Rattle.bt_frame.specs.Range.{IsWithin};
ghost use Rattle.bt_net.specs.Reading.{array_at, text_at, entries_at, number_at, journal_of, beam_at, with_beam, through, beams_of, with_terminal, terminals_of, AreInRange, numbers_of, json_of, network_of, network_in};

use crate::beams::Beams;
use crate::check::check_name;
use crate::terminals::Terminals;
use crate::{NetFault, Network, Path, is_name, is_terminal_name};
use bt_frame::{
    BeamNo, LEAST_JOURNAL_BYTES, LEAST_LEAD, MOST_BEAMS, MOST_BOOK_BYTES, MOST_FRAMES,
    MOST_JOURNAL_BYTES, MOST_LEAD, MOST_PATIENCE, MOST_SLOTS, MOST_TERMINALS,
};
use serde_json::{Error, Value};
use std::alloc::Global;

fn array_at<'v>(value: &'v Value, key: &str) -> Option<&'v [Value]>
    ensures { option_map (λ entries. map view entries.now) result ≡ array_at key.now (view value.now) }
{
    let entries = value.get(key)?.as_array()?;
    Some(entries.as_slice())
}

#[tactic(auto, unfolding(crate::specs::Reading::text_at))]
fn text_at<'v>(value: &'v Value, key: &str, path: Path) -> Result<&'v str, NetFault>
    ensures { Gives (λ text. text.now) result (text_at path key.now (view value.now)) }
{
    value
        .get(key)
        .and_then(Value::as_str)
        .ok_or(NetFault::N2 { path })
}

#[tactic(auto, unfolding(crate::specs::Reading::entries_at))]
fn entries_at<'v>(
    value: &'v Value,
    key: &str,
    path: Path,
    most: usize,
) -> Result<&'v [Value], NetFault>
    ensures walk { Gives (λ entries. map view entries.now) result (entries_at path most key.now (view value.now)) }
    ensures count { IfOk result (λ entries. IsWithin 1 most (length entries.now)) }
{
    let entries = array_at(value, key).ok_or(NetFault::N2 { path })?;
    if entries.is_empty() || most < entries.len() {
        return Err(NetFault::N3 { path });
    }
    Ok(entries)
}

#[tactic(auto, unfolding(crate::specs::Reading::number_at))]
fn number_at(value: &Value, key: &str, path: Path, least: u32, most: u32) -> Result<u32, NetFault>
    ensures walk { Gives (λ number. number) result (number_at path least most key.now (view value.now)) }
    ensures in_range { IfOk result (IsWithin least most) }
{
    let number = value
        .get(key)
        .and_then(Value::as_u64)
        .ok_or(NetFault::N2 { path })?;
    if number < u64::from(least) || u64::from(most) < number {
        return Err(NetFault::N3 { path });
    }
    Ok(number as u32)
}

#[tactic(auto, unfolding(crate::specs::Reading::journal_of))]
fn journal_of(value: &Value) -> Result<u32, NetFault>
    ensures walk { Gives (λ number. number) result (journal_of (view value.now)) }
    ensures in_range { IfOk result (IsWithin LEAST_JOURNAL_BYTES MOST_BOOK_BYTES) }
{
    match value.get("journal") {
        Some(_) => {
            let number = number_at(
                value,
                "journal",
                Path::Journal,
                LEAST_JOURNAL_BYTES,
                MOST_JOURNAL_BYTES as u32,
            )?;
            Ok(number.min(MOST_BOOK_BYTES as u32))
        }
        None => Ok(MOST_BOOK_BYTES as u32),
    }
}

#[tactic(auto, unfolding(crate::specs::Reading::with_beam))]
fn add_beam(alloc: Global, beams: &mut Beams, entry: &Value) -> Result<(), NetFault>
    requires { length beams.old < MOST_BEAMS }
    ensures walk { Gives (λ _. beams.new) result (with_beam beams.old (view entry.now)) }
    ensures count { OnOk result (length beams.new ≡ length beams.old + 1) }
{
    let path = Path::Beam(beams.len() as u32);
    let name = entry.as_str().ok_or(NetFault::N2 { path })?;
    check_name(path, is_name(name.as_bytes()), beams.has(name))?;
    beams.add(alloc, name)?;
    Ok(())
}

fn add_beams(alloc: Global, entries: &[Value]) -> Result<Beams, NetFault>
    requires { IsWithin 1 MOST_BEAMS (length entries.now) }
    ensures walk { Gives (λ beams. beams) result (through with_beam [] (map view entries.now)) }
    ensures sound { IfOk result AreBeams }
{
    let mut beams = Beams::new(alloc);
    for entry in entries {
        add_beam(alloc, &mut beams, entry)?;
    }
    Ok(beams)
}

#[tactic(auto, unfolding(crate::specs::Reading::beams_of))]
fn beams_of(alloc: Global, value: &Value) -> Result<Beams, NetFault>
    ensures walk { Gives (λ beams. beams) result (beams_of (view value.now)) }
    ensures sound { IfOk result AreBeams }
{
    add_beams(alloc, entries_at(value, "beams", Path::Beams, MOST_BEAMS)?)
}

#[tactic(auto, unfolding(crate::specs::Reading::with_terminal))]
fn add_terminal(
    alloc: Global,
    beams: &Beams,
    terminals: &mut Terminals,
    entry: &Value,
) -> Result<(), NetFault>
    requires few { length terminals.old < MOST_TERMINALS }
    requires beams { length beams.now ≤ MOST_BEAMS }
    ensures walk { Gives (λ _. terminals.new) result (with_terminal beams.now terminals.old (view entry.now)) }
    ensures count { OnOk result (length terminals.new ≡ length terminals.old + 1) }
{
    let number = terminals.len() as u32;
    entry.as_object().ok_or(NetFault::N2 {
        path: Path::Terminal(number),
    })?;
    let path = Path::TerminalName(number);
    let name = text_at(entry, "name", path)?;
    check_name(path, is_terminal_name(name.as_bytes()), terminals.has(name))?;
    let beam = beam_at(entry, Path::TerminalBeam(number), beams)?;
    terminals.add(alloc, name, beam)?;
    Ok(())
}

#[tactic(auto, unfolding(crate::specs::Reading::beam_at))]
fn beam_at(entry: &Value, path: Path, beams: &Beams) -> Result<BeamNo, NetFault>
    requires { length beams.now ≤ MOST_BEAMS }
    ensures { Gives (λ beam. beam) result (beam_at path (view entry.now) beams.now) }
{
    let name = text_at(entry, "beam", path)?;
    let number = beams.find(name).ok_or(NetFault::N6 { path })?;
    Ok(BeamNo(number as u8))
}

fn add_terminals(alloc: Global, beams: &Beams, entries: &[Value]) -> Result<Terminals, NetFault>
    requires few { IsWithin 1 MOST_TERMINALS (length entries.now) }
    requires beams { length beams.now ≤ MOST_BEAMS }
    ensures walk { Gives (λ terminals. terminals) result (through (with_terminal beams.now) [] (map view entries.now)) }
    ensures sound { IfOk result (AreTerminals beams.now) }
{
    let mut terminals = Terminals::new(alloc);
    for entry in entries {
        add_terminal(alloc, beams, &mut terminals, entry)?;
    }
    Ok(terminals)
}

#[tactic(auto, unfolding(crate::specs::Reading::terminals_of))]
fn terminals_of(alloc: Global, beams: &Beams, value: &Value) -> Result<Terminals, NetFault>
    requires { length beams.now ≤ MOST_BEAMS }
    ensures walk { Gives (λ terminals. terminals) result (terminals_of beams.now (view value.now)) }
    ensures sound { IfOk result (AreTerminals beams.now) }
{
    add_terminals(
        alloc,
        beams,
        entries_at(value, "terminals", Path::Terminals, MOST_TERMINALS)?,
    )
}

/// The numbers of a network file, which stand behind its terminals.
#[derive(Clone, Copy)]
pub(crate) struct Numbers {
    slots: u32,
    frames: u32,
    lead: u32,
    patience: u32,
    journal: u32,
}

#[tactic(auto, unfolding(crate::specs::Reading::numbers_of))]
fn numbers_of(value: &Value) -> Result<Numbers, NetFault>
    ensures walk { Gives (λ numbers. numbers) result (numbers_of (view value.now)) }
    ensures in_range { IfOk result AreInRange }
{
    Ok(Numbers {
        slots: number_at(value, "slots", Path::Slots, 1, MOST_SLOTS)?,
        frames: number_at(value, "frames", Path::Frames, 1, MOST_FRAMES)?,
        lead: number_at(value, "lead", Path::Lead, LEAST_LEAD, MOST_LEAD)?,
        patience: number_at(value, "patience", Path::Patience, 1, MOST_PATIENCE)?,
        journal: journal_of(value)?,
    })
}

#[tactic(auto, unfolding(crate::specs::Reading::network_of))]
fn network_of(alloc: Global, value: &Value) -> Result<Network, NetFault>
    ensures { Gives (λ net. net) result (network_of (view value.now)) }
{
    value.as_object().ok_or(NetFault::N2 { path: Path::Top })?;
    let beams = beams_of(alloc, value)?;
    let terminals = terminals_of(alloc, &beams, value)?;
    let Numbers {
        slots,
        frames,
        lead,
        patience,
        journal,
    } = numbers_of(value)?;
    Ok(Network {
        beams,
        terminals,
        slots,
        frames,
        lead,
        patience,
        journal,
    })
}

fn fault_of(error: &Error) -> NetFault
    ensures { (IsMemory error.now × (result ≡ NetFault.OutOfMemory)) ⊎ ((¬ IsMemory error.now) × (result ≡ NetFault.N1)) }
{
    if error.is_memory() {
        NetFault::OutOfMemory
    } else {
        NetFault::N1
    }
}

fn json_of(alloc: Global, bytes: &[u8]) -> Result<Value, NetFault>
    ensures { Gives view result (ok_or (json_of bytes.now) N1) }
{
    match Value::from_slice(alloc, bytes) {
        Ok(value) => Ok(value),
        Err(error) => Err(fault_of(&error)),
    }
}

impl Network {
    /// The network that the bytes of a file are.
    ///
    /// A fault is the first in the order of the walk: JSON at all, then the fields from `beams` to `journal`, each by its kind,
    /// its range, and its entries from the first.
    #[tactic(auto, unfolding(crate::specs::Reading::network_in))]
    pub fn read(alloc: Global, bytes: &[u8]) -> Result<Network, NetFault>
        ensures reading { Gives (λ net. net) result (network_in bytes.now) }
    {
        network_of(alloc, &json_of(alloc, bytes)?)
    }
}
