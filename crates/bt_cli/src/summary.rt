// What a drawn demand and its plan come to.
ghost use Rattle.std.specs.Prelude.{◌≡◌, ◌++◌, ◌*◌, ◌≤◌, All, IfOk, OnOk, length};
ghost use Rattle.bt_frame.specs.declared.limits.TheConstants.{MOST_SUM, MOST_TERMINALS};
ghost use Rattle.bt_demand.specs.Rows.{all_links};
ghost use Rattle.bt_demand.specs.Traffic.{AreOfNetwork};
ghost use Rattle.bt_words.specs.Lines.{line_of};
ghost use Rattle.bt_cli.specs.Make.{length_words, summary, units_in_all};

use bt_demand::{Demand, LinkRow, Plan};
use bt_frame::{Critical, OutOfMemory};
use bt_net::Network;
use bt_words::{Word, add_line};
use std::alloc::Global;

/// The text of the words that were asked, the links and their slots, the length of the plan with its critical line, and
/// how many modes and bursts it has.
pub fn summary_text(
    alloc: Global,
    net: &Network,
    seed: u64,
    demand: &Demand,
    plan: &Plan,
) -> Result<Vec<u8>, OutOfMemory>
    requires terminals { AreOfNetwork net.now demand.now }
    ensures spelled { IfOk result (λ text. text.items ≡ summary (length net.now.beams) seed demand.now plan.now) }
{
    let rows = demand.rows();
    let schedule = &plan.schedule;
    let mut text = Vec::new(alloc);
    let asked = [
        Word::Text("make"),
        Word::number(net.beam_count()),
        Word::Number(seed),
    ];
    add_line(alloc, &asked, &mut text)?;
    let drawn = [
        Word::Text("links"),
        Word::Number(link_count(rows)),
        Word::Text("units"),
        Word::Number(units_in_all(rows)),
    ];
    add_line(alloc, &drawn, &mut text)?;
    add_length(alloc, schedule.length, schedule.critical, &mut text)?;
    let counts = [
        Word::Text("modes"),
        Word::Number(schedule.modes.as_slice().len() as u64),
        Word::Text("bursts"),
        Word::Number(plan.bursts.as_slice().len() as u64),
    ];
    add_line(alloc, &counts, &mut text)?;
    Ok(text)
}

/// Appends the length of a plan and its critical line.
fn add_length(
    alloc: Global,
    slots: u32,
    critical: Critical,
    text: &mut Vec<u8>,
) -> Result<(), OutOfMemory>
    ensures { OnOk result (text.new.items ≡ text.old.items ++ line_of (length_words slots critical)) }
{
    let (name, beam) = match critical {
        Critical::Row(up) => ("row", up),
        Critical::Column(down) => ("column", down),
    };
    let words = [
        Word::Text("length"),
        Word::number(slots),
        Word::Text("critical"),
        Word::Text(name),
        Word::number(u32::from(beam.0)),
    ];
    add_line(alloc, &words, text)
}

/// How many links there are.
fn link_count(rows: &[LinkRow]) -> u64
    requires few { length (all_links rows.now) ≤ MOST_TERMINALS * MOST_TERMINALS }
    ensures { result ≡ length (all_links rows.now) }
{
    let mut count = 0;
    for row in rows {
        count += row.as_slice().len() as u64;
    }
    count
}

/// The slots that all links ask for together.
fn units_in_all(rows: &[LinkRow]) -> u64
    requires few { length (all_links rows.now) ≤ MOST_TERMINALS * MOST_TERMINALS }
    requires small { All (λ link. link.units ≤ MOST_SUM) (all_links rows.now) }
    ensures { result ≡ units_in_all (all_links rows.now) }
{
    let mut units = 0;
    for row in rows {
        for link in row.as_slice() {
            units += u64::from(link.units);
        }
    }
    units
}
