// The rounds and restarts that the lines of a script say.
ghost use Rattle.std.specs.Prelude.{◌≡◌, ◌+◌, ◌<◌, ◌≤◌, ◌++◌, ◌∷◌, [], ℕ, length, vec_len, count_by, flat_map, All, IfOk, OnOk};
ghost use Rattle.std.specs.List.{slice_index_or};
ghost use Rattle.bt_frame.specs.declared.limits.TheConstants.{MOST_DESKS, MOST_LINES};
ghost use Rattle.bt_net.specs.Network.{Net};
ghost use Rattle.bt_script.specs.Named.{IsRoundFor};
ghost use Rattle.bt_script.specs.Said.{IsSaidFor};
ghost use Rattle.bt_script.specs.ScriptText.{ends_round, round_lines, own_lines, is_plan, air_lines, entry_of, round_of, items_at, items_of};

use crate::line::ScriptLine;
use crate::{AirLine, AirLines, DeskLines, Desks, Item, Items, Round};
use bt_frame::{MOST_DESKS, OutOfMemory};
use std::alloc::Global;
use std::mem;

/// The rounds and restarts that the lines say.
pub fn items_of(alloc: Global, said: &[ScriptLine]) -> Result<Items, OutOfMemory>
    requires few { length said.now ≤ MOST_LINES }
    ensures items { IfOk result (λ items. items ≡ items_of said.now) }
{
    let mut items = Vec::new(alloc);
    let mut rest = said;
    while let [first, after @ ..] = rest {
        add_item(alloc, first, after, &mut items)?;
        rest = after;
    }
    Ok(Items::of(items))
}

// Adds the round or restart that the line begins, if it begins one.
fn add_item(
    alloc: Global,
    first: &ScriptLine,
    after: &[ScriptLine],
    items: &mut Vec<Item>,
) -> Result<(), OutOfMemory>
    requires { length after.now ≤ MOST_LINES }
    ensures { OnOk result (items.new.items ≡ items.old.items ++ items_at first.now after.now) }
{
    match first {
        ScriptLine::Round => {
            let round = round_in_front(alloc, after)?;
            items.push(Item::Round(round))?;
            Ok(())
        }
        ScriptLine::Restart => {
            items.push(Item::Restart)?;
            Ok(())
        }
        _ => Ok(()),
    }
}

/// The round of the lines in front of the next round or restart, of all lines where they have none.
pub fn round_in_front(alloc: Global, said: &[ScriptLine]) -> Result<Round, OutOfMemory>
    requires few { length said.now ≤ MOST_LINES }
    ensures round { IfOk result (λ round. round ≡ round_of (round_lines said.now)) }
    ensures terminals { IfOk result (λ round. (net : Net) → All (IsSaidFor net) said.now → IsRoundFor net round) }
{
    let lines = lines_by_worker(alloc, said)?;
    let mut table = lines.desks;
    let mut desks = Vec::new(alloc);
    for desk in 1..MOST_DESKS + 1 {
        let place = usize::from(desk) - 1;
        let own = mem::replace(&mut table[place], DeskLines::none(alloc));
        add_desk(desk, own, &mut desks)?;
    }
    Ok(Round {
        desks: Desks::of(desks),
        plans: lines.plans,
        air: AirLines::of(lines.air),
    })
}

// Adds the desk, if it has lines.
fn add_desk(desk: u8, lines: DeskLines, desks: &mut Vec<(u8, DeskLines)>) -> Result<(), OutOfMemory>
    ensures { OnOk result (desks.new.items ≡ desks.old.items ++ entry_of desk lines) }
{
    if lines.as_slice().is_empty() {
        return Ok(());
    }
    desks.push((desk, lines))?;
    Ok(())
}

// The lines of a round, by who carries them out.
#[derive(Drop)]
struct RoundLines {
    // The lines of each desk, those of desk 1 first.
    desks: Vec<DeskLines>,
    // How many lines are the planner's.
    plans: u32,
    // The lines of the air.
    air: Vec<AirLine>,
}

// The lines in front of the next round or restart, by who carries them out.
fn lines_by_worker(alloc: Global, said: &[ScriptLine]) -> Result<RoundLines, OutOfMemory>
    requires { length said.now ≤ MOST_LINES }
    ensures count { IfOk result (λ lines. vec_len lines.desks ≡ MOST_DESKS) }
    ensures desks { IfOk result (λ lines. (d : ℕ) → d < MOST_DESKS
        → slice_index_or lines.desks.items d [] ≡ flat_map (own_lines (d + 1)) (round_lines said.now)) }
    ensures plans { IfOk result (λ lines. lines.plans ≡ count_by is_plan (round_lines said.now)) }
    ensures air { IfOk result (λ lines. lines.air.items ≡ flat_map air_lines (round_lines said.now)) }
{
    let Ok(desks) = empty_table(alloc) else {
        return Err(OutOfMemory);
    };
    let mut lines = RoundLines {
        desks,
        plans: 0,
        air: Vec::new(alloc),
    };
    let mut rest = said;
    while let [first, after @ ..] = rest {
        if ends_round(first) {
            return Ok(lines);
        }
        lines.add(first)?;
        rest = after;
    }
    Ok(lines)
}

// No lines for each desk.
fn empty_table(alloc: Global) -> Result<Vec<DeskLines>, OutOfMemory>
    ensures count { IfOk result (λ table. vec_len table ≡ MOST_DESKS) }
    ensures empty { IfOk result (λ table. All (λ lines. lines ≡ []) table.items) }
{
    let mut table = Vec::with_capacity(alloc, usize::from(MOST_DESKS))?;
    for _ in 0..MOST_DESKS {
        table.push(DeskLines::none(alloc))?;
    }
    Ok(table)
}

// The line ends the round before it.
fn ends_round(line: &ScriptLine) -> bool
    ensures { result ≡ ends_round line.now }
{
    match line {
        ScriptLine::Round => true,
        ScriptLine::Restart => true,
        _ => false,
    }
}

impl RoundLines {
    // Adds the line to those of its desk, of the planner or of the air, if it is one of these.
    fn add(&mut self, line: &ScriptLine) -> Result<(), OutOfMemory>
        requires count { vec_len self.old.desks ≡ MOST_DESKS }
        requires plans { self.old.plans < MOST_LINES }
        ensures count { vec_len self.new.desks ≡ MOST_DESKS }
        ensures desks { OnOk result ((d : ℕ) → d < MOST_DESKS
            → slice_index_or self.new.desks.items d [] ≡ slice_index_or self.old.desks.items d [] ++ own_lines (d + 1) line.now) }
        ensures plans { OnOk result (self.new.plans ≡ self.old.plans + count_by is_plan (line.now ∷ [])) }
        ensures air { OnOk result (self.new.air.items ≡ self.old.air.items ++ air_lines line.now) }
    {
        match line {
            ScriptLine::Remark => Ok(()),
            ScriptLine::Round => Ok(()),
            ScriptLine::Restart => Ok(()),
            ScriptLine::Desk { desk, line } => {
                let place = usize::from(desk.get() - 1);
                self.desks[place].add(line)
            }
            ScriptLine::Plan => {
                self.plans += 1;
                Ok(())
            }
            ScriptLine::Air(line) => {
                self.air.push(*line)?;
                Ok(())
            }
        }
    }
}
