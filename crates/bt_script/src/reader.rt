// A script from its text.
ghost use Rattle.std.specs.Prelude.{◌≡◌, ◌+◌, ◌≤◌, [], length, vec_len, false, All, IfOk, OnOk};
ghost use Rattle.bt_frame.specs.declared.limits.TheConstants.{MOST_LINES, MOST_TEXT_BYTES};
ghost use Rattle.bt_text.specs.Text.{lines};
ghost use Rattle.bt_script.specs.Length.{script_length};
ghost use Rattle.bt_script.specs.Named.{HasDesksInOrder, IsItemFor};
ghost use Rattle.bt_text.specs.Reading.{Gives};
ghost use Rattle.bt_script.specs.ScriptText.{is_open_behind, limited_line, added, last_in, lines_in, script_of};

use crate::items::items_of;
use crate::line::{ScriptLine, read_line};
use crate::{DeskLine, Script, ScriptCode, ScriptFault};
use bt_frame::MOST_LINES;
use bt_net::Network;
use bt_text::{fault_at, first_line};
use std::alloc::Global;

/// The bytes that are reckoned for a line of a script when room for its lines is taken. Most lines of edits are longer.
const SCRIPT_LINE_BYTES: usize = 16;

impl Script {
    /// The script that the bytes spell for this network, or the first line with a fault.
    ///
    /// Its lines name terminals of the network alone, the desks of a round ascend by number, and it has no more lines
    /// than a text may have.
    pub fn read(alloc: Global, net: &Network, bytes: &[u8]) -> Result<Script, ScriptFault>
        requires short { length bytes.now ≤ MOST_TEXT_BYTES }
        ensures reading { Gives (λ script. script) result (script_of net.now bytes.now) }
        ensures terminals { IfOk result (λ script. All (IsItemFor net.now) script.items) }
        ensures ascending { IfOk result (λ script. All HasDesksInOrder script.items) }
        ensures short { IfOk result (λ script. script_length script.items ≤ MOST_LINES) }
    {
        let said = read_lines(alloc, net, bytes)?;
        let items = items_of(alloc, &said)?;
        Ok(Script { items })
    }
}

// What the lines of a text say.
fn read_lines(alloc: Global, net: &Network, text: &[u8]) -> Result<Vec<ScriptLine>, ScriptFault>
    ensures reading { Gives (λ said. said.items) result (lines_in net.now 1 false (lines text.now)) }
    ensures few { IfOk result (λ said. vec_len said ≤ MOST_LINES) }
{
    let mut said = Vec::with_capacity(
        alloc,
        (text.len() / SCRIPT_LINE_BYTES).min(MOST_LINES as usize),
    )?;
    let mut rest = text;
    let mut is_open = false;
    let mut at = 1;
    while let Some((line, after)) = first_line(rest) {
        is_open = add_line(net, at, is_open, line, &mut said)?;
        rest = after;
        at += 1;
    }
    last_line(at, rest)?;
    Ok(said)
}

// Adds what the line says, and answers whether a round is open behind it.
fn add_line(
    net: &Network,
    at: u32,
    is_open: bool,
    line: &[u8],
    said: &mut Vec<ScriptLine>,
) -> Result<bool, ScriptFault>
    ensures reading { Gives (λ opened. (opened, said.new.items)) result
        (added is_open said.old.items (limited_line net.now at is_open line.now)) }
    ensures count { OnOk result (vec_len said.new ≡ vec_len said.old + 1) }
    ensures limit { OnOk result (at ≤ MOST_LINES) }
{
    let one = &limited_line(net, at, is_open, line)?;
    // An edit is named apart, so that the range of its units is known here.
    match one {
        ScriptLine::Desk {
            desk,
            line: DeskLine::Edit(edit),
        } => said.push(ScriptLine::Desk {
            desk: *desk,
            line: DeskLine::Edit(*edit),
        })?,
        _ => said.push(*one)?,
    }
    Ok(is_open_behind(is_open, one))
}

// A round is open behind the line.
fn is_open_behind(is_open: bool, line: &ScriptLine) -> bool
    ensures { result ≡ is_open_behind is_open line.now }
{
    match line {
        ScriptLine::Round => true,
        ScriptLine::Restart => false,
        _ => is_open,
    }
}

// What a line with a newline behind it says, unless it is one too many.
fn limited_line(
    net: &Network,
    at: u32,
    is_open: bool,
    line: &[u8],
) -> Result<ScriptLine, ScriptFault>
    ensures reading { Gives (λ line. line) result (limited_line net.now at is_open line.now) }
    ensures limit { OnOk result (at ≤ MOST_LINES) }
{
    if at > MOST_LINES {
        return Err(fault_at(ScriptCode::S5, at));
    }
    read_line(net, at, is_open, line)
}

// Nothing stands behind the last newline.
fn last_line(at: u32, rest: &[u8]) -> Result<(), ScriptFault>
    ensures { Gives (λ _. []) result (last_in at rest.now) }
{
    if rest.is_empty() {
        Ok(())
    } else if at > MOST_LINES {
        Err(fault_at(ScriptCode::S5, at))
    } else {
        Err(fault_at(ScriptCode::S1, at))
    }
}
