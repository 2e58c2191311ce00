// Writing the line of a change: its words with a space between each two, and a newline behind the last.
//
//     edit EDITION add FROM TO UNITS                      the edition that the edit makes
//     edit EDITION drop FROM TO UNITS
//     edit EDITION move FROM TO NEWFROM NEWTO UNITS
//     plan EDITION length LENGTH .. end                   the text of the plan, a space in the place of each newline in it
//     load COMMAND EDITION
//     arm COMMAND EDITION DUE                             the superframe of the change
ghost use Rattle.std.specs.Prelude.{◌≡◌, [], ◌++◌, ◌∷◌, IfOk, OnErr, OnOk, codes, decimal, map};
ghost use Rattle.std.specs.Bool.{OnTrue};
ghost use Rattle.bt_text.specs.Text.{spaced};
ghost use Rattle.bt_net.specs.Terminals.{name_at, IsBetweenTerminals};
ghost use Rattle.bt_plan.specs.PlanSpelling.{plan_lines, IsPlanInRange};
ghost use Rattle.bt_journal.specs.Journal.{NamesTerminals};
ghost use Rattle.bt_journal.specs.JournalLines.{edit_words, order_words, change_line, IsChangeInRange};
ghost use Rattle.bt_journal.specs.LineReading.{space_for_newline};

use crate::{Change, Edit};
use bt_air::Order;
use bt_demand::Plan;
use bt_frame::{EditionNo, OutOfMemory, TermNo};
use bt_net::Network;
use bt_plan::plan_text;
use bt_text::ShortText;
use std::alloc::Global;

/// The bytes for which there is room when the text of a line is begun. Most lines of edits are no longer.
const CHANGE_LINE_BYTES: usize = 64;

/// The line of a change, its newline included, as `read_change` reads it. `edition` is the edition that an edit makes;
/// it is not looked at for another change.
pub fn change_text(
    alloc: Global,
    net: &Network,
    edition: EditionNo,
    change: &Change,
) -> Result<Vec<u8>, OutOfMemory>
    requires range { IsChangeInRange net.now edition.0 change.now }
    ensures line { IfOk result (λ line. line.items ≡ change_line net.now edition.0 change.now) }
{
    let mut line = Vec::with_capacity(alloc, CHANGE_LINE_BYTES)?;
    write_change(alloc, net, edition, change, &mut line)?;
    Ok(line)
}

/// Appends the line of a change, its newline included. `edition` is that of `change_text`. Where memory runs out the text is as
/// it was.
pub fn write_change(
    alloc: Global,
    net: &Network,
    edition: EditionNo,
    change: &Change,
    text: &mut Vec<u8>,
) -> Result<(), OutOfMemory>
    requires range { IsChangeInRange net.now edition.0 change.now }
    ensures line { OnOk result (text.new.items ≡ text.old.items ++ change_line net.now edition.0 change.now) }
    ensures unchanged { OnErr result (text.new.items ≡ text.old.items) }
{
    match change {
        Change::Edit(edit) => write_edit(net, edition, *edit, text),
        Change::Install(plan) => {
            let mut line = install_text(alloc, net, plan)?;
            line.push(b'\n')?;
            text.extend_from_slice(line.as_slice())?;
            Ok(())
        }
        Change::Order(order) => write_order(*order, text),
    }
}

// Appends the line of an edit. It is put together in room of a fixed size, and appended at once: it has 94 bytes at most, so that
// it always has room there.
fn write_edit(
    net: &Network,
    edition: EditionNo,
    edit: Edit,
    text: &mut Vec<u8>,
) -> Result<(), OutOfMemory>
    requires { NamesTerminals net.now edit }
    ensures line { OnOk result (text.new.items
        ≡ text.old.items ++ (spaced (codes "edit" ∷ decimal edition.0 ∷ edit_words net.now edit) ++ 10 ∷ [])) }
    ensures unchanged { OnErr result (text.new.items ≡ text.old.items) }
{
    let mut line = ShortText::new();
    if !put_edit(net, edition, edit, &mut line) || !line.put_byte(b'\n') {
        return Err(OutOfMemory);
    }
    text.extend_from_slice(line.as_slice())?;
    Ok(())
}

// Adds the words of an edit to a short text, with a space between each two, where there is room for them.
fn put_edit(net: &Network, edition: EditionNo, edit: Edit, line: &mut ShortText) -> bool
    requires { NamesTerminals net.now edit }
    ensures { OnTrue result (line.new ≡ line.old ++ spaced (codes "edit" ∷ decimal edition.0 ∷ edit_words net.now edit)) }
{
    if !line.put_word(false, b"edit") || !line.put_number(true, u64::from(edition.0)) {
        return false;
    }
    match edit {
        Edit::Add { from, to, units } => {
            line.put_word(true, b"add")
                && put_link(net, from, to, line)
                && line.put_number(true, u64::from(units.get()))
        }
        Edit::Drop { from, to, units } => {
            line.put_word(true, b"drop")
                && put_link(net, from, to, line)
                && line.put_number(true, u64::from(units.get()))
        }
        Edit::Move {
            from,
            to,
            new_from,
            new_to,
            units,
        } => {
            line.put_word(true, b"move")
                && put_link(net, from, to, line)
                && put_link(net, new_from, new_to, line)
                && line.put_number(true, u64::from(units.get()))
        }
    }
}

// Adds the names of a link's ends, each behind a space, where there is room for them.
fn put_link(net: &Network, from: TermNo, to: TermNo, line: &mut ShortText) -> bool
    requires { IsBetweenTerminals net.now from to }
    ensures { OnTrue result (line.new ≡ line.old ++ 32 ∷ (name_at net.now from ++ 32 ∷ name_at net.now to)) }
{
    line.put_word(true, net.name_of(from).as_bytes())
        && line.put_word(true, net.name_of(to).as_bytes())
}

// Appends the line of an order in the same way. It has fewer bytes.
fn write_order(order: Order, text: &mut Vec<u8>) -> Result<(), OutOfMemory>
    ensures line { OnOk result (text.new.items ≡ text.old.items ++ (spaced (order_words order) ++ 10 ∷ [])) }
    ensures unchanged { OnErr result (text.new.items ≡ text.old.items) }
{
    let mut line = ShortText::new();
    if !put_order(order, &mut line) || !line.put_byte(b'\n') {
        return Err(OutOfMemory);
    }
    text.extend_from_slice(line.as_slice())?;
    Ok(())
}

// Adds the words of an order to a short text, with a space between each two, where there is room for them.
fn put_order(order: Order, line: &mut ShortText) -> bool
    ensures { OnTrue result (line.new ≡ line.old ++ spaced (order_words order)) }
{
    match order {
        Order::Load { command, edition } => {
            line.put_word(false, b"load")
                && line.put_number(true, u64::from(command.0))
                && line.put_number(true, u64::from(edition.0))
        }
        Order::Arm {
            command,
            edition,
            due,
        } => {
            line.put_word(false, b"arm")
                && line.put_number(true, u64::from(command.0))
                && line.put_number(true, u64::from(edition.0))
                && line.put_number(true, u64::from(due.0))
        }
    }
}

// The text of a plan with its lines in one, a space between each two.
fn install_text(alloc: Global, net: &Network, plan: &Plan) -> Result<Vec<u8>, OutOfMemory>
    requires range { IsPlanInRange net.now plan.now }
    ensures { IfOk result (λ text. text.items ≡ spaced (plan_lines net.now plan.now)) }
{
    // This is there for what holds of each network: it is sound.
    let _beams = net.beam_count();
    let mut text = plan_text(alloc, net, plan)?;
    join_lines(&mut text);
    let _last = text.pop();
    Ok(text)
}

// Puts a space in the place of each newline.
fn join_lines(text: &mut Vec<u8>)
    ensures { text.new.items ≡ map space_for_newline text.old.items }
{
    space_newlines(text.as_mut_slice());
}

fn space_newlines(text: &mut [u8])
    ensures { text.new ≡ map space_for_newline text.old }
{
    for byte in text.iter_mut() {
        *byte = space_for_newline(*byte);
    }
}

// A space in the place of a newline, and each other byte as it is.
fn space_for_newline(byte: u8) -> u8
    ensures { result ≡ space_for_newline byte }
{
    if byte == b'\n' { b' ' } else { byte }
}
