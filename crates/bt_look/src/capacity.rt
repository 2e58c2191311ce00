// What is asked of each beam, what is free there, and the room between each two.
ghost use Rattle.std.specs.Prelude.{◌≡◌, ◌++◌, ◌<◌, ℕ, IfOk, OnOk, length, min, slice_index};
ghost use Rattle.bt_net.specs.Network.{Net};
ghost use Rattle.bt_net.specs.Terminals.{IsBetweenTerminals};
ghost use Rattle.bt_history.specs.Causes.{Follows};
ghost use Rattle.bt_history.specs.Changes.{matrix_after};
ghost use Rattle.bt_look.specs.Room.{beam_lines, can_link, capacity_lines, free_down, free_up, link_room_line, load_lines, room, room_line, room_of_link, room_lines, rooms_from, side_line, terminals_in};

use crate::state::matrix_in;
use bt_book::Book;
use bt_frame::{BeamNo, OutOfMemory, TermNo};
use bt_matrix::{Dense, Traffic};
use bt_net::Network;
use bt_outside::Keeper;
use bt_words::{Word, add_line};
use std::alloc::Global;

/// The text of what a traffic matrix, n by n for the n beams of the network, asks of each beam in slots per frame and of
/// what is free there, and of the most units that one add more could have between the terminals of each two beams.
pub fn capacity_text(alloc: Global, net: &Network, matrix: &Dense) -> Result<Vec<u8>, OutOfMemory>
    requires beams { length matrix.now ≡ length net.now.beams }
    ensures text { IfOk result (λ text. text.items ≡ capacity_lines net.now matrix.now) }
{
    let mut text = Vec::new(alloc);
    add_loads(alloc, net, matrix, &mut text)?;
    let terminals = count_terminals(alloc, net)?;
    add_rooms(alloc, net, matrix, terminals.as_slice(), &mut text)?;
    Ok(text)
}

/// The same of the demand of a book.
pub fn capacity_of_book<K: Keeper>(
    alloc: Global,
    net: &Network,
    book: &Book<K>,
) -> Result<Vec<u8>, OutOfMemory>
    requires follows { Follows net.now book.now.state.changes }
    ensures text { IfOk result (λ text. text.items ≡ capacity_lines net.now (matrix_after net.now book.now.state.changes)) }
{
    let matrix = matrix_in(alloc, net, book)?;
    capacity_text(alloc, net, &matrix)
}

/// The line of the most units that one add from the one terminal to the other could have beside the demand of a book, 0 where
/// the two are one.
pub fn room_of_book<K: Keeper>(
    alloc: Global,
    net: &Network,
    book: &Book<K>,
    from: TermNo,
    to: TermNo,
) -> Result<Vec<u8>, OutOfMemory>
    requires follows { Follows net.now book.now.state.changes }
    requires terminals { IsBetweenTerminals net.now from to }
    ensures text { IfOk result (λ text. text.items ≡ link_room_line net.now (matrix_after net.now book.now.state.changes) from to) }
{
    let matrix = matrix_in(alloc, net, book)?;
    let units = room_of_link(net, &matrix, from, to);
    let words = [
        Word::Text("room"),
        Word::Text(net.name_of(from)),
        Word::Text(net.name_of(to)),
        Word::number(units),
    ];
    let mut text = Vec::new(alloc);
    add_line(alloc, &words, &mut text)?;
    Ok(text)
}

/// The most units that one add from the one terminal to the other may have.
fn room_of_link(net: &Network, matrix: &Dense, from: TermNo, to: TermNo) -> u32
    requires size { length matrix.now ≡ length net.now.beams }
    requires terminals { IsBetweenTerminals net.now from to }
    ensures { result ≡ room_of_link net.now matrix.now from to }
{
    if from.0 == to.0 {
        0
    } else {
        free_between(net, matrix, net.beam_of(from), net.beam_of(to))
    }
}

/// Appends the lines of all beams: what is asked of them, and what is free there.
pub(crate) fn add_loads(
    alloc: Global,
    net: &Network,
    matrix: &Dense,
    out: &mut Vec<u8>,
) -> Result<(), OutOfMemory>
    requires beams { length matrix.now ≡ length net.now.beams }
    ensures added { OnOk result (out.new.items ≡ out.old.items ++ load_lines net.now matrix.now) }
{
    for beam in 0..net.beam_count() {
        add_load(alloc, net, matrix, BeamNo(beam as u8), out)?;
    }
    Ok(())
}

/// Appends the two lines of a beam.
fn add_load(
    alloc: Global,
    net: &Network,
    matrix: &Dense,
    beam: BeamNo,
    out: &mut Vec<u8>,
) -> Result<(), OutOfMemory>
    requires size { length matrix.now ≡ length net.now.beams }
    requires beam { beam.0 < length net.now.beams }
    ensures added { OnOk result (out.new.items ≡ out.old.items ++ beam_lines net.now matrix.now beam.0) }
{
    let (slots, name) = (net.slots(), net.beam_name(beam));
    add_side(alloc, "up", name, matrix.row_sum(beam), slots, out)?;
    add_side(alloc, "down", name, matrix.column_sum(beam), slots, out)
}

/// Appends the line of one side of a beam, of which so many of the frame's slots are asked.
fn add_side<'a>(
    alloc: Global,
    side: &'a str,
    name: &'a str,
    asked: u32,
    slots: u32,
    out: &mut Vec<u8>,
) -> Result<(), OutOfMemory>
    ensures { OnOk result (out.new.items ≡ out.old.items ++ side_line side.now name.now asked slots) }
{
    let words = [
        Word::Text(side),
        Word::Text(name),
        Word::Text("asked"),
        Word::number(asked),
        Word::Text("free"),
        Word::number(slots.saturating_sub(asked)),
    ];
    add_line(alloc, &words, out)
}

/// How many terminals each beam has, in the order of the beams.
fn count_terminals(alloc: Global, net: &Network) -> Result<Vec<u32>, OutOfMemory>
    ensures each { IfOk result (λ counts. length counts.items ≡ length net.now.beams) }
    ensures counts { IfOk result (λ counts. (beam : ℕ) → beam < length net.now.beams
        → slice_index counts.items beam ≡ terminals_in net.now beam) }
{
    let mut counts = Vec::new(alloc);
    for beam in 0..net.beam_count() {
        counts.push(terminals_in(net, BeamNo(beam as u8)))?;
    }
    Ok(counts)
}

/// How many terminals a beam has.
fn terminals_in(net: &Network, beam: BeamNo) -> u32
    ensures count { result ≡ terminals_in net.now beam.0 }
{
    let mut count = 0;
    for terminal in 0..net.terminal_count() {
        if net.beam_of(TermNo(terminal as u8)) == beam {
            count += 1;
        }
    }
    count
}

/// Appends the lines of the room from each beam to each. `terminals` has the number of terminals of each beam.
fn add_rooms(
    alloc: Global,
    net: &Network,
    matrix: &Dense,
    terminals: &[u32],
    out: &mut Vec<u8>,
) -> Result<(), OutOfMemory>
    requires size { length matrix.now ≡ length net.now.beams }
    requires each { length terminals.now ≡ length net.now.beams }
    requires counts { (beam : ℕ) → beam < length net.now.beams → slice_index terminals.now beam ≡ terminals_in net.now beam }
    ensures added { OnOk result (out.new.items ≡ out.old.items ++ room_lines net.now matrix.now) }
{
    for up in 0..net.beam_count() {
        add_rooms_from(alloc, net, matrix, terminals, BeamNo(up as u8), out)?;
    }
    Ok(())
}

/// Appends the lines of the room from a beam to each.
fn add_rooms_from(
    alloc: Global,
    net: &Network,
    matrix: &Dense,
    terminals: &[u32],
    up: BeamNo,
    out: &mut Vec<u8>,
) -> Result<(), OutOfMemory>
    requires size { length matrix.now ≡ length net.now.beams }
    requires up { up.0 < length net.now.beams }
    requires each { length terminals.now ≡ length net.now.beams }
    requires counts { (beam : ℕ) → beam < length net.now.beams → slice_index terminals.now beam ≡ terminals_in net.now beam }
    ensures added { OnOk result (out.new.items ≡ out.old.items ++ rooms_from net.now matrix.now up.0) }
{
    for down in 0..net.beam_count() {
        add_room(alloc, net, matrix, terminals, (up, BeamNo(down as u8)), out)?;
    }
    Ok(())
}

/// Appends the line of the room from a beam to another, where there is some.
fn add_room(
    alloc: Global,
    net: &Network,
    matrix: &Dense,
    terminals: &[u32],
    pair: (BeamNo, BeamNo),
    out: &mut Vec<u8>,
) -> Result<(), OutOfMemory>
    requires size { length matrix.now ≡ length net.now.beams }
    requires up { pair.0.0 < length net.now.beams }
    requires down { pair.1.0 < length net.now.beams }
    requires each { length terminals.now ≡ length net.now.beams }
    requires counts { (beam : ℕ) → beam < length net.now.beams → slice_index terminals.now beam ≡ terminals_in net.now beam }
    ensures { OnOk result (out.new.items ≡ out.old.items ++ room_line net.now matrix.now pair.0.0 pair.1.0) }
{
    let units = room_between(net, matrix, terminals, pair.0, pair.1);
    if units == 0 {
        return Ok(());
    }
    let words = [
        Word::Text("room"),
        Word::Text(net.beam_name(pair.0)),
        Word::Text(net.beam_name(pair.1)),
        Word::number(units),
    ];
    add_line(alloc, &words, out)
}

/// The most units that one add from a terminal of the one beam to one of the other may have.
fn room_between(net: &Network, matrix: &Dense, terminals: &[u32], up: BeamNo, down: BeamNo) -> u32
    requires size { length matrix.now ≡ length net.now.beams }
    requires up { up.0 < length net.now.beams }
    requires down { down.0 < length net.now.beams }
    requires each { length terminals.now ≡ length net.now.beams }
    requires counts { (beam : ℕ) → beam < length net.now.beams → slice_index terminals.now beam ≡ terminals_in net.now beam }
    ensures { result ≡ room net.now matrix.now up.0 down.0 }
{
    if can_link(terminals, up, down) {
        free_between(net, matrix, up, down)
    } else {
        0
    }
}

/// Whether a terminal of the one beam may send to one of the other.
fn can_link(terminals: &[u32], up: BeamNo, down: BeamNo) -> bool
    requires up { up.0 < length terminals.now }
    requires down { down.0 < length terminals.now }
    ensures { (net : Net) → slice_index terminals.now up.0 ≡ terminals_in net up.0 → slice_index terminals.now down.0 ≡ terminals_in net down.0
        → result ≡ can_link net up.0 down.0 }
{
    let (senders, receivers) = (terminals[up.0 as usize], terminals[down.0 as usize]);
    if up == down {
        senders >= 2
    } else {
        senders >= 1 && receivers >= 1
    }
}

/// The slots that are free at both beams.
fn free_between(net: &Network, matrix: &Dense, up: BeamNo, down: BeamNo) -> u32
    requires size { length matrix.now ≡ length net.now.beams }
    requires up { up.0 < length net.now.beams }
    requires down { down.0 < length net.now.beams }
    ensures { result ≡ min (free_up net.now matrix.now up.0) (free_down net.now matrix.now down.0) }
{
    let slots = net.slots();
    let free_up = slots.saturating_sub(matrix.row_sum(up));
    let free_down = slots.saturating_sub(matrix.column_sum(down));
    free_up.min(free_down)
}
