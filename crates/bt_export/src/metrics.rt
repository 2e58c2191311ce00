// The state of a journal as gauges for a monitor.
ghost use Rattle.std.specs.Prelude.{◌≡◌, ◌<◌, ◌++◌, IfErr, IfOk, OnOk, flat_map, length};
ghost use Rattle.bt_history.specs.Causes.{Follows};
ghost use Rattle.bt_history.specs.Changes.{matrix_after};
ghost use Rattle.bt_look.specs.Look.{IsLookFault};
ghost use Rattle.bt_look.specs.Room.{beams_of};
ghost use Rattle.bt_export.specs.Metrics.{TellsMetrics, asked_lines, beam_gauges, free_lines, gauge_lines, head_lines, journal_gauges, made_gauges, metrics_lines, sample_line, sample_lines};

use crate::look::look;
use bt_book::{Book, RecoverFault, demands_fit_the_frame};
use bt_demand::traffic_of;
use bt_frame::{BeamNo, OutOfMemory};
use bt_matrix::{Dense, Traffic};
use bt_net::Network;
use bt_outside::Keeper;
use bt_words::{Word, add_line, add_word};
use std::alloc::Global;

/// The state that a journal's bytes tell, as gauges in the text format of Prometheus: the last edition; the newest plan with its
/// length in slots, its modes and its bursts; the bytes of the lines of its changes, and those for which there is room; and what is
/// asked of each beam in slots per frame, and free there.
pub fn metrics_of_journal(
    alloc: Global,
    net: &Network,
    bytes: Vec<u8>,
) -> Result<Vec<u8>, RecoverFault>
    ensures text { IfOk result (λ text. TellsMetrics net.now bytes.items text.items) }
    ensures fault { IfErr result (IsLookFault net.now bytes.items) }
{
    let book = look(alloc, net, bytes)?;
    Ok(metrics_text(alloc, net, &book)?)
}

/// The gauges of a book.
fn metrics_text<K: Keeper>(
    alloc: Global,
    net: &Network,
    book: &Book<K>,
) -> Result<Vec<u8>, OutOfMemory>
    requires network { book.now.net ≡ net.now }
    requires follows { Follows net.now book.now.state.changes }
    ensures { IfOk result (λ text. text.items ≡ metrics_lines net.now book.now.state.changes) }
{
    let matrix = matrix_in(alloc, net, book)?;
    let mut text = Vec::new(alloc);
    add_made(alloc, book, &mut text)?;
    add_journal(alloc, net, book, &mut text)?;
    add_beams(alloc, net, &matrix, &mut text)?;
    Ok(text)
}

/// The traffic matrix of a book's demand.
fn matrix_in<K: Keeper>(alloc: Global, net: &Network, book: &Book<K>) -> Result<Dense, OutOfMemory>
    requires follows { Follows net.now book.now.state.changes }
    ensures matrix { IfOk result (λ matrix. matrix ≡ matrix_after net.now book.now.state.changes) }
    ensures beams { IfOk result (λ matrix. length matrix ≡ length net.now.beams) }
{
    // This is there for what holds of each network: it is sound, and so its frame has at most `MOST_SLOTS` slots.
    let _beams = net.beam_count();
    demands_fit_the_frame();
    traffic_of(alloc, net, book.demand())
}

/// Appends the gauges of what a book has come to.
fn add_made<K: Keeper>(alloc: Global, book: &Book<K>, out: &mut Vec<u8>) -> Result<(), OutOfMemory>
    ensures { OnOk result (out.new.items ≡ out.old.items ++ made_gauges book.now.state.changes) }
{
    let plan = book.newest();
    let (edition, of_plan) = (book.edition().0, plan.edition.0);
    let (slots, modes) = (plan.schedule.length, plan.schedule.modes.as_slice().len());
    let bursts = plan.bursts.as_slice().len();
    add_gauge(
        alloc,
        "nozgurt_edition",
        "Edits of the demand that were made.",
        u64::from(edition),
        out,
    )?;
    add_gauge(
        alloc,
        "nozgurt_plan_edition",
        "Edition of the newest plan.",
        u64::from(of_plan),
        out,
    )?;
    add_gauge(
        alloc,
        "nozgurt_plan_slots",
        "Slots of a frame that the newest plan takes.",
        u64::from(slots),
        out,
    )?;
    add_gauge(
        alloc,
        "nozgurt_plan_modes",
        "Switching modes of the newest plan.",
        modes as u64,
        out,
    )?;
    add_gauge(
        alloc,
        "nozgurt_plan_bursts",
        "Bursts of the newest plan.",
        bursts as u64,
        out,
    )
}

/// Appends the gauges of how full its journal is.
fn add_journal<K: Keeper>(
    alloc: Global,
    net: &Network,
    book: &Book<K>,
    out: &mut Vec<u8>,
) -> Result<(), OutOfMemory>
    requires network { book.now.net ≡ net.now }
    ensures { OnOk result (out.new.items ≡ out.old.items ++ journal_gauges net.now book.now.state.changes) }
{
    let bytes = book.line_bytes();
    let room = net.journal().saturating_sub(bytes);
    add_gauge(
        alloc,
        "nozgurt_journal_bytes",
        "Bytes of the lines of changes.",
        u64::from(bytes),
        out,
    )?;
    add_gauge(
        alloc,
        "nozgurt_journal_room_bytes",
        "Bytes that the network leaves for further lines.",
        u64::from(room),
        out,
    )
}

/// Appends a gauge of one number.
fn add_gauge<'a>(
    alloc: Global,
    name: &'a str,
    help: &'a str,
    number: u64,
    out: &mut Vec<u8>,
) -> Result<(), OutOfMemory>
    ensures { OnOk result (out.new.items ≡ out.old.items ++ gauge_lines name.now help.now number) }
{
    add_head(alloc, name, help, out)?;
    add_line(alloc, &[Word::Text(name), Word::Number(number)], out)
}

/// Appends what the numbers below say.
fn add_head<'a>(
    alloc: Global,
    name: &'a str,
    help: &'a str,
    out: &mut Vec<u8>,
) -> Result<(), OutOfMemory>
    ensures { OnOk result (out.new.items ≡ out.old.items ++ head_lines name.now help.now) }
{
    let words = [Word::Text("# HELP"), Word::Text(name), Word::Text(help)];
    add_line(alloc, &words, out)?;
    let words = [Word::Text("# TYPE"), Word::Text(name), Word::Text("gauge")];
    add_line(alloc, &words, out)
}

/// Appends the gauges of all beams.
fn add_beams(
    alloc: Global,
    net: &Network,
    matrix: &Dense,
    out: &mut Vec<u8>,
) -> Result<(), OutOfMemory>
    requires size { length matrix.now ≡ length net.now.beams }
    ensures { OnOk result (out.new.items ≡ out.old.items ++ beam_gauges net.now matrix.now) }
{
    add_head(
        alloc,
        "nozgurt_slots_asked",
        "Slots of a frame that are asked of a beam.",
        out,
    )?;
    add_asked(alloc, net, matrix, out)?;
    add_head(
        alloc,
        "nozgurt_slots_free",
        "Slots of a frame that are free at a beam.",
        out,
    )?;
    add_free(alloc, net, matrix, out)
}

/// Appends what is asked of each beam.
fn add_asked(
    alloc: Global,
    net: &Network,
    matrix: &Dense,
    out: &mut Vec<u8>,
) -> Result<(), OutOfMemory>
    requires size { length matrix.now ≡ length net.now.beams }
    ensures { OnOk result (out.new.items ≡ out.old.items ++ flat_map (asked_lines net.now matrix.now) (beams_of net.now)) }
{
    for beam in 0..net.beam_count() {
        add_asked_of(alloc, net, matrix, BeamNo(beam as u8), out)?;
    }
    Ok(())
}

/// Appends what is asked of a beam.
fn add_asked_of(
    alloc: Global,
    net: &Network,
    matrix: &Dense,
    beam: BeamNo,
    out: &mut Vec<u8>,
) -> Result<(), OutOfMemory>
    requires size { length matrix.now ≡ length net.now.beams }
    requires beam { beam.0 < length net.now.beams }
    ensures { OnOk result (out.new.items ≡ out.old.items ++ asked_lines net.now matrix.now beam.0) }
{
    let (up, down) = (matrix.row_sum(beam), matrix.column_sum(beam));
    add_sides(
        alloc,
        "nozgurt_slots_asked",
        net.beam_name(beam),
        (up, down),
        out,
    )
}

/// Appends what is free at each beam.
fn add_free(
    alloc: Global,
    net: &Network,
    matrix: &Dense,
    out: &mut Vec<u8>,
) -> Result<(), OutOfMemory>
    requires size { length matrix.now ≡ length net.now.beams }
    ensures { OnOk result (out.new.items ≡ out.old.items ++ flat_map (free_lines net.now matrix.now) (beams_of net.now)) }
{
    for beam in 0..net.beam_count() {
        add_free_of(alloc, net, matrix, BeamNo(beam as u8), out)?;
    }
    Ok(())
}

/// Appends what is free at a beam.
fn add_free_of(
    alloc: Global,
    net: &Network,
    matrix: &Dense,
    beam: BeamNo,
    out: &mut Vec<u8>,
) -> Result<(), OutOfMemory>
    requires size { length matrix.now ≡ length net.now.beams }
    requires beam { beam.0 < length net.now.beams }
    ensures { OnOk result (out.new.items ≡ out.old.items ++ free_lines net.now matrix.now beam.0) }
{
    let slots = net.slots();
    let up = slots.saturating_sub(matrix.row_sum(beam));
    let down = slots.saturating_sub(matrix.column_sum(beam));
    add_sides(
        alloc,
        "nozgurt_slots_free",
        net.beam_name(beam),
        (up, down),
        out,
    )
}

/// Appends the numbers of both sides of a beam, up and down.
fn add_sides<'a>(
    alloc: Global,
    name: &'a str,
    beam: &'a str,
    sides: (u32, u32),
    out: &mut Vec<u8>,
) -> Result<(), OutOfMemory>
    ensures { OnOk result (out.new.items ≡ out.old.items ++ sample_lines name.now beam.now sides.0 sides.1) }
{
    add_sample(alloc, name, beam, "up", sides.0, out)?;
    add_sample(alloc, name, beam, "down", sides.1, out)
}

/// Appends the number of one side of a beam.
fn add_sample<'a>(
    alloc: Global,
    name: &'a str,
    beam: &'a str,
    way: &'a str,
    number: u32,
    out: &mut Vec<u8>,
) -> Result<(), OutOfMemory>
    ensures { OnOk result (out.new.items ≡ out.old.items ++ sample_line name.now beam.now way.now number) }
{
    add_word(alloc, &Word::Text(name), out)?;
    add_word(alloc, &Word::Text("{beam=\""), out)?;
    add_word(alloc, &Word::Text(beam), out)?;
    add_word(alloc, &Word::Text("\",way=\""), out)?;
    add_word(alloc, &Word::Text(way), out)?;
    add_word(alloc, &Word::Text("\"} "), out)?;
    add_word(alloc, &Word::number(number), out)?;
    Ok(out.push(b'\n')?)
}
