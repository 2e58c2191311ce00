// The use of each beam, up and down, as bars with their numbers.
ghost use Rattle.std.specs.Prelude.{◌≡◌, ◌++◌, ◌<◌, flat_map, length, OnOk};
ghost use Rattle.bt_look.specs.Room.{beams_of};
ghost use Rattle.bt_chart.specs.Pieces.{columns_text};
ghost use Rattle.bt_chart.specs.Page.{beam_rows, beams_text, way_row};

use crate::pieces::{add_side, add_words};
use bt_frame::{BeamNo, OutOfMemory};
use bt_matrix::{Dense, Traffic};
use bt_net::Network;
use bt_words::Word;
use std::alloc::Global;

/// Appends the table of all beams.
pub(crate) fn add_beams(
    alloc: Global,
    net: &Network,
    matrix: &Dense,
    out: &mut Vec<u8>,
) -> Result<(), OutOfMemory>
    requires size { length matrix.now ≡ length net.now.beams }
    ensures { OnOk result (out.new.items ≡ out.old.items ++ beams_text net.now matrix.now) }
{
    add_columns(alloc, u64::from(net.slots()), out)?;
    add_rows(alloc, net, matrix, out)?;
    add_words(
        alloc,
        &[Word::Text("</tbody>\n</table>\n</section>\n")],
        out,
    )
}

/// Appends what stands over the rows, for a frame of so many slots.
fn add_columns(alloc: Global, slots: u64, out: &mut Vec<u8>) -> Result<(), OutOfMemory>
    ensures { OnOk result (out.new.items ≡ out.old.items ++ columns_text slots) }
{
    let words = [
        Word::Text("<section aria-labelledby='beams'>\n<h2 id='beams'>"),
        Word::Text("Slots of each beam</h2>\n<table>\n<thead><tr>"),
        Word::Text("<th scope='col'>beam</th><th scope='col'>way</th>"),
        Word::Text("<th scope='col'>asked of "),
        Word::Number(slots),
        Word::Text("</th><th scope='col'>asked</th>"),
        Word::Text("<th scope='col'>free</th></tr></thead>\n<tbody>\n"),
    ];
    add_words(alloc, &words, out)
}

/// Appends the rows of all beams.
fn add_rows(
    alloc: Global,
    net: &Network,
    matrix: &Dense,
    out: &mut Vec<u8>,
) -> Result<(), OutOfMemory>
    requires size { length matrix.now ≡ length net.now.beams }
    ensures { OnOk result (out.new.items ≡ out.old.items ++ flat_map (beam_rows net.now matrix.now) (beams_of net.now)) }
{
    for beam in 0..net.beam_count() {
        add_beam(alloc, net, matrix, BeamNo(beam as u8), out)?;
    }
    Ok(())
}

/// Appends the two rows of a beam.
fn add_beam(
    alloc: Global,
    net: &Network,
    matrix: &Dense,
    beam: BeamNo,
    out: &mut Vec<u8>,
) -> Result<(), OutOfMemory>
    requires size { length matrix.now ≡ length net.now.beams }
    requires beam { beam.0 < length net.now.beams }
    ensures { OnOk result (out.new.items ≡ out.old.items ++ beam_rows net.now matrix.now beam.0) }
{
    let (slots, name) = (net.slots(), net.beam_name(beam));
    add_way(alloc, name, "up", matrix.row_sum(beam), slots, out)?;
    add_way(alloc, name, "down", matrix.column_sum(beam), slots, out)
}

/// Appends the row of one side of a beam, of which so many of the frame's slots are asked.
fn add_way<'a>(
    alloc: Global,
    name: &'a str,
    side: &'a str,
    asked: u32,
    slots: u32,
    out: &mut Vec<u8>,
) -> Result<(), OutOfMemory>
    ensures { OnOk result (out.new.items ≡ out.old.items ++ way_row name.now side.now asked slots) }
{
    let free = slots.saturating_sub(asked);
    add_side(
        alloc,
        name,
        side,
        u64::from(asked),
        u64::from(free),
        u64::from(slots),
        out,
    )
}
