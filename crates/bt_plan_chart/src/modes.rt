// The band of the modes, over the lanes.
ghost use Rattle.std.specs.Prelude.{◌≡◌, ◌++◌, ◌+◌, ◌^◌, ◌≤◌, [], ◌∷◌, codes, length, string_bytes, IfOk, OnOk};
ghost use Rattle.bt_picture.specs.Picture.{drawn, words_text, Titled};
ghost use Rattle.bt_plan_chart.specs.Chart.{are_below, are_distinct, band_of, band_shapes, bands_parts, connections_text, is_permutation, mode_ending, mode_part, mode_part_from, mode_parts_from, modes_parts, name_of_beam};
ghost use Rattle.bt_plan_chart.specs.declared.bursts.TheConstants.{ARROW};
ghost use Rattle.bt_plan_chart.specs.Parts.{parts_text};
ghost use Rattle.bt_plan_chart.specs.Scale.{IsScale};

use crate::Scale;
use crate::bursts::ARROW;
use crate::heading::{counted, name_of_beam};
use crate::part::{add_alone, add_titled};
use crate::scale::{is_shown, width_between, x_of};
use bt_frame::{BeamNo, Mode, OutOfMemory};
use bt_net::Network;
use bt_picture::{Anchor, Point, Rect, Shape, Style};
use bt_words::Word;
use std::alloc::Global;

/// Appends the bands of all modes.
pub(crate) fn add_modes(
    alloc: Global,
    net: &Network,
    scale: Scale,
    modes: &[Mode],
    out: &mut Vec<u8>,
) -> Result<(), OutOfMemory>
    requires scale { IsScale scale }
    requires few { length modes.now ≤ 2147483648 }
    ensures { OnOk result (out.new.items ≡ out.old.items ++ parts_text (modes_parts net.now scale modes.now)) }
{
    let words = [Word::Text("modes")];
    let at = Point { x: 1560, y: 1740 };
    add_alone(
        alloc,
        Shape::Label(at, Anchor::End, Style::Text, &words),
        out,
    )?;
    add_bands(alloc, net, scale, modes, out)
}

/// Appends the bands of the modes of which slots are shown.
fn add_bands(
    alloc: Global,
    net: &Network,
    scale: Scale,
    modes: &[Mode],
    out: &mut Vec<u8>,
) -> Result<(), OutOfMemory>
    requires scale { IsScale scale }
    requires few { length modes.now ≤ 2147483648 }
    ensures { OnOk result (out.new.items ≡ out.old.items ++ parts_text (bands_parts net.now scale modes.now)) }
{
    let mut begin = 0u64;
    for (place, mode) in modes.iter().enumerate() {
        add_mode_if_shown(alloc, net, scale, place as u64, begin, mode, out)?;
        begin += u64::from(mode.duration);
    }
    Ok(())
}

/// Appends the band of a mode that begins at a slot, where slots of it are shown.
#[tactic(auto, using(crate::proofs::Adding::left_out))]
fn add_mode_if_shown(
    alloc: Global,
    net: &Network,
    scale: Scale,
    place: u64,
    begin: u64,
    mode: &Mode,
    out: &mut Vec<u8>,
) -> Result<(), OutOfMemory>
    requires scale { IsScale scale }
    requires begin { begin ≤ 2 ^ 63 }
    ensures { OnOk result (out.new.items ≡ out.old.items ++ parts_text (mode_parts_from net.now scale place begin mode.now)) }
{
    let shown = is_shown(scale, begin, begin + u64::from(mode.duration));
    if shown {
        add_mode(alloc, net, scale, place, begin, mode, out)
    } else {
        Ok(())
    }
}

/// Appends the band of a mode that begins at a slot.
fn add_mode(
    alloc: Global,
    net: &Network,
    scale: Scale,
    place: u64,
    begin: u64,
    mode: &Mode,
    out: &mut Vec<u8>,
) -> Result<(), OutOfMemory>
    requires scale { IsScale scale }
    requires begin { begin ≤ 2 ^ 63 }
    ensures { OnOk result (out.new.items ≡ out.old.items ++ parts_text (mode_part_from net.now scale place begin mode.now ∷ [])) }
{
    let duration = u64::from(mode.duration);
    let good = is_permutation(scale.beams, mode.perm.as_slice());
    let band = band_of(scale, begin, begin + duration);
    let connections = connections_of(alloc, net, mode.perm.as_slice())?;
    add_band(
        alloc,
        place,
        duration,
        good,
        connections.as_str(),
        band,
        out,
    )
}

/// What a mode connects: each uplink beam with its downlink beam, in the order of the uplinks.
pub fn connections_of(alloc: Global, net: &Network, perm: &[u8]) -> Result<String, OutOfMemory>
    ensures told { IfOk result (λ text. string_bytes text ≡ connections_text net.now perm.now) }
{
    let mut text = String::new(alloc);
    for up in 0..perm.len() {
        add_connection(net, up as u64, u64::from(perm[up]), &mut text)?;
    }
    Ok(text)
}

/// Appends the connection of an uplink beam with a downlink beam.
fn add_connection(net: &Network, up: u64, down: u64, text: &mut String) -> Result<(), OutOfMemory>
    ensures { OnOk result (string_bytes text.new ≡ string_bytes text.old ++ codes " " ++ name_of_beam net.now up ++ ARROW.now ++ name_of_beam net.now down) }
{
    text.push_str(" ")?;
    text.push_str(name_if_any(net, up))?;
    text.push_str(ARROW)?;
    text.push_str(name_if_any(net, down))?;
    Ok(())
}

/// The name of a beam, and nothing where the network has none of that number.
fn name_if_any(net: &Network, beam: u64) -> &str
    ensures { result.now ≡ name_of_beam net.now beam }
{
    if beam < u64::from(net.beam_count()) {
        name_of_beam(net, BeamNo(beam as u8))
    } else {
        ""
    }
}

/// The band from a slot to another, cut where the picture ends.
fn band_of(scale: Scale, begin: u64, end: u64) -> Rect
    requires scale { IsScale scale }
    requires forth { begin ≤ end }
    ensures same { result ≡ band_of scale begin end }
    ensures across { result.x ≤ 2 ^ 48 }
    ensures wide { result.width ≤ 2 ^ 48 }
{
    let first = begin.min(scale.end);
    let last = end.min(scale.end);
    Rect {
        x: x_of(scale, first),
        y: 1520,
        width: width_between(scale, first, last),
        height: 280,
    }
}

/// Whether no two of the downlinks are the same.
fn are_distinct(perm: &[u8]) -> bool
    ensures { result ≡ are_distinct perm.now }
{
    match perm {
        [down, rest @ ..] => !rest.contains(down) && are_distinct(rest),
        _ => true,
    }
}

/// Whether a mode sends each beam to a beam of its own.
fn is_permutation(beams: u64, perm: &[u8]) -> bool
    ensures { result ≡ is_permutation beams perm.now }
{
    perm.len() as u64 == beams && are_below(beams, perm) && are_distinct(perm)
}

/// Whether each of the downlinks is one of so many beams.
fn are_below(beams: u64, perm: &[u8]) -> bool
    ensures { result ≡ are_below beams perm.now }
{
    perm.iter().all(|down| u64::from(*down) < beams)
}

/// Appends a band, with its duration and its connections where there is room.
fn add_band(
    alloc: Global,
    place: u64,
    duration: u64,
    good: bool,
    connections: &str,
    band: Rect,
    out: &mut Vec<u8>,
) -> Result<(), OutOfMemory>
    requires across { band.x ≤ 2 ^ 48 }
    requires wide { band.width ≤ 2 ^ 48 }
    ensures { OnOk result (out.new.items ≡ out.old.items ++ parts_text (mode_part place duration good connections.now band ∷ [])) }
{
    let title = [
        Word::Text("mode "),
        Word::Number(place),
        Word::Text(", "),
        Word::Number(duration),
        Word::Text(counted(duration, " slot:", " slots:")),
        Word::Text(connections),
        Word::Text(mode_ending(good)),
    ];
    let x = band.x + band.width / 2;
    if band.width < 500 {
        add_bare(alloc, &title, good, band, out)
    } else if (connections.len() as u64) + 12 < band.width / 92 {
        let all = [
            Word::Number(duration),
            Word::Text(":"),
            Word::Text(connections),
        ];
        let label = Shape::Label(Point { x, y: 1720 }, Anchor::Middle, Style::Small, &all);
        add_labelled(alloc, &title, good, band, label, out)
    } else {
        let number = [Word::Number(duration)];
        let label = Shape::Label(Point { x, y: 1740 }, Anchor::Middle, Style::Text, &number);
        add_labelled(alloc, &title, good, band, label, out)
    }
}

/// Appends a band under a title, with a mark where it is not good.
fn add_bare(
    alloc: Global,
    title: &[Word<'_>],
    good: bool,
    band: Rect,
    out: &mut Vec<u8>,
) -> Result<(), OutOfMemory>
    ensures { OnOk result (out.new.items ≡ out.old.items
        ++ parts_text (Titled (words_text title.now) (band_shapes good band ++ []) ∷ [])) }
{
    let look = Shape::Rectangle(band, Style::Band);
    if good {
        add_titled(alloc, title, &[look], out)
    } else {
        let fault = Shape::Rectangle(band, Style::Fault);
        add_titled(alloc, title, &[look, fault], out)
    }
}

/// The same with a label.
fn add_labelled<'x>(
    alloc: Global,
    title: &[Word<'_>],
    good: bool,
    band: Rect,
    label: Shape<'x>,
    out: &mut Vec<u8>,
) -> Result<(), OutOfMemory>
    ensures { OnOk result (out.new.items ≡ out.old.items
        ++ parts_text (Titled (words_text title.now) (band_shapes good band ++ drawn label.entry ∷ []) ∷ [])) }
{
    let look = Shape::Rectangle(band, Style::Band);
    if good {
        add_titled(alloc, title, &[look, label], out)
    } else {
        let fault = Shape::Rectangle(band, Style::Fault);
        add_titled(alloc, title, &[look, fault, label], out)
    }
}

/// How the title of a mode ends.
fn mode_ending(good: bool) -> &'static str
    ensures { result.now ≡ mode_ending good }
{
    if good {
        ""
    } else {
        "; no permutation of the beams"
    }
}
