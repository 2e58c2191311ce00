// What a line that a station hears asks.
//
//     tick            the next superframe begins              the satellite
//     frame           its next frame is shown                 the satellite
//     frame M I       its modem is to transmit                a terminal
//     second          the second reference burst              the standby
//     mark N          superframe N begins                     who hears it
//     radio N HEX     a message, behind its sayer's present   who hears it
ghost use Rattle.std.specs.Prelude.{◌≡◌, ◌≤◌, IfOk, IfSome, length, option_map};
ghost use Rattle.bt_frame.specs.declared.limits.TheConstants.{MOST_STATION_LINE_BYTES};
ghost use Rattle.bt_text.specs.Text.{words};
ghost use Rattle.bt_script.specs.Heard.{bus_line_of};
ghost use Rattle.bt_station.specs.declared.asked.Asked.TheVariants as asked;
ghost use Rattle.bt_station.specs.Asked.{alone, asked_by, asked_of, frame_in};
ghost use Rattle.bt_station.specs.Ready.{IsHeard};

use bt_frame::{Mark, OutOfMemory};
use bt_net::Network;
use bt_script::{BusLine, begun_in, number_in, read_bus_line};
use bt_text::{WordReader, is_word};
use std::alloc::Global;

/// What a line asks.
#[derive(Drop)]
pub enum Asked {
    /// Nothing.
    Remark,
    /// Another said this on the bus.
    Heard(BusLine),
    /// The next superframe of the satellite is to begin.
    Tick,
    /// The next frame of the satellite is to be shown.
    Frame,
    /// The second reference burst is to be said.
    Second,
    /// A terminal's modem asks what to transmit in a frame of a superframe.
    FrameOf(Mark, u32),
}

/// What a line asks; None where it leaves the grammar.
pub(crate) fn read_line(
    alloc: Global,
    net: &Network,
    line: &[u8],
) -> Result<Option<Asked>, OutOfMemory>
    requires short { length line.now ≤ MOST_STATION_LINE_BYTES }
    ensures asked { IfOk result (λ asked. asked ≡ asked_of net.now line.now) }
    ensures heard { IfOk result (λ asked. IfSome asked IsHeard) }
{
    match line {
        [] => Ok(Some(Asked::Remark)),
        [b'#', ..] => Ok(Some(Asked::Remark)),
        _ => read_words(alloc, net, line),
    }
}

/// What the words of a line ask.
fn read_words(alloc: Global, net: &Network, line: &[u8]) -> Result<Option<Asked>, OutOfMemory>
    requires short { length line.now ≤ MOST_STATION_LINE_BYTES }
    ensures asked { IfOk result (λ asked. asked ≡ asked_by net.now (words line.now)) }
    ensures heard { IfOk result (λ asked. IfSome asked IsHeard) }
{
    let mut words = WordReader::of(line);
    let Some(name) = words.next() else {
        return Ok(None);
    };
    let Some(first) = words.next() else {
        return Ok(alone(name));
    };
    let Some(second) = words.next() else {
        return read_heard(alloc, line);
    };
    if !words.is_done() {
        return Ok(None);
    }
    if is_word(name, b"frame") {
        Ok(frame_in(net, first, second))
    } else {
        read_heard(alloc, line)
    }
}

/// What another said on the bus.
fn read_heard(alloc: Global, line: &[u8]) -> Result<Option<Asked>, OutOfMemory>
    requires short { length line.now ≤ MOST_STATION_LINE_BYTES }
    ensures asked { IfOk result (λ one. one ≡ option_map asked.Heard (bus_line_of line.now)) }
    ensures heard { IfOk result (λ asked. IfSome asked IsHeard) }
{
    match read_bus_line(alloc, line)? {
        Some(heard) => Ok(Some(Asked::Heard(heard))),
        None => Ok(None),
    }
}

/// What a line of one word asks.
fn alone(name: &[u8]) -> Option<Asked>
    ensures asked { result ≡ alone name.now }
    ensures heard { IfSome result IsHeard }
{
    if is_word(name, b"tick") {
        Some(Asked::Tick)
    } else if is_word(name, b"frame") {
        Some(Asked::Frame)
    } else if is_word(name, b"second") {
        Some(Asked::Second)
    } else {
        None
    }
}

/// `frame M I`.
fn frame_in(net: &Network, mark: &[u8], number: &[u8]) -> Option<Asked>
    ensures asked { result ≡ frame_in net.now mark.now number.now }
    ensures heard { IfSome result IsHeard }
{
    let superframe = begun_in(mark)?;
    match number_in(net.frames() - 1, number) {
        Some(frame) => Some(Asked::FrameOf(superframe, frame)),
        None => None,
    }
}
