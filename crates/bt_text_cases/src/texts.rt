// What the readers make of texts.
ghost use Rattle.std.specs.Prelude.{IfOk};
ghost use Rattle.std.specs.Bool.{OnTrue};
ghost use Rattle.bt_demand.specs.Traffic.{matrix_of, AreOfNetwork, HasSumsTo};
ghost use Rattle.bt_frame.specs.Critical.{IsOfBeams};
ghost use Rattle.bt_matrix.specs.Traffic.{IsLine};
ghost use Rattle.bt_demand.specs.PlanVerdict.{AreBetweenTerminals};

use bt_demand::{Demand, Plan, Verdict, check_modes, traffic_of};
use bt_frame::{BeamNo, Critical, MOST_BEAMS, MOST_TEXT_BYTES, OutOfMemory, Schedule, TermNo};
use bt_matrix::{Dense, MOST_SUM, Traffic};
use bt_net::Network;
use bt_plan::{plan_text, read_demand, read_matrix, read_plan, read_schedule, schedule_text};
use bt_sheet::{CaseFault, Part, Result, Shelf, number_of, put_lines, take_bytes};
use bt_text::{next_line, number, number_text};
use std::alloc::Global;

/// Shows what the readers make of a text.
pub fn show_text(alloc: Global, shelf: &Shelf, words: &[&str], out: &mut String) -> Result<bool> {
    match *words {
        ["number", word] => put_number(alloc, word, out),
        [name, text] => show_alone(alloc, shelf, name, text, out),
        [name, first, second] => show_with(alloc, shelf, name, [first, second], out),
        ["sum", place, start, text] => put_sum(alloc, shelf, place, [start, text], out),
        _ => Ok(false),
    }
}

/// Shows what the readers make of a text that is read by itself.
fn show_alone(
    alloc: Global,
    shelf: &Shelf,
    name: &str,
    text: &str,
    out: &mut String,
) -> Result<bool> {
    let shown = match name {
        "network" => put_network(alloc, shelf, text, out),
        "matrix" => put_matrix(alloc, shelf, text, out),
        _ => return Ok(false),
    };
    shown?;
    Ok(true)
}

/// Shows what the readers make of a text beside a word.
fn show_with(
    alloc: Global,
    shelf: &Shelf,
    name: &str,
    words: [&str; 2],
    out: &mut String,
) -> Result<bool> {
    let [first, second] = words;
    let shown = match name {
        "line" => put_line_end(shelf, first, second, out),
        "count" => put_count(alloc, shelf, first, second, out),
        "ending" => put_ending(alloc, shelf, first, second, out),
        "schedule" => put_schedule(alloc, shelf, first, second, out),
        "demand" | "traffic" | "plan" => show_over(alloc, shelf, name, words, out),
        _ => return Ok(false),
    };
    shown?;
    Ok(true)
}

/// Shows what the readers make of a text over a network.
fn show_over(
    alloc: Global,
    shelf: &Shelf,
    name: &str,
    texts: [&str; 2],
    out: &mut String,
) -> Result<()> {
    let [net, text] = texts;
    put_over_text(alloc, shelf.text(net)?, name, shelf.text(text)?, out)
}

/// Appends what the readers make of a text over the network of another.
fn put_over_text(
    alloc: Global,
    net: &[u8],
    name: &str,
    text: &[u8],
    out: &mut String,
) -> Result<()> {
    match Network::read(alloc, net) {
        Ok(net) => put_over(alloc, &net, name, text, out),
        Err(_fault) => Err(CaseFault("no network")),
    }
}

/// Appends a plan, or the links or the matrix of a demand.
fn put_over(alloc: Global, net: &Network, name: &str, text: &[u8], out: &mut String) -> Result<()> {
    match name {
        "plan" => put_plan(alloc, net, text, out),
        "demand" => put_links(&demand_from(alloc, net, text)?, out),
        _ => put_traffic(alloc, net, text, out),
    }
}

/// Appends the number that a word spells, printed again; true, as for each line that is taken.
fn put_number(alloc: Global, word: &str, out: &mut String) -> Result<bool> {
    let mut spelling = Vec::new(alloc);
    take_bytes(word, &mut spelling)?;
    put_spelled(alloc, number(&spelling), out)?;
    Ok(true)
}

fn put_spelled(alloc: Global, number: Option<u64>, out: &mut String) -> Result<()> {
    let mut text = Vec::new(alloc);
    spell(alloc, number, &mut text)?;
    put_lines(alloc, &text, Part::All, out)
}

fn spell(alloc: Global, number: Option<u64>, text: &mut Vec<u8>) -> Result<()> {
    match number {
        Some(number) => {
            if number_text(alloc, number, text).is_err() {
                return Err(CaseFault("out of memory"));
            }
        }
        None => text.extend_from_slice(b"none")?,
    }
    text.push(b'\n')?;
    Ok(())
}

/// Appends the place of the newline of the line that begins at that place.
fn put_line_end(shelf: &Shelf, text: &str, place: &str, out: &mut String) -> Result<()> {
    put_end_from(shelf.text(text)?, number_of(place)? as usize, out)
}

fn put_end_from(bytes: &[u8], place: usize, out: &mut String) -> Result<()> {
    if bytes.len() < place {
        return Err(CaseFault("a place past the end"));
    }
    let put = match next_line(bytes, place) {
        Some((start, end)) => write!(out, ">{start} to {end}\n"),
        None => out.push_str(">none\n"),
    };
    Ok(put?)
}

/// Appends how many lines begin with that text.
fn put_count(alloc: Global, shelf: &Shelf, text: &str, file: &str, out: &mut String) -> Result<()> {
    let start = bytes_of(alloc, text)?;
    let count = count_of(shelf.text(file)?, &start);
    Ok(write!(out, ">{count}\n")?)
}

/// Appends how many lines end with that text.
fn put_ending(
    alloc: Global,
    shelf: &Shelf,
    text: &str,
    file: &str,
    out: &mut String,
) -> Result<()> {
    let end = bytes_of(alloc, text)?;
    let count = count_ending(shelf.text(file)?, &end);
    Ok(write!(out, ">{count}\n")?)
}

/// How many lines begin so.
fn count_of(bytes: &[u8], start: &[u8]) -> u64 {
    let mut count = 0u64;
    for line in bytes.split(|byte| *byte == b'\n') {
        if line.starts_with(start) {
            count = count.saturating_add(1);
        }
    }
    count
}

/// How many lines end so.
fn count_ending(bytes: &[u8], end: &[u8]) -> u64 {
    let mut count = 0u64;
    for line in bytes.split(|byte| *byte == b'\n') {
        if line.ends_with(end) {
            count = count.saturating_add(1);
        }
    }
    count
}

/// The bytes that a word of a line of cases spells.
fn bytes_of(alloc: Global, word: &str) -> Result<Vec<u8>> {
    let mut bytes = Vec::new(alloc);
    take_bytes(word, &mut bytes)?;
    Ok(bytes)
}

/// Appends the sum of the numbers that stand at that place, counted from 0, among the words of the lines that begin with a
/// text; true, as for each line that is taken.
fn put_sum(
    alloc: Global,
    shelf: &Shelf,
    place: &str,
    words: [&str; 2],
    out: &mut String,
) -> Result<bool> {
    let [text, file] = words;
    let start = bytes_of(alloc, text)?;
    let sum = sum_of(shelf.text(file)?, &start, number_of(place)? as usize)?;
    write!(out, ">{sum}\n")?;
    Ok(true)
}

/// The sum of the numbers at that place in the lines that begin so.
fn sum_of(bytes: &[u8], start: &[u8], place: usize) -> Result<u64> {
    let mut sum = 0u64;
    for line in bytes.split(|byte| *byte == b'\n') {
        if line.starts_with(start) {
            sum = sum.saturating_add(number_at(line, place)?);
        }
    }
    Ok(sum)
}

/// The number that is the word of a line at that place.
fn number_at(line: &[u8], place: usize) -> Result<u64> {
    let mut at = 0usize;
    for word in line.split(|byte| *byte == b' ') {
        if at == place {
            return number(word).ok_or(CaseFault("no number"));
        }
        at = at.saturating_add(1);
    }
    Err(CaseFault("no word at that place"))
}

/// Appends the rows of a matrix.
fn put_matrix(alloc: Global, shelf: &Shelf, text: &str, out: &mut String) -> Result<()> {
    let matrix = matrix_from(alloc, shelf.text(text)?)?;
    put_rows(&matrix, out)
}

/// Appends the rows of the traffic matrix of a demand.
fn put_traffic(alloc: Global, net: &Network, traffic: &[u8], out: &mut String) -> Result<()> {
    let demand = demand_from(alloc, net, traffic)?;
    let Ok(matrix) = traffic_of(alloc, net, &demand) else {
        return Err(CaseFault("out of memory"));
    };
    put_rows(&matrix, out)
}

fn put_rows(matrix: &Dense, out: &mut String) -> Result<()> {
    let size = matrix.size() as u8;
    for up in 0..size {
        out.push('>')?;
        for down in 0..size {
            let units = matrix.get(BeamNo(up), BeamNo(down));
            let space = if down == 0 { "" } else { " " };
            write!(out, "{space}{units}")?;
        }
        out.push('\n')?;
    }
    Ok(())
}

/// Appends each link with its slots, its ends by number.
pub fn put_links(demand: &Demand, out: &mut String) -> Result<()> {
    for row in demand.rows() {
        for link in row.as_slice() {
            let (TermNo(from), TermNo(to), units) = (link.from, link.to, link.units);
            write!(out, ">{from} {to} {units}\n")?;
        }
    }
    Ok(())
}

/// Appends a copy of a network: its beams, its terminals with the numbers of their beams, and its numbers.
fn put_network(alloc: Global, shelf: &Shelf, text: &str, out: &mut String) -> Result<()> {
    match Network::read(alloc, shelf.text(text)?) {
        Ok(net) => put_copy(alloc, &net, out),
        Err(_fault) => Err(CaseFault("no network")),
    }
}

fn put_copy(alloc: Global, net: &Network, out: &mut String) -> Result<()> {
    match net.copy(alloc) {
        Ok(copy) => put_net(&copy, out),
        Err(_full) => Err(CaseFault("out of memory")),
    }
}

fn put_net(net: &Network, out: &mut String) -> Result<()> {
    put_beams(net, out)?;
    put_terminals(net, out)?;
    put_settings(net, out)
}

fn put_beams(net: &Network, out: &mut String) -> Result<()> {
    for beam in 0..net.beam_count() as u8 {
        write!(out, ">beam {}\n", net.beam_name(BeamNo(beam)))?;
    }
    Ok(())
}

fn put_terminals(net: &Network, out: &mut String) -> Result<()> {
    for terminal in 0..net.terminal_count() as u8 {
        let name = net.name_of(TermNo(terminal));
        let beam = net.beam_of(TermNo(terminal));
        write!(out, ">terminal {name} {}\n", beam.0)?;
    }
    Ok(())
}

fn put_settings(net: &Network, out: &mut String) -> Result<()> {
    let (slots, frames, lead) = (net.slots(), net.frames(), net.lead());
    let (patience, journal) = (net.patience(), net.journal());
    write!(out, ">slots {slots} frames {frames} lead {lead}\n")?;
    write!(out, ">patience {patience} journal {journal}\n")?;
    Ok(())
}

/// Appends a schedule, read for so many beams and written again.
fn put_schedule(
    alloc: Global,
    shelf: &Shelf,
    beams: &str,
    text: &str,
    out: &mut String,
) -> Result<()> {
    let schedule = schedule_from(alloc, number_of(beams)?, shelf.text(text)?)?;
    put_text(alloc, schedule_text(alloc, &schedule), out)
}

/// Appends a text that was written.
pub fn put_text(alloc: Global, text: Result<Vec<u8>, OutOfMemory>, out: &mut String) -> Result<()> {
    match text {
        Ok(text) => put_lines(alloc, &text, Part::All, out),
        Err(_full) => Err(CaseFault("out of memory")),
    }
}

/// Appends a plan, read, copied, and written again.
fn put_plan(alloc: Global, net: &Network, bytes: &[u8], out: &mut String) -> Result<()> {
    if MOST_TEXT_BYTES < bytes.len() {
        return Err(CaseFault("a long text"));
    }
    let Ok(plan) = read_plan(alloc, net, bytes) else {
        return Err(CaseFault("no plan"));
    };
    put_text(alloc, text_of_copy(alloc, net, &plan), out)
}

/// The text of a copy of a plan.
fn text_of_copy(alloc: Global, net: &Network, plan: &Plan) -> Result<Vec<u8>, OutOfMemory>
    requires { AreBetweenTerminals net.now plan.now.bursts }
{
    let copy = plan.copy(alloc)?;
    plan_text(alloc, net, &copy)
}

/// Appends the verdict on a schedule that was read for another number of beams than the matrix has.
pub fn put_verdict(
    alloc: Global,
    matrix: &[u8],
    beams: &str,
    modes: &[u8],
    out: &mut String,
) -> Result<()> {
    let matrix = matrix_from(alloc, matrix)?;
    let schedule = schedule_from(alloc, number_of(beams)?, modes)?;
    put_verdict_on(&matrix, &schedule, out)
}

/// Appends the verdict on a schedule.
fn put_verdict_on(matrix: &Dense, schedule: &Schedule, out: &mut String) -> Result<()> {
    if !is_line(matrix, schedule.critical) {
        return Err(CaseFault("a line of no beam"));
    }
    match check_modes(matrix, schedule) {
        Verdict::Good => out.push_str(">good\n")?,
        Verdict::V1 { mode } => write!(out, ">V1 {mode}\n")?,
        _ => return Err(CaseFault("a verdict that a command prints")),
    }
    Ok(())
}

/// The line is one of the matrix.
pub fn is_line(matrix: &Dense, line: Critical) -> bool
    ensures line { OnTrue result (IsLine matrix.now line) }
{
    match line {
        Critical::Row(beam) => u32::from(beam.0) < matrix.size(),
        Critical::Column(beam) => u32::from(beam.0) < matrix.size(),
    }
}

/// The matrix of a text that is one.
pub fn matrix_from(alloc: Global, bytes: &[u8]) -> Result<Dense> {
    match read_matrix(alloc, bytes) {
        Ok(matrix) => Ok(matrix),
        Err(_fault) => Err(CaseFault("no matrix")),
    }
}

/// The schedule of a text that is one for so many beams.
pub fn schedule_from(alloc: Global, beams: u32, bytes: &[u8]) -> Result<Schedule>
    ensures critical { IfOk result (λ schedule. IsOfBeams beams schedule.critical) }
{
    if (MOST_BEAMS as u32) < beams {
        return Err(CaseFault("too many beams"));
    }
    if MOST_TEXT_BYTES < bytes.len() {
        return Err(CaseFault("a long text"));
    }
    match read_schedule(alloc, beams, bytes) {
        Ok(schedule) => Ok(schedule),
        Err(_fault) => Err(CaseFault("no schedule")),
    }
}

/// The demand of a text that is one.
pub fn demand_from(alloc: Global, net: &Network, bytes: &[u8]) -> Result<Demand>
    ensures terminals { IfOk result (AreOfNetwork net.now) }
    ensures sums { IfOk result (λ demand. HasSumsTo MOST_SUM (matrix_of net.now demand)) }
{
    match read_demand(alloc, net, bytes) {
        Ok(demand) => Ok(demand),
        Err(_fault) => Err(CaseFault("no demand")),
    }
}
