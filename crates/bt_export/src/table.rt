// A table of links as CSV.
ghost use Rattle.std.specs.Prelude.{◌≡◌, ◌++◌, List, ◌∷◌, [], Some, if◌then◌else◌, IfOk, OnOk, option_map};
ghost use Rattle.csv.specs.Records.{fields_of};
ghost use Rattle.bt_text.specs.Reading.{Gives, IsFaultOf};
ghost use Rattle.bt_demand.specs.declared.demand.Link.{Link};
ghost use Rattle.bt_demand.specs.Traffic.{AreOfNetwork};
ghost use Rattle.bt_plan.specs.Reading.{Reading};
ghost use Rattle.bt_export.specs.Table.{fields_in, has_header, is_header, is_one_word, link_row, links_of, lowered, rows_of, table_demand, traffic_lines};
ghost use Rattle.bt_export.specs.Row.{three_of};

use bt_demand::Demand;
use bt_frame::OutOfMemory;
use bt_net::Network;
use bt_plan::{TextFault, read_demand};
use bt_text::{LineFault, first_line, is_word};
use csv::{ByteRecord, ReaderBuilder};
use std::alloc::Global;

/// The fields of a row of three.
#[derive(Clone, Copy)]
struct Row<'a> {
    from: &'a [u8],
    to: &'a [u8],
    units: &'a [u8],
}

/// The rows below a header, and whether there is one.
#[derive(Clone, Copy)]
struct Links<'a> {
    rows: &'a [u8],
    has_header: bool,
}

/// The demand on a network that a table of links as CSV says, or the first line of it with a fault of a traffic text.
///
/// Whether it fits the slots of the network is for the caller to ask.
pub fn demand_of_table(alloc: Global, net: &Network, table: &[u8]) -> Result<Demand, TextFault>
    ensures reading { Gives (λ demand. demand) result (table_demand net.now table.now) }
    ensures terminals { IfOk result (AreOfNetwork net.now) }
{
    let links = below_header(alloc, table)?;
    let mut text = Vec::new(alloc);
    add_rows(alloc, links.rows, &mut text)?;
    match read_demand(alloc, net, &text) {
        Ok(demand) => Ok(demand),
        Err(fault) => Err(lowered(links.has_header, fault)),
    }
}

/// The fault of a line, below a header where there is one.
fn lowered(has_header: bool, fault: TextFault) -> TextFault
    ensures lowered { (reading : Reading (List Link)) → IsFaultOf reading fault → IsFaultOf (lowered has_header reading) result }
{
    match fault {
        LineFault::At { code, line } if has_header => match line.checked_add(1) {
            Some(line) => LineFault::At { code, line },
            // No text has as many lines.
            None => LineFault::OutOfMemory,
        },
        fault => fault,
    }
}

/// The rows of a table below its header.
fn below_header(alloc: Global, table: &[u8]) -> Result<Links<'_>, OutOfMemory>
    ensures rows { IfOk result (λ links. rows_of links.rows.now ≡ links_of (rows_of table.now)) }
    ensures header { IfOk result (λ links. links.has_header ≡ has_header (rows_of table.now)) }
{
    if let Some((first, behind)) = first_line(table) {
        return Ok(below_first(table, is_header(alloc, first)?, behind));
    }
    if !table.is_empty() && is_header(alloc, table)? {
        return Ok(Links {
            rows: &[],
            has_header: true,
        });
    }
    Ok(Links {
        rows: table,
        has_header: false,
    })
}

/// The rows behind the first, where that is a header, and else all of them.
fn below_first<'a>(table: &'a [u8], has_header: bool, behind: &'a [u8]) -> Links<'a>
    ensures rows { result.rows.now ≡ (if has_header then behind.now else table.now) }
    ensures header { result.has_header ≡ has_header }
{
    if has_header {
        Links {
            rows: behind,
            has_header,
        }
    } else {
        Links {
            rows: table,
            has_header,
        }
    }
}

/// Whether a row names the columns.
fn is_header(alloc: Global, row: &[u8]) -> Result<bool, OutOfMemory>
    ensures { IfOk result (λ is. is ≡ is_header (fields_in row.now)) }
{
    match record_of(alloc, row)? {
        Some(found) => Ok(names_columns(&found)),
        None => Ok(false),
    }
}

/// Whether the fields of a record are the names of the columns.
fn names_columns(found: &ByteRecord) -> bool
    ensures { result ≡ is_header (Some (fields_of found.now)) }
{
    match row_of(found) {
        Some(row) => {
            is_word(row.from, b"from") && is_word(row.to, b"to") && is_word(row.units, b"units")
        }
        None => false,
    }
}

/// The record of a line of CSV. Text in memory is read without an error, so that only memory can be wanting.
fn record_of(alloc: Global, line: &[u8]) -> Result<Option<ByteRecord>, OutOfMemory>
    ensures fields { IfOk result (λ found. option_map fields_of found ≡ fields_in line.now) }
{
    let mut reader = ReaderBuilder::new()
        .has_headers(false)
        .from_reader(alloc, line);
    let mut record = ByteRecord::new(alloc);
    match reader.read_byte_record(&mut record) {
        Ok(true) => Ok(Some(record)),
        Ok(false) => Ok(None),
        Err(_) => Err(OutOfMemory),
    }
}

/// The fields of a record, where there are three.
fn row_of(record: &ByteRecord) -> Option<Row<'_>>
    ensures fields { option_map (λ row. row.from.now ∷ row.to.now ∷ row.units.now ∷ []) result ≡ three_of (fields_of record.now) }
{
    let Some(from) = record.get(0) else {
        return None;
    };
    let Some(to) = record.get(1) else {
        return None;
    };
    let Some(units) = record.get(2) else {
        return None;
    };
    if record.get(3).is_some() {
        return None;
    }
    Some(Row { from, to, units })
}

/// Appends the traffic text that a table says, below its header.
fn add_rows(alloc: Global, table: &[u8], text: &mut Vec<u8>) -> Result<(), OutOfMemory>
    ensures added { OnOk result (text.new.items ≡ text.old.items ++ traffic_lines (rows_of table.now)) }
{
    let mut rest = table;
    while let Some((row, behind)) = first_line(rest) {
        add_row(alloc, row, text)?;
        rest = behind;
    }
    if !rest.is_empty() {
        add_row(alloc, rest, text)?;
    }
    Ok(())
}

/// Appends the line of a traffic text that a row says.
fn add_row(alloc: Global, row: &[u8], text: &mut Vec<u8>) -> Result<(), OutOfMemory>
    ensures added { OnOk result (text.new.items ≡ text.old.items ++ (link_row (fields_in row.now) ++ 10 ∷ [])) }
{
    if let Some(found) = record_of(alloc, row)? {
        add_record(&found, text)?;
    }
    text.push(b'\n')?;
    Ok(())
}

/// Appends the words of that line, where the record is a link.
fn add_record(found: &ByteRecord, text: &mut Vec<u8>) -> Result<(), OutOfMemory>
    ensures added { OnOk result (text.new.items ≡ text.old.items ++ link_row (Some (fields_of found.now))) }
{
    match row_of(found) {
        Some(row) => add_link(row, text),
        None => Ok(()),
    }
}

/// Appends `link FROM TO UNITS`, where each field is one word.
fn add_link(row: Row<'_>, text: &mut Vec<u8>) -> Result<(), OutOfMemory>
    ensures added { OnOk result (text.new.items ≡ text.old.items ++ link_row (Some (row.entry.from.now ∷ row.entry.to.now ∷ row.entry.units.now ∷ []))) }
{
    if is_one_word(row.from) && is_one_word(row.to) && is_one_word(row.units) {
        text.extend_from_slice(b"link ")?;
        text.extend_from_slice(row.from)?;
        text.push(b' ')?;
        text.extend_from_slice(row.to)?;
        text.push(b' ')?;
        text.extend_from_slice(row.units)?;
    }
    Ok(())
}

/// Whether a field has neither a space nor a newline.
fn is_one_word(field: &[u8]) -> bool
    ensures { result ≡ is_one_word field.now }
{
    field.iter().all(|byte| !(*byte == b' ' || *byte == b'\n'))
}
