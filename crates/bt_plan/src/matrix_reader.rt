// The text of a traffic matrix: its size in a line, then a line for each row.
ghost use Rattle.std.specs.Prelude.{◌≡◌, ◌≤◌, ◌∷◌, [], map, IfOk};
ghost use Rattle.std.specs.Option.{option_map};
ghost use Rattle.bt_frame.specs.declared.limits.TheConstants.{MOST_BEAMS};
ghost use Rattle.bt_text.specs.Text.{words, lines, number_of, numbers_of};
ghost use Rattle.bt_text.specs.Reading.{or_fault, Gives};
ghost use Rattle.bt_plan.specs.declared.text_fault.TextCode.TheVariants.{X2};
ghost use Rattle.bt_plan.specs.LineNumbers.{numbers_to, are_numbers};
ghost use Rattle.bt_plan.specs.MatrixText.{size_in, row_in, rows_in, matrix_reading};

use crate::{TextCode, TextFault};
use bt_frame::{MOST_BEAMS, MOST_UNITS, OutOfMemory};
use bt_matrix::Dense;
use bt_text::{WordReader, fault_at, first_line, number};
use std::alloc::Global;

/// The traffic matrix that a text spells, or the first line with a fault.
pub fn read_matrix(alloc: Global, bytes: &[u8]) -> Result<Dense, TextFault>
    ensures reading { Gives (λ matrix. matrix) result (matrix_reading bytes.now) }
{
    let rows = read_all_rows(alloc, bytes)?;
    Ok(Dense::of(rows))
}

// The rows of the matrix that the text spells.
fn read_all_rows(alloc: Global, text: &[u8]) -> Result<Vec<Vec<u32>>, TextFault>
    ensures { Gives (λ rows. map (λ row. row.items) rows.items) result (matrix_reading text.now) }
{
    let Some((line, rest)) = first_line(text) else {
        return Err(fault_at(TextCode::X1, 1));
    };
    let size = read_size(line)?;
    read_rows(alloc, size, rest)
}

// The size that the first line says.
fn read_size(line: &[u8]) -> Result<u32, TextFault>
    ensures { Gives (λ size. size) result (size_in (numbers_of (words line.now))) }
{
    size_of_words(WordReader::of(line))
}

fn size_of_words(mut words: WordReader<'_>) -> Result<u32, TextFault>
    ensures { Gives (λ size. size) result (size_in (numbers_of words.entry)) }
{
    let Some(word) = words.next() else {
        return Err(fault_at(TextCode::X1, 1));
    };
    if !words.is_done() {
        return Err(fault_at(TextCode::X1, 1));
    }
    size_of_word(word)
}

// The size that the only word of the first line says.
fn size_of_word(word: &[u8]) -> Result<u32, TextFault>
    ensures { Gives (λ size. size) result (size_in (option_map (λ n. n ∷ []) (number_of word.now))) }
{
    let Some(size) = number(word) else {
        return Err(fault_at(TextCode::X1, 1));
    };
    if size < 1 || size > MOST_BEAMS as u64 {
        return Err(fault_at(TextCode::X2, 1));
    }
    Ok(size as u32)
}

// So many rows, a line for each from line 2 on, and nothing behind them.
fn read_rows(alloc: Global, size: u32, text: &[u8]) -> Result<Vec<Vec<u32>>, TextFault>
    requires { size ≤ MOST_BEAMS }
    ensures { Gives (λ rows. map (λ row. row.items) rows.items) result
        (rows_in size size 2 (lines text.now)) }
{
    let mut rows = Vec::with_capacity(alloc, size as usize)?;
    let mut rest = text;
    for at in 2..size + 2 {
        let Some((line, after)) = first_line(rest) else {
            return Err(fault_at(TextCode::X1, at));
        };
        rows.push(read_row(alloc, size, at, line)?)?;
        rest = after;
    }
    if !rest.is_empty() {
        return Err(fault_at(TextCode::X1, size + 2));
    }
    Ok(rows)
}

// The row in line `at`.
fn read_row(alloc: Global, size: u32, at: u32, line: &[u8]) -> Result<Vec<u32>, TextFault>
    requires { size ≤ MOST_BEAMS }
    ensures { Gives (λ row. row.items) result (row_in size at (numbers_of (words line.now))) }
{
    if !are_numbers(size, WordReader::of(line)) {
        return Err(fault_at(TextCode::X1, at));
    }
    row_of_numbers(alloc, size, at, line)
}

// The row in line `at`, whose words are numbers.
fn row_of_numbers(alloc: Global, size: u32, at: u32, line: &[u8]) -> Result<Vec<u32>, TextFault>
    requires { size ≤ MOST_BEAMS }
    ensures { Gives (λ row. row.items) result
        (or_fault (X2, at) (numbers_to MOST_UNITS size (words line.now))) }
{
    read_entries(alloc, size, WordReader::of(line))?.ok_or(fault_at(TextCode::X2, at))
}

// The words are so many numbers.
fn are_numbers(size: u32, mut words: WordReader<'_>) -> bool
    ensures { result ≡ are_numbers size words.entry }
{
    for _ in 0..size {
        let Some(word) = words.next() else {
            return false;
        };
        if number(word).is_none() {
            return false;
        }
    }
    words.is_done()
}

// So many entries, each at most `MOST_UNITS`.
fn read_entries(
    alloc: Global,
    size: u32,
    mut words: WordReader<'_>,
) -> Result<Option<Vec<u32>>, OutOfMemory>
    requires { size ≤ MOST_BEAMS }
    ensures { IfOk result (λ found. option_map (λ v. v.items) found ≡ numbers_to MOST_UNITS size words.entry) }
{
    let mut entries = Vec::with_capacity(alloc, size as usize)?;
    for _ in 0..size {
        let Some(units) = words.number_to(MOST_UNITS) else {
            return Ok(None);
        };
        entries.push(units)?;
    }
    if words.is_done() {
        Ok(Some(entries))
    } else {
        Ok(None)
    }
}
