// The lines of a session that no script has.
ghost use Rattle.std.specs.Prelude.{◌≡◌, ◌-◌, ◌++◌, OnOk, OnErr, IfOk, length, option_map};
ghost use Rattle.bt_text.specs.Text.{lines};
ghost use Rattle.bt_talk.specs.Answers.{answer_of, counted, fault_line, form_of_fault, input_fault_line, lines_line, ready_line, ready_of, timed_ready, untimed_ready};

use crate::block::Step;
use crate::blocks::Blocks;
use crate::tag::cut_tag;
use bt_frame::OutOfMemory;
use bt_script::ScriptCode;
use bt_text::first_line;
use bt_words::{Form, Word, is_moment, print};
use std::alloc::Global;

/// The answer to what came as line `at`, which comes to this, with these blocks open behind it: its fault, where it has one, and that
/// the next may come, at the moment that a clock told, if it was asked and did.
pub fn answer_text(
    alloc: Global,
    at: u64,
    came: Option<&[u8]>,
    blocks: &Blocks,
    step: &Step,
    told: Option<&[u8]>,
) -> Result<Vec<u8>, OutOfMemory>
    ensures answer { IfOk result (λ text. text.items ≡ answer_of at (option_map (λ text. text.now) came.entry) (blocks.now, step.now) (option_map (λ told. told.now) told.entry)) }
{
    let mut text = Vec::new(alloc);
    if let Step::Fault(code) = step {
        add_fault(alloc, *code, at, &mut text)?;
    }
    match came {
        Some(line) => {
            let (tag, _) = cut_tag(line);
            add_ready_of(alloc, at, tag, blocks.count(tag), told, &mut text)?;
        }
        None => add_ready_of(alloc, at, &[], blocks.count(&[]), told, &mut text)?,
    }
    Ok(text)
}

/// Appends that line `at` was heard, and the next may come: with its tag, how many lines the block of that has, where it is open, and
/// what a clock told, where that is a moment.
fn add_ready_of(
    alloc: Global,
    at: u64,
    tag: &[u8],
    lines: Option<u64>,
    told: Option<&[u8]>,
    text: &mut Vec<u8>,
) -> Result<(), OutOfMemory>
    ensures line { OnOk result (text.new.items ≡ text.old.items ++ ready_of at tag.now lines (option_map (λ told. told.now) told.entry)) }
{
    match told {
        Some(moment) if is_moment(moment) => add_timed(alloc, at, tag, lines, moment, text),
        _ => add_untimed(alloc, at, tag, lines, text),
    }
}

/// Appends the same without a moment.
fn add_untimed(
    alloc: Global,
    at: u64,
    tag: &[u8],
    lines: Option<u64>,
    text: &mut Vec<u8>,
) -> Result<(), OutOfMemory>
    ensures line { OnOk result (text.new.items ≡ text.old.items ++ untimed_ready at tag.now lines) }
{
    match (lines, tag.is_empty()) {
        (None, true) => add_ready(alloc, at, text),
        (None, false) => {
            let words = [Word::Number(at), Word::Tag(tag)];
            print(alloc, Form::ReadyTag, &words, text)
        }
        (Some(count), true) => {
            let words = [Word::Number(at), Word::Number(count)];
            print(alloc, Form::ReadyOpen, &words, text)
        }
        (Some(count), false) => {
            let words = [Word::Number(at), Word::Number(count), Word::Tag(tag)];
            print(alloc, Form::ReadyOpenTag, &words, text)
        }
    }
}

/// Appends the same at a moment.
fn add_timed<'a>(
    alloc: Global,
    at: u64,
    tag: &'a [u8],
    lines: Option<u64>,
    moment: &'a [u8],
    text: &mut Vec<u8>,
) -> Result<(), OutOfMemory>
    ensures line { OnOk result (text.new.items ≡ text.old.items ++ timed_ready at tag.now lines moment.now) }
{
    let (at, moment, tag, is_tagged) = (
        Word::Number(at),
        Word::Moment(moment),
        Word::Tag(tag),
        !tag.is_empty(),
    );
    match (lines, is_tagged) {
        (None, false) => print(alloc, Form::ReadyAt, &[at, moment], text),
        (None, true) => print(alloc, Form::ReadyAtTag, &[at, moment, tag], text),
        (Some(count), false) => {
            let words = [at, Word::Number(count), moment];
            print(alloc, Form::ReadyOpenAt, &words, text)
        }
        (Some(count), true) => {
            let words = [at, Word::Number(count), moment, tag];
            print(alloc, Form::ReadyOpenAtTag, &words, text)
        }
    }
}

/// Appends that so many lines were heard, and the next may come. Where memory runs out the text is as it was.
pub fn add_ready(alloc: Global, at: u64, text: &mut Vec<u8>) -> Result<(), OutOfMemory>
    ensures line { OnOk result (text.new.items ≡ text.old.items ++ ready_line at) }
    ensures unchanged { OnErr result (text.new.items ≡ text.old.items) }
{
    print(alloc, Form::Ready, &[Word::Number(at)], text)
}

/// Appends that line `at` is at fault.
fn add_fault(
    alloc: Global,
    code: ScriptCode,
    at: u64,
    text: &mut Vec<u8>,
) -> Result<(), OutOfMemory>
    ensures line { OnOk result (text.new.items ≡ text.old.items ++ fault_line code at) }
{
    print(alloc, form_of_fault(code), &[Word::Number(at)], text)
}

/// The form of the answer to a line that is at fault.
fn form_of_fault(code: ScriptCode) -> Form
    ensures { result ≡ form_of_fault code }
{
    match code {
        ScriptCode::S1 => Form::LineFaultS1,
        ScriptCode::S2 => Form::LineFaultS2,
        ScriptCode::S3 => Form::LineFaultS3,
        ScriptCode::S4 => Form::LineFaultS4,
        ScriptCode::S5 => Form::LineFaultS5,
    }
}

/// Appends that the input failed. Where memory runs out the text is as it was.
pub fn add_input_fault(alloc: Global, text: &mut Vec<u8>) -> Result<(), OutOfMemory>
    ensures line { OnOk result (text.new.items ≡ text.old.items ++ input_fault_line) }
    ensures unchanged { OnErr result (text.new.items ≡ text.old.items) }
{
    print(alloc, Form::InputFault, &[], text)
}

/// What is told, with the number of its lines in front. It ends with a newline, or is empty.
pub fn counted_text(alloc: Global, told: &[u8]) -> Result<Vec<u8>, OutOfMemory>
    ensures text { IfOk result (λ text. text.items ≡ counted told.now) }
{
    let mut text = Vec::new(alloc);
    add_lines(alloc, line_count(told), &mut text)?;
    text.extend_from_slice(told)?;
    Ok(text)
}

/// Appends that so many lines follow.
fn add_lines(alloc: Global, count: u64, text: &mut Vec<u8>) -> Result<(), OutOfMemory>
    ensures line { OnOk result (text.new.items ≡ text.old.items ++ lines_line count) }
{
    print(alloc, Form::Lines, &[Word::Number(count)], text)
}

/// How many lines of a text end with a newline.
fn line_count(text: &[u8]) -> u64
    ensures { result ≡ length (lines text.now) - 1 }
{
    let mut rest = text;
    let mut count = 0;
    while let Some((_, after)) = first_line(rest) {
        rest = after;
        count += 1;
    }
    count
}
