// Lines as objects of JSON, a line each.
ghost use Rattle.std.specs.Prelude.{◌≡◌, ◌++◌, ◌∷◌, [], ◌-◌, ◌^◌, ◌<◌, Some, None, if◌then◌else◌, length, map, IfOk, OnOk, option_map};
ghost use Rattle.serde_json.specs.View.{view};
ghost use Rattle.bt_text.specs.Reading.{Gives};
ghost use Rattle.bt_text.specs.Text.{lines, words};
ghost use Rattle.bt_words.specs.Forms.{part_of};
ghost use Rattle.bt_export.specs.Json.{AllSayBack, SaysBack, are_at, first_of, first_text, form_of, is_answer, is_at, json_from, json_line, json_of, line_object, object_of_text};
ghost use Rattle.bt_export.specs.Added.{behind, with_json};
ghost use Rattle.bt_export.specs.Table.{rows_of};
ghost use Rattle.bt_export.specs.TextForms.{text_forms};

use crate::object::{form_object, text_object};
use crate::text_form::{TextForm, text_forms, text_names, text_tokens};
use bt_frame::OutOfMemory;
use bt_net::is_name;
use bt_text::{LineFault, WordReader, fault_at, first_line, is_word, number_of_digits};
use bt_words::{Form, Token, forms_from, is_moment, is_tag, names_of, tokens_of};
use serde_json::Value;
use std::alloc::Global;

/// What is wrong with a line.
#[derive(Clone, Copy)]
pub enum JsonCode {
    /// It is no text in UTF-8.
    O1,
}

/// The lines of a text, each as an object of JSON in a line, or the first that is no text in UTF-8, counted from 1. A newline may
/// end the last line, or not.
pub fn json_of(alloc: Global, text: &[u8]) -> Result<Vec<u8>, LineFault<JsonCode>>
    requires short { length text.now < 2 ^ 32 - 1 }
    ensures reading { Gives (λ json. json.items) result (json_of text.now) }
    ensures back { OnOk result (AllSayBack (rows_of text.now)) }
{
    let mut json = Vec::new(alloc);
    let mut rest = text;
    let mut at = 1;
    while let Some((line, behind)) = first_line(rest) {
        add_numbered(alloc, at, line, &mut json)?;
        rest = behind;
        at += 1;
    }
    add_last(alloc, at, rest, &mut json)?;
    Ok(json)
}

/// Appends the JSON of the line of that number, where it stands behind the last newline and is not empty.
fn add_last(
    alloc: Global,
    at: u32,
    line: &[u8],
    json: &mut Vec<u8>,
) -> Result<(), LineFault<JsonCode>>
    requires last { lines line.now ≡ line.now ∷ [] }
    ensures added { Gives (λ _. json.new.items) result (behind json.old.items (json_from at (rows_of line.now))) }
    ensures back { OnOk result (AllSayBack (rows_of line.now)) }
{
    if line.is_empty() {
        return Ok(());
    }
    add_numbered(alloc, at, line, json)?;
    Ok(())
}

/// Appends the JSON of the line of that number.
fn add_numbered(
    alloc: Global,
    at: u32,
    line: &[u8],
    json: &mut Vec<u8>,
) -> Result<(), LineFault<JsonCode>>
    ensures added { Gives (λ _. json.new.items) result (with_json at json.old.items (json_line line.now)) }
    ensures back { OnOk result (SaysBack line.now) }
{
    if add_line(alloc, line, json)? {
        Ok(())
    } else {
        Err(fault_at(JsonCode::O1, at))
    }
}

/// Appends the JSON of a line. It answers false where the line is no text.
fn add_line(alloc: Global, line: &[u8], json: &mut Vec<u8>) -> Result<bool, OutOfMemory>
    ensures added { IfOk result (λ added. (if added then Some json.new.items else None) ≡ option_map (λ one. json.old.items ++ (one ++ 10 ∷ [])) (json_line line.now)) }
    ensures back { OnOk result (SaysBack line.now) }
{
    let Some(value) = line_object(alloc, line)? else {
        return Ok(false);
    };
    let one = value.to_string(alloc)?;
    json.extend_from_slice(one.as_bytes())?;
    json.push(b'\n')?;
    Ok(true)
}

/// The object of a line. None where it is no text.
fn line_object(alloc: Global, line: &[u8]) -> Result<Option<Value>, OutOfMemory>
    ensures object { IfOk result (λ value. option_map view value ≡ line_object line.now) }
{
    match form_of(line) {
        Some(form) => form_object(alloc, tokens_of(form), names_of(form), line),
        None => object_of_text(alloc, line),
    }
}

/// The object of a line that no run prints: by its form, or its text where it has none. None where it is no text in UTF-8.
fn object_of_text(alloc: Global, line: &[u8]) -> Result<Option<Value>, OutOfMemory>
    ensures object { IfOk result (λ value. option_map view value ≡ object_of_text (first_text text_forms (words line.now)) line.now) }
{
    match first_text(text_forms(), line) {
        Some(form) => form_object(alloc, text_tokens(form), text_names(form), line),
        None => text_object(alloc, line),
    }
}

/// The first of these forms of a traffic or a plan that a line has.
fn first_text(forms: &[TextForm], line: &[u8]) -> Option<TextForm>
    ensures { result ≡ first_text forms.now (words line.now) }
{
    for form in forms {
        if are_at(text_tokens(*form), line) {
            return Some(*form);
        }
    }
    None
}

/// The form of a line, where it has one.
fn form_of(line: &[u8]) -> Option<Form>
    ensures { result ≡ form_of (words line.now) }
{
    let Some(head) = WordReader::of(line).next() else {
        return None;
    };
    first_of(forms_from(head), line)
}

/// The first of these forms that a line has.
fn first_of(forms: &[Form], line: &[u8]) -> Option<Form>
    ensures { result ≡ first_of forms.now (words line.now) }
{
    for form in forms {
        if are_at(tokens_of(*form), line) {
            return Some(*form);
        }
    }
    None
}

/// Whether a line has these places.
#[tactic(auto, using(crate::proofs::Shapes::at_end, crate::proofs::Shapes::at_word))]
fn are_at(tokens: &[Token], line: &[u8]) -> bool
    ensures { result ≡ are_at (map part_of tokens.now) (words line.now) }
{
    let mut words = WordReader::of(line);
    for token in tokens {
        let Some(word) = words.next() else {
            return false;
        };
        if !is_at(*token, word) {
            return false;
        }
    }
    words.is_done()
}

/// Whether a word has the shape of what stands at a place.
fn is_at(token: Token, word: &[u8]) -> bool
    ensures { result ≡ is_at (part_of token) word.now }
{
    match token {
        Token::Text(text) => is_word(word, text.as_bytes()),
        Token::Number | Token::Count | Token::Desk => number_of_digits(word, 19).is_some(),
        Token::Frame => true,
        Token::Beam | Token::Terminal => is_name(word),
        Token::Taken | Token::Heard => is_answer(word),
        Token::Tag => is_tag(word),
        Token::Moment => is_moment(word),
    }
}

/// Whether a word may say what is done with a message that is for its receiver.
fn is_answer(word: &[u8]) -> bool
    ensures { result ≡ is_answer word.now }
{
    is_name(word) && !is_word(word, b"notforme")
}
