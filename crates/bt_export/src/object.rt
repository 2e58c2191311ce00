// A line as an object of JSON.
ghost use Rattle.std.specs.Prelude.{◌≡◌, ◌++◌, Some, None, if◌then◌else◌, map, IfOk, OnOk, option_map};
ghost use Rattle.std.specs.String.{string_bytes};
ghost use Rattle.serde_json.specs.View.{members_view, view};
ghost use Rattle.bt_text.specs.Short.{one_word};
ghost use Rattle.bt_text.specs.Text.{spaced, words};
ghost use Rattle.bt_words.specs.Forms.{part_of};
ghost use Rattle.bt_export.specs.Object.{form_object, form_words, marked, open_words, text_object, text_value, value_of, with_field, with_fields};

use bt_frame::OutOfMemory;
use bt_text::{WordReader, number_of_digits};
use bt_words::Token;
use serde_json::{Map, Value};
use std::alloc::Global;
use std::str;

/// The object of a line of the form of these places, whose open ones have these names. None where a word is no UTF-8.
pub fn form_object(
    alloc: Global,
    tokens: &[Token],
    names: &[&str],
    line: &[u8],
) -> Result<Option<Value>, OutOfMemory>
    ensures object { IfOk result (λ value. option_map view value ≡ form_object (map part_of tokens.now) (map (λ name. name.now) names.now) line.now) }
{
    let mut fields = Map::new(alloc);
    let form = form_text(alloc, tokens, names)?;
    serde_json::put(&mut fields, alloc, "form", Value::String(form))?;
    if add_fields(alloc, tokens, names, line, &mut fields)? {
        Ok(Some(Value::Object(fields)))
    } else {
        Ok(None)
    }
}

/// The object of a line of no form. None where it is no UTF-8.
pub fn text_object(alloc: Global, line: &[u8]) -> Result<Option<Value>, OutOfMemory>
    ensures object { IfOk result (λ value. option_map view value ≡ text_object line.now) }
{
    let Some(text) = text_value(alloc, line)? else {
        return Ok(None);
    };
    let mut fields = Map::new(alloc);
    serde_json::put(&mut fields, alloc, "text", text)?;
    Ok(Some(Value::Object(fields)))
}

/// The words of a form, a space between each two.
fn form_text(alloc: Global, tokens: &[Token], names: &[&str]) -> Result<String, OutOfMemory>
    ensures text { IfOk result (λ text. string_bytes text ≡ spaced (form_words (map part_of tokens.now) (map (λ name. name.now) names.now))) }
{
    let mut text = String::new(alloc);
    let mut at = 0;
    let mut is_further = false;
    for token in tokens {
        match *token {
            Token::Text(word) => add_word(is_further, "", word, &mut text)?,
            _ => {
                let Some(name) = names.get(at) else {
                    return Ok(text);
                };
                add_word(is_further, ":", name, &mut text)?;
                at += 1;
            }
        }
        is_further = true;
    }
    Ok(text)
}

/// Appends a mark and a word, a further one behind a space.
fn add_word(is_further: bool, mark: &str, word: &str, text: &mut String) -> Result<(), OutOfMemory>
    ensures added { OnOk result (string_bytes text.new ≡ string_bytes text.old ++ one_word is_further (mark.now ++ word.now)) }
{
    if is_further {
        text.push_str(" ")?;
    }
    text.push_str(mark)?;
    text.push_str(word)?;
    Ok(())
}

/// Puts the value of each word that stands at an open place under the name of that place. It answers false where one is no UTF-8.
fn add_fields(
    alloc: Global,
    tokens: &[Token],
    names: &[&str],
    line: &[u8],
    fields: &mut Map<String, Value>,
) -> Result<bool, OutOfMemory>
    ensures added { IfOk result (λ added. (if added then Some (members_view fields.new.entries) else None)
        ≡ with_fields (map (λ name. name.now) names.now) (open_words (map part_of tokens.now) (words line.now)) (members_view fields.old.entries)) }
{
    let mut words = WordReader::of(line);
    let mut at = 0;
    for token in tokens {
        let Some(word) = words.next() else {
            return Ok(true);
        };
        if let Token::Text(_) = *token {
            continue;
        }
        let Some(name) = names.get(at) else {
            return Ok(true);
        };
        at += 1;
        if !add_field(alloc, name, word, fields)? {
            return Ok(false);
        }
    }
    Ok(true)
}

/// Puts the value of a word under a name. It answers false where the word is no UTF-8.
fn add_field(
    alloc: Global,
    name: &str,
    word: &[u8],
    fields: &mut Map<String, Value>,
) -> Result<bool, OutOfMemory>
    ensures added { IfOk result (λ added. (if added then Some (members_view fields.new.entries) else None)
        ≡ with_field name.now word.now (members_view fields.old.entries)) }
{
    let Some(value) = value_of(alloc, word)? else {
        return Ok(false);
    };
    serde_json::put(fields, alloc, name, value)?;
    Ok(true)
}

/// The value of a word: a number, where it is one of at most 19 digits, and else a text. None where it is no UTF-8.
fn value_of(alloc: Global, word: &[u8]) -> Result<Option<Value>, OutOfMemory>
    ensures value { IfOk result (λ value. option_map view value ≡ value_of word.now) }
{
    match number_of_digits(word, 19) {
        Some(number) => Ok(Some(Value::from(number))),
        None => text_value(alloc, word),
    }
}

/// The bytes as a text. None where they are no UTF-8.
fn text_value(alloc: Global, bytes: &[u8]) -> Result<Option<Value>, OutOfMemory>
    ensures value { IfOk result (λ value. option_map view value ≡ text_value bytes.now) }
{
    match str::from_utf8(bytes) {
        Ok(text) => Ok(Some(Value::String(String::from_str(alloc, text)?))),
        Err(_) => Ok(None),
    }
}
