// The line of a form, place by place.
ghost use Rattle.std.specs.Prelude.{◌≡◌, ◌++◌, ◌∷◌, map, OnOk, OnErr};
ghost use Rattle.std.specs.Bool.{OnFalse, OnTrue};
ghost use Rattle.bt_text.specs.Text.{spaced};
ghost use Rattle.bt_words.specs.Lines.{line_of, spaced_out, word_bytes};
ghost use Rattle.bt_words.specs.Written.{Extends};
ghost use Rattle.bt_words.specs.Forms.{part_of};
ghost use Rattle.bt_words.specs.Filled.{filled, form_front, form_line};

use crate::form::Form;
use crate::token::{Token, tokens_of};
use crate::{Word, add_word, put_word};
use bt_frame::OutOfMemory;
use bt_text::ShortText;
use std::alloc::Global;

/// Appends the line of this form, with these words at its places that have no fixed word, in order. The line ends in front of a
/// place for which no word is left, and words beyond the places are not printed. Where memory runs out the text is as it was.
pub fn print(
    alloc: Global,
    form: Form,
    words: &[Word<'_>],
    out: &mut Vec<u8>,
) -> Result<(), OutOfMemory>
    ensures added { OnOk result (out.new.items ≡ out.old.items ++ form_line form (map word_bytes words.now)) }
    ensures unchanged { OnErr result (out.new.items ≡ out.old.items) }
{
    let mut line = ShortText::new();
    if put(form, words, &mut line) {
        out.extend_from_slice(line.as_slice())?;
        return Ok(());
    }
    print_long(alloc, form, words, out)
}

/// Adds that line to a short text, where there is room for it.
pub fn put(form: Form, words: &[Word<'_>], text: &mut ShortText) -> bool
    ensures added { OnTrue result (text.new ≡ text.old ++ form_line form (map word_bytes words.now)) }
    ensures unchanged { OnFalse result (text.new ≡ text.old) }
{
    let before = text.len();
    let added = put_line(tokens_of(form), words, text);
    if !added {
        text.truncate(before);
    }
    added
}

/// Adds the line of these places to a short text, where there is room for it. Else it leaves a first part of it.
#[inline(always)]
fn put_line(tokens: &[Token], words: &[Word<'_>], text: &mut ShortText) -> bool
    ensures added { OnTrue result (text.new ≡ text.old ++ line_of (filled (map part_of tokens.now) (map word_bytes words.now))) }
    ensures kept { Extends text.old text.new }
{
    put_words(tokens, words, text) && text.put_byte(b'\n')
}

/// Adds the words of these places to a short text in the same way.
#[inline(always)]
fn put_words(tokens: &[Token], words: &[Word<'_>], text: &mut ShortText) -> bool
    ensures added { OnTrue result (text.new ≡ text.old ++ spaced (filled (map part_of tokens.now) (map word_bytes words.now))) }
    ensures kept { Extends text.old text.new }
{
    let mut at = 0;
    let mut is_further = false;
    for token in tokens {
        let word = match *token {
            Token::Text(fixed) => Word::Text(fixed),
            _ => {
                let Some(word) = words.get(at) else {
                    return true;
                };
                at += 1;
                *word
            }
        };
        if !put_word(is_further, &word, text) {
            return false;
        }
        is_further = true;
    }
    true
}

/// Appends a line for which a short text has no room, word by word. Where memory runs out the text is as it was.
#[cold]
#[inline(never)]
fn print_long(
    alloc: Global,
    form: Form,
    words: &[Word<'_>],
    out: &mut Vec<u8>,
) -> Result<(), OutOfMemory>
    ensures added { OnOk result (out.new.items ≡ out.old.items ++ form_line form (map word_bytes words.now)) }
    ensures unchanged { OnErr result (out.new.items ≡ out.old.items) }
{
    let before = out.len();
    let added = add_line(alloc, tokens_of(form), words, out);
    if added.is_err() {
        out.truncate(before);
    }
    added
}

/// Appends the front of a line that others go on with: the words of this form in the same way, and a space. Want of memory leaves
/// a first part of it.
pub fn print_front(
    alloc: Global,
    form: Form,
    words: &[Word<'_>],
    out: &mut Vec<u8>,
) -> Result<(), OutOfMemory>
    ensures added { OnOk result (out.new.items ≡ out.old.items ++ form_front form (map word_bytes words.now)) }
    ensures kept { Extends out.old.items out.new.items }
{
    add_first(alloc, tokens_of(form), words, out)?;
    out.push(b' ')?;
    Ok(())
}

/// Appends the line of these places. Want of memory leaves a first part of it.
fn add_line(
    alloc: Global,
    tokens: &[Token],
    words: &[Word<'_>],
    out: &mut Vec<u8>,
) -> Result<(), OutOfMemory>
    ensures added { OnOk result (out.new.items ≡ out.old.items ++ line_of (filled (map part_of tokens.now) (map word_bytes words.now))) }
    ensures kept { Extends out.old.items out.new.items }
{
    add_first(alloc, tokens, words, out)?;
    out.push(b'\n')?;
    Ok(())
}

/// Appends the words of these places. Want of memory leaves a first part of them.
fn add_first(
    alloc: Global,
    tokens: &[Token],
    words: &[Word<'_>],
    out: &mut Vec<u8>,
) -> Result<(), OutOfMemory>
    ensures added { OnOk result (out.new.items ≡ out.old.items ++ spaced (filled (map part_of tokens.now) (map word_bytes words.now))) }
    ensures kept { Extends out.old.items out.new.items }
{
    let Some((token, behind)) = tokens.split_first() else {
        return Ok(());
    };
    match *token {
        Token::Text(text) => {
            out.extend_from_slice(text.as_bytes())?;
            add_further(alloc, behind, words, out)
        }
        _ => {
            let Some((word, rest)) = words.split_first() else {
                return Ok(());
            };
            add_word(alloc, word, out)?;
            add_further(alloc, behind, rest, out)
        }
    }
}

/// Appends the words of these places, a space before each of them. Want of memory leaves a first part of them.
fn add_further(
    alloc: Global,
    tokens: &[Token],
    words: &[Word<'_>],
    out: &mut Vec<u8>,
) -> Result<(), OutOfMemory>
    ensures added { OnOk result (out.new.items ≡ out.old.items ++ spaced_out (filled (map part_of tokens.now) (map word_bytes words.now))) }
    ensures kept { Extends out.old.items out.new.items }
{
    let mut at = 0;
    for token in tokens {
        match *token {
            Token::Text(text) => {
                out.push(b' ')?;
                out.extend_from_slice(text.as_bytes())?;
            }
            _ => {
                let Some(word) = words.get(at) else {
                    return Ok(());
                };
                add_next(alloc, word, out)?;
                at += 1;
            }
        }
    }
    Ok(())
}

/// Appends a space and a word. Want of memory leaves a first part of them.
fn add_next(alloc: Global, word: &Word<'_>, out: &mut Vec<u8>) -> Result<(), OutOfMemory>
    ensures added { OnOk result (out.new.items ≡ out.old.items ++ 32 ∷ word_bytes word.now) }
    ensures kept { Extends out.old.items out.new.items }
{
    out.push(b' ')?;
    add_word(alloc, word, out)
}
