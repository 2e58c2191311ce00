// One line, word by word.
ghost use Rattle.std.specs.Prelude.{◌≡◌, ◌++◌, ◌∷◌, decimal, map, OnOk, OnErr};
ghost use Rattle.std.specs.Bool.{OnTrue};
ghost use Rattle.bt_text.specs.Short.{one_word};
ghost use Rattle.bt_words.specs.Lines.{frame_name, line_of, spaced_out, word_bytes};
ghost use Rattle.bt_words.specs.Written.{Extends};

use bt_frame::{Mark, OutOfMemory};
use bt_text::{ShortText, number_text};
use std::alloc::Global;

/// What a word of a line is.
#[derive(Clone, Copy)]
pub enum Word<'a> {
    /// This text.
    Text(&'a str),
    /// A tag, its `@` included.
    Tag(&'a [u8]),
    /// A moment.
    Moment(&'a [u8]),
    /// A number in decimal digits.
    Number(u64),
    /// A superframe and the number of a frame of it, from 0, with a point between them.
    Frame(Mark, u32),
}

impl Word<'_> {
    /// A small number in decimal digits.
    pub fn number(number: u32) -> Word<'static>
        ensures spelled { word_bytes result ≡ decimal number }
    {
        Word::Number(u64::from(number))
    }
}

/// Appends a line of these words, a space between each two and a newline behind the last.
pub fn add_line(alloc: Global, words: &[Word<'_>], out: &mut Vec<u8>) -> Result<(), OutOfMemory>
    ensures added { OnOk result (out.new.items ≡ out.old.items ++ line_of (map word_bytes words.now)) }
    ensures unchanged { OnErr result (out.new.items ≡ out.old.items) }
{
    let before = out.len();
    let added = add_words(alloc, words, out);
    if added.is_err() {
        out.truncate(before);
    }
    added
}

/// Appends the words and the newline. Want of memory leaves a first part of them.
fn add_words(alloc: Global, words: &[Word<'_>], out: &mut Vec<u8>) -> Result<(), OutOfMemory>
    ensures added { OnOk result (out.new.items ≡ out.old.items ++ line_of (map word_bytes words.now)) }
    ensures kept { Extends out.old.items out.new.items }
{
    if let Some((first, rest)) = words.split_first() {
        add_word(alloc, first, out)?;
        add_further(alloc, rest, out)?;
    }
    out.push(b'\n')?;
    Ok(())
}

/// Appends the words, a space before each of them. Want of memory leaves a first part of them.
fn add_further(alloc: Global, words: &[Word<'_>], out: &mut Vec<u8>) -> Result<(), OutOfMemory>
    ensures added { OnOk result (out.new.items ≡ out.old.items ++ spaced_out (map word_bytes words.now)) }
    ensures kept { Extends out.old.items out.new.items }
{
    for word in words {
        add_next(alloc, word, out)?;
    }
    Ok(())
}

/// Appends a space and a word. Want of memory leaves a first part of them.
fn add_next(alloc: Global, word: &Word<'_>, out: &mut Vec<u8>) -> Result<(), OutOfMemory>
    ensures added { OnOk result (out.new.items ≡ out.old.items ++ 32 ∷ word_bytes word.now) }
    ensures kept { Extends out.old.items out.new.items }
{
    out.push(b' ')?;
    add_word(alloc, word, out)
}

/// Appends a word. Want of memory leaves a first part of it.
pub fn add_word(alloc: Global, word: &Word<'_>, out: &mut Vec<u8>) -> Result<(), OutOfMemory>
    ensures added { OnOk result (out.new.items ≡ out.old.items ++ word_bytes word.now) }
    ensures kept { Extends out.old.items out.new.items }
{
    match *word {
        Word::Text(text) => Ok(out.extend_from_slice(text.as_bytes())?),
        Word::Tag(text) | Word::Moment(text) => Ok(out.extend_from_slice(text)?),
        Word::Number(number) => number_text(alloc, number, out),
        Word::Frame(mark, number) => add_frame(alloc, mark, number, out),
    }
}

/// Appends a superframe, a point and the number of a frame. Want of memory leaves a first part of them.
#[tactic(auto, using(crate::proofs::Extending::extends_on))]
fn add_frame(alloc: Global, mark: Mark, number: u32, out: &mut Vec<u8>) -> Result<(), OutOfMemory>
    ensures added { OnOk result (out.new.items ≡ out.old.items ++ frame_name mark number) }
    ensures kept { Extends out.old.items out.new.items }
{
    number_text(alloc, u64::from(mark.0), out)?;
    out.push(b'.')?;
    number_text(alloc, u64::from(number), out)
}

/// Adds a word to a short text, a further one behind a space, where there is room for them. Else it leaves a first part of them.
#[inline(always)]
pub fn put_word(is_further: bool, word: &Word<'_>, text: &mut ShortText) -> bool
    ensures added { OnTrue result (text.new ≡ text.old ++ one_word is_further (word_bytes word.now)) }
    ensures kept { Extends text.old text.new }
{
    match *word {
        Word::Text(word) => text.put_word(is_further, word.as_bytes()),
        Word::Tag(bytes) | Word::Moment(bytes) => text.put_word(is_further, bytes),
        Word::Number(number) => text.put_number(is_further, number),
        Word::Frame(mark, number) => put_frame(is_further, mark, number, text),
    }
}

/// Adds the name of a frame in the same way.
#[inline(never)]
fn put_frame(is_further: bool, mark: Mark, number: u32, text: &mut ShortText) -> bool
    ensures added { OnTrue result (text.new ≡ text.old ++ one_word is_further (frame_name mark number)) }
    ensures kept { Extends text.old text.new }
{
    text.put_any_number(is_further, u64::from(mark.0))
        && text.put_byte(b'.')
        && text.put_any_number(false, u64::from(number))
}
