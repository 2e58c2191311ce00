// The tag in front of a line of a session.
ghost use Rattle.std.specs.Prelude.{◌≡◌, option_map};
ghost use Rattle.bt_text.specs.Text.{words};
ghost use Rattle.bt_talk.specs.Tags.{forgotten, tag_in, untagged};

use bt_text::{WordReader, is_word};
use bt_words::is_tag;

/// The tag with which a line begins, empty where it has none, and the line behind it.
pub(crate) fn cut_tag(text: &[u8]) -> (&[u8], &[u8])
    ensures tag { result.0.now ≡ tag_in text.now }
    ensures line { result.1.now ≡ untagged text.now }
{
    let mut words = WordReader::of(text);
    match words.next() {
        Some(first) if is_tag(first) && !words.is_done() => {
            let (_, line) = text.split_at(first.len() + 1);
            (first, line)
        }
        _ => (&text[..0], text),
    }
}

/// The tag behind `forget`, and no more words.
pub(crate) fn forgotten(text: &[u8]) -> Option<&[u8]>
    ensures { option_map (λ tag. tag.now) result ≡ forgotten (words text.now) }
{
    let mut words = WordReader::of(text);
    let Some(head) = words.next() else {
        return None;
    };
    let Some(tag) = words.next() else {
        return None;
    };
    if !words.is_done() || !is_word(head, b"forget") || !is_tag(tag) {
        return None;
    }
    Some(tag)
}
