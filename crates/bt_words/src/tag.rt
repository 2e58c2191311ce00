// The tag of those who speak in a session.
ghost use Rattle.std.specs.Prelude.{◌≡◌};
ghost use Rattle.std.specs.List.{list_all};
ghost use Rattle.bt_words.specs.Tags.{is_tag_byte, is_tag as is_tag_of};

use bt_frame::MOST_NAME_BYTES;

fn is_tag_byte(byte: u8) -> bool
    ensures { result ≡ is_tag_byte byte }
{
    byte.is_ascii_alphanumeric() || byte == b'_'
}

fn are_tag_bytes(bytes: &[u8]) -> bool
    ensures { result ≡ list_all is_tag_byte bytes.now }
{
    bytes.iter().all(|byte| is_tag_byte(*byte))
}

/// Whether a word is a tag: an `@`, and behind it letters, digits or underscores, one at least and at most `MOST_NAME_BYTES`.
pub fn is_tag(word: &[u8]) -> bool
    ensures tag { result ≡ is_tag_of word.now }
{
    match word {
        [b'@', second, rest @ ..] => {
            rest.len() < MOST_NAME_BYTES && is_tag_byte(*second) && are_tag_bytes(rest)
        }
        _ => false,
    }
}
