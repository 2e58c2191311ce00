// The shape of names.
ghost use Rattle.std.specs.Prelude.{◌≡◌};
ghost use Rattle.std.specs.List.{list_all};
ghost use Rattle.bt_net.specs.Name.{is_name_byte, is_reserved, is_name as is_name_of, is_terminal_name as is_terminal_name_of, are_names as are_names_of};

use bt_frame::MOST_NAME_BYTES;

fn is_name_byte(byte: u8) -> bool
    ensures { result ≡ is_name_byte byte }
{
    byte.is_ascii_alphanumeric() || byte == b'_'
}

fn are_name_bytes(bytes: &[u8]) -> bool
    ensures { result ≡ list_all is_name_byte bytes.now }
{
    bytes.iter().all(|byte| is_name_byte(*byte))
}

/// Whether a word has the shape of a name: a letter, and letters, digits or underscores behind it, in at most
/// `MOST_NAME_BYTES` bytes.
pub fn is_name(word: &[u8]) -> bool
    ensures name { result ≡ is_name_of word.now }
{
    match word {
        [] => false,
        [first, rest @ ..] => {
            first.is_ascii_alphabetic() && rest.len() < MOST_NAME_BYTES && are_name_bytes(rest)
        }
    }
}

/// Whether both words have the shape of a name.
pub fn are_names(from: &[u8], to: &[u8]) -> bool
    ensures names { result ≡ are_names_of from.now to.now }
{
    is_name(from) && is_name(to)
}

// Whether a word means something else where a terminal is named.
fn is_reserved(word: &[u8]) -> bool
    ensures { result ≡ is_reserved word.now }
{
    word == b"all".as_slice() || word == b"sat".as_slice() || word == b"centre".as_slice()
}

/// Whether a terminal may have this name: none is called `all`, `sat` or `centre`.
pub fn is_terminal_name(word: &[u8]) -> bool
    ensures name { result ≡ is_terminal_name_of word.now }
{
    is_name(word) && !is_reserved(word)
}
