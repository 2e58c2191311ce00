// Words of a line of cases.
use crate::fault::{CaseFault, Result};
use std::alloc::Global;

/// A number of four bytes.
pub fn number_of(word: &str) -> Result<u32> {
    word.parse().ok().ok_or(CaseFault("no number"))
}

/// A number of one byte.
pub fn byte_of(word: &str) -> Result<u8> {
    word.parse().ok().ok_or(CaseFault("no number up to 255"))
}

/// The words, each with bytes of its own.
pub fn owned_words(alloc: Global, words: &[&str]) -> Result<Vec<String>> {
    let mut owned = Vec::new(alloc);
    for word in words {
        owned.push(String::from_str(alloc, word)?)?;
    }
    Ok(owned)
}
