// The words of a command line.
use std::alloc::{AllocError, Global};
use std::env::{Env, FillError};
use std::{env, io};

/// The file that standard input is on this system.
pub const STANDARD_INPUT: &str = "/dev/stdin";

/// The room that is tried for a word, in bytes. The system gives a program none of more than the last.
const ROOM_FOR_A_WORD: [usize; 3] = [4_096, 131_072, 4_194_304];

/// Why the words of a command line are taken as none.
#[derive(Drop)]
pub enum Refusal {
    /// The word of this number, counted from 1 behind the program's name, is not UTF-8. No command has such a word.
    NoText {
        number: usize,
        bytes: Vec<u8>,
    },
    /// The last word names a journal that is to be written, and the word of this number the same file.
    OneFile {
        number: usize,
        name: String,
        journal: String,
    },
}

/// The words after the program's name, or why they are none.
pub fn words_after_name<R: Env + Alloc<A = Global>>(
    rt: &R,
    alloc: Global,
) -> Result<Result<Vec<String>, Refusal>, AllocError> {
    match env::args(rt) {
        Ok(words) => Ok(Ok(words.skip(1).collect(alloc)?)),
        Err(e) if e.kind() == io::ErrorKind::OutOfMemory => Err(AllocError),
        Err(_) => Ok(Err(first_of_no_text(rt, alloc)?)),
    }
}

/// The first word that is not UTF-8; the program's name, of number 0, where that is none.
fn first_of_no_text<R: Env>(rt: &R, alloc: Global) -> Result<Refusal, AllocError> {
    for number in 0..usize::MAX {
        match word_at(rt, alloc, number)? {
            Some(bytes) if str::from_utf8(bytes.as_slice()).is_err() => {
                return Ok(Refusal::NoText { number, bytes });
            }
            Some(_) => {}
            None => break,
        }
    }
    let bytes = Vec::new(alloc);
    Ok(Refusal::NoText { number: 0, bytes })
}

/// The bytes of the word of that number; None where there is none.
fn word_at<R: Env>(rt: &R, alloc: Global, number: usize) -> Result<Option<Vec<u8>>, AllocError> {
    let mut bytes = Vec::new(alloc);
    for size in ROOM_FOR_A_WORD {
        bytes.resize(size, 0)?;
        match rt.arg(number, bytes.as_mut_slice()) {
            Ok(count) => {
                bytes.truncate(count);
                return Ok(Some(bytes));
            }
            Err(FillError::TooLong) => {}
            Err(FillError::NotPresent) => return Ok(None),
        }
    }
    Ok(Some(Vec::new(alloc)))
}

/// Puts standard input in the place of that word where it is `-`.
pub fn put_standard_input(
    alloc: Global,
    words: &mut Vec<String>,
    place: usize,
) -> Result<(), AllocError> {
    match words.get_mut(place) {
        Some(word) if word.as_str() == "-" => {
            *word = String::from_str(alloc, STANDARD_INPUT)?;
        }
        _ => {}
    }
    Ok(())
}
