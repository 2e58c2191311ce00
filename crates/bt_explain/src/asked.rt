// Which files the words after a program's name ask for.
use crate::lines::Words;
use crate::telling::Done;
use crate::words::{has_count, is_form_of};
use bt_text::is_word;

/// What the form of a command calls the file of a letter of codes.
fn called(letter: u8) -> &'static str {
    match letter {
        b'X' => "MATRIX",
        b'M' => "MODES",
        b'N' => "NET",
        b'C' => "NEWNET",
        b'V' => "CSV",
        b'T' => "TRAFFIC",
        b'P' => "PLAN",
        b'G' => "DELAYS",
        b'S' => "SCRIPT",
        b'J' => "JOURNAL",
        b'O' => "OUTPUT",
        b'F' => "FILE",
        _ => "",
    }
}

/// The file of a letter that the words name.
pub fn file_of<'a>(done: &Done<'a>, letter: u8) -> Option<&'a str> {
    let (command, files) = done.words.split_first()?;
    let mut names = Words::of(form_of(done, command.as_str(), files.len()).as_bytes());
    let _command = names.next();
    for file in files {
        let (_, name) = names.next()?;
        if is_word(name, called(letter).as_bytes()) {
            return Some(file.as_str());
        }
    }
    None
}

/// The form of a command with so many words; empty where it has none.
fn form_of<'a>(done: &Done<'a>, command: &str, count: usize) -> &'a str {
    for form in done.forms {
        if is_form_of(form, command) && has_count(form.as_bytes(), count) {
            return *form;
        }
    }
    ""
}
