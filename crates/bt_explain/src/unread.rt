// Files that could not be read, or are too long, and a journal that failed.
use crate::page::Page;
use crate::telling::{Done, add_program, is_named};
use bt_frame::{MOST_FILE_BYTES, MOST_JOURNAL_BYTES};
use bt_report::STANDARD_INPUT;
use std::alloc::Global;
use std::fs::OpenOptions;
use std::rt::Files;
use std::{fs, io};

/// Tells why a file could not be read, as far as the system says it now.
pub fn tell_unread<R: Files>(
    rt: &R,
    alloc: Global,
    done: &Done<'_>,
    name: &str,
    page: &mut Page,
) -> bool {
    add_program(done, page);
    page.add_name(name);
    if name == STANDARD_INPUT && is_folder(rt, name) {
        page.add(": standard input is closed, or a folder");
    } else if name != "-" {
        page.add(": the file could not be read");
        add_reason(
            alloc,
            state_of(rt, name, OpenOptions::new().read(true)),
            page,
        );
    } else if is_named(done, b'N', name) {
        page.add(": the network cannot be standard input");
    } else {
        page.add(": standard input may stand once among the words");
    }
    page.add("\n");
    true
}

/// Tells that the input of a session failed.
pub fn tell_input(done: &Done<'_>, page: &mut Page) -> bool {
    add_program(done, page);
    if done.begun == 0 {
        page.add("standard input could not be read");
    } else {
        page.add("standard input failed in the middle of a line, whose first ");
        page.add_number(done.begun as u64);
        page.add(" bytes had come; that line was not played");
    }
    page.add("; what was answered until then is done\n");
    true
}

/// Tells that the journal of that name failed.
pub fn tell_journal<R: Files>(
    rt: &R,
    alloc: Global,
    done: &Done<'_>,
    name: &str,
    page: &mut Page,
) -> bool {
    add_program(done, page);
    page.add_name(name);
    if done.line == b"fault store".as_slice() {
        page.add(": the journal could not be read, cut or marked");
    } else {
        page.add(": the journal failed over the line of a change, and no later change was taken");
    }
    // as the store opens it
    let mut how = OpenOptions::new();
    let state = state_of(rt, name, how.read(true).append(true).create(true));
    let is_refused = matches!(&state, Err(error) if error.kind() != io::ErrorKind::NotFound);
    add_reason(alloc, state, page);
    page.add("\n");
    if is_refused && matches!(done.words.first(), Some(command) if command.as_str() == "replay") {
        page.add("    hint: a replay too is to write its journal\n");
    }
    true
}

/// What a file is called that is too long, and how many bytes it may have.
pub type Long = (&'static str, u64);

pub const JOURNAL: Long = (": the journal has more than ", MOST_JOURNAL_BYTES);

pub const TEXT: Long = (": the file has more than ", MOST_FILE_BYTES);

/// A text of any lines, which may be as long as a journal.
pub const LONG_TEXT: Long = (": the file has more than ", MOST_JOURNAL_BYTES);

/// Tells that a file is longer than any that is read.
pub fn tell_too_long(done: &Done<'_>, name: &str, long: Long, page: &mut Page) -> bool {
    add_program(done, page);
    page.add_name(name);
    page.add(long.0);
    page.add_number(long.1);
    page.add(" bytes, the most that are read\n");
    true
}

/// Appends what the system says of a file, where it says that something is wrong.
fn add_reason(alloc: Global, state: io::Result<bool>, page: &mut Page) {
    match state {
        Ok(true) => page.add(": it is a folder"),
        Ok(false) => {}
        Err(error) => {
            page.add(": ");
            if let Ok(text) = format!(in alloc; "{error}") {
                page.add(without_number(text.as_str()));
            }
        }
    }
}

/// What the system says, without the number of its error.
fn without_number(reason: &str) -> &str {
    match reason.split_once(" (os error ") {
        Some((text, _)) => text,
        None => reason,
    }
}

/// Whether the system says now that a folder has this name.
fn is_folder<R: Files>(rt: &R, name: &str) -> bool {
    matches!(fs::metadata(rt, name), Ok(metadata) if metadata.is_dir())
}

/// Whether a folder stands there, where a file of that name can be opened so. A file that is none, as a pipe, is not opened again.
fn state_of<R: Files>(rt: &R, name: &str, how: &OpenOptions) -> io::Result<bool> {
    if let Ok(metadata) = fs::metadata(rt, name)
        && !metadata.is_file()
    {
        return Ok(metadata.is_dir());
    }
    let _file = how.open(rt, name)?;
    Ok(false)
}
