// What a program says on standard error when it ends.
use crate::asked::file_of;
use crate::bytes::{number_at, word_of};
use crate::carry::tell_carried;
use crate::fault::{Named, tell_line};
use crate::fit::{tell_fit, tell_size};
use crate::kept_files::KeptFiles;
use crate::network::tell_network;
use crate::page::Page;
use crate::plan::beams_of;
use crate::row::tell_row;
use crate::unread::{
    JOURNAL, LONG_TEXT, TEXT, tell_input, tell_journal, tell_too_long, tell_unread,
};
use crate::utf8::tell_no_text;
use crate::verdict::tell_verdict;
use crate::words::tell_words;
use bt_frame::MOST_JOURNAL_BYTES;
use bt_net::Network;
use bt_outside::Files;
use bt_report::{
    FAULTY_JOURNAL, FAULTY_TEXT, FAULTY_WORDS, NO_NETWORK, NOT_GOOD, Program, READ_FAILED, Reason,
    Refusal, STORE_FAILED, TOO_LONG,
};
use bt_text::is_word;
use std::alloc::Global;
use std::rt;

/// What a program did.
#[derive(Clone, Copy)]
pub struct Done<'a> {
    pub program: Program,
    /// The forms of its commands: of each the command, and the names of its words.
    pub forms: &'a [&'a str],
    /// The words after its name.
    pub words: &'a [String],
    /// The last line that it printed.
    pub line: &'a [u8],
    /// The status with which it ends.
    pub status: u8,
    /// Why its words were taken as none, where they were.
    pub refusal: &'a Option<Refusal>,
    /// How many bytes of a line had come when its standard input failed.
    pub begun: usize,
}

/// Says on standard error why a program ends as it does: what is known of the last line that it printed, or the sentence of
/// its status. Nothing is said where its work was done.
pub fn tell<R: Eprint + rt::Files, F: Files>(
    rt: &R,
    alloc: Global,
    done: &Done<'_>,
    files: &mut KeptFiles<F>,
) {
    let mut page = Page::new(alloc);
    let is_told = explain(rt, alloc, done, files, &mut page);
    // where standard error cannot be written either, the status alone tells
    match page.text() {
        Some(text) if is_told => {
            let _told = rt.eprint(text);
        }
        _ => tell_status(rt, done.program, done.status),
    }
}

/// Says the sentence of a status on standard error.
pub fn tell_status<R: Eprint>(rt: &R, program: Program, status: u8) {
    if let Some(reason) = Reason::of(program, status) {
        let name = name_of(program);
        let _told = eprintln!(rt; "{name}: {reason}");
    }
}

/// Appends what is known of the last line. Says whether anything is.
fn explain<R: rt::Files, F: Files>(
    rt: &R,
    alloc: Global,
    done: &Done<'_>,
    files: &mut KeptFiles<F>,
    page: &mut Page,
) -> bool {
    match done.status {
        READ_FAILED if is_word(word_of(done.line, 1), b"read") => {
            tell_unread(rt, alloc, done, rest_behind(done.line, "fault read "), page)
        }
        READ_FAILED => tell_input(done, page),
        STORE_FAILED => match file_of(done, b'J') {
            Some(journal) => tell_journal(rt, alloc, done, journal, page),
            None => false,
        },
        TOO_LONG => explain_too_long(done, page),
        FAULTY_WORDS | NO_NETWORK | FAULTY_TEXT | FAULTY_JOURNAL | NOT_GOOD => {
            keep_journal(alloc, done, files);
            explain_kept(alloc, done, files, page)
        }
        _ => false,
    }
}

/// What stands behind the words in front of a line.
fn rest_behind<'a>(line: &'a [u8], front: &str) -> &'a str {
    let rest = line.get(front.len()..).unwrap_or(&[]);
    str::from_utf8(rest).unwrap_or("")
}

fn explain_too_long(done: &Done<'_>, page: &mut Page) -> bool {
    let name = rest_behind(done.line, "fault too long ");
    match file_of(done, b'J') {
        // a file of this name is read where another word names it
        Some(journal) if name == "store" => tell_too_long(done, journal, JOURNAL, page),
        Some(journal) if name == journal && !is_read_before(done, name) => {
            tell_too_long(done, journal, JOURNAL, page)
        }
        _ if is_named(done, b'F', name) => tell_too_long(done, name, LONG_TEXT, page),
        _ => tell_too_long(done, name, TEXT, page),
    }
}

/// Whether a file of this name is read in front of a journal.
fn is_read_before(done: &Done<'_>, name: &str) -> bool {
    is_named(done, b'N', name) || is_named(done, b'S', name)
}

/// Whether the file of a letter has this name.
pub fn is_named(done: &Done<'_>, letter: u8, name: &str) -> bool {
    file_of(done, letter).is_some_and(|file| file == name)
}

/// Keeps the journal, where a line of it is at fault and it was not read as a file.
fn keep_journal<F: Files>(alloc: Global, done: &Done<'_>, files: &mut KeptFiles<F>) {
    if done.status == FAULTY_JOURNAL
        && let Some(journal) = file_of(done, b'J')
        && files.kept(journal).is_none()
    {
        let _read = files.read(alloc, journal, MOST_JOURNAL_BYTES);
    }
}

/// Appends what is known of files that were read.
fn explain_kept<F>(alloc: Global, done: &Done<'_>, files: &KeptFiles<F>, page: &mut Page) -> bool {
    let net = network_of(alloc, done, files);
    let kept = Kept {
        done: *done,
        net: net.as_ref(),
        beams: beams(done, files, net.as_ref()),
    };
    let code = word_of(done.line, 1);
    match done.status {
        FAULTY_WORDS => tell_words(alloc, done, net.as_ref(), page),
        NO_NETWORK => match kept.named(files, network_at_fault(kept.net)) {
            Some(named) => tell_network(alloc, done, named, code, word_of(done.line, 2), page),
            None => false,
        },
        FAULTY_TEXT | FAULTY_JOURNAL => explain_text(alloc, &kept, files, code, page),
        NOT_GOOD => explain_verdict(alloc, &kept, files, page),
        _ => false,
    }
}

/// The letter of the network that is at fault: where the first is one, it is the other.
fn network_at_fault(net: Option<&Network>) -> u8 {
    if net.is_some() { b'C' } else { b'N' }
}

/// What is known beside the files.
#[derive(Clone, Copy)]
struct Kept<'a> {
    done: Done<'a>,
    net: Option<&'a Network>,
    beams: u32,
}

impl<'a> Kept<'a> {
    /// The file of a letter, and what it held.
    fn named<F>(&self, files: &'a KeptFiles<F>, letter: u8) -> Option<Named<'a>> {
        let file = file_of(&self.done, letter)?;
        let text = files.kept(file)?;
        Some(Named {
            file,
            text,
            net: self.net,
            beams: self.beams,
        })
    }
}

/// Appends what is known of the fault of a text.
fn explain_text<F>(
    alloc: Global,
    kept: &Kept<'_>,
    files: &KeptFiles<F>,
    code: &[u8],
    page: &mut Page,
) -> bool {
    let letter = code.first().copied().unwrap_or(b'?');
    if letter == b'T' && file_of(&kept.done, b'C').is_some() {
        return explain_carried(alloc, kept, files, code, page);
    }
    match (kept.named(files, letter), number_at(kept.done.line, 2)) {
        (Some(named), at) => explain_named(alloc, kept, named, code, at, page),
        (None, Some(at)) => explain_other(alloc, kept, files, code, at, page),
        _ => false,
    }
}

/// Appends what is known of the fault of the file of its letter, at a line where one is named.
fn explain_named(
    alloc: Global,
    kept: &Kept<'_>,
    named: Named<'_>,
    code: &[u8],
    at: Option<u32>,
    page: &mut Page,
) -> bool {
    match *code {
        [b'T', b'6'] => tell_fit(alloc, &kept.done, named, page),
        [b'X', b'3'] => tell_size(alloc, &kept.done, named, page),
        _ => match at {
            Some(at) => tell_line(alloc, &kept.done, named, code, at, page),
            None => false,
        },
    }
}

/// Appends what is known of a line of a table of links, or of a text that is no output.
fn explain_other<F>(
    alloc: Global,
    kept: &Kept<'_>,
    files: &KeptFiles<F>,
    code: &[u8],
    at: u32,
    page: &mut Page,
) -> bool {
    if let Some(table) = kept.named(files, b'V') {
        return tell_row(alloc, &kept.done, table, code, at, page);
    }
    match kept.named(files, b'F') {
        Some(text) => tell_no_text(alloc, &kept.done, text, at, page),
        None => false,
    }
}

/// Appends what is known of a demand that has no place on another network.
fn explain_carried<F>(
    alloc: Global,
    kept: &Kept<'_>,
    files: &KeptFiles<F>,
    code: &[u8],
    page: &mut Page,
) -> bool {
    let Some(named) = kept.named(files, b'C') else {
        return false;
    };
    match Network::read(alloc, named.text) {
        Ok(new) => tell_carried(alloc, &kept.done, kept.net, named.file, &new, code, page),
        Err(_) => false,
    }
}

/// Appends what is known of a verdict.
fn explain_verdict<F>(
    alloc: Global,
    kept: &Kept<'_>,
    files: &KeptFiles<F>,
    page: &mut Page,
) -> bool {
    let (plan, asked) = if kept.net.is_some() {
        (b'P', b'T')
    } else {
        (b'M', b'X')
    };
    match (kept.named(files, plan), kept.named(files, asked)) {
        (Some(plan), Some(asked)) => tell_verdict(alloc, &kept.done, plan, asked, page),
        _ => false,
    }
}

/// The network that the words name, where it is one.
fn network_of<F>(alloc: Global, done: &Done<'_>, files: &KeptFiles<F>) -> Option<Network> {
    Network::read(alloc, kept_of(done, files, b'N')?).ok()
}

/// What the file of a letter held.
fn kept_of<'a, F>(done: &Done<'_>, files: &'a KeptFiles<F>, letter: u8) -> Option<&'a [u8]> {
    files.kept(file_of(done, letter)?)
}

/// How many beams there are, by the network or by the matrix; 0 where that is not known.
fn beams<F>(done: &Done<'_>, files: &KeptFiles<F>, net: Option<&Network>) -> u32 {
    match (net, kept_of(done, files, b'X')) {
        (Some(net), _) => net.beam_count(),
        (None, Some(matrix)) => beams_of(matrix),
        (None, None) => 0,
    }
}

/// Appends the name of the program, which stands in front of all that it says.
pub fn add_program(done: &Done<'_>, page: &mut Page) {
    page.add(name_of(done.program));
    page.add(": ");
}

/// The name of a program.
pub fn name_of(program: Program) -> &'static str {
    match program {
        Program::Nozgurt => "nozgurt",
        Program::Chart => "chart",
        Program::Station => "station",
    }
}
