// Why a line of a session is at fault.
//
//     line 4: S1: 'add', 'drop', 'move' or 'show' is to stand here
//         desk 1 ad A B 3
//                ^^
//         hint: did you mean 'add'?
use crate::blocks::{Blocks, closes};
use crate::bytes::{Line, find_bytes, word_of};
use crate::cause::Cause;
use crate::fault::Fault;
use crate::page::Page;
use crate::script::find_long_number;
use crate::walk::{BAD_TAG, find_in_form, find_misfit};
use bt_frame::{MOST_FILE_BYTES, MOST_LINES};
use bt_net::Network;
use bt_outside::{DirFiles, Files, Incoming};
use bt_script::Sites;
use bt_text::{WordReader, is_word};
use bt_words::is_tag;
use std::alloc::Global;
use std::{fs, rt};

/// What is known of a session in front of its first line.
#[derive(Drop)]
pub struct Session {
    sites: Sites,
    /// Its network, where that is a file that can be opened again.
    net: Option<Network>,
    /// It is asked why a line is at fault, and why something is refused.
    is_asked: bool,
}

impl Session {
    /// The session of these words, the network's file the second of them.
    pub fn of<R: rt::Files>(rt: &R, alloc: Global, words: &[String], is_asked: bool) -> Session {
        let (sites, net) = match words {
            [command, net, _] if command.as_str() == "centre" => {
                (Sites::Apart, network_in(rt, alloc, net))
            }
            [_, net, _] => (Sites::Together, network_in(rt, alloc, net)),
            _ => (Sites::Together, None),
        };
        Session {
            sites,
            net,
            is_asked,
        }
    }

    /// Whether it is asked why.
    pub fn is_asked(&self) -> bool {
        self.is_asked
    }

    /// Its network.
    pub fn net(&self) -> Option<&Network> {
        self.net.as_ref()
    }

    /// The most bytes of the changes of its journal, where its network is known.
    pub fn journal(&self) -> Option<u32> {
        self.net.as_ref().map(|net| net.journal())
    }

    /// The letter of the forms of its lines.
    fn letter(&self) -> u8 {
        match self.sites {
            Sites::Together => b'L',
            Sites::Apart => b'B',
        }
    }
}

/// The network in a file of the system. What is none, as a pipe, is not opened again.
fn network_in<R: rt::Files>(rt: &R, alloc: Global, name: &str) -> Option<Network> {
    match fs::metadata(rt, name) {
        Ok(metadata) if metadata.is_file() => {}
        _ => return None,
    }
    let text = DirFiles::new(rt).read(alloc, name, MOST_FILE_BYTES).ok()?;
    Network::read(alloc, text.as_slice()).ok()
}

/// The last line of a session that was heard.
#[derive(Drop)]
pub struct Heard {
    alloc: Global,
    /// Its number, counted from 1.
    at: u64,
    line: Vec<u8>,
    /// What came is a line, and memory lasted for it.
    is_kept: bool,
    /// It was no line.
    is_none: bool,
    /// The most bytes that it could have.
    most: usize,
}

impl Heard {
    /// Nothing was heard yet.
    pub fn nothing(alloc: Global) -> Heard {
        Heard {
            alloc,
            at: 0,
            line: Vec::new(alloc),
            is_kept: false,
            is_none: false,
            most: 0,
        }
    }

    /// Keeps what came, in the place of what came before.
    pub fn keep(&mut self, most: usize, came: &Incoming) {
        self.at = self.at.saturating_add(1);
        self.most = most;
        self.line.clear();
        match came {
            Incoming::Line(line) => {
                self.is_none = false;
                self.is_kept = self.line.extend_from_slice(line.as_slice()).is_ok();
            }
            Incoming::NoLine => {
                self.is_none = true;
                self.is_kept = false;
            }
        }
    }

    pub fn alloc(&self) -> Global {
        self.alloc
    }

    /// Its number.
    pub fn at(&self) -> u64 {
        self.at
    }

    /// The tag in front; empty where there is none.
    pub fn tag(&self) -> &[u8] {
        let word = word_of(self.line.as_slice(), 0);
        if is_tag(word) { word } else { &[] }
    }

    /// The words behind its tag.
    pub fn words(&self) -> &[u8] {
        let line = self.line.as_slice();
        match self.tag() {
            [] => line,
            tag => line.get(tag.len()..).unwrap_or(&[]).get(1..).unwrap_or(&[]),
        }
    }
}

/// Appends why the last line is at fault, where an answer says that it is. Says whether it says so.
pub fn add_fault(
    alloc: Global,
    session: &Session,
    heard: &Heard,
    blocks: &Blocks,
    answer: &[u8],
    page: &mut Page,
) -> bool {
    let mut words = WordReader::of(answer);
    if !words.next_is(b"fault") {
        return false;
    }
    let Some([b'S', digit]) = words.next() else {
        return false;
    };
    let mut cause = Cause::new(alloc);
    if heard.is_none {
        cause.say("this is no line: it has more than ");
        cause.why.add_number(heard.most as u64);
        cause.say(" bytes, or no newline behind it");
    } else {
        find_fault(alloc, session, heard, blocks, *digit, &mut cause);
    }
    if !cause.is_found() {
        cause.say("this is no line of a session");
    }
    page.add("line ");
    page.add_number(heard.at);
    page.add(": S");
    page.add_char(char::from(*digit));
    page.add(": ");
    cause.add_why(page);
    cause.add_line(heard.words(), page);
    cause.add_hint(page);
    true
}

/// Finds out why a line is at fault with that code.
fn find_fault(
    alloc: Global,
    session: &Session,
    heard: &Heard,
    blocks: &Blocks,
    digit: u8,
    cause: &mut Cause,
) {
    let line = heard.words();
    let fault = Fault {
        file: "LINES",
        letter: session.letter(),
        digit,
        text: line,
        at: 1,
        line,
        net: session.net(),
        beams: 0,
    };
    match digit {
        b'1' => find_shape(alloc, &fault, cause),
        b'4' => find_block(&fault, blocks.since(heard.tag()), cause),
        b'5' => find_full(line, cause),
        _ => find_in_form(alloc, &fault, cause),
    }
    if !cause.is_found() && digit == b'3' {
        find_edit(line, cause);
    }
}

/// Says that there is no edit to take back.
fn find_edit(line: &[u8], cause: &mut Cause) {
    cause.say_of_word(line, 3, "no edit made an edition of this number");
    cause.hint.add("'state' tells the last edition");
}

/// Finds out why a line has no shape.
fn find_shape(alloc: Global, fault: &Fault<'_>, cause: &mut Cause) {
    let line = Line {
        bytes: fault.line,
        is_ended: true,
    };
    find_bytes(fault, line, cause);
    if !cause.is_found() && fault.line.first() == Some(&b'@') {
        cause.say_of_word(fault.line, 0, BAD_TAG);
    }
    if !cause.is_found() && fault.letter == b'B' && is_of_air(word_of(fault.line, 0)) {
        cause.say_of_word(
            fault.line,
            0,
            "the sites are processes of their own, and no air is simulated here",
        );
    }
    if !cause.is_found() {
        find_misfit(alloc, fault, cause);
    }
    if !cause.is_found() {
        find_long_number(fault.line, cause);
    }
}

/// Whether a line of a simulated air, or what waits on it, begins with this word.
fn is_of_air(word: &[u8]) -> bool {
    [
        "tick", "flow", "lose", "deliver", "frame", "reset", "standby", "waiting",
    ]
    .iter()
    .any(|other| is_word(word, other.as_bytes()))
}

/// How a block is closed.
const CLOSE: &str =
    "'go' or 'all' plays it, 'try' tells what it would come to, and 'forget' gives it up";

/// Says why a line does not stand in its place.
fn find_block(fault: &Fault<'_>, since: Option<u64>, cause: &mut Cause) {
    if closes(fault.line) {
        cause.say_of_word(fault.line, 0, "no block is open here");
        cause.hint.add("'round' opens one");
        return;
    }
    if is_word(word_of(fault.line, 0), b"forget") {
        return cause.say_of_word(fault.line, 1, "no block of this tag is open");
    }
    cause.say_of_word(fault.line, 0, "a block is open");
    if let Some(since) = since {
        cause.say(" since line ");
        cause.why.add_number(since);
    }
    cause.hint.add(CLOSE);
}

/// Says why there is no room for a line.
fn find_full(line: &[u8], cause: &mut Cause) {
    if is_word(line, b"round") {
        cause.say("16 blocks are open, the most that there are at once");
    } else {
        cause.say("a block has ");
        cause.why.add_number(u64::from(MOST_LINES));
        cause.say(" lines at most");
    }
    cause.hint.add(CLOSE);
}
