// What is wrong with a line, and how it is told.
//
//     nozgurt: six-beams.traffic:7: T2: no terminal has this name
//         link t0 t99 50
//                 ^^^
//         hint: did you mean 't9'?
use crate::bytes::place_of;
use crate::page::Page;
use std::alloc::Global;

/// The most bytes of a line that are shown.
const MOST_SHOWN: usize = 120;

/// How many bytes are shown in front of a word that stands farther behind in its line.
const SHOWN_IN_FRONT: usize = 60;

/// What stands in front of each line below the first.
pub const INDENT: &str = "    ";

/// What stands where a line is cut.
const CUT: &str = "..";

/// Why a line is at fault, as far as it was found out.
#[derive(Drop)]
pub struct Cause {
    /// Where the word that is meant begins in its line.
    at: usize,
    /// How many bytes it has; none where no single word is meant.
    bytes: usize,
    /// Why, in a sentence.
    pub why: Page,
    /// What else is to be seen with it, as an earlier line; empty where there is nothing.
    pub note: Page,
    /// What may help; empty where nothing is known.
    pub hint: Page,
}

impl Cause {
    /// Nothing was found out yet.
    pub fn new(alloc: Global) -> Cause {
        Cause {
            at: 0,
            bytes: 0,
            why: Page::new(alloc),
            note: Page::new(alloc),
            hint: Page::new(alloc),
        }
    }

    /// Whether something was found out.
    pub fn is_found(&self) -> bool {
        !self.why.is_empty()
    }

    /// The word that is meant.
    pub fn mark(&mut self, at: usize, bytes: usize) {
        self.at = at;
        self.bytes = bytes;
    }

    /// The word that is meant, by its number, from 0, in its line.
    pub fn mark_word(&mut self, line: &[u8], index: usize) {
        let (at, bytes) = place_of(line, index);
        self.mark(at, bytes);
    }

    /// Says why.
    pub fn say(&mut self, why: &str) {
        self.why.add(why);
    }

    /// Says why, of a word.
    pub fn say_at(&mut self, at: usize, bytes: usize, why: &str) {
        self.mark(at, bytes);
        self.why.add(why);
    }

    /// Says why, of the word of that number of a line.
    pub fn say_of_word(&mut self, line: &[u8], index: usize, why: &str) {
        self.mark_word(line, index);
        self.say(why);
    }

    /// Appends the sentence.
    pub fn add_why(&self, page: &mut Page) {
        page.add_page(&self.why);
        page.add("\n");
    }

    /// Appends the line, and carets under the word that is meant.
    pub fn add_line(&self, line: &[u8], page: &mut Page) {
        if line.is_empty() {
            return;
        }
        let start = shown_from(self.at, self.bytes);
        page.add(INDENT);
        add_shown(line, start, page);
        page.add("\n");
        if self.bytes > 0 {
            let before = if start > 0 { CUT.len() } else { 0 };
            page.add(INDENT);
            page.add_times(' ', before.saturating_add(self.at.saturating_sub(start)));
            page.add_times(
                '^',
                self.bytes
                    .min(MOST_SHOWN.saturating_sub(self.at.saturating_sub(start)))
                    .max(1),
            );
            page.add("\n");
        }
    }

    /// Appends what else is to be seen, and what may help, where something is known.
    pub fn add_hint(&self, page: &mut Page) {
        add_named("note: ", &self.note, page);
        add_named("hint: ", &self.hint, page);
    }
}

fn add_named(name: &str, said: &Page, page: &mut Page) {
    if !said.is_empty() {
        page.add(INDENT);
        page.add(name);
        page.add_page(said);
        page.add("\n");
    }
}

/// From which byte on a line is shown, so that the word that is meant is seen.
fn shown_from(at: usize, bytes: usize) -> usize {
    if at.saturating_add(bytes) <= MOST_SHOWN {
        0
    } else {
        at.saturating_sub(SHOWN_IN_FRONT)
    }
}

/// Appends what is shown of a line.
fn add_shown(line: &[u8], start: usize, page: &mut Page) {
    if start > 0 {
        page.add(CUT);
    }
    let rest = line.get(start..).unwrap_or(&[]);
    match rest.get(..MOST_SHOWN) {
        Some(shown) if shown.len() < rest.len() => {
            page.add_bytes(shown);
            page.add(CUT);
        }
        _ => page.add_bytes(rest),
    }
}

/// Appends a line of a file with its number, as another one that is meant.
pub fn add_other_line(number: u32, line: &[u8], page: &mut Page) {
    page.add("line ");
    page.add_number(u64::from(number));
    page.add(" is '");
    add_shown(line, 0, page);
    page.add("'");
}
