// Where the blocks of a session are open.
use crate::session::Heard;
use bt_text::is_word;
use std::alloc::Global;

/// A block that is open.
#[derive(Drop)]
struct Open {
    /// The tag of those whose block it is; empty where its lines have none.
    tag: Vec<u8>,
    /// The line that opened it.
    since: u64,
}

/// The blocks that are open, of which a session has few.
#[derive(Drop)]
pub struct Blocks {
    open: Vec<Open>,
}

impl Blocks {
    /// None is open.
    pub fn none(alloc: Global) -> Blocks {
        Blocks {
            open: Vec::new(alloc),
        }
    }

    /// The line that opened the block of a tag.
    pub fn since(&self, tag: &[u8]) -> Option<u64> {
        self.open
            .iter()
            .find(|one| one.tag.as_slice() == tag)
            .map(|one| one.since)
    }

    /// Goes on behind a line that had its effect.
    pub fn follow(&mut self, heard: &Heard) {
        let words = heard.words();
        if is_word(words, b"round") {
            self.begin(heard);
        } else if closes(words) {
            self.close(heard.tag());
        } else if let Some(tag) = words.strip_prefix(b"forget ".as_slice()) {
            self.close(tag);
        }
    }

    fn begin(&mut self, heard: &Heard) {
        let mut tag = Vec::new(heard.alloc());
        // where memory is wanting, less is told
        if tag.extend_from_slice(heard.tag()).is_ok() {
            let _kept = self.open.push(Open {
                tag,
                since: heard.at(),
            });
        }
    }

    fn close(&mut self, tag: &[u8]) {
        self.open.retain(|one| one.tag.as_slice() != tag);
    }
}

/// Whether a line closes the block of those who say it.
pub fn closes(words: &[u8]) -> bool {
    is_word(words, b"go")
        || is_word(words, b"forget")
        || is_word(words, b"all")
        || is_word(words, b"try")
}
