// A talk that says why.
use crate::blocks::Blocks;
use crate::lines::Lines;
use crate::page::Page;
use crate::refusal::add_refusal;
use crate::session::{Heard, Session, add_fault};
use crate::telling::name_of;
use bt_outside::{Incoming, Keeper, Sink, SinkFault, SourceFault, Talk};
use bt_report::Program;
use bt_text::{WordReader, is_word};
use std::alloc::Global;

/// The talk of a session, of which standard error is told at once: in any case that the book has stopped, that the input failed
/// and that an answer could not be said; and where the session is asked why, the reason behind each line at fault and each refusal.
/// Of what was heard it keeps the last line, and where blocks are open.
#[derive(Drop)]
pub struct Reasons<'a, R, T> {
    teller: Teller<'a, R>,
    talk: T,
}

/// Who tells standard error.
#[derive(Drop)]
struct Teller<'a, R> {
    rt: &'a R,
    alloc: Global,
    program: Program,
    session: Session,
    /// The last line that was heard, and how many were.
    heard: Heard,
    blocks: Blocks,
    /// It was said that the book has stopped.
    has_stopped: bool,
}

impl<'a, R: Eprint, T> Reasons<'a, R, T> {
    /// That talk, of a session of a program.
    pub fn new(
        rt: &'a R,
        alloc: Global,
        program: Program,
        session: Session,
        talk: T,
    ) -> Reasons<'a, R, T> {
        Reasons {
            teller: Teller {
                rt,
                alloc,
                program,
                session,
                heard: Heard::nothing(alloc),
                blocks: Blocks::none(alloc),
                has_stopped: false,
            },
            talk,
        }
    }

    /// The talk.
    pub fn into_talk(self) -> T {
        self.talk
    }
}

impl<R: Eprint> Teller<'_, R> {
    /// Notes what came.
    fn note(&mut self, limit: usize, came: &Result<Option<Incoming>, SourceFault>) {
        match came {
            Ok(Some(came)) if self.session.is_asked() => self.heard.keep(limit, came),
            Ok(_) | Err(SourceFault::OutOfMemory) => {}
            Err(SourceFault::Failed) => {
                self.raise("the input failed: no line is heard any more, and the session ends")
            }
        }
    }

    /// Tells of the lines of a piece, and whether it was said.
    fn tell(&mut self, piece: &[u8], said: &Result<(), SinkFault>) {
        if let Err(SinkFault::Failed) = said {
            return self.raise(
                "an answer could not be said: the session ends, and the journal has what it did",
            );
        }
        let mut is_good = true;
        let mut passed = 0;
        for (_, line) in Lines::of(piece) {
            if passed > 0 {
                passed -= 1;
            } else {
                passed = told_behind(line);
                self.tell_stop(line);
                if self.session.is_asked() && !self.tell_reason(line) {
                    is_good = false;
                }
            }
        }
        if self.session.is_asked() && is_good {
            self.blocks.follow(&self.heard);
        }
    }

    /// Tells that the book has stopped, where a line is the first to say so since the centre started.
    fn tell_stop(&mut self, line: &[u8]) {
        if is_word(line, b"restart") {
            self.has_stopped = false;
        } else if is_stop(line) && !self.has_stopped {
            self.has_stopped = true;
            self.raise(
                "the book has stopped: no change is taken until a line `restart`, or a start, finds the journal well",
            );
        }
    }

    /// Says why the last line is at fault, or why something is refused, where a line says that. Says whether the line had an effect.
    fn tell_reason(&self, line: &[u8]) -> bool {
        let mut page = Page::new(self.alloc);
        let is_good = !add_fault(
            self.alloc,
            &self.session,
            &self.heard,
            &self.blocks,
            line,
            &mut page,
        );
        if is_good {
            add_refusal(&self.session, &self.heard, line, &mut page);
        }
        if let Some(text) = page.text()
            && !text.is_empty()
        {
            // where standard error cannot be written either, the answers alone tell
            let _told = self.rt.eprint(text);
        }
        is_good
    }

    /// Raises an alarm.
    fn raise(&self, why: &str) {
        let name = name_of(self.program);
        let _told = eprintln!(self.rt; "{name}: alarm: {why}");
    }
}

/// How many lines behind a line are what it tells of, and are no printed lines.
fn told_behind(line: &[u8]) -> u64 {
    let mut words = WordReader::of(line);
    if !words.next_is(b"lines") {
        return 0;
    }
    words.number_of_digits(19).unwrap_or(0)
}

/// Whether a line says of a change that the book takes no more: `desk D stopped`, `plan stopped` or `order stopped`.
fn is_stop(line: &[u8]) -> bool {
    line.strip_suffix(b" stopped".as_slice()).is_some()
}

impl<R, T: Sink> Sink for Reasons<'_, R, T> {
    ghost told = { λ a. T.told a.talk };

    ghost fault_count = { λ a. T.fault_count a.talk };

    fn faults(&self) -> u64 {
        self.talk.faults()
    }

    fn write(&mut self, alloc: Global, piece: &[u8]) -> Result<(), SinkFault> {
        self.talk.write(alloc, piece)
    }
}

impl<K: Keeper, R: Eprint, T: Talk<K>> Talk<K> for Reasons<'_, R, T> {
    ghost coming = { λ a. T.coming a.talk };

    ghost unheard = { λ a. T.unheard a.talk };

    ghost turns = { λ a. T.turns a.talk };

    fn hear(&mut self, alloc: Global, limit: usize) -> Result<Option<Incoming>, SourceFault> {
        let came = self.talk.hear(alloc, limit);
        self.teller.note(limit, &came);
        came
    }

    fn say(&mut self, alloc: Global, piece: &[u8], store: &K) -> Result<(), SinkFault> {
        let said = self.talk.say(alloc, piece, store);
        self.teller.tell(piece, &said);
        said
    }
}
