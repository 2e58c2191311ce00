// The lines of cases: each goes to the file, or to the crate, of what it acts on. `docs/cases.md` says what they mean.
use crate::outside::{Outside, set_meeting};
use crate::pieces::{append, cut, put_keeps, put_reads, put_store, put_writes};
use bt_machine_cases::Machines;
use bt_sheet::{CaseFault, Result, Shelf, number_of, set_files};
use bt_text_cases::{Texts, show_parts};
use std::alloc::Global;
use std::sync::Wait;
use std::thread::Threads;

/// What the lines act on.
#[derive(Drop)]
pub struct Stage {
    shelf: Shelf,
    outside: Outside,
    texts: Texts,
    machines: Machines,
}

impl Stage {
    /// No files, an empty store, an empty demand, and machines that have met nothing.
    pub fn new(alloc: Global) -> Stage {
        Stage {
            shelf: Shelf::new(alloc),
            outside: Outside::new(alloc),
            texts: Texts::new(alloc),
            machines: Machines::new(alloc),
        }
    }

    /// Does what the line says, and appends what is answered.
    pub fn take<R: Threads + Wait + Sync>(
        &mut self,
        rt: &R,
        alloc: Global,
        line: &str,
        out: &mut String,
    ) -> Result<()> {
        if let Some(text) = line.strip_prefix('|') {
            return self.shelf.fill(1, text);
        }
        if let Some(text) = line.strip_prefix("fill ") {
            return self.fill(text);
        }
        self.take_line(rt, alloc, line, out)
    }

    /// Fills the file that was begun last with a text, as often as the word before it says.
    fn fill(&mut self, text: &str) -> Result<()> {
        match text.split_once(' ') {
            Some((count, text)) => self.shelf.fill(number_of(count)?, text),
            None => Err(CaseFault("no text")),
        }
    }

    /// Does what a line of words says.
    fn take_line<R: Threads + Wait + Sync>(
        &mut self,
        rt: &R,
        alloc: Global,
        line: &str,
        out: &mut String,
    ) -> Result<()> {
        let words: Vec<&str> = line.split(' ').collect(alloc)?;
        self.take_words(rt, alloc, &words, out)
    }

    /// Does what the words of a line say.
    fn take_words<R: Threads + Wait + Sync>(
        &mut self,
        rt: &R,
        alloc: Global,
        words: &[&str],
        out: &mut String,
    ) -> Result<()> {
        match words {
            [""] | ["#", ..] => Ok(()),
            ["$", words @ ..] => self.outside.run(rt, alloc, &mut self.shelf, words, out),
            words => self.act(alloc, words, out),
        }
    }

    /// Does what a line says that runs no command.
    fn act(&mut self, alloc: Global, words: &[&str], out: &mut String) -> Result<()> {
        if self.set(alloc, words)? || self.show(alloc, words, out)? {
            return Ok(());
        }
        self.machines.act(alloc, &self.shelf, words, out)
    }

    /// Sets up files, the store, and what the next command meets.
    fn set(&mut self, alloc: Global, words: &[&str]) -> Result<bool> {
        if let ["store", name] = *words {
            return self.outside.set_store(alloc, self.shelf.text(name)?);
        }
        if let ["input", name] = *words {
            return self.outside.set_input(alloc, self.shelf.text(name)?);
        }
        if set_files(alloc, &mut self.shelf, words)? {
            return Ok(true);
        }
        set_meeting(alloc, &mut self.outside.next, words)
    }

    /// Shows what the line asks for, where it is not of messages and machines.
    fn show(&mut self, alloc: Global, words: &[&str], out: &mut String) -> Result<bool> {
        if self.show_outside(alloc, words, out)? {
            return Ok(true);
        }
        if show_parts(alloc, &self.shelf, words, out)? {
            return Ok(true);
        }
        self.texts.show(alloc, &self.shelf, words, out)
    }

    /// Shows the outside, call by call, and what a command left.
    fn show_outside(&mut self, alloc: Global, words: &[&str], out: &mut String) -> Result<bool> {
        let shown = match words {
            ["histories"] => self.outside.put_histories(out),
            ["stored"] => put_store(alloc, &self.outside, out),
            ["same", one, other] => self.put_same(one, other, out),
            ["append", name] => self.append(alloc, name),
            ["cut", length] => self.cut(alloc, length),
            [name, words @ ..] => return self.show_calls(alloc, name, words, out),
            [] => return Ok(false),
        };
        shown?;
        Ok(true)
    }

    /// Shows whether two files have the same bytes.
    fn put_same(&self, one: &str, other: &str, out: &mut String) -> Result<()> {
        let shown = if self.shelf.text(one)? == self.shelf.text(other)? {
            ">same\n"
        } else {
            ">other\n"
        };
        Ok(out.push_str(shown)?)
    }

    /// The store gains the bytes of a file.
    fn append(&mut self, alloc: Global, name: &str) -> Result<()> {
        append(alloc, &mut self.outside, self.shelf.text(name)?)
    }

    /// The store keeps so many bytes.
    fn cut(&mut self, alloc: Global, length: &str) -> Result<()> {
        cut(alloc, &mut self.outside, number_of(length)?)
    }

    /// Shows calls on objects in memory, one after the other.
    fn show_calls(
        &mut self,
        alloc: Global,
        name: &str,
        words: &[&str],
        out: &mut String,
    ) -> Result<bool> {
        let shown = match name {
            "reads" => put_reads(alloc, &mut self.outside, &self.shelf, words, out),
            "writes" => put_writes(alloc, &mut self.outside, words, out),
            "keeps" => put_keeps(alloc, &mut self.outside, words, out),
            _ => return Ok(false),
        };
        shown?;
        Ok(true)
    }
}
