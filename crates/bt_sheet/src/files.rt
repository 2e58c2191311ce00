// The files in memory that the cases of a text share.
use crate::escape::take_text;
use crate::fault::{CaseFault, Result};
use crate::links::put_links;
use crate::words::number_of;
use bt_base::{Fail, MemFiles, SureFiles};
use std::alloc::Global;

/// Sets up files; false where the words are another line.
pub fn set_files(alloc: Global, shelf: &mut Shelf, words: &[&str]) -> Result<bool> {
    match *words {
        ["clear"] => {
            shelf.clear();
            Ok(true)
        }
        [what, name] => set_file(alloc, shelf, what, name),
        ["links", terminals, units] => set_links(alloc, shelf, terminals, units),
        _ => Ok(false),
    }
}

/// Sets up the links between so many terminals; true, as for each line that is taken.
fn set_links(alloc: Global, shelf: &mut Shelf, terminals: &str, units: &str) -> Result<bool> {
    shelf.link(alloc, number_of(terminals)?, number_of(units)?)?;
    Ok(true)
}

/// Sets up the files of a name; false where the word is of another line.
fn set_file(alloc: Global, shelf: &mut Shelf, what: &str, name: &str) -> Result<bool> {
    let set = match what {
        "clear" => {
            shelf.clear_named(name);
            Ok(())
        }
        "file" => shelf.begin(alloc, name, Vec::new(alloc)),
        "second" => shelf.begin_again(alloc, name),
        _ => return Ok(false),
    };
    set?;
    Ok(true)
}

/// Name and contents of each file.
#[derive(Drop)]
pub struct Shelf {
    files: Vec<(String, Vec<u8>)>,
}

impl Shelf {
    /// No files.
    pub fn new(alloc: Global) -> Shelf {
        Shelf {
            files: Vec::new(alloc),
        }
    }

    /// Drops all files.
    pub fn clear(&mut self) {
        self.files.clear();
    }

    /// Drops the files of that name.
    pub fn clear_named(&mut self, name: &str) {
        self.files.retain(|file| file.0.as_str() != name);
    }

    /// A file of a name that no file has.
    pub fn begin(&mut self, alloc: Global, name: &str, contents: Vec<u8>) -> Result<()> {
        if self.contents(name).is_some() {
            return Err(CaseFault("a second file of that name"));
        }
        self.add(alloc, name, contents)
    }

    /// A file of whatever name.
    pub fn begin_again(&mut self, alloc: Global, name: &str) -> Result<()> {
        self.add(alloc, name, Vec::new(alloc))
    }

    /// One line more of the file that was begun last, so often.
    pub fn fill(&mut self, count: u32, line: &str) -> Result<()> {
        let contents = self.last()?;
        for _ in 0..count {
            take_text(line, contents)?;
        }
        Ok(())
    }

    /// A line for each link between so many terminals more of the file that was begun last.
    pub fn link(&mut self, alloc: Global, terminals: u32, units: u32) -> Result<()> {
        put_links(alloc, terminals, units, self.last()?)
    }

    /// The contents of a file that stands here.
    pub fn text(&self, name: &str) -> Result<&[u8]> {
        match self.contents(name) {
            Some(contents) => Ok(contents),
            None => Err(CaseFault("no file of that name")),
        }
    }

    /// A copy with the first bytes alone of one file.
    pub fn cut(&self, alloc: Global, name: &str, length: usize) -> Result<Shelf> {
        let mut shelf = Shelf::new(alloc);
        for (other, contents) in &self.files {
            let kept = if other.as_str() == name {
                length
            } else {
                contents.len()
            };
            shelf.add_first(alloc, other.as_str(), contents, kept)?;
        }
        Ok(shelf)
    }

    /// The files as the program meets them, where some reads fail.
    pub fn failing(&self, fails: Vec<Fail>) -> Result<MemFiles> {
        Ok(MemFiles::new(self.files.clone()?, fails))
    }

    /// The files as the program meets them, where none fails.
    pub fn sure(&self) -> Result<SureFiles> {
        Ok(SureFiles::new(self.files.clone()?))
    }

    /// One file more, of the first bytes of these.
    fn add_first(&mut self, alloc: Global, name: &str, bytes: &[u8], kept: usize) -> Result<()> {
        match bytes.get(..kept) {
            Some(bytes) => self.add(alloc, name, bytes.to_vec(alloc)?),
            None => Err(CaseFault("a shorter file")),
        }
    }

    /// One file more.
    fn add(&mut self, alloc: Global, name: &str, contents: Vec<u8>) -> Result<()> {
        let name = String::from_str(alloc, name)?;
        Ok(self.files.push((name, contents))?)
    }

    fn contents(&self, name: &str) -> Option<&[u8]> {
        for (other, contents) in &self.files {
            if other.as_str() == name {
                return Some(contents.as_slice());
            }
        }
        None
    }

    fn last(&mut self) -> Result<&mut Vec<u8>> {
        match self.files.last_mut() {
            Some(file) => Ok(&mut file.1),
            None => Err(CaseFault("no file was begun")),
        }
    }
}
