// A station that hears the lines of a file.
use bt_base::{SureKeeper, SureSink};
use bt_outside::{Console, MemSource};
use bt_sheet::{Part, Result, Shelf, owned_words, put_lines};
use bt_station::station_main;
use std::alloc::Global;

/// Is the site that the words ask for while it hears these lines, and appends what it says and its status.
pub fn put_station(
    alloc: Global,
    shelf: &Shelf,
    lines: &[u8],
    words: &[&str],
    out: &mut String,
) -> Result<()> {
    let words = owned_words(alloc, words)?;
    let mut files = shelf.sure()?;
    let source = MemSource::new(lines.to_vec(alloc)?, u64::MAX);
    let mut talk = Console::new(source, SureSink::new(alloc));
    let store = SureKeeper::new(Vec::new(alloc));
    let status = station_main(alloc, &words, &mut files, &mut talk, &store);
    let (_, sink) = talk.into_parts();
    put_lines(alloc, sink.written(), Part::All, out)?;
    write!(out, "= {status}\n")?;
    Ok(())
}
