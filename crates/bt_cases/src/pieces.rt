// The files, the output and the store in memory, call by call.
ghost use Rattle.bt_outside.specs.Told.{HasBytes};

use crate::outside::Outside;
use bt_base::{
    Fail, FileFault, Files, KeepFault, Keeper, MemKeeper, MemSink, Sink, SinkFault, SureKeeper,
    SureSink,
};
use bt_sheet::{CaseFault, Part, Result, Shelf, number_of, put_lines};
use std::alloc::Global;

/// Reads files one after the other, each with the most bytes that it may have, and appends the answers, with the
/// number of faults so far behind each.
pub fn put_reads(
    alloc: Global,
    outside: &mut Outside,
    shelf: &Shelf,
    words: &[&str],
    out: &mut String,
) -> Result<()> {
    if outside.next.is_sure {
        outside.next.is_sure = false;
        put_sure_reads(alloc, shelf, words, out)
    } else {
        put_met_reads(alloc, outside, shelf, words, out)
    }
}

fn put_sure_reads(alloc: Global, shelf: &Shelf, words: &[&str], out: &mut String) -> Result<()> {
    let mut files = shelf.sure()?;
    put_reads_of(alloc, &mut files, words, out)
}

fn put_met_reads(
    alloc: Global,
    outside: &mut Outside,
    shelf: &Shelf,
    words: &[&str],
    out: &mut String,
) -> Result<()> {
    let mut files = shelf.failing(outside.next.reads.clone()?)?;
    outside.next.reads.clear();
    put_reads_of(alloc, &mut files, words, out)
}

fn put_reads_of<F: Files>(
    alloc: Global,
    files: &mut F,
    words: &[&str],
    out: &mut String,
) -> Result<()> {
    for pair in words.chunks(2) {
        put_pair(alloc, files, pair, out)?;
    }
    Ok(())
}

/// Reads a file with the most bytes that it may have, and appends the answer and the number of faults so far.
fn put_pair<F: Files>(alloc: Global, files: &mut F, pair: &[&str], out: &mut String) -> Result<()> {
    match *pair {
        [name, limit] => put_read(alloc, files, name, number_of(limit)?, out),
        _ => Err(CaseFault("a name without the most bytes")),
    }
}

fn put_read<F: Files>(
    alloc: Global,
    files: &mut F,
    name: &str,
    limit: u32,
    out: &mut String,
) -> Result<()> {
    put_answer(alloc, files.read(alloc, name, u64::from(limit)), out)?;
    write!(out, "= {}\n", files.faults())?;
    Ok(())
}

fn put_answer(alloc: Global, read: Result<Vec<u8>, FileFault>, out: &mut String) -> Result<()> {
    match read {
        Ok(bytes) => put_lines(alloc, &bytes, Part::All, out),
        Err(fault) => put_fault(fault, out),
    }
}

fn put_fault(fault: FileFault, out: &mut String) -> Result<()> {
    let line = match fault {
        FileFault::Failed => ">failed\n",
        FileFault::TooLong => ">too long\n",
        FileFault::OutOfMemory => return Err(CaseFault("out of memory")),
    };
    out.push_str(line)?;
    Ok(())
}

/// Writes pieces one after the other, and appends after each what was written so far, the answer, and the number of
/// faults so far.
pub fn put_writes(
    alloc: Global,
    outside: &mut Outside,
    words: &[&str],
    out: &mut String,
) -> Result<()> {
    if outside.next.is_sure {
        outside.next.is_sure = false;
        return put_sure_writes(alloc, words, out);
    }
    let fails = outside.next.writes.clone()?;
    outside.next.writes.clear();
    put_failing_writes(alloc, fails, words, out)
}

fn put_sure_writes(alloc: Global, words: &[&str], out: &mut String) -> Result<()> {
    let mut sink = SureSink::new(alloc);
    for piece in words {
        put_sure_write(alloc, &mut sink, piece, out)?;
    }
    Ok(())
}

/// Writes a piece, and appends what was written so far, the answer, and the number of faults so far.
fn put_sure_write(alloc: Global, sink: &mut SureSink, piece: &str, out: &mut String) -> Result<()> {
    let is_written = write_to(alloc, sink, piece)?;
    put_call(alloc, sink.written(), is_written, sink.faults(), out)
}

fn put_failing_writes(
    alloc: Global,
    fails: Vec<Fail>,
    words: &[&str],
    out: &mut String,
) -> Result<()> {
    let mut sink = MemSink::new(alloc, fails);
    for piece in words {
        put_write(alloc, &mut sink, piece, out)?;
    }
    Ok(())
}

/// Writes a piece, and appends what was written so far, the answer, and the number of faults so far.
fn put_write(alloc: Global, sink: &mut MemSink, piece: &str, out: &mut String) -> Result<()> {
    let is_written = write_to(alloc, sink, piece)?;
    put_call(alloc, sink.written(), is_written, sink.faults(), out)
}

/// Did the call write the piece?
fn write_to<S: Sink>(alloc: Global, sink: &mut S, piece: &str) -> Result<bool> {
    match sink.write(alloc, piece.as_bytes()) {
        Ok(()) => Ok(true),
        Err(SinkFault::Failed) => Ok(false),
        Err(SinkFault::OutOfMemory) => Err(CaseFault("out of memory")),
    }
}

/// Appends the bytes so far, whether a call did what it was asked for, and the number of faults so far.
fn put_call(
    alloc: Global,
    bytes: &[u8],
    is_done: bool,
    faults: u64,
    out: &mut String,
) -> Result<()> {
    put_lines(alloc, bytes, Part::All, out)?;
    let answer = if is_done { "ok" } else { "failed" };
    write!(out, "= {answer} {faults}\n")?;
    Ok(())
}

/// Makes calls on a store that has the bytes of the store, one after the other, and appends after each what is kept,
/// the answer, and the number of faults so far. A call is `+PIECE` to append, `?` to read, or the bytes to cut to.
pub fn put_keeps(
    alloc: Global,
    outside: &mut Outside,
    words: &[&str],
    out: &mut String,
) -> Result<()> {
    let mut store = outside.met_store()?;
    outside.next.keeps.clear();
    for word in words {
        put_keep(alloc, &mut store, word, out)?;
    }
    Ok(())
}

/// Makes a call on the store, and appends what is kept, the answer, and the number of faults so far.
fn put_keep(alloc: Global, store: &mut MemKeeper, word: &str, out: &mut String) -> Result<()> {
    let is_done = call_on(alloc, store, word)?;
    put_call(alloc, store.kept(), is_done, store.faults(), out)
}

/// Did the call that the word says do what it was asked for?
fn call_on(alloc: Global, store: &mut MemKeeper, word: &str) -> Result<bool> {
    match word.strip_prefix('+') {
        Some(piece) => append_to(alloc, store, piece.as_bytes()),
        None if word == "?" => is_read(alloc, store),
        None => cut_at(alloc, store, number_of(word)?),
    }
}

fn is_read(alloc: Global, store: &mut MemKeeper) -> Result<bool> {
    Ok(all_of(alloc, store)?.is_some())
}

fn cut_at(alloc: Global, store: &mut MemKeeper, length: u32) -> Result<bool> {
    if store.kept().len() < length as usize {
        return Err(CaseFault("a longer store"));
    }
    cut_to(alloc, store, u64::from(length))
}

/// The store gains the bytes.
pub fn append(alloc: Global, outside: &mut Outside, bytes: &[u8]) -> Result<()> {
    let mut store = SureKeeper::new(outside.store.clone()?);
    outside.store = after_append(alloc, &mut store, bytes)?;
    Ok(())
}

/// What a store has that gained the bytes.
fn after_append(alloc: Global, store: &mut SureKeeper, bytes: &[u8]) -> Result<Vec<u8>> {
    if !append_to(alloc, store, bytes)? {
        return Err(CaseFault("not appended"));
    }
    Ok(store.kept().to_vec(alloc)?)
}

/// The store keeps so many bytes, which it has.
pub fn cut(alloc: Global, outside: &mut Outside, length: u32) -> Result<()> {
    let mut store = SureKeeper::new(outside.store.clone()?);
    outside.store = after_cut(alloc, &mut store, length)?;
    Ok(())
}

/// What a store has that keeps so many bytes, which it has.
fn after_cut(alloc: Global, store: &mut SureKeeper, length: u32) -> Result<Vec<u8>> {
    if store.kept().len() < length as usize {
        return Err(CaseFault("a longer store"));
    }
    if !cut_to(alloc, store, u64::from(length))? {
        return Err(CaseFault("not cut"));
    }
    Ok(store.kept().to_vec(alloc)?)
}

/// Appends the bytes of the store.
pub fn put_store(alloc: Global, outside: &Outside, out: &mut String) -> Result<()> {
    let mut store = SureKeeper::new(outside.store.clone()?);
    match all_of(alloc, &mut store)? {
        Some(bytes) => put_lines(alloc, &bytes, Part::All, out),
        None => Err(CaseFault("not read")),
    }
}

/// Did the call append the piece?
fn append_to<K: Keeper>(alloc: Global, store: &mut K, bytes: &[u8]) -> Result<bool> {
    is_done(store.append(alloc, bytes))
}

/// Did the call cut the store?
fn cut_to<K: Keeper>(alloc: Global, store: &mut K, length: u64) -> Result<bool>
    requires { HasBytes length (K.told store.old) }
{
    is_done(store.cut(alloc, length))
}

fn is_done(answer: Result<(), KeepFault>) -> Result<bool> {
    match answer {
        Ok(()) => Ok(true),
        Err(KeepFault::Failed) => Ok(false),
        Err(_) => Err(CaseFault("out of memory")),
    }
}

/// The bytes of the store, unless the call failed.
fn all_of<K: Keeper>(alloc: Global, store: &mut K) -> Result<Option<Vec<u8>>> {
    match store.read_all(alloc) {
        Ok(bytes) => Ok(Some(bytes)),
        Err(KeepFault::Failed) => Ok(None),
        Err(_) => Err(CaseFault("no bytes for memory")),
    }
}
