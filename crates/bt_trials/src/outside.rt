// The adapters to real files, to a writer, to a real store and to a real disk.
use bt_base::{
    DirFiles, FileDisk, FileFault, FileKeeper, Files, KeepFault, Keeper, LineKeeper, Sink,
    SinkFault, StdSink,
};
use std::alloc::Global;
use std::io::Write;
use std::sync::atomic::{AtomicU64, Ordering};
use std::{env, fs, io, process, rt, test};

// Whether a read gives this, and the count of faults is then so.
fn reads<F: Files>(
    files: &mut F,
    alloc: Global,
    (name, limit): (&str, u64),
    want: Result<&str, FileFault>,
    faults: u64,
) -> bool {
    let is_wanted = match (files.read(alloc, name, limit), want) {
        (Ok(bytes), Ok(text)) => bytes.as_slice() == text.as_bytes(),
        (Err(fault), Err(other)) => fault == other,
        _ => false,
    };
    is_wanted && files.faults() == faults
}

#[test]
fn real_files_are_read_up_to_the_limit(rt: HostRuntime) -> Result<(), test::Fail> {
    let alloc = rt.alloc();
    let id = process::id(rt.process());
    let name = format!(in alloc; "bt_trials-{id}")?;
    let path = env::temp_dir(&rt)?.join(alloc, name.as_str())?;
    let path = path.as_str();
    let text = "length 0\n";
    fs::write(&rt, path, text)?;

    let mut files = DirFiles::new(&rt);
    let of_its_length = reads(&mut files, alloc, (path, 9), Ok(text), 0);
    let too_long = reads(&mut files, alloc, (path, 8), Err(FileFault::TooLong), 1);
    let without_limit = reads(&mut files, alloc, (path, u64::MAX), Ok(text), 1);
    fs::remove_file(&rt, path)?;
    let missing = reads(&mut files, alloc, (path, 9), Err(FileFault::Failed), 2);
    assert!(rt; of_its_length && too_long && without_limit && missing);
    Ok(())
}

// What a writer has room for, and whether it was flushed since it was last written to.
#[derive(Drop)]
struct Seen {
    room: AtomicU64,
    is_flushed: AtomicU64,
}

// A writer that takes two bytes at a time while it has room, and nothing after that.
#[derive(Drop)]
struct Small<'a> {
    room: usize,
    seen: &'a Seen,
}

impl Write for Small<'_> {
    fn write(&mut self, buf: &[u8]) -> io::Result<usize> {
        let taken = buf.len().min(2).min(self.room);
        self.room -= taken;
        self.seen.room.store(self.room as u64, Ordering::SeqCst);
        self.seen.is_flushed.store(0, Ordering::SeqCst);
        Ok(taken)
    }

    fn flush(&mut self) -> io::Result<()> {
        self.seen.is_flushed.store(1, Ordering::SeqCst);
        Ok(())
    }
}

// Whether a write answers so, and the count of faults, the room and whether it was flushed are then so.
fn writes<S: Sink>(
    sink: &mut S,
    alloc: Global,
    seen: &Seen,
    piece: &str,
    (is_well, faults, room): (bool, u64, u64),
) -> bool {
    let want = if is_well {
        Ok(())
    } else {
        Err(SinkFault::Failed)
    };
    sink.write(alloc, piece.as_bytes()) == want
        && sink.faults() == faults
        && seen.room.load(Ordering::SeqCst) == room
        && seen.is_flushed.load(Ordering::SeqCst) == u64::from(is_well)
}

#[test]
fn a_writer_that_takes_nothing_is_a_fault(rt: HostRuntime) {
    let alloc = rt.alloc();
    let seen = Seen {
        room: AtomicU64::new(4),
        is_flushed: AtomicU64::new(0),
    };
    let mut sink = StdSink::new(Small {
        room: 4,
        seen: &seen,
    });
    let whole = writes(&mut sink, alloc, &seen, "abc", (true, 0, 1));
    let empty = writes(&mut sink, alloc, &seen, "", (true, 0, 1));
    let in_part = writes(&mut sink, alloc, &seen, "def", (false, 1, 0));
    let none = writes(&mut sink, alloc, &seen, "g", (false, 2, 0));
    assert!(rt; whole && empty && in_part && none);
}

// Appends a text.
fn append<K: Keeper>(keeper: &mut K, alloc: Global, piece: &str) -> Result<(), KeepFault> {
    keeper.append(alloc, piece.as_bytes())
}

// Whether a store holds this text.
fn holds<K: Keeper>(keeper: &mut K, alloc: Global, text: &str) -> bool {
    match keeper.read_all(alloc) {
        Ok(bytes) => bytes.as_slice() == text.as_bytes(),
        Err(_fault) => false,
    }
}

// Whether a new store grows, is cut, and grows again, with no fault.
fn is_kept<R: rt::Files>(keeper: &mut FileKeeper<'_, R>, alloc: Global) -> Result<bool, KeepFault> {
    let is_new = holds(keeper, alloc, "");
    append(keeper, alloc, "load 1 1\n")?;
    append(keeper, alloc, "load 2 1\n")?;
    let is_grown = holds(keeper, alloc, "load 1 1\nload 2 1\n");
    keeper.cut(alloc, 9)?;
    append(keeper, alloc, "load")?;
    let is_grown_again = holds(keeper, alloc, "load 1 1\nload");
    Ok(is_new && is_grown && is_grown_again && keeper.faults() == 0)
}

// Whether each call on what is no store fails.
fn always_fails<R: rt::Files>(keeper: &mut FileKeeper<'_, R>, alloc: Global) -> bool {
    let failed = Err(KeepFault::Failed);
    append(keeper, alloc, "load") == failed
        && keeper.read_all(alloc).err() == Some(KeepFault::Failed)
        && keeper.cut(alloc, 0) == failed
        && keeper.faults() == 3
}

#[test]
fn a_real_store_is_made_and_grows_and_is_cut(rt: HostRuntime) -> Result<(), test::Fail> {
    let alloc = rt.alloc();
    let id = process::id(rt.process());
    let name = format!(in alloc; "bt_trials-store-{id}")?;
    let folder = env::temp_dir(&rt)?;
    let path = folder.join(alloc, name.as_str())?;

    let mut keeper = FileKeeper::new(&rt, path.as_str());
    let kept = is_kept(&mut keeper, alloc)?;
    fs::remove_file(&rt, path.as_str())?;

    let mut no_store = FileKeeper::new(&rt, folder.as_str());
    let fails = always_fails(&mut no_store, alloc);
    assert!(rt; kept && fails);
    Ok(())
}

// Whether a new store on a disk grows, is cut, and grows again, with no fault.
fn is_synced<R: rt::Files>(
    keeper: &mut LineKeeper<FileDisk<'_, R>>,
    alloc: Global,
) -> Result<bool, KeepFault> {
    let is_new = holds(keeper, alloc, "");
    append(keeper, alloc, "load 1 1\n")?;
    append(keeper, alloc, "load")?;
    keeper.cut(alloc, 5)?;
    append(keeper, alloc, "2 1\n")?;
    let is_grown = holds(keeper, alloc, "load 2 1\n");
    Ok(is_new && is_grown && keeper.faults() == 0)
}

// Whether each call on what is no disk fails.
fn never_syncs<R: rt::Files>(keeper: &mut LineKeeper<FileDisk<'_, R>>, alloc: Global) -> bool {
    let failed = Err(KeepFault::Failed);
    append(keeper, alloc, "load") == failed
        && keeper.read_all(alloc).err() == Some(KeepFault::Failed)
        && keeper.cut(alloc, 0) == failed
        && keeper.faults() == 3
}

#[test]
fn a_real_disk_is_made_and_grows_and_is_cut(rt: HostRuntime) -> Result<(), test::Fail> {
    let alloc = rt.alloc();
    let id = process::id(rt.process());
    let name = format!(in alloc; "bt_trials-disk-{id}")?;
    let folder = env::temp_dir(&rt)?;
    let path = folder.join(alloc, name.as_str())?;

    let file = String::from_str(alloc, path.as_str())?;
    let mut keeper = LineKeeper::open(FileDisk::new(&rt, file));
    let kept = is_synced(&mut keeper, alloc)?;
    fs::remove_file(&rt, path.as_str())?;

    let no_file = String::from_str(alloc, folder.as_str())?;
    let mut no_disk = LineKeeper::open(FileDisk::new(&rt, no_file));
    let fails = never_syncs(&mut no_disk, alloc);
    assert!(rt; kept && fails);
    Ok(())
}
