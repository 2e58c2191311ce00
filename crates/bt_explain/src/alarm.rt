// A store that raises an alarm.
ghost use Rattle.std.specs.Prelude.{◌≡◌};

use crate::telling::name_of;
use bt_outside::{KeepFault, Keeper};
use bt_report::Program;
use bt_text::first_line;
use std::alloc::Global;

/// A store, of which standard error is told at once where it could not be written, and once where it is nearly full.
#[derive(Drop)]
pub struct Alarming<'a, R, K> {
    rt: &'a R,
    program: Program,
    store: K,
    fill: Fill,
}

impl<'a, R: Eprint, K: Keeper> Alarming<'a, R, K> {
    /// That store, of a program. The bytes of its changes are at most so many, where that is known.
    pub fn new(rt: &'a R, program: Program, most: Option<u32>, store: K) -> Alarming<'a, R, K>
        ensures told { ⟦<Alarming<'a, R, K> as Keeper>⟧.told result ≡ K.told store }
        ensures faults { ⟦<Alarming<'a, R, K> as Keeper>⟧.fault_count result ≡ K.fault_count store }
        ensures crashes { ⟦<Alarming<'a, R, K> as Keeper>⟧.crashes result ≡ K.crashes store }
    {
        Alarming {
            rt,
            program,
            store,
            fill: Fill::empty(most),
        }
    }

    /// Says that the store could not be written, where it is so.
    fn tell(&self, kept: &Result<(), KeepFault>) {
        if let Err(KeepFault::Failed) = kept {
            let name = name_of(self.program);
            // where standard error cannot be written either, the answers alone tell
            let _told = eprintln!(self.rt;
                "{name}: alarm: the journal could not be written: no change is taken until a start, or a line `restart`, finds it well"
            );
        }
    }

    /// Says how full the store is, where a piece that was kept was the first to bring it so far.
    fn tell_fill(&mut self)
        ensures same { self.new.store ≡ self.old.store }
    {
        if let Some((bytes, most)) = self.fill.next_told() {
            let name = name_of(self.program);
            let _told = eprintln!(self.rt;
                "{name}: alarm: the journal's changes have {bytes} of {most} bytes: where it is full, each change is refused with E5"
            );
        }
    }
}

/// How full a store is.
#[derive(Clone, Copy)]
struct Fill {
    /// The bytes that are kept, and how many of them are a mark.
    bytes: u64,
    mark: u64,
    /// The most bytes of changes, until it was told that nine tenths of them are there.
    most: Option<u32>,
}

impl Fill {
    fn empty(most: Option<u32>) -> Fill {
        Fill {
            bytes: 0,
            mark: 0,
            most,
        }
    }

    /// Begins anew with these bytes.
    fn begin(&mut self, bytes: &[u8]) {
        self.bytes = bytes.len() as u64;
        self.mark = mark_bytes(bytes);
    }

    /// So many first bytes are left.
    fn cut(&mut self, length: u64) {
        self.bytes = self.bytes.min(length);
    }

    /// This piece is kept.
    fn add(&mut self, piece: &[u8]) {
        self.bytes = self.bytes.saturating_add(piece.len() as u64);
        self.mark = self.mark.saturating_add(mark_bytes(piece));
    }

    /// The bytes of the changes and the most that they may have, once, where nine tenths of these are there.
    fn next_told(&mut self) -> Option<(u64, u32)> {
        let most = self.most?;
        let bytes = self.bytes.saturating_sub(self.mark);
        if bytes.saturating_mul(10) < u64::from(most).saturating_mul(9) {
            return None;
        }
        self.most = None;
        Some((bytes, most))
    }
}

/// The bytes of the mark in front of a piece, its newline included.
fn mark_bytes(piece: &[u8]) -> u64 {
    match first_line(piece) {
        Some((line, _)) if line.starts_with(b"journal ".as_slice()) => {
            (line.len() as u64).saturating_add(1)
        }
        _ => 0,
    }
}

impl<R: Eprint, K: Keeper> Keeper for Alarming<'_, R, K> {
    ghost told = { λ a. K.told a.store };

    ghost fault_count = { λ a. K.fault_count a.store };

    ghost crashes = { λ a. K.crashes a.store };

    fn faults(&self) -> u64 {
        self.store.faults()
    }

    fn append(&mut self, alloc: Global, piece: &[u8]) -> Result<(), KeepFault> {
        let kept = self.store.append(alloc, piece);
        self.tell(&kept);
        if kept.is_ok() {
            self.fill.add(piece);
            self.tell_fill();
        }
        kept
    }

    fn read_all(&mut self, alloc: Global) -> Result<Vec<u8>, KeepFault> {
        let read = self.store.read_all(alloc);
        if let Ok(bytes) = &read {
            self.fill.begin(bytes.as_slice());
        }
        read
    }

    fn cut(&mut self, alloc: Global, length: u64) -> Result<(), KeepFault> {
        let kept = self.store.cut(alloc, length);
        self.tell(&kept);
        if kept.is_ok() {
            self.fill.cut(length);
        }
        kept
    }
}
