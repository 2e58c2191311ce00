// What a disk in memory has held at each moment so far.
ghost use Rattle.std.specs.Prelude.{◌≡◌, [], OnOk, OnErr};
ghost use Rattle.bt_base.specs.Medium.{Steps};
ghost use Rattle.bt_base.specs.Moments.{medium_of};
ghost use Rattle.bt_base.specs.MemoryDisk.{Turned, Settled};

use std::alloc::{AllocError, Global};
use std::marker::Model;
use std::mem;

/// What is held at one moment: the bytes as they read, and those of the last sync where these are others.
#[derive(Drop)]
pub(crate) struct Held {
    bytes: Vec<u8>,
    synced: Option<Vec<u8>>,
}

impl Model for Held {
    ghost use Rattle.bt_base.specs.Moments.{Held};
    ghost use Rattle.bt_base.specs.MemoryDisk.{synced_of};

    ghost Value = { Held };

    ghost view = { λ a. record { synced = synced_of a.bytes.items a.synced; bytes = a.bytes.items } };
}

impl Held {
    /// The bytes as they read.
    pub(crate) fn bytes(&self) -> &[u8]
        ensures { result.now ≡ self.now.bytes }
    {
        self.bytes.as_slice()
    }

    /// The bytes of the last sync.
    pub(crate) fn synced(&self) -> &[u8]
        ensures { result.now ≡ self.now.synced }
    {
        match &self.synced {
            None => self.bytes.as_slice(),
            Some(synced) => synced.as_slice(),
        }
    }
}

/// What was held at each moment before, and what is held now.
#[derive(Drop)]
pub(crate) struct Moments {
    past: Vec<Held>,
    last: Held,
    /// The bytes once more, where some of them may not be synced: those that a sync leaves. There is room for one moment.
    spare: Option<Vec<u8>>,
}

impl Model for Moments {
    ghost use Rattle.std.specs.Prelude.{vec_len, vec_capacity};
    ghost use Rattle.bt_base.specs.Moments.{Life};
    ghost use Rattle.bt_base.specs.MemoryDisk.{IsPrepared};

    ghost Value = { Life };

    ghost view = { λ a. record { past = a.past.items; last = a.last } };

    ghost invariant = { λ a. IsPrepared a.last a.spare (vec_len a.past) (vec_capacity a.past) };
}

impl Moments {
    /// These bytes, all synced.
    pub(crate) fn new(alloc: Global, bytes: Vec<u8>) -> Moments
        ensures { result ≡ record { past = []; last = record { synced = bytes.items; bytes = bytes.items } } }
    {
        Moments {
            past: Vec::new(alloc),
            last: Held {
                bytes,
                synced: None,
            },
            spare: None,
        }
    }

    /// What is held now.
    pub(crate) fn now(&self) -> &Held
        ensures { result.now ≡ self.now.last }
    {
        &self.last
    }

    /// From now on these are the bytes that read, not yet synced.
    pub(crate) fn turn(&mut self, alloc: Global, bytes: Vec<u8>) -> Result<(), AllocError>
        ensures ok { OnOk result (Turned self.old bytes.items self.new) }
        ensures steps { Steps (medium_of self.old) (medium_of self.new) }
        ensures err { OnErr result (self.new ≡ self.old) }
    {
        let synced = Vec::from_slice(alloc, self.last.synced())?;
        let spare = Vec::from_slice(alloc, bytes.as_slice())?;
        self.past.reserve(2)?;
        let next = Held {
            bytes,
            synced: Some(synced),
        };
        let before = mem::replace(&mut self.last, next);
        self.past.push_reserved(before);
        self.spare = Some(spare);
        Ok(())
    }

    /// From now on the bytes that read are synced. Where they are so already, nothing changes.
    pub(crate) fn settle(&mut self)
        ensures settled { Settled self.old self.new }
        ensures steps { Steps (medium_of self.old) (medium_of self.new) }
    {
        if self.last.synced() == self.last.bytes() {
            return;
        }
        if let Some(bytes) = self.spare.take() {
            let next = Held {
                bytes,
                synced: None,
            };
            let before = mem::replace(&mut self.last, next);
            self.past.push_reserved(before);
        }
    }
}
