// A talk that keeps its turns.
ghost use Rattle.std.specs.Prelude.{◌≡◌, [], Some, IfOk, map};
ghost use Rattle.bt_outside.specs.Input.{said_by};
ghost use Rattle.bt_outside.specs.Kept.{turn_of};
ghost use Rattle.bt_outside.specs.Talk.{Heard, Shown};

use crate::{Incoming, Keeper, Sink, SinkFault, SourceFault, Talk, Trace};
use bt_frame::OutOfMemory;
use std::alloc::Global;

/// One turn of a talk, as it is kept.
#[derive(Drop)]
pub enum KeptTurn<K> {
    /// A line that came, or None where what came is no line.
    Heard(Option<Vec<u8>>),
    /// A piece that was written whole, and what the store was then. Clauses read that; at run time there are no bytes of it.
    Said(Vec<u8>, Trace<(), K>),
}

/// A talk that tells what was heard and what was said, and keeps all of it. Where memory runs out over a line that came,
/// the line is lost.
#[derive(Drop)]
pub struct KeptTalk<K, T> {
    talk: T,
    turns: Vec<KeptTurn<K>>,
}

impl<K: Keeper, T: Talk<K>> KeptTalk<K, T> {
    /// The same talk, whose turns are kept from here on.
    pub fn new(alloc: Global, talk: T) -> KeptTalk<K, T>
        ensures told { ⟦<KeptTalk<K, T> as Sink>⟧.told result ≡ T.told talk }
        ensures faults { ⟦<KeptTalk<K, T> as Sink>⟧.fault_count result ≡ T.fault_count talk }
        ensures turns { ⟦<KeptTalk<K, T> as Talk<K>>⟧.turns result ≡ Some [] }
        ensures coming { ⟦<KeptTalk<K, T> as Talk<K>>⟧.coming result ≡ T.coming talk }
        ensures unheard { ⟦<KeptTalk<K, T> as Talk<K>>⟧.unheard result ≡ T.unheard talk }
    {
        KeptTalk {
            talk,
            turns: Vec::new(alloc),
        }
    }

    /// The turns so far.
    pub fn turns(&self) -> &[KeptTurn<K>]
        ensures turns { Some (map (turn_of (λ (store : _). record { told = K.told store; faults = K.fault_count store; crashes = K.crashes store })) result.now) ≡ ⟦<KeptTalk<K, T> as Talk<K>>⟧.turns self.now }
    {
        self.turns.as_slice()
    }
}

impl<K: Keeper, T: Talk<K>> Sink for KeptTalk<K, T> {
    ghost told = { λ kept. T.told kept.talk };

    ghost fault_count = { λ kept. T.fault_count kept.talk };

    fn faults(&self) -> u64 {
        self.talk.faults()
    }

    fn write(&mut self, alloc: Global, piece: &[u8]) -> Result<(), SinkFault> {
        self.talk.write(alloc, piece)
    }
}

impl<K: Keeper, T: Talk<K>> Talk<K> for KeptTalk<K, T> {
    ghost coming = { λ kept. T.coming kept.talk };

    ghost unheard = { λ kept. T.unheard kept.talk };

    ghost turns = { λ kept. Some (map (turn_of (λ (store : _). record { told = K.told store; faults = K.fault_count store; crashes = K.crashes store })) kept.turns.items) };

    fn hear(&mut self, alloc: Global, limit: usize) -> Result<Option<Incoming>, SourceFault> {
        let Some(came) = self.talk.hear(alloc, limit)? else {
            return Ok(None);
        };
        let Ok(turn) = heard_turn(alloc, &came) else {
            return Err(SourceFault::OutOfMemory);
        };
        self.turns.push(turn)?;
        Ok(Some(came))
    }

    fn say(&mut self, alloc: Global, piece: &[u8], store: &K) -> Result<(), SinkFault> {
        let mut copy = Vec::new(alloc);
        copy.extend_from_slice(piece)?;
        let mut seen = Trace::new();
        seen.push(&(), store);
        self.turns.reserve(1)?;
        self.talk.say(alloc, piece, store)?;
        self.turns.push_reserved(KeptTurn::Said(copy, seen));
        Ok(())
    }
}

/// The turn that this came.
fn heard_turn<K>(alloc: Global, came: &Incoming) -> Result<KeptTurn<K>, OutOfMemory>
    ensures { IfOk result (λ turn. (shown : K → Shown) → turn_of shown turn ≡ Heard (said_by came.now)) }
{
    match came {
        Incoming::Line(line) => {
            let mut copy = Vec::new(alloc);
            copy.extend_from_slice(line.as_slice())?;
            Ok(KeptTurn::Heard(Some(copy)))
        }
        Incoming::NoLine => Ok(KeptTurn::Heard(None)),
    }
}
