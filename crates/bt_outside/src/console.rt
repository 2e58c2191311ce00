// A source and a sink as one.
ghost use Rattle.std.specs.Prelude.{◌≡◌, None};

use crate::{Incoming, Keeper, Sink, SinkFault, Source, SourceFault, Talk};
use std::alloc::Global;
use std::marker::PhantomData;

/// A source and a sink by which a centre talks over a store of the type `K`. What was heard and said is not told, and nothing of it is kept.
#[derive(Drop)]
pub struct Console<K, I, O> {
    input: I,
    output: O,
    of: PhantomData<K>,
}

impl<K: Keeper, I: Source, O: Sink> Console<K, I, O> {
    /// What hears by `input` and says by `output`.
    pub fn new(input: I, output: O) -> Console<K, I, O>
        ensures coming { ⟦<Console<K, I, O> as Talk<K>>⟧.coming result ≡ I.told input }
        ensures unheard { ⟦<Console<K, I, O> as Talk<K>>⟧.unheard result ≡ I.fault_count input }
        ensures told { ⟦<Console<K, I, O> as Sink>⟧.told result ≡ O.told output }
        ensures faults { ⟦<Console<K, I, O> as Sink>⟧.fault_count result ≡ O.fault_count output }
    {
        Console {
            input,
            output,
            of: PhantomData,
        }
    }

    /// The source and the sink.
    pub fn into_parts(self) -> (I, O)
        ensures coming { I.told result.0 ≡ ⟦<Console<K, I, O> as Talk<K>>⟧.coming self }
        ensures told { O.told result.1 ≡ ⟦<Console<K, I, O> as Sink>⟧.told self }
    {
        (self.input, self.output)
    }
}

impl<K: Keeper, I: Source, O: Sink> Sink for Console<K, I, O> {
    ghost told = { λ console. O.told console.output };

    ghost fault_count = { λ console. O.fault_count console.output };

    fn faults(&self) -> u64 {
        self.output.faults()
    }

    fn write(&mut self, alloc: Global, piece: &[u8]) -> Result<(), SinkFault> {
        self.output.write(alloc, piece)
    }
}

impl<K: Keeper, I: Source, O: Sink> Talk<K> for Console<K, I, O> {
    ghost coming = { λ console. I.told console.input };

    ghost unheard = { λ console. I.fault_count console.input };

    ghost turns = { λ _. None };

    fn hear(&mut self, alloc: Global, limit: usize) -> Result<Option<Incoming>, SourceFault> {
        self.input.next_line(alloc, limit)
    }

    fn say(&mut self, alloc: Global, piece: &[u8], _store: &K) -> Result<(), SinkFault> {
        self.output.write(alloc, piece)
    }
}
