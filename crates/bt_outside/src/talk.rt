// Hearing and saying, as one, over a store.
ghost use Rattle.std.specs.Prelude.{◌≡◌, ℕ, List, Option, IfOk, OnErr, OnOk, IsErrOf};
ghost use Rattle.bt_outside.specs.Told.{GainsPrefix, HasCause, gained};
ghost use Rattle.bt_outside.specs.Input.{Comes, IsShort};
ghost use Rattle.bt_outside.specs.Talk.{Turn, heard, said, took};

use crate::{Incoming, Keeper, Sink, SinkFault, SourceFault};
use std::alloc::Global;

/// An input and an output by which somebody hears and says, so that the order of the two is told: a piece that was said
/// before the next line was heard stands before it.
///
/// What is said is told with what the store told just then. Whoever is generic over `K` has no store of that type but the one
/// that it was handed, so that these are the bytes of that one.
///
/// After a line that was not heard (Err) nothing is said of what comes.
pub trait Talk<K: Keeper>: Sink {
    /// The bytes that are still to come, where they are told.
    ghost coming: { Self → Option (List ℕ) };

    /// How often a line could not be heard.
    ghost unheard: { Self → ℕ };

    /// What was heard and what was said so far, in order, where it is told.
    ghost turns: { Self → Option (List Turn) };

    /// The next line, of at most `limit` bytes without its newline; None at the end of the input.
    fn hear(&mut self, alloc: Global, limit: usize) -> Result<Option<Incoming>, SourceFault>
        ensures next { IfOk result (λ came. Comes limit (coming self.old) came (coming self.new)) }
        ensures short { IfOk result (λ came. IsShort limit came) }
        ensures cause { HasCause SourceFault.Failed (unheard self.old) (unheard self.new) result }
        ensures turn { IfOk result (λ came. turns self.new ≡ took (turns self.old) (heard came)) }
        ensures no_turn { OnErr result (turns self.new ≡ turns self.old) }
        ensures output { Self.told self.new ≡ Self.told self.old }
        ensures output_faults { Self.fault_count self.new ≡ Self.fault_count self.old };

    /// Writes the whole piece behind what was written before.
    fn say(&mut self, alloc: Global, piece: &[u8], store: &K) -> Result<(), SinkFault>
        ensures ok { OnOk result (Self.told self.new ≡ gained (Self.told self.old) piece.now) }
        ensures failed { IsErrOf result SinkFault.Failed → GainsPrefix (Self.told self.old) piece.now (Self.told self.new) }
        ensures out_of_memory { IsErrOf result SinkFault.OutOfMemory → Self.told self.new ≡ Self.told self.old }
        ensures cause { HasCause SinkFault.Failed (Self.fault_count self.old) (Self.fault_count self.new) result }
        ensures turn { OnOk result (turns self.new ≡ took (turns self.old) (said piece.now
            (record { told = K.told store.now; faults = K.fault_count store.now; crashes = K.crashes store.now }))) }
        ensures no_turn { OnErr result (turns self.new ≡ turns self.old) }
        ensures input { coming self.new ≡ coming self.old }
        ensures input_faults { unheard self.new ≡ unheard self.old };
}
