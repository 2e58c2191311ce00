// An object whose calls are steps, each kept as an entry.
ghost use Rattle.std.specs.Prelude.{◌≡◌, ◌++◌, ◌∷◌, [], ℕ, List, IfOk, OnErr};
ghost use Rattle.bt_shared.specs.declared.object.TurnEntry.{TurnEntry};

use bt_frame::OutOfMemory;
use std::alloc::Global;

/// One call: who called, what was asked, and what was answered.
#[derive(Clone, Copy, Drop)]
pub struct TurnEntry<C, R> {
    /// The number of the caller.
    pub caller: u32,
    pub call: C,
    pub reply: R,
}

/// An object that is used by calls alone, and that keeps each call with its reply.
pub trait Object {
    /// What is asked of the object.
    type Call;

    /// What it answers.
    type Reply;

    /// The step: the object before, the caller, the call, the reply, and the object after.
    ghost steps: { Self → ℕ → Self.Call → Self.Reply → Self → Type 0 };

    /// The entries that the object has stored, in order.
    ghost history: { Self → List (TurnEntry Self.Call Self.Reply) };

    /// The test that a call must pass.
    ghost takes: { Self → Self.Call → Type 0 };

    /// Answers a call by a step, and stores its entry. Where memory runs out, nothing has changed.
    fn apply(
        &mut self,
        alloc: Global,
        caller: u32,
        call: Self::Call,
    ) -> Result<Self::Reply, OutOfMemory>
        requires takes { takes self.old call }
        ensures step { IfOk result (λ reply. steps self.old caller call reply self.new) }
        ensures entry { IfOk result (λ reply. history self.new
            ≡ history self.old ++ record { caller = caller; call = call; reply = reply } ∷ []) }
        ensures refused { OnErr result (self.new ≡ self.old) };

    /// No step changes the test: a call that passed it before passes it after.
    ghost keeps_test: { (o : Self) (k : ℕ) (c : Self.Call) (r : Self.Reply) (p : Self)
        → steps o k c r p → (d : Self.Call) → takes o d → takes p d };
}
