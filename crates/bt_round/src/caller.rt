// A caller of the book in a round.
ghost use Rattle.std.specs.Prelude.{◌≡◌, ◌++◌, ◌∷◌, [], IfOk, OnErr};
ghost use Rattle.bt_shared.specs.Legal.{Legal};
ghost use Rattle.bt_shared.specs.Passes.{IsOfLine, seen_at};
ghost use Rattle.bt_history.specs.Causes.{Follows};
ghost use Rattle.bt_history.specs.Book.{Books, book_steps};
ghost use Rattle.bt_history.specs.Machine.{IsOfNetwork};
ghost use Rattle.bt_round.specs.Callers.{Calling, IsAnswered, IsSameCaller, caller_number, own_of};

use crate::gate::Gate;
use bt_book::{Book, locked_calls_are_steps};
use bt_frame::OutOfMemory;
use bt_journal::{Call, Entry, Reply};
use bt_net::Network;
use bt_outside::Keeper;
use bt_shared::{Line, Object, Pass};
use std::alloc::Global;
use std::marker::Model;
use std::sync::Wait;

/// A caller of the book in a round: its pass of the book's line, and the gate that is told of its calls.
///
/// Contracts see its table, the book as the line started, and its place in the line. A book of any keeper is such an
/// object; a type with a pass of it has to say so.
#[derive(Drop)]
pub struct Caller<'a, G: Gate, K: Keeper>
where
    Book<K>: Object<Call = Call, Reply = Reply>,
{
    gate: &'a G,
    line: &'a Line<Book<K>>,
    pass: Pass<Book<K>>,
    /// How many calls it made in this round; past the last value of its type they are counted from 0 again.
    calls: u32,
}

impl<'a, G: Gate, K: Keeper> Model for Caller<'a, G, K>
where
    Book<K>: Object<Call = Call, Reply = Reply>,
{
    ghost use Rattle.bt_round.specs.Callers.{Calling, IsCalling};

    ghost Value = { Calling };

    ghost view = { λ a. record { table = a.line.now.table.shared.table_id; start = a.line.now.table.shared.key.value; place = a.pass.place } };

    ghost invariant = { λ a. IsCalling (record { table = a.line.now.table.shared.table_id; start = a.line.now.table.shared.key.value; place = a.pass.place }) };
}

impl<'a, G: Gate, K: Keeper> Caller<'a, G, K> {
    /// The caller of a pass, which has made no call yet.
    pub fn new(gate: &'a G, line: &'a Line<Book<K>>, pass: Pass<Book<K>>) -> Caller<'a, G, K>
        requires of_line { IsOfLine line.now.table.shared.table_id line.now.table.shared.key.value pass.place }
        requires begins { Follows line.now.table.shared.key.value.net line.now.table.shared.key.value.state.changes }
        requires legal { (end : Books) × Legal book_steps line.now.table.shared.key.value (seen_at pass.place) end }
        ensures made { result ≡ record { table = line.now.table.shared.table_id; start = line.now.table.shared.key.value; place = pass.place } }
    {
        Caller {
            gate,
            line,
            pass,
            calls: 0,
        }
    }

    /// Its pass, once it makes no call any more.
    pub fn into_pass(self) -> Pass<Book<K>>
        ensures pass { result.place ≡ self.entry.place }
    {
        self.pass
    }

    /// Makes a call on the book when its turn comes, and gives its entry. Others may have called meanwhile. Where memory
    /// runs out it has no entry.
    #[inline(always)]
    pub(crate) fn ask<R: Wait>(
        &mut self,
        rt: &R,
        alloc: Global,
        net: &Network,
        call: Call,
    ) -> Result<Entry, OutOfMemory>
        requires network { self.old.start.net ≡ net.now }
        requires terminals { IsOfNetwork net.now call }
        ensures same { IsSameCaller self.old self.new }
        ensures caller { IfOk result (λ entry. entry.caller ≡ caller_number self.old) }
        ensures call { IfOk result (λ entry. entry.call ≡ call) }
        ensures answered { IfOk result (λ entry. IsAnswered net.now self.old entry) }
        ensures kept { IfOk result (λ entry. own_of self.new ≡ own_of self.old ++ entry ∷ []) }
        ensures err { OnErr result (own_of self.new ≡ own_of self.old) }
    {
        locked_calls_are_steps();
        let asked = call.copy(alloc)?;
        self.gate.before(self.pass.number, self.calls);
        let reply = self.line.call(rt, alloc, &mut self.pass, call)?;
        self.gate.after(self.pass.number, self.calls);
        self.calls = self.calls.wrapping_add(1);
        Ok(Entry {
            caller: self.pass.number,
            call: asked,
            reply,
        })
    }
}
