// The machine: the changes made so far with what is kept beside them, and the history of the calls.
ghost use Rattle.std.specs.Prelude.{◌≡◌, ◌<◌, ◌≤◌, [], false, true, length, IfOk, IfSome, slice_index_or};
ghost use Rattle.std.specs.List.{HoldsAt};
ghost use Rattle.bt_frame.specs.declared.limits.TheConstants.{MOST_JOURNAL_BYTES};
ghost use Rattle.bt_frame.specs.declared.limits.TheConstants.{MOST_SUM};
ghost use Rattle.bt_net.specs.Network.{IsSound};
ghost use Rattle.bt_demand.specs.Traffic.{matrix_of, AreOfNetwork, HasSumsTo};
ghost use Rattle.bt_demand.specs.Plan.{empty_plan};
ghost use Rattle.bt_journal.specs.Journal.{NamesTerminals};
ghost use Rattle.bt_history.specs.Changes.{edit_at, edition, held_after, newest, orders, plans, IsDemandAfter};
ghost use Rattle.bt_history.specs.Machine.{bytes_of, running};

use crate::changes::Changes;
use crate::kept::Kept;
use bt_air::Order;
use bt_demand::{Demand, Plan, empty_plan};
use bt_frame::{EditionNo, OutOfMemory, TermNo};
use bt_history::Occupancy;
use bt_journal::{Edit, Entry};
use bt_net::Network;
use std::alloc::Global;
use std::marker::Model;
use std::mem;

/// What is kept of the changes and beside them, the history of the calls, and whether a fault of the store has stopped the
/// machine.
#[derive(Drop)]
pub(crate) struct Machine {
    pub(crate) kept: Kept,
    pub(crate) history: Vec<Entry>,
    pub(crate) stopped: bool,
    // the memory in which the line of a change is spelled; no call reads what stands there
    pub(crate) line: Vec<u8>,
}

impl Model for Machine {
    ghost use Rattle.bt_history.specs.Records.{Records};
    ghost use Rattle.bt_book.specs.Kept.{KeepsAll};

    ghost Value = { Records };

    ghost view = { λ a. record {
      net = a.kept.occupancy.net;
      state = record { changes = a.kept.changes; stopped = a.stopped };
      history = a.history.items;
    } };

    ghost invariant = { λ a. KeepsAll a.kept };
}

impl Machine {
    /// The machine of a network before the first call.
    pub(crate) fn open(alloc: Global, net: &Network) -> Result<Machine, OutOfMemory>
        ensures net { IfOk result (λ machine. machine.net ≡ net.now) }
        ensures state { IfOk result (λ machine. machine.state ≡ running []) }
        ensures history { IfOk result (λ machine. machine.history ≡ []) }
    {
        let mut plans = Vec::new(alloc);
        plans.push(empty_plan(alloc))?;
        let kept = Kept {
            changes: Changes::none(),
            occupancy: Occupancy::new(alloc, net)?,
            past: Vec::new(alloc),
            plans,
            orders: Vec::new(alloc),
            count: 0,
            edits: 0,
            bytes: 0,
        };
        Ok(Machine {
            kept,
            history: Vec::new(alloc),
            stopped: false,
            line: Vec::new(alloc),
        })
    }

    /// How many edits were made.
    pub(crate) fn edition(&self) -> EditionNo
        ensures { result.0 ≡ edition self.now.state.changes }
    {
        EditionNo(self.kept.edits)
    }

    /// How many changes were made.
    pub(crate) fn change_count(&self) -> u32
        ensures { result ≡ length self.now.state.changes }
    {
        self.kept.count
    }

    /// How many bytes the lines of the changes have.
    pub(crate) fn line_bytes(&self) -> u32
        ensures { result ≡ bytes_of self.now.net self.now.state.changes }
    {
        self.kept.bytes
    }

    /// The network.
    pub(crate) fn network(&self) -> &Network
        ensures same { result.now ≡ self.now.net }
        ensures sound { IsSound self.now.net }
    {
        self.kept.occupancy.network()
    }

    /// The demand after the changes.
    pub(crate) fn demand(&self) -> &Demand
        ensures demand { IsDemandAfter self.now.state.changes result.now }
        ensures network { AreOfNetwork self.now.net result.now }
        ensures sums { HasSumsTo MOST_SUM (matrix_of self.now.net result.now) }
    {
        // This is there for what holds of each network: its frame has at most `MOST_SLOTS` slots.
        let _slots = self.kept.occupancy.slots();
        self.kept.occupancy.demand()
    }

    /// The slots that a link holds after the changes.
    pub(crate) fn held(&self, from: TermNo, to: TermNo) -> u32
        ensures { result ≡ held_after self.now.state.changes from to }
    {
        self.kept.occupancy.units(from, to)
    }

    /// The edit that made an edition, if one did.
    pub(crate) fn edit(&self, number: EditionNo) -> Option<Edit>
        ensures edit { result ≡ edit_at self.now.state.changes number.0 }
        ensures terminals { IfSome result (NamesTerminals self.now.net) }
    {
        let number = number.0 as usize;
        if number == 0 || self.kept.past.len() < number {
            return None;
        }
        Some(self.kept.past[number - 1])
    }

    /// The newest plan.
    pub(crate) fn newest(&self) -> &Plan
        ensures { result.now ≡ newest self.now.state.changes }
    {
        let last = self.kept.plans.len() - 1;
        &self.kept.plans[last]
    }

    /// How many plans are installed, the empty one among them.
    pub(crate) fn plan_count(&self) -> u32
        ensures { result ≡ length (plans self.now.state.changes) }
    {
        self.kept.plans.as_slice().len() as u32
    }

    /// The plan at that place.
    pub(crate) fn plan(&self, place: u32) -> &Plan
        requires { place < length (plans self.now.state.changes) }
        ensures { result.now ≡ slice_index_or (plans self.now.state.changes) place empty_plan }
    {
        &self.kept.plans[place as usize]
    }

    /// Whether a fault of the store has stopped it.
    pub(crate) fn is_stopped(&self) -> bool
        ensures { result ≡ self.now.state.stopped }
    {
        self.stopped
    }

    /// How many orders were placed.
    pub(crate) fn order_count(&self) -> u32
        ensures count { result ≡ length (orders self.now.state.changes) }
        ensures few { result ≤ MOST_JOURNAL_BYTES }
    {
        self.kept.orders.as_slice().len() as u32
    }

    /// The order at that place.
    pub(crate) fn order(&self, place: u32) -> Order
        requires { place < length (orders self.now.state.changes) }
        ensures { HoldsAt (λ order. result ≡ order) (orders self.now.state.changes) place }
    {
        self.kept.orders[place as usize]
    }

    /// Hands the entries of the calls so far over, in order: the machine is then one that began with all its changes. One that
    /// a fault of the store has stopped keeps its entries, and gives none.
    pub(crate) fn take_entries(&mut self, alloc: Global) -> Vec<Entry>
        ensures taken { self.old.state.stopped ≡ false → result.items ≡ self.old.history }
        ensures none { self.old.state.stopped ≡ false → self.new.history ≡ [] }
        ensures kept { self.old.state.stopped ≡ true → result.items ≡ [] }
        ensures history { self.old.state.stopped ≡ true → self.new.history ≡ self.old.history }
        ensures net { self.new.net ≡ self.old.net }
        ensures state { self.new.state ≡ self.old.state }
    {
        if self.stopped {
            return Vec::new(alloc);
        }
        mem::replace(&mut self.history, Vec::new(alloc))
    }

    /// The entries of the calls, in order, but for those that were handed over.
    pub(crate) fn into_history(self) -> Vec<Entry>
        ensures { result.items ≡ self.history }
    {
        let kept = self.kept;
        // The network and the traffic matrix go with the demand.
        kept.occupancy.into_demand();
        self.history
    }
}
