// What a seat at the lock's table knows, and the rule of the table.
use crate::{Object, TurnEntry};
use atomic_table::TableRule;
use std::collections::LinkedList;
use std::snapshot::Snapshot;

/// What a seat knows. It is for proofs alone: no value of it is made.
pub struct TurnView<O, C, R> {
    /// The number of the caller.
    pub number: u64,
    /// The object as the line started; None once the seat was taken in.
    pub start: Option<O>,
    /// The history of the line that the caller has seen.
    pub seen: LinkedList<TurnEntry<C, R>>,
    /// Its ticket while it waits or has its turn. Tickets are counted from 0 and have no bound.
    pub ticket: Option<u64>,
    /// In its turn, the history of the line as the turn came.
    pub base: Option<LinkedList<TurnEntry<C, R>>>,
    /// Of the first seat: how many numbers are given out.
    pub count: u64,
    /// Of the first seat: what the last seats had seen, in order, which it took in as the line closes.
    pub kept: LinkedList<LinkedList<TurnEntry<C, R>>>,
}

/// The rule of the turn lock.
pub struct Turns;

impl<O: Object> TableRule<Option<O>, TurnView<O, O::Call, O::Reply>, Snapshot<O>> for Turns {
    ghost use Rattle.bt_shared.specs.Turns.{Kept, opening_view};

    ghost holds = { λ key. Kept O.steps O.history key.value };

    ghost first = { λ key. opening_view key.value };
}
