// The steps on the lock's table, and what each tells its caller.
ghost use Rattle.bt_shared.specs.Turns.{drawn, looked, passed, admits, admitted, joined, gone};

use crate::{Object, TurnView};
use atomic_table::{Join, Play, Split};
use std::marker::PhantomData;

/// A ticket is drawn.
pub(crate) struct Draw;

impl<S, O, C, R> Play<S, TurnView<O, C, R>> for Draw {
    ghost then = { drawn };
}

/// The ticket that is served is looked at. Where it is the seat's own, the object is the seat's from this step on.
pub(crate) struct Look<O> {
    object: PhantomData<O>,
}

impl<O: Object> Play<Option<O>, TurnView<O, O::Call, O::Reply>> for Look<O> {
    ghost then = { looked O.steps O.history };
}

/// The turn goes to the next ticket. At this step the seat gives the object up, and its call stands in the history.
pub(crate) struct PassOn<O> {
    object: PhantomData<O>,
}

impl<O: Object> Play<Option<O>, TurnView<O, O::Call, O::Reply>> for PassOn<O> {
    ghost then = { passed O.history };
}

/// The first seat gives a number out.
pub(crate) struct Admit;

impl<O, C, R> Split<TurnView<O, C, R>> for Admit {
    ghost left = { admits };

    ghost right = { admitted };
}

/// The first seat takes a seat in.
pub(crate) struct TakeIn;

impl<O, C, R> Join<TurnView<O, C, R>> for TakeIn {
    ghost both = { joined };

    ghost spent = { gone };
}
