// A trace has no bytes: what happened is ghost data, which clauses alone read.
ghost use Rattle.std.specs.Prelude.{◌≡◌, ◌++◌, ◌∷◌, []};

use http_server::Log;
use std::marker::Model;

/// What happened so far, the first first, each time two things. Clauses read it; at run time there are no bytes of it.
#[derive(Drop)]
pub struct Trace<A, B> {
    log: Log<A, B>,
}

impl<A, B> Model for Trace<A, B> {
    ghost use Rattle.std.specs.Prelude.{List};

    ghost Value = { List (A × B) };

    ghost view = { λ a. a.log.items };
}

impl<A, B> Trace<A, B> {
    /// Nothing happened yet.
    pub fn new() -> Trace<A, B>
        ensures none { result ≡ [] }
    {
        Trace { log: Log::new() }
    }

    /// These two happened too.
    pub fn push(&mut self, first: &A, second: &B)
        ensures pushed { self.new ≡ self.old ++ (first.now, second.now) ∷ [] }
    {
        self.log = self.log.and(first, second);
    }
}
