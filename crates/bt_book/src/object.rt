// The book as an object of a turn lock: its calls are steps.
ghost use Rattle.std.specs.Prelude.{map};
ghost use Rattle.bt_history.specs.Book.{BookStep, lock_entry, test_stays};
ghost use Rattle.bt_history.specs.Machine.{IsOfNetwork};

use crate::Book;
use bt_frame::OutOfMemory;
use bt_journal::{Call, Reply};
use bt_outside::Keeper;
use bt_shared::Object;
use std::alloc::Global;

impl<K: Keeper> Object for Book<K> {
    type Call = Call;

    type Reply = Reply;

    ghost steps = { λ old _ call reply new. BookStep old call reply new };

    ghost history = { λ book. map lock_entry book.history };

    ghost takes = { λ book call. IsOfNetwork book.net call };

    fn apply(&mut self, alloc: Global, caller: u32, call: Call) -> Result<Reply, OutOfMemory> {
        Book::apply(self, alloc, caller, call)
    }

    ghost keeps_test = { λ old _ call reply new step other passes. test_stays old.net new.net other step.net passes };
}
