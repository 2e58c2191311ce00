// What a line that asks is told, of what a run has in hand.
ghost use Rattle.std.specs.Prelude.{◌≡◌, IfOk};
ghost use Rattle.bt_history.specs.Causes.{Follows};
ghost use Rattle.bt_round.specs.AirLines.{opening_in};
ghost use Rattle.bt_talk.specs.Block.{IsQueryFor};
ghost use Rattle.bt_centre.specs.Told.{IsAnswer, IsTold};

use bt_book::Book;
use bt_frame::OutOfMemory;
use bt_look::{
    capacity_of_book, demand_of_book, newest_of_book, plans_of_book, room_of_book, state_of_book,
};
use bt_net::Network;
use bt_outside::Keeper;
use bt_round::{CentreWorker, tried_text};
use bt_talk::{Query, counted_text, help_text};
use bt_world::Events;
use std::alloc::Global;

/// What is told of a book and of the air, with the number of its lines in front.
pub(crate) fn tell<K: Keeper, E: Events>(
    alloc: Global,
    net: &Network,
    book: &Book<K>,
    centre: &CentreWorker<E>,
    query: Query,
) -> Result<Vec<u8>, OutOfMemory>
    requires network { book.now.net ≡ net.now }
    requires air_network { (opening_in centre.now).net ≡ net.now }
    requires terminals { IsQueryFor net.now query }
    requires follow { Follows net.now book.now.state.changes }
    ensures told { IfOk result (λ text. IsTold net.now book.now.state centre.now query text.items) }
{
    let own = answer(alloc, net, book, centre, query)?;
    counted_text(alloc, own.as_slice())
}

/// What is told.
fn answer<K: Keeper, E: Events>(
    alloc: Global,
    net: &Network,
    book: &Book<K>,
    centre: &CentreWorker<E>,
    query: Query,
) -> Result<Vec<u8>, OutOfMemory>
    requires network { book.now.net ≡ net.now }
    requires air_network { (opening_in centre.now).net ≡ net.now }
    requires terminals { IsQueryFor net.now query }
    requires follow { Follows net.now book.now.state.changes }
    ensures { IfOk result (λ text. IsAnswer net.now book.now.state centre.now query text.items) }
{
    match query {
        Query::State => state_of_book(alloc, net, book),
        Query::Capacity => capacity_of_book(alloc, net, book),
        Query::Room { from, to } => room_of_book(alloc, net, book, from, to),
        Query::Demand => demand_of_book(alloc, net, book),
        Query::Installed => newest_of_book(alloc, net, book),
        Query::Plans => plans_of_book(alloc, book),
        Query::Air => centre.air_text(alloc, net),
        Query::Waiting => centre.waiting_text(alloc, net),
        Query::Help(sites) => help_text(alloc, sites),
        Query::Blocks(lines) => Ok(lines.into_text()),
        Query::Try(said) => tried_text(alloc, net, book, said.as_slice()),
    }
}
