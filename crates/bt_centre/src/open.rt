// A run at its start: the store's changes are recovered, and the air opens with them.
ghost use Rattle.std.specs.Prelude.{◌≡◌, ◌<◌, ◌≤◌, ◌+◌, [], option_map, IfErr, IfOk, IfSome};
ghost use Rattle.bt_history.specs.Causes.{Follows};
ghost use Rattle.bt_history.specs.Changes.{orders, plans};
ghost use Rattle.bt_history.specs.Machine.{running};
ghost use Rattle.bt_history.specs.Recovery.{IsReadable, Recovered, marked};
ghost use Rattle.bt_centre.specs.Progress.{IsBegun, IsOpenFault};
ghost use Rattle.bt_centre.specs.Run.{AreFew, at_start, opening_on};
ghost use Rattle.bt_round.specs.AirLines.{start_air};
ghost use Rattle.bt_round.specs.Boards.{IsPublished};

use crate::playing::Playing;
use crate::station::station_of;
use bt_air::Order;
use bt_apart::ApartCentre;
use bt_book::{Book, RecoverFault, installed_plans_can_be_flown};
use bt_demand::Plan;
use bt_frame::OutOfMemory;
use bt_net::Network;
use bt_outside::Keeper;
use bt_round::{CentreWorker, Station};
use bt_script::Sites;
use bt_world::{Events, WorldOver};
use std::alloc::Global;
use std::sync::Wait;
use std::thread::Threads;

/// A run of the changes that the store tells, where the sites are so. The store is handed back where they are not recovered, and where memory
/// runs out.
pub(crate) fn open<R: Threads + Wait + Sync, K: Keeper, E: Events>(
    rt: &R,
    alloc: Global,
    net: &Network,
    sites: Sites,
    store: K,
) -> Result<Playing<K, E>, (K, RecoverFault)>
    ensures begun { IfOk result (λ hand. IsBegun net.now sites hand) }
    ensures told { IfOk result (λ hand. hand.book.told ≡ option_map (marked net.now) (K.told store)) }
    ensures changes { IfOk result (λ hand. IfSome (K.told store) (λ bytes. Recovered net.now bytes hand.book.state.changes)) }
    ensures readable { IfOk result (λ _. IsReadable (K.told store)) }
    ensures later { IfOk result (λ hand. K.fault_count store ≤ hand.book.faults) }
    ensures fault { IfErr result (λ end. IsOpenFault net.now (K.told store) (K.told end.0) (K.fault_count store) (K.fault_count end.0) end.1) }
    ensures fault_later { IfErr result (λ end. K.fault_count store ≤ K.fault_count end.0) }
{
    match Book::recover(alloc, net, store) {
        Ok(book) => match begin(rt, alloc, net, sites, book) {
            Ok(playing) => Ok(playing),
            Err(store) => Err((store, RecoverFault::OutOfMemory)),
        },
        Err(end) => Err(end),
    }
}

/// A run that begins with a book as it was recovered. Where memory runs out, its store is handed back.
fn begin<R: Threads + Wait + Sync, K: Keeper, E: Events>(
    rt: &R,
    alloc: Global,
    net: &Network,
    sites: Sites,
    book: Book<K>,
) -> Result<Playing<K, E>, K>
    requires network { book.net ≡ net.now }
    requires none { book.history ≡ [] }
    requires runs { book.state ≡ running book.state.changes }
    requires follow { Follows net.now book.state.changes }
    ensures begun { IfOk result (λ hand. IsBegun net.now sites hand) }
    ensures book { IfOk result (λ hand. hand.book ≡ book) }
    ensures told { IfErr result (λ store. K.told store ≡ book.told) }
    ensures faults { IfErr result (λ store. K.fault_count store ≡ book.faults) }
{
    changes_are_few(&book);
    let before = book.change_count();
    let Ok(over) = Vec::with_capacity(alloc, 1) else {
        return Err(book.into_parts().0);
    };
    match man(rt, alloc, net, sites, book) {
        Ok(station) => Ok(Playing {
            station,
            before,
            over,
            rounds: 0,
        }),
        Err(book) => Err(book.into_parts().0),
    }
}

/// Of each book, the changes are few.
pub(crate) fn changes_are_few<K: Keeper>(book: &Book<K>)
    ensures few { AreFew book.now.net book.now.state.changes }
{
    // These are there for what holds of each of their results: four bytes hold it.
    let _edition = book.edition().0;
    let _bytes = book.line_bytes();
}

/// The station of a book and of the air that opens with it. Where memory runs out, the book comes back.
fn man<R: Threads + Wait + Sync, K: Keeper, E: Events>(
    rt: &R,
    alloc: Global,
    net: &Network,
    sites: Sites,
    book: Book<K>,
) -> Result<Station<K, E>, Book<K>>
    requires follow { Follows net.now book.state.changes }
    ensures book { IfOk result (λ station. station.book ≡ book) }
    ensures air { IfOk result (λ station. station.centre ≡ (at_start net.now sites book.state.changes).air) }
    ensures published { IfOk result (λ station. IsPublished station.book.state.changes station.publisher station.readers.items) }
    ensures back { IfErr result (λ back. back ≡ book) }
{
    let Ok(centre) = open_air(alloc, net, sites, &book) else {
        return Err(book);
    };
    match station_of(rt, alloc, book, centre) {
        Ok(station) => Ok(station),
        Err((book, centre)) => {
            // An air that has just opened has no events to keep.
            let _none = centre.into_told(alloc);
            Err(book)
        }
    }
}

/// The centre's worker of a network with the plans and the orders of a book: that of a world, or of sites apart.
fn open_air<K: Keeper, E: Events>(
    alloc: Global,
    net: &Network,
    sites: Sites,
    book: &Book<K>,
) -> Result<CentreWorker<E>, OutOfMemory>
    requires follow { Follows net.now book.now.state.changes }
    ensures { IfOk result (λ centre. centre ≡ start_air sites (opening_on net.now book.now.state.changes)) }
{
    // This is there for what holds of each network: it is sound.
    let _beams = net.beam_count();
    // And this, of each book: its orders are not too many.
    let _orders = book.order_count();
    installed_plans_can_be_flown();
    let plans = plans_of(alloc, book)?;
    let orders = orders_of(alloc, book)?;
    match sites {
        Sites::Together => {
            let world = WorldOver::start(alloc, net, plans, orders)?;
            Ok(CentreWorker::simulated(alloc, world))
        }
        Sites::Apart => Ok(CentreWorker::apart(ApartCentre::start(alloc, net, plans, orders)?)),
    }
}

/// The plans that a book has, the empty one first.
fn plans_of<K: Keeper>(alloc: Global, book: &Book<K>) -> Result<Vec<Plan>, OutOfMemory>
    ensures { IfOk result (λ all. all.items ≡ plans book.now.state.changes) }
{
    let mut all = Vec::new(alloc);
    for place in 0..book.plan_count() {
        all.push(book.plan(place).copy(alloc)?)?;
    }
    Ok(all)
}

/// The orders that a book has.
pub(crate) fn orders_of<K: Keeper>(alloc: Global, book: &Book<K>) -> Result<Vec<Order>, OutOfMemory>
    ensures { IfOk result (λ all. all.items ≡ orders book.now.state.changes) }
{
    let mut all = Vec::new(alloc);
    for place in 0..book.order_count() {
        all.push(book.order(place))?;
    }
    Ok(all)
}
