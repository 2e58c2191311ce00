// The centre restarts: the book is recovered from its store, and the order that the centre wanted joins the others where
// the store tells it.
ghost use Rattle.std.specs.Prelude.{◌≡◌, ◌<◌, ◌+◌, length, vec_capacity, IfErr, IfOk};
ghost use Rattle.bt_history.specs.Causes.{Follows};
ghost use Rattle.bt_centre.specs.Progress.{BeganAgain, CentreBegan, IsLeftBehind, ItemFailed, RestartPlayed, TellsJoined};
ghost use Rattle.bt_round.specs.AirLines.{opening_in};
ghost use Rattle.bt_centre.specs.Run.{JoinsOrder};
ghost use Rattle.bt_script.specs.declared.script.Item.TheVariants as item;

use crate::History;
use crate::begin::add_begin;
use crate::open::{changes_are_few, orders_of};
use crate::playing::{Playing, Remains};
use crate::station::{book_and_centre, station_of};
use bt_air::Order;
use bt_book::{Book, RecoverFault, stores_tell_next_openings};
use bt_frame::OutOfMemory;
use bt_journal::Entries;
use bt_net::Network;
use bt_outside::Keeper;
use bt_round::CentreWorker;
use bt_timeline::restart_text;
use bt_world::Events;
use std::alloc::Global;
use std::sync::Wait;
use std::thread::Threads;

/// The time is over: the book is recovered from its store, and the centre restarts. Gives the text of it; or what is left
/// of the run, where memory runs out or the recovery fails.
pub(crate) fn play_restart<R: Threads + Wait + Sync, K: Keeper, E: Events>(
    rt: &R,
    alloc: Global,
    net: &Network,
    mut playing: Playing<K, E>,
) -> Result<(Playing<K, E>, Vec<u8>), (Remains<K, E>, RecoverFault)>
    requires network { playing.book.net ≡ net.now }
    requires air_network { (opening_in playing.air).net ≡ net.now }
    requires follow { Follows net.now playing.book.state.changes }
    ensures played { IfOk result (λ on. RestartPlayed net.now playing on.0 on.1.items) }
    ensures failed { IfErr result (λ end. ItemFailed net.now item.Restart playing end.0 end.1) }
{
    // This is there for what holds of each network: it is sound.
    let _beams = net.beam_count();
    stores_tell_next_openings();
    let Ok(()) = playing.over.reserve(2) else {
        return Err((playing.stop(rt, alloc), RecoverFault::OutOfMemory));
    };
    let Playing {
        station,
        before,
        mut over,
        rounds,
    } = playing;
    let (book, centre) = book_and_centre(rt, station);
    let (store, entries) = book.into_parts();
    over.push_reserved(History {
        before,
        entries: Entries::of(entries),
    });
    match Book::recover(alloc, net, store) {
        Ok(book) => match begin_again(
            rt,
            alloc,
            net,
            Time {
                book,
                centre,
                over,
                rounds,
            },
        ) {
            Ok(on) => Ok(on),
            Err(remains) => Err((remains, RecoverFault::OutOfMemory)),
        },
        Err((store, fault)) => {
            let remains = Remains {
                store,
                histories: over,
                events: centre.into_told(alloc),
            };
            Err((remains, fault))
        }
    }
}

/// A time of a run before it begins.
#[derive(Drop)]
struct Time<K: Keeper, E: Events> {
    /// As it was recovered.
    book: Book<K>,
    /// As it was before the restart.
    centre: CentreWorker<E>,
    over: Vec<History>,
    rounds: u64,
}

/// The centre restarts over a book that was recovered; or what is left of the run, where memory runs out.
fn begin_again<R: Threads + Wait + Sync, K: Keeper, E: Events>(
    rt: &R,
    alloc: Global,
    net: &Network,
    time: Time<K, E>,
) -> Result<(Playing<K, E>, Vec<u8>), Remains<K, E>>
    requires air_network { (opening_in time.centre).net ≡ net.now }
    requires room { length time.over.items < vec_capacity time.over }
    ensures began { IfOk result (λ on. BeganAgain time.book time.centre time.over.items time.rounds on.0 on.1.items) }
    ensures left { IfErr result (λ remains. IsLeftBehind time.book time.centre time.over.items remains) }
{
    let Time {
        book,
        mut centre,
        over,
        rounds,
    } = time;
    changes_are_few(&book);
    let before = book.change_count();
    let Ok(text) = restart_centre(alloc, net, &book, &mut centre) else {
        return Err(remains_of(alloc, book, centre, over));
    };
    match station_of(rt, alloc, book, centre) {
        Ok(station) => {
            let playing = Playing {
                station,
                before,
                over,
                rounds,
            };
            Ok((playing, text))
        }
        Err((book, centre)) => Err(remains_of(alloc, book, centre, over)),
    }
}

/// What is left of a run with this book, whose own history is empty, and these histories.
fn remains_of<K: Keeper, E: Events>(
    alloc: Global,
    book: Book<K>,
    centre: CentreWorker<E>,
    over: Vec<History>,
) -> Remains<K, E>
    ensures { IsLeftBehind book centre over.items result }
{
    Remains {
        store: book.into_parts().0,
        histories: over,
        events: centre.into_told(alloc),
    }
}

/// The centre restarts over a book, and gives the text of it. Where memory runs out, it may have restarted.
fn restart_centre<K: Keeper, E: Events>(
    alloc: Global,
    net: &Network,
    book: &Book<K>,
    centre: &mut CentreWorker<E>,
) -> Result<Vec<u8>, OutOfMemory>
    requires air_network { (opening_in centre.old).net ≡ net.now }
    ensures opening { opening_in centre.new ≡ opening_in centre.old }
    ensures began { IfOk result (λ text. CentreBegan book.now.state.changes centre.old centre.new text.items) }
{
    let mut text = Vec::new(alloc);
    restart_text(alloc, &mut text)?;
    let mark = centre.mark();
    let kept = joins_order(book, centre);
    let told = orders_of(alloc, book)?;
    centre.restart(alloc, net, kept, told.as_slice())?;
    add_begin(alloc, book, mark, centre.back(), &mut text)?;
    Ok(text)
}

/// The book has one order more than the world, and that is the one that the centre wanted.
fn joins_order<K: Keeper, E: Events>(book: &Book<K>, centre: &CentreWorker<E>) -> bool
    ensures { JoinsOrder centre.now book.now.state.changes result }
{
    match centre.wanted() {
        Some(order) => has_joined(book, centre.order_count(), order),
        None => false,
    }
}

/// The book has one order more than so many, and the last of them is this one.
fn has_joined<K: Keeper>(book: &Book<K>, placed: u32, order: Order) -> bool
    ensures { TellsJoined book.now.state.changes placed order result }
{
    if u64::from(book.order_count()) != u64::from(placed) + 1 {
        return false;
    }
    book.order(placed) == order
}
