// The station is made, and taken apart.
ghost use Rattle.std.specs.Prelude.{◌≡◌, IfErr, IfOk};
ghost use Rattle.bt_round.specs.Boards.{IsPublished};

use bt_book::Book;
use bt_outside::Keeper;
use bt_round::{CentreWorker, DESKS, Station};
use bt_shared::board;
use bt_world::Events;
use std::alloc::Global;
use std::sync::Wait;

/// A station over a book and the centre's worker, with a board that shows the book's newest plan. Where memory runs out
/// both come back.
pub(crate) fn station_of<R: Wait, K: Keeper, E: Events>(
    rt: &R,
    alloc: Global,
    book: Book<K>,
    centre: CentreWorker<E>,
) -> Result<Station<K, E>, (Book<K>, CentreWorker<E>)>
    ensures book { IfOk result (λ station. station.book ≡ book) }
    ensures centre { IfOk result (λ station. station.centre ≡ centre) }
    ensures published { IfOk result (λ station. IsPublished station.book.state.changes station.publisher station.readers.items) }
    ensures book_back { IfErr result (λ back. back.0 ≡ book) }
    ensures centre_back { IfErr result (λ back. back.1 ≡ centre) }
{
    let Ok(newest) = book.newest().copy(alloc) else {
        return Err((book, centre));
    };
    match board(rt, alloc, newest, DESKS) {
        Ok((publisher, readers)) => Ok(Station {
            book,
            publisher,
            readers,
            centre,
        }),
        Err(_) => Err((book, centre)),
    }
}

/// The book and the centre's worker of a station, whose board is closed.
pub(crate) fn book_and_centre<R: Wait, K: Keeper, E: Events>(
    rt: &R,
    station: Station<K, E>,
) -> (Book<K>, CentreWorker<E>)
    ensures book { result.0 ≡ station.book }
    ensures centre { result.1 ≡ station.centre }
{
    let Station {
        book,
        publisher,
        readers: _readers,
        centre,
    } = station;
    publisher.close(rt);
    (book, centre)
}
