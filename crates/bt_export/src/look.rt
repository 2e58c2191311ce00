// The changes that a journal's bytes tell.
ghost use Rattle.std.specs.Prelude.{◌≡◌, IfErr, IfOk};
ghost use Rattle.bt_history.specs.Causes.{Follows};
ghost use Rattle.bt_history.specs.Recovery.{Recovered};
ghost use Rattle.bt_look.specs.Look.{IsLookFault};

use bt_base::SureKeeper;
use bt_book::{Book, RecoverFault};
use bt_net::Network;
use std::alloc::Global;

/// The book that a recovery of a store with these bytes would make. The store is one in memory, so that the bytes stay as they
/// are where they came from.
pub(crate) fn look(
    alloc: Global,
    net: &Network,
    bytes: Vec<u8>,
) -> Result<Book<SureKeeper>, RecoverFault>
    ensures net { IfOk result (λ book. book.net ≡ net.now) }
    ensures told { IfOk result (λ book. Recovered net.now bytes.items book.state.changes) }
    ensures follows { IfOk result (λ book. Follows net.now book.state.changes) }
    ensures fault { IfErr result (IsLookFault net.now bytes.items) }
{
    match Book::recover(alloc, net, SureKeeper::new(bytes)) {
        Ok(book) => Ok(book),
        Err((_, fault)) => Err(fault),
    }
}
