// The page, from its head to its foot.
ghost use Rattle.std.specs.Prelude.{◌≡◌, length, IfErr, IfOk};
ghost use Rattle.bt_frame.specs.Critical.{IsOfBeams};
ghost use Rattle.bt_demand.specs.Apart.{AreBetweenTerminals};
ghost use Rattle.bt_demand.specs.Traffic.{AreOfNetwork};
ghost use Rattle.bt_history.specs.Causes.{Follows};
ghost use Rattle.bt_history.specs.Recovery.{Recovered};
ghost use Rattle.bt_look.specs.Look.{IsLookFault};
ghost use Rattle.bt_chart.specs.Page.{IsPage, TellsPage, page_with, state_of};

use crate::air_part::Shown;
use crate::beams::add_beams;
use crate::links::{add_links, by_size};
use crate::pieces::{add_head, add_words};
use crate::plan_part::{add_modes, add_picture};
use crate::state::{State, add_state};
use bt_base::SureKeeper;
use bt_book::{Book, RecoverFault, demands_fit_the_frame};
use bt_demand::{Link, Plan, traffic_of};
use bt_frame::{MOST_JOURNAL_BYTES, OutOfMemory};
use bt_look::size_of_journal;
use bt_matrix::Dense;
use bt_net::Network;
use bt_outside::Keeper;
use bt_words::Word;
use std::alloc::Global;

/// The page of a journal's bytes, in HTML: the last edition, the newest plan and how full the journal is; what is asked of each
/// beam in slots per frame, and free there; the picture of the newest plan, its modes; and the links, the largest first; and what
/// else is shown. With a number of seconds a browser loads it again each time that so many have passed.
pub fn page_of_journal(
    alloc: Global,
    net: &Network,
    bytes: Vec<u8>,
    shown: &Shown,
    seconds: Option<u32>,
) -> Result<Vec<u8>, RecoverFault>
    ensures text { IfOk result (λ text. TellsPage seconds net.now bytes.items shown.now.air.items shown.now.ladder.items text.items) }
    ensures fault { IfErr result (IsLookFault net.now bytes.items) }
{
    if bytes.len() as u64 > MOST_JOURNAL_BYTES {
        return Err(RecoverFault::TooLong);
    }
    let size = size_of_journal(alloc, net, bytes.as_slice())?;
    let book = look(alloc, net, bytes)?;
    Ok(page_of_book(alloc, net, &book, size.torn, shown, seconds)?)
}

/// The book that a recovery of a store with these bytes would make. The store is one in memory, so that the bytes stay as they
/// are where they came from.
fn look(alloc: Global, net: &Network, bytes: Vec<u8>) -> Result<Book<SureKeeper>, RecoverFault>
    ensures net { IfOk result (λ book. book.net ≡ net.now) }
    ensures told { IfOk result (λ book. Recovered net.now bytes.items book.state.changes) }
    ensures follows { IfOk result (λ book. Follows net.now book.state.changes) }
    ensures fault { IfErr result (IsLookFault net.now bytes.items) }
{
    match Book::recover(alloc, net, SureKeeper::new(bytes)) {
        Ok(book) => Ok(book),
        Err((_, fault)) => Err(fault),
    }
}

/// The page of a book, with so many bytes behind the last newline of its journal.
fn page_of_book<K: Keeper>(
    alloc: Global,
    net: &Network,
    book: &Book<K>,
    torn: u32,
    shown: &Shown,
    seconds: Option<u32>,
) -> Result<Vec<u8>, OutOfMemory>
    requires network { book.now.net ≡ net.now }
    requires follows { Follows net.now book.now.state.changes }
    ensures { IfOk result (λ text. IsPage seconds net.now book.now.state.changes torn shown.now.air.items shown.now.ladder.items text.items) }
{
    // This is there for what holds of each network: it is sound, and so its frame has at most `MOST_SLOTS` slots.
    let _beams = net.beam_count();
    demands_fit_the_frame();
    let matrix = traffic_of(alloc, net, book.demand())?;
    let links = by_size(alloc, book.demand())?;
    let state = state_of(net, book, torn);
    page_text(
        alloc,
        net,
        state,
        shown,
        &matrix,
        book.newest(),
        links.as_slice(),
        seconds,
    )
}

/// The numbers of a book and of its newest plan.
fn state_of<K: Keeper>(net: &Network, book: &Book<K>, torn: u32) -> State
    requires network { book.now.net ≡ net.now }
    ensures { result ≡ state_of net.now book.now.state.changes torn }
{
    let plan = book.newest();
    State {
        edition: u64::from(book.edition().0),
        plan: u64::from(plan.edition.0),
        slots: u64::from(plan.schedule.length),
        frame: u64::from(net.slots()),
        modes: plan.schedule.modes.as_slice().len() as u64,
        bursts: plan.bursts.as_slice().len() as u64,
        orders: u64::from(book.order_count()),
        bytes: u64::from(book.line_bytes()),
        limit: u64::from(net.journal()),
        torn: u64::from(torn),
    }
}

/// The page of these numbers, with what else is shown, of this matrix, this plan and these links.
fn page_text(
    alloc: Global,
    net: &Network,
    state: State,
    shown: &Shown,
    matrix: &Dense,
    plan: &Plan,
    links: &[Link],
    seconds: Option<u32>,
) -> Result<Vec<u8>, OutOfMemory>
    requires size { length matrix.now ≡ length net.now.beams }
    requires terminals { AreBetweenTerminals net.now plan.now.bursts }
    requires critical { IsOfBeams (length net.now.beams) plan.now.schedule.critical }
    requires links { AreOfNetwork net.now links.now }
    ensures { IfOk result (λ text. text.items ≡ page_with seconds net.now state shown.now.air.items shown.now.ladder.items matrix.now plan.now links.now) }
{
    let mut text = Vec::new(alloc);
    add_head(alloc, state.edition, state.plan, seconds, &mut text)?;
    add_state(alloc, state, &mut text)?;
    text.extend_from_slice(shown.air.as_slice())?;
    add_beams(alloc, net, matrix, &mut text)?;
    add_picture(alloc, net, plan, &mut text)?;
    add_modes(alloc, net, plan.schedule.modes.as_slice(), &mut text)?;
    text.extend_from_slice(shown.ladder.as_slice())?;
    add_links(alloc, net, links, &mut text)?;
    add_words(
        alloc,
        &[Word::Text("</main>\n</body>\n</html>\n")],
        &mut text,
    )?;
    Ok(text)
}
