// The lines of a centre.
ghost use Rattle.std.specs.Prelude.{◌<◌, IfOk};

use crate::lines::{put_line, put_number, put_word};
use crate::message::{numbers_of, status_of};
use crate::shown::{put_act, put_order};
use bt_frame::{
    Command, EditionNo, LAST_MARK, MOST_LEAD, MOST_PLACED, MOST_TERMINALS, Mark, TermNo, TermSet,
};
use bt_machines::{Centre, with_terminal};
use bt_sheet::{CaseFault, Result, byte_of, number_of};
use std::alloc::Global;

/// Does what a line of the centre says.
pub fn show_centre(
    alloc: Global,
    centre: &mut Centre,
    words: &[&str],
    out: &mut String,
) -> Result<()> {
    match words {
        ["centre"] => {
            *centre = new_centre(alloc);
            Ok(())
        }
        ["note", words @ ..] => note(centre, words),
        ["known", mark] => put_known(centre, mark, out),
        ["next", mark] => put_next(centre, mark, out),
        ["loaded", edition] => put_loaded(centre, edition, out),
        words => show_orders(alloc, centre, words, out),
    }
}

/// Does what a line says of the centre's turn and its orders.
fn show_orders(alloc: Global, centre: &mut Centre, words: &[&str], out: &mut String) -> Result<()> {
    match words {
        ["turn", mark, target, lead, patience] => {
            put_turn(centre, [mark, target, lead, patience], out)
        }
        ["ordered", terminals @ ..] => put_ordered(alloc, centre, terminals, out),
        ["waiting", terminal] => put_waiting(centre, terminal, out),
        _ => Err(CaseFault("no line of cases")),
    }
}

/// A new centre that has placed no order.
pub fn new_centre(alloc: Global) -> Centre {
    Centre::from_orders(Vec::new(alloc), TermSet(0))
}

/// Notes a status, a confirmation or a restart.
fn note(centre: &mut Centre, words: &[&str]) -> Result<()> {
    let Some((kind, fields)) = words.split_first() else {
        return Err(CaseFault("nothing to note"));
    };
    match *kind {
        "status" => note_status(centre, fields),
        "confirm" => note_confirm(centre, fields),
        "lost" => note_lost(centre, fields),
        _ => Err(CaseFault("nothing to note")),
    }
}

fn note_status(centre: &mut Centre, fields: &[&str]) -> Result<()> {
    centre.status(status_of(fields)?);
    Ok(())
}

fn note_confirm(centre: &mut Centre, fields: &[&str]) -> Result<()> {
    let [mark, terminal, load, edition] = fields else {
        return Err(CaseFault("nothing to note"));
    };
    let (load, edition) = (Command(number_of(load)?), EditionNo(number_of(edition)?));
    centre.confirm(
        Mark(number_of(mark)?),
        terminal_of(terminal)?,
        load,
        edition,
    );
    Ok(())
}

fn note_lost(centre: &mut Centre, fields: &[&str]) -> Result<()> {
    let [terminal] = fields else {
        return Err(CaseFault("nothing to note"));
    };
    centre.lost(terminal_of(terminal)?);
    Ok(())
}

/// The number of a terminal, below `MOST_TERMINALS`.
fn terminal_of(word: &str) -> Result<TermNo>
    ensures { IfOk result (λ terminal. terminal.0 < MOST_TERMINALS) }
{
    let number = byte_of(word)?;
    if MOST_TERMINALS <= usize::from(number) {
        return Err(CaseFault("no terminal"));
    }
    Ok(TermNo(number))
}

/// Appends the edition that the centre knows to be in force in that superframe.
fn put_known(centre: &Centre, mark: &str, out: &mut String) -> Result<()> {
    match centre.known(Mark(number_of(mark)?)) {
        Some(edition) => put_number(edition.0, out),
        None => put_word("none", out),
    }
}

/// Appends the change that the centre announces in that superframe: its edition, and the superframe in which it is due.
fn put_next(centre: &Centre, mark: &str, out: &mut String) -> Result<()> {
    match centre.next(Mark(number_of(mark)?)) {
        Some(armed) => put_line(">next", &[armed.edition.0, armed.due.0], out),
        None => put_word("none", out),
    }
}

/// Appends the command of the latest Load of an edition, or 0.
fn put_loaded(centre: &Centre, edition: &str, out: &mut String) -> Result<()> {
    put_number(centre.load_of(EditionNo(number_of(edition)?)).0, out)
}

/// Appends what the centre does in its turn, which has a superframe, the edition to bring to the front, the lead and the
/// patience.
fn put_turn(centre: &mut Centre, turn: [&str; 4], out: &mut String) -> Result<()> {
    let [mark, target, lead, patience] = numbers_of(turn)?;
    if LAST_MARK < mark || MOST_LEAD < lead {
        return Err(CaseFault("no superframe or no lead"));
    }
    if MOST_PLACED < centre.order_count() {
        return Err(CaseFault("too many orders"));
    }
    let act = centre.turn(Mark(mark), EditionNo(target), lead, patience);
    put_act(act, out)
}

/// Appends the order that was wanted and is placed now. These terminals transmit in its edition.
fn put_ordered(
    alloc: Global,
    centre: &mut Centre,
    terminals: &[&str],
    out: &mut String,
) -> Result<()> {
    let needs = terminals_of(terminals)?;
    if centre.wanted().is_none() {
        return Err(CaseFault("no order is wanted"));
    }
    match centre.ordered(alloc, needs) {
        Ok(order) => put_order(">ordered", order, out),
        Err(_full) => Err(CaseFault("out of memory")),
    }
}

fn terminals_of(words: &[&str]) -> Result<TermSet> {
    let mut terminals = TermSet(0);
    for word in words {
        terminals = with_terminal(terminals, terminal_of(word)?);
    }
    Ok(terminals)
}

/// Appends whether a terminal has still to confirm, and whether it asks for its bursts.
fn put_waiting(centre: &Centre, terminal: &str, out: &mut String) -> Result<()> {
    let terminal = terminal_of(terminal)?;
    let told = match (centre.missing(terminal), centre.asking(terminal)) {
        (true, true) => "missing, asking",
        (true, false) => "missing, not asking",
        (false, true) => "not missing, asking",
        (false, false) => "not missing, not asking",
    };
    put_word(told, out)
}
