// The reference burst as a terminal keeps it.
ghost use Rattle.std.specs.Prelude.{◌≡◌};
ghost use Rattle.bt_machines.specs.Banks.{announces, is_in_use, is_recent};

use bt_air::Armed;
use bt_frame::{EditionNo, Mark};

/// A reference burst: the superframe that it begins, the edition that it names, if it names one, and the change that it
/// announces, if it announces one.
#[derive(Clone, Copy)]
pub(crate) struct Reference {
    pub(crate) superframe: Mark,
    pub(crate) in_force: Option<EditionNo>,
    pub(crate) next: Option<Armed>,
}

/// An edition is in use where the last reference burst names it, of this superframe or of the one before, or announces
/// it for this superframe or a later one.
pub(crate) fn is_in_use(heard: Option<Reference>, mark: Mark, edition: EditionNo) -> bool
    ensures { result ≡ is_in_use heard mark.0 edition }
{
    match heard {
        Some(heard) => {
            (is_recent(heard.superframe, mark) && heard.in_force == Some(edition))
                || announces(heard.next, mark, edition)
        }
        None => false,
    }
}

// The reference burst is of this superframe or of the one before.
fn is_recent(superframe: Mark, mark: Mark) -> bool
    ensures { result ≡ is_recent superframe mark.0 }
{
    superframe == mark || (superframe < mark && mark.0 - superframe.0 == 1)
}

// A change to this edition is announced that is not past.
fn announces(next: Option<Armed>, mark: Mark, edition: EditionNo) -> bool
    ensures { result ≡ announces next mark.0 edition }
{
    match next {
        Some(armed) => armed.edition == edition && mark <= armed.due,
        None => false,
    }
}
