// Sets of terminals.
ghost use Rattle.std.specs.Prelude.{◌≡◌, ◌<◌};
ghost use Rattle.bt_frame.specs.declared.limits.TheConstants.{MOST_TERMINALS};
ghost use Rattle.bt_machines.specs.Terminals.{has, with_terminal, without_terminal};

use bt_frame::{TermNo, TermSet};

/// The terminal is one of the set.
pub fn has(terminals: TermSet, terminal: TermNo) -> bool
    requires terminal { terminal.0 < MOST_TERMINALS }
    ensures has { result ≡ has terminals terminal }
{
    (terminals.0 >> terminal.0) & 1 == 1
}

/// The set with the terminal in it.
pub fn with_terminal(terminals: TermSet, terminal: TermNo) -> TermSet
    requires terminal { terminal.0 < MOST_TERMINALS }
    ensures set { result ≡ with_terminal terminals terminal }
{
    TermSet(terminals.0 | 1 << terminal.0)
}

/// The set without the terminal.
pub fn without_terminal(terminals: TermSet, terminal: TermNo) -> TermSet
    requires terminal { terminal.0 < MOST_TERMINALS }
    ensures set { result ≡ without_terminal terminals terminal }
{
    TermSet(terminals.0 & !(1 << terminal.0))
}
