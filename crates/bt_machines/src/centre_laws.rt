// What holds of sets of terminals.
ghost use Rattle.std.specs.Prelude.{◌≡◌, ◌==◌, ◌<◌, ◌&&◌, ◌||◌, not, false};
ghost use Rattle.bt_frame.specs.declared.limits.TheConstants.{MOST_TERMINALS};
ghost use Rattle.bt_frame.specs.declared.numbers.TermNo.{TermNo};
ghost use Rattle.bt_frame.specs.declared.numbers.TermSet.{TermSet};
ghost use Rattle.bt_machines.specs.Terminals.{has, no_terminal, with_terminal, without_terminal};

/// A terminal joins a set and leaves it, and no other terminal does.
pub fn sets_hold_what_joined()
    ensures none { (terminal : TermNo) → has no_terminal terminal ≡ false }
    ensures joined { (terminals : TermSet) (joins terminal : TermNo) → joins.0 < MOST_TERMINALS
        → has (with_terminal terminals joins) terminal ≡ (terminal.0 == joins.0 || has terminals terminal) }
    ensures left { (terminals : TermSet) (leaves terminal : TermNo) → leaves.0 < MOST_TERMINALS → terminal.0 < MOST_TERMINALS
        → has (without_terminal terminals leaves) terminal ≡ (not (terminal.0 == leaves.0) && has terminals terminal) }
{}
