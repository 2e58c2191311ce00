// Whether a walk over a network file goes on at a name.
ghost use Rattle.std.specs.Prelude.{◌≡◌, OnOk, false};
ghost use Rattle.bt_net.specs.Walk.{Gives, checked};

use crate::fault::{NetFault, Path};

/// Goes on at a name that is good, as the caller says, and that no earlier entry has.
///
/// A name that is not good is fault `N4`, and one that an earlier entry has `N5`, both at this place.
#[tactic(auto, unfolding(crate::specs::Walk::checked))]
pub fn check_name(path: Path, is_good: bool, is_taken: bool) -> Result<(), NetFault>
    ensures walk { Gives (λ x. x) result (checked path is_good is_taken) }
    ensures new { OnOk result (is_taken ≡ false) }
{
    if !is_good {
        return Err(NetFault::N4 { path });
    }
    if is_taken {
        return Err(NetFault::N5 { path });
    }
    Ok(())
}
