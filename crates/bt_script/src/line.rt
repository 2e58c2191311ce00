// One line of a script: what it says, or the fault of the first stage that it does not pass.
ghost use Rattle.std.specs.Prelude.{◌≡◌, IfOk};
ghost use Rattle.bt_text.specs.Reading.{Gives};
ghost use Rattle.bt_script.specs.Said.{IsSaidFor};
ghost use Rattle.bt_script.specs.Stages.{may_stand, line_in};

use crate::desk_no::DeskNo;
use crate::names::with_terminals;
use crate::ranges::in_range;
use crate::shape::shape_of;
use crate::{AirLine, DeskLine, ScriptCode, ScriptFault};
use bt_net::Network;
use bt_text::fault_at;

/// What a line of a script says.
#[derive(Clone, Copy)]
pub enum ScriptLine {
    /// Nothing.
    Remark,
    /// A round begins.
    Round,
    /// The centre restarts.
    Restart,
    /// What a desk does.
    Desk { desk: DeskNo, line: DeskLine },
    /// The planner plans.
    Plan,
    /// What happens on the air.
    Air(AirLine),
}

/// What line `at` says; `is_open` is whether a round is open there.
pub fn read_line(
    net: &Network,
    at: u32,
    is_open: bool,
    line: &[u8],
) -> Result<ScriptLine, ScriptFault>
    ensures reading { Gives (λ line. line) result (line_in net.now at is_open line.now) }
    ensures terminals { IfOk result (IsSaidFor net.now) }
{
    let Some(shape) = shape_of(line) else {
        return Err(fault_at(ScriptCode::S1, at));
    };
    let Some(named) = with_terminals(net, shape) else {
        return Err(fault_at(ScriptCode::S2, at));
    };
    let Some(said) = in_range(named) else {
        return Err(fault_at(ScriptCode::S3, at));
    };
    if !may_stand(is_open, &said) {
        return Err(fault_at(ScriptCode::S4, at));
    }
    Ok(said)
}

// The line may stand where a round is open, or is not.
fn may_stand(is_open: bool, said: &ScriptLine) -> bool
    ensures { result ≡ may_stand is_open said.now }
{
    match said {
        ScriptLine::Remark => true,
        ScriptLine::Round => true,
        ScriptLine::Restart => true,
        ScriptLine::Desk { .. } => is_open,
        ScriptLine::Plan => is_open,
        ScriptLine::Air(_) => is_open,
    }
}
