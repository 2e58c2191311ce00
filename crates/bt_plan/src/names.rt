// Terminals by their names.
ghost use Rattle.std.specs.Prelude.{IfOk, IsTrue};
ghost use Rattle.bt_text.specs.Reading.{Gives};
ghost use Rattle.bt_plan.specs.TerminalNames.{ends_in};
ghost use Rattle.bt_net.specs.Terminals.{IsBetweenTerminals};
ghost use Rattle.bt_net.specs.Name.{are_names};

use crate::{TextCode, TextFault};
use bt_frame::TermNo;
use bt_net::Network;
use bt_text::fault_at;

/// The terminals of two names, or the fault of that code where no terminal has one of them.
pub(crate) fn ends_of(
    net: &Network,
    code: TextCode,
    at: u32,
    from: &[u8],
    to: &[u8],
) -> Result<(TermNo, TermNo), TextFault>
    requires names { IsTrue (are_names from.now to.now) }
    ensures reading { Gives (λ ends. ends) result (ends_in net.now (code, at) from.now to.now) }
    ensures terminals { IfOk result (λ ends. IsBetweenTerminals net.now ends.0 ends.1) }
{
    let Some(from) = net.terminal_of(from) else {
        return Err(fault_at(code, at));
    };
    let Some(to) = net.terminal_of(to) else {
        return Err(fault_at(code, at));
    };
    Ok((from, to))
}
