// The output of a run, line by line.
ghost use Rattle.std.specs.Prelude.{◌-◌, ◌^◌, ◌<◌, length};
ghost use Rattle.bt_text.specs.Reading.{Gives};
ghost use Rattle.bt_run_lines.specs.Lines.{gone_over, output_of, over_line};

use crate::reader::{read_line, told_behind};
use bt_net::Network;
use bt_text::{LineFault, fault_at, first_line};

/// What is wrong with a line of a run's output.
#[derive(Clone, Copy)]
pub enum OutputCode {
    /// No run prints it.
    O1,
}

/// Goes over the output of a run, and says which of its lines is the first that no run prints, counted from 1. Bytes
/// behind the last newline are such a line. Lines that a line told of are passed over; where they are not there, the first that is
/// missing is such a line.
pub fn check_output(net: &Network, text: &[u8]) -> Result<(), LineFault<OutputCode>>
    requires short { length text.now < 2 ^ 32 - 1 }
    ensures reading { Gives (λ unit. unit) result (gone_over (output_of net.now text.now)) }
{
    let mut rest = text;
    let mut at = 1;
    let mut told = 0;
    while let Some((line, after)) = first_line(rest) {
        told = check_line(net, at, told, line)?;
        rest = after;
        at += 1;
    }
    if rest.is_empty() && told == 0 {
        Ok(())
    } else {
        Err(fault_at(OutputCode::O1, at))
    }
}

// Goes over the line of that number, where so many are to be passed over; gives how many are behind it.
fn check_line(net: &Network, at: u32, told: u64, line: &[u8]) -> Result<u64, LineFault<OutputCode>>
    ensures { Gives (λ left. left) result (over_line net.now at told line.now) }
{
    if told > 0 {
        return Ok(told - 1);
    }
    match read_line(net, line) {
        Some(_) => Ok(told_behind(line)),
        None => Err(fault_at(OutputCode::O1, at)),
    }
}
