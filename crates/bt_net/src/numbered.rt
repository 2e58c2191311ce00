// A network whose beams and terminals are named by their numbers.
ghost use Rattle.std.specs.Prelude.{◌≡◌, ◌≤◌, ◌++◌, ◌*◌, decimal, IfOk};
ghost use Rattle.std.specs.String.{string_bytes};
ghost use Rattle.bt_frame.specs.declared.limits.TheConstants.{MOST_NUMBERED_BEAMS};
ghost use Rattle.bt_frame.specs.Range.{IsWithin};
ghost use Rattle.bt_net.specs.Numbered.{numbered_beams, numbered_network, numbered_terminals};

use crate::Network;
use crate::beams::Beams;
use crate::terminals::Terminals;
use bt_frame::{BeamNo, MOST_BOOK_BYTES, MOST_SLOTS, OutOfMemory};
use std::alloc::{AllocError, Global};

/// Terminals in each beam.
const TERMINALS_A_BEAM: u32 = 4;

/// Frames of a superframe.
const FRAMES: u32 = 32;

/// Superframes from the command that arms a change to the change.
const LEAD: u32 = 4;

/// Turns for which the centre waits for terminals that have not confirmed.
const PATIENCE: u32 = 3;

impl Network {
    /// The network of so many beams, 1 to `MOST_NUMBERED_BEAMS`, for trials of any size: beams `b0`, `b1` and so on, four terminals in each, of which
    /// `t0` is in `b0`, `t1` in `b1` and so on in turn, and frames of as many slots as there may be.
    pub fn numbered(alloc: Global, beams: u32) -> Result<Network, OutOfMemory>
        requires beams { IsWithin 1 MOST_NUMBERED_BEAMS beams }
        ensures same { IfOk result (λ net. net ≡ numbered_network beams) }
    {
        Ok(Network {
            beams: numbered_beams(alloc, beams)?,
            terminals: numbered_terminals(alloc, beams)?,
            slots: MOST_SLOTS,
            frames: FRAMES,
            lead: LEAD,
            patience: PATIENCE,
            journal: MOST_BOOK_BYTES as u32,
        })
    }
}

/// So many beams.
fn numbered_beams(alloc: Global, count: u32) -> Result<Beams, AllocError>
    requires { count ≤ MOST_NUMBERED_BEAMS }
    ensures { IfOk result (λ beams. beams ≡ numbered_beams count) }
{
    let mut beams = Beams::new(alloc);
    for number in 0..count {
        let name = numbered_name(alloc, "b", number)?;
        beams.add(alloc, &name)?;
    }
    Ok(beams)
}

/// The terminals of so many beams, which take turns.
fn numbered_terminals(alloc: Global, beams: u32) -> Result<Terminals, AllocError>
    requires { IsWithin 1 MOST_NUMBERED_BEAMS beams }
    ensures { IfOk result (λ terminals. terminals ≡ numbered_terminals beams (4 * beams)) }
{
    let mut terminals = Terminals::new(alloc);
    for number in 0..TERMINALS_A_BEAM * beams {
        let name = numbered_name(alloc, "t", number)?;
        terminals.add(alloc, &name, BeamNo((number % beams) as u8))?;
    }
    Ok(terminals)
}

/// A name of that letter and that number.
fn numbered_name(alloc: Global, letter: &str, number: u32) -> Result<String, AllocError>
    ensures { IfOk result (λ name. string_bytes name ≡ letter.now ++ decimal number) }
{
    format!(in alloc; "{letter}{number}")
}
