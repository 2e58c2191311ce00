// The bursts of a plan by terminal.
ghost use Rattle.std.specs.Prelude.{◌≡◌, ◌<◌, [], length, All, IfOk, Some, slice_get};
ghost use Rattle.bt_site.specs.Shares.{shares_of};

use bt_demand::Burst;
use bt_frame::{OutOfMemory, TermNo};
use std::alloc::Global;
use std::marker::Model;

/// The bursts that each terminal sends in a plan, so that they are found without a walk over all bursts.
#[derive(Drop)]
pub(crate) struct Shares {
    shares: Vec<Vec<Burst>>,
}

impl Model for Shares {
    ghost use Rattle.std.specs.Prelude.{List, map, Vec};
    ghost use Rattle.std.specs.Global.{Global};
    ghost use Rattle.bt_demand.specs.declared.burst.Burst.{Burst};

    ghost Value = { List (List Burst) };

    ghost view = { λ a. map (λ (share : Vec Burst Global). share.items) a.shares.items };
}

impl Shares {
    /// What each of so many terminals sends of these bursts. Those of other terminals are left out.
    pub(crate) fn of(alloc: Global, terminals: u32, bursts: &[Burst]) -> Result<Shares, OutOfMemory>
        ensures { IfOk result (λ shares. shares ≡ shares_of terminals bursts.now) }
    {
        let mut shares = no_shares(alloc, terminals)?;
        for burst in bursts {
            let from = usize::from(burst.from.0);
            if from < shares.len() {
                shares[from].push(*burst)?;
            }
        }
        Ok(Shares { shares })
    }

    /// The bursts that a terminal sends, in the order of the plan.
    pub(crate) fn at(&self, terminal: TermNo) -> &[Burst]
        requires { terminal.0 < length self.now }
        ensures { slice_get self.now terminal.0 ≡ Some result.now }
    {
        self.shares[usize::from(terminal.0)].as_slice()
    }
}

/// The shares of so many terminals before any burst.
fn no_shares(alloc: Global, terminals: u32) -> Result<Vec<Vec<Burst>>, OutOfMemory>
    ensures count { IfOk result (λ shares. length shares.items ≡ terminals) }
    ensures none { IfOk result (λ shares. All (λ share. share.items ≡ []) shares.items) }
{
    let mut shares = Vec::with_capacity(alloc, terminals as usize)?;
    for _ in 0..terminals {
        shares.push(Vec::new(alloc))?;
    }
    Ok(shares)
}
