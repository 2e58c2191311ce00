// Does each link of a demand have the slots that it asks for?
ghost use Rattle.std.specs.Prelude.{◌*◌, ◌≡◌, ◌<◌, ◌≤◌, length, MatchOption, All};
ghost use Rattle.bt_frame.specs.declared.limits.TheConstants.{MOST_TERMINALS};
ghost use Rattle.bt_demand.specs.Apart.{AreBetweenTerminals};
ghost use Rattle.bt_demand.specs.PlanVerdict.{IsFirstUnserved};
ghost use Rattle.bt_demand.specs.Traffic.{AreOfNetwork};
ghost use Rattle.bt_demand.specs.Demand.{IsDemand};
ghost use Rattle.bt_demand.specs.Rows.{all_links};
ghost use Rattle.bt_demand.specs.Unserved.{AreSlotsSent, AreUnitsAsked, AreServed};

use crate::{Burst, LinkRow, MOST_BURSTS, Verdict};
use bt_frame::{MOST_TERMINALS, TermNo};
use bt_net::Network;

/// A link whose bursts have another number of slots than it asks for.
#[derive(Clone, Copy)]
pub(crate) struct Unserved {
    from: TermNo,
    to: TermNo,
    want: u64,
    have: u64,
}

impl Unserved {
    /// What the checker says of it.
    pub(crate) fn verdict(self) -> Verdict
        ensures { result ≡ Verdict.V7 self.from self.to self.want self.have }
    {
        Verdict::V7 {
            from: self.from,
            to: self.to,
            want: self.want,
            have: self.have,
        }
    }
}

/// The first link, by the terminal that sends and then by the one that receives, whose bursts have another number of
/// slots than it asks for.
///
/// It looks once at each burst, at each link and at each two terminals.
pub(crate) fn first_unserved(net: &Network, rows: &[LinkRow], bursts: &[Burst]) -> Option<Unserved>
    requires demand { IsDemand (all_links rows.now) }
    requires of_network { AreOfNetwork net.now (all_links rows.now) }
    requires between { AreBetweenTerminals net.now bursts.now }
    requires few { length bursts.now ≤ MOST_BURSTS }
    ensures { MatchOption result
        (AreServed net.now (all_links rows.now) bursts.now)
        (λ u. IsFirstUnserved net.now (all_links rows.now) bursts.now u.from u.to u.want u.have) }
{
    let count = net.terminal_count() as u8;
    let asked = units_by_link(rows);
    let sent = slots_by_link(bursts);
    for from in 0..count {
        for to in 0..count {
            let want = asked[from as usize][to as usize];
            let have = sent[from as usize][to as usize];
            if want != have {
                return Some(Unserved {
                    from: TermNo(from),
                    to: TermNo(to),
                    want,
                    have,
                });
            }
        }
    }
    None
}

/// The slots that each link asks for, a row for each terminal that sends.
fn units_by_link(rows: &[LinkRow]) -> [[u64; MOST_TERMINALS]; MOST_TERMINALS]
    requires few { length (all_links rows.now) ≤ MOST_TERMINALS * MOST_TERMINALS }
    requires between { All (λ l. (l.from.0 < MOST_TERMINALS) × (l.to.0 < MOST_TERMINALS)) (all_links rows.now) }
    ensures { AreUnitsAsked (all_links rows.now) result }
{
    let mut units = [[0; MOST_TERMINALS]; MOST_TERMINALS];
    for row in rows {
        for link in row.as_slice() {
            units[link.from.0 as usize][link.to.0 as usize] += u64::from(link.units);
        }
    }
    units
}

/// The slots of the bursts from each terminal to each, a row for each terminal that sends.
fn slots_by_link(bursts: &[Burst]) -> [[u64; MOST_TERMINALS]; MOST_TERMINALS]
    requires few { length bursts.now ≤ MOST_BURSTS }
    requires between { All (λ b. (b.from.0 < MOST_TERMINALS) × (b.to.0 < MOST_TERMINALS)) bursts.now }
    ensures { AreSlotsSent bursts.now result }
{
    let mut slots = [[0; MOST_TERMINALS]; MOST_TERMINALS];
    for burst in bursts {
        slots[burst.from.0 as usize][burst.to.0 as usize] += u64::from(burst.length);
    }
    slots
}
