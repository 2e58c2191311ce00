// The plans of the centre, by edition and with the bursts of each terminal. Where a plan itself is kept, who has it says.
ghost use Rattle.std.specs.Prelude.{◌≡◌, ◌<◌, ◌≤◌, ◌∷◌, length, reverse, slice_index_or, All, IfOk, MatchOption, is_some, OnOk, OnErr, Some, None, vec_capacity, vec_len};
ghost use Rattle.bt_frame.specs.declared.limits.TheConstants.{MOST_TERMINALS};
ghost use Rattle.bt_demand.specs.declared.plan.Plan.{Plan};
ghost use Rattle.bt_air.specs.Range.{IsWord};
ghost use Rattle.bt_machines.specs.CentreSteps.{needed_by};
ghost use Rattle.bt_machines.specs.Plans.{IsStored, StartsEmpty, bursts_for, has_burst, newest_of, plan_of};
ghost use Rattle.bt_machines.specs.Terminals.{terminals_of};
ghost use Rattle.bt_site.specs.Plans.{StandsAt};

use crate::shares::Shares;
use bt_air::Order;
use bt_demand::{Burst, Plan};
use bt_frame::{EditionNo, OutOfMemory, TermNo, TermSet};
use bt_machines::with_terminal;
use bt_outside::Trace;
use std::alloc::Global;
use std::marker::Model;

/// The plans that are installed, in a network of so many terminals: their editions, which ascend, and what each terminal
/// transmits in them.
#[derive(Drop)]
pub struct Plans {
    terminals: u32,
    // of each plan, the first first
    editions: Vec<EditionNo>,
    shares: Vec<Shares>,
    installed: Trace<Plan, ()>,
}

impl Model for Plans {
    ghost use Rattle.bt_site.specs.Plans.{IsIndexed, Planned, plans_told};

    ghost Value = { Planned };

    ghost view = { λ a. record { terminals = a.terminals; all = plans_told a.installed } };

    ghost invariant = { λ a. IsIndexed (record { terminals = a.terminals; all = plans_told a.installed }) (record { editions = a.editions.items; shares = a.shares.items }) };
}

impl Plans {
    /// These plans, the first first, in a network of so many terminals.
    pub fn of(alloc: Global, terminals: u32, plans: &[Plan]) -> Result<Plans, OutOfMemory>
        requires few { terminals ≤ MOST_TERMINALS }
        requires starts { StartsEmpty (reverse plans.now) }
        ensures made { IfOk result (λ made. made ≡ record { terminals = terminals; all = reverse plans.now }) }
        ensures stored { IfOk result (λ made. All IsStored made.all) }
    {
        let mut editions = Vec::with_capacity(alloc, plans.len())?;
        let mut shares = Vec::with_capacity(alloc, plans.len())?;
        let mut installed = Trace::new();
        for plan in plans {
            editions.push(edition_of(plan))?;
            shares.push(Shares::of(alloc, terminals, plan.bursts.as_slice())?)?;
            installed.push(plan, &());
        }
        Ok(Plans {
            terminals,
            editions,
            shares,
            installed,
        })
    }

    /// A plan joins them, which is newer than the others. Want of memory changes nothing.
    pub fn install(&mut self, alloc: Global, plan: &Plan) -> Result<(), OutOfMemory>
        requires newer { (newest_of self.old.all).0 < plan.now.edition.0 }
        ensures terminals { self.new.terminals ≡ self.old.terminals }
        ensures installed { OnOk result (self.new.all ≡ plan.now ∷ self.old.all) }
        ensures err { OnErr result (self.new.all ≡ self.old.all) }
        ensures stored { IsStored plan.now }
    {
        let edition = edition_of(plan);
        reserve_both(&mut self.editions, &mut self.shares)?;
        let share = Shares::of(alloc, self.terminals, plan.bursts.as_slice())?;
        self.editions.push_reserved(edition);
        self.shares.push_reserved(share);
        self.installed.push(plan, &());
        Ok(())
    }

    /// The number of terminals.
    pub fn terminal_count(&self) -> u32
        ensures count { result ≡ self.now.terminals }
        ensures few { result ≤ MOST_TERMINALS }
    {
        self.terminals
    }

    /// The newest edition that has a plan.
    pub fn newest(&self) -> EditionNo
        ensures newest { result ≡ newest_of self.now.all }
    {
        self.editions[self.editions.len() - 1]
    }

    /// There is a plan of this edition.
    pub fn has(&self, edition: EditionNo) -> bool
        ensures planned { result ≡ is_some (plan_of self.now.all edition) }
    {
        match self.place_of(edition) {
            Some(_) => true,
            None => false,
        }
    }

    /// Where the plan of an edition stands among all plans, the first first, if there is one.
    pub fn place_of(&self, edition: EditionNo) -> Option<usize>
        ensures place { MatchOption result (plan_of self.now.all edition ≡ None) (StandsAt self.now.all edition) }
    {
        let found = self
            .editions
            .binary_search_by_key(&edition.0, |edition| edition.0);
        match found {
            Ok(number) => Some(number),
            Err(_) => None,
        }
    }

    /// The bursts that a terminal transmits in the plan of an edition, none where there is no such plan.
    pub fn share(&self, edition: EditionNo, terminal: TermNo) -> &[Burst]
        requires terminal { terminal.0 < self.now.terminals }
        ensures share { result.now ≡ bursts_for terminal (plan_of self.now.all edition) }
    {
        match self.place_of(edition) {
            Some(number) => self.shares[number].at(terminal),
            None => &[],
        }
    }

    /// The terminal transmits in the plan of an edition.
    pub fn has_burst(&self, edition: EditionNo, terminal: TermNo) -> bool
        requires terminal { terminal.0 < self.now.terminals }
        ensures has { result ≡ has_burst (plan_of self.now.all edition) terminal }
    {
        !self.share(edition, terminal).is_empty()
    }

    /// The terminals that transmit in the edition of an order, a Load.
    pub fn needs(&self, order: Option<Order>) -> TermSet
        ensures needs { result ≡ needed_by (terminals_of self.now.terminals) self.now.all order }
    {
        let Some(Order::Load { edition, .. }) = order else {
            return TermSet(0);
        };
        let mut needs = TermSet(0);
        for number in (0..self.terminals as u8).rev() {
            let terminal = TermNo(number);
            if self.has_burst(edition, terminal) {
                needs = with_terminal(needs, terminal);
            }
        }
        needs
    }
}

// The edition of a plan, which as each plan that a program holds is a stored one.
fn edition_of(plan: &Plan) -> EditionNo
    ensures edition { result ≡ plan.now.edition }
    ensures stored { IsStored plan.now }
{
    // This is there for what holds of the bursts of each plan: they are in order.
    let _bursts = plan.bursts.as_slice();
    held(plan.edition)
}

// An edition that a program holds fits four bytes.
fn held(edition: EditionNo) -> EditionNo
    ensures same { result ≡ edition }
    ensures word { IsWord edition.0 }
{
    edition
}

// Room for one entry more in each.
fn reserve_both(editions: &mut Vec<EditionNo>, shares: &mut Vec<Shares>) -> Result<(), OutOfMemory>
    ensures editions { editions.new.items ≡ editions.old.items }
    ensures shares { shares.new.items ≡ shares.old.items }
    ensures edition_room { OnOk result (vec_len editions.new < vec_capacity editions.new) }
    ensures share_room { OnOk result (vec_len shares.new < vec_capacity shares.new) }
{
    editions.reserve(1)?;
    shares.reserve(1)?;
    Ok(())
}
