// The centre of sites apart.
ghost use Rattle.std.specs.Prelude.{◌≡◌, ◌<◌, [], length, reverse, is_some, IfOk, IfSome, OnErr, OnOk};
ghost use Rattle.bt_demand.specs.Flyable.{IsFlyable};
ghost use Rattle.bt_air.specs.Range.{IsMark};
ghost use Rattle.bt_machines.specs.Plans.{newest_of, plan_of};
ghost use Rattle.bt_site.specs.Event.{Install, RestartCentre};
ghost use Rattle.bt_site.specs.Fits.{AreStored, IsOpening};
ghost use Rattle.bt_apart.specs.Apart.{IsInstalled, IsTimely, apart_at_start, going_apart, having_apart};
ghost use Rattle.bt_apart.specs.Back.{back_lasting};

use crate::back::back_lasting;
use bt_air::Order;
use bt_demand::Plan;
use bt_frame::{EditionNo, Mark, OutOfMemory};
use bt_machines::Centre;
use bt_net::Network;
use bt_site::{CentreSite, greatest_due};
use std::alloc::Global;
use std::marker::Model;

/// The centre of a network whose satellite and terminals are none of its process. What it opened with is kept for clauses alone.
#[derive(Drop)]
pub struct ApartCentre {
    pub(crate) net: Network,
    // that opened, the first first
    orders: Vec<Order>,
    pub(crate) opened: Vec<Plan>,
    // behind those that opened, the first first
    pub(crate) installed: Vec<Plan>,
    pub(crate) centre: CentreSite,
    // the superframe that it takes for the present one
    pub(crate) mark: Mark,
    // it has heard since its start that a superframe began
    pub(crate) marked: bool,
    // how many messages it has said
    pub(crate) said: u32,
    // the edition to which it goes back
    back: Option<EditionNo>,
}

impl Model for ApartCentre {
    ghost use Rattle.std.specs.Prelude.{◌++◌, reverse};
    ghost use Rattle.bt_apart.specs.Apart.{ApartAir};
    ghost use Rattle.bt_apart.specs.Inside.{IsApart};

    ghost Value = { ApartAir };

    ghost view = { λ a. record { opening = record { net = a.net; plans = reverse a.opened.items; orders = reverse a.orders.items }; plans = a.centre.plans; centre = a.centre.centre; mark = a.mark; marked = a.marked; said = a.said; back = a.back } };

    ghost invariant = { λ a. IsApart (record { opening = record { net = a.net; plans = reverse a.opened.items; orders = reverse a.orders.items }; plans = a.centre.plans; centre = a.centre.centre; mark = a.mark; marked = a.marked; said = a.said; back = a.back })
        a.centre.terminals (a.opened.items ++ a.installed.items) };
}

impl ApartCentre {
    /// The centre of a network at its start: these plans are installed and these orders are placed, the first first. It has heard
    /// nothing, and goes back where its orders do.
    pub fn start(
        alloc: Global,
        net: &Network,
        plans: Vec<Plan>,
        orders: Vec<Order>,
    ) -> Result<ApartCentre, OutOfMemory>
        requires opening { IsOpening (record { net = net.now; plans = reverse plans.items; orders = reverse orders.items }) }
        ensures made { IfOk result (λ centre. centre ≡ apart_at_start (record { net = net.now; plans = reverse plans.items; orders = reverse orders.items })) }
    {
        let mark = greatest_due(orders.as_slice());
        let placed = Vec::from_slice(alloc, orders.as_slice())?;
        let net = net.copy(alloc)?;
        let centre = CentreSite::start(alloc, net.terminal_count(), plans.as_slice(), placed)?;
        let back = back_lasting(centre.plans(), orders.as_slice());
        Ok(ApartCentre {
            net,
            orders,
            opened: plans,
            installed: Vec::new(alloc),
            centre,
            mark,
            marked: false,
            said: 0,
            back,
        })
    }

    /// What it opened with is what a world may open with, and no number of it is too great for a message.
    pub fn opens(&self)
        ensures opening { IsOpening self.now.opening }
        ensures stored { AreStored self.now.opening [] }
    {
        // This is there for what holds of each centre of sites apart.
        let _net = &self.net;
    }

    /// The superframe that it takes for the present one.
    pub fn mark(&self) -> Mark
        ensures mark { result ≡ self.now.mark }
        ensures in_range { IsMark result }
    {
        self.mark
    }

    /// It has heard since its start that a superframe began: before that it has no turn.
    pub fn is_marked(&self) -> bool
        ensures marked { result ≡ self.now.marked }
    {
        self.marked
    }

    /// The newest edition that has a plan.
    pub fn newest(&self) -> EditionNo
        ensures newest { result ≡ newest_of self.now.plans }
        ensures installed { IsInstalled self.now.plans result }
    {
        self.centre.plans().newest()
    }

    /// There is a plan of this edition, so that it can be the target of a turn.
    pub fn has_plan(&self, edition: EditionNo) -> bool
        ensures planned { result ≡ is_some (plan_of self.now.plans edition) }
    {
        self.centre.plans().has(edition)
    }

    /// The edition to which it goes back, if it does.
    pub fn back(&self) -> Option<EditionNo>
        ensures back { result ≡ self.now.back }
        ensures installed { IfSome result (IsInstalled self.now.plans) }
    {
        self.back
    }

    /// It goes back to this edition, which has a plan, or ahead.
    pub fn set_back(&mut self, back: Option<EditionNo>)
        requires installed { IfSome back (IsInstalled self.old.plans) }
        ensures back { self.new ≡ going_apart self.old back }
    {
        self.back = back;
    }

    /// The centre itself.
    pub fn centre(&self) -> &Centre
        ensures centre { result.now ≡ self.now.centre }
    {
        self.centre.centre()
    }

    /// The order that its last turn wanted, where it was neither placed nor lost since. A message can name its superframe.
    pub fn wanted(&self) -> Option<Order>
        ensures wanted { result ≡ self.now.centre.wanted }
        ensures timely { IfSome result IsTimely }
    {
        self.centre.wanted()
    }

    /// How many orders are placed.
    pub fn order_count(&self) -> u32
        ensures count { result ≡ length self.now.centre.orders }
    {
        self.centre.order_count()
    }

    /// How many messages it has said.
    pub fn sent_count(&self) -> u32
        ensures count { result ≡ self.now.said }
    {
        self.said
    }

    /// A plan joins its plans, which is newer than the others and can be flown. Want of memory changes nothing.
    pub fn install(&mut self, alloc: Global, plan: &Plan) -> Result<(), OutOfMemory>
        requires newer { (newest_of self.old.plans).0 < plan.now.edition.0 }
        requires flyable { IsFlyable self.old.opening.net plan.now }
        ensures installed { OnOk result (self.new ≡ having_apart self.old (Install plan.now)) }
        ensures err { OnErr result (self.new ≡ self.old) }
    {
        let copy = plan.copy(alloc)?;
        self.installed.reserve(1)?;
        self.centre.install(alloc, plan)?;
        self.installed.push_reserved(copy);
        Ok(())
    }

    /// It restarts from its orders. `kept` says whether the order that it wanted is the last of them. `told` are the orders that its
    /// journal has, the first first: it goes back where they do. Want of memory changes nothing.
    pub fn restart(&mut self, kept: bool, told: &[Order]) -> Result<(), OutOfMemory>
        ensures restarted { OnOk result (self.new ≡ going_apart (having_apart self.old (RestartCentre kept)) (back_lasting self.old.plans (reverse told.now))) }
        ensures err { OnErr result (self.new ≡ self.old) }
    {
        self.centre.restart(kept)?;
        self.marked = false;
        self.back = back_lasting(self.centre.plans(), told);
        Ok(())
    }
}
