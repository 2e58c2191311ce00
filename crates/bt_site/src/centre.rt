// The centre as a site.
ghost use Rattle.std.specs.Prelude.{◌≡◌, ◌+◌, ◌*◌, ◌<◌, ◌≤◌, ◌++◌, ◌∷◌, length, reverse, vec_capacity, vec_len, All, IfOk, IsSome, MatchOption, OnErr, OnOk, Some, None, is_some};
ghost use Rattle.std.specs.Option.{option_copied};
ghost use Rattle.bt_frame.specs.declared.limits.TheConstants.{LAST_MARK, MOST_LEAD, MOST_PLACED, MOST_TERMINALS};
ghost use Rattle.bt_air.specs.Range.{IsInRange};
ghost use Rattle.bt_machines.specs.Centre.{AreNumbered, act_at, after_turn, begins_with, having_placed};
ghost use Rattle.bt_machines.specs.CentreSteps.{beginning, needed_by, orders_kept};
ghost use Rattle.bt_machines.specs.Last.{last_order};
ghost use Rattle.bt_machines.specs.Plans.{IsStored, StartsEmpty, newest_of, plan_of};
ghost use Rattle.bt_machines.specs.Says.{carried, sent_by_order};
ghost use Rattle.bt_machines.specs.Terminals.{terminals_of};
ghost use Rattle.bt_site.specs.Address.{IsAddressed, IsLoaded};
ghost use Rattle.bt_site.specs.Plans.{StandsAt};
ghost use Rattle.bt_site.specs.Sites.{aired_of, centre_with, noted_by, turn_says};

use crate::carry::message_of;
use crate::plans::Plans;
use crate::posted::{Posted, post};
use crate::says::{send_act, send_known, send_order};
use bt_air::{Act, Aired, Answer, Message, Order};
use bt_demand::Plan;
use bt_frame::{EditionNo, Mark, OutOfMemory};
use bt_machines::Centre;
use std::alloc::Global;
use std::marker::Model;

/// The centre with its plans, and what it says.
#[derive(Drop)]
pub struct CentreSite {
    plans: Plans,
    centre: Centre,
}

impl Model for CentreSite {
    ghost use Rattle.bt_site.specs.Sites.{CentreAt};

    ghost Value = { CentreAt };

    ghost view = { λ a. record { terminals = a.plans.terminals; plans = a.plans.all; centre = a.centre } };
}

impl CentreSite {
    /// A centre that begins with these plans and orders, each the first first, in a network of so many terminals.
    pub fn start(
        alloc: Global,
        terminals: u32,
        plans: &[Plan],
        orders: Vec<Order>,
    ) -> Result<CentreSite, OutOfMemory>
        requires few { terminals ≤ MOST_TERMINALS }
        requires starts { StartsEmpty (reverse plans.now) }
        requires numbered { AreNumbered (reverse orders.items) }
        requires few_orders { vec_len orders ≤ MOST_PLACED }
        ensures made { IfOk result (λ site. site ≡ record { terminals = terminals; plans = reverse plans.now; centre = beginning (terminals_of terminals) (reverse plans.now) (reverse orders.items) }) }
        ensures stored { IfOk result (λ site. All IsStored site.plans) }
    {
        let plans = Plans::of(alloc, terminals, plans)?;
        let needs = plans.needs(orders.as_slice().last().copied());
        Ok(CentreSite {
            plans,
            centre: Centre::from_orders(orders, needs),
        })
    }

    /// Its plans.
    pub fn plans(&self) -> &Plans
        ensures plans { result.now ≡ record { terminals = self.now.terminals; all = self.now.plans } }
    {
        &self.plans
    }

    /// The centre itself.
    pub fn centre(&self) -> &Centre
        ensures centre { result.now ≡ self.now.centre }
    {
        &self.centre
    }

    /// The order that its last turn wanted, where it was neither placed nor lost since.
    pub fn wanted(&self) -> Option<Order>
        ensures wanted { result ≡ self.now.centre.wanted }
    {
        self.centre.wanted()
    }

    /// How many orders are placed.
    pub fn order_count(&self) -> u32
        ensures count { result ≡ length self.now.centre.orders }
    {
        self.centre.order_count()
    }

    /// A message that it said as it is carried. `loaded` is the plan of a Load.
    pub fn message(
        &self,
        alloc: Global,
        loaded: Option<&Plan>,
        said: Aired,
    ) -> Result<Message, OutOfMemory>
        requires addressed { IsAddressed self.now.terminals said }
        requires in_range { IsInRange (carried self.now.plans said) }
        requires loaded { IsLoaded self.now.plans said (option_copied loaded) }
        ensures carried { IfOk result (λ message. message ≡ carried self.now.plans said) }
    {
        message_of(alloc, &self.plans, loaded, said)
    }

    /// It hears a message in a superframe, and takes note of a Status, a Confirm or a Lost. Others are not for it.
    pub fn hear(&mut self, mark: Mark, message: Message) -> Answer
        requires in_range { IsInRange message }
        ensures answer { result ≡ noted_by (aired_of message) }
        ensures state { self.new.centre ≡ centre_with self.old.centre mark (Some message) }
        ensures plans { self.new.plans ≡ self.old.plans }
        ensures terminals { self.new.terminals ≡ self.old.terminals }
    {
        match message {
            Message::Status(status) => self.centre.status(status),
            Message::Confirm {
                from,
                load,
                edition,
            } => self.centre.confirm(mark, from, load, edition),
            Message::Lost { from } => self.centre.lost(from),
            _ => return Answer::NotForMe,
        }
        Answer::Noted
    }

    /// It has its turn in a superframe, and says the reference burst, what its act calls for, and to each terminal that
    /// asks its bursts of the edition that is known. `target` is the edition to bring to the front, `lead` the superframes
    /// from an Arm to its change, and `patience` the turns that are waited for confirmations.
    pub fn turn(
        &mut self,
        mark: Mark,
        target: EditionNo,
        lead: u32,
        patience: u32,
        said: &mut Vec<Posted>,
    ) -> Act
        requires mark { mark.0 ≤ LAST_MARK }
        requires lead { lead ≤ MOST_LEAD }
        requires few { length self.old.centre.orders ≤ MOST_PLACED }
        requires room { vec_len said.old + (2 * self.old.terminals + 2) ≤ vec_capacity said.old }
        ensures act { result ≡ act_at self.old.centre mark target lead patience }
        ensures state { self.new.centre ≡ after_turn self.old.centre mark target lead patience }
        ensures plans { self.new.plans ≡ self.old.plans }
        ensures terminals { self.new.terminals ≡ self.old.terminals }
        ensures said { said.new.items ≡ said.old.items ++ turn_says (terminals_of self.old.terminals) self.old.centre self.old.plans mark target lead patience }
    {
        let in_force = self.centre.known(mark);
        let next = self.centre.next(mark);
        let act = self.centre.turn(mark, target, lead, patience);
        post(
            said,
            Aired::Reference {
                superframe: mark,
                in_force,
                next,
            },
        );
        send_act(said, &self.plans, &self.centre, act);
        send_known(said, &self.plans, &self.centre, in_force);
        act
    }

    /// The order that it wanted joins its orders, and it says it, with the bursts of its edition where it is a Load. Want of
    /// memory changes nothing.
    pub fn place(&mut self, alloc: Global, said: &mut Vec<Posted>) -> Result<Order, OutOfMemory>
        requires wanted { IsSome self.old.centre.wanted }
        requires room { vec_len said.old + (self.old.terminals + 1) ≤ vec_capacity said.old }
        ensures order { IfOk result (λ order. self.old.centre.wanted ≡ Some order) }
        ensures state { IfOk result (λ order. self.new.centre ≡ having_placed self.old.centre order (needed_by (terminals_of self.old.terminals) self.old.plans (Some order))) }
        ensures plans { self.new.plans ≡ self.old.plans }
        ensures terminals { self.new.terminals ≡ self.old.terminals }
        ensures said { OnOk result (said.new.items ≡ said.old.items ++ sent_by_order self.old.plans (terminals_of self.old.terminals) self.old.centre.wanted) }
        ensures unchanged { OnErr result (self.new ≡ self.old) }
        ensures unsaid { OnErr result (said.new.items ≡ said.old.items) }
    {
        let needs = self.plans.needs(self.centre.wanted());
        let order = self.centre.ordered(alloc, needs)?;
        send_order(said, &self.plans, order);
        Ok(order)
    }

    /// A plan joins its plans, which is newer than the others. Want of memory changes nothing.
    pub fn install(&mut self, alloc: Global, plan: &Plan) -> Result<(), OutOfMemory>
        requires newer { (newest_of self.old.plans).0 < plan.now.edition.0 }
        ensures installed { OnOk result (self.new.plans ≡ plan.now ∷ self.old.plans) }
        ensures centre { self.new.centre ≡ self.old.centre }
        ensures terminals { self.new.terminals ≡ self.old.terminals }
        ensures err { OnErr result (self.new.plans ≡ self.old.plans) }
        ensures stored { IsStored plan.now }
    {
        self.plans.install(alloc, plan)
    }

    /// It restarts from its orders. `kept` says whether the order that it wanted is the last of them. Want of memory changes
    /// nothing.
    pub fn restart(&mut self, kept: bool) -> Result<(), OutOfMemory>
        ensures state { OnOk result (self.new.centre ≡ beginning (terminals_of self.old.terminals) self.old.plans (orders_kept self.old.centre kept)) }
        ensures plans { self.new.plans ≡ self.old.plans }
        ensures terminals { self.new.terminals ≡ self.old.terminals }
        ensures err { OnErr result (self.new.centre ≡ self.old.centre) }
    {
        let last = last_kept(&self.centre, kept);
        self.centre.restart(kept, self.plans.needs(last))
    }
}

// The last of the orders from which the centre restarts.
fn last_kept(centre: &Centre, kept: bool) -> Option<Order>
    ensures { result ≡ last_order (orders_kept centre.now kept) }
{
    match centre.wanted() {
        Some(order) if kept => Some(order),
        _ => centre.last_order(),
    }
}
