// What the centre of sites apart says: in its turn, and with an order that joins.
ghost use Rattle.std.specs.Prelude.{◌≡◌, ◌++◌, ◌<◌, length, reverse, slice_index_or, All, IfOk, IsSome, OnOk};
ghost use Rattle.std.specs.Option.{option_copied};
ghost use Rattle.bt_demand.specs.declared.plan.Plan.{Plan};
ghost use Rattle.bt_machines.specs.Plans.{plan_of};
ghost use Rattle.bt_machines.specs.Says.{carried};
ghost use Rattle.bt_site.specs.Address.{IsLoaded};
ghost use Rattle.bt_site.specs.Event.{Ordered, Turn};
ghost use Rattle.bt_apart.specs.Apart.{IsInstalled, having_apart, having_said, lines_apart, said_line, said_lines};
ghost use Rattle.bt_apart.specs.Inside.{IsSayable};

use crate::ApartCentre;
use bt_air::{Aired, Message};
use bt_demand::{Plan, flyable_plans_are_small};
use bt_frame::{EditionNo, MOST_COUNTED, MOST_TERMINALS, OutOfMemory};
use bt_net::Network;
use bt_script::add_radio;
use bt_site::Posted;
use bt_timeline::sent_text;
use std::alloc::Global;

impl ApartCentre {
    /// It has its turn, and says what it has to say: appends the lines of each message, as it is printed and as it is said to the
    /// others. `target` is the edition to bring to the front.
    ///
    /// Where memory runs out, it may have had its turn, and said a part of it.
    pub fn turn(
        &mut self,
        alloc: Global,
        net: &Network,
        target: EditionNo,
        text: &mut Vec<u8>,
    ) -> Result<(), OutOfMemory>
        requires network { net.now ≡ self.old.opening.net }
        requires target { IsInstalled self.old.plans target }
        ensures air { OnOk result (self.new ≡ having_apart self.old (Turn target)) }
        ensures text { OnOk result (text.new.items ≡ text.old.items ++ lines_apart net.now self.old (Turn target)) }
        ensures opening { self.new.opening ≡ self.old.opening }
    {
        flyable_plans_are_small();
        if MOST_COUNTED < self.centre.order_count() {
            return Err(OutOfMemory);
        }
        let mut said = Vec::with_capacity(alloc, 2 * MOST_TERMINALS as usize + 2)?;
        let lead = self.net.lead();
        let patience = self.net.patience();
        self.centre
            .turn(self.mark, target, lead, patience, &mut said);
        self.say_all(alloc, net, said.as_slice(), text)
    }

    /// The order that it wants joins its orders, and it says it: appends the lines of each message.
    ///
    /// Where memory runs out, the order may have joined, and a part have been said.
    pub fn order(
        &mut self,
        alloc: Global,
        net: &Network,
        text: &mut Vec<u8>,
    ) -> Result<(), OutOfMemory>
        requires network { net.now ≡ self.old.opening.net }
        requires wanted { IsSome self.old.centre.wanted }
        ensures air { OnOk result (self.new ≡ having_apart self.old Ordered) }
        ensures text { OnOk result (text.new.items ≡ text.old.items ++ lines_apart net.now self.old Ordered) }
        ensures opening { self.new.opening ≡ self.old.opening }
    {
        flyable_plans_are_small();
        if MOST_COUNTED < self.centre.order_count() {
            return Err(OutOfMemory);
        }
        let mut said = Vec::with_capacity(alloc, MOST_TERMINALS as usize + 1)?;
        self.centre.place(alloc, &mut said)?;
        self.say_all(alloc, net, said.as_slice(), text)
    }

    // Says these messages, one after the other.
    fn say_all(
        &mut self,
        alloc: Global,
        net: &Network,
        said: &[Posted],
        text: &mut Vec<u8>,
    ) -> Result<(), OutOfMemory>
        requires network { net.now ≡ self.old.opening.net }
        requires sayable { All (IsSayable net.now self.old.plans) said.now }
        ensures air { OnOk result (self.new ≡ having_said self.old self.old.centre (length said.now)) }
        ensures text { OnOk result (text.new.items ≡ text.old.items ++ said_lines net.now self.old.plans self.old.mark self.old.said said.now) }
        ensures opening { self.new.opening ≡ self.old.opening }
    {
        for one in said {
            self.say(alloc, net, one, text)?;
        }
        Ok(())
    }

    // Says a message: its line as it is printed, and behind it the line in which the others hear it.
    fn say(
        &mut self,
        alloc: Global,
        net: &Network,
        one: &Posted,
        text: &mut Vec<u8>,
    ) -> Result<(), OutOfMemory>
        requires network { net.now ≡ self.old.opening.net }
        requires sayable { IsSayable net.now self.old.plans one.now }
        ensures air { OnOk result (self.new ≡ having_said self.old self.old.centre 1) }
        ensures text { OnOk result (text.new.items ≡ text.old.items ++ said_line net.now self.old.plans self.old.mark self.old.said one.now) }
        ensures opening { self.new.opening ≡ self.old.opening }
    {
        if MOST_COUNTED < self.said {
            return Err(OutOfMemory);
        }
        sent_text(alloc, net, self.said, one.sent(), text)?;
        let message = self.message(alloc, one.aired())?;
        add_radio(alloc, self.mark, &message, text)?;
        self.said += 1;
        Ok(())
    }

    // The message, with what the plans have for it.
    fn message(&self, alloc: Global, said: Aired) -> Result<Message, OutOfMemory>
        requires { IsSayable self.now.opening.net self.now.plans said }
        ensures { IfOk result (λ message. message ≡ carried self.now.plans said) }
    {
        self.centre.message(alloc, self.loaded(said), said)
    }

    // The plan of the edition of a message, where it is a Load.
    fn loaded(&self, said: Aired) -> Option<&Plan>
        ensures { IsLoaded self.now.plans said (option_copied result) }
    {
        match said {
            Aired::Load { edition, .. } => self.plan(edition),
            _ => None,
        }
    }

    // The plan of an edition, if there is one.
    fn plan(&self, edition: EditionNo) -> Option<&Plan>
        ensures { option_copied result ≡ plan_of self.now.plans edition }
    {
        match self.centre.plans().place_of(edition) {
            Some(place) => Some(self.plan_at(place)),
            None => None,
        }
    }

    // The plan that stands at this place among all, the first first.
    fn plan_at(&self, place: usize) -> &Plan
        requires { place < length self.now.plans }
        ensures { (other : Plan) → result.now ≡ slice_index_or (reverse self.now.plans) place other }
    {
        let opened = self.opened.len();
        if place < opened {
            return &self.opened[place];
        }
        &self.installed[place - opened]
    }
}
