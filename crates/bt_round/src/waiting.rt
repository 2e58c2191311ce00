// The messages on their way.
ghost use Rattle.std.specs.Prelude.{◌≡◌, ◌≤◌, ◌++◌, ◌∷◌, [], ℕ, drop, length, map, slice_get, take, All, OnErr, OnOk};
ghost use Rattle.bt_frame.specs.declared.numbers.TermNo.{TermNo};
ghost use Rattle.bt_air.specs.declared.sent.Place.{Place};
ghost use Rattle.bt_air.specs.declared.sent.Place.TheVariants.{Terminal};
ghost use Rattle.bt_world.specs.Life.{past_of};
ghost use Rattle.bt_site.specs.World.{sent};
ghost use Rattle.bt_timeline.specs.Air.{IsPlaceOf, waiting_lines};
ghost use Rattle.bt_round.specs.Waiting.{deliveries, deliveries_of, is_same_place, left_of, loses, lost_of, receivers};
ghost use Rattle.bt_round.specs.Worker.{Begins, numbered};

use bt_air::{Place, Sent};
use bt_frame::{OutOfMemory, TermNo};
use bt_net::Network;
use bt_script::Losing;
use bt_timeline::waiting_text;
use bt_world::{Events, WorldOver};
use std::alloc::Global;
use std::collections::VecDeque;
use std::marker::Model;

/// Who is still to hear which message: numbers of messages, each with a place, the next first.
#[derive(Drop)]
pub(crate) struct Waiting {
    deliveries: VecDeque<(u32, Place)>,
}

impl Model for Waiting {
    ghost use Rattle.std.specs.Prelude.{ℕ, List};
    ghost use Rattle.bt_air.specs.declared.sent.Place.{Place};

    ghost Value = { List (ℕ × Place) };

    ghost view = { λ a. a.deliveries.items };
}

impl Waiting {
    /// Nobody waits.
    pub(crate) fn none(alloc: Global) -> Waiting
        ensures { result ≡ [] }
    {
        Waiting {
            deliveries: VecDeque::new(alloc),
        }
    }

    /// How many deliveries are still to come.
    pub(crate) fn len(&self) -> usize
        ensures { result ≡ length self.now }
    {
        self.deliveries.len()
    }

    /// The next delivery, which is to come no more.
    pub(crate) fn next(&mut self) -> Option<(u32, Place)>
        ensures next { result ≡ slice_get self.old 0 }
        ensures rest { self.new ≡ drop 1 self.old }
    {
        self.deliveries.pop_front()
    }

    /// A message of that number is to be heard by its receivers: a reference burst by each of so many terminals.
    pub(crate) fn add(
        &mut self,
        terminals: u8,
        number: u32,
        message: &Sent,
    ) -> Result<(), OutOfMemory>
        ensures ok { OnOk result (self.new ≡ self.old ++ deliveries_of number (receivers (numbered terminals) message.now)) }
        ensures err { OnErr result (self.new ≡ self.old) }
    {
        match *message {
            Sent::Load { .. } => self.push(number, Place::Satellite),
            Sent::Arm { .. } => self.push(number, Place::Satellite),
            Sent::Status(_) => self.push(number, Place::Centre),
            Sent::PlanFor { to, .. } => self.push(number, Place::Terminal(to)),
            Sent::Confirm { .. } => self.push(number, Place::Centre),
            Sent::Reference { .. } => self.push_all(terminals, number),
            Sent::Lost { .. } => self.push(number, Place::Centre),
        }
    }

    /// All messages from a number on are to be heard by their receivers.
    pub(crate) fn add_sent<E: Events>(
        &mut self,
        world: &WorldOver<E>,
        terminals: u8,
        first: u32,
    ) -> Result<(), OutOfMemory>
        requires { first ≤ length (sent world.now.opening (past_of world.now)) }
        ensures ok { OnOk result (self.new ≡ self.old ++ deliveries (numbered terminals) first (drop first (sent world.now.opening (past_of world.now)))) }
        ensures err { OnErr result (self.new ≡ self.old) }
    {
        let before = self.len();
        let added = self.add_each(world, terminals, first);
        if added.is_err() {
            self.keep(before);
        }
        added
    }

    /// The same, but want of memory leaves the first of them.
    fn add_each<E: Events>(
        &mut self,
        world: &WorldOver<E>,
        terminals: u8,
        first: u32,
    ) -> Result<(), OutOfMemory>
        requires { first ≤ length (sent world.now.opening (past_of world.now)) }
        ensures ok { OnOk result (self.new ≡ self.old ++ deliveries (numbered terminals) first (drop first (sent world.now.opening (past_of world.now)))) }
        ensures kept { Begins self.old self.new }
    {
        for number in first..world.sent_count() {
            self.add(terminals, number, world.sent(number))?;
        }
        Ok(())
    }

    /// Takes away all that waits, or all that waits for one place, and tells how much that was.
    pub(crate) fn lose(&mut self, losing: Losing) -> usize
        ensures count { result ≡ length (lost_of losing self.old) }
        ensures left { self.new ≡ left_of losing self.old }
    {
        let before = self.deliveries.len();
        self.deliveries
            .retain(|delivery| !loses(losing, delivery.1));
        before - self.deliveries.len()
    }

    /// Keeps the first deliveries, so many of them.
    pub(crate) fn keep(&mut self, count: usize)
        ensures { self.new ≡ take count self.old }
    {
        self.deliveries.truncate(count);
    }

    /// Appends the line of each delivery that is to come, in order.
    pub(crate) fn tell(
        &self,
        alloc: Global,
        net: &Network,
        text: &mut Vec<u8>,
    ) -> Result<(), OutOfMemory>
        requires places { All (λ (delivery : ℕ × Place). IsPlaceOf net.now delivery.1) self.now }
        ensures { OnOk result (text.new.items ≡ text.old.items ++ waiting_lines net.now self.now) }
    {
        for at in 0..self.deliveries.len() {
            let (number, place) = self.deliveries[at];
            waiting_text(alloc, net, number, place, text)?;
        }
        Ok(())
    }

    /// A message is to be heard at a place.
    fn push(&mut self, number: u32, place: Place) -> Result<(), OutOfMemory>
        ensures ok { OnOk result (self.new ≡ self.old ++ (number, place) ∷ []) }
        ensures err { OnErr result (self.new ≡ self.old) }
    {
        Ok(self.deliveries.push_back((number, place))?)
    }

    /// A message is to be heard by each of so many terminals. Room is taken for all of them first.
    fn push_all(&mut self, terminals: u8, number: u32) -> Result<(), OutOfMemory>
        ensures ok { OnOk result (self.new ≡ self.old ++ deliveries_of number (map (λ (terminal : TermNo). Terminal terminal) (numbered terminals))) }
        ensures err { OnErr result (self.new ≡ self.old) }
    {
        self.deliveries.reserve(usize::from(terminals))?;
        for terminal in 0..terminals {
            let place = Place::Terminal(TermNo(terminal));
            self.deliveries.push_back_reserved((number, place));
        }
        Ok(())
    }
}

/// The loss takes what waits for this place.
fn loses(losing: Losing, place: Place) -> bool
    ensures { result ≡ loses losing place }
{
    match losing {
        Losing::All => true,
        Losing::At(lost) => is_same_place(lost, place),
    }
}

/// Both are one place.
fn is_same_place(a: Place, b: Place) -> bool
    ensures { result ≡ is_same_place a b }
{
    match (a, b) {
        (Place::Satellite, Place::Satellite) => true,
        (Place::Centre, Place::Centre) => true,
        (Place::Terminal(a), Place::Terminal(b)) => a.0 == b.0,
        _ => false,
    }
}
