// The lines of a world: the satellite, the terminals and the centre of a network together, event by event.
ghost use Rattle.std.specs.Prelude.{◌≡◌, IfOk};
ghost use Rattle.std.specs.Bool.{OnTrue};
ghost use Rattle.bt_net.specs.Terminals.{IsTerminal};
ghost use Rattle.bt_demand.specs.Flyable.{IsFlyable};
ghost use Rattle.bt_timeline.specs.Air.{NamesTerminal};
ghost use Rattle.bt_site.specs.Fits.{IsPlace, Meets};
ghost use Rattle.bt_world.specs.Life.{past_of};

use crate::lines::{end_line, put_numbers, put_word};
use crate::shown::put_shown;
use bt_air::{Event, Place, Sent, Shown};
use bt_demand::{Plan, Verdict, check, empty_plan, good_plans_are_flyable};
use bt_frame::{EditionNo, LAST_MARK, MOST_COUNTED, MOST_SLOTS, MOST_TEXT_BYTES, TermNo};
use bt_net::Network;
use bt_plan::{read_demand, read_plan};
use bt_sheet::{CaseFault, Part, Result, byte_of, number_of, put_lines};
use bt_timeline::sent_text;
use bt_world::World;
use std::alloc::Global;

/// A world, and the network with which it was started.
#[derive(Drop)]
pub struct Flight {
    net: Network,
    world: World,
    ghost same: { world.opening.net ≡ net },
}

impl Flight {
    /// The world of a network before its first event, with the empty plan and no order.
    pub fn start(alloc: Global, net: &[u8]) -> Result<Flight> {
        let net = network_of(alloc, net)?;
        let world = world_of(alloc, &net)?;
        Ok(Flight { net, world })
    }

    /// An event happens. Appends what it shows, and the messages that it sends.
    pub fn put_event(&mut self, alloc: Global, words: &[&str], out: &mut String) -> Result<()> {
        let before = self.world.sent_count();
        self.put_happened(alloc, words, out)?;
        self.put_sent(alloc, before, out)
    }

    /// An event happens. Appends what it shows.
    fn put_happened(&mut self, alloc: Global, words: &[&str], out: &mut String) -> Result<()> {
        let shown = self.event_of(alloc, words)?;
        put_shown(&shown, out)
    }

    /// A plan that is good for a demand is installed. Appends what that shows.
    pub fn put_install(
        &mut self,
        alloc: Global,
        traffic: &[u8],
        plan: &[u8],
        out: &mut String,
    ) -> Result<()> {
        let plan = good_plan_from(alloc, &self.net, traffic, plan)?;
        let shown = self.install(alloc, plan)?;
        put_shown(&shown, out)
    }

    /// Appends the mode that the switch on board takes in a slot of the frame: its slots, and the downlink of each uplink.
    pub fn put_mode(&self, slot: &str, out: &mut String) -> Result<()> {
        let Some(mode) = self.world.mode_at(number_of(slot)?) else {
            return put_word("none", out);
        };
        put_numbers(">mode", &[mode.duration], out)?;
        for down in mode.perm.as_slice() {
            put_numbers("", &[u32::from(*down)], out)?;
        }
        end_line(out)
    }

    /// The event that the words say happens.
    fn event_of(&mut self, alloc: Global, words: &[&str]) -> Result<Shown> {
        match words {
            ["deliver", number, place] => self.deliver(alloc, number, place),
            ["reset", terminal] => self.reset(alloc, terminal),
            ["restart", "kept"] => self.restart_with(alloc),
            ["turn", "back", edition] => self.turn(alloc, EditionNo(number_of(edition)?)),
            ["second", "none"] => self.happen(alloc, Event::Second { in_force: None }),
            ["second", edition] => self.second(alloc, EditionNo(number_of(edition)?)),
            [word] => self.event_named(alloc, word),
            _ => Err(CaseFault("no event")),
        }
    }

    /// The event of that name happens, of which nothing else is said.
    fn event_named(&mut self, alloc: Global, word: &str) -> Result<Shown> {
        match word {
            "tick" => self.tick(alloc),
            "turn" => {
                let newest = self.world.newest();
                self.turn(alloc, newest)
            }
            "ordered" => self.order(alloc),
            "frame" => self.frame(alloc),
            "restart" => self.happen(alloc, Event::RestartCentre { kept: false }),
            _ => Err(CaseFault("no event")),
        }
    }

    fn install(&mut self, alloc: Global, plan: Plan) -> Result<Shown>
        requires { IsFlyable self.old.net plan }
    {
        if plan.edition.0 <= self.world.newest().0 {
            return Err(CaseFault("no newer edition"));
        }
        self.happen(alloc, Event::Install { plan })
    }

    fn tick(&mut self, alloc: Global) -> Result<Shown> {
        if LAST_MARK <= self.world.mark().0 {
            return Err(CaseFault("the last superframe"));
        }
        self.happen(alloc, Event::Tick)
    }

    /// The centre has its turn, with this edition as the one to bring to the front.
    fn turn(&mut self, alloc: Global, target: EditionNo) -> Result<Shown> {
        if !self.world.has_plan(target) {
            return Err(CaseFault("no plan of that edition"));
        }
        self.happen(alloc, Event::Turn { target })
    }

    /// A second reference burst names this edition.
    fn second(&mut self, alloc: Global, edition: EditionNo) -> Result<Shown> {
        if !self.world.is_told(edition) {
            return Err(CaseFault("no status tells that edition"));
        }
        self.happen(
            alloc,
            Event::Second {
                in_force: Some(edition),
            },
        )
    }

    fn order(&mut self, alloc: Global) -> Result<Shown> {
        if self.world.wanted().is_none() {
            return Err(CaseFault("no order is wanted"));
        }
        self.happen(alloc, Event::Ordered)
    }

    fn frame(&mut self, alloc: Global) -> Result<Shown> {
        if self.net.frames() <= self.world.frame_number() {
            return Err(CaseFault("no frame is left"));
        }
        self.happen(alloc, Event::Frame)
    }

    fn restart_with(&mut self, alloc: Global) -> Result<Shown> {
        if self.world.wanted().is_none() {
            return Err(CaseFault("no order is wanted"));
        }
        self.happen(alloc, Event::RestartCentre { kept: true })
    }

    fn reset(&mut self, alloc: Global, terminal: &str) -> Result<Shown> {
        let terminal = self.terminal_of(terminal)?;
        self.happen(alloc, Event::ResetTerminal { terminal })
    }

    fn deliver(&mut self, alloc: Global, number: &str, place: &str) -> Result<Shown> {
        let message = number_of(number)?;
        if self.world.sent_count() <= message {
            return Err(CaseFault("not sent"));
        }
        let place = self.place_of(place)?;
        self.happen(alloc, Event::Deliver { message, place })
    }

    /// The satellite, the centre, or a terminal of the network.
    fn place_of(&self, word: &str) -> Result<Place>
        ensures { IfOk result (IsPlace self.now.world.opening) }
    {
        match word {
            "sat" => Ok(Place::Satellite),
            "centre" => Ok(Place::Centre),
            word => Ok(Place::Terminal(self.terminal_of(word)?)),
        }
    }

    /// A terminal of the network.
    fn terminal_of(&self, word: &str) -> Result<TermNo>
        ensures { IfOk result (IsTerminal self.now.net) }
    {
        let terminal = TermNo(byte_of(word)?);
        if self.net.terminal_count() <= u32::from(terminal.0) {
            return Err(CaseFault("no terminal"));
        }
        Ok(terminal)
    }

    /// An event that may come happens.
    fn happen(&mut self, alloc: Global, event: Event) -> Result<Shown>
        requires { Meets self.old.world.opening (past_of self.old.world) event }
    {
        let (sent, orders) = (self.world.sent_count(), self.world.order_count());
        if MOST_COUNTED < sent || MOST_COUNTED < orders {
            return Err(CaseFault("too much"));
        }
        match self.world.step(alloc, &self.net, event) {
            Ok(shown) => Ok(shown),
            Err(_full) => Err(CaseFault("out of memory")),
        }
    }

    /// Appends the messages that were sent, from a number on.
    fn put_sent(&self, alloc: Global, first: u32, out: &mut String) -> Result<()> {
        let mut text = Vec::new(alloc);
        self.add_sent(alloc, first, &mut text)?;
        put_lines(alloc, &text, Part::All, out)
    }

    /// Appends the texts of the messages that were sent, from a number on.
    fn add_sent(&self, alloc: Global, first: u32, text: &mut Vec<u8>) -> Result<()> {
        for number in first..self.world.sent_count() {
            let sent = self.world.sent(number);
            if !is_named(&self.net, sent) {
                return Err(CaseFault("no terminal"));
            }
            if sent_text(alloc, &self.net, number, sent, text).is_err() {
                return Err(CaseFault("out of memory"));
            }
        }
        Ok(())
    }
}

/// The network of a text.
fn network_of(alloc: Global, text: &[u8]) -> Result<Network> {
    match Network::read(alloc, text) {
        Ok(net) => Ok(net),
        Err(_fault) => Err(CaseFault("no network")),
    }
}

/// The world of a network before its first event, with the empty plan and no order.
fn world_of(alloc: Global, net: &Network) -> Result<World>
    ensures { IfOk result (λ world. world.opening.net ≡ net.now) }
{
    let mut plans = Vec::new(alloc);
    plans.push(empty_plan(alloc))?;
    match World::start(alloc, net, plans, Vec::new(alloc)) {
        Ok(world) => Ok(world),
        Err(_full) => Err(CaseFault("out of memory")),
    }
}

/// The terminal of a message, where it is of one, is the network's.
fn is_named(net: &Network, sent: &Sent) -> bool
    ensures { OnTrue result (NamesTerminal net.now sent.now) }
{
    match *sent {
        Sent::PlanFor { to, .. } => u32::from(to.0) < net.terminal_count(),
        Sent::Confirm { from, .. } => u32::from(from.0) < net.terminal_count(),
        Sent::Lost { from } => u32::from(from.0) < net.terminal_count(),
        _ => true,
    }
}

/// The plan of a text, which must be good for the demand of another.
fn good_plan_from(alloc: Global, net: &Network, traffic: &[u8], plan: &[u8]) -> Result<Plan>
    ensures { IfOk result (IsFlyable net.now) }
{
    if MOST_TEXT_BYTES < plan.len() {
        return Err(CaseFault("a long text"));
    }
    let Ok(demand) = read_demand(alloc, net, traffic) else {
        return Err(CaseFault("no demand"));
    };
    let Ok(plan) = read_plan(alloc, net, plan) else {
        return Err(CaseFault("no plan"));
    };
    if MOST_SLOTS < plan.schedule.length {
        return Err(CaseFault("a long frame"));
    }
    good_plans_are_flyable();
    match check(net, &demand, &plan) {
        Verdict::Good => Ok(plan),
        _ => Err(CaseFault("no good plan")),
    }
}
