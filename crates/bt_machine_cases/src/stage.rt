// The lines of messages, machines and stations: each goes to the file of what it acts on. `docs/cases.md` says what they mean.
use crate::air::put_message;
use crate::centre::{new_centre, show_centre};
use crate::satellite::show_satellite;
use crate::standby::show_standby;
use crate::station::put_station;
use crate::terminal::show_terminal;
use crate::world::Flight;
use bt_frame::{Mark, TermNo};
use bt_machines::{Centre, Satellite, Standby, Terminal};
use bt_sheet::{CaseFault, Result, Shelf};
use std::alloc::Global;

/// What the lines act on.
#[derive(Drop)]
pub struct Machines {
    satellite: Satellite,
    terminal: Terminal,
    centre: Centre,
    standby: Standby,
    /// The worlds that were started; the last is the one in use.
    flights: Vec<Flight>,
}

impl Machines {
    /// A satellite at superframe 0, terminal 0, a centre that has placed no order, a standby that keeps nothing, and no
    /// world.
    pub fn new(alloc: Global) -> Machines {
        Machines {
            satellite: Satellite::new(alloc, Mark(0)),
            terminal: Terminal::new(alloc, TermNo(0)),
            centre: new_centre(alloc),
            standby: Standby::new(),
            flights: Vec::new(alloc),
        }
    }

    /// Does what the words of a line say, and appends what is answered. Files stand on the shelf.
    pub fn act(
        &mut self,
        alloc: Global,
        shelf: &Shelf,
        words: &[&str],
        out: &mut String,
    ) -> Result<()> {
        match words {
            ["decode", digits] => put_message(alloc, digits, out),
            ["world", net] => self.start(alloc, shelf.text(net)?),
            ["event", words @ ..] => self.put_event(alloc, words, out),
            ["install", traffic, plan] => {
                self.put_install(alloc, shelf.text(traffic)?, shelf.text(plan)?, out)
            }
            ["switch", slot] => self.put_mode(slot, out),
            ["station", heard, words @ ..] => {
                put_station(alloc, shelf, shelf.text(heard)?, words, out)
            }
            words => self.show_machines(alloc, words, out),
        }
    }

    /// Shows the satellite, the terminal, the standby or the centre, each by itself.
    fn show_machines(&mut self, alloc: Global, words: &[&str], out: &mut String) -> Result<()> {
        match words {
            ["satellite" | "take" | "tick" | "status" | "mode", ..] => {
                show_satellite(alloc, &mut self.satellite, words, out)
            }
            ["terminal" | "hear" | "sends" | "restart", ..] => {
                show_terminal(alloc, &mut self.terminal, words, out)
            }
            ["standby" | "notice" | "names", ..] => show_standby(&mut self.standby, words, out),
            words => show_centre(alloc, &mut self.centre, words, out),
        }
    }

    /// Starts a world of the network.
    fn start(&mut self, alloc: Global, net: &[u8]) -> Result<()> {
        let flight = Flight::start(alloc, net)?;
        self.flights.push(flight)?;
        Ok(())
    }

    fn put_event(&mut self, alloc: Global, words: &[&str], out: &mut String) -> Result<()> {
        match self.flights.last_mut() {
            Some(flight) => flight.put_event(alloc, words, out),
            None => Err(CaseFault("no world")),
        }
    }

    fn put_mode(&self, slot: &str, out: &mut String) -> Result<()> {
        match self.flights.last() {
            Some(flight) => flight.put_mode(slot, out),
            None => Err(CaseFault("no world")),
        }
    }

    fn put_install(
        &mut self,
        alloc: Global,
        traffic: &[u8],
        plan: &[u8],
        out: &mut String,
    ) -> Result<()> {
        match self.flights.last_mut() {
            Some(flight) => flight.put_install(alloc, traffic, plan, out),
            None => Err(CaseFault("no world")),
        }
    }
}
