// A station: the satellite, a terminal or the standby, at work.
ghost use Rattle.std.specs.Prelude.{◌≡◌, IfOk, IfSome};
ghost use Rattle.bt_frame.specs.declared.limits.TheConstants.{MOST_STATION_LINE_BYTES};
ghost use Rattle.bt_outside.specs.Input.{IsShort, said_by};
ghost use Rattle.std.specs.Prelude.{Some};
ghost use Rattle.bt_station.specs.Ready.{IsHeard, IsReady};
ghost use Rattle.bt_station.specs.Station.{after, answer, asked_after, asked_answer, came, opening_of};

use crate::asked::{Asked, read_line};
use crate::satellite::SatelliteAtWork;
use crate::say::fault_text;
use crate::standby::StandbyAtWork;
use crate::terminal::TerminalAtWork;
use bt_frame::OutOfMemory;
use bt_net::Network;
use bt_outside::Incoming;
use std::alloc::Global;

/// The satellite, a terminal or the standby, at work.
#[derive(Drop)]
pub enum Station {
    Satellite(SatelliteAtWork),
    Terminal(TerminalAtWork),
    Standby(StandbyAtWork),
}

impl Station {
    /// What it says at its start.
    pub(crate) fn opening(&self, alloc: Global, net: &Network) -> Result<Vec<u8>, OutOfMemory>
        requires ready { IsReady net.now self.now }
        ensures text { IfOk result (λ text. text.items ≡ opening_of self.now) }
    {
        match self {
            Station::Terminal(work) => work.opening(alloc, net),
            Station::Satellite(_) | Station::Standby(_) => Ok(Vec::new(alloc)),
        }
    }

    /// The station once line `at` came, or what is none, and what it says to it.
    pub(crate) fn hear(
        self,
        alloc: Global,
        net: &Network,
        at: u64,
        came: &Incoming,
    ) -> Result<(Station, Vec<u8>), OutOfMemory>
        requires ready { IsReady net.now self }
        requires short { IsShort MOST_STATION_LINE_BYTES (Some came.now) }
        ensures state { IfOk result (λ on. on.0 ≡ after net.now self (said_by came.now)) }
        ensures answer { IfOk result (λ on. on.1.items ≡ answer net.now at self (said_by came.now)) }
        ensures ready { IfOk result (λ on. IsReady net.now on.0) }
    {
        match asked_in(alloc, net, came)? {
            Some(asked) => self.answer(alloc, net, at, asked),
            None => Ok((self, fault_text(alloc, at)?)),
        }
    }

    /// The station once it was asked this, and what it says to it.
    fn answer(
        self,
        alloc: Global,
        net: &Network,
        at: u64,
        asked: Asked,
    ) -> Result<(Station, Vec<u8>), OutOfMemory>
        requires ready { IsReady net.now self }
        requires heard { IsHeard asked }
        ensures state { IfOk result (λ on. on.0 ≡ asked_after net.now self asked) }
        ensures answer { IfOk result (λ on. on.1.items ≡ asked_answer net.now at self asked) }
        ensures ready { IfOk result (λ on. IsReady net.now on.0) }
    {
        match self {
            Station::Satellite(mut work) => {
                let text = work.answer(alloc, net, at, asked)?;
                Ok((Station::Satellite(work), text))
            }
            Station::Terminal(mut work) => {
                let text = work.answer(alloc, net, at, asked)?;
                Ok((Station::Terminal(work), text))
            }
            Station::Standby(mut work) => {
                let text = work.answer(alloc, at, asked)?;
                Ok((Station::Standby(work), text))
            }
        }
    }
}

/// What a line asks that came, if it is one and of the grammar.
fn asked_in(alloc: Global, net: &Network, line: &Incoming) -> Result<Option<Asked>, OutOfMemory>
    requires short { IsShort MOST_STATION_LINE_BYTES (Some line.now) }
    ensures asked { IfOk result (λ asked. asked ≡ came net.now (said_by line.now)) }
    ensures heard { IfOk result (λ asked. IfSome asked IsHeard) }
{
    match line {
        Incoming::Line(line) => read_line(alloc, net, line.as_slice()),
        Incoming::NoLine => Ok(None),
    }
}
