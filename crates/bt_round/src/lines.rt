// The lines of the air in a round, one after the other.
ghost use Rattle.std.specs.Prelude.{◌≡◌, All, OnOk};
ghost use Rattle.bt_script.specs.Named.{IsAirLineFor};
ghost use Rattle.bt_round.specs.AirLines.{PlaysAirLine, PlaysAirLines, opening_in};
ghost use Rattle.bt_round.specs.Callers.{IsSameCaller, caller_number, own_of};
ghost use Rattle.bt_round.specs.Worker.{Asks, IsOfSimulated, Plays, PlaysOwnLine};

use crate::caller::Caller;
use crate::gate::Gate;
use crate::simulated::SimulatedCentre;
use crate::worker::{CentreOver, CentreWorker};
use bt_frame::OutOfMemory;
use bt_net::Network;
use bt_outside::Keeper;
use bt_script::AirLine;
use bt_world::Events;
use std::alloc::Global;
use std::sync::Wait;

impl<E: Events> CentreOver<SimulatedCentre<E>> {
    /// Plays the lines of the air in a round, and appends what is printed of them.
    ///
    /// Where memory runs out, the events so far have happened, and the book has the entries so far.
    pub fn play_lines<R: Wait, G: Gate, K: Keeper>(
        &mut self,
        rt: &R,
        alloc: Global,
        net: &Network,
        caller: &mut Caller<'_, G, K>,
        lines: &[AirLine],
        text: &mut Vec<u8>,
    ) -> Result<(), OutOfMemory>
        requires network { (opening_in self.old).net ≡ net.now }
        requires caller_network { caller.old.start.net ≡ net.now }
        requires number { caller_number caller.old ≡ 0 }
        requires lines { All (IsAirLineFor net.now) lines.now }
        ensures played { OnOk result (Asks (PlaysAirLines net.now self.old lines.now) self.new (own_of caller.old) (own_of caller.new) text.old.items text.new.items) }
        ensures opening { opening_in self.new ≡ opening_in self.old }
        ensures same { IsSameCaller caller.old caller.new }
    {
        for line in lines {
            self.play_line(rt, alloc, net, caller, *line, text)?;
        }
        Ok(())
    }

    /// Plays a line of the air, and appends what is printed of it.
    fn play_line<R: Wait, G: Gate, K: Keeper>(
        &mut self,
        rt: &R,
        alloc: Global,
        net: &Network,
        caller: &mut Caller<'_, G, K>,
        line: AirLine,
        text: &mut Vec<u8>,
    ) -> Result<(), OutOfMemory>
        requires network { (opening_in self.old).net ≡ net.now }
        requires caller_network { caller.old.start.net ≡ net.now }
        requires number { caller_number caller.old ≡ 0 }
        requires line { IsAirLineFor net.now line }
        ensures played { OnOk result (Asks (PlaysAirLine net.now self.old line) self.new (own_of caller.old) (own_of caller.new) text.old.items text.new.items) }
        ensures opening { opening_in self.new ≡ opening_in self.old }
        ensures same { IsSameCaller caller.old caller.new }
    {
        match line {
            AirLine::Turn => self.turn(rt, alloc, net, caller, text),
            AirLine::Back(edition) => self.go_back(alloc, edition, text),
            AirLine::Ahead => self.go_ahead(alloc, text),
            _ => match self {
                CentreWorker::Simulated(centre) => centre.play(alloc, net, line, text),
                CentreWorker::Apart(_) => Ok(()),
            },
        }
    }
}

impl<E: Events> SimulatedCentre<E> {
    /// Plays a line that only a simulated air has, and appends what is printed of it.
    fn play(
        &mut self,
        alloc: Global,
        net: &Network,
        line: AirLine,
        text: &mut Vec<u8>,
    ) -> Result<(), OutOfMemory>
        requires network { self.old.life.opening.net ≡ net.now }
        requires line { IsAirLineFor net.now line }
        requires own { IsOfSimulated line }
        ensures played { OnOk result (Plays (PlaysOwnLine net.now line self.old) self.new text.old.items text.new.items) }
        ensures opening { self.new.life.opening ≡ self.old.life.opening }
    {
        match line {
            AirLine::Tick => self.tick(alloc, net, text),
            AirLine::Flow => self.flow(alloc, net, text),
            AirLine::Lose(losing) => self.lose(alloc, losing, text),
            AirLine::Deliver(number, place) => self.deliver(alloc, net, number, place, text),
            AirLine::Frame => self.frame(alloc, net, text),
            AirLine::Reset(terminal) => self.reset(alloc, net, terminal, text),
            AirLine::StandbyHears(number) => self.standby_hears(alloc, number, text),
            AirLine::StandbyBurst => self.standby_burst(alloc, net, text),
            AirLine::Turn | AirLine::Back(_) | AirLine::Ahead => unreachable!(),
        }
    }
}
