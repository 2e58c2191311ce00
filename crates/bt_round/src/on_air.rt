// How the centre sees the air: the lines that tell it.
ghost use Rattle.std.specs.Prelude.{◌≡◌, ◌<◌, ◌++◌, [], if◌then◌else◌, IfOk, OnOk};
ghost use Rattle.bt_frame.specs.declared.limits.TheConstants.{MOST_TERMINALS};
ghost use Rattle.bt_net.specs.Terminals.{IsTerminal};
ghost use Rattle.bt_machines.specs.Centre.{is_missing};
ghost use Rattle.bt_machines.specs.Terminals.{has};
ghost use Rattle.bt_timeline.specs.OnAir.{asks_line, missing_line};
ghost use Rattle.bt_round.specs.AirLines.{back_of, is_marked, mark_of, opening_in, orders_in};
ghost use Rattle.bt_round.specs.OnAir.{air_lines, asks_lines, centre_of, direction_line, missing_lines, where_marked};

use crate::simulated::SimulatedCentre;
use crate::worker::{CentreOver, CentreWorker};
use bt_frame::{Mark, OutOfMemory, TermNo};
use bt_machines::Centre;
use bt_net::Network;
use bt_timeline::{
    ahead_text, asks_text, back_text, kept_text, last_text, missing_text, superframe_text,
};
use bt_world::Events;
use std::alloc::Global;

impl<E: Events> CentreOver<SimulatedCentre<E>> {
    /// The lines of how the centre sees the air: the superframe that it takes for the present one, the status that it keeps, the last
    /// order placed, the terminals that have still to confirm it, those that ask for their bursts, and the edition to which it goes back.
    pub fn air_text(&self, alloc: Global, net: &Network) -> Result<Vec<u8>, OutOfMemory>
        requires network { (opening_in self.now).net ≡ net.now }
        ensures text { IfOk result (λ text. text.items ≡ air_lines net.now self.now) }
    {
        let mut text = Vec::new(alloc);
        let centre = self.centre();
        let kept = centre.kept();
        superframe_text(alloc, self.present(), &mut text)?;
        kept_text(alloc, self.mark(), kept, &mut text)?;
        last_text(alloc, kept, centre.last_order(), &mut text)?;
        tell_missing(alloc, net, centre, &mut text)?;
        tell_asking(alloc, net, centre, &mut text)?;
        self.tell_direction(alloc, &mut text)?;
        Ok(text)
    }

    /// The centre. The orders that it has are those that are placed.
    fn centre(&self) -> &Centre
        ensures centre { result.now ≡ centre_of self.now }
        ensures orders { result.now.orders ≡ orders_in self.now }
    {
        match self {
            CentreWorker::Simulated(centre) => centre.world.centre(),
            CentreWorker::Apart(centre) => centre.centre(),
        }
    }

    /// The superframe that the centre takes for the present one, where it has heard of one since its start.
    fn present(&self) -> Option<Mark>
        ensures { result ≡ where_marked (is_marked self.now) (mark_of self.now) }
    {
        if self.is_marked() {
            Some(self.mark())
        } else {
            None
        }
    }

    /// Appends the line of the edition to which the centre goes back, or that it goes ahead.
    fn tell_direction(&self, alloc: Global, text: &mut Vec<u8>) -> Result<(), OutOfMemory>
        ensures { OnOk result (text.new.items ≡ text.old.items ++ direction_line (back_of self.now)) }
    {
        match self.back() {
            Some(edition) => back_text(alloc, edition, text),
            None => ahead_text(alloc, text),
        }
    }
}

/// Appends the lines of the terminals that have still to confirm the edition of the last order.
fn tell_missing(
    alloc: Global,
    net: &Network,
    centre: &Centre,
    text: &mut Vec<u8>,
) -> Result<(), OutOfMemory>
    ensures { OnOk result (text.new.items ≡ text.old.items ++ missing_lines net.now centre.now) }
{
    for number in 0..net.terminal_count() as u8 {
        tell_where_missing(alloc, net, centre, TermNo(number), text)?;
    }
    Ok(())
}

/// Appends the line of a terminal, where it has still to confirm the edition of the last order.
fn tell_where_missing(
    alloc: Global,
    net: &Network,
    centre: &Centre,
    terminal: TermNo,
    text: &mut Vec<u8>,
) -> Result<(), OutOfMemory>
    requires terminal { IsTerminal net.now terminal }
    requires few { terminal.0 < MOST_TERMINALS }
    ensures { OnOk result (text.new.items ≡ text.old.items ++ (if is_missing centre.now terminal then missing_line net.now terminal else [])) }
{
    if centre.missing(terminal) {
        missing_text(alloc, net, terminal, text)
    } else {
        Ok(())
    }
}

/// Appends the lines of the terminals that ask for their bursts.
fn tell_asking(
    alloc: Global,
    net: &Network,
    centre: &Centre,
    text: &mut Vec<u8>,
) -> Result<(), OutOfMemory>
    ensures { OnOk result (text.new.items ≡ text.old.items ++ asks_lines net.now centre.now) }
{
    for number in 0..net.terminal_count() as u8 {
        tell_where_asking(alloc, net, centre, TermNo(number), text)?;
    }
    Ok(())
}

/// Appends the line of a terminal, where it asks for its bursts.
fn tell_where_asking(
    alloc: Global,
    net: &Network,
    centre: &Centre,
    terminal: TermNo,
    text: &mut Vec<u8>,
) -> Result<(), OutOfMemory>
    requires terminal { IsTerminal net.now terminal }
    requires few { terminal.0 < MOST_TERMINALS }
    ensures { OnOk result (text.new.items ≡ text.old.items ++ (if has centre.now.asking terminal then asks_line net.now terminal else [])) }
{
    if centre.asking(terminal) {
        asks_text(alloc, net, terminal, text)
    } else {
        Ok(())
    }
}
