// How the frame is occupied: the demand on a network, with its traffic matrix beside it.
ghost use Rattle.std.specs.Prelude.{◌≡◌, ◌≢◌, ◌⊎◌, ◌<◌, ◌≤◌, [], length, IfOk, OnOk};
ghost use Rattle.bt_frame.specs.declared.schedule.Critical.{Critical};
ghost use Rattle.bt_matrix.specs.Traffic.{row_sum, column_sum, IsHeaviest};
ghost use Rattle.bt_demand.specs.Demand.{units_of, Gains, IsDemand};
ghost use Rattle.bt_demand.specs.Traffic.{matrix_of, HasSumsTo};
ghost use Rattle.bt_net.specs.Terminals.{IsInBeam, IsTerminal};
ghost use Rattle.bt_net.specs.Network.{IsSound};
ghost use Rattle.bt_journal.specs.Journal.{NamesTerminals};
ghost use Rattle.bt_history.specs.Occupancy.{HasEnds, EditsLinks, HasRoom, HasRoomFrom, HoldsTaken};

use bt_demand::{Demand, LinkRoom};
use bt_frame::{BeamNo, MOST_SLOTS, OutOfMemory, TermNo, Units};
use bt_journal::Edit;
use bt_matrix::{Crosslinked, MOST_SUM, Traffic};
use bt_net::Network;
use std::alloc::Global;
use std::marker::Model;

/// The demand on a network, room for more of its links, and its traffic matrix with the greatest line sum, which follow each change.
#[derive(Drop)]
pub struct Occupancy {
    net: Network,
    demand: Demand,
    // memory for one link more: the links of its sender move there where they fill their own, and so do the rows
    room: LinkRoom,
    matrix: Crosslinked,
    // the greatest line sum of the matrix
    length: u32,
}

impl Model for Occupancy {
    ghost use Rattle.bt_history.specs.Occupancy.{Occupied};

    ghost Value = { Occupied };

    ghost use Rattle.std.specs.Prelude.{◌≡◌, [], vec_capacity};
    ghost use Rattle.bt_frame.specs.declared.schedule.Critical.{Critical};
    ghost use Rattle.bt_matrix.specs.Traffic.{IsHeaviest};
    ghost use Rattle.bt_demand.specs.Traffic.{matrix_of};

    ghost view = { λ a. record {
      net = a.net;
      links = a.demand;
      link_room = vec_capacity a.room.links;
      row_room = vec_capacity a.room.rows;
      entry_room = a.matrix.room;
    } };

    ghost invariant = { λ a. (a.matrix.rows ≡ matrix_of a.net a.demand) × (a.room.links.items ≡ []) × (a.room.rows.items ≡ [])
        × ((line : Critical) × IsHeaviest a.matrix.rows line a.length) };
}

impl Occupancy {
    /// A network on which there is no demand.
    pub fn new(alloc: Global, net: &Network) -> Result<Occupancy, OutOfMemory>
        ensures net { IfOk result (λ made. made.net ≡ net.now) }
        ensures links { IfOk result (λ made. made.links ≡ []) }
    {
        let net = net.copy(alloc)?;
        let matrix = Crosslinked::new(alloc, net.beam_count())?;
        let (_, length) = matrix.heaviest();
        Ok(Occupancy {
            net,
            demand: Demand::empty(alloc),
            room: LinkRoom::new(alloc),
            matrix,
            length,
        })
    }

    /// The demand.
    pub fn demand(&self) -> &Demand
        ensures same { result.now ≡ self.now.links }
        ensures demand { IsDemand self.now.links }
    {
        // This is there for what holds of each demand.
        let _rows = self.demand.rows();
        &self.demand
    }

    /// The network.
    pub fn network(&self) -> &Network
        ensures same { result.now ≡ self.now.net }
        ensures sound { IsSound self.now.net }
    {
        // This is there for what holds of each network.
        let _beams = self.net.beam_count();
        &self.net
    }

    /// The demand alone.
    pub fn into_demand(self) -> Demand
        ensures same { result ≡ self.links }
        ensures demand { IsDemand self.links }
    {
        // This is there for what holds of each demand.
        let _rows = self.demand.rows();
        self.demand
    }

    /// Traffic slots of a frame.
    pub fn slots(&self) -> u32
        ensures same { result ≡ self.now.net.slots }
        ensures in_range { result ≤ MOST_SLOTS }
        ensures sound { IsSound self.now.net }
    {
        // This is there for what holds of each network.
        let _beams = self.net.beam_count();
        self.net.slots()
    }

    /// The slots of a link, none where the demand does not have it.
    pub fn units(&self, from: TermNo, to: TermNo) -> u32
        ensures slots { result ≡ units_of self.now.links from to }
    {
        self.demand.units(from, to)
    }

    /// The beam of a terminal that sends, and the slots of its row.
    pub fn row_of(&self, from: TermNo) -> (BeamNo, u32)
        requires sends { IsTerminal self.now.net from }
        ensures beam { IsInBeam self.now.net from result.0 }
        ensures in_range { result.0.0 < length self.now.net.beams }
        ensures sum { result.1 ≡ row_sum (matrix_of self.now.net self.now.links) result.0.0 }
        ensures small { result.1 ≤ MOST_SUM }
    {
        let beam = self.net.beam_of(from);
        // This is there for what holds of each matrix.
        let _size = self.matrix.size();
        (beam, self.matrix.row_sum(beam))
    }

    /// The beam of a terminal that receives, and the slots of its column.
    pub fn column_of(&self, to: TermNo) -> (BeamNo, u32)
        requires receives { IsTerminal self.now.net to }
        ensures beam { IsInBeam self.now.net to result.0 }
        ensures in_range { result.0.0 < length self.now.net.beams }
        ensures sum { result.1 ≡ column_sum (matrix_of self.now.net self.now.links) result.0.0 }
        ensures small { result.1 ≤ MOST_SUM }
    {
        let beam = self.net.beam_of(to);
        // This is there for what holds of each matrix.
        let _size = self.matrix.size();
        (beam, self.matrix.column_sum(beam))
    }

    /// The slots of the line with the most.
    pub fn length(&self) -> u32
        ensures heaviest { (line : Critical) × IsHeaviest (matrix_of self.now.net self.now.links) line result }
    {
        self.length
    }

    /// Takes room for an edit, so that it takes no memory. One that only takes slots from a link needs none.
    pub fn reserve(&mut self, alloc: Global, edit: &Edit) -> Result<(), OutOfMemory>
        ensures room { OnOk result (HasRoom self.new edit.now) }
        ensures net { self.new.net ≡ self.old.net }
        ensures links { self.new.links ≡ self.old.links }
    {
        match *edit {
            Edit::Add { from, .. } => self.reserve_from(alloc, from),
            Edit::Drop { .. } => Ok(()),
            Edit::Move { new_from, .. } => self.reserve_from(alloc, new_from),
        }
    }

    /// Takes room for one link more that a terminal sends on.
    fn reserve_from(&mut self, alloc: Global, from: TermNo) -> Result<(), OutOfMemory>
        ensures room { OnOk result (HasRoomFrom self.new from) }
        ensures net { self.new.net ≡ self.old.net }
        ensures links { self.new.links ≡ self.old.links }
    {
        self.demand.reserve(from, &mut self.room)?;
        self.matrix.reserve(alloc, 1)
    }

    /// Makes an edit, for which there is room.
    pub fn edit(&mut self, edit: &Edit)
        requires room { HasRoom self.old edit.now }
        requires terminals { NamesTerminals self.old.net edit.now }
        requires ends { HasEnds edit.now }
        requires held { HoldsTaken self.old.links edit.now }
        requires small { HasSumsTo MOST_SLOTS (matrix_of self.old.net self.old.links) }
        ensures edited { EditsLinks self.old.links edit.now self.new.links }
        ensures net { self.new.net ≡ self.old.net }
    {
        match *edit {
            Edit::Add { from, to, units } => self.gain(from, to, units),
            Edit::Drop { from, to, units } => self.lose(from, to, units),
            Edit::Move {
                from,
                to,
                new_from,
                new_to,
                units,
            } => {
                self.gain(new_from, new_to, units);
                self.lose(from, to, units);
            }
        }
    }

    /// A link asks for so many slots more, for which there is room.
    fn gain(&mut self, from: TermNo, to: TermNo, units: Units)
        requires room { HasRoomFrom self.old from }
        requires sends { IsTerminal self.old.net from }
        requires receives { IsTerminal self.old.net to }
        requires differ { from.0 ≢ to.0 }
        requires small { HasSumsTo MOST_SLOTS (matrix_of self.old.net self.old.links) }
        ensures gains { Gains self.old.links self.new.links from to units }
        ensures net { self.new.net ≡ self.old.net }
    {
        let (up, down) = (self.net.beam_of(from), self.net.beam_of(to));
        let slots = units.get();
        self.demand.add_reserved(&mut self.room, from, to, slots);
        self.matrix.add(up, down, slots);
        self.length = self.length.max(greater_sum(&self.matrix, up, down));
    }

    /// A link asks for so many slots less.
    fn lose(&mut self, from: TermNo, to: TermNo, units: Units)
        requires sends { IsTerminal self.old.net from }
        requires receives { IsTerminal self.old.net to }
        requires held { units ≤ units_of self.old.links from to }
        ensures loses { Gains self.new.links self.old.links from to units }
        ensures net { self.new.net ≡ self.old.net }
    {
        let (up, down) = (self.net.beam_of(from), self.net.beam_of(to));
        let slots = units.get();
        let was = greater_sum(&self.matrix, up, down);
        self.demand.take(from, to, slots);
        self.matrix.take(up, down, slots);
        if was == self.length {
            self.length = self.matrix.heaviest().1;
        }
    }
}

/// The sum of a row or that of a column, whichever is greater.
fn greater_sum(matrix: &Crosslinked, up: BeamNo, down: BeamNo) -> u32
    requires up { up.0 < length matrix.now.rows }
    requires down { down.0 < length matrix.now.rows }
    ensures row { row_sum matrix.now.rows up.0 ≤ result }
    ensures column { column_sum matrix.now.rows down.0 ≤ result }
    ensures one { (result ≡ row_sum matrix.now.rows up.0) ⊎ (result ≡ column_sum matrix.now.rows down.0) }
{
    matrix.row_sum(up).max(matrix.column_sum(down))
}
