// A row of links: those on which one terminal sends.
ghost use Rattle.std.specs.Prelude.{◌≡◌, ◌≢◌, ◌+◌, ◌<◌, ◌≤◌, [], ◌∷◌, ◌++◌, length, IfOk, IfErr, OnOk, OnErr, vec_capacity};
ghost use Rattle.std.specs.List.{insert};
ghost use Rattle.bt_demand.specs.Demand.{units_of, Gains, IsAt, IsDemand, IsGapFor};

use crate::Link;
use bt_frame::{MOST_SUM, OutOfMemory, TermNo};
use std::alloc::Global;
use std::marker::Model;
use std::mem;

/// Links that ask for slots, in order of the terminal that sends and then of the one that receives.
///
/// Each link stands once, its ends differ, and it asks for 1 to `MOST_SUM` slots.
#[derive(Drop)]
pub struct LinkRow {
    links: Vec<Link>,
}

impl Model for LinkRow {
    ghost use Rattle.std.specs.Prelude.{List};
    ghost use Rattle.bt_demand.specs.declared.demand.Link.{Link};

    ghost Value = { List Link };

    ghost use Rattle.bt_demand.specs.Demand.{IsDemand};

    ghost view = { λ a. a.links.items };

    ghost invariant = { λ a. IsDemand a.links.items };
}

impl LinkRow {
    /// No link.
    pub(crate) fn empty(alloc: Global) -> LinkRow
        ensures empty { result ≡ [] }
    {
        LinkRow {
            links: Vec::new(alloc),
        }
    }

    /// The links in order.
    pub fn as_slice(&self) -> &[Link]
        ensures same { result.now ≡ self.now }
        ensures demand { IsDemand self.now }
    {
        self.links.as_slice()
    }

    /// An equal row.
    pub(crate) fn copy(&self, alloc: Global) -> Result<LinkRow, OutOfMemory>
        ensures same { IfOk result (λ copy. copy ≡ self.now) }
    {
        Ok(LinkRow {
            links: Vec::from_slice(alloc, self.links.as_slice())?,
        })
    }

    /// Puts a link behind all others of the row.
    pub(crate) fn push(&mut self, link: Link) -> Result<(), OutOfMemory>
        requires demand { IsDemand (self.old ++ link ∷ []) }
        ensures ok { OnOk result (self.new ≡ self.old ++ link ∷ []) }
        ensures err { OnErr result (self.new ≡ self.old) }
    {
        Ok(self.links.push(link)?)
    }

    /// The slots of a link, 0 where it is not in the row.
    pub(crate) fn units(&self, from: TermNo, to: TermNo) -> u32
        ensures units { result ≡ units_of self.now from to }
    {
        match self.find(from, to) {
            Ok(place) => self.links[place].units,
            Err(_) => 0,
        }
    }

    /// The link asks for so many slots more. It takes memory where the link was not in the row.
    pub(crate) fn add(&mut self, from: TermNo, to: TermNo, units: u32) -> Result<(), OutOfMemory>
        requires differ { from.0 ≢ to.0 }
        requires positive { 0 < units }
        requires fits { units_of self.old from to + units ≤ MOST_SUM }
        ensures ok { OnOk result (Gains self.old self.new from to units) }
        ensures err { OnErr result (self.new ≡ self.old) }
        ensures demand { IsDemand self.new }
    {
        match self.find(from, to) {
            Ok(place) => {
                self.links[place].units += units;
                Ok(())
            }
            Err(place) => Ok(self.links.insert(place, Link { from, to, units })?),
        }
    }

    /// Takes room for the links and one more, in a list that has none, so that `add_reserved` takes no memory.
    pub(crate) fn reserve(&self, room: &mut Vec<Link>) -> Result<(), OutOfMemory>
        requires none { room.old.items ≡ [] }
        ensures room { OnOk result (length self.now < vec_capacity room.new) }
        ensures none { room.new.items ≡ [] }
    {
        Ok(room.reserve(self.links.len() + 1)?)
    }

    /// The link asks for so many slots more. Where the links fill their own memory they move into the room, and leave theirs
    /// as room.
    pub(crate) fn add_reserved(
        &mut self,
        room: &mut Vec<Link>,
        from: TermNo,
        to: TermNo,
        units: u32,
    )
        requires none { room.old.items ≡ [] }
        requires room { length self.old < vec_capacity room.old }
        requires differ { from.0 ≢ to.0 }
        requires positive { 0 < units }
        requires fits { units_of self.old from to + units ≤ MOST_SUM }
        ensures gains { Gains self.old self.new from to units }
        ensures demand { IsDemand self.new }
        ensures left { room.new.items ≡ [] }
    {
        match self.find(from, to) {
            Ok(place) => self.links[place].units += units,
            Err(place) => insert_within(&mut self.links, room, place, Link { from, to, units }),
        }
    }

    /// The link asks for so many slots less. It leaves the row where none are left.
    pub(crate) fn take(&mut self, from: TermNo, to: TermNo, units: u32)
        requires positive { 0 < units }
        requires held { units ≤ units_of self.old from to }
        ensures loses { Gains self.new self.old from to units }
        ensures demand { IsDemand self.new }
    {
        let Ok(place) = self.find(from, to) else {
            unreachable!();
        };
        let held = self.links[place].units;
        if held == units {
            self.links.remove(place);
        } else {
            self.links[place].units = held - units;
        }
    }

    /// The place of a link, or the place where it would stand.
    fn find(&self, from: TermNo, to: TermNo) -> Result<usize, usize>
        ensures found { IfOk result (IsAt self.now (from, to)) }
        ensures absent { IfErr result (IsGapFor self.now (from, to)) }
    {
        self.links
            .binary_search_by_key(&(from, to), |link| (link.from, link.to))
    }
}

/// Puts a link at a place, in the memory of the links or, where they fill it, in the room.
fn insert_within(links: &mut Vec<Link>, room: &mut Vec<Link>, place: usize, link: Link)
    requires place { place ≤ length links.old.items }
    requires none { room.old.items ≡ [] }
    requires room { length links.old.items < vec_capacity room.old }
    ensures items { links.new.items ≡ insert links.old.items place link }
    ensures none { room.new.items ≡ [] }
{
    if links.len() == links.capacity() {
        let Ok(()) = room.append(links) else {
            unreachable!();
        };
        mem::swap(links, room);
    }
    let Ok(()) = links.insert(place, link) else {
        unreachable!();
    };
}
