// The demand: how many slots per frame each link between two terminals asks for.
ghost use Rattle.std.specs.Prelude.{◌≡◌, ◌≢◌, ◌+◌, ◌<◌, ◌≤◌, [], ◌∷◌, ◌++◌, length, IfOk, OnOk, OnErr, IsOk, vec_capacity};
ghost use Rattle.bt_demand.specs.Demand.{units_of, Gains, IsDemand};
ghost use Rattle.bt_demand.specs.Rows.{all_links, sent_by, KeepLinks};

use crate::{LinkRoom, LinkRow};
use bt_frame::{MOST_SUM, OutOfMemory, TermNo};
use std::alloc::Global;
use std::marker::Model;
use std::mem;

/// A link of the demand: so many slots per frame from one terminal to another.
#[derive(Clone, Copy)]
pub struct Link {
    /// The terminal that sends.
    pub from: TermNo,
    /// The terminal that receives.
    pub to: TermNo,
    /// Slots per frame.
    pub units: u32,
}

/// The links that ask for slots, in order of the terminal that sends and then of the one that receives.
///
/// Each link stands once, its ends differ, and it asks for 1 to `MOST_SUM` slots. The links of each terminal that sends stand in
/// a row of their own, so that an edit moves no link of another sender.
#[derive(Drop)]
pub struct Demand {
    rows: Vec<LinkRow>,
}

impl Model for Demand {
    ghost use Rattle.std.specs.Prelude.{List};
    ghost use Rattle.bt_demand.specs.declared.demand.Link.{Link};

    ghost Value = { List Link };

    ghost use Rattle.bt_demand.specs.Rows.{all_links, AreRows};

    ghost view = { λ a. all_links a.rows.items };

    ghost invariant = { λ a. AreRows a.rows.items };
}

impl Demand {
    /// The demand that asks for nothing.
    #[tactic(auto, using(crate::proofs::BySender::no_rows))]
    pub fn empty(alloc: Global) -> Demand
        ensures empty { result ≡ [] }
    {
        Demand {
            rows: Vec::new(alloc),
        }
    }

    /// Puts a link behind all others. Nothing is searched for.
    pub fn push(&mut self, alloc: Global, link: Link) -> Result<(), OutOfMemory>
        requires demand { IsDemand (self.old ++ link ∷ []) }
        ensures ok { OnOk result (self.new ≡ self.old ++ link ∷ []) }
        ensures err { OnErr result (self.new ≡ self.old) }
    {
        let place = usize::from(link.from.0);
        add_rows(alloc, &mut self.rows, place + 1)?;
        let row = &mut self.rows[place];
        row.push(link)?;
        Ok(())
    }

    /// The links, a row for each terminal that sends. One row behind the other they stand in order.
    pub fn rows(&self) -> &[LinkRow]
        ensures links { all_links result.now ≡ self.now }
        ensures demand { IsDemand self.now }
    {
        self.rows.as_slice()
    }

    /// An equal demand.
    pub fn copy(&self, alloc: Global) -> Result<Demand, OutOfMemory>
        ensures same { IfOk result (λ copy. copy ≡ self.now) }
    {
        let mut rows = Vec::with_capacity(alloc, self.rows.len())?;
        for row in &self.rows {
            rows.push(row.copy(alloc)?)?;
        }
        Ok(Demand { rows })
    }

    /// The slots of a link, 0 where it is not in the demand.
    pub fn units(&self, from: TermNo, to: TermNo) -> u32
        ensures units { result ≡ units_of self.now from to }
    {
        let place = usize::from(from.0);
        if place < self.rows.len() {
            self.rows[place].units(from, to)
        } else {
            0
        }
    }

    /// The link asks for so many slots more. It takes memory where the link was not in the demand.
    pub fn add(
        &mut self,
        alloc: Global,
        from: TermNo,
        to: TermNo,
        units: u32,
    ) -> Result<(), OutOfMemory>
        requires differ { from.0 ≢ to.0 }
        requires positive { 0 < units }
        requires fits { units_of self.old from to + units ≤ MOST_SUM }
        ensures ok { OnOk result (Gains self.old self.new from to units) }
        ensures err { OnErr result (self.new ≡ self.old) }
        ensures demand { IsDemand self.new }
    {
        let place = usize::from(from.0);
        add_rows(alloc, &mut self.rows, place + 1)?;
        let row = &mut self.rows[place];
        row.add(from, to, units)?;
        Ok(())
    }

    /// Takes room for the links of a terminal that sends and one more, and for rows up to its own, so that `add_reserved` takes no
    /// memory for a link of that terminal.
    pub fn reserve(&self, from: TermNo, room: &mut LinkRoom) -> Result<(), OutOfMemory>
        requires no_links { room.old.links.items ≡ [] }
        requires no_rows { room.old.rows.items ≡ [] }
        ensures links { OnOk result (length (sent_by from self.now) < vec_capacity room.new.links) }
        ensures rows { OnOk result (from.0 < vec_capacity room.new.rows) }
        ensures no_links { room.new.links.items ≡ [] }
        ensures no_rows { room.new.rows.items ≡ [] }
    {
        let place = usize::from(from.0);
        room.rows.reserve(place + 1)?;
        if place < self.rows.len() {
            self.rows[place].reserve(&mut room.links)
        } else {
            Ok(room.links.reserve(1)?)
        }
    }

    /// The link asks for so many slots more. Where the links of its sender fill their own memory they move into the room, and
    /// leave theirs as room; and so do the rows where the sender has none yet.
    pub fn add_reserved(&mut self, room: &mut LinkRoom, from: TermNo, to: TermNo, units: u32)
        requires no_links { room.old.links.items ≡ [] }
        requires no_rows { room.old.rows.items ≡ [] }
        requires links { length (sent_by from self.old) < vec_capacity room.old.links }
        requires rows { from.0 < vec_capacity room.old.rows }
        requires differ { from.0 ≢ to.0 }
        requires positive { 0 < units }
        requires fits { units_of self.old from to + units ≤ MOST_SUM }
        ensures gains { Gains self.old self.new from to units }
        ensures demand { IsDemand self.new }
        ensures no_links { room.new.links.items ≡ [] }
        ensures no_rows { room.new.rows.items ≡ [] }
    {
        let place = usize::from(from.0);
        add_rows_within(room.alloc, &mut self.rows, &mut room.rows, place + 1);
        let row = &mut self.rows[place];
        row.add_reserved(&mut room.links, from, to, units);
    }

    /// The link asks for so many slots less. It leaves the demand where none are left.
    pub fn take(&mut self, from: TermNo, to: TermNo, units: u32)
        requires positive { 0 < units }
        requires held { units ≤ units_of self.old from to }
        ensures loses { Gains self.new self.old from to units }
        ensures demand { IsDemand self.new }
    {
        let row = &mut self.rows[usize::from(from.0)];
        row.take(from, to, units);
    }
}

/// Puts rows without links behind these, until there are so many.
fn add_rows(alloc: Global, rows: &mut Vec<LinkRow>, count: usize) -> Result<(), OutOfMemory>
    ensures keep { KeepLinks rows.old.items rows.new.items }
    ensures count { OnOk result (count ≤ length rows.new.items) }
    ensures succeeds { count ≤ vec_capacity rows.old → IsOk result }
{
    for _ in rows.len()..count {
        rows.push(LinkRow::empty(alloc))?;
    }
    Ok(())
}

/// Puts rows without links behind these, until there are so many, in their memory or in the room.
fn add_rows_within(alloc: Global, rows: &mut Vec<LinkRow>, room: &mut Vec<LinkRow>, count: usize)
    requires none { room.old.items ≡ [] }
    requires room { count ≤ vec_capacity room.old }
    ensures keep { KeepLinks rows.old.items rows.new.items }
    ensures count { count ≤ length rows.new.items }
    ensures none { room.new.items ≡ [] }
{
    if rows.capacity() < count {
        let Ok(()) = room.append(rows) else {
            unreachable!();
        };
        mem::swap(rows, room);
    }
    let Ok(()) = add_rows(alloc, rows, count) else {
        unreachable!();
    };
}
