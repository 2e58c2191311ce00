// A connection from an uplink beam to a downlink beam, and how far its slots are taken.
ghost use Rattle.std.specs.Prelude.{ℕ, List, ◌≡◌, ◌⊎◌, ◌+◌, ◌<◌, ◌≤◌, length, slice_index_or, OnOk};
ghost use Rattle.bt_frame.specs.declared.mode.Mode.{Mode};
ghost use Rattle.bt_cut.specs.Serving.{slots_in_all, taken_of, HasGiven, IsNext, IsReady, IsServedBy, IsGivenBy, HasSlots};

use bt_demand::{Burst, Link};
use bt_frame::OutOfMemory;
use std::alloc::Global;

/// Slots that follow each other within one mode.
#[derive(Clone, Copy)]
pub(crate) struct Span {
    /// The first slot of the frame.
    pub(crate) start: u32,
    /// Slots.
    pub(crate) length: u32,
}

/// What the modes give to one connection, and what of it the links before have taken.
#[derive(Drop)]
pub(crate) struct Connection {
    /// The slots of each mode that makes the connection, in order.
    pub(crate) spans: Vec<Span>,
    /// The place of the first span with slots that no link has taken.
    pub(crate) next: usize,
    /// The slots of that span that are taken.
    pub(crate) used: u32,
}

impl Connection {
    /// A connection without slots.
    pub(crate) fn empty(alloc: Global) -> Connection
        ensures { (modes : List Mode) (up down : ℕ) → HasSlots modes up down 0 0 result }
    {
        Connection {
            spans: Vec::new(alloc),
            next: 0,
            used: 0,
        }
    }

    /// A further mode gives the connection slots.
    pub(crate) fn add(&mut self, span: Span) -> Result<(), OutOfMemory>
        ensures { OnOk result ((modes : List Mode) (up down place taken : ℕ) → IsGivenBy modes up down place span
            → HasSlots modes up down place taken self.old → HasSlots modes up down (place + 1) taken self.new) }
    {
        Ok(self.spans.push(span)?)
    }

    /// The link takes the next slots, as a burst for each span that has some of them.
    pub(crate) fn serve(&mut self, link: Link, bursts: &mut Vec<Burst>) -> Result<(), OutOfMemory>
        requires ready { IsReady self.old }
        requires enough { taken_of self.old + link.units ≤ slots_in_all self.old.spans.items }
        ensures given { OnOk result (HasGiven self.old self.new link.units) }
        ensures served { OnOk result (IsServedBy self.old.spans.items link.from link.to (taken_of self.old) link.units bursts.old.items bursts.new.items) }
    {
        let mut left = link.units;
        while 0 < left {
            let burst = self.take(link, left);
            left -= burst.length;
            bursts.push(burst)?;
        }
        Ok(())
    }

    /// The next burst of the link, which has so many units left.
    fn take(&mut self, link: Link, left: u32) -> Burst
        requires ready { IsReady self.old }
        requires some { 0 < left }
        requires enough { taken_of self.old + left ≤ slots_in_all self.old.spans.items }
        ensures next { IsNext self.old self.new link.from link.to left result }
        ensures given { HasGiven self.old self.new result.length }
    {
        let span = self.spans[self.next];
        let start = span.start + self.used;
        let length = left.min(span.length - self.used);
        self.use_slots(span.length, length);
        Burst {
            from: link.from,
            to: link.to,
            start,
            length,
        }
    }

    /// So many more slots of the next span, whose length this is, are taken.
    fn use_slots(&mut self, span: u32, slots: u32)
        requires ready { IsReady self.old }
        requires inside { self.old.next < length self.old.spans.items }
        requires span { (slice_index_or self.old.spans.items self.old.next (record { start = 0; length = 0 })).length ≡ span }
        requires fits { self.old.used + slots ≤ span }
        ensures given { HasGiven self.old self.new slots }
        ensures whole { (self.old.used + slots < span) ⊎ (self.new.used ≡ 0) }
    {
        self.used += slots;
        if self.used == span {
            self.next += 1;
            self.used = 0;
        }
    }
}
