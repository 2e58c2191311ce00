// The centre, a machine that wants the orders by which a new edition comes to the front, and says what its turn calls for.
ghost use Rattle.std.specs.Prelude.{◌≡◌, ◌<◌, ◌≤◌, drop, length, reverse, slice_get, vec_len, IfOk, OnErr, OnOk, IsSome, Some};
ghost use Rattle.bt_frame.specs.declared.limits.TheConstants.{MOST_LEAD, MOST_PLACED};
ghost use Rattle.bt_machines.specs.Centre.{AreNumbered, act_at, after_turn, begins_with, having_confirmed, having_lost, having_noted, having_placed, is_missing, known_to, some_missing, turn_at};
ghost use Rattle.bt_machines.specs.CentreSteps.{orders_kept};
ghost use Rattle.bt_machines.specs.Last.{last_order, load_of, next_of};
ghost use Rattle.bt_machines.specs.Terminals.{has};

use crate::known::{known_by, later_of, names};
use crate::last::{is_load, is_load_numbered, load_among, next_of};
use crate::terminals::{has, with_terminal, without_terminal};
use crate::turn::{Turn, act_of, waited_with, wanted_by};
use bt_air::{Act, Armed, Order, Status};
use bt_frame::{Command, EditionNo, LAST_MARK, MOST_TERMINALS, Mark, OutOfMemory, TermNo, TermSet};
use std::alloc::Global;
use std::marker::Model;

/// The centre.
#[derive(Drop)]
pub struct Centre {
    // from the first on
    orders: Vec<Order>,
    kept: Option<Status>,
    confirmed: TermSet,
    asking: TermSet,
    needs: TermSet,
    waited: u32,
    wanted: Option<Order>,
}

impl Model for Centre {
    ghost use Rattle.std.specs.Prelude.{reverse};
    ghost use Rattle.bt_machines.specs.Centre.{State, IsCentre};

    ghost Value = { State };

    ghost view = { λ a. record { orders = reverse a.orders.items; kept = a.kept; confirmed = a.confirmed; asking = a.asking; needs = a.needs; waited = a.waited; wanted = a.wanted } };

    ghost invariant = { λ a. IsCentre (record { orders = reverse a.orders.items; kept = a.kept; confirmed = a.confirmed; asking = a.asking; needs = a.needs; waited = a.waited; wanted = a.wanted }) };
}

impl Centre {
    /// A centre that begins with these orders, the first of them first and numbered from 1 on: no status kept, nobody
    /// confirmed or asking, nothing waited, nothing wanted. `needs` are the terminals that transmit in the edition of
    /// the last one.
    pub fn from_orders(orders: Vec<Order>, needs: TermSet) -> Centre
        requires numbered { AreNumbered (reverse orders.items) }
        requires few { vec_len orders ≤ MOST_PLACED }
        ensures state { result ≡ begins_with (reverse orders.items) needs }
    {
        Centre {
            orders,
            kept: None,
            confirmed: TermSet(0),
            asking: TermSet(0),
            needs,
            waited: 0,
            wanted: None,
        }
    }

    /// The edition that the centre knows to be in front in a superframe, if it knows one.
    pub fn known(&self, mark: Mark) -> Option<EditionNo>
        ensures known { result ≡ known_to self.now mark.0 }
    {
        match self.kept {
            Some(status) => known_by(&status, mark, self.behind(status.last)),
            None => None,
        }
    }

    /// Takes note of a status. Keeps it where none is kept or it is later than the one kept.
    pub fn status(&mut self, status: Status)
        ensures noted { self.new ≡ having_noted self.old status }
    {
        self.kept = Some(later_of(self.kept, status));
    }

    /// Notes that a terminal holds its bursts of an edition, which came for this Load.
    pub fn confirm(&mut self, mark: Mark, terminal: TermNo, load: Command, edition: EditionNo)
        requires terminal { terminal.0 < MOST_TERMINALS }
        ensures confirmed { self.new ≡ having_confirmed self.old mark.0 terminal load edition }
    {
        let is_last = is_load_numbered(self.last_order(), load);
        let is_known = names(self.known(mark), edition);
        if is_last {
            self.confirmed = with_terminal(self.confirmed, terminal);
        }
        if is_known {
            self.asking = without_terminal(self.asking, terminal);
        }
    }

    /// Notes that a terminal has restarted.
    pub fn lost(&mut self, terminal: TermNo)
        requires terminal { terminal.0 < MOST_TERMINALS }
        ensures lost { self.new ≡ having_lost self.old terminal }
    {
        self.confirmed = without_terminal(self.confirmed, terminal);
        self.asking = with_terminal(self.asking, terminal);
    }

    /// The centre's turn in the superframe `mark`. `target` is the edition to bring to the front, `lead` the
    /// superframes from an Arm to its change, and `patience` the turns that are waited for confirmations.
    pub fn turn(&mut self, mark: Mark, target: EditionNo, lead: u32, patience: u32) -> Act
        requires mark { mark.0 ≤ LAST_MARK }
        requires lead { lead ≤ MOST_LEAD }
        requires few { length self.old.orders ≤ MOST_PLACED }
        ensures act { result ≡ act_at self.old mark target lead patience }
        ensures state { self.new ≡ after_turn self.old mark target lead patience }
    {
        let turn = self.turn_at(mark, target, lead, patience);
        let act = act_of(&turn, self.wanted, self.kept, self.last_order());
        self.waited = turn.waited;
        self.wanted = wanted_by(act);
        act
    }

    /// The status that the centre keeps: the latest that it took note of since its start.
    pub fn kept(&self) -> Option<Status>
        ensures kept { result ≡ self.now.kept }
    {
        self.kept
    }

    /// The order that the centre wants placed.
    pub fn wanted(&self) -> Option<Order>
        ensures wanted { result ≡ self.now.wanted }
    {
        self.wanted
    }

    /// The terminal has still to confirm the edition of the last order.
    pub fn missing(&self, terminal: TermNo) -> bool
        requires terminal { terminal.0 < MOST_TERMINALS }
        ensures missing { result ≡ is_missing self.now terminal }
    {
        is_load(self.last_order()) && has(self.needs, terminal) && !has(self.confirmed, terminal)
    }

    /// The terminal has restarted, and asks for its bursts until it holds the edition known.
    pub fn asking(&self, terminal: TermNo) -> bool
        requires terminal { terminal.0 < MOST_TERMINALS }
        ensures asking { result ≡ has self.now.asking terminal }
    {
        has(self.asking, terminal)
    }

    /// The change that is announced in a superframe: that of the last order, where this is an Arm that is due later.
    pub fn next(&self, mark: Mark) -> Option<Armed>
        ensures next { result ≡ next_of (last_order self.now.orders) mark.0 }
    {
        next_of(self.last_order(), mark)
    }

    /// The greatest number of a Load of this edition, or 0 where there is none.
    pub fn load_of(&self, edition: EditionNo) -> Command
        ensures load { result ≡ load_of self.now.orders edition }
    {
        load_among(self.orders.as_slice(), edition)
    }

    /// How many orders were placed.
    pub fn order_count(&self) -> u32
        ensures count { result ≡ length self.now.orders }
    {
        self.orders.len() as u32
    }

    /// The order that was placed at this place, counted from 0.
    pub fn order(&self, place: u32) -> Order
        requires place { place < length self.now.orders }
        ensures order { slice_get (reverse self.now.orders) place ≡ Some result }
    {
        self.orders[place as usize]
    }

    /// The last order that was placed.
    pub fn last_order(&self) -> Option<Order>
        ensures last { result ≡ last_order self.now.orders }
    {
        self.orders.last().copied()
    }

    /// The order that was wanted is placed. `needs` are the terminals that transmit in its edition.
    ///
    /// The orders have their own allocator. One is taken as by every call that takes memory.
    pub fn ordered(&mut self, _alloc: Global, needs: TermSet) -> Result<Order, OutOfMemory>
        requires wanted { IsSome self.old.wanted }
        ensures order { IfOk result (λ order. self.old.wanted ≡ Some order) }
        ensures state { IfOk result (λ order. self.new ≡ having_placed self.old order needs) }
        ensures unchanged { OnErr result (self.new ≡ self.old) }
    {
        let Some(order) = self.wanted else {
            unreachable!();
        };
        self.orders.push(order)?;
        self.confirmed = TermSet(0);
        self.needs = needs;
        self.waited = 0;
        self.wanted = None;
        Ok(order)
    }

    /// It restarts from its orders: those that are placed, and the one that it wants where that was kept. `needs` are the
    /// terminals that transmit in the edition of the last one.
    pub fn restart(&mut self, kept: bool, needs: TermSet) -> Result<(), OutOfMemory>
        ensures state { OnOk result (self.new ≡ begins_with (orders_kept self.old kept) needs) }
        ensures unchanged { OnErr result (self.new ≡ self.old) }
    {
        match self.wanted {
            Some(order) if kept => self.orders.push(order)?,
            _ => {}
        }
        self.kept = None;
        self.confirmed = TermSet(0);
        self.asking = TermSet(0);
        self.needs = needs;
        self.waited = 0;
        self.wanted = None;
        Ok(())
    }

    // The orders behind a command: all that a status with this last command may not know of.
    fn behind(&self, last: Command) -> &[Order]
        ensures { result.now ≡ drop last.0 (reverse self.now.orders) }
    {
        let orders = self.orders.as_slice();
        let first = last.0 as usize;
        if first < orders.len() {
            &orders[first..]
        } else {
            &[]
        }
    }

    // Some terminal has still to confirm.
    fn some_missing(&self) -> bool
        ensures { result ≡ some_missing self.now }
    {
        for number in 0..MOST_TERMINALS as u8 {
            if self.missing(TermNo(number)) {
                return true;
            }
        }
        false
    }

    // What the present turn goes by.
    fn turn_at(&self, mark: Mark, target: EditionNo, lead: u32, patience: u32) -> Turn
        ensures { result ≡ turn_at self.now mark target lead patience }
    {
        Turn {
            mark,
            target,
            lead,
            patience,
            waited: waited_with(self.waited, self.wanted, self.kept, self.last_order()),
            some_missing: self.some_missing(),
            in_force: self.known(mark),
        }
    }
}
