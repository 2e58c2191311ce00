// The delays of the lines of a delay file so far.
ghost use Rattle.std.specs.Prelude.{◌≡◌, ◌+◌, ◌-◌, ◌<◌, ◌≤◌, if◌then◌else◌, nat_le, true, length, replicate, is_some, IfOk, IfSome, All, OnOk};
ghost use Rattle.std.specs.List.{list_all};
ghost use Rattle.bt_text.specs.Reading.{Gives, or_fault};
ghost use Rattle.bt_timing.specs.declared.limits.TheConstants.{MOST_DELAY};
ghost use Rattle.bt_timing.specs.DelayTable.{IsKnownDelay};
ghost use Rattle.bt_timing.specs.declared.fault.TimingCode.TheVariants.{G5};
ghost use Rattle.bt_timing.specs.DelayText.{all_of as delays_of, changed, changed_known, known_of, nothing_known, where_all_known, with_change, with_delay, with_known, delays_at_end};
ghost use Rattle.bt_timing.specs.Times.{IsDelay};

use crate::{MOST_DELAY, TimingCode, TimingFault};
use bt_frame::{OutOfMemory, TermNo};
use bt_net::Network;
use bt_text::fault_at;
use std::alloc::Global;
use std::marker::Model;

/// How a line changes a delay.
#[derive(Clone, Copy)]
pub enum DelayChange {
    /// The terminal is farther away than was said.
    Late,
    /// It is nearer.
    Early,
}

/// The delay of each terminal that has one, in the order of the terminals.
#[derive(Drop)]
pub(crate) struct DelayTable {
    delays: Vec<Option<u32>>,
    // A change stood in the lines, so that all delays are known, and no line may say one.
    is_changing: bool,
}

impl Model for DelayTable {
    ghost use Rattle.bt_timing.specs.DelayText.{SoFar};
    ghost use Rattle.bt_timing.specs.DelayTable.{AreSoFar};

    ghost Value = { SoFar };

    ghost view = { λ a. record { known = a.delays.items; changing = a.is_changing } };

    ghost invariant = { λ a. AreSoFar (record { known = a.delays.items; changing = a.is_changing }) };
}

impl DelayTable {
    /// No delay is known.
    pub(crate) fn new(alloc: Global, net: &Network) -> Result<DelayTable, OutOfMemory>
        ensures { IfOk result (λ table. table ≡ nothing_known net.now) }
    {
        let delays = none_known(alloc, net.terminal_count() as usize)?;
        Ok(DelayTable {
            delays,
            is_changing: false,
        })
    }

    /// A change stood in the lines so far.
    pub(crate) fn is_changing(&self) -> bool
        ensures { result ≡ self.now.changing }
    {
        self.is_changing
    }

    /// All terminals have a delay. Behind a change that is known, so that the changes of a long file cost nothing here.
    fn is_complete(&self) -> bool
        ensures { result ≡ list_all is_some self.now.known }
    {
        self.is_changing || all_known(&self.delays)
    }

    /// The delay of a terminal, where it has one.
    fn known(&self, terminal: TermNo) -> Option<u32>
        requires terminal { terminal.0 < length self.now.known }
        ensures known { result ≡ known_of self.now terminal }
        ensures delay { IsKnownDelay result }
    {
        self.delays[terminal.0 as usize]
    }

    // The terminal has this delay from now on.
    fn put(&mut self, terminal: TermNo, delay: u32)
        requires terminal { terminal.0 < length self.old.known }
        requires delay { IsDelay delay }
        ensures { self.new ≡ with_known self.old self.old.changing terminal delay }
    {
        self.delays[terminal.0 as usize] = Some(delay);
    }

    // The terminal, as all others, has a delay, which is this one from now on.
    fn put_change(&mut self, terminal: TermNo, delay: u32)
        requires terminal { terminal.0 < length self.old.known }
        requires delay { IsDelay delay }
        requires complete { list_all is_some self.old.known ≡ true }
        ensures { self.new ≡ with_known self.old true terminal delay }
    {
        self.delays[terminal.0 as usize] = Some(delay);
        self.is_changing = true;
    }

    /// Takes in the delay that line `at` says of a terminal.
    pub(crate) fn add_delay(
        &mut self,
        at: u32,
        terminal: TermNo,
        delay: u32,
    ) -> Result<(), TimingFault>
        requires terminal { terminal.0 < length self.old.known }
        requires delay { IsDelay delay }
        ensures reading { Gives (λ _. self.new) result (with_delay at self.old terminal delay) }
        ensures count { OnOk result (length self.new.known ≡ length self.old.known) }
    {
        if self.known(terminal).is_some() {
            return Err(fault_at(TimingCode::G4, at));
        }
        self.put(terminal, delay);
        Ok(())
    }

    /// Takes in the change of a terminal's delay that line `at` says.
    pub(crate) fn add_change(
        &mut self,
        at: u32,
        change: DelayChange,
        terminal: TermNo,
        ticks: u32,
    ) -> Result<(), TimingFault>
        requires terminal { terminal.0 < length self.old.known }
        requires ticks { ticks ≤ MOST_DELAY }
        ensures reading { Gives (λ _. self.new) result (with_change at self.old change terminal ticks) }
        ensures count { OnOk result (length self.new.known ≡ length self.old.known) }
    {
        let delay = changed_known(at, change, ticks, self.known(terminal))?;
        self.change_to(at, terminal, delay)
    }

    // The terminal has this delay from now on, where all have one.
    fn change_to(&mut self, at: u32, terminal: TermNo, delay: u32) -> Result<(), TimingFault>
        requires terminal { terminal.0 < length self.old.known }
        requires delay { IsDelay delay }
        ensures reading { Gives (λ _. self.new) result (where_all_known at self.old terminal delay) }
        ensures count { OnOk result (length self.new.known ≡ length self.old.known) }
    {
        if !self.is_complete() {
            return Err(fault_at(TimingCode::G5, at));
        }
        self.put_change(terminal, delay);
        Ok(())
    }

    /// The delays of all terminals at the end, which would be line `at`.
    pub(crate) fn all(&self, alloc: Global, at: u32) -> Result<Vec<u32>, TimingFault>
        ensures reading { Gives (λ delays. delays.items) result (delays_at_end at self.now) }
        ensures each { IfOk result (λ delays. All IsDelay delays.items) }
        ensures count { IfOk result (λ delays. length delays.items ≡ length self.now.known) }
    {
        all_of(alloc, at, &self.delays)
    }
}

// No terminal of so many has a delay.
fn none_known(alloc: Global, terminals: usize) -> Result<Vec<Option<u32>>, OutOfMemory>
    ensures { IfOk result (λ delays. delays.items ≡ replicate terminals None) }
{
    Ok(vec![in alloc; None; terminals]?)
}

// Whether each terminal has a delay.
fn all_known(delays: &[Option<u32>]) -> bool
    ensures { result ≡ list_all is_some delays.now }
{
    delays.iter().all(|delay| delay.is_some())
}

// The delays of all terminals at the end, which would be line `at`.
fn all_of(alloc: Global, at: u32, known: &[Option<u32>]) -> Result<Vec<u32>, TimingFault>
    requires each { All IsKnownDelay known.now }
    ensures reading { Gives (λ delays. delays.items) result (or_fault (G5, at) (delays_of known.now)) }
    ensures each { IfOk result (λ delays. All IsDelay delays.items) }
    ensures count { IfOk result (λ delays. length delays.items ≡ length known.now) }
{
    let mut delays = Vec::new(alloc);
    for entry in known {
        let Some(delay) = *entry else {
            return Err(fault_at(TimingCode::G5, at));
        };
        delays.push(delay)?;
    }
    Ok(delays)
}

// The delay of a terminal after a change, where it had one.
fn changed_known(
    at: u32,
    change: DelayChange,
    ticks: u32,
    known: Option<u32>,
) -> Result<u32, TimingFault>
    requires ticks { ticks ≤ MOST_DELAY }
    requires delay { IsKnownDelay known }
    ensures reading { Gives (λ delay. delay) result (changed_known at change ticks known) }
    ensures delay { IfOk result IsDelay }
{
    match known {
        Some(delay) => changed(change, ticks, delay).ok_or(fault_at(TimingCode::G3, at)),
        None => Err(fault_at(TimingCode::G5, at)),
    }
}

// A delay after a change, where it is one that a terminal may have.
fn changed(change: DelayChange, ticks: u32, delay: u32) -> Option<u32>
    requires ticks { ticks ≤ MOST_DELAY }
    requires delay { IsDelay delay }
    ensures changed { result ≡ changed change ticks delay }
    ensures delay { IfSome result IsDelay }
{
    match change {
        DelayChange::Late => raised(delay, ticks),
        DelayChange::Early => lowered(delay, ticks),
    }
}

// The sum of a delay and ticks, where a terminal may have it.
fn raised(delay: u32, ticks: u32) -> Option<u32>
    requires ticks { ticks ≤ MOST_DELAY }
    requires delay { IsDelay delay }
    ensures { result ≡ (if nat_le (delay + ticks) MOST_DELAY then Some (delay + ticks) else None) }
{
    let sum = delay + ticks;
    if sum <= MOST_DELAY { Some(sum) } else { None }
}

// What is left of a delay, where it is as many ticks at least.
fn lowered(delay: u32, ticks: u32) -> Option<u32>
    ensures { result ≡ (if nat_le ticks delay then Some (delay - ticks) else None) }
{
    if ticks <= delay {
        Some(delay - ticks)
    } else {
        None
    }
}
