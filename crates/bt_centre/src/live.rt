// The run of a session: between its lines the book hands its entries over, so that no bytes of them are kept; nor are any of
// the events of its world, but for the plans that were installed.
ghost use Rattle.std.specs.Prelude.{◌≡◌, ◌<◌, ◌+◌, ◌++◌, ◌∷◌, [], All, false, length, IfErr, IfOk, OnOk};
ghost use Rattle.bt_frame.specs.declared.limits.TheConstants.{MOST_ANSWERS, MOST_LINES};
ghost use Rattle.bt_history.specs.Causes.{Follows};
ghost use Rattle.bt_history.specs.Crash.{Last};
ghost use Rattle.bt_history.specs.Store.{IsKept, lost_of};
ghost use Rattle.bt_round.specs.AirLines.{hearing, opening_in};
ghost use Rattle.bt_script.specs.Heard.{IsOnBus};
ghost use Rattle.bt_script.specs.Named.{IsItemFor, IsRoundFor};
ghost use Rattle.bt_script.specs.Said.{IsSaidFor};
ghost use Rattle.bt_script.specs.declared.script.Item.TheVariants as item;
ghost use Rattle.bt_talk.specs.Block.{IsQueryFor, IsStepFor};
ghost use Rattle.bt_centre.specs.Answering.{AllPlayed, RoundsPlayed, StepFailed, StepPlayed};
ghost use Rattle.bt_centre.specs.Handed.{with_front};
ghost use Rattle.bt_centre.specs.Lines.{total_of};
ghost use Rattle.bt_centre.specs.Progress.{IsLeftEarly, IsLeftOf, ItemFailed, ItemPlayed, RestartPlayed, RoundPlayed};
ghost use Rattle.bt_centre.specs.Run.{entries_of, has_lost};
ghost use Rattle.bt_centre.specs.Told.{IsTold};
ghost use Rattle.bt_centre.specs.Whole.{IsLive, whole, whole_left};
ghost use Rattle.bt_centre.specs.declared.history.History.{History};

use crate::log::Log;
use crate::play::play_round;
use crate::playing::{Playing, Remains, take_only};
use crate::restart::play_restart;
use crate::tally::Tally;
use crate::tell::tell;
use crate::{SessionEnd, SessionHistories};
use bt_book::{Book, RecoverFault};
use bt_frame::OutOfMemory;
use bt_journal::Entries;
use bt_net::Network;
use bt_outside::Keeper;
use bt_round::{Gate, refusal_of};
use bt_script::{BusLine, Item, Round};
use bt_talk::{Query, SaidLines, Step};
use bt_world::TracedEvents;
use std::alloc::Global;
use std::marker::Model;
use std::sync::Wait;
use std::thread::Threads;

/// A run whose entries are handed over between its lines. What it has in hand is that of a run which keeps all of them.
pub(crate) struct Live<K: Keeper> {
    pub(crate) run: Playing<K, TracedEvents>,
    log: Log,
}

impl<K: Keeper> Model for Live<K> {
    ghost use Rattle.bt_centre.specs.Progress.{Hand};
    ghost use Rattle.bt_centre.specs.Whole.{IsLive, whole};

    ghost Value = { Hand };

    ghost view = { λ a. whole a.log.times a.log.front a.run };

    ghost invariant = { λ a. IsLive a.log.front a.run };
}

/// What is left of it: the store, the histories of all times with their tally, and the events.
#[derive(Drop)]
pub(crate) struct LiveRemains<K: Keeper> {
    store: K,
    histories: SessionHistories,
    tally: Tally,
    events: TracedEvents,
}

impl<K: Keeper> Model for LiveRemains<K> {
    ghost use Rattle.bt_centre.specs.Handed.{IsTally};
    ghost use Rattle.bt_centre.specs.Progress.{Left};
    ghost use Rattle.bt_centre.specs.Run.{entries_of};

    ghost Value = { Left };

    ghost view = { λ a. record {
      told = K.told a.store;
      faults = K.fault_count a.store;
      crashes = K.crashes a.store;
      histories = a.histories;
      events = a.events.all;
    } };

    ghost invariant = { λ a. IsTally (entries_of a.histories) a.tally };
}

impl<K: Keeper> Live<K> {
    /// A run in its first time, before the first entry.
    pub(crate) fn new(run: Playing<K, TracedEvents>) -> Live<K>
        requires over { run.over ≡ [] }
        requires none { run.book.history ≡ [] }
        ensures same { result ≡ run }
    {
        Live {
            run,
            log: Log::new(),
        }
    }

    /// The run stops here.
    pub(crate) fn stop<R: Threads + Wait + Sync>(self, rt: &R, alloc: Global) -> LiveRemains<K>
        ensures { IsLeftOf self result }
    {
        let Live { run, log } = self;
        left_behind(run.stop(rt, alloc), log)
    }

    /// The store. It tells the changes of the book, and maybe a first part of the one that it lost. A crash now leaves them at least.
    pub(crate) fn store(&self) -> &K
        ensures told { K.told result.now ≡ self.now.book.told }
        ensures faults { K.fault_count result.now ≡ self.now.book.faults }
        ensures crashes { K.crashes result.now ≡ self.now.book.crashes }
        ensures kept { IsKept self.now.book.net self.now.book.told self.now.book.state.changes (lost_of self.now.book.history) }
        ensures last { Last self.now.book.net self.now.book.state.changes self.now.book.crashes self.now.book.crashes }
    {
        self.run.station.book.store()
    }

    /// The book, which holds the changes of the run.
    pub(crate) fn book(&self) -> &Book<K>
        ensures state { result.now.state ≡ self.now.book.state }
        ensures network { result.now.net ≡ self.now.book.net }
    {
        &self.run.station.book
    }

    /// What a line that asks is told, of what the run has in hand.
    fn tell(&self, alloc: Global, net: &Network, query: Query) -> Result<Vec<u8>, OutOfMemory>
        requires network { self.now.book.net ≡ net.now }
        requires air_network { (opening_in self.now.air).net ≡ net.now }
        requires terminals { IsQueryFor net.now query }
        requires follow { Follows net.now self.now.book.state.changes }
        ensures told { IfOk result (λ text. IsTold net.now self.now.book.state self.now.air query text.items) }
    {
        let station = &self.run.station;
        tell(alloc, net, &station.book, &station.centre, query)
    }
}

/// The book hands its entries over to the log, where its store has not failed.
fn hand_over<K: Keeper>(alloc: Global, run: &mut Playing<K, TracedEvents>, log: &mut Log)
    requires live { IsLive log.old.front run.old }
    ensures same { whole log.new.times log.new.front run.new ≡ whole log.old.times log.old.front run.old }
    ensures none { run.old.book.state.stopped ≡ false → run.new.book.history ≡ [] }
    ensures live { IsLive log.new.front run.new }
{
    let entries = Entries::of(run.take_entries(alloc));
    log.add(&entries);
}

/// What is left behind what was handed over.
fn left_behind<K: Keeper>(remains: Remains<K, TracedEvents>, log: Log) -> LiveRemains<K>
    requires one { length remains.histories ≡ 1 }
    ensures { result ≡ whole_left log.times log.front remains }
{
    let Remains {
        store,
        mut histories,
        events,
    } = remains;
    let (histories, tally) = log.stop(&take_only(&mut histories));
    LiveRemains {
        store,
        histories,
        tally,
        events,
    }
}

impl<K: Keeper> LiveRemains<K> {
    /// The store.
    pub(crate) fn store(&self) -> &K
        ensures told { K.told result.now ≡ self.now.told }
        ensures faults { K.fault_count result.now ≡ self.now.faults }
        ensures crashes { K.crashes result.now ≡ self.now.crashes }
    {
        &self.store
    }

    /// The end of a session, with its status.
    pub(crate) fn end(self, status: u8) -> SessionEnd<K>
        ensures status { result.status ≡ status }
        ensures told { K.told result.store ≡ self.told }
        ensures faults { K.fault_count result.store ≡ self.faults }
        ensures crashes { K.crashes result.store ≡ self.crashes }
        ensures histories { result.histories ≡ self.histories }
        ensures events { result.events.all ≡ self.events }
    {
        let LiveRemains {
            store,
            histories,
            tally: _,
            events,
        } = self;
        SessionEnd {
            status,
            store,
            histories,
            events,
        }
    }

    /// Appends the last line of a session.
    pub(crate) fn add_total(&self, alloc: Global, text: &mut Vec<u8>) -> Result<(), OutOfMemory>
        ensures total { OnOk result (text.new.items ≡ text.old.items ++ total_of (entries_of self.now.histories)) }
    {
        self.tally.add_total(alloc, text)
    }

    /// The store failed over a change.
    pub(crate) fn has_lost(&self) -> bool
        ensures lost { result ≡ has_lost self.now.histories }
    {
        self.tally.lost
    }
}

/// Plays what a line comes to, or tells what it asks, and gives its text; or what is left of the run, where memory runs out or
/// the recovery at a restart fails.
pub(crate) fn play_step<R: Threads + Wait + Sync, G: Gate + Sync, K: Keeper + Send>(
    rt: &R,
    alloc: Global,
    net: &Network,
    gate: &G,
    step: Step,
    live: Live<K>,
) -> Result<(Live<K>, Vec<u8>), (LiveRemains<K>, RecoverFault)>
    requires few { live.rounds + MOST_LINES < MOST_ANSWERS }
    requires network { live.book.net ≡ net.now }
    requires air_network { (opening_in live.air).net ≡ net.now }
    requires terminals { IsStepFor net.now step }
    requires follow { Follows net.now live.book.state.changes }
    ensures played { IfOk result (λ on. StepPlayed net.now step live on.0 on.1.items) }
    ensures failed { IfErr result (λ end. StepFailed net.now step live end.0 end.1) }
{
    match step {
        Step::Plays(item) => live_item(rt, alloc, net, gate, item, live),
        Step::Nothing | Step::Fault(_) | Step::Clock(_) => Ok((live, Vec::new(alloc))),
        Step::Tells(query) => match live.tell(alloc, net, query) {
            Ok(text) => Ok((live, text)),
            Err(OutOfMemory) => Err((live.stop(rt, alloc), RecoverFault::OutOfMemory)),
        },
        Step::All(said) => match play_all(rt, alloc, net, gate, &said, live) {
            Ok(on) => Ok(on),
            Err(remains) => Err((remains, RecoverFault::OutOfMemory)),
        },
    }
}

/// Plays all lines of a block, where each of its edits would be done by the book as it stands, and gives their text; or nothing, and
/// tells the first refusal. Gives what is left of the run, where memory runs out.
fn play_all<R: Threads + Wait + Sync, G: Gate + Sync, K: Keeper + Send>(
    rt: &R,
    alloc: Global,
    net: &Network,
    gate: &G,
    said: &SaidLines,
    live: Live<K>,
) -> Result<(Live<K>, Vec<u8>), LiveRemains<K>>
    requires few { live.rounds + MOST_LINES < MOST_ANSWERS }
    requires network { live.book.net ≡ net.now }
    requires air_network { (opening_in live.air).net ≡ net.now }
    requires terminals { All (IsSaidFor net.now) said.now }
    requires follow { Follows net.now live.book.state.changes }
    ensures played { IfOk result (λ on. AllPlayed net.now said.now live on.0 on.1.items) }
    ensures failed { IfErr result (λ remains. IsLeftEarly live remains) }
{
    let refused = match refusal_of(alloc, net, live.book(), said.as_slice()) {
        Ok(refused) => refused,
        Err(OutOfMemory) => return Err(live.stop(rt, alloc)),
    };
    match refused {
        Some(refusal) => Ok((live, refusal)),
        None => match said.rounds_in_turn(alloc, net) {
            Ok(rounds) => play_rounds(rt, alloc, net, gate, rounds.as_slice(), live),
            Err(OutOfMemory) => Err(live.stop(rt, alloc)),
        },
    }
}

/// Plays rounds one after the other, and gives their text; or what is left of the run, where memory runs out.
fn play_rounds<R: Threads + Wait + Sync, G: Gate + Sync, K: Keeper + Send>(
    rt: &R,
    alloc: Global,
    net: &Network,
    gate: &G,
    rounds: &[Round],
    mut live: Live<K>,
) -> Result<(Live<K>, Vec<u8>), LiveRemains<K>>
    requires few { live.rounds + length rounds.now < MOST_ANSWERS }
    requires network { live.book.net ≡ net.now }
    requires air_network { (opening_in live.air).net ≡ net.now }
    requires terminals { All (IsRoundFor net.now) rounds.now }
    requires follow { Follows net.now live.book.state.changes }
    ensures played { IfOk result (λ on. RoundsPlayed net.now rounds.now live on.0 on.1.items) }
    ensures failed { IfErr result (λ remains. IsLeftEarly live remains) }
{
    // This is there for what a crash now leaves.
    let _store = live.store();
    let mut text = Vec::new(alloc);
    for round in rounds {
        match live_round(rt, alloc, net, gate, round, live) {
            Ok((next, own)) => {
                live = next;
                // This is there for what a crash now leaves.
                let _store = live.store();
                if text.extend_from_slice(own.as_slice()).is_err() {
                    return Err(live.stop(rt, alloc));
                }
            }
            Err(remains) => return Err(remains),
        }
    }
    Ok((live, text))
}

/// Plays a part of a session, and gives its text; or what is left of the run.
fn live_item<R: Threads + Wait + Sync, G: Gate + Sync, K: Keeper + Send>(
    rt: &R,
    alloc: Global,
    net: &Network,
    gate: &G,
    item: Item,
    live: Live<K>,
) -> Result<(Live<K>, Vec<u8>), (LiveRemains<K>, RecoverFault)>
    requires few { live.rounds < MOST_ANSWERS }
    requires network { live.book.net ≡ net.now }
    requires air_network { (opening_in live.air).net ≡ net.now }
    requires terminals { IsItemFor net.now item }
    requires follow { Follows net.now live.book.state.changes }
    ensures played { IfOk result (λ on. ItemPlayed net.now item live on.0 on.1.items) }
    ensures failed { IfErr result (λ end. ItemFailed net.now item live end.0 end.1) }
{
    match item {
        Item::Round(round) => match live_round(rt, alloc, net, gate, &round, live) {
            Ok(on) => Ok(on),
            Err(remains) => Err((remains, RecoverFault::OutOfMemory)),
        },
        Item::Restart => live_restart(rt, alloc, net, live),
        Item::Heard(line) => Ok((live_heard(line, live), Vec::new(alloc))),
    }
}

/// Plays a round, and gives its text; or what is left of the run, where memory runs out.
fn live_round<R: Threads + Wait + Sync, G: Gate + Sync, K: Keeper + Send>(
    rt: &R,
    alloc: Global,
    net: &Network,
    gate: &G,
    round: &Round,
    live: Live<K>,
) -> Result<(Live<K>, Vec<u8>), LiveRemains<K>>
    requires few { live.rounds < MOST_ANSWERS }
    requires network { live.book.net ≡ net.now }
    requires air_network { (opening_in live.air).net ≡ net.now }
    requires terminals { IsRoundFor net.now round.now }
    requires follow { Follows net.now live.book.state.changes }
    ensures played { IfOk result (λ on. RoundPlayed net.now round.now live on.0 on.1.items) }
    ensures failed { IfErr result (λ remains. IsLeftEarly live remains) }
{
    let Live { run, mut log } = live;
    match play_round(rt, alloc, net, gate, round, run) {
        Ok((mut next, text)) => {
            hand_over(alloc, &mut next, &mut log);
            Ok((Live { run: next, log }, text))
        }
        Err(remains) => Err(left_behind(remains, log)),
    }
}

/// The time is over, and the centre restarts. Gives the text of it; or what is left of the run, where memory runs out or the
/// recovery fails.
fn live_restart<R: Threads + Wait + Sync, K: Keeper>(
    rt: &R,
    alloc: Global,
    net: &Network,
    live: Live<K>,
) -> Result<(Live<K>, Vec<u8>), (LiveRemains<K>, RecoverFault)>
    requires network { live.book.net ≡ net.now }
    requires air_network { (opening_in live.air).net ≡ net.now }
    requires follow { Follows net.now live.book.state.changes }
    ensures played { IfOk result (λ on. RestartPlayed net.now live on.0 on.1.items) }
    ensures failed { IfErr result (λ end. ItemFailed net.now item.Restart live end.0 end.1) }
{
    let Live { run, log } = live;
    match play_restart(rt, alloc, net, run) {
        Ok((next, text)) => Ok((begun_again(next, log), text)),
        Err((remains, fault)) => Err((left_behind(remains, log), fault)),
    }
}

/// The centre hears a line of the bus.
fn live_heard<K: Keeper>(line: BusLine, live: Live<K>) -> Live<K>
    requires on_bus { IsOnBus line }
    ensures heard { result ≡ record live { air = hearing live.air line } }
{
    let Live { mut run, log } = live;
    run.hear(line);
    Live { run, log }
}

/// The run behind a restart: the time that is over goes into the log.
fn begun_again<K: Keeper>(mut run: Playing<K, TracedEvents>, mut log: Log) -> Live<K>
    requires one { length run.over ≡ 1 }
    requires none { run.book.history ≡ [] }
    ensures { (past : History) → run.over ≡ past ∷ [] → result ≡ whole (log.times ++ with_front log.front past ∷ []) [] run }
{
    log.end_time(&run.take_time());
    Live { run, log }
}
