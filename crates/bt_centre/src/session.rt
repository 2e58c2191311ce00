// A session: lines come one by one, and each is played and answered before the next is heard.
ghost use Rattle.std.specs.Prelude.{◌≡◌, ◌≤◌, ◌<◌, ◌++◌, [], IfErr, IfOk, IfSome, IsErrOf, List, None, OnErr, OnOk, Some, is_some, length, option_map, ℕ};
ghost use Rattle.bt_outside.specs.Told.{GainsPrefix, Rose, gained};
ghost use Rattle.bt_outside.specs.Input.{IsShort, said_by};
ghost use Rattle.bt_outside.specs.Talk.{said, took};
ghost use Rattle.bt_history.specs.Crash.{Last};
ghost use Rattle.bt_history.specs.Store.{IsKept, lost_of};
ghost use Rattle.bt_timeline.specs.Timeline.{restart_line};
ghost use Rattle.bt_talk.specs.Answers.{answer_of, ready_line};
ghost use Rattle.bt_talk.specs.Asked.{timed_behind};
ghost use Rattle.bt_talk.specs.Block.{IsStepFor};
ghost use Rattle.bt_talk.specs.Blocks.{IsOpenFor, line_bytes, row_of};
ghost use Rattle.bt_talk.specs.Clock.{TicksAll, TicksIf};
ghost use Rattle.bt_centre.specs.Answering.{SaysNamed, SessionEnded, SessionHeard};
ghost use Rattle.bt_centre.specs.Progress.{IsBegun, start_of};
ghost use Rattle.bt_centre.specs.Session.{SessionTo, closing_text, input_status, input_text, status_behind};
ghost use Rattle.bt_centre.specs.Talked.{SaysOrNot};

use crate::SessionHistories;
use crate::begin::add_begin;
use crate::live::{Live, LiveRemains, play_step};
use crate::open::open;
use crate::playing::Playing;
use crate::say::{say_fault, say_restart_fault, say_text};
use bt_book::{Book, RecoverFault, installed_plans_are_good};
use bt_frame::OutOfMemory;
use bt_net::Network;
use bt_outside::{Incoming, Keeper, SinkFault, SourceFault, Talk};
use bt_report::{DONE, OUT_OF_MEMORY, READ_FAILED, STORE_FAILED, unwritten};
use bt_round::Gate;
use bt_script::Sites;
use bt_talk::{Blocks, Clock, Step, add_input_fault, add_ready, answer_text, line_bytes};
use bt_world::{Events, TracedEvents, frames_are_safe};
use std::alloc::Global;
use std::sync::Wait;
use std::thread::Threads;

/// What a session gives back.
#[derive(Drop)]
pub struct SessionEnd<K> {
    /// That of a run; 5 where the input failed and the store lost nothing.
    pub status: u8,
    /// The store, as the session left it.
    pub store: K,
    /// What was asked and answered, for each start of the centre.
    pub histories: SessionHistories,
    /// What happened on the air, from the first on. Clauses read it; at run time there are the installed plans of it.
    pub events: TracedEvents,
}

impl<K> SessionEnd<K> {
    /// The end where nothing was played.
    pub fn unbegun(alloc: Global, status: u8, store: K) -> SessionEnd<K>
        ensures status { result.status ≡ status }
        ensures store { result.store ≡ store }
        ensures histories { result.histories ≡ [] }
        ensures events { result.events.all ≡ [] }
    {
        SessionEnd {
            status,
            store,
            histories: SessionHistories::none(),
            events: TracedEvents::none(alloc),
        }
    }
}

/// Behind how many lines a session ends, so that the rounds that they play can be counted: each of them plays `MOST_LINES` at most.
pub const MOST_HEARD: u64 = 400_000_000_000_000;

/// Why no more lines are heard.
#[derive(Clone, Copy)]
pub enum InputEnd {
    /// The input came to its end, or as many lines were heard as are counted.
    Over,
    /// The input failed.
    Failed,
}

/// Plays what the lines of a talk ask, on a network, from the changes that the store tells, and answers each line before
/// the next is heard. Where the sites are together, the satellite and the terminals are simulated; where they are apart, a line of the
/// bus is heard by the centre. The store keeps each change that is made. A line that asks and changes nothing is told of what there is.
/// Of what was asked and answered no bytes are kept once it is played, but how many edits there were and how they were
/// answered; of a book that a fault of its store has stopped they are kept until the centre restarts. Of what happened on
/// the air the plans that were installed are kept.
///
/// Where a line asks it, each answer says the moment that the clock told.
///
/// The status is that of a run; it is 5 where the input failed and the store lost nothing.
pub fn run_session<
    R: Threads + Wait + Sync,
    G: Gate + Sync,
    T: Talk<K>,
    C: Clock,
    K: Keeper + Send,
>(
    rt: &R,
    alloc: Global,
    net: &Network,
    sites: Sites,
    gate: &G,
    talk: &mut T,
    clock: &mut C,
    store: K,
) -> SessionEnd<K>
    ensures ends { SessionTo net.now sites
        (record {
          coming = T.coming talk.old;
          unheard_before = T.unheard talk.old;
          unheard_after = T.unheard talk.new;
          output = record { before = T.told talk.old; after = T.told talk.new; faults_before = T.fault_count talk.old; faults_after = T.fault_count talk.new };
          turns_before = T.turns talk.old;
          turns_after = T.turns talk.new;
          moments_before = C.coming clock.old;
          moments_after = C.coming clock.new;
          store = record { told = K.told result.store; faults = K.fault_count result.store; crashes = K.crashes result.store };
        })
        (record { before = K.told store; after = K.told result.store; faults_before = K.fault_count store; faults_after = K.fault_count result.store })
        result.status result.histories result.events.all }
{
    frames_are_safe();
    match open(rt, alloc, net, sites, store) {
        Ok(playing) => session_from(rt, alloc, net, sites, gate, Live::new(playing), talk, clock),
        Err((store, fault)) => {
            let status = say_fault(alloc, fault, talk, &store);
            SessionEnd::unbegun(alloc, status, store)
        }
    }
}

/// A session from its first piece on.
fn session_from<R: Threads + Wait + Sync, G: Gate + Sync, T: Talk<K>, C: Clock, K: Keeper + Send>(
    rt: &R,
    alloc: Global,
    net: &Network,
    sites: Sites,
    gate: &G,
    playing: Live<K>,
    talk: &mut T,
    clock: &mut C,
) -> SessionEnd<K>
    requires begun { IsBegun net.now sites playing }
    ensures ended { SessionEnded net.now sites
        (record {
          coming = T.coming talk.old;
          unheard_before = T.unheard talk.old;
          unheard_after = T.unheard talk.new;
          output = record { before = T.told talk.old; after = T.told talk.new; faults_before = T.fault_count talk.old; faults_after = T.fault_count talk.new };
          turns_before = T.turns talk.old;
          turns_after = T.turns talk.new;
          moments_before = C.coming clock.old;
          moments_after = C.coming clock.new;
          store = record { told = K.told result.store; faults = K.fault_count result.store; crashes = K.crashes result.store };
        })
        playing.book (record { told = K.told result.store; faults = K.fault_count result.store; crashes = K.crashes result.store; histories = result.histories; events = result.events.all }) result.status }
{
    installed_plans_are_good();
    match play_lines(rt, alloc, net, sites, gate, playing, talk, clock) {
        Ok((playing, end)) => {
            let remains = playing.stop(rt, alloc);
            let status = say_closing(alloc, end, &remains, talk);
            remains.end(status)
        }
        Err(end) => end,
    }
}

/// Says the first piece of a session, then hears line after line, plays each, and answers it. Gives the run at the end of
/// its input, or the end of the run where it stops before.
fn play_lines<R: Threads + Wait + Sync, G: Gate + Sync, T: Talk<K>, C: Clock, K: Keeper + Send>(
    rt: &R,
    alloc: Global,
    net: &Network,
    sites: Sites,
    gate: &G,
    mut playing: Live<K>,
    talk: &mut T,
    clock: &mut C,
) -> Result<(Live<K>, InputEnd), SessionEnd<K>>
    requires begun { IsBegun net.now sites playing }
    ensures heard { IfOk result (λ on. SessionHeard net.now sites playing.book
        (record {
          coming = T.coming talk.old;
          unheard_before = T.unheard talk.old;
          unheard_after = T.unheard talk.new;
          output = record { before = T.told talk.old; after = T.told talk.new; faults_before = T.fault_count talk.old; faults_after = T.fault_count talk.new };
          turns_before = T.turns talk.old;
          turns_after = T.turns talk.new;
          moments_before = C.coming clock.old;
          moments_after = C.coming clock.new;
          store = record { told = on.0.book.told; faults = on.0.book.faults; crashes = on.0.book.crashes };
        })
        on.0 on.1) }
    ensures ended { IfErr result (λ end. SessionEnded net.now sites
        (record {
          coming = T.coming talk.old;
          unheard_before = T.unheard talk.old;
          unheard_after = T.unheard talk.new;
          output = record { before = T.told talk.old; after = T.told talk.new; faults_before = T.fault_count talk.old; faults_after = T.fault_count talk.new };
          turns_before = T.turns talk.old;
          turns_after = T.turns talk.new;
          moments_before = C.coming clock.old;
          moments_after = C.coming clock.new;
          store = record { told = K.told end.store; faults = K.fault_count end.store; crashes = K.crashes end.store };
        })
        playing.book (record { told = K.told end.store; faults = K.fault_count end.store; crashes = K.crashes end.store; histories = end.histories; events = end.events.all }) end.status) }
    ensures later { T.fault_count talk.old ≤ T.fault_count talk.new }
{
    installed_plans_are_good();
    if let Err(fault) = say_opening(alloc, &playing, talk) {
        return Err(playing.stop(rt, alloc).end(unwritten(fault)));
    }
    let mut opened = Blocks::none(alloc);
    let mut timed = false;
    for at in 1..MOST_HEARD {
        let came = match talk.hear(alloc, line_bytes(sites)) {
            Ok(Some(came)) => came,
            Ok(None) => return Ok((playing, InputEnd::Over)),
            Err(SourceFault::Failed) => return Ok((playing, InputEnd::Failed)),
            Err(SourceFault::OutOfMemory) => return Err(playing.stop(rt, alloc).end(OUT_OF_MEMORY)),
        };
        let taken = match take(
            alloc,
            net,
            sites,
            at,
            &came,
            opened,
            timed,
            playing.book(),
            clock,
        ) {
            Ok(taken) => taken,
            Err(OutOfMemory) => return Err(playing.stop(rt, alloc).end(OUT_OF_MEMORY)),
        };
        let Taken {
            blocks,
            step,
            timed: on,
            told: _,
            answer,
        } = taken;
        match play_step(rt, alloc, net, gate, step, playing) {
            Ok((next, text)) => {
                playing = next;
                opened = blocks;
                timed = on;
                if let Err(fault) = say_both(alloc, text, answer.as_slice(), &playing, talk) {
                    return Err(playing.stop(rt, alloc).end(unwritten(fault)));
                }
            }
            Err((remains, fault)) => {
                let status = say_no_restart(alloc, fault, &remains, talk);
                return Err(remains.end(status));
            }
        }
    }
    Ok((playing, InputEnd::Over))
}

/// What a line comes to, with the blocks that are open behind it, whether answers then say when they are given, what the clock told, where
/// it was asked, and the answer.
#[derive(Drop)]
struct Taken {
    blocks: Blocks,
    step: Step,
    timed: bool,
    told: Option<Vec<u8>>,
    answer: Vec<u8>,
}

/// What line `at` comes to, where the book holds this. Want of memory may have asked the clock.
fn take<C: Clock, K: Keeper>(
    alloc: Global,
    net: &Network,
    sites: Sites,
    at: u64,
    came: &Incoming,
    blocks: Blocks,
    timed: bool,
    book: &Book<K>,
    clock: &mut C,
) -> Result<Taken, OutOfMemory>
    requires terminals { IsOpenFor net.now blocks }
    requires network { book.now.net ≡ net.now }
    requires short { IsShort (line_bytes sites) (Some came.now) }
    ensures row { IfOk result (λ on. (on.blocks, on.step) ≡ row_of net.now sites at blocks book.now.state.changes (said_by came.now)) }
    ensures timed { IfOk result (λ on. on.timed ≡ timed_behind timed on.step) }
    ensures asked { IfOk result (λ on. is_some (option_map (λ told. told.items) on.told) ≡ on.timed) }
    ensures ticks { IfOk result (λ on. TicksIf (C.coming clock.old) (option_map (λ told. told.items) on.told) (C.coming clock.new)) }
    ensures answer { IfOk result (λ on. on.answer.items ≡ answer_of at (said_by came.now) (on.blocks, on.step) (option_map (λ told. told.items) on.told)) }
    ensures terminals { IfOk result (λ on. IsOpenFor net.now on.blocks) }
    ensures part { IfOk result (λ on. IsStepFor net.now on.step) }
    ensures err { OnErr result ((more : List (List ℕ)) × TicksAll (C.coming clock.old) more (C.coming clock.new)) }
{
    match came {
        Incoming::Line(line) => {
            let line = Some(line.as_slice());
            take_text(alloc, net, sites, at, line, blocks, timed, book, clock)
        }
        Incoming::NoLine => take_text(alloc, net, sites, at, None, blocks, timed, book, clock),
    }
}

/// The same of a line, or None where what came is none.
fn take_text<C: Clock, K: Keeper>(
    alloc: Global,
    net: &Network,
    sites: Sites,
    at: u64,
    came: Option<&[u8]>,
    blocks: Blocks,
    timed: bool,
    book: &Book<K>,
    clock: &mut C,
) -> Result<Taken, OutOfMemory>
    requires terminals { IsOpenFor net.now blocks }
    requires network { book.now.net ≡ net.now }
    requires short { IfSome came (λ text. length text.now ≤ line_bytes sites) }
    ensures row { IfOk result (λ on. (on.blocks, on.step) ≡ row_of net.now sites at blocks book.now.state.changes (option_map (λ text. text.now) came.entry)) }
    ensures timed { IfOk result (λ on. on.timed ≡ timed_behind timed on.step) }
    ensures asked { IfOk result (λ on. is_some (option_map (λ told. told.items) on.told) ≡ on.timed) }
    ensures ticks { IfOk result (λ on. TicksIf (C.coming clock.old) (option_map (λ told. told.items) on.told) (C.coming clock.new)) }
    ensures answer { IfOk result (λ on. on.answer.items ≡ answer_of at (option_map (λ text. text.now) came.entry) (on.blocks, on.step) (option_map (λ told. told.items) on.told)) }
    ensures terminals { IfOk result (λ on. IsOpenFor net.now on.blocks) }
    ensures part { IfOk result (λ on. IsStepFor net.now on.step) }
    ensures err { OnErr result ((more : List (List ℕ)) × TicksAll (C.coming clock.old) more (C.coming clock.new)) }
{
    let (blocks, step) = blocks.take(alloc, net, sites, at, book, came)?;
    let timed = timed_behind(timed, &step);
    let told = told_by(alloc, timed, clock)?;
    let moment = match &told {
        Some(told) => Some(told.as_slice()),
        None => None,
    };
    let answer = answer_text(alloc, at, came, &blocks, &step, moment)?;
    Ok(Taken {
        blocks,
        step,
        timed,
        told,
        answer,
    })
}

/// Whether answers say when they are given, behind a line that comes to this.
fn timed_behind(timed: bool, step: &Step) -> bool
    ensures { result ≡ timed_behind timed step.now }
{
    match step {
        Step::Clock(on) => *on,
        _ => timed,
    }
}

/// What the clock tells, where it is asked.
fn told_by<C: Clock>(
    alloc: Global,
    asked: bool,
    clock: &mut C,
) -> Result<Option<Vec<u8>>, OutOfMemory>
    ensures asked { IfOk result (λ told. is_some (option_map (λ told. told.items) told) ≡ asked) }
    ensures ticks { IfOk result (λ told. TicksIf (C.coming clock.old) (option_map (λ told. told.items) told) (C.coming clock.new)) }
    ensures unchanged { OnErr result (C.coming clock.new ≡ C.coming clock.old) }
{
    if asked {
        Ok(Some(clock.moment(alloc)?))
    } else {
        Ok(None)
    }
}

/// Says the first line of a session, and that the first line may come.
fn say_opening<T: Talk<K>, K: Keeper>(
    alloc: Global,
    playing: &Live<K>,
    talk: &mut T,
) -> Result<(), SinkFault>
    ensures ok { OnOk result (T.told talk.new ≡ gained (T.told talk.old) (start_of playing.now ++ ready_line 0)) }
    ensures failed { IsErrOf result SinkFault.Failed → GainsPrefix (T.told talk.old) (start_of playing.now ++ ready_line 0) (T.told talk.new) }
    ensures cause { IsErrOf result SinkFault.Failed → Rose (T.fault_count talk.old) (T.fault_count talk.new) }
    ensures later { T.fault_count talk.old ≤ T.fault_count talk.new }
    ensures turn { OnOk result (T.turns talk.new ≡ took (T.turns talk.old) (said (start_of playing.now ++ ready_line 0)
        (record { told = playing.now.book.told; faults = playing.now.book.faults; crashes = playing.now.book.crashes }))) }
    ensures no_turn { OnErr result (T.turns talk.new ≡ T.turns talk.old) }
    ensures input { T.coming talk.new ≡ T.coming talk.old }
    ensures input_faults { T.unheard talk.new ≡ T.unheard talk.old }
    ensures shows { IsKept playing.now.book.net playing.now.book.told playing.now.book.state.changes (lost_of playing.now.book.history) }
    ensures last { Last playing.now.book.net playing.now.book.state.changes playing.now.book.crashes playing.now.book.crashes }
{
    let store = playing.store();
    match opening_text(alloc, playing) {
        Ok(text) => talk.say(alloc, text.as_slice(), store),
        Err(_) => Err(SinkFault::OutOfMemory),
    }
}

/// The first line of a session, and that the first line may come.
fn opening_text<K: Keeper>(alloc: Global, playing: &Live<K>) -> Result<Vec<u8>, OutOfMemory>
    ensures { IfOk result (λ text. text.items ≡ start_of playing.now ++ ready_line 0) }
{
    begin_text(alloc, &playing.run)
}

// What is said in front of the first line: the start, and that the session is ready.
fn begin_text<K: Keeper>(
    alloc: Global,
    run: &Playing<K, TracedEvents>,
) -> Result<Vec<u8>, OutOfMemory>
    ensures { IfOk result (λ text. text.items ≡ start_of run.now ++ ready_line 0) }
{
    let book = &run.station.book;
    let mut text = Vec::new(alloc);
    let centre = &run.station.centre;
    add_begin(alloc, book, centre.mark(), centre.back(), &mut text)?;
    add_ready(alloc, 0, &mut text)?;
    Ok(text)
}

/// Says a text and its answer behind it, in one piece.
fn say_both<T: Talk<K>, K: Keeper>(
    alloc: Global,
    mut text: Vec<u8>,
    answer: &[u8],
    playing: &Live<K>,
    talk: &mut T,
) -> Result<(), SinkFault>
    ensures ok { OnOk result (T.told talk.new ≡ gained (T.told talk.old) (text.items ++ answer.now)) }
    ensures failed { IsErrOf result SinkFault.Failed → GainsPrefix (T.told talk.old) (text.items ++ answer.now) (T.told talk.new) }
    ensures cause { IsErrOf result SinkFault.Failed → Rose (T.fault_count talk.old) (T.fault_count talk.new) }
    ensures later { T.fault_count talk.old ≤ T.fault_count talk.new }
    ensures turn { OnOk result (T.turns talk.new ≡ took (T.turns talk.old) (said (text.items ++ answer.now)
        (record { told = playing.now.book.told; faults = playing.now.book.faults; crashes = playing.now.book.crashes }))) }
    ensures no_turn { OnErr result (T.turns talk.new ≡ T.turns talk.old) }
    ensures input { T.coming talk.new ≡ T.coming talk.old }
    ensures input_faults { T.unheard talk.new ≡ T.unheard talk.old }
    ensures shows { IsKept playing.now.book.net playing.now.book.told playing.now.book.state.changes (lost_of playing.now.book.history) }
    ensures last { Last playing.now.book.net playing.now.book.state.changes playing.now.book.crashes playing.now.book.crashes }
{
    let store = playing.store();
    if text.extend_from_slice(answer).is_err() {
        return Err(SinkFault::OutOfMemory);
    }
    talk.say(alloc, text.as_slice(), store)
}

/// Says that the recovery at a restart failed, and gives the status to end with.
fn say_no_restart<T: Talk<K>, K: Keeper>(
    alloc: Global,
    fault: RecoverFault,
    remains: &LiveRemains<K>,
    talk: &mut T,
) -> u8
    ensures said { SaysNamed
        (record {
          coming = T.coming talk.old;
          unheard_before = T.unheard talk.old;
          unheard_after = T.unheard talk.new;
          output = record { before = T.told talk.old; after = T.told talk.new; faults_before = T.fault_count talk.old; faults_after = T.fault_count talk.new };
          turns_before = T.turns talk.old;
          turns_after = T.turns talk.new;
          moments_before = None;
          moments_after = None;
          store = record { told = remains.now.told; faults = remains.now.faults; crashes = remains.now.crashes };
        })
        restart_line fault result }
    ensures later { T.fault_count talk.old ≤ T.fault_count talk.new }
{
    say_restart_fault(alloc, fault, talk, remains.store())
}

/// Says the last piece of a session whose input ended so, and gives the status to end with.
fn say_closing<T: Talk<K>, K: Keeper>(
    alloc: Global,
    end: InputEnd,
    remains: &LiveRemains<K>,
    talk: &mut T,
) -> u8
    ensures said { SaysOrNot
        (record {
          coming = T.coming talk.old;
          unheard_before = T.unheard talk.old;
          unheard_after = T.unheard talk.new;
          output = record { before = T.told talk.old; after = T.told talk.new; faults_before = T.fault_count talk.old; faults_after = T.fault_count talk.new };
          turns_before = T.turns talk.old;
          turns_after = T.turns talk.new;
          moments_before = None;
          moments_after = None;
          store = record { told = remains.now.told; faults = remains.now.faults; crashes = remains.now.crashes };
        })
        (closing_text end remains.now.histories) (status_behind end remains.now.histories) result }
    ensures input_faults { T.unheard talk.new ≡ T.unheard talk.old }
{
    match closing_text(alloc, end, remains) {
        Ok(text) => {
            let status = status_behind(end, remains);
            say_text(alloc, text.as_slice(), status, talk, remains.store())
        }
        Err(_) => OUT_OF_MEMORY,
    }
}

/// The last piece of a session whose input ended so.
fn closing_text<K: Keeper>(
    alloc: Global,
    end: InputEnd,
    remains: &LiveRemains<K>,
) -> Result<Vec<u8>, OutOfMemory>
    ensures { IfOk result (λ text. text.items ≡ closing_text end remains.now.histories) }
{
    let mut text = input_text(alloc, end)?;
    remains.add_total(alloc, &mut text)?;
    Ok(text)
}

/// What is said of the end of an input.
fn input_text(alloc: Global, end: InputEnd) -> Result<Vec<u8>, OutOfMemory>
    ensures { IfOk result (λ text. text.items ≡ input_text end) }
{
    let mut text = Vec::new(alloc);
    match end {
        InputEnd::Over => Ok(text),
        InputEnd::Failed => {
            add_input_fault(alloc, &mut text)?;
            Ok(text)
        }
    }
}

/// The status of a session of which this is left, whose input ended so.
fn status_behind<K: Keeper>(end: InputEnd, remains: &LiveRemains<K>) -> u8
    ensures { result ≡ status_behind end remains.now.histories }
{
    if remains.has_lost() {
        STORE_FAILED
    } else {
        input_status(end)
    }
}

fn input_status(end: InputEnd) -> u8
    ensures { result ≡ input_status end }
{
    match end {
        InputEnd::Over => DONE,
        InputEnd::Failed => READ_FAILED,
    }
}
