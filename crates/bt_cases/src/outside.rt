// Commands, and the outside that they meet.
ghost use Rattle.std.specs.Prelude.{◌≡◌, IfOk, Some, map};
ghost use Rattle.std.specs.String.{string_bytes};
ghost use Rattle.bt_cli.specs.Request.{first_word};

use crate::ending::Ending;
use bt_base::{Fail, Files, MemFiles, MemKeeper, MemSink, Sink, SureKeeper, SureSink};
use bt_cli::{
    History, centre_main, check_command, live_main, make_command, modes_command, plan_command,
    replay_command, timing_command, trans_command,
};
use bt_outside::{Console, MemSource};
use bt_report::WRITE_FAILED;
use bt_sheet::{CaseFault, Part, Result, Shelf, number_of, owned_words};
use bt_talk::MemClock;
use std::alloc::Global;
use std::sync::Wait;
use std::thread::Threads;

/// The most runs of a command whose writes fail in turn.
const MOST_WRITES: u32 = 1000;

/// What the next command meets, and what becomes of its text.
#[derive(Drop)]
pub struct Meeting {
    /// The lines that a session hears, and how many of them it is given before its input fails.
    pub input: Vec<u8>,
    pub heard: u64,
    /// The moments that the clock of a session tells.
    pub moments: Vec<Vec<u8>>,
    /// The reads, the writes and the calls on the store that fail.
    pub reads: Vec<Fail>,
    pub writes: Vec<Fail>,
    pub keeps: Vec<Fail>,
    /// Files, an output and a store that do not fail at all.
    pub is_sure: bool,
    /// The store as it is, where the command is a run; else a run begins with an empty one.
    pub goes_on: bool,
    /// The command's own call in place of the top call.
    pub is_alone: bool,
    /// The lines that are shown.
    pub part: Part,
    /// The file that the text becomes in place of being shown.
    pub into: Option<String>,
    /// The file of which each beginning is tried.
    pub beginnings: Option<String>,
    /// How many bytes a write takes that fails, where each write is to fail in its turn.
    pub each_write: Option<u32>,
}

impl Meeting {
    /// Nothing fails, and the whole text is shown.
    pub fn plain(alloc: Global) -> Meeting {
        Meeting {
            input: Vec::new(alloc),
            heard: u64::MAX,
            moments: Vec::new(alloc),
            reads: Vec::new(alloc),
            writes: Vec::new(alloc),
            keeps: Vec::new(alloc),
            is_sure: false,
            goes_on: false,
            is_alone: false,
            part: Part::All,
            into: None,
            beginnings: None,
            each_write: None,
        }
    }
}

/// Sets up what the next command meets; false where the words are another line.
pub fn set_meeting(alloc: Global, next: &mut Meeting, words: &[&str]) -> Result<bool> {
    if set_flag(next, words) || set_fail(next, words)? {
        return Ok(true);
    }
    set_part(alloc, next, words)
}

fn set_fail(next: &mut Meeting, words: &[&str]) -> Result<bool> {
    match *words {
        ["fail", "read", call] => add_fail(&mut next.reads, call, "0"),
        ["fail", "input", call] => {
            next.heard = u64::from(number_of(call)?);
            Ok(true)
        }
        ["fail", what, call, kept] => set_kept_fail(next, what, call, kept),
        _ => Ok(false),
    }
}

/// A call that fails keeps a first part of its piece.
fn set_kept_fail(next: &mut Meeting, what: &str, call: &str, kept: &str) -> Result<bool> {
    match what {
        "write" => add_fail(&mut next.writes, call, kept),
        "store" => add_fail(&mut next.keeps, call, kept),
        _ => Ok(false),
    }
}

fn add_fail(fails: &mut Vec<Fail>, call: &str, kept: &str) -> Result<bool> {
    let fail = Fail {
        call: number_of(call)?,
        kept: number_of(kept)?,
    };
    fails.push(fail)?;
    Ok(true)
}

fn set_flag(next: &mut Meeting, words: &[&str]) -> bool {
    match words {
        ["sure"] => next.is_sure = true,
        ["goes", "on"] => next.goes_on = true,
        ["alone"] => next.is_alone = true,
        _ => return false,
    }
    true
}

fn set_part(alloc: Global, next: &mut Meeting, words: &[&str]) -> Result<bool> {
    match *words {
        ["first", count] => next.part = Part::First(number_of(count)? as usize),
        ["last", count] => next.part = Part::Last(number_of(count)? as usize),
        ["each", "write", kept] => next.each_write = Some(number_of(kept)?),
        [what, name] => return set_name(alloc, next, what, name),
        _ => return Ok(false),
    }
    Ok(true)
}

fn set_name(alloc: Global, next: &mut Meeting, what: &str, name: &str) -> Result<bool> {
    match what {
        "into" => set_to(alloc, &mut next.into, name),
        "beginnings" => set_to(alloc, &mut next.beginnings, name),
        "clock" => {
            next.moments.push(name.as_bytes().to_vec(alloc)?)?;
            Ok(true)
        }
        _ => Ok(false),
    }
}

fn set_to(alloc: Global, set: &mut Option<String>, name: &str) -> Result<bool> {
    *set = Some(String::from_str(alloc, name)?);
    Ok(true)
}

/// What the next command meets, and what the last one left.
#[derive(Drop)]
pub struct Outside {
    pub next: Meeting,
    pub store: Vec<u8>,
    /// Of each history of a run how many changes stood before it, and how many entries it has.
    histories: Vec<(u32, usize)>,
}

impl Outside {
    /// An empty store, and no command yet.
    pub fn new(alloc: Global) -> Outside {
        Outside {
            next: Meeting::plain(alloc),
            store: Vec::new(alloc),
            histories: Vec::new(alloc),
        }
    }

    /// Runs a command, and appends what it writes and its status.
    pub fn run<R: Threads + Wait + Sync>(
        &mut self,
        rt: &R,
        alloc: Global,
        shelf: &mut Shelf,
        words: &[&str],
        out: &mut String,
    ) -> Result<()> {
        let run = match (self.next.beginnings.take(), self.next.each_write) {
            (Some(name), _) => self.run_beginnings(rt, alloc, shelf, name.as_str(), words, out),
            (None, Some(kept)) => self.run_writes(rt, alloc, shelf, kept, words, out),
            (None, None) => self.run_whole(rt, alloc, shelf, words, out),
        };
        self.forget_next(alloc);
        run
    }

    /// The next command meets nothing that fails.
    fn forget_next(&mut self, alloc: Global) {
        self.next = Meeting::plain(alloc);
    }

    /// The store has these bytes, and the next command goes on with it; true, as for each line that is taken.
    pub fn set_store(&mut self, alloc: Global, bytes: &[u8]) -> Result<bool> {
        self.store = bytes.to_vec(alloc)?;
        self.next.goes_on = true;
        Ok(true)
    }

    /// The next session hears the lines of these bytes; true, as for each line that is taken.
    pub fn set_input(&mut self, alloc: Global, bytes: &[u8]) -> Result<bool> {
        self.next.input = bytes.to_vec(alloc)?;
        Ok(true)
    }

    /// Runs a command with the files as they are, and appends what it writes and its status.
    fn run_whole<R: Threads + Wait + Sync>(
        &mut self,
        rt: &R,
        alloc: Global,
        shelf: &mut Shelf,
        words: &[&str],
        out: &mut String,
    ) -> Result<()> {
        let ending = self.end_of(rt, alloc, shelf, words)?;
        self.put(alloc, shelf, ending, out)
    }

    /// Appends how a command ended, its text unless that becomes a file.
    fn put(
        &mut self,
        alloc: Global,
        shelf: &mut Shelf,
        ending: Ending,
        out: &mut String,
    ) -> Result<()> {
        match self.next.into.take() {
            None => ending.put(alloc, self.next.part, out),
            Some(name) => {
                ending.put_status(out)?;
                shelf.begin(alloc, name.as_str(), ending.written)
            }
        }
    }

    /// Runs a command with each beginning of a file, from the shortest, and appends each answer that is not as the
    /// one before.
    fn run_beginnings<R: Threads + Wait + Sync>(
        &mut self,
        rt: &R,
        alloc: Global,
        shelf: &Shelf,
        name: &str,
        words: &[&str],
        out: &mut String,
    ) -> Result<()> {
        let whole = shelf.text(name)?.len();
        let mut before = String::new(alloc);
        for length in 0..whole {
            let answer = self.answer_of(rt, alloc, shelf, name, length, words);
            put_other(answer, &mut before, out)?;
        }
        Ok(())
    }

    /// Runs a command again and again, with one write failing in each run, the first, then the second and so on, until a
    /// run has no such write. Appends what each run wrote beyond the one before, and its status.
    fn run_writes<R: Threads + Wait + Sync>(
        &mut self,
        rt: &R,
        alloc: Global,
        shelf: &Shelf,
        kept: u32,
        words: &[&str],
        out: &mut String,
    ) -> Result<()> {
        let mut before = Vec::new(alloc);
        for call in 0..MOST_WRITES {
            self.fail_one_write(Fail { call, kept })?;
            let ending = self.end_of(rt, alloc, shelf, words);
            if Ending::put_beyond(ending, alloc, &mut before, out)? != WRITE_FAILED {
                return Ok(());
            }
        }
        Err(CaseFault("more writes than are tried"))
    }

    /// Of the writes of the next command that one fails, and no other.
    fn fail_one_write(&mut self, fail: Fail) -> Result<()> {
        self.next.writes.clear();
        Ok(self.next.writes.push(fail)?)
    }

    /// What a command writes with a beginning of a file, and its status, as they are shown.
    fn answer_of<R: Threads + Wait + Sync>(
        &mut self,
        rt: &R,
        alloc: Global,
        shelf: &Shelf,
        name: &str,
        length: usize,
        words: &[&str],
    ) -> Result<String> {
        let cut = shelf.cut(alloc, name, length)?;
        let ending = self.end_of(rt, alloc, &cut, words);
        Ending::shown(ending, alloc, self.next.part)
    }

    /// What a command writes, and its status.
    fn end_of<R: Threads + Wait + Sync>(
        &mut self,
        rt: &R,
        alloc: Global,
        shelf: &Shelf,
        words: &[&str],
    ) -> Result<Ending> {
        if matches!(words, ["run" | "live" | "centre", ..]) && !self.next.goes_on {
            self.store.clear();
        }
        if matches!(words, ["live" | "centre", ..]) {
            self.session_end_of(rt, alloc, shelf, words)
        } else if self.next.is_sure {
            self.sure_end_of(rt, alloc, shelf, words)
        } else {
            self.met_end_of(rt, alloc, shelf, words)
        }
    }

    /// What a command writes whose files and output do not fail, and its status.
    fn sure_end_of<R: Threads + Wait + Sync>(
        &mut self,
        rt: &R,
        alloc: Global,
        shelf: &Shelf,
        words: &[&str],
    ) -> Result<Ending> {
        let mut files = shelf.sure()?;
        let mut sink = SureSink::new(alloc);
        let status = self.status_of(rt, alloc, &mut files, &mut sink, words);
        Ending::of(alloc, sink.written(), status)
    }

    /// What a command writes whose files and output may fail, and its status.
    fn met_end_of<R: Threads + Wait + Sync>(
        &mut self,
        rt: &R,
        alloc: Global,
        shelf: &Shelf,
        words: &[&str],
    ) -> Result<Ending> {
        let mut files = shelf.failing(self.next.reads.clone()?)?;
        self.met_end_over(rt, alloc, &mut files, words)
    }

    /// What a command writes over these files whose output may fail, and its status.
    fn met_end_over<R: Threads + Wait + Sync>(
        &mut self,
        rt: &R,
        alloc: Global,
        files: &mut MemFiles,
        words: &[&str],
    ) -> Result<Ending> {
        let mut sink = MemSink::new(alloc, self.next.writes.clone()?);
        let status = self.status_of(rt, alloc, files, &mut sink, words);
        Ending::of(alloc, sink.written(), status)
    }

    /// What a session says whose input, files and output may fail, and its status.
    fn session_end_of<R: Threads + Wait + Sync>(
        &mut self,
        rt: &R,
        alloc: Global,
        shelf: &Shelf,
        words: &[&str],
    ) -> Result<Ending> {
        let mut files = shelf.failing(self.next.reads.clone()?)?;
        let source = MemSource::new(self.next.input.clone()?, self.next.heard);
        let sink = MemSink::new(alloc, self.next.writes.clone()?);
        let mut talk = Console::new(source, sink);
        let mut clock = MemClock::new(self.next.moments.clone()?);
        let owned = owned_words(alloc, words)?;
        let store = self.met_store()?;
        let ended = live_main(rt, alloc, &owned, &mut files, &mut talk, &mut clock, store);
        // those of a session have no bytes
        self.histories.clear();
        let status = self.keep_store(alloc, ended.store.kept(), ended.status);
        let (_, sink) = talk.into_parts();
        Ending::of(alloc, sink.written(), status)
    }

    fn status_of<R: Threads + Wait + Sync, F: Files, O: Sink>(
        &mut self,
        rt: &R,
        alloc: Global,
        files: &mut F,
        sink: &mut O,
        words: &[&str],
    ) -> Result<u8> {
        match *words {
            _ if !self.next.is_alone => self.status_from_top(rt, alloc, files, sink, words),
            ["replay", net, journal] => self.replay_alone(alloc, files, sink, net, journal),
            _ => status_alone(alloc, files, sink, words),
        }
    }

    /// The status of the top call.
    fn status_from_top<R: Threads + Wait + Sync, F: Files, O: Sink>(
        &mut self,
        rt: &R,
        alloc: Global,
        files: &mut F,
        sink: &mut O,
        words: &[&str],
    ) -> Result<u8> {
        let owned = owned_words(alloc, words)?;
        if self.next.is_sure {
            self.status_with_sure(rt, alloc, files, sink, &owned)
        } else {
            self.status_with_met(rt, alloc, files, sink, &owned)
        }
    }

    fn status_with_sure<R: Threads + Wait + Sync, F: Files, O: Sink>(
        &mut self,
        rt: &R,
        alloc: Global,
        files: &mut F,
        sink: &mut O,
        words: &[String],
    ) -> Result<u8> {
        let store = SureKeeper::new(self.store.clone()?);
        let ended = centre_main(rt, alloc, words, files, sink, store);
        let histories = ended.histories.as_slice();
        self.keep_left(alloc, ended.store.kept(), histories, ended.status)
    }

    fn status_with_met<R: Threads + Wait + Sync, F: Files, O: Sink>(
        &mut self,
        rt: &R,
        alloc: Global,
        files: &mut F,
        sink: &mut O,
        words: &[String],
    ) -> Result<u8> {
        let store = self.met_store()?;
        let ended = centre_main(rt, alloc, words, files, sink, store);
        let histories = ended.histories.as_slice();
        self.keep_left(alloc, ended.store.kept(), histories, ended.status)
    }

    /// The store as the next command meets it.
    pub fn met_store(&self) -> Result<MemKeeper> {
        let kept = self.store.clone()?;
        let fails = self.next.keeps.clone()?;
        Ok(MemKeeper::new(kept, fails))
    }

    /// Keeps the store's bytes and what is told of the histories, and gives the status.
    fn keep_left(
        &mut self,
        alloc: Global,
        kept: &[u8],
        histories: &[History],
        status: u8,
    ) -> Result<u8> {
        self.keep_histories(histories)?;
        self.keep_store(alloc, kept, status)
    }

    /// Keeps the store's bytes, and gives the status.
    fn keep_store(&mut self, alloc: Global, kept: &[u8], status: u8) -> Result<u8> {
        self.store = kept.to_vec(alloc)?;
        Ok(status)
    }

    /// The status of the call that replays the store.
    fn replay_alone<F: Files, O: Sink>(
        &mut self,
        alloc: Global,
        files: &mut F,
        sink: &mut O,
        net: &str,
        journal: &str,
    ) -> Result<u8> {
        let words = words_of(alloc, "replay", net, journal)?;
        let store = self.met_store()?;
        let (status, left) = replay_command(alloc, &words, files, sink, store);
        self.keep_store(alloc, left.kept(), status)
    }

    /// Keeps of each history how many changes stood before it, and how many entries it has.
    fn keep_histories(&mut self, histories: &[History]) -> Result<()> {
        self.histories.clear();
        for history in histories {
            self.histories
                .push((history.before, history.entries.as_slice().len()))?;
        }
        Ok(())
    }

    /// Appends a line for each history of the last command.
    pub fn put_histories(&self, out: &mut String) -> Result<()> {
        for (before, entries) in &self.histories {
            write!(out, ">before {before} entries {entries}\n")?;
        }
        Ok(())
    }
}

/// Appends an answer unless it is as the one before, whose place it takes.
fn put_other(answer: Result<String>, before: &mut String, out: &mut String) -> Result<()> {
    let answer = answer?;
    if answer != *before {
        out.push_str(answer.as_str())?;
        *before = answer;
    }
    Ok(())
}

/// The status of the call that does the command alone.
fn status_alone<F: Files, O: Sink>(
    alloc: Global,
    files: &mut F,
    sink: &mut O,
    words: &[&str],
) -> Result<u8> {
    match *words {
        ["check", first, second] => check_alone(alloc, files, sink, first, second),
        ["modes", first] => modes_alone(alloc, files, sink, first),
        ["trans", first, second] => trans_alone(alloc, files, sink, first, second),
        ["plan", first, second] => plan_alone(alloc, files, sink, first, second),
        ["make", first, second] => make_alone(alloc, sink, first, second),
        ["timing", net, traffic, plan, delays] => {
            timing_alone(alloc, files, sink, [net, traffic, plan, delays])
        }
        _ => Err(CaseFault("no command with a call of its own")),
    }
}

fn check_alone<F: Files, O: Sink>(
    alloc: Global,
    files: &mut F,
    sink: &mut O,
    first: &str,
    second: &str,
) -> Result<u8> {
    let words = words_of(alloc, "check", first, second)?;
    Ok(check_command(alloc, &words, files, sink))
}

fn modes_alone<F: Files, O: Sink>(
    alloc: Global,
    files: &mut F,
    sink: &mut O,
    name: &str,
) -> Result<u8> {
    let words = vec![in alloc;
        String::from_str(alloc, "modes")?,
        String::from_str(alloc, name)?,
    ]?;
    Ok(modes_command(alloc, &words, files, sink))
}

fn trans_alone<F: Files, O: Sink>(
    alloc: Global,
    files: &mut F,
    sink: &mut O,
    count: &str,
    name: &str,
) -> Result<u8> {
    let words = words_of(alloc, "trans", count, name)?;
    Ok(trans_command(alloc, &words, files, sink))
}

fn plan_alone<F: Files, O: Sink>(
    alloc: Global,
    files: &mut F,
    sink: &mut O,
    first: &str,
    second: &str,
) -> Result<u8> {
    let words = words_of(alloc, "plan", first, second)?;
    Ok(plan_command(alloc, &words, files, sink))
}

fn make_alone<O: Sink>(alloc: Global, sink: &mut O, beams: &str, seed: &str) -> Result<u8> {
    let words = words_of(alloc, "make", beams, seed)?;
    let made = make_command(alloc, &words, sink);
    if made.plan.is_some() != (made.status == 0) {
        return Err(CaseFault("a plan where the status is not 0, or none where it is"));
    }
    Ok(made.status)
}

fn timing_alone<F: Files, O: Sink>(
    alloc: Global,
    files: &mut F,
    sink: &mut O,
    names: [&str; 4],
) -> Result<u8> {
    let [net, traffic, plan, delays] = names;
    let words = vec![in alloc;
        String::from_str(alloc, "timing")?,
        String::from_str(alloc, net)?,
        String::from_str(alloc, traffic)?,
        String::from_str(alloc, plan)?,
        String::from_str(alloc, delays)?,
    ]?;
    Ok(timing_command(alloc, &words, files, sink))
}

/// The words of a command with two names.
fn words_of(alloc: Global, command: &str, first: &str, second: &str) -> Result<Vec<String>>
    ensures { IfOk result (λ words. first_word (map string_bytes words.items) ≡ Some command.now) }
{
    let words = vec![in alloc;
        String::from_str(alloc, command)?,
        String::from_str(alloc, first)?,
        String::from_str(alloc, second)?,
    ]?;
    Ok(words)
}
