//! The program: it makes the real files, the input, the output and the store, and hands its words to the top call, or to that
//! of a session.
//!
//! It stands on the real adapters (`bt_outside`, and `bt_base` for the store), on what a program ends
//! with (`bt_report`), on what is said of that (`bt_explain`) and on the top calls (`bt_cli`).
#![tactic(auto)]

mod clock;
mod dash;
mod one_file;
mod pages;

use crate::clock::HostClock;
use bt_base::{FileDisk, LineKeeper};
use bt_cli::{centre_main, journal_of, live_main, live_words};
use bt_explain::{Alarming, Done, KeptFiles, LastLine, Reasons, Session, tell, tell_status};
use bt_outside::{
    Console, DirFiles, Files, Keeper, Sink, StdSink, StdSource, Waiting, take_closed_streams,
};
use bt_report::{
    DONE, OUT_OF_MEMORY, Program, Refusal, WRITE_FAILED, print_text, put_standard_input,
    words_after_name,
};
use std::alloc::{AllocError, Global};
use std::env::Env;
use std::io::{BufRead, BufReader, IsTerminal};
use std::process::ExitCode;
use std::sync::Wait;
use std::thread::Threads;
use std::{rt, time};

fn main(rt: HostRuntime) -> ExitCode {
    // before any file is opened
    if take_closed_streams(&rt).is_err() {
        tell_status(&rt, Program::Nozgurt, WRITE_FAILED);
        return ExitCode::from(WRITE_FAILED);
    }
    let alloc = rt.alloc();
    let mut out = LastLine::new(alloc, StdSink::new(Waiting::new(&rt, rt.stdout())));
    let status = match asked(&rt, alloc) {
        Ok(given) => match pages::page_of(alloc, &given.words) {
            Ok(Some(page)) => print_text(alloc, page.as_slice(), DONE, &mut out),
            Ok(None) => {
                let CommandLine {
                    words,
                    journal,
                    refusal,
                } = given;
                let mut files = KeptFiles::new(alloc, DirFiles::new(&rt));
                let store = LineKeeper::open(FileDisk::new(&rt, journal));
                let mut begun = 0;
                let status = if live_words(&words).is_some() {
                    match BufReader::new(alloc, Waiting::new(&rt, rt.stdin())) {
                        Ok(reader) => {
                            let Talked {
                                status,
                                begun: came,
                                out: said,
                            } = hold_session(
                                &rt,
                                alloc,
                                &words,
                                rt.stderr().is_terminal(),
                                &mut files,
                                reader,
                                out,
                                store,
                            );
                            begun = came;
                            out = said;
                            status
                        }
                        Err(_) => {
                            tell_status(&rt, Program::Nozgurt, OUT_OF_MEMORY);
                            return ExitCode::from(OUT_OF_MEMORY);
                        }
                    }
                } else {
                    centre_main(&rt, alloc, &words, &mut files, &mut out, store).status
                };
                let done = Done {
                    program: Program::Nozgurt,
                    forms: &pages::FORMS,
                    words: &words,
                    line: out.line(),
                    status,
                    refusal: &refusal,
                    begun,
                };
                tell(&rt, alloc, &done, &mut files);
                return ExitCode::from(status);
            }
            Err(_) => OUT_OF_MEMORY,
        },
        Err(_) => OUT_OF_MEMORY,
    };
    tell_status(&rt, Program::Nozgurt, status);
    ExitCode::from(status)
}

/// What is left of a session: its status, how many bytes of a line had come when its input failed, and the output.
struct Talked<O> {
    status: u8,
    begun: usize,
    out: O,
}

/// Holds the session that the words ask for, over a reader and an output. Where it is asked, standard error says why a line is at
/// fault, and why something is refused.
fn hold_session<
    R: Threads + Wait + Sync + Eprint + rt::Files + time::Clock,
    F: Files,
    B: BufRead + Drop,
    O: Sink + Drop,
    K: Keeper + Drop + Send,
>(
    rt: &R,
    alloc: Global,
    words: &[String],
    is_asked: bool,
    files: &mut F,
    reader: B,
    out: O,
    store: K,
) -> Talked<O> {
    let session = Session::of(rt, alloc, words, is_asked);
    let store = Alarming::new(rt, Program::Nozgurt, session.journal(), store);
    let console = Console::new(StdSource::new(reader), out);
    let mut talk = Reasons::new(rt, alloc, Program::Nozgurt, session, console);
    let mut clock = HostClock::new(rt);
    let status = live_main(rt, alloc, words, files, &mut talk, &mut clock, store).status;
    let (heard, out) = talk.into_talk().into_parts();
    let begun = heard.begun();
    Talked { status, begun, out }
}

/// The words of a command line, and what `main` reads off them.
#[derive(Drop)]
struct CommandLine {
    /// The words after the program's name, with standard input in the place of a `-`; none where they are refused, which the
    /// top call answers as it answers words of no command.
    words: Vec<String>,
    /// The file of the journal that they ask for. Any other words have none, which is never opened: the top call hands the
    /// store of such words back untouched.
    journal: String,
    refusal: Option<Refusal>,
}

fn asked<R: Env + rt::Files + Alloc<A = Global>>(
    rt: &R,
    alloc: Global,
) -> Result<CommandLine, AllocError> {
    let mut words = match words_after_name(rt, alloc)? {
        Ok(words) => words,
        Err(refusal) => return Ok(refused(alloc, refusal)),
    };
    let place = dash::place_of_dash(&words);
    put_standard_input(alloc, &mut words, place)?;
    let journal = match live_words(&words) {
        Some((_, journal)) => String::from_str(alloc, journal)?,
        None => String::from_str(alloc, journal_of(&words).unwrap_or(""))?,
    };
    if !journal.is_empty()
        && let Some(refusal) = one_file::shared_file(rt, alloc, &words)?
    {
        return Ok(refused(alloc, refusal));
    }
    Ok(CommandLine {
        words,
        journal,
        refusal: None,
    })
}

/// Nothing is asked for.
fn refused(alloc: Global, refusal: Refusal) -> CommandLine {
    CommandLine {
        words: Vec::new(alloc),
        journal: String::new(alloc),
        refusal: Some(refusal),
    }
}
