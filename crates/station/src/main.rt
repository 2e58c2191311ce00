//! The program of a site: it makes the real files, the input and the output, and hands its words to the top call.
//!
//! It stands on the real adapters (`bt_outside`), on what a program ends with (`bt_report`), on what is said of that
//! (`bt_explain`) and on the top call (`bt_station`). A site keeps nothing, so that its store is an empty one in memory.
#![tactic(auto)]

mod pages;

use bt_base::SureKeeper;
use bt_explain::{Done, KeptFiles, LastLine, tell, tell_status};
use bt_outside::{
    Console, DirFiles, Files, Keeper, Sink, StdSink, StdSource, Waiting, take_closed_streams,
};
use bt_report::{
    DONE, OUT_OF_MEMORY, Program, Refusal, WRITE_FAILED, print_text, words_after_name,
};
use bt_station::station_main;
use std::alloc::{AllocError, Global};
use std::env::Env;
use std::io::{BufRead, BufReader};
use std::process::ExitCode;

fn main(rt: HostRuntime) -> ExitCode {
    // before any file is opened
    if take_closed_streams(&rt).is_err() {
        tell_status(&rt, Program::Station, WRITE_FAILED);
        return ExitCode::from(WRITE_FAILED);
    }
    let alloc = rt.alloc();
    let mut out = LastLine::new(alloc, StdSink::new(Waiting::new(&rt, rt.stdout())));
    let status = match asked(&rt, alloc) {
        Ok((words, refusal)) => match pages::page_of(alloc, &words) {
            Ok(Some(page)) => print_text(alloc, page.as_slice(), DONE, &mut out),
            Ok(None) => {
                let mut files = KeptFiles::new(alloc, DirFiles::new(&rt));
                match BufReader::new(alloc, Waiting::new(&rt, rt.stdin())) {
                    Ok(reader) => {
                        let store = SureKeeper::new(Vec::new(alloc));
                        let Talked { status, begun, out } = hold_talk(
                            alloc, &words, &mut files, reader, out, &store,
                        );
                        let done = Done {
                            program: Program::Station,
                            forms: &pages::FORMS,
                            words: &words,
                            line: out.line(),
                            status,
                            refusal: &refusal,
                            begun,
                        };
                        tell(&rt, alloc, &done, &mut files);
                        return ExitCode::from(status);
                    }
                    Err(_) => OUT_OF_MEMORY,
                }
            }
            Err(_) => OUT_OF_MEMORY,
        },
        Err(_) => OUT_OF_MEMORY,
    };
    tell_status(&rt, Program::Station, status);
    ExitCode::from(status)
}

/// What is left of a talk: its status, how many bytes of a line had come when its input failed, and the output.
struct Talked<O> {
    status: u8,
    begun: usize,
    out: O,
}

/// Is the site that the words ask for, over a reader and an output.
fn hold_talk<F: Files, B: BufRead + Drop, O: Sink + Drop, K: Keeper>(
    alloc: Global,
    words: &[String],
    files: &mut F,
    reader: B,
    out: O,
    store: &K,
) -> Talked<O> {
    let mut talk = Console::new(StdSource::new(reader), out);
    let status = station_main(alloc, words, files, &mut talk, store);
    let (heard, out) = talk.into_parts();
    let begun = heard.begun();
    Talked { status, begun, out }
}

/// The words after the program's name; none where they are refused.
fn asked<R: Env + Alloc<A = Global>>(
    rt: &R,
    alloc: Global,
) -> Result<(Vec<String>, Option<Refusal>), AllocError> {
    match words_after_name(rt, alloc)? {
        Ok(words) => Ok((words, None)),
        Err(refusal) => Ok((Vec::new(alloc), Some(refusal))),
    }
}
