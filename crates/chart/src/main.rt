//! The program that draws: it makes the real files and the output, and hands its words to the top call.
//!
//! It stands on the real adapters (`bt_outside`), on what a program ends with (`bt_report`), on what is said of that
//! (`bt_explain`) and on the top call (`bt_chart`).
#![tactic(auto)]

mod pages;

use bt_chart::chart_main;
use bt_explain::{Done, KeptFiles, LastLine, tell, tell_status};
use bt_outside::{DirFiles, StdSink, Waiting, take_closed_streams};
use bt_report::{
    DONE, OUT_OF_MEMORY, Program, Refusal, WRITE_FAILED, print_text, put_standard_input,
    words_after_name,
};
use std::alloc::{AllocError, Global};
use std::env::Env;
use std::process::ExitCode;

/// The place of the file that may be standard input, among the words, and that of the answers behind a journal.
const FILE: usize = 2;

const ANSWERS: usize = 3;

fn main(rt: HostRuntime) -> ExitCode {
    // before any file is opened
    if take_closed_streams(&rt).is_err() {
        tell_status(&rt, Program::Chart, WRITE_FAILED);
        return ExitCode::from(WRITE_FAILED);
    }
    let alloc = rt.alloc();
    let mut out = LastLine::new(alloc, StdSink::new(Waiting::new(&rt, rt.stdout())));
    let status = match asked(&rt, alloc) {
        Ok((words, refusal)) => match pages::page_of(alloc, &words) {
            Ok(Some(page)) => print_text(alloc, page.as_slice(), DONE, &mut out),
            Ok(None) => {
                let mut files = KeptFiles::new(alloc, DirFiles::new(&rt));
                let status = chart_main(alloc, &words, &mut files, &mut out);
                let done = Done {
                    program: Program::Chart,
                    forms: &pages::FORMS,
                    words: &words,
                    line: out.line(),
                    status,
                    refusal: &refusal,
                    begun: 0,
                };
                tell(&rt, alloc, &done, &mut files);
                return ExitCode::from(status);
            }
            Err(_) => OUT_OF_MEMORY,
        },
        Err(_) => OUT_OF_MEMORY,
    };
    tell_status(&rt, Program::Chart, status);
    ExitCode::from(status)
}

/// The words after the program's name, with standard input in the place of a `-` as the second file, or as the answers of a page;
/// none where they are refused.
fn asked<R: Env + Alloc<A = Global>>(
    rt: &R,
    alloc: Global,
) -> Result<(Vec<String>, Option<Refusal>), AllocError> {
    match words_after_name(rt, alloc)? {
        Ok(mut words) => {
            put_standard_input(alloc, &mut words, FILE)?;
            if is_of_a_page(&words) {
                put_standard_input(alloc, &mut words, ANSWERS)?;
            }
            Ok((words, None))
        }
        Err(refusal) => Ok((Vec::new(alloc), Some(refusal))),
    }
}

/// The words ask for a page.
fn is_of_a_page(words: &[String]) -> bool {
    matches!(words, [command, ..] if command.as_str() == "page")
}
