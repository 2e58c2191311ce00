//! Plays the cases in the files that the words name, and prints how many there were.
//!
//! A case is a line of such a file that is answered; the lines below it that begin with `>` or `=` are the answer that
//! it must get. Where one gets another answer, it is printed with that answer, and the program fails. `docs/cases.md`
//! has the lines of such a file.
//!
//! The crate stands on the top call and on the outside in memory; the lines of texts and of schedules are those of
//! `bt_text_cases`, those of messages and machines of `bt_machine_cases`. It promises nothing beyond that each step is safe,
//! and has no `specs/`.
#![tactic(auto)]

mod ending;
mod outside;
mod pieces;
mod stage;

use bt_sheet::{Result, Sheet, Tally};
use stage::Stage;
use std::alloc::Global;
use std::sync::Wait;
use std::thread::Threads;
use std::{env, fs, rt};

fn main(rt: HostRuntime) -> Result<()> {
    let alloc = rt.alloc();
    let names: Vec<String> = env::args(&rt)?.skip(1).collect(alloc)?;
    let mut tally = Tally::none(alloc);
    for name in &names {
        play_file(&rt, alloc, name.as_str(), &mut tally)?;
    }
    print_tally(&rt, &tally)
}

/// Plays the cases of a file. Where a line of it can't be taken, names the file and the line on standard error.
fn play_file<R: Alloc + rt::Files + Eprint + Threads + Wait + Sync>(
    rt: &R,
    alloc: Global,
    name: &str,
    tally: &mut Tally,
) -> Result<()> {
    let mut sheet = Sheet::new(alloc, name, tally)?;
    let played = play(rt, alloc, name, &mut sheet, tally);
    if played.is_err() {
        // where standard error cannot be written either, the status alone tells
        let _told = eprintln!(rt; "{name}: {}", sheet.line());
    }
    played
}

/// Plays the cases of a file on a stage of its own.
fn play<R: Alloc + rt::Files + Threads + Wait + Sync>(
    rt: &R,
    alloc: Global,
    name: &str,
    sheet: &mut Sheet,
    tally: &mut Tally,
) -> Result<()> {
    let text = fs::read_to_string(rt, name)?;
    let mut stage = Stage::new(alloc);
    play_lines(rt, alloc, text.as_str(), &mut stage, sheet, tally)
}

/// Plays the cases of a text on a stage, line by line.
fn play_lines<R: Threads + Wait + Sync>(
    rt: &R,
    alloc: Global,
    text: &str,
    stage: &mut Stage,
    sheet: &mut Sheet,
    tally: &mut Tally,
) -> Result<()> {
    let mut came = String::new(alloc);
    for line in text.lines() {
        if sheet.meets(alloc, line, &mut came, tally)? {
            stage.take(rt, alloc, line, &mut came)?;
        }
    }
    sheet.end(alloc, &mut came, tally)
}

/// Prints the cases that got another answer and, where all is well, how many cases there were.
fn print_tally<R: Print>(rt: &R, tally: &Tally) -> Result<()> {
    let (cases, others) = (tally.cases(), tally.others());
    print!(rt; "{others}")?;
    tally.see_all_well()?;
    println!(rt; "{cases} cases")?;
    Ok(())
}
