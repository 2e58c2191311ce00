// What each status means: the one table that the pages and standard error quote.
use crate::status::{
    DONE, FAULTY_JOURNAL, FAULTY_TEXT, FAULTY_WORDS, NO_NETWORK, NOT_GOOD, OUT_OF_MEMORY,
    READ_FAILED, STORE_FAILED, TOO_LONG, WRITE_FAILED,
};
use bt_frame::OutOfMemory;
use std::alloc::Global;
use std::fmt;

/// The programs, each of which ends with some of the statuses.
#[derive(Clone, Copy, PartialEq, Eq)]
pub enum Program {
    /// The control centre.
    Nozgurt,
    /// The program that draws.
    Chart,
    /// The program that is a site.
    Station,
}

/// Whose meaning a row is.
#[derive(Clone, Copy)]
enum Whose {
    /// That of each program.
    Each,
    /// That of the centre and of the program that draws, which read texts.
    Readers,
    /// That of this program alone.
    Only(Program),
}

/// A row of the table.
#[derive(Clone, Copy)]
struct Meaning {
    status: u8,
    of: Whose,
    /// When the program ends so.
    when: &'static str,
    /// What is the last line on the output then, where the status says which.
    line: &'static str,
}

const EACH: Whose = Whose::Each;

const READERS: Whose = Whose::Readers;

const NOZGURT: Whose = Whose::Only(Program::Nozgurt);

const CHART: Whose = Whose::Only(Program::Chart);

const STATION: Whose = Whose::Only(Program::Station);

/// The table: a row for each status and each of its causes.
#[rattlefmt::skip]
const MEANINGS: [Meaning; 24] = [
    Meaning { status: DONE,           of: NOZGURT, when: "done",                                 line: "" },
    Meaning { status: DONE,           of: CHART,   when: "the picture or the page was made",     line: "" },
    Meaning { status: DONE,           of: STATION, when: "the input came to its end",            line: "" },
    Meaning { status: OUT_OF_MEMORY,  of: EACH,    when: "memory ran out",                       line: "" },
    Meaning { status: FAULTY_WORDS,   of: EACH,    when: "the words are none of a command",      line: "fault words" },
    Meaning { status: FAULTY_WORDS,   of: NOZGURT, when: "a journal lacks the edition or plan",  line: "fault words" },
    Meaning { status: FAULTY_WORDS,   of: CHART,   when: "a NAME is that of no terminal",        line: "fault words" },
    Meaning { status: FAULTY_WORDS,   of: CHART,   when: "SECONDS are none",                     line: "fault words" },
    Meaning { status: FAULTY_WORDS,   of: STATION, when: "MARK or NAME stands for nothing",      line: "fault words" },
    Meaning { status: NO_NETWORK,     of: NOZGURT, when: "a network file is no network",         line: "fault CODE PLACE" },
    Meaning { status: NO_NETWORK,     of: CHART,   when: "the network file is no network",       line: "fault CODE PLACE" },
    Meaning { status: NO_NETWORK,     of: STATION, when: "the network file is no network",       line: "fault CODE PLACE" },
    Meaning { status: FAULTY_TEXT,    of: READERS, when: "a file leaves its text's grammar",     line: "fault CODE LINE" },
    Meaning { status: FAULTY_TEXT,    of: NOZGURT, when: "the transponders do not suit a size",  line: "fault X3" },
    Meaning { status: FAULTY_TEXT,    of: NOZGURT, when: "the traffic does not fit the frame",   line: "fault T6 row BEAM SUM" },
    Meaning { status: READ_FAILED,    of: EACH,    when: "a file could not be read",             line: "fault read NAME" },
    Meaning { status: READ_FAILED,    of: STATION, when: "the input failed",                     line: "fault input" },
    Meaning { status: WRITE_FAILED,   of: EACH,    when: "the output could not be written",      line: "" },
    Meaning { status: STORE_FAILED,   of: NOZGURT, when: "the journal failed",                   line: "fault store, or the whole run" },
    Meaning { status: FAULTY_JOURNAL, of: READERS, when: "a line of the journal is wrong",       line: "fault CODE LINE" },
    Meaning { status: NOT_GOOD,       of: NOZGURT, when: "check, timing: it is not good",        line: "the verdict's line" },
    Meaning { status: TOO_LONG,       of: EACH,    when: "a file is over 4,194,304 bytes long",  line: "fault too long NAME" },
    Meaning { status: TOO_LONG,       of: NOZGURT, when: "the journal is over 67,108,864",       line: "fault too long store, or NAME" },
    Meaning { status: TOO_LONG,       of: CHART,   when: "the journal is over 67,108,864",       line: "fault too long NAME" },
];

/// Where to look, by the status; nothing where the work was done, or the verdict says all.
fn hint_of(status: u8) -> Option<&'static str> {
    match status {
        OUT_OF_MEMORY => Some("what stands on the output may be only a first part"),
        FAULTY_WORDS => Some("try --help"),
        NO_NETWORK => Some(
            "the last line has the fault, whose code begins with N, and its place in the file; docs/formats.md explains each",
        ),
        FAULTY_TEXT => Some(
            "the last line has the fault, and the letter of its code names the file: X the matrix, M the modes, T the traffic, P the plan, G the delays, S the script, O the output of a run; docs/formats.md explains each",
        ),
        READ_FAILED => Some("the last line names it"),
        WRITE_FAILED => Some("at most a first part of it stands there"),
        STORE_FAILED => Some("look at its file and its folder"),
        FAULTY_JOURNAL => Some(
            "the last line has the fault, whose code begins with J, and the number of the line; docs/formats.md explains each",
        ),
        TOO_LONG => Some("the last line names it"),
        _ => None,
    }
}

impl Meaning {
    /// Whether it is one of this program.
    fn is_of(&self, program: Program) -> bool {
        match self.of {
            Whose::Each => true,
            Whose::Readers => program != Program::Station,
            Whose::Only(of) => of == program,
        }
    }
}

/// What happened and where to look, in a sentence for the person at the terminal.
#[derive(Clone, Copy)]
pub struct Reason {
    program: Program,
    status: u8,
    hint: &'static str,
}

impl Reason {
    /// The reason of a status; None where the work was done, or the verdict says all.
    pub fn of(program: Program, status: u8) -> Option<Reason> {
        let hint = hint_of(status)?;
        Some(Reason {
            program,
            status,
            hint,
        })
    }
}

impl fmt::Display for Reason {
    fn fmt<W: fmt::Write>(&self, f: &mut fmt::Formatter<W>) -> fmt::Result {
        let mut first = true;
        for meaning in &MEANINGS {
            if meaning.status == self.status && meaning.is_of(self.program) {
                if !first {
                    f.write_str(", or ")?;
                }
                first = false;
                f.write_str(meaning.when)?;
            }
        }
        f.write_str("; ")?;
        f.write_str(self.hint)
    }
}

/// Appends the table of a program as `--help` has it: the status, when it comes, and the line that stands on the output then.
pub fn add_statuses(alloc: Global, program: Program, out: &mut Vec<u8>) -> Result<(), OutOfMemory> {
    let mut above = None;
    for meaning in &MEANINGS {
        if meaning.is_of(program) {
            add_row(alloc, meaning, above == Some(meaning.status), out)?;
            above = Some(meaning.status);
        }
    }
    Ok(())
}

/// Appends a row, without its status where that is as above.
fn add_row(
    alloc: Global,
    meaning: &Meaning,
    is_as_above: bool,
    out: &mut Vec<u8>,
) -> Result<(), OutOfMemory> {
    let (status, when, line) = (meaning.status, meaning.when, meaning.line);
    let row = match (is_as_above, line.is_empty()) {
        (false, true) => format!(in alloc; "  {status:<4}{when}\n")?,
        (false, false) => format!(in alloc; "  {status:<4}{when:<37}{line}\n")?,
        (true, _) => format!(in alloc; "      {when:<37}{line}\n")?,
    };
    out.extend_from_slice(row.as_bytes())?;
    Ok(())
}
