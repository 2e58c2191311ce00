// Which words of a command line name files: those that are read, and the journal that is written.
ghost use Rattle.std.specs.Prelude.{◌≡◌, IsNone, map, option_map};
ghost use Rattle.std.specs.String.{string_bytes};
ghost use Rattle.bt_cli.specs.Request.{asked, journal_of, request_of};
ghost use Rattle.bt_cli.specs.Top.{AsksNoStore};

use crate::command_line::{CommandLine, command_line_of};
use crate::live::live_words;

/// The words of a command line that name files. The command itself is at place 0.
#[derive(Clone, Copy)]
struct NamedFiles<'a> {
    /// The place of the first word that names a file that may be standard input.
    first: usize,
    /// The place behind the last such word.
    end: usize,
    /// The journal that is written, where the command works over a store.
    journal: Option<&'a str>,
}

/// The journal that the words name; None where they ask for none, or are no command's.
pub fn journal_of(words: &[String]) -> Option<&str>
    ensures journal { option_map (λ journal. journal.now) result ≡ journal_of (request_of (map string_bytes words.now)) }
{
    files_of(command_line_of(words)).journal
}

/// The places of the words that name files that may be standard input: the first, and the one behind the last. They are neither
/// the network nor a journal that is written.
pub fn places_of_files(words: &[String]) -> (usize, usize) {
    // the lines of a session are standard input
    if live_words(words).is_some() {
        return (2, 2);
    }
    let files = files_of(command_line_of(words));
    (files.first, files.end)
}

/// The files of a command line. Each command has its line, so that none is forgotten: where no journal is written, the command
/// asks for no store.
#[rattlefmt::skip]
fn files_of(line: CommandLine<'_>) -> NamedFiles<'_>
    ensures journal { option_map (λ journal. journal.now) result.journal ≡ journal_of (asked line.entry) }
    ensures store { IsNone result.journal → AsksNoStore (asked line.entry) }
{
    match line {
        CommandLine::Faulty                        => NamedFiles { first: 2, end: 3, journal: None },
        CommandLine::CheckModes { .. }             => NamedFiles { first: 1, end: 3, journal: None },
        CommandLine::CheckPlan { .. }              => NamedFiles { first: 2, end: 4, journal: None },
        CommandLine::PlanModes { .. }              => NamedFiles { first: 1, end: 2, journal: None },
        CommandLine::PlanDemand { .. }             => NamedFiles { first: 2, end: 3, journal: None },
        CommandLine::RunScript { journal, .. }     => NamedFiles { first: 2, end: 3, journal: Some(journal) },
        CommandLine::ReplayJournal { journal, .. } => NamedFiles { first: 2, end: 2, journal: Some(journal) },
        CommandLine::PlanDrawn { .. }              => NamedFiles { first: 2, end: 2, journal: None },
        CommandLine::TimeSends { .. }              => NamedFiles { first: 2, end: 5, journal: None },
        CommandLine::PlanPart { .. }               => NamedFiles { first: 2, end: 3, journal: None },
        CommandLine::TellCapacity { .. }           => NamedFiles { first: 2, end: 3, journal: None },
        CommandLine::TellJournal { .. }            => NamedFiles { first: 2, end: 3, journal: None },
        CommandLine::TellEdits { .. }              => NamedFiles { first: 2, end: 4, journal: None },
        CommandLine::TellCarry { .. }              => NamedFiles { first: 2, end: 3, journal: None },
        CommandLine::TellTraffic { .. }            => NamedFiles { first: 2, end: 3, journal: None },
        CommandLine::TellJson { .. }               => NamedFiles { first: 1, end: 2, journal: None },
    }
}
