// What the words after the program's name ask for.
ghost use Rattle.std.specs.Prelude.{◌≡◌, IfSome, Some, map, option_map};
ghost use Rattle.std.specs.String.{string_bytes};
ghost use Rattle.bt_cli.specs.Request.{are_words, asked, asked_with, asked_with_four, asked_with_one, asked_with_three, asked_with_two, first_word, name_of, request_of};

use crate::look::Look;
use crate::number_word::{AskingDesk, BeamCount, Transponders, edition_of, seed_of};

/// A command line: a command with its words.
#[derive(Clone, Copy)]
pub enum CommandLine<'a> {
    /// The words are none of the table.
    Faulty,
    /// `check MATRIX MODES`.
    CheckModes {
        matrix: &'a str,
        modes: &'a str,
    },
    /// `check NET TRAFFIC PLAN`.
    CheckPlan {
        net: &'a str,
        traffic: &'a str,
        plan: &'a str,
    },
    /// `modes MATRIX`.
    PlanModes {
        matrix: &'a str,
    },
    /// `plan NET TRAFFIC`.
    PlanDemand {
        net: &'a str,
        traffic: &'a str,
    },
    /// `run NET SCRIPT JOURNAL`.
    RunScript {
        net: &'a str,
        script: &'a str,
        journal: &'a str,
    },
    /// `replay NET JOURNAL`.
    ReplayJournal {
        net: &'a str,
        journal: &'a str,
    },
    /// `make N NUMBER`.
    PlanDrawn {
        beams: BeamCount,
        seed: u64,
    },
    /// `timing NET TRAFFIC PLAN DELAYS`.
    TimeSends {
        net: &'a str,
        traffic: &'a str,
        plan: &'a str,
        delays: &'a str,
    },
    /// `trans K MATRIX`.
    PlanPart {
        transponders: Transponders,
        matrix: &'a str,
    },
    /// `capacity NET TRAFFIC`.
    TellCapacity {
        net: &'a str,
        traffic: &'a str,
    },
    /// A look: `state`, `demand`, `installed`, `compact` or `metrics`, and `NET JOURNAL [EDITION]`.
    TellJournal {
        net: &'a str,
        journal: &'a str,
        look: Look,
    },
    /// `edits NET JOURNAL TRAFFIC [DESK]`.
    TellEdits {
        net: &'a str,
        journal: &'a str,
        traffic: &'a str,
        desk: AskingDesk,
    },
    /// `carry NET JOURNAL NEWNET`.
    TellCarry {
        net: &'a str,
        journal: &'a str,
        new: &'a str,
    },
    /// `traffic NET CSV`.
    TellTraffic {
        net: &'a str,
        table: &'a str,
    },
    /// `json FILE`.
    TellJson {
        text: &'a str,
    },
}

/// The command line that the words are.
pub fn command_line_of(words: &[String]) -> CommandLine<'_>
    ensures asked { asked result ≡ request_of (map string_bytes words.now) }
    ensures named { IfSome (name_of result) (λ name. first_word (map string_bytes words.now) ≡ Some name) }
{
    match words {
        [command, behind @ ..] if are_words(behind) => {
            with_words(command, behind).unwrap_or(CommandLine::Faulty)
        }
        _ => CommandLine::Faulty,
    }
}

/// Whether none of the words is empty.
fn are_words(words: &[String]) -> bool
    ensures { result ≡ are_words (map string_bytes words.now) }
{
    words.iter().all(|word| !word.is_empty())
}

/// The command line of that command with these words.
fn with_words<'a>(command: &str, words: &'a [String]) -> Option<CommandLine<'a>>
    ensures asked { option_map asked result ≡ asked_with command.now (map string_bytes words.now) }
    ensures named { IfSome result (λ line. IfSome (name_of line) (λ name. command.now ≡ name)) }
{
    match words {
        [first] => with_one(command, first),
        [first, second] => with_two(command, first, second),
        [first, second, third] => with_three(command, first, second, third),
        [first, second, third, fourth] => with_four(command, first, second, third, fourth),
        _ => None,
    }
}

/// The command line of that command with one word.
#[rattlefmt::skip]
fn with_one<'a>(command: &str, first: &'a str) -> Option<CommandLine<'a>>
    ensures asked { option_map asked result ≡ asked_with_one command.now first.now }
    ensures named { IfSome result (λ line. IfSome (name_of line) (λ name. command.now ≡ name)) }
{
    use CommandLine::*;
    Some(match command {
        "modes" => PlanModes { matrix: first },
        "json"  => TellJson { text: first },
        _       => return None,
    })
}

/// The command line of that command with two words.
#[rattlefmt::skip]
fn with_two<'a>(command: &str, first: &'a str, second: &'a str) -> Option<CommandLine<'a>>
    ensures asked { option_map asked result ≡ asked_with_two command.now first.now second.now }
    ensures named { IfSome result (λ line. IfSome (name_of line) (λ name. command.now ≡ name)) }
{
    use CommandLine::*;
    Some(match command {
        "check"     => CheckModes { matrix: first, modes: second },
        "plan"      => PlanDemand { net: first, traffic: second },
        "replay"    => ReplayJournal { net: first, journal: second },
        "make"      => PlanDrawn { beams: BeamCount::of(first)?, seed: seed_of(second)? },
        "trans"     => PlanPart { transponders: Transponders::of(first)?, matrix: second },
        "capacity"  => TellCapacity { net: first, traffic: second },
        "traffic"   => TellTraffic { net: first, table: second },
        "state"     => TellJournal { net: first, journal: second, look: Look::State },
        "demand"    => TellJournal { net: first, journal: second, look: Look::Demand(None) },
        "installed" => TellJournal { net: first, journal: second, look: Look::Installed(None) },
        "compact"   => TellJournal { net: first, journal: second, look: Look::Compact },
        "metrics"   => TellJournal { net: first, journal: second, look: Look::Metrics },
        _           => return None,
    })
}

/// The command line of that command with three words.
#[rattlefmt::skip]
fn with_three<'a>(command: &str, first: &'a str, second: &'a str, third: &'a str) -> Option<CommandLine<'a>>
    ensures asked { option_map asked result ≡ asked_with_three command.now first.now second.now third.now }
    ensures named { IfSome result (λ line. IfSome (name_of line) (λ name. command.now ≡ name)) }
{
    use CommandLine::*;
    Some(match command {
        "check"     => CheckPlan { net: first, traffic: second, plan: third },
        "run"       => RunScript { net: first, script: second, journal: third },
        "demand"    => TellJournal { net: first, journal: second, look: Look::Demand(Some(edition_of(0, third)?)) },
        "installed" => TellJournal { net: first, journal: second, look: Look::Installed(Some(edition_of(1, third)?)) },
        "edits"     => TellEdits { net: first, journal: second, traffic: third, desk: AskingDesk::first() },
        "carry"     => TellCarry { net: first, journal: second, new: third },
        _           => return None,
    })
}

/// The command line of that command with four words.
#[rattlefmt::skip]
fn with_four<'a>(command: &str, first: &'a str, second: &'a str, third: &'a str, fourth: &'a str) -> Option<CommandLine<'a>>
    ensures asked { option_map asked result ≡ asked_with_four command.now first.now second.now third.now fourth.now }
    ensures named { IfSome result (λ line. IfSome (name_of line) (λ name. command.now ≡ name)) }
{
    use CommandLine::*;
    Some(match command {
        "timing" => TimeSends { net: first, traffic: second, plan: third, delays: fourth },
        "edits"  => TellEdits { net: first, journal: second, traffic: third, desk: AskingDesk::of(fourth)? },
        _        => return None,
    })
}
