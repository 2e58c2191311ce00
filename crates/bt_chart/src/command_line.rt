// What the words after the program's name ask for.
ghost use Rattle.std.specs.Prelude.{◌≡◌, map, option_map};
ghost use Rattle.std.specs.String.{string_bytes};
ghost use Rattle.bt_chart.specs.CommandLine.{asked, chosen};
ghost use Rattle.bt_chart.specs.Request.{asked_with, chart_request_of, chosen_of, ladder_request, page_again, page_beside, page_every, page_in, page_request, page_with, plan_request, range_and_names, run_request, seconds_in};

use crate::range::superframes_in;
use bt_run_chart::View;
use bt_text::number;

/// The most seconds after which a page is loaded again: a day.
pub const MOST_SECONDS: u64 = 86_400;

/// A command line: a command with its words.
#[derive(Clone, Copy)]
pub enum CommandLine<'a> {
    /// The words are none of the table.
    Faulty,
    /// `plan NET PLAN [BEAM ..] [FIRST-LAST]`.
    ChartPlan {
        net: &'a str,
        plan: &'a str,
        words: &'a [String],
    },
    /// `run NET OUTPUT [all] [FIRST-LAST] [NAME ..]`.
    ChartRun {
        net: &'a str,
        output: &'a str,
        view: View,
        names: &'a [String],
    },
    /// `ladder NET OUTPUT [all] [FIRST-LAST] [NAME ..]`.
    ChartLadder {
        net: &'a str,
        output: &'a str,
        view: View,
        names: &'a [String],
    },
    /// `page NET JOURNAL [every SECONDS]`.
    ChartPage {
        net: &'a str,
        journal: &'a str,
        seconds: Option<u32>,
    },
    /// `page NET JOURNAL ANSWERS [every SECONDS]`.
    ChartAnswered {
        net: &'a str,
        journal: &'a str,
        answers: &'a str,
        seconds: Option<u32>,
    },
}

/// What is asked of a run's superframes, and the names behind that.
#[derive(Clone, Copy)]
pub struct Chosen<'a> {
    view: View,
    names: &'a [String],
}

/// The command line that the words are.
pub fn command_line_of(words: &[String]) -> CommandLine<'_>
    ensures asked { asked result ≡ chart_request_of (map string_bytes words.now) }
{
    match words {
        [command, net, file, words @ ..] => with_files(command, net, file, words),
        _ => CommandLine::Faulty,
    }
}

/// The command line of that command with two files, and with these words behind them.
fn with_files<'a>(
    command: &str,
    net: &'a str,
    file: &'a str,
    words: &'a [String],
) -> CommandLine<'a>
    ensures { asked result ≡ asked_with command.now net.now file.now (map string_bytes words.now) }
{
    if command == "plan" {
        plan_of(net, file, words)
    } else if command == "run" {
        run_of(net, file, words)
    } else if command == "ladder" {
        ladder_of(net, file, words)
    } else if command == "page" {
        page_of(net, file, words)
    } else {
        CommandLine::Faulty
    }
}

fn plan_of<'a>(net: &'a str, plan: &'a str, words: &'a [String]) -> CommandLine<'a>
    ensures { asked result ≡ plan_request net.now plan.now (map string_bytes words.now) }
{
    if net.is_empty() || plan.is_empty() {
        CommandLine::Faulty
    } else {
        CommandLine::ChartPlan { net, plan, words }
    }
}

fn run_of<'a>(net: &'a str, output: &'a str, words: &'a [String]) -> CommandLine<'a>
    ensures { asked result ≡ run_request net.now output.now (map string_bytes words.now) }
{
    if net.is_empty() || output.is_empty() {
        return CommandLine::Faulty;
    }
    let Chosen { view, names } = chosen_of(words);
    CommandLine::ChartRun {
        net,
        output,
        view,
        names,
    }
}

fn ladder_of<'a>(net: &'a str, output: &'a str, words: &'a [String]) -> CommandLine<'a>
    ensures { asked result ≡ ladder_request net.now output.now (map string_bytes words.now) }
{
    if net.is_empty() || output.is_empty() {
        return CommandLine::Faulty;
    }
    let Chosen { view, names } = chosen_of(words);
    CommandLine::ChartLadder {
        net,
        output,
        view,
        names,
    }
}

fn page_of<'a>(net: &'a str, journal: &'a str, words: &'a [String]) -> CommandLine<'a>
    ensures { asked result ≡ page_request net.now journal.now (map string_bytes words.now) }
{
    if net.is_empty() || journal.is_empty() {
        CommandLine::Faulty
    } else {
        page_with(net, journal, words)
    }
}

/// The page with these words behind the journal.
fn page_with<'a>(net: &'a str, journal: &'a str, words: &'a [String]) -> CommandLine<'a>
    ensures { asked result ≡ page_with net.now journal.now (map string_bytes words.now) }
{
    let Some((word, rest)) = words.split_first() else {
        return page_beside(net, journal, None, None);
    };
    if word.as_str() == "every" {
        page_every(net, journal, None, rest)
    } else if word.is_empty() {
        CommandLine::Faulty
    } else {
        page_again(net, journal, Some(word.as_str()), rest)
    }
}

/// The page with these words behind all its files.
fn page_again<'a>(
    net: &'a str,
    journal: &'a str,
    answers: Option<&'a str>,
    words: &[String],
) -> CommandLine<'a>
    ensures { asked result ≡ page_again net.now journal.now (option_map (λ a. a.now) answers.entry) (map string_bytes words.now) }
{
    let Some((word, rest)) = words.split_first() else {
        return page_beside(net, journal, answers, None);
    };
    if word.as_str() == "every" {
        page_every(net, journal, answers, rest)
    } else {
        CommandLine::Faulty
    }
}

/// The page with these words behind `every`.
fn page_every<'a>(
    net: &'a str,
    journal: &'a str,
    answers: Option<&'a str>,
    words: &[String],
) -> CommandLine<'a>
    ensures { asked result ≡ page_every net.now journal.now (option_map (λ a. a.now) answers.entry) (map string_bytes words.now) }
{
    let Some((word, rest)) = words.split_first() else {
        return CommandLine::Faulty;
    };
    if rest.is_empty() {
        page_in(net, journal, answers, seconds_in(word.as_bytes()))
    } else {
        CommandLine::Faulty
    }
}

/// The page that is loaded again after so many seconds, where these are some.
fn page_in<'a>(
    net: &'a str,
    journal: &'a str,
    answers: Option<&'a str>,
    seconds: Option<u32>,
) -> CommandLine<'a>
    ensures { asked result ≡ page_in net.now journal.now (option_map (λ a. a.now) answers.entry) seconds }
{
    if seconds.is_none() {
        return CommandLine::Faulty;
    }
    page_beside(net, journal, answers, seconds)
}

/// The page of a journal, and of answers where there are some.
fn page_beside<'a>(
    net: &'a str,
    journal: &'a str,
    answers: Option<&'a str>,
    seconds: Option<u32>,
) -> CommandLine<'a>
    ensures { asked result ≡ page_beside net.now journal.now (option_map (λ a. a.now) answers.entry) seconds }
{
    match answers {
        None => CommandLine::ChartPage {
            net,
            journal,
            seconds,
        },
        Some(answers) => CommandLine::ChartAnswered {
            net,
            journal,
            answers,
            seconds,
        },
    }
}

/// The seconds that a word is.
fn seconds_in(word: &[u8]) -> Option<u32>
    ensures { result ≡ seconds_in word.now }
{
    let seconds = number(word)?;
    if seconds > 0 && seconds <= MOST_SECONDS {
        Some(seconds as u32)
    } else {
        None
    }
}

/// What the words behind the files choose.
fn chosen_of(words: &[String]) -> Chosen<'_>
    ensures { chosen result ≡ chosen_of (map string_bytes words.now) }
{
    match words {
        [word, rest @ ..] if word.as_str() == "all" => range_and_names(false, rest),
        _ => range_and_names(true, words),
    }
}

/// The superframes that the first word names, and the names behind it.
fn range_and_names(folds: bool, words: &[String]) -> Chosen<'_>
    ensures { chosen result ≡ range_and_names folds (map string_bytes words.now) }
{
    if let [word, names @ ..] = words {
        if let Some(range) = superframes_in(word.as_bytes()) {
            let view = View {
                folds,
                range: Some(range),
            };
            return Chosen { view, names };
        }
    }
    let view = View { folds, range: None };
    Chosen { view, names: words }
}
