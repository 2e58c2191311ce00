// The pages that the program prints about itself.
use bt_frame::OutOfMemory;
use bt_report::{Program, add_statuses};
use std::alloc::Global;

/// What `--help` prints before the table of statuses.
const COMMANDS: &str = "\
chart, pictures of the plans and the runs of a satellite-switched TDMA system

usage: chart COMMAND WORDS..

commands
  ladder NET OUTPUT [all] [FIRST-LAST] [NAME ..]
      Draws what `chart run` draws as a ladder: time runs down, each station has a
      lane, and each message is an arrow with its number and name from its sender's
      lane to those that heard it. The words mean what they mean there. A whole run
      is drawn, however long it is.
      example: nozgurt run examples/four-terminals.net examples/lossy-day.script
               lossy.journal | chart ladder examples/four-terminals.net -

  page NET JOURNAL [ANSWERS] [every SECONDS]
      Makes a page, one file in HTML that a browser shows, of the journal in the
      file JOURNAL for the network in the file NET: its last edition, its newest
      plan and how full it is; what is asked of each beam, as bars with their
      numbers; the picture of the newest plan, as `chart plan` draws it, and its
      modes; and the links, the largest first.
      With ANSWERS, what `nozgurt live` or `nozgurt centre` printed, it also shows the
      edition in front, what the satellite is armed for, the terminals that are
      missing, the last refusals and faults, and the last superframes as a ladder.
      It reads and writes nothing else. With `every` a browser loads it again each
      time that SECONDS have passed.
      example: chart page examples/two-beams.net examples/calm-change.journal
               every 60

  plan NET PLAN [BEAM ..] [FIRST-LAST]
      Draws the burst time plan in the file PLAN for the network in the file NET.
      The frame goes from left to right, with the modes of the switch above. Each
      uplink and each downlink beam has a lane with the bursts in it. A plan is drawn
      whether it is good or not; `nozgurt check` says what is wrong with one.
      Each BEAM has lanes; with none, all beams have some.
      FIRST-LAST are the slots that are shown, as 0-199;
      without them, all slots are.
      example: chart plan examples/six-beams.net examples/six-beams.plan b0 b1 0-199

  run NET OUTPUT [all] [FIRST-LAST] [NAME ..]
      Draws what `nozgurt run` or `nozgurt live` printed, which stands in the file
      OUTPUT, for the network in the file NET: who sent which message and who heard
      it, the edition in front, and the bursts on the air.
      Superframes one behind the other of which nothing but routine is told share a
      narrow column; with the word `all` each is drawn. FIRST-LAST, as in 3-7, draws
      these superframes alone, both included. Each NAME is a terminal that has a
      lane; with none, the first twelve that send or hear have some.
      example: nozgurt run examples/two-beams.net examples/calm-change.script
               calm.journal | chart run examples/two-beams.net -

  --help      prints this page
  --version   prints the version

Pictures are printed as SVG 1.1, and pages as HTML; browsers show both. The word
`-` in the place of PLAN, OUTPUT, JOURNAL or ANSWERS is standard input; a file of
that name is `./-`.

exit status
";

/// What it prints behind them.
const LETTERS: &str = "  The letter of a CODE names the file that is at fault: N the network, P the
  plan, O the output of a run, J the journal. docs/formats.md has the texts of
  all files and explains each code, and docs/pictures.md explains the pictures.
";

/// The forms of the commands: of each its word, and the names of the words behind it.
pub const FORMS: [&str; 4] = [
    "ladder NET OUTPUT [all] [FIRST-LAST] [NAME ..]",
    "page NET JOURNAL [ANSWERS] [every SECONDS]",
    "plan NET PLAN [BEAM ..] [FIRST-LAST]",
    "run NET OUTPUT [all] [FIRST-LAST] [NAME ..]",
];

/// What `--version` prints.
const VERSION: &str = "chart 0.3.0\n";

/// The page that the words ask for; None where they ask for none.
pub fn page_of(alloc: Global, words: &[String]) -> Result<Option<Vec<u8>>, OutOfMemory> {
    match words {
        [word] if word.as_str() == "--help" => Ok(Some(help(alloc)?)),
        [word] if word.as_str() == "--version" => {
            Ok(Some(Vec::from_slice(alloc, VERSION.as_bytes())?))
        }
        _ => Ok(None),
    }
}

/// What `--help` prints.
fn help(alloc: Global) -> Result<Vec<u8>, OutOfMemory> {
    let mut page = Vec::new(alloc);
    page.extend_from_slice(COMMANDS.as_bytes())?;
    add_statuses(alloc, Program::Chart, &mut page)?;
    page.extend_from_slice(LETTERS.as_bytes())?;
    Ok(page)
}
