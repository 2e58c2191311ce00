// The pages that the program prints about itself.
use bt_frame::OutOfMemory;
use bt_report::{Program, add_statuses};
use std::alloc::Global;

/// What `--help` prints before the table of statuses.
const COMMANDS: &str = "\
station, a site of a satellite-switched TDMA system, at work over lines

usage: station COMMAND WORDS..

commands
  satellite NET MARK
      Is the satellite of the network in the file NET, which starts in superframe
      MARK, with edition 0 in front. It hears lines on standard input, and answers
      each on standard output before it hears the next: `tick`, its next superframe
      begins; `frame`, its next frame is shown; `radio N HEX`, a message.
      example: station satellite examples/two-beams.net 0 < examples/satellite.lines

  standby NET
      Is the standby of the network in the file NET. It hears `mark N`, superframe N
      begins; `radio N HEX`, a message; and `second`, by which it says the second
      reference burst of the present superframe.
      example: station standby examples/two-beams.net < examples/standby.lines

  terminal NET NAME
      Is the terminal NAME of the network in the file NET. It says at its start that
      it is lost, and hears `mark N`, `radio N HEX`, and `frame M I`, by which its
      modem asks what to transmit in frame I of superframe M.
      example: station terminal examples/two-beams.net A < examples/terminal.lines

  --help      prints this page
  --version   prints the version

What begins with `mark` or `radio` is for the other sites; all else that is
printed is the log.

exit status
";

/// What it prints behind them.
const LETTERS: &str = "  Each CODE begins with N, for the network; docs/formats.md explains it.
  docs/sites.md has the lines, and the bytes of each message.
";

/// The forms of the commands: of each its word, and the names of the words behind it.
pub const FORMS: [&str; 3] = ["satellite NET MARK", "standby NET", "terminal NET NAME"];

/// What `--version` prints.
const VERSION: &str = "station 0.3.0\n";

/// The page that the words ask for; None where they ask for none.
pub fn page_of(alloc: Global, words: &[String]) -> Result<Option<Vec<u8>>, OutOfMemory> {
    match words {
        [word] if word.as_str() == "--help" => Ok(Some(help(alloc)?)),
        [word] if word.as_str() == "--version" => {
            Ok(Some(Vec::from_slice(alloc, VERSION.as_bytes())?))
        }
        _ => Ok(None),
    }
}

/// What `--help` prints.
fn help(alloc: Global) -> Result<Vec<u8>, OutOfMemory> {
    let mut page = Vec::new(alloc);
    page.extend_from_slice(COMMANDS.as_bytes())?;
    add_statuses(alloc, Program::Station, &mut page)?;
    page.extend_from_slice(LETTERS.as_bytes())?;
    Ok(page)
}
