// The pages that the program prints about itself.
use bt_frame::OutOfMemory;
use bt_report::{Program, add_statuses};
use std::alloc::Global;

/// What `--help` prints before the table of statuses.
const COMMANDS: &str = "\
nozgurt, the control centre of a satellite-switched TDMA system

usage: nozgurt COMMAND WORDS..

commands that plan and check
  capacity NET TRAFFIC
      Prints what the traffic in the file TRAFFIC asks of each beam of the network
      in the file NET, in slots of the frame, and how many are free there:
      `up NAME asked K free K` and `down NAME asked K free K`. Then it prints
      `room FROM TO K` for each two beams between which one link more, or a longer
      one, could have slots: K is the most that it could have.
      example: nozgurt capacity examples/two-beams.net examples/two-beams.traffic

  check MATRIX MODES
      Prints `good` where the switching schedule in the file MODES carries the
      traffic matrix in the file MATRIX in the least length. Else it prints what
      is wrong first, and ends with status 9:
        V1 MODE               the mode is no permutation of the beams
        V2 MODE               the mode has the duration 0
        V3 SUM LENGTH         the durations have another sum than the length
        V4 row BEAM SUM       the length or the critical line is not that of the
        V4 column BEAM SUM    greatest line sum, which this line has
        V8 UP DOWN WANT HAVE  the modes give these two beams too few slots
      Modes and beams are counted from 0.
      example: nozgurt check examples/two-beams.matrix examples/two-beams.modes

  check NET TRAFFIC PLAN
      Prints `good` where the burst time plan in the file PLAN carries that
      traffic in the least length. Else it prints what is wrong first, and ends
      with status 9: V1 to V4 as above, or
        V5 FIRST SECOND       these bursts are in one slot and at one beam
        V6 BURST              the burst is empty, or in no mode of its beams
        V7 FROM TO WANT HAVE  the bursts give that link another number of slots
      Bursts are counted from 0. FROM and TO are the names of terminals.
      example: nozgurt check examples/two-beams.net examples/two-beams.traffic
               examples/two-beams.plan

  make N NUMBER
      Draws a demand on a network of N beams, 1 to 16, from the number NUMBER
      on, 0 to 18446744073709551615, and plans it: for trials of any size.
      Prints how many links and slots it has, how long the plan is and which row
      or column asks for so many slots, and how many modes and bursts the plan
      has. The same numbers draw the same demand.
      example: nozgurt make 16 7

  modes MATRIX
      Prints a switching schedule that carries the traffic matrix in the file
      MATRIX in the least length, as `check` reads it.
      example: nozgurt modes examples/two-beams.matrix

  plan NET TRAFFIC
      Prints a burst time plan, as edition 1, that carries the traffic of the
      terminals in the file TRAFFIC on the network in the file NET in the least
      length. Where the traffic does not fit the frame, it prints the heaviest
      row or column and its slots, as in `fault T6 row 0 5`.
      example: nozgurt plan examples/two-beams.net examples/two-beams.traffic

  timing NET TRAFFIC PLAN DELAYS
      Prints when each burst of that plan is to be sent: `send AT TICKS FROM TO`.
      TICKS are counted from the begin of the frame at the satellite, so that by
      the delays in the file DELAYS the burst arrives in its slots. Where `check`
      says that the plan is not good, it prints that, and ends with status 9.
      example: nozgurt timing examples/six-beams.net examples/six-beams.traffic
               examples/six-beams.plan examples/six-beams.delays

  traffic NET CSV
      Prints the traffic that a table of links says, as `plan` reads it, on the
      network in the file NET. The file CSV has a row a line, `FROM,TO,UNITS`, and a
      first row `from,to,units` is the names of the columns. The links are printed in
      the order of the network's terminals. Whether they fit the frame is not asked:
      `nozgurt traffic NET CSV | nozgurt capacity NET -` says so.
      example: nozgurt traffic examples/two-beams.net examples/two-beams.csv

  trans K MATRIX
      Prints a switching schedule in the least length for a satellite with K
      transponders, 1 to 16, which makes K connections at once at most. The length
      is the greater of the greatest line sum and of all slots shared among K,
      rounded up; `bound` says which it is.
      An uplink beam that is silent in a mode is printed `-`. The matrix has 16
      beams at most and K at least: else `fault X3`.
      example: nozgurt trans 2 examples/three-beams.matrix

commands of the centre
  centre NET JOURNAL
      Runs the centre of the network in the file NET, whose satellite and terminals
      are processes of their own: they share nothing with it but lines, and go on
      while it is restarted. It is a session as `live` is, without the lines of a
      simulated air and without `waiting`, and with two of the bus. `mark N` says
      that superframe N begins; `radio N HEX` is a message, in two digits a byte,
      behind the superframe that its sayer takes for the present one. Both are heard
      at once, also where a block is open, and answered by a `ready` line alone. `turn`
      prints what a run prints of it, and behind each line `sent` the line `radio N
      HEX` by which the message goes out. Before the first mark a turn is
      `turn nomark`, and says nothing. What begins with `radio` is for the other
      sites, all else is for whoever sent the line.
      An order is a line of the file JOURNAL before its message is said. Where the
      last is of an older edition than one before it, the centre goes back to that
      edition as it starts and at `restart`, with the line `back E` behind `start`.
      example: nozgurt centre examples/two-beams.net centre.journal < examples/centre.lines

  live NET JOURNAL
      Runs the centre of the network in the file NET by the lines that come on
      standard input: each is played and answered before the next is read. They
      are the lines of a script, of which each alone is a round by itself, and
      a few more. `round` opens a block, whose lines wait; `go` plays them as one
      round; `forget` gives them up. `state`, `capacity`, `room FROM TO`,
      `demand`, `installed`, `plans`, `waiting` and `blocks` ask, and change
      nothing: `lines K` stands in front of the K lines that are told. `help`
      tells all the lines that there are. Behind each answer stands `ready N`,
      which says that line N was answered and the next may come. A line may have
      a tag in front, `@WORD` and a space: its `ready` ends with the tag, and its
      block is that of the tag alone; `open K` says that this is open and has K
      lines. A line that is at fault has no effect; `fault CODE N` names it, and
      the session goes on. The end of the input plays no block that is open, and
      prints the total.
      It begins with what the file JOURNAL comes to, and each change that is
      accepted is one line more of it before it is answered.
      Standard error, where it is a terminal, says why a line is at fault or an
      edit is refused; alarms it says at once in any case.
      example: nozgurt live examples/two-beams.net live.journal < examples/live.lines

  replay NET JOURNAL
      Prints what the journal in the file JOURNAL comes to on the network in the
      file NET: the last edition, the newest plan, how many orders were placed,
      and each link of the demand with its slots. Bytes behind the last newline
      are no line, and are cut off the file. Where the file has no mark, it is
      appended: a line `journal 2 BEAMS TERMINALS` that says of which network the
      journal is. Where a line is wrong, the first such line is named, as in
      `fault J2 3`, and nothing is changed:
        J1 LINE               it is no line of a journal
        J2 LINE               its change does not follow those before it, or its
                              mark is of another network, or the second
      A file that is not there is made, and is an empty journal.
      example: nozgurt replay examples/two-beams.net
               examples/calm-change.journal

  run NET SCRIPT JOURNAL
      Plays the script in the file SCRIPT on the network in the file NET: desks
      edit the demand, the planner plans, the centre has plans loaded and armed,
      and frames go on the air. Prints the answer to each edit, each plan, each
      message with what its receiver did, each frame, and how many edits were
      done and refused. The run begins with what the file JOURNAL comes to, and
      each change that is accepted is one line more of it before it is answered.
      A file that is not there is made, and is an empty journal.
      The line `back E` of a script has the centre go back: from its next turn
      on it wants the plan of edition E in front. `ahead` has it want the newest
      again, and so has a restart. A standby is a second reference station. By
      `standby hears K` it hears message K, a status of the satellite. By
      `standby burst` it names the edition in front by the last one that it heard
      in the present superframe, or none.
      A change for whose line the journal has no room is not made, and answered
      `refused E5 BYTES`: its changes have so many bytes already. `state` shows
      that coming. `compact` prints a journal of the same demand with the fewest
      edits: in a new file, it is what a run goes on over, where it has room.
      example: nozgurt run examples/two-beams.net
               examples/calm-change.script calm.journal

commands that look at a journal
  carry NET JOURNAL NEWNET
      Prints a journal on the network in the file NEWNET with the demand of that in
      the file JOURNAL, on the network in the file NET, by the names of terminals:
      the mark of NEWNET, and an edit for each link. NEWNET may have more terminals
      and beams, another frame and another order. A link whose terminals it does not
      have both is refused, and so is a demand that does not fit its frame. Given up
      is what `compact` gives up: the next plan has to be made anew, and until each
      terminal has it no burst of the old one is to be sent. The file JOURNAL stays
      as it is.
      example: nozgurt carry examples/two-beams.net
               examples/calm-change.journal examples/four-terminals.net

  compact NET JOURNAL
      Prints a journal that comes to the same demand as that in the file JOURNAL,
      on the network in the file NET, with the fewest edits: its mark, and an edit
      for each link. Given up are the earlier editions, the plans, the orders and
      the numbers: the last edition is then the number of links, the next plan
      has to be made anew, and commands begin with 1. The file stays as it is.
      So a run goes on whose journal is full (`refused E5`), where it has more
      edits than links: write this one into a new file, and run over that.
      example: nozgurt compact examples/two-beams.net
               examples/calm-change.journal

  demand NET JOURNAL [EDITION]
      Prints the demand that the journal in the file JOURNAL tells of an
      edition, on the network in the file NET: a line `link FROM TO UNITS` for
      each link, as `plan` and `capacity` read them. EDITION is 0 to 4294967295;
      without it the demand is that of the last edition. The file stays as it
      is. A plan for it: `nozgurt demand NET JOURNAL | nozgurt plan NET -`.
      example: nozgurt demand examples/two-beams.net
               examples/calm-change.journal 1

  edits NET JOURNAL TRAFFIC [DESK]
      Prints the block of edits that brings the demand of the journal in the file
      JOURNAL to that in the file TRAFFIC, on the network in the file NET: `round`,
      `desk D drop FROM TO UNITS` for each link that is to lose slots, then
      `desk D add FROM TO UNITS` for each that is to gain some, and `go`; where no
      link differs, nothing. Drops stand first, so that each add finds room. DESK,
      the D of the lines, is 1 to 16; without it D is 1. The file stays as it is.
      `nozgurt edits NET JOURNAL TRAFFIC | nozgurt live NET JOURNAL` makes them.
      example: nozgurt demand examples/two-beams.net examples/calm-change.journal 1 |
               nozgurt edits examples/two-beams.net examples/calm-change.journal -

  installed NET JOURNAL [EDITION]
      Prints the burst time plan that is installed of an edition, by the journal
      in the file JOURNAL on the network in the file NET, as `check`, `timing`
      and `chart plan` read it. EDITION is 1 to 4294967295; without it the plan
      is the newest. The file stays as it is.
      example: nozgurt installed examples/two-beams.net
               examples/calm-change.journal

  json FILE
      Prints each line of a text as an object of JSON, a line each: under `form` the
      form of the line, as docs/formats.md has it, and under the name of each open
      place the word that stands there, a number where it is one; a line of no form
      has its text under `text`. So what a run, a session or a journal says, and any
      other text, goes to a program that reads JSON.
      example: nozgurt run examples/two-beams.net examples/calm-change.script told.journal |
               nozgurt json -

  metrics NET JOURNAL
      Prints the state of the journal in the file JOURNAL on the network in the
      file NET as gauges in the text format of Prometheus: the last edition; the
      newest plan with its slots, modes and bursts; the bytes of the journal's
      changes, and how many more the network allows; and of each beam, by `beam`
      and `way`, the slots that are asked and free, as `state` has them. The file
      stays as it is.
      example: nozgurt metrics examples/two-beams.net
               examples/calm-change.journal

  state NET JOURNAL
      Prints what the journal in the file JOURNAL has come to on the network in
      the file NET: the last edition, the newest plan with its length, modes and
      bursts, and how many orders were placed; `journal BYTES of LIMIT`, the
      bytes of its changes and how many the network allows; `torn BYTES`, where
      so many stand behind its last newline; and what is asked of each beam and
      free there, as `capacity` does. Where a line is wrong, the first such line
      is named, as by `replay`. The file stays as it is.
      example: nozgurt state examples/two-beams.net
               examples/calm-change.journal

other words
  --help      prints this page
  --version   prints the version

One file of a command that is read may be the word `-`, standard input, but not
the network, nor a journal that is written; a file of that name is `./-`.

exit status
";

/// What it prints behind them.
const LETTERS: &str = "  The letter of a CODE names the file that is at fault: N the network, X the
  matrix, M the modes, T the traffic, P the plan, G the delays, S the script, J
  the journal, O the text of `json`.
  With status 125 the program was not started: it is not built, or another has
  the journal.
  docs/formats.md, the man page nozgurt-formats(5), has the texts of all files
  and explains each code.
";

/// The forms of the commands: of each its word, and the names of the words behind it.
pub const FORMS: [&str; 21] = [
    "capacity NET TRAFFIC",
    "check MATRIX MODES",
    "check NET TRAFFIC PLAN",
    "make N NUMBER",
    "modes MATRIX",
    "plan NET TRAFFIC",
    "timing NET TRAFFIC PLAN DELAYS",
    "traffic NET CSV",
    "trans K MATRIX",
    "centre NET JOURNAL",
    "live NET JOURNAL",
    "replay NET JOURNAL",
    "run NET SCRIPT JOURNAL",
    "carry NET JOURNAL NEWNET",
    "compact NET JOURNAL",
    "demand NET JOURNAL [EDITION]",
    "edits NET JOURNAL TRAFFIC [DESK]",
    "installed NET JOURNAL [EDITION]",
    "json FILE",
    "metrics NET JOURNAL",
    "state NET JOURNAL",
];

/// What `--version` prints.
const VERSION: &str = "nozgurt 0.3.0\n";

/// The page that the words ask for; None where they ask for none.
pub fn page_of(alloc: Global, words: &[String]) -> Result<Option<Vec<u8>>, OutOfMemory> {
    match words {
        [word] if word.as_str() == "--help" => Ok(Some(help(alloc)?)),
        [word] if word.as_str() == "--version" => {
            Ok(Some(Vec::from_slice(alloc, VERSION.as_bytes())?))
        }
        _ => Ok(None),
    }
}

/// What `--help` prints.
fn help(alloc: Global) -> Result<Vec<u8>, OutOfMemory> {
    let mut page = Vec::new(alloc);
    page.extend_from_slice(COMMANDS.as_bytes())?;
    add_statuses(alloc, Program::Nozgurt, &mut page)?;
    page.extend_from_slice(LETTERS.as_bytes())?;
    Ok(page)
}
