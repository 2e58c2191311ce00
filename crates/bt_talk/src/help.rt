// What a session tells of its lines.
ghost use Rattle.std.specs.Prelude.{◌≡◌, IfOk};
ghost use Rattle.bt_talk.specs.Help.{help_text};

use bt_frame::OutOfMemory;
use bt_script::Sites;
use std::alloc::Global;

/// The lines that a session of a simulated air has, and what each does, in the order of `docs/formats.md`.
const HELP: &str = "\
round: a block of lines begins\n\
go: the block is played as one round\n\
all: the block is played line by line, where each of its edits would be done\n\
try: it is told what the block would come to, and the block is given up\n\
forget: the block is given up\n\
forget @WORD: the block of that tag is given up\n\
blocks: the blocks that are open\n\
@WORD LINE: the line, for the block of that tag\n\
desk D add FROM TO UNITS: desk D wants so many slots more for the link\n\
desk D drop FROM TO UNITS: desk D wants so many fewer\n\
desk D move FROM TO NEWFROM NEWTO UNITS: so many fewer for the one, and more for the other\n\
desk D set FROM TO UNITS: the add or drop that brings the link to so many slots\n\
desk D undo K: the edit that takes back the one that made edition K\n\
desk D show NAME: the bursts that the terminal transmits by the newest plan\n\
plan: the planner plans the last edition\n\
tick: the next superframe begins\n\
turn: the centre has its turn\n\
back E: from the next turn on edition E is brought to the front\n\
ahead: from the next turn on the newest edition is\n\
flow: all that waits is delivered\n\
lose all: all that waits is lost\n\
lose sat, lose centre, lose NAME: what waits for that receiver is lost\n\
deliver K sat, deliver K centre, deliver K NAME: message K is delivered\n\
frame: the next frame of the superframe is shown\n\
reset NAME: the terminal restarts\n\
standby hears K: the standby hears message K\n\
standby burst: the standby sends a reference burst\n\
restart: the centre restarts\n\
state: how far the book has come\n\
capacity: what the demand leaves free\n\
room FROM TO: the most units that one add may have\n\
demand: the links of the demand\n\
installed: the newest plan\n\
plans: the editions that have a plan\n\
air: what the centre knows of the air\n\
waiting: the messages on their way\n\
clock on, clock off: whether each answer says when it is given\n\
help: these lines\n";

/// Those that a session has whose sites are apart.
const APART_HELP: &str = "\
round: a block of lines begins\n\
go: the block is played as one round\n\
all: the block is played line by line, where each of its edits would be done\n\
try: it is told what the block would come to, and the block is given up\n\
forget: the block is given up\n\
forget @WORD: the block of that tag is given up\n\
blocks: the blocks that are open\n\
@WORD LINE: the line, for the block of that tag\n\
desk D add FROM TO UNITS: desk D wants so many slots more for the link\n\
desk D drop FROM TO UNITS: desk D wants so many fewer\n\
desk D move FROM TO NEWFROM NEWTO UNITS: so many fewer for the one, and more for the other\n\
desk D set FROM TO UNITS: the add or drop that brings the link to so many slots\n\
desk D undo K: the edit that takes back the one that made edition K\n\
desk D show NAME: the bursts that the terminal transmits by the newest plan\n\
plan: the planner plans the last edition\n\
mark N: superframe N begins\n\
radio N HEX: a message that was said in superframe N\n\
turn: the centre has its turn\n\
back E: from the next turn on edition E is brought to the front\n\
ahead: from the next turn on the newest edition is\n\
restart: the centre restarts\n\
state: how far the book has come\n\
capacity: what the demand leaves free\n\
room FROM TO: the most units that one add may have\n\
demand: the links of the demand\n\
installed: the newest plan\n\
plans: the editions that have a plan\n\
air: what the centre knows of the air\n\
clock on, clock off: whether each answer says when it is given\n\
help: these lines\n";

/// The lines that a session has, a short line each.
pub fn help_text(alloc: Global, sites: Sites) -> Result<Vec<u8>, OutOfMemory>
    ensures text { IfOk result (λ text. text.items ≡ help_text sites) }
{
    match sites {
        Sites::Together => text_of(alloc, HELP),
        Sites::Apart => text_of(alloc, APART_HELP),
    }
}

/// These lines.
fn text_of(alloc: Global, lines: &str) -> Result<Vec<u8>, OutOfMemory>
    ensures text { IfOk result (λ text. text.items ≡ lines.now) }
{
    let mut text = Vec::new(alloc);
    text.extend_from_slice(lines.as_bytes())?;
    Ok(text)
}
