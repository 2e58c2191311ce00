// The block of a tag, and what a line comes to in it.
//
//     line                  where the block is closed   where it is open
//     empty, or with `#`    nothing                     nothing
//     `round`               opens it                    fault S4
//     `go`                  fault S4                    plays it, and closes it
//     `forget`              fault S4                    closes it
//     `all`                 fault S4                    plays it where each of its edits would be done, and closes it
//     `try`                 fault S4                    is told what it would come to, and closes it
//     `restart`             the centre restarts         fault S4
//     what asks             is told                     is told
//     another of a script   a round by itself           joins it; fault S5 where it is full
//     at fault              its fault                   its fault
//
// Where the sites are apart the lines of a simulated air, and `waiting`, are fault S1.
ghost use Rattle.std.specs.Prelude.{◌≡◌, ◌≤◌, ◌++◌, ◌∷◌, [], None, Some, IfOk, IfSome, All, length, map, option_map, OnOk};
ghost use Rattle.bt_frame.specs.declared.limits.TheConstants.{MOST_LINES};
ghost use Rattle.bt_text.specs.Text.{words};
ghost use Rattle.bt_net.specs.Network.{Net};
ghost use Rattle.bt_net.specs.Terminals.{IsTerminal};
ghost use Rattle.bt_script.specs.Named.{IsRoundFor};
ghost use Rattle.bt_script.specs.Said.{IsSaidFor};
ghost use Rattle.bt_talk.specs.Asked.{edits_in, is_edit, others_in, round_alone, round_if, rounds_in_turn};
ghost use Rattle.bt_talk.specs.Block.{IsOwnFor, IsQueryFor, IsStepFor, all_row, block_row, forget_row, go_row, has_line, is_of_centre, joined, line_row, lone_row, named_row, plays, room_names, room_row, said_row, try_row, waiting_asked, wish_row, word_asked};
ghost use Rattle.bt_talk.specs.Wishes.{IsWishedFor};

use crate::wish::Wished;
use bt_frame::{MOST_LINES, OutOfMemory, TermNo};
use bt_net::{Network, are_names};
use bt_script::{
    AirLine, DeskLine, Item, Round, ScriptCode, ScriptFault, ScriptLine, Sites, read_line,
    round_in_front,
};
use bt_text::{WordReader, is_word};
use std::alloc::Global;
use std::marker::Model;

/// The lines of the blocks that are open, as text.
#[derive(Drop)]
pub struct BlockLines {
    text: Vec<u8>,
}

impl Model for BlockLines {
    ghost use Rattle.std.specs.Prelude.{ℕ, List};

    ghost Value = { List ℕ };

    ghost view = { λ a. a.text.items };
}

impl BlockLines {
    /// These lines.
    pub(crate) fn of(text: Vec<u8>) -> BlockLines
        ensures same { result ≡ text.items }
    {
        BlockLines { text }
    }

    /// The text.
    pub fn into_text(self) -> Vec<u8>
        ensures same { result.items ≡ self }
    {
        self.text
    }
}

/// The lines of a block that was closed, at most `MOST_LINES`.
#[derive(Drop)]
pub struct SaidLines {
    lines: Vec<ScriptLine>,
}

impl Model for SaidLines {
    ghost use Rattle.std.specs.Prelude.{◌≤◌, List, length};
    ghost use Rattle.bt_frame.specs.declared.limits.TheConstants.{MOST_LINES};
    ghost use Rattle.bt_script.specs.declared.line.ScriptLine.{ScriptLine};

    ghost Value = { List ScriptLine };

    ghost view = { λ a. a.lines.items };

    ghost invariant = { λ a. length a.lines.items ≤ MOST_LINES };
}

impl SaidLines {
    /// The lines in order.
    pub fn as_slice(&self) -> &[ScriptLine]
        ensures same { result.now ≡ self.now }
        ensures few { length self.now ≤ MOST_LINES }
    {
        self.lines.as_slice()
    }

    /// The rounds in which they are played one by one: each edit is one by itself, in the order in which they stand, and the other lines
    /// are one behind them.
    pub fn rounds_in_turn(&self, alloc: Global, net: &Network) -> Result<Vec<Round>, OutOfMemory>
        requires terminals { All (IsSaidFor net.now) self.now }
        ensures rounds { IfOk result (λ rounds. rounds.items ≡ rounds_in_turn self.now) }
        ensures terminals { IfOk result (λ rounds. All (IsRoundFor net.now) rounds.items) }
        ensures few { length (rounds_in_turn self.now) ≤ MOST_LINES }
    {
        turns_are_few(self.lines.as_slice());
        rounds_of(alloc, net, self.lines.as_slice())
    }
}

/// What a line asks that changes nothing.
#[derive(Drop)]
pub enum Query {
    /// How far the book has come.
    State,
    /// What the demand leaves free.
    Capacity,
    /// The most units that one add from a terminal to another may have.
    Room { from: TermNo, to: TermNo },
    /// The links of the demand.
    Demand,
    /// The newest plan.
    Installed,
    /// The editions that have a plan.
    Plans,
    /// What the centre knows of the air.
    Air,
    /// The messages that are on their way.
    Waiting,
    /// The lines that a session has, by where its sites are.
    Help(Sites),
    /// The blocks that are open: these.
    Blocks(BlockLines),
    /// What these lines would come to.
    Try(SaidLines),
}

/// What a line of a session comes to.
#[derive(Drop)]
pub enum Step {
    /// Nothing is played.
    Nothing,
    /// The line is at fault, and has no effect.
    Fault(ScriptCode),
    /// This part is played.
    Plays(Item),
    /// This is told, and nothing is played.
    Tells(Query),
    /// These are played, where each of their edits would be done; else nothing is.
    All(SaidLines),
    /// From here on answers say when they are given, or they don't.
    Clock(bool),
}

/// The block of a tag: the lines that wait in it, where it is open.
#[derive(Drop)]
pub(crate) struct Block {
    said: Option<Vec<ScriptLine>>,
}

impl Model for Block {
    ghost use Rattle.std.specs.Prelude.{◌≤◌, List, Option, IfSome, length, option_map};
    ghost use Rattle.bt_frame.specs.declared.limits.TheConstants.{MOST_LINES};
    ghost use Rattle.bt_script.specs.declared.line.ScriptLine.{ScriptLine};

    ghost Value = { Option (List ScriptLine) };

    ghost view = { λ a. option_map (λ said. said.items) a.said };

    ghost invariant = { λ a. IfSome a.said (λ said. length said.items ≤ MOST_LINES) };
}

impl Block {
    /// It is closed.
    pub(crate) fn closed() -> Block
        ensures closed { result ≡ None }
    {
        Block { said: None }
    }

    /// It is open, with these lines.
    pub(crate) fn open(said: Vec<ScriptLine>) -> Block
        requires few { length said.items ≤ MOST_LINES }
        ensures open { result ≡ Some said.items }
    {
        Block { said: Some(said) }
    }

    /// The lines that wait in it, where it is open.
    pub(crate) fn into_said(self) -> Option<Vec<ScriptLine>>
        ensures same { option_map (λ said. said.items) result ≡ self }
        ensures few { IfSome result (λ said. length said.items ≤ MOST_LINES) }
    {
        self.said
    }

    /// What a line comes to, and the block behind it.
    pub(crate) fn line(
        self,
        alloc: Global,
        net: &Network,
        sites: Sites,
        text: &[u8],
    ) -> Result<(Block, Step), OutOfMemory>
        requires terminals { IsOwnFor net.now self }
        ensures row { IfOk result (λ on. (on.0, on.1) ≡ line_row net.now sites self text.now) }
        ensures terminals { IfOk result (λ on. IsOwnFor net.now on.0) }
        ensures part { IfOk result (λ on. IsStepFor net.now on.1) }
    {
        if is_word(text, b"go") {
            return self.go(alloc, net);
        }
        if is_word(text, b"forget") {
            return Ok(self.forget());
        }
        if is_word(text, b"all") {
            return Ok(self.all());
        }
        if is_word(text, b"try") {
            return Ok(self.tried());
        }
        match word_asked(sites, text) {
            Some(query) => Ok((self, Step::Tells(query))),
            None => self.named(alloc, net, sites, text),
        }
    }

    /// What a line comes to that wishes this, if it wishes something.
    pub(crate) fn wish(
        self,
        alloc: Global,
        net: &Network,
        sites: Sites,
        text: &[u8],
        wished: Option<Wished>,
    ) -> Result<(Block, Step), OutOfMemory>
        requires terminals { IsOwnFor net.now self }
        requires wished { IfSome wished (IsWishedFor net.now) }
        ensures row { IfOk result (λ on. (on.0, on.1) ≡ wish_row net.now sites self text.now wished) }
        ensures terminals { IfOk result (λ on. IsOwnFor net.now on.0) }
        ensures part { IfOk result (λ on. IsStepFor net.now on.1) }
    {
        match wished {
            Some(Ok(Some(one))) => self.says(alloc, net, one),
            Some(Ok(None)) => Ok((self, Step::Nothing)),
            Some(Err(code)) => Ok((self, Step::Fault(code))),
            None => self.line(alloc, net, sites, text),
        }
    }

    /// What a line comes to that is none of one word of sessions.
    fn named(
        self,
        alloc: Global,
        net: &Network,
        sites: Sites,
        text: &[u8],
    ) -> Result<(Block, Step), OutOfMemory>
        requires terminals { IsOwnFor net.now self }
        ensures row { IfOk result (λ on. (on.0, on.1) ≡ named_row net.now sites self text.now (room_names (words text.now))) }
        ensures terminals { IfOk result (λ on. IsOwnFor net.now on.0) }
        ensures part { IfOk result (λ on. IsStepFor net.now on.1) }
    {
        if let Some((from, to)) = room_names(text) {
            return Ok(self.room(net, net.terminal_named(from), net.terminal_named(to)));
        }
        match read_line(net, 1, true, text) {
            Ok(one) if has_line(sites, &one) => self.says(alloc, net, one),
            Ok(_) => Ok((self, Step::Fault(ScriptCode::S1))),
            Err(ScriptFault::At { code, .. }) => Ok((self, Step::Fault(code))),
            Err(ScriptFault::OutOfMemory) => Err(OutOfMemory),
        }
    }

    /// `room`, with the terminals of its names.
    fn room(self, net: &Network, from: Option<TermNo>, to: Option<TermNo>) -> (Block, Step)
        requires terminals { IsOwnFor net.now self }
        requires from { IfSome from (IsTerminal net.now) }
        requires to { IfSome to (IsTerminal net.now) }
        ensures row { (result.0, result.1) ≡ room_row self from to }
        ensures terminals { IsOwnFor net.now result.0 }
        ensures part { IsStepFor net.now result.1 }
    {
        match (from, to) {
            (Some(from), Some(to)) => (self, Step::Tells(Query::Room { from, to })),
            _ => (self, Step::Fault(ScriptCode::S2)),
        }
    }

    /// `go`.
    fn go(self, alloc: Global, net: &Network) -> Result<(Block, Step), OutOfMemory>
        requires terminals { IsOwnFor net.now self }
        ensures row { IfOk result (λ on. (on.0, on.1) ≡ go_row self) }
        ensures terminals { IfOk result (λ on. IsOwnFor net.now on.0) }
        ensures part { IfOk result (λ on. IsStepFor net.now on.1) }
    {
        match self.said {
            Some(said) => Ok((Block::closed(), part_of(alloc, net, said.as_slice())?)),
            None => Ok((Block::closed(), Step::Fault(ScriptCode::S4))),
        }
    }

    /// `forget`.
    fn forget(self) -> (Block, Step)
        ensures row { (result.0, result.1) ≡ forget_row self }
    {
        match self.said {
            Some(_) => (Block::closed(), Step::Nothing),
            None => (Block::closed(), Step::Fault(ScriptCode::S4)),
        }
    }

    /// `all`.
    fn all(self) -> (Block, Step)
        ensures row { (result.0, result.1) ≡ all_row self }
    {
        match self.said {
            Some(lines) => (Block::closed(), Step::All(SaidLines { lines })),
            None => (Block::closed(), Step::Fault(ScriptCode::S4)),
        }
    }

    /// `try`.
    fn tried(self) -> (Block, Step)
        ensures row { (result.0, result.1) ≡ try_row self }
    {
        match self.said {
            Some(lines) => (
                Block::closed(),
                Step::Tells(Query::Try(SaidLines { lines })),
            ),
            None => (Block::closed(), Step::Fault(ScriptCode::S4)),
        }
    }

    /// A line of a script.
    fn says(
        self,
        alloc: Global,
        net: &Network,
        one: ScriptLine,
    ) -> Result<(Block, Step), OutOfMemory>
        requires terminals { IsOwnFor net.now self }
        requires line { IsSaidFor net.now one }
        ensures row { IfOk result (λ on. (on.0, on.1) ≡ said_row self one) }
        ensures terminals { IfOk result (λ on. IsOwnFor net.now on.0) }
        ensures part { IfOk result (λ on. IsStepFor net.now on.1) }
    {
        match self.said {
            None => lone(alloc, net, one),
            Some(said) => waits(net, said, &one),
        }
    }
}

/// Whether a session has this line of a script.
fn has_line(sites: Sites, one: &ScriptLine) -> bool
    ensures { result ≡ has_line sites one.now }
{
    match (sites, one) {
        (Sites::Apart, ScriptLine::Air(own)) => is_of_centre(own),
        _ => true,
    }
}

/// Whether the line of the air is the centre's own, and none of a simulated air.
fn is_of_centre(line: &AirLine) -> bool
    ensures { result ≡ is_of_centre line.now }
{
    matches!(line, AirLine::Turn | AirLine::Back(_) | AirLine::Ahead)
}

/// What a line of one word asks.
fn word_asked(sites: Sites, text: &[u8]) -> Option<Query>
    ensures query { result ≡ word_asked sites text.now }
    ensures terminals { (net : Net) → IfSome result (IsQueryFor net) }
{
    if is_word(text, b"state") {
        Some(Query::State)
    } else if is_word(text, b"capacity") {
        Some(Query::Capacity)
    } else if is_word(text, b"demand") {
        Some(Query::Demand)
    } else if is_word(text, b"installed") {
        Some(Query::Installed)
    } else if is_word(text, b"plans") {
        Some(Query::Plans)
    } else if is_word(text, b"air") {
        Some(Query::Air)
    } else if is_word(text, b"waiting") {
        waiting_asked(sites)
    } else if is_word(text, b"help") {
        Some(Query::Help(sites))
    } else {
        None
    }
}

/// What `waiting` asks: where the sites are apart, nobody knows what is on its way.
fn waiting_asked(sites: Sites) -> Option<Query>
    ensures query { result ≡ waiting_asked sites }
    ensures terminals { (net : Net) → IfSome result (IsQueryFor net) }
{
    match sites {
        Sites::Together => Some(Query::Waiting),
        Sites::Apart => None,
    }
}

/// The names behind `room`, and no more words.
fn room_names(text: &[u8]) -> Option<(&[u8], &[u8])>
    ensures { option_map (λ names. (names.0.now, names.1.now)) result ≡ room_names (words text.now) }
{
    let mut words = WordReader::of(text);
    let Some(head) = words.next() else {
        return None;
    };
    let Some(from) = words.next() else {
        return None;
    };
    let Some(to) = words.next() else {
        return None;
    };
    if !words.is_done() || !is_word(head, b"room") || !are_names(from, to) {
        return None;
    }
    Some((from, to))
}

/// A line of a script where the block is closed.
fn lone(alloc: Global, net: &Network, one: ScriptLine) -> Result<(Block, Step), OutOfMemory>
    requires line { IsSaidFor net.now one }
    ensures row { IfOk result (λ on. (on.0, on.1) ≡ lone_row one) }
    ensures terminals { IfOk result (λ on. IsOwnFor net.now on.0) }
    ensures part { IfOk result (λ on. IsStepFor net.now on.1) }
{
    match one {
        ScriptLine::Remark => Ok((Block::closed(), Step::Nothing)),
        ScriptLine::Round => {
            let block = Block {
                said: Some(Vec::new(alloc)),
            };
            Ok((block, Step::Nothing))
        }
        ScriptLine::Restart => Ok((Block::closed(), Step::Plays(Item::Restart))),
        ScriptLine::Desk { .. } | ScriptLine::Plan | ScriptLine::Air(_) => {
            Ok((Block::closed(), part_of(alloc, net, &[one])?))
        }
    }
}

/// A line of a script where the block is open, with these lines.
fn waits(
    net: &Network,
    said: Vec<ScriptLine>,
    one: &ScriptLine,
) -> Result<(Block, Step), OutOfMemory>
    requires few { length said.items ≤ MOST_LINES }
    requires terminals { All (IsSaidFor net.now) said.items }
    requires line { IsSaidFor net.now one.now }
    ensures row { IfOk result (λ on. (on.0, on.1) ≡ block_row said.items one.now) }
    ensures terminals { IfOk result (λ on. IsOwnFor net.now on.0) }
    ensures part { IfOk result (λ on. IsStepFor net.now on.1) }
{
    match one {
        ScriptLine::Remark => Ok((Block { said: Some(said) }, Step::Nothing)),
        ScriptLine::Round | ScriptLine::Restart => {
            Ok((Block { said: Some(said) }, Step::Fault(ScriptCode::S4)))
        }
        ScriptLine::Desk { .. } | ScriptLine::Plan | ScriptLine::Air(_) => join(net, said, one),
    }
}

/// The line joins the block, where that has room.
fn join(
    net: &Network,
    said: Vec<ScriptLine>,
    one: &ScriptLine,
) -> Result<(Block, Step), OutOfMemory>
    requires few { length said.items ≤ MOST_LINES }
    requires terminals { All (IsSaidFor net.now) said.items }
    requires line { IsSaidFor net.now one.now }
    ensures row { IfOk result (λ on. (on.0, on.1) ≡ joined said.items one.now) }
    ensures terminals { IfOk result (λ on. IsOwnFor net.now on.0) }
    ensures part { IfOk result (λ on. IsStepFor net.now on.1) }
{
    if said.len() < MOST_LINES as usize {
        let said = added(said, one)?;
        Ok((Block { said: Some(said) }, Step::Nothing))
    } else {
        Ok((Block { said: Some(said) }, Step::Fault(ScriptCode::S5)))
    }
}

/// The items with one more behind them.
fn added<T: Copy + Drop>(mut items: Vec<T>, one: &T) -> Result<Vec<T>, OutOfMemory>
    ensures { IfOk result (λ all. all.items ≡ items.items ++ one.now ∷ []) }
{
    items.push(*one)?;
    Ok(items)
}

/// The rounds in which lines are played one by one.
fn rounds_of(alloc: Global, net: &Network, said: &[ScriptLine]) -> Result<Vec<Round>, OutOfMemory>
    requires terminals { All (IsSaidFor net.now) said.now }
    requires few { length said.now ≤ MOST_LINES }
    ensures rounds { IfOk result (λ rounds. rounds.items ≡ rounds_in_turn said.now) }
    ensures terminals { IfOk result (λ rounds. All (IsRoundFor net.now) rounds.items) }
{
    let (mut rounds, others) = edits_and_others(alloc, net, said)?;
    add_others(alloc, net, others.as_slice(), &mut rounds)?;
    Ok(rounds)
}

/// The rounds of the edits among lines, and the other lines.
fn edits_and_others(
    alloc: Global,
    net: &Network,
    said: &[ScriptLine],
) -> Result<(Vec<Round>, Vec<ScriptLine>), OutOfMemory>
    requires terminals { All (IsSaidFor net.now) said.now }
    requires few { length said.now ≤ MOST_LINES }
    ensures rounds { IfOk result (λ both. both.0.items ≡ map round_alone (edits_in said.now)) }
    ensures terminals { IfOk result (λ both. All (IsRoundFor net.now) both.0.items) }
    ensures others { IfOk result (λ both. both.1.items ≡ others_in said.now) }
    ensures names { IfOk result (λ both. All (IsSaidFor net.now) both.1.items) }
    ensures few { IfOk result (λ both. length both.1.items ≤ length said.now) }
{
    let mut rounds = Vec::new(alloc);
    let mut others = Vec::new(alloc);
    for one in said {
        add_turn(alloc, net, one, &mut rounds, &mut others)?;
    }
    Ok((rounds, others))
}

/// Adds a line to the rounds, where it is an edit, or to the others.
fn add_turn(
    alloc: Global,
    net: &Network,
    one: &ScriptLine,
    rounds: &mut Vec<Round>,
    others: &mut Vec<ScriptLine>,
) -> Result<(), OutOfMemory>
    requires line { IsSaidFor net.now one.now }
    requires rounds { All (IsRoundFor net.now) rounds.old.items }
    requires others { All (IsSaidFor net.now) others.old.items }
    ensures rounds { OnOk result (rounds.new.items ≡ rounds.old.items ++ map round_alone (edits_in (one.now ∷ []))) }
    ensures terminals { OnOk result (All (IsRoundFor net.now) rounds.new.items) }
    ensures others { OnOk result (others.new.items ≡ others.old.items ++ others_in (one.now ∷ [])) }
    ensures names { OnOk result (All (IsSaidFor net.now) others.new.items) }
{
    if is_edit(one) {
        return add_round(net, round_in_front(alloc, &[*one])?, rounds);
    }
    others.push(*one)?;
    Ok(())
}

/// Adds the round of the other lines, where there are some.
fn add_others(
    alloc: Global,
    net: &Network,
    others: &[ScriptLine],
    rounds: &mut Vec<Round>,
) -> Result<(), OutOfMemory>
    requires terminals { All (IsSaidFor net.now) others.now }
    requires few { length others.now ≤ MOST_LINES }
    requires rounds { All (IsRoundFor net.now) rounds.old.items }
    ensures rounds { OnOk result (rounds.new.items ≡ rounds.old.items ++ round_if others.now) }
    ensures terminals { OnOk result (All (IsRoundFor net.now) rounds.new.items) }
{
    if others.is_empty() {
        return Ok(());
    }
    add_round(net, round_in_front(alloc, others)?, rounds)
}

/// Adds a round, which names terminals of the network alone.
fn add_round(_net: &Network, round: Round, rounds: &mut Vec<Round>) -> Result<(), OutOfMemory>
    requires round { IsRoundFor _net.now round }
    requires rounds { All (IsRoundFor _net.now) rounds.old.items }
    ensures rounds { OnOk result (rounds.new.items ≡ rounds.old.items ++ round ∷ []) }
    ensures terminals { OnOk result (All (IsRoundFor _net.now) rounds.new.items) }
{
    rounds.push(round)?;
    Ok(())
}

/// The lines of a block are no more rounds than they are.
fn turns_are_few(said: &[ScriptLine])
    ensures few { length (rounds_in_turn said.now) ≤ length said.now }
{}

/// Whether a line is an edit of a desk.
fn is_edit(one: &ScriptLine) -> bool
    ensures { result ≡ is_edit one.now }
{
    matches!(
        one,
        ScriptLine::Desk {
            line: DeskLine::Edit(_),
            ..
        }
    )
}

/// The round of these lines is played.
fn part_of(alloc: Global, net: &Network, said: &[ScriptLine]) -> Result<Step, OutOfMemory>
    requires few { length said.now ≤ MOST_LINES }
    requires terminals { All (IsSaidFor net.now) said.now }
    ensures part { IfOk result (λ step. step ≡ plays said.now) }
    ensures terminals { IfOk result (λ step. IsStepFor net.now step) }
{
    let round = round_in_front(alloc, said)?;
    Ok(Step::Plays(Item::Round(round)))
}
