// The blocks that are open, each of a tag of its own, and what a line comes to.
//
//     line                     comes to
//     of the bus               is heard
//     `blocks`                 the blocks that are open are told
//     `clock on`, `clock off`  from here on answers say when they are given, or they don't
//     `forget @WORD`           closes the block of that tag; fault S4 where that is closed
//     another                  its row of `block.rt` in the block of its tag; fault S5 where it opens one block too many
//     none                     fault S1
//
// Where the sites are together no line is one of the bus. A line without a tag belongs to the block of those that have none.
ghost use Rattle.std.specs.Prelude.{◌≡◌, ◌≤◌, ◌++◌, [], None, OnOk, IfOk, IfSome, length, take, drop, option_map};
ghost use Rattle.std.specs.List.{position_or_len};
ghost use Rattle.bt_text.specs.Text.{is_word, words};
ghost use Rattle.bt_net.specs.Network.{Net};
ghost use Rattle.bt_script.specs.Heard.{IsOnBus};
ghost use Rattle.bt_talk.specs.Answers.{count_in};
ghost use Rattle.bt_talk.specs.Block.{IsStepFor};
ghost use Rattle.bt_talk.specs.Blocks.{IsOpenFor, heard_by, in_own_row, kept_row, line_bytes, other_row, own_of, row_of, tagged_row, with_said};
ghost use Rattle.bt_talk.specs.Wishes.{IsWishedFor};
ghost use Rattle.bt_talk.specs.Opened.{OpenBlock, block_line, block_lines, line_since};

use crate::block::{Block, BlockLines, Query, Step};
use crate::clock::clock_asked;
use crate::tag::{cut_tag, forgotten};
use crate::wish::{Wished, wished_in};
use bt_book::Book;
use bt_frame::{MOST_SESSION_LINE_BYTES, MOST_STATION_LINE_BYTES, OutOfMemory};
use bt_net::Network;
use bt_outside::Keeper;
use bt_script::{BusLine, Item, ScriptCode, ScriptLine, Sites, read_bus_line};
use bt_text::is_word;
use bt_words::{Form, Word, print};
use std::alloc::Global;
use std::marker::Model;

/// How many blocks may be open.
pub const MOST_OPEN_BLOCKS: usize = 16;

/// A block that is open: the tag of its lines, the number of the line that opened it, and its lines.
#[derive(Drop)]
struct Opened {
    tag: Vec<u8>,
    since: u64,
    said: Vec<ScriptLine>,
}

impl Model for Opened {
    ghost use Rattle.std.specs.Prelude.{◌≤◌, length};
    ghost use Rattle.bt_frame.specs.declared.limits.TheConstants.{MOST_LINES};
    ghost use Rattle.bt_talk.specs.Wishes.{IsWishedFor};
    ghost use Rattle.bt_talk.specs.Opened.{OpenBlock};

    ghost Value = { OpenBlock };

    ghost view = { λ a. record { tag = a.tag.items; since = a.since; said = a.said.items } };

    ghost invariant = { λ a. length a.said.items ≤ MOST_LINES };
}

/// The blocks of a session that are open, in the order in which they were opened.
#[derive(Drop)]
pub struct Blocks {
    open: Vec<Opened>,
}

impl Model for Blocks {
    ghost use Rattle.std.specs.Prelude.{List};
    ghost use Rattle.bt_talk.specs.Wishes.{IsWishedFor};
    ghost use Rattle.bt_talk.specs.Opened.{OpenBlock};

    ghost Value = { List OpenBlock };

    ghost view = { λ a. a.open.items };
}

impl Blocks {
    /// No block is open.
    pub fn none(alloc: Global) -> Blocks
        ensures none { result ≡ [] }
    {
        Blocks {
            open: Vec::new(alloc),
        }
    }

    /// How many lines wait in the block of this tag, where it is open.
    pub(crate) fn count(&self, tag: &[u8]) -> Option<u64>
        ensures { result ≡ count_in tag.now self.now }
    {
        let open = self.open.as_slice();
        let place = place_of(open, tag);
        if place == open.len() {
            return None;
        }
        let one = &open[place];
        Some(one.said.len() as u64)
    }

    /// What comes as line `at`, where the book holds this, is a line, or None where it is none: what it comes to, and the blocks that are
    /// open behind it.
    pub fn take<K: Keeper>(
        self,
        alloc: Global,
        net: &Network,
        sites: Sites,
        at: u64,
        book: &Book<K>,
        came: Option<&[u8]>,
    ) -> Result<(Blocks, Step), OutOfMemory>
        requires terminals { IsOpenFor net.now self }
        requires network { book.now.net ≡ net.now }
        requires short { IfSome came (λ text. length text.now ≤ line_bytes sites) }
        ensures row { IfOk result (λ on. (on.0, on.1) ≡ row_of net.now sites at self book.now.state.changes (option_map (λ text. text.now) came.entry)) }
        ensures terminals { IfOk result (λ on. IsOpenFor net.now on.0) }
        ensures part { IfOk result (λ on. IsStepFor net.now on.1) }
    {
        let Some(text) = came else {
            return Ok((self, Step::Fault(ScriptCode::S1)));
        };
        match heard_by(alloc, sites, text)? {
            Some(one) => Ok((self, Step::Plays(Item::Heard(one)))),
            None => {
                let (tag, line) = cut_tag(text);
                self.line(alloc, net, sites, at, book, tag, line)
            }
        }
    }

    /// What a line behind its tag comes to.
    fn line<K: Keeper>(
        self,
        alloc: Global,
        net: &Network,
        sites: Sites,
        at: u64,
        book: &Book<K>,
        tag: &[u8],
        text: &[u8],
    ) -> Result<(Blocks, Step), OutOfMemory>
        requires terminals { IsOpenFor net.now self }
        requires network { book.now.net ≡ net.now }
        ensures row { IfOk result (λ on. (on.0, on.1) ≡ tagged_row net.now sites at self book.now.state.changes tag.now text.now) }
        ensures terminals { IfOk result (λ on. IsOpenFor net.now on.0) }
        ensures part { IfOk result (λ on. IsStepFor net.now on.1) }
    {
        if is_word(text, b"blocks") {
            let listed = self.listed(alloc)?;
            return Ok((self, Step::Tells(Query::Blocks(listed))));
        }
        if let Some(on) = clock_asked(text) {
            return Ok((self, Step::Clock(on)));
        }
        match forgotten(text) {
            Some(other) => Ok(self.forget(net, other)),
            None => {
                let wished = wished_in(net, book, text);
                self.own(alloc, net, sites, at, tag, text, wished)
            }
        }
    }

    /// The lines of the blocks that are open.
    fn listed(&self, alloc: Global) -> Result<BlockLines, OutOfMemory>
        ensures { IfOk result (λ lines. lines ≡ block_lines self.now) }
    {
        let mut text = Vec::new(alloc);
        add_blocks(alloc, self.open.as_slice(), &mut text)?;
        Ok(BlockLines::of(text))
    }

    /// `forget @WORD`.
    fn forget(self, net: &Network, other: &[u8]) -> (Blocks, Step)
        requires terminals { IsOpenFor net.now self }
        ensures row { (result.0, result.1) ≡ other_row self other.now }
        ensures terminals { IsOpenFor net.now result.0 }
        ensures part { IsStepFor net.now result.1 }
    {
        let Blocks { mut open } = self;
        let place = place_of(open.as_slice(), other);
        if place == open.len() {
            return (Blocks { open }, Step::Fault(ScriptCode::S4));
        }
        open.remove(place);
        (Blocks { open }, Step::Nothing)
    }

    /// A line in the block of its tag, which wishes this, if it wishes something.
    fn own(
        self,
        alloc: Global,
        net: &Network,
        sites: Sites,
        at: u64,
        tag: &[u8],
        text: &[u8],
        wished: Option<Wished>,
    ) -> Result<(Blocks, Step), OutOfMemory>
        requires terminals { IsOpenFor net.now self }
        requires wished { IfSome wished (IsWishedFor net.now) }
        ensures row { IfOk result (λ on. (on.0, on.1) ≡ in_own_row net.now sites at self tag.now text.now wished) }
        ensures terminals { IfOk result (λ on. IsOpenFor net.now on.0) }
        ensures part { IfOk result (λ on. IsStepFor net.now on.1) }
    {
        let Blocks { mut open } = self;
        let place = place_of(open.as_slice(), tag);
        if place == open.len() {
            let (own, step) = Block::closed().wish(alloc, net, sites, text, wished)?;
            return keep(alloc, at, tag, open, own, step);
        }
        let one = open.remove(place);
        let Opened { tag, since, said } = one;
        let (own, step) = Block::open(said).wish(alloc, net, sites, text, wished)?;
        put_back(&mut open, place, tag, since, own)?;
        Ok((Blocks { open }, step))
    }
}

/// The place of the block of a tag, or how many are open where that is closed.
fn place_of(blocks: &[Opened], tag: &[u8]) -> usize
    ensures place { result ≡ position_or_len (λ one. is_word tag.now one.tag) blocks.now }
    ensures within { result ≤ length blocks.now }
{
    let mut place = 0;
    while place < blocks.len() {
        let one = &blocks[place];
        if is_word(one.tag.as_slice(), tag) {
            return place;
        }
        place += 1;
    }
    place
}

/// The blocks behind line `at`, whose tag's block was closed before it and is so behind it.
fn keep(
    alloc: Global,
    at: u64,
    tag: &[u8],
    mut blocks: Vec<Opened>,
    own: Block,
    step: Step,
) -> Result<(Blocks, Step), OutOfMemory>
    requires closed { own_of tag.now blocks.items ≡ None }
    ensures { IfOk result (λ on. (on.0, on.1) ≡ kept_row at tag.now blocks.items (own, step)) }
{
    let Some(said) = own.into_said() else {
        return Ok((Blocks { open: blocks }, step));
    };
    if blocks.len() >= MOST_OPEN_BLOCKS {
        return Ok((Blocks { open: blocks }, Step::Fault(ScriptCode::S5)));
    }
    let mut copy = Vec::new(alloc);
    copy.extend_from_slice(tag)?;
    let one = Opened {
        tag: copy,
        since: at,
        said,
    };
    blocks.push(one)?;
    Ok((Blocks { open: blocks }, step))
}

/// Puts a block back at its place, where it is still open.
fn put_back(
    blocks: &mut Vec<Opened>,
    place: usize,
    tag: Vec<u8>,
    since: u64,
    own: Block,
) -> Result<(), OutOfMemory>
    requires place { place ≤ length blocks.old.items }
    ensures { OnOk result (blocks.new.items ≡ take place blocks.old.items ++ with_said (record { tag = tag.items; since = since; said = [] }) own ++ drop place blocks.old.items) }
{
    let Some(said) = own.into_said() else {
        return Ok(());
    };
    let one = Opened { tag, since, said };
    blocks.insert(place, one)?;
    Ok(())
}

/// Appends the lines of blocks.
fn add_blocks(alloc: Global, blocks: &[Opened], text: &mut Vec<u8>) -> Result<(), OutOfMemory>
    ensures lines { OnOk result (text.new.items ≡ text.old.items ++ block_lines blocks.now) }
{
    for one in blocks {
        add_block(alloc, one, text)?;
    }
    Ok(())
}

/// Appends the line of a block.
fn add_block(alloc: Global, one: &Opened, text: &mut Vec<u8>) -> Result<(), OutOfMemory>
    ensures line { OnOk result (text.new.items ≡ text.old.items ++ block_line one.now) }
{
    add_since(
        alloc,
        one.tag.as_slice(),
        one.since,
        one.said.len() as u64,
        text,
    )
}

/// Appends the line of a block with this tag, that opened with line `since` and has so many lines.
fn add_since(
    alloc: Global,
    tag: &[u8],
    since: u64,
    count: u64,
    text: &mut Vec<u8>,
) -> Result<(), OutOfMemory>
    ensures line { OnOk result (text.new.items ≡ text.old.items ++ line_since tag.now since count) }
{
    if tag.is_empty() {
        let words = [Word::Number(since), Word::Number(count)];
        return print(alloc, Form::BlockOpen, &words, text);
    }
    let words = [Word::Number(since), Word::Number(count), Word::Tag(tag)];
    print(alloc, Form::BlockOpenTag, &words, text)
}

/// The most bytes of a line.
pub fn line_bytes(sites: Sites) -> usize
    ensures { result ≡ line_bytes sites }
{
    match sites {
        Sites::Together => MOST_SESSION_LINE_BYTES,
        Sites::Apart => MOST_STATION_LINE_BYTES,
    }
}

/// The line of the bus that a session hears, if it is one.
fn heard_by(alloc: Global, sites: Sites, text: &[u8]) -> Result<Option<BusLine>, OutOfMemory>
    requires short { length text.now ≤ line_bytes sites }
    ensures line { IfOk result (λ line. line ≡ heard_by sites text.now) }
    ensures in_range { IfOk result (λ line. IfSome line IsOnBus) }
{
    match sites {
        Sites::Together => Ok(None),
        Sites::Apart => read_bus_line(alloc, text),
    }
}
