// Reading the line of a change, whose words `writer.rt` shows. The kind says how many words follow and what each is; a plan
// is read as a text, its spaces turned to newlines where a line of it has as many words as its first word asks for.
ghost use Rattle.std.specs.Prelude.{◌≡◌, ◌≤◌, ◌+◌, ◌∷◌, [], ℕ, List, IfOk, IsErrOf, IfSome, IfNone, drop, length};
ghost use Rattle.bt_frame.specs.declared.limits.TheConstants.{MOST_BEAMS, MOST_TEXT_BYTES};
ghost use Rattle.bt_text.specs.Text.{words, lines};
ghost use Rattle.bt_journal.specs.declared.call.Change.{Change};
ghost use Rattle.bt_journal.specs.JournalLines.{change_line, edition_said, IsChangeInRange};
ghost use Rattle.bt_journal.specs.LineReading.{number_from, terminal_in, ends_in, units_in, link_in, links_in, edit_of, edit_in, said_edit, said_load, said_arm, said_small, said_plan, said_in, words_behind, left_behind, separator, in_lines, Answers};

use crate::{Change, Edit, JournalLineFault};
use bt_air::Order;
use bt_frame::{
    Command, EditionNo, LAST_COMMAND, LAST_EDITION, LAST_MARK, MOST_UNITS, Mark, OutOfMemory,
    TermNo, Units,
};
use bt_net::Network;
use bt_plan::{TextFault, read_plan};
use bt_text::{WordReader, first_line, is_word};
use std::alloc::Global;

/// The change of a line, which ends with its newline, and the edition that it says: the one that an edit makes, and that
/// of the plan or of the order.
pub fn read_change(
    alloc: Global,
    net: &Network,
    line: &[u8],
) -> Result<(EditionNo, Change), JournalLineFault>
    requires short { length line.now ≤ MOST_TEXT_BYTES }
    ensures line { IfOk result (λ read. line.now ≡ change_line net.now read.0.0 read.1) }
    ensures range { IfOk result (λ read. IsChangeInRange net.now read.0.0 read.1) }
    ensures edition { IfOk result (λ read. read.0 ≡ edition_said read.0.0 read.1) }
    ensures bad { IsErrOf result JournalLineFault.Bad → (number : ℕ) → (change : Change)
        → IsChangeInRange net.now number change → line.now ≡ change_line net.now number change → ⊥ }
{
    // This is there for what holds of each network: it is sound.
    let _beams = net.beam_count();
    let Some(text) = text_of(line) else {
        return Err(JournalLineFault::Bad);
    };
    read_change_of(alloc, net, line, text)
}

/// The same where the text of the line, its newline left out, is known.
pub fn read_change_of(
    alloc: Global,
    net: &Network,
    line: &[u8],
    text: &[u8],
) -> Result<(EditionNo, Change), JournalLineFault>
    requires text { lines line.now ≡ text.now ∷ [] ∷ [] }
    requires short { length line.now ≤ MOST_TEXT_BYTES }
    ensures line { IfOk result (λ read. line.now ≡ change_line net.now read.0.0 read.1) }
    ensures range { IfOk result (λ read. IsChangeInRange net.now read.0.0 read.1) }
    ensures edition { IfOk result (λ read. read.0 ≡ edition_said read.0.0 read.1) }
    ensures bad { IsErrOf result JournalLineFault.Bad → (number : ℕ) → (change : Change)
        → IsChangeInRange net.now number change → line.now ≡ change_line net.now number change → ⊥ }
{
    // This is there for what holds of each network: it is sound.
    let _beams = net.beam_count();
    said_in(alloc, net, text)
}

// The text of a line, whose only newline is its last byte.
pub(crate) fn text_of(line: &[u8]) -> Option<&[u8]>
    ensures text { IfSome result (λ text. lines line.now ≡ text.now ∷ [] ∷ []) }
    ensures none { IfNone result ((text : List ℕ) → lines line.now ≡ text ∷ [] ∷ [] → ⊥) }
{
    let (text, rest) = first_line(line)?;
    if rest.is_empty() { Some(text) } else { None }
}

// The change of a line, its newline left out.
fn said_in(
    alloc: Global,
    net: &Network,
    text: &[u8],
) -> Result<(EditionNo, Change), JournalLineFault>
    requires short { length text.now + 1 ≤ MOST_TEXT_BYTES }
    ensures { Answers result (said_in net.now (words text.now)) }
{
    let mut words = WordReader::of(text);
    let Some(kind) = words.next() else {
        return Err(JournalLineFault::Bad);
    };
    if is_word(kind, b"plan") {
        return said_plan(alloc, net, text);
    }
    said_small(net, kind, words).ok_or(JournalLineFault::Bad)
}

// A change of one of the kinds but a plan, by its first word and the words behind.
fn said_small(net: &Network, kind: &[u8], words: WordReader<'_>) -> Option<(EditionNo, Change)>
    ensures { result ≡ said_small net.now kind.now words.entry }
{
    if is_word(kind, b"edit") {
        said_edit(net, words)
    } else if is_word(kind, b"load") {
        said_load(words)
    } else if is_word(kind, b"arm") {
        said_arm(words)
    } else {
        None
    }
}

// What the words behind `edit` say.
#[inline(always)]
fn said_edit(net: &Network, mut words: WordReader<'_>) -> Option<(EditionNo, Change)>
    ensures { result ≡ said_edit net.now words.entry }
{
    let number = number_from(1, LAST_EDITION, &mut words)?;
    let edit = edit_in(net, words)?;
    Some((EditionNo(number), Change::Edit(edit)))
}

// What is edited.
fn edit_in(net: &Network, mut words: WordReader<'_>) -> Option<Edit>
    ensures { result ≡ edit_in net.now words.entry }
{
    let kind = words.next()?;
    edit_of(net, kind, words)
}

// What is edited, by the word that says it and the words behind.
#[inline(always)]
fn edit_of(net: &Network, kind: &[u8], words: WordReader<'_>) -> Option<Edit>
    ensures { result ≡ edit_of net.now kind.now words.entry }
{
    if is_word(kind, b"add") {
        let ((from, to), units) = link_in(net, words)?;
        Some(Edit::Add { from, to, units })
    } else if is_word(kind, b"drop") {
        let ((from, to), units) = link_in(net, words)?;
        Some(Edit::Drop { from, to, units })
    } else if is_word(kind, b"move") {
        let ((from, to), ((new_from, new_to), units)) = links_in(net, words)?;
        Some(Edit::Move {
            from,
            to,
            new_from,
            new_to,
            units,
        })
    } else {
        None
    }
}

// The ends of a link, and units.
type LinkUnits = ((TermNo, TermNo), Units);

// Two links and units.
fn links_in(net: &Network, mut words: WordReader<'_>) -> Option<((TermNo, TermNo), LinkUnits)>
    ensures { result ≡ links_in net.now words.entry }
{
    let link = ends_in(net, &mut words)?;
    let new = link_in(net, words)?;
    Some((link, new))
}

// A link and units.
fn link_in(net: &Network, mut words: WordReader<'_>) -> Option<LinkUnits>
    ensures { result ≡ link_in net.now words.entry }
{
    let link = ends_in(net, &mut words)?;
    let units = units_in(words)?;
    Some((link, units))
}

// Units, and no more words.
fn units_in(mut words: WordReader<'_>) -> Option<Units>
    ensures { result ≡ units_in words.entry }
{
    let units = number_from(1, MOST_UNITS, &mut words)?;
    if !words.is_done() {
        return None;
    }
    Units::new(units)
}

// The ends of the link in front, which it passes.
fn ends_in(net: &Network, words: &mut WordReader<'_>) -> Option<(TermNo, TermNo)>
    ensures ends { result ≡ ends_in net.now words.old }
    ensures rest { IfSome result (λ _. words.new ≡ drop 2 words.old) }
{
    let from = terminal_in(net, words)?;
    let to = terminal_in(net, words)?;
    Some((from, to))
}

// The terminal in front, which it passes.
#[inline(always)]
fn terminal_in(net: &Network, words: &mut WordReader<'_>) -> Option<TermNo>
    ensures terminal { result ≡ terminal_in net.now words.old }
    ensures rest { words.new ≡ drop 1 words.old }
{
    let name = words.next()?;
    net.terminal_named(name)
}

// The number in front, which it passes; None where it is not from `least` to `most`.
#[inline(always)]
pub(crate) fn number_from(least: u32, most: u32, words: &mut WordReader<'_>) -> Option<u32>
    ensures number { result ≡ number_from least most words.old }
    ensures rest { IfSome result (λ _. words.new ≡ drop 1 words.old) }
{
    let number = words.number_to(most)?;
    if number < least { None } else { Some(number) }
}

// What the words behind `load` say.
fn said_load(mut words: WordReader<'_>) -> Option<(EditionNo, Change)>
    ensures { result ≡ said_load words.entry }
{
    let command = number_from(1, LAST_COMMAND, &mut words)?;
    let edition = number_from(0, LAST_EDITION, &mut words)?;
    if !words.is_done() {
        return None;
    }
    let edition = EditionNo(edition);
    let command = Command(command);
    Some((edition, Change::Order(Order::Load { command, edition })))
}

// What the words behind `arm` say.
fn said_arm(mut words: WordReader<'_>) -> Option<(EditionNo, Change)>
    ensures { result ≡ said_arm words.entry }
{
    let command = number_from(1, LAST_COMMAND, &mut words)?;
    let edition = number_from(0, LAST_EDITION, &mut words)?;
    let due = number_from(1, LAST_MARK, &mut words)?;
    if !words.is_done() {
        return None;
    }
    let order = Order::Arm {
        command: Command(command),
        edition: EditionNo(edition),
        due: Mark(due),
    };
    Some((EditionNo(edition), Change::Order(order)))
}

// What a line says that begins with `plan`.
fn said_plan(
    alloc: Global,
    net: &Network,
    text: &[u8],
) -> Result<(EditionNo, Change), JournalLineFault>
    requires short { length text.now + 1 ≤ MOST_TEXT_BYTES }
    ensures { Answers result (said_plan net.now (words text.now)) }
{
    let plan = in_lines(alloc, net.beam_count(), text)?;
    match read_plan(alloc, net, plan.as_slice()) {
        Ok(plan) => Ok((plan.edition, Change::Install(plan))),
        Err(TextFault::OutOfMemory) => Err(JournalLineFault::OutOfMemory),
        Err(TextFault::At { .. }) => Err(JournalLineFault::Bad),
    }
}

// The words of a line as the lines of a plan's text.
fn in_lines(alloc: Global, beams: u32, text: &[u8]) -> Result<Vec<u8>, OutOfMemory>
    requires few { beams ≤ MOST_BEAMS }
    requires short { length text.now + 1 ≤ MOST_TEXT_BYTES }
    ensures lines { IfOk result (λ plan. plan.items ≡ in_lines beams 0 (words text.now)) }
{
    let mut plan = Vec::with_capacity(alloc, text.len() + 1)?;
    let mut words = WordReader::of(text);
    let mut left = 0;
    while let Some(word) = words.next() {
        left = left_behind(beams, left, word);
        plan.extend_from_slice(word)?;
        plan.push(separator(left))?;
    }
    Ok(plan)
}

// How many words of a line of a plan's text are left behind this one, where so many were left before.
fn left_behind(beams: u32, left: u32, word: &[u8]) -> u32
    requires few { beams ≤ MOST_BEAMS }
    ensures { result ≡ left_behind beams left word.now }
{
    if left == 0 {
        words_behind(beams, word)
    } else {
        left - 1
    }
}

// How many words stand behind this one where it begins a line of a plan's text.
fn words_behind(beams: u32, word: &[u8]) -> u32
    requires few { beams ≤ MOST_BEAMS }
    ensures { result ≡ words_behind beams word.now }
{
    if is_word(word, b"burst") {
        4
    } else if is_word(word, b"mode") {
        beams + 1
    } else if is_word(word, b"critical") {
        2
    } else if is_word(word, b"length") || is_word(word, b"plan") {
        1
    } else {
        0
    }
}

// What stands behind a word: a newline where it ends a line.
fn separator(left: u32) -> u8
    ensures { result ≡ separator left }
{
    if left == 0 { b'\n' } else { b' ' }
}
