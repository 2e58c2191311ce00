// What an operator asks first: how far the journal has come, and how full it is.
ghost use Rattle.std.specs.Prelude.{◌≡◌, ◌++◌, flat_map, OnOk};
ghost use Rattle.bt_chart.specs.Pieces.{fact_of, facts_text, full_text, heading_text, state_text, torn_text};

use crate::pieces::{add_bar, add_fact, add_words};
use bt_frame::OutOfMemory;
use bt_words::Word;
use std::alloc::Global;

/// A number and what it is called.
#[derive(Clone, Copy)]
pub struct Fact<'a> {
    pub term: &'a str,
    pub number: u64,
}

/// The numbers of a journal and of its newest plan.
#[derive(Clone, Copy)]
pub struct State {
    /// Edits of the demand that were made.
    pub edition: u64,
    /// The edition of the newest plan.
    pub plan: u64,
    /// The length of the newest plan, in slots.
    pub slots: u64,
    /// Slots of a frame.
    pub frame: u64,
    /// Modes of the newest plan.
    pub modes: u64,
    /// Bursts of the newest plan.
    pub bursts: u64,
    /// Orders that were placed.
    pub orders: u64,
    /// Bytes of the lines of changes.
    pub bytes: u64,
    /// The most bytes that these may have.
    pub limit: u64,
    /// Bytes behind the last newline.
    pub torn: u64,
}

/// Appends the state of a journal.
pub(crate) fn add_state(alloc: Global, state: State, out: &mut Vec<u8>) -> Result<(), OutOfMemory>
    ensures { OnOk result (out.new.items ≡ out.old.items ++ state_text state) }
{
    add_heading(alloc, state.edition, state.plan, out)?;
    add_facts_of(alloc, state, out)?;
    add_full(alloc, state.bytes, state.limit, out)?;
    add_torn(alloc, state.torn, out)
}

/// Appends the heading of the page, and what opens the list of numbers.
fn add_heading(alloc: Global, edition: u64, plan: u64, out: &mut Vec<u8>) -> Result<(), OutOfMemory>
    ensures { OnOk result (out.new.items ≡ out.old.items ++ heading_text edition plan) }
{
    let words = [
        Word::Text("<h1>Edition "),
        Word::Number(edition),
        Word::Text(", <span>plan of edition "),
        Word::Number(plan),
        Word::Text("</span></h1>\n<section aria-labelledby='state'>\n"),
        Word::Text("<h2 id='state'>Journal and newest plan</h2>\n<dl>\n"),
    ];
    add_words(alloc, &words, out)
}

/// Appends the numbers that have no bar.
fn add_facts_of(alloc: Global, state: State, out: &mut Vec<u8>) -> Result<(), OutOfMemory>
    ensures { OnOk result (out.new.items ≡ out.old.items ++ facts_text state) }
{
    let facts = [
        Fact {
            term: "edition",
            number: state.edition,
        },
        Fact {
            term: "edition of the plan",
            number: state.plan,
        },
        Fact {
            term: "slots of the plan",
            number: state.slots,
        },
        Fact {
            term: "slots of a frame",
            number: state.frame,
        },
        Fact {
            term: "modes",
            number: state.modes,
        },
        Fact {
            term: "bursts",
            number: state.bursts,
        },
        Fact {
            term: "orders",
            number: state.orders,
        },
    ];
    add_facts(alloc, &facts, out)
}

/// Appends numbers, one behind the other.
fn add_facts(alloc: Global, facts: &[Fact<'_>], out: &mut Vec<u8>) -> Result<(), OutOfMemory>
    ensures { OnOk result (out.new.items ≡ out.old.items ++ flat_map fact_of facts.now) }
{
    for fact in facts {
        add_fact(alloc, fact.term, fact.number, out)?;
    }
    Ok(())
}

/// Appends how full the journal is.
fn add_full(alloc: Global, bytes: u64, limit: u64, out: &mut Vec<u8>) -> Result<(), OutOfMemory>
    ensures { OnOk result (out.new.items ≡ out.old.items ++ full_text bytes limit) }
{
    let words = [
        Word::Text("<div class='wide'><dt>bytes of the journal</dt><dd>"),
        Word::Number(bytes),
        Word::Text(" of "),
        Word::Number(limit),
        Word::Text(" "),
    ];
    add_words(alloc, &words, out)?;
    add_bar(alloc, bytes, limit, out)?;
    add_words(alloc, &[Word::Text("</dd></div>\n")], out)
}

/// Appends whether the journal ends with a whole line, and what closes the list of numbers.
fn add_torn(alloc: Global, torn: u64, out: &mut Vec<u8>) -> Result<(), OutOfMemory>
    ensures { OnOk result (out.new.items ≡ out.old.items ++ torn_text torn) }
{
    if torn == 0 {
        let words = [
            Word::Text("<div><dt>last line</dt><dd>whole</dd></div>\n"),
            Word::Text("</dl>\n</section>\n"),
        ];
        return add_words(alloc, &words, out);
    }
    let words = [
        Word::Text("<div class='alarm'><dt>last line</dt><dd>torn: "),
        Word::Number(torn),
        Word::Text(" bytes</dd></div>\n</dl>\n</section>\n"),
    ];
    add_words(alloc, &words, out)
}
