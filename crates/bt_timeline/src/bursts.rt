// Lines that bursts stand under: what a desk is shown of a plan, and what is on the air in a frame.
ghost use Rattle.std.specs.Prelude.{◌≡◌, ◌==◌, ◌++◌, [], if◌then◌else◌, OnOk, OnErr, map};
ghost use Rattle.bt_demand.specs.Apart.{bursts_from};
ghost use Rattle.bt_net.specs.Terminals.{name_at};
ghost use Rattle.bt_timeline.specs.Air.{frame_lines};
ghost use Rattle.bt_words.specs.declared.form.Form.TheVariants as form;
ghost use Rattle.bt_words.specs.Filled.{form_line};
ghost use Rattle.bt_words.specs.Lines.{word_bytes};
ghost use Rattle.bt_timeline.specs.Timeline.{burst_line, burst_lines, show_lines};
ghost use Rattle.bt_words.specs.Written.{Extends};

use bt_air::AirFrame;
use bt_demand::Burst;
use bt_frame::{EditionNo, OutOfMemory, TermNo};
use bt_net::Network;
use bt_text::ShortText;
use bt_words::{Form, Word, print, put};
use std::alloc::Global;

/// Appends what a desk is shown of a plan: its edition, its length in slots and the number of its modes, and then those of
/// its bursts that a terminal sends.
pub fn show_text(
    alloc: Global,
    net: &Network,
    desk: u8,
    terminal: TermNo,
    edition: EditionNo,
    length: u32,
    modes: u32,
    bursts: &[Burst],
    out: &mut Vec<u8>,
) -> Result<(), OutOfMemory>
    ensures added { OnOk result (out.new.items ≡ out.old.items ++ show_lines net.now desk terminal edition length modes bursts.now) }
    ensures unchanged { OnErr result (out.new.items ≡ out.old.items) }
{
    let words = [
        Word::number(u32::from(desk)),
        Word::number(edition.0),
        Word::number(length),
        Word::number(modes),
    ];
    let before = out.len();
    let added = add_show(alloc, net, &words, terminal, bursts, out);
    if added.is_err() {
        out.truncate(before);
    }
    added
}

/// Appends the line of what a desk is shown, with these words, and under it the lines of the bursts that a terminal sends. Want of
/// memory leaves the first of them.
#[tactic(auto, using(bt_words::proofs::Extending::extends_on))]
fn add_show(
    alloc: Global,
    net: &Network,
    words: &[Word<'_>],
    terminal: TermNo,
    bursts: &[Burst],
    out: &mut Vec<u8>,
) -> Result<(), OutOfMemory>
    ensures added { OnOk result (out.new.items ≡ out.old.items ++ form_line form.Shows (map word_bytes words.now) ++ burst_lines net.now form.Burst (bursts_from terminal bursts.now)) }
    ensures kept { Extends out.old.items out.new.items }
{
    print(alloc, Form::Shows, words, out)?;
    add_sent(alloc, net, terminal, bursts, out)
}

/// Appends the lines of those bursts that a terminal sends. Want of memory leaves the first of them.
fn add_sent(
    alloc: Global,
    net: &Network,
    terminal: TermNo,
    bursts: &[Burst],
    out: &mut Vec<u8>,
) -> Result<(), OutOfMemory>
    ensures added { OnOk result (out.new.items ≡ out.old.items ++ burst_lines net.now form.Burst (bursts_from terminal bursts.now)) }
    ensures kept { Extends out.old.items out.new.items }
{
    let mut lines = ShortText::new();
    for burst in bursts {
        gather_sent(alloc, net, terminal, *burst, &mut lines, out)?;
    }
    out.extend_from_slice(lines.as_slice())?;
    Ok(())
}

/// Adds the line of a burst to the lines that are gathered, where a terminal sends it. Want of memory leaves a first part.
fn gather_sent(
    alloc: Global,
    net: &Network,
    terminal: TermNo,
    burst: Burst,
    lines: &mut ShortText,
    out: &mut Vec<u8>,
) -> Result<(), OutOfMemory>
    ensures added { OnOk result (out.new.items ++ lines.new ≡ (out.old.items ++ lines.old) ++ (if burst.from.0 == terminal.0 then burst_line net.now form.Burst burst else [])) }
    ensures kept { Extends out.old.items out.new.items }
{
    if burst.from == terminal {
        gather(alloc, net, Form::Burst, burst, lines, out)
    } else {
        Ok(())
    }
}

/// Appends the lines of a frame: its superframe and its number, the edition in the foreground, and the bursts on the
/// air.
pub fn frame_text(
    alloc: Global,
    net: &Network,
    frame: &AirFrame,
    out: &mut Vec<u8>,
) -> Result<(), OutOfMemory>
    ensures added { OnOk result (out.new.items ≡ out.old.items ++ frame_lines net.now frame.now) }
    ensures unchanged { OnErr result (out.new.items ≡ out.old.items) }
{
    let before = out.len();
    let added = add_frame(alloc, net, frame, out);
    if added.is_err() {
        out.truncate(before);
    }
    added
}

/// Appends these lines. Want of memory leaves the first of them.
#[tactic(auto, using(bt_words::proofs::Extending::extends_on))]
fn add_frame(
    alloc: Global,
    net: &Network,
    frame: &AirFrame,
    out: &mut Vec<u8>,
) -> Result<(), OutOfMemory>
    ensures added { OnOk result (out.new.items ≡ out.old.items ++ frame_lines net.now frame.now) }
    ensures kept { Extends out.old.items out.new.items }
{
    let words = [
        Word::Frame(frame.mark, frame.number),
        Word::number(frame.fore.0),
    ];
    print(alloc, Form::Frame, &words, out)?;
    add_bursts(alloc, net, Form::Air, frame.bursts.as_slice(), out)
}

/// Appends the lines of bursts, each by this form. Want of memory leaves the first of them.
fn add_bursts(
    alloc: Global,
    net: &Network,
    form: Form,
    bursts: &[Burst],
    out: &mut Vec<u8>,
) -> Result<(), OutOfMemory>
    ensures added { OnOk result (out.new.items ≡ out.old.items ++ burst_lines net.now form bursts.now) }
    ensures kept { Extends out.old.items out.new.items }
{
    let mut lines = ShortText::new();
    for burst in bursts {
        gather(alloc, net, form, *burst, &mut lines, out)?;
    }
    out.extend_from_slice(lines.as_slice())?;
    Ok(())
}

/// Adds the line of a burst by its form to the lines that are gathered to be appended together; where there is no room left, those
/// are appended, and it behind them. Want of memory leaves a first part.
fn gather(
    alloc: Global,
    net: &Network,
    form: Form,
    burst: Burst,
    lines: &mut ShortText,
    out: &mut Vec<u8>,
) -> Result<(), OutOfMemory>
    ensures added { OnOk result (out.new.items ++ lines.new ≡ (out.old.items ++ lines.old) ++ burst_line net.now form burst) }
    ensures kept { Extends out.old.items out.new.items }
{
    let words = [
        Word::number(burst.start),
        Word::number(burst.length),
        Word::Text(name_at(net, burst.from)),
        Word::Text(name_at(net, burst.to)),
    ];
    if put(form, &words, lines) {
        return Ok(());
    }
    out.extend_from_slice(lines.as_slice())?;
    lines.truncate(0);
    print(alloc, form, &words, out)
}

/// The name of a terminal, and nothing where the network has none of that number.
fn name_at(net: &Network, terminal: TermNo) -> &str
    ensures { result.now ≡ name_at net.now terminal }
{
    if u32::from(terminal.0) < net.terminal_count() {
        net.name_of(terminal)
    } else {
        ""
    }
}
