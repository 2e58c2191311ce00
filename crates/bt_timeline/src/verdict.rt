// The line of a verdict.
ghost use Rattle.std.specs.Prelude.{◌≡◌, ◌++◌, ◌<◌, length, None, Some, OnOk, OnErr};
ghost use Rattle.bt_timeline.specs.Verdicts.{CanName, lent, verdict_line};
ghost use Rattle.bt_net.specs.Terminals.{IsTerminal};

use bt_demand::Verdict;
use bt_frame::{Critical, OutOfMemory, TermNo};
use bt_net::Network;
use bt_words::{Word, add_line};
use std::alloc::Global;

/// Appends the line of a verdict. A verdict that names terminals needs their network.
pub fn verdict_text(
    alloc: Global,
    net: Option<&Network>,
    verdict: &Verdict,
    out: &mut Vec<u8>,
) -> Result<(), OutOfMemory>
    requires beams { CanName (lent net) verdict.now }
    ensures added { OnOk result (out.new.items ≡ out.old.items ++ verdict_line (lent net.entry) verdict.now) }
    ensures unchanged { OnErr result (out.new.items ≡ out.old.items) }
{
    match *verdict {
        Verdict::Good => add_line(alloc, &[Word::Text("good")], out),
        Verdict::V1 { mode } => add_line(alloc, &[Word::Text("V1"), Word::number(mode)], out),
        Verdict::V2 { mode } => add_line(alloc, &[Word::Text("V2"), Word::number(mode)], out),
        Verdict::V3 { sum, length } => {
            let words = [Word::Text("V3"), Word::Number(sum), Word::number(length)];
            add_line(alloc, &words, out)
        }
        Verdict::V4 { critical, sum } => heaviest_text(alloc, critical, sum, out),
        Verdict::V5 { first, second } => {
            let words = [Word::Text("V5"), Word::number(first), Word::number(second)];
            add_line(alloc, &words, out)
        }
        Verdict::V6 { burst } => add_line(alloc, &[Word::Text("V6"), Word::number(burst)], out),
        Verdict::V7 {
            from,
            to,
            want,
            have,
        } => match net {
            Some(net) => link_text(alloc, net, (from, to), (want, have), out),
            None => unreachable!(),
        },
        Verdict::V8 {
            up,
            down,
            want,
            have,
        } => {
            let beams = (
                Word::number(u32::from(up.0)),
                Word::number(u32::from(down.0)),
            );
            let words = [
                Word::Text("V8"),
                beams.0,
                beams.1,
                Word::Number(want),
                Word::Number(have),
            ];
            add_line(alloc, &words, out)
        }
    }
}

/// Appends the line of another length than that of this line, the heaviest.
fn heaviest_text(
    alloc: Global,
    critical: Critical,
    sum: u64,
    out: &mut Vec<u8>,
) -> Result<(), OutOfMemory>
    ensures added { OnOk result (out.new.items ≡ out.old.items ++ verdict_line None (Verdict.V4 critical sum)) }
    ensures unchanged { OnErr result (out.new.items ≡ out.old.items) }
{
    let (line, beam) = match critical {
        Critical::Row(up) => ("row", up),
        Critical::Column(down) => ("column", down),
    };
    let beam = Word::number(u32::from(beam.0));
    let words = [Word::Text("V4"), Word::Text(line), beam, Word::Number(sum)];
    add_line(alloc, &words, out)
}

/// Appends the line of a link with other slots than it wants.
fn link_text(
    alloc: Global,
    net: &Network,
    ends: (TermNo, TermNo),
    slots: (u64, u64),
    out: &mut Vec<u8>,
) -> Result<(), OutOfMemory>
    requires sends { IsTerminal net.now ends.0 }
    requires receives { IsTerminal net.now ends.1 }
    ensures added { OnOk result (out.new.items ≡ out.old.items ++ verdict_line (Some net.now) (Verdict.V7 ends.0 ends.1 slots.0 slots.1)) }
    ensures unchanged { OnErr result (out.new.items ≡ out.old.items) }
{
    let names = (
        Word::Text(net.name_of(ends.0)),
        Word::Text(net.name_of(ends.1)),
    );
    let words = [
        Word::Text("V7"),
        names.0,
        names.1,
        Word::Number(slots.0),
        Word::Number(slots.1),
    ];
    add_line(alloc, &words, out)
}
