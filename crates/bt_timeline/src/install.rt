// The lines of plans that the planner handed in: installed, or not good.
ghost use Rattle.std.specs.Prelude.{◌≡◌, ◌++◌, OnOk, OnErr, Some};
ghost use Rattle.bt_timeline.specs.Timeline.{IsInstall, installed_line, not_good_line};
ghost use Rattle.bt_timeline.specs.Verdicts.{CanName};
ghost use Rattle.bt_words.specs.Written.{Extends};

use crate::verdict::verdict_text;
use bt_demand::Verdict;
use bt_frame::{EditionNo, OutOfMemory};
use bt_journal::Call;
use bt_net::Network;
use bt_words::{Form, Word, print, print_front};
use std::alloc::Global;

/// Appends the line of a plan that was installed, by the call that asked for it.
pub(crate) fn installed_text(
    alloc: Global,
    call: &Call,
    edition: EditionNo,
    out: &mut Vec<u8>,
) -> Result<(), OutOfMemory>
    requires { IsInstall call.now }
    ensures added { OnOk result (out.new.items ≡ out.old.items ++ installed_line call.now edition) }
    ensures unchanged { OnErr result (out.new.items ≡ out.old.items) }
{
    let Call::Install(plan) = call else {
        unreachable!()
    };
    let modes = plan.schedule.modes.as_slice().len() as u64;
    let bursts = plan.bursts.as_slice().len() as u64;
    let numbers = [
        Word::number(edition.0),
        Word::number(plan.schedule.length),
        Word::Number(modes),
        Word::Number(bursts),
    ];
    print(alloc, Form::Planned, &numbers, out)
}

/// Appends the line of a plan that was not good, with its verdict.
pub(crate) fn not_good_text(
    alloc: Global,
    net: &Network,
    verdict: &Verdict,
    out: &mut Vec<u8>,
) -> Result<(), OutOfMemory>
    requires { CanName (Some net.now) verdict.now }
    ensures added { OnOk result (out.new.items ≡ out.old.items ++ not_good_line net.now verdict.now) }
    ensures unchanged { OnErr result (out.new.items ≡ out.old.items) }
{
    let before = out.len();
    let added = add_not_good(alloc, net, verdict, out);
    if added.is_err() {
        out.truncate(before);
    }
    added
}

/// Appends that line. Want of memory leaves a first part of it.
#[tactic(auto, using(bt_words::proofs::Extending::extends_on))]
fn add_not_good(
    alloc: Global,
    net: &Network,
    verdict: &Verdict,
    out: &mut Vec<u8>,
) -> Result<(), OutOfMemory>
    requires { CanName (Some net.now) verdict.now }
    ensures added { OnOk result (out.new.items ≡ out.old.items ++ not_good_line net.now verdict.now) }
    ensures kept { Extends out.old.items out.new.items }
{
    print_front(alloc, Form::PlanNotGood, &[], out)?;
    verdict_text(alloc, Some(net), verdict, out)
}
