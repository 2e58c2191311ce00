// The planner in a round: it plans the last edition, and posts what it installed.
ghost use Rattle.std.specs.Prelude.{◌≡◌, ◌≤◌, ◌++◌, ◌∷◌, [], List, All, OnOk};
ghost use Rattle.bt_shared.specs.Plans.{next_edition};
ghost use Rattle.bt_journal.specs.declared.entry.Entry.{Entry};
ghost use Rattle.bt_journal.specs.Journal.{changes_of};
ghost use Rattle.bt_history.specs.Causes.{IsPlanOn};
ghost use Rattle.bt_history.specs.Changes.{installs};
ghost use Rattle.bt_round.specs.Callers.{IsSameCaller, caller_number, own_of};
ghost use Rattle.bt_round.specs.Done.{PlannerDone};
ghost use Rattle.bt_round.specs.Planned.{HasPosted, InstallDone, SawLast};

use crate::caller::Caller;
use crate::gate::Gate;
use bt_book::{demands_fit_the_frame, replies_name_beams_of_the_network};
use bt_cut::make_plan;
use bt_demand::Plan;
use bt_frame::OutOfMemory;
use bt_journal::{Call, Entry, Reply};
use bt_net::Network;
use bt_outside::Keeper;
use bt_shared::Publisher;
use bt_timeline::entry_text;
use std::alloc::Global;
use std::sync::Wait;

/// Does so many lines of the planner, and appends what is printed of them. Each plan that it installs is posted.
pub fn run_planner<R: Wait, G: Gate, K: Keeper>(
    rt: &R,
    alloc: Global,
    net: &Network,
    caller: &mut Caller<'_, G, K>,
    plans: u32,
    publisher: &mut Publisher,
    text: &mut Vec<u8>,
) -> Result<(), OutOfMemory>
    requires network { caller.old.start.net ≡ net.now }
    requires number { caller_number caller.old ≡ 1 }
    requires posted { HasPosted caller.old publisher.old.plans }
    ensures same { IsSameCaller caller.old caller.new }
    ensures board { publisher.new.board ≡ publisher.old.board }
    ensures done { OnOk result (PlannerDone net.now plans publisher.old.plans publisher.new.plans (own_of caller.old) (own_of caller.new) text.old.items text.new.items) }
{
    for _ in 0..plans {
        plan_once(rt, alloc, net, caller, publisher, text)?;
    }
    Ok(())
}

/// Sees the last edition, plans it where it has no plan, appends what is printed of that, and posts the plan that it
/// installed.
///
/// Others may call between what it sees and its install, so that the edition may be planned by then.
fn plan_once<R: Wait, G: Gate, K: Keeper>(
    rt: &R,
    alloc: Global,
    net: &Network,
    caller: &mut Caller<'_, G, K>,
    publisher: &mut Publisher,
    text: &mut Vec<u8>,
) -> Result<(), OutOfMemory>
    requires network { caller.old.start.net ≡ net.now }
    requires number { caller_number caller.old ≡ 1 }
    requires posted { HasPosted caller.old publisher.old.plans }
    ensures same { IsSameCaller caller.old caller.new }
    ensures board { publisher.new.board ≡ publisher.old.board }
    ensures posted { OnOk result (HasPosted caller.new publisher.new.plans) }
    ensures done { OnOk result (PlannerDone net.now 1 publisher.old.plans publisher.new.plans (own_of caller.old) (own_of caller.new) text.old.items text.new.items) }
{
    let seen = caller.ask(rt, alloc, net, Call::Snapshot)?;
    plan_seen(rt, alloc, net, caller, &seen, publisher, text)
}

/// Plans the edition that was just seen where it has no plan, appends what is printed of that, and posts the plan that it
/// installed.
fn plan_seen<R: Wait, G: Gate, K: Keeper>(
    rt: &R,
    alloc: Global,
    net: &Network,
    caller: &mut Caller<'_, G, K>,
    seen: &Entry,
    publisher: &mut Publisher,
    text: &mut Vec<u8>,
) -> Result<(), OutOfMemory>
    requires network { caller.old.start.net ≡ net.now }
    requires number { caller_number caller.old ≡ 1 }
    requires posted { HasPosted caller.old publisher.old.plans }
    requires seen { SawLast net.now seen.now }
    ensures same { IsSameCaller caller.old caller.new }
    ensures board { publisher.new.board ≡ publisher.old.board }
    ensures posted { OnOk result (HasPosted caller.new publisher.new.plans) }
    ensures done { OnOk result ((before : List Entry) → own_of caller.old ≡ before ++ seen.now ∷ []
        → PlannerDone net.now 1 publisher.old.plans publisher.new.plans before (own_of caller.new) text.old.items text.new.items) }
{
    // This is there for what holds of each network: its frame has at most `MOST_SLOTS` slots.
    let _beams = net.beam_count();
    demands_fit_the_frame();
    let Reply::Demand {
        edition,
        newest,
        demand,
    } = &seen.reply
    else {
        unreachable!()
    };
    if edition.0 == newest.0 {
        return entry_text(alloc, net, None, seen, text);
    }
    let plan = make_plan(alloc, net, demand, *edition)?;
    install_plan(rt, alloc, net, caller, plan, publisher, text)
}

/// Asks to install a plan, appends what is printed of that, and posts the plan where it was installed.
fn install_plan<R: Wait, G: Gate, K: Keeper>(
    rt: &R,
    alloc: Global,
    net: &Network,
    caller: &mut Caller<'_, G, K>,
    plan: Plan,
    publisher: &mut Publisher,
    text: &mut Vec<u8>,
) -> Result<(), OutOfMemory>
    requires network { caller.old.start.net ≡ net.now }
    requires number { caller_number caller.old ≡ 1 }
    requires posted { HasPosted caller.old publisher.old.plans }
    requires terminals { IsPlanOn net.now plan }
    ensures same { IsSameCaller caller.old caller.new }
    ensures board { publisher.new.board ≡ publisher.old.board }
    ensures posted { OnOk result (HasPosted caller.new publisher.new.plans) }
    ensures done { OnOk result (InstallDone net.now plan publisher.old.plans publisher.new.plans (own_of caller.old) (own_of caller.new) text.old.items text.new.items) }
{
    // This is there for what holds of each network: it is sound.
    let _beams = net.beam_count();
    replies_name_beams_of_the_network();
    let entry = caller.ask(rt, alloc, net, Call::Install(plan))?;
    entry_text(alloc, net, None, &entry, text)?;
    post_installed(rt, alloc, entry, publisher)
}

/// Posts the plan that an entry installed, if it did.
fn post_installed<R: Wait>(
    rt: &R,
    alloc: Global,
    entry: Entry,
    publisher: &mut Publisher,
) -> Result<(), OutOfMemory>
    requires newer { All (λ plan. next_edition publisher.old.plans ≤ plan.edition.0) (installs (changes_of (entry ∷ []))) }
    ensures board { publisher.new.board ≡ publisher.old.board }
    ensures posted { OnOk result (publisher.new.plans ≡ publisher.old.plans ++ installs (changes_of (entry ∷ []))) }
{
    let Entry {
        caller: _,
        call,
        reply,
    } = entry;
    if !reply.is_made() {
        return Ok(());
    }
    match call {
        Call::Install(plan) => publisher.post(rt, alloc, plan),
        _ => Ok(()),
    }
}
