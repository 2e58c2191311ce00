// Laws of plans that can be flown. Each holds of all of them, so that nothing runs.
ghost use Rattle.std.specs.Prelude.{◌≤◌, List, length, All, AllPairs};
ghost use Rattle.bt_frame.specs.declared.limits.TheConstants.{MOST_SLOTS};
ghost use Rattle.bt_frame.specs.declared.numbers.TermNo.{TermNo};
ghost use Rattle.bt_frame.specs.Range.{IsWithin};
ghost use Rattle.bt_net.specs.Network.{Net};
ghost use Rattle.bt_demand.specs.declared.burst.Burst.{Burst};
ghost use Rattle.bt_demand.specs.declared.demand.Link.{Link};
ghost use Rattle.bt_demand.specs.declared.plan.Plan.{Plan};
ghost use Rattle.bt_demand.specs.Apart.{AreApart, bursts_from};
ghost use Rattle.bt_demand.specs.Burst.{IsNotAfter};
ghost use Rattle.bt_demand.specs.Flyable.{IsFlyable, IsSentBy};
ghost use Rattle.bt_demand.specs.Plan.{Meet, all_triples, IsGoodPlan};
ghost use Rattle.bt_demand.specs.Traffic.{AreOfNetwork};

/// A good plan of a demand between terminals of the network can be flown, unless it is longer than a frame can be.
pub fn good_plans_are_flyable()
    ensures flyable { (net : Net) (links : List Link) (plan : Plan) → AreOfNetwork net links → IsGoodPlan net links plan
        → plan.schedule.length ≤ MOST_SLOTS → IsFlyable net plan }
{}

/// The modes of a plan that can be flown are at most `MOST_SLOTS`, of 1 to `MOST_SLOTS` slots each, and so are the
/// bursts that a terminal sends in it. These stand in order where the plan's bursts do.
pub fn flyable_plans_are_small()
    ensures modes { (net : Net) (plan : Plan) → IsFlyable net plan
        → All (λ mode. IsWithin 1 MOST_SLOTS mode.duration) plan.schedule.modes }
    ensures few_modes { (net : Net) (plan : Plan) → IsFlyable net plan → length plan.schedule.modes ≤ MOST_SLOTS }
    ensures bursts { (net : Net) (plan : Plan) (terminal : TermNo) → IsFlyable net plan
        → All (IsSentBy net terminal) (bursts_from terminal plan.bursts) }
    ensures few_bursts { (net : Net) (plan : Plan) (terminal : TermNo) → IsFlyable net plan
        → length (bursts_from terminal plan.bursts) ≤ MOST_SLOTS }
    ensures ordered { (bursts : List Burst) (terminal : TermNo) → AllPairs IsNotAfter bursts
        → AllPairs IsNotAfter (bursts_from terminal bursts) }
{}

/// No two triples that bursts spell meet, exactly where no two of the bursts do.
pub fn apart_bursts_spell_apart_triples()
    ensures triples { (net : Net) (bursts : List Burst) → AreApart net bursts
        → AllPairs (λ a b. ¬ (Meet net a b)) (all_triples bursts) }
    ensures bursts { (net : Net) (bursts : List Burst) → AllPairs (λ a b. ¬ (Meet net a b)) (all_triples bursts)
        → AreApart net bursts }
{}
