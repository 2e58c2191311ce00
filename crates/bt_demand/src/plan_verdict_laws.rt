// Laws of burst time plans. Each holds of all of them, so that nothing runs.
ghost use Rattle.std.specs.Prelude.{◌≡◌, ℕ, ◌≤◌, List, All};
ghost use Rattle.bt_frame.specs.declared.numbers.TermNo.{TermNo};
ghost use Rattle.bt_frame.specs.declared.schedule.Critical.{Critical};
ghost use Rattle.bt_matrix.specs.Traffic.{line_sum, IsLine};
ghost use Rattle.bt_net.specs.Network.{Net};
ghost use Rattle.bt_net.specs.Terminals.{IsTerminal};
ghost use Rattle.bt_demand.specs.declared.demand.Link.{Link};
ghost use Rattle.bt_demand.specs.declared.plan.Plan.{Plan};
ghost use Rattle.bt_demand.specs.declared.verdict.Verdict.{Verdict};
ghost use Rattle.bt_demand.specs.Demand.{IsDemand};
ghost use Rattle.bt_demand.specs.Plan.{Triple, Carries, IsHeld, IsGoodPlan};
ghost use Rattle.bt_demand.specs.Apart.{AreApart, AreBetweenTerminals};
ghost use Rattle.bt_demand.specs.PlanVerdict.{HasGoodModes, IsPlanVerdict, IsServed};
ghost use Rattle.bt_demand.specs.Traffic.{matrix_of, AreOfNetwork};

/// However slots are given out, a demand takes as many as any line of its matrix asks for: the beam of that line can be
/// used by one link at a time.
pub fn no_assignment_is_shorter()
    ensures least { (net : Net) (links : List Link) (triples : List Triple) (slots : ℕ) (line : Critical)
        → IsDemand links → Carries net links slots triples
        → IsLine (matrix_of net links) line → line_sum (matrix_of net links) line ≤ slots }
{}

/// A plan is good where its modes are, and its bursts do not meet, lie within the modes that make their connections,
/// and have as many slots on each link as it asks for.
pub fn plans_are_good_by_their_parts()
    ensures good { (net : Net) (links : List Link) (plan : Plan)
        → IsDemand links → AreOfNetwork net links → AreBetweenTerminals net plan.bursts
        → HasGoodModes net links plan.schedule → AreApart net plan.bursts → All (IsHeld net plan.schedule.modes) plan.bursts
        → ((from to : TermNo) → IsTerminal net from → IsTerminal net to → IsServed links plan.bursts from to)
        → IsGoodPlan net links plan }
{}

/// The modes of a good plan are good, so that its length is the greatest line sum; its bursts do not meet, lie within
/// the modes that make their connections, and have as many slots on each link as it asks for.
pub fn good_plans_have_their_parts()
    ensures modes { (net : Net) (links : List Link) (plan : Plan) → IsDemand links → IsGoodPlan net links plan
        → HasGoodModes net links plan.schedule }
    ensures apart { (net : Net) (links : List Link) (plan : Plan) → IsGoodPlan net links plan → AreApart net plan.bursts }
    ensures held { (net : Net) (links : List Link) (plan : Plan) → IsGoodPlan net links plan
        → All (IsHeld net plan.schedule.modes) plan.bursts }
    ensures served { (net : Net) (links : List Link) (plan : Plan) → IsGoodPlan net links plan
        → (from to : TermNo) → IsServed links plan.bursts from to }
{}

/// A plan has at most one verdict for a demand.
pub fn one_plan_verdict()
    ensures same { (net : Net) (links : List Link) (plan : Plan) (a b : Verdict) → IsDemand links
        → IsPlanVerdict net links plan a → IsPlanVerdict net links plan b → a ≡ b }
{}
