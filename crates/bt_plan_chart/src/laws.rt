// What the boxes of bursts show: where two of them overlap, the bursts meet, and only there; and what marks show.
ghost use Rattle.std.specs.Prelude.{◌≡◌, ◌↔◌, ◌⊎◌, ℕ, ◌<◌, true, List, length};
ghost use Rattle.bt_net.specs.Network.{Net, IsSound};
ghost use Rattle.bt_net.specs.Terminals.{IsBetweenTerminals};
ghost use Rattle.bt_demand.specs.declared.burst.Burst.{Burst};
ghost use Rattle.bt_demand.specs.declared.demand.Link.{Link};
ghost use Rattle.bt_demand.specs.declared.plan.Plan.{Plan};
ghost use Rattle.bt_demand.specs.Apart.{AreApart, AreBetweenTerminals, Collide};
ghost use Rattle.bt_demand.specs.Burst.{AreBursts};
ghost use Rattle.bt_demand.specs.Plan.{IsGoodPlan};
ghost use Rattle.bt_matrix.specs.Good.{IsPermutation};
ghost use Rattle.bt_plan_chart.specs.Chart.{is_permutation};
ghost use Rattle.bt_plan_chart.specs.Marks.{IsMarked, MeetsOneBefore, MeetsOneDrawn};
ghost use Rattle.bt_plan_chart.specs.Overlap.{AreBoxesApart, AreDrawnApart, MeetIn, OverlapDrawn, OverlapIn};
ghost use Rattle.bt_plan_chart.specs.Scale.{scale_of, whole};
ghost use Rattle.bt_plan_chart.specs.declared.choice.Choice.{Choice};
ghost use Rattle.bt_plan_chart.specs.declared.scale.Direction.{Direction};
ghost use Rattle.bt_plan_chart.specs.declared.scale.Direction.TheVariants.{Up, Down};

/// Two bursts meet exactly where their boxes overlap in a lane of the uplinks or in one of the downlinks. Where a part of a plan
/// is drawn, they share a slot that is shown and a lane exactly where both are drawn there and overlap.
pub fn meeting_bursts_overlap()
    ensures meet { (net : Net) (plan : Plan) (a b : Burst) → IsBetweenTerminals net a.from a.to → IsBetweenTerminals net b.from b.to
        → Collide net a b ↔ (OverlapIn net (scale_of net plan whole) Up a b ⊎ OverlapIn net (scale_of net plan whole) Down a b) }
    ensures drawn { (net : Net) (plan : Plan) (choice : Choice) (direction : Direction) (a b : Burst) → IsBetweenTerminals net a.from a.to → IsBetweenTerminals net b.from b.to
        → MeetIn net (scale_of net plan choice) direction a b ↔ OverlapDrawn net (scale_of net plan choice) direction a b }
{}

/// In the picture of a plan whose bursts do not meet, as those of a good plan do not, no two bursts have boxes that overlap,
/// whatever lanes the boxes are in; nor in that of a part of it, of the boxes that are drawn.
pub fn good_plans_have_no_overlap()
    ensures apart { (net : Net) (plan : Plan) → IsSound net → AreBetweenTerminals net plan.bursts → AreApart net plan.bursts
        → AreDrawnApart net (scale_of net plan whole) plan.bursts }
    ensures good { (net : Net) (links : List Link) (plan : Plan) → IsSound net → AreBetweenTerminals net plan.bursts → IsGoodPlan net links plan
        → AreDrawnApart net (scale_of net plan whole) plan.bursts }
    ensures drawn { (net : Net) (plan : Plan) (choice : Choice) → IsSound net → AreBetweenTerminals net plan.bursts → AreApart net plan.bursts
        → AreBoxesApart net (scale_of net plan choice) plan.bursts }
{}

/// A burst of a plan has a mark exactly where it meets one before it in the list. Where a part of a plan is drawn, it has one
/// exactly where both are drawn there: in a lane that both are in, with a slot of both that is shown.
pub fn meeting_bursts_are_marked()
    ensures marked { (net : Net) (plan : Plan) (place : ℕ) → AreBetweenTerminals net plan.bursts → AreBursts plan.bursts → place < length plan.bursts
        → IsMarked net (scale_of net plan whole) plan.bursts place ↔ MeetsOneBefore net plan.bursts place }
    ensures drawn { (net : Net) (plan : Plan) (choice : Choice) (place : ℕ) → AreBetweenTerminals net plan.bursts → AreBursts plan.bursts → place < length plan.bursts
        → IsMarked net (scale_of net plan choice) plan.bursts place ↔ MeetsOneDrawn net (scale_of net plan choice) plan.bursts place }
{}

/// A mode has no mark exactly where it is a permutation of the beams.
pub fn permutations_are_told()
    ensures told { (beams : ℕ) (perm : List ℕ) → (is_permutation beams perm ≡ true) ↔ IsPermutation beams perm }
{}
