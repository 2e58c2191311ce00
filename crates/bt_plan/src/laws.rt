// What holds of texts whatever the program does.
ghost use Rattle.std.specs.Prelude.{◌≡◌, ◌≤◌, ℕ, List, Ok};
ghost use Rattle.bt_frame.specs.declared.limits.TheConstants.{MOST_BEAMS};
ghost use Rattle.bt_frame.specs.declared.schedule.Schedule.{Schedule};
ghost use Rattle.bt_net.specs.Network.{Net, IsSound};
ghost use Rattle.bt_demand.specs.declared.plan.Plan.{Plan};
ghost use Rattle.bt_plan.specs.PlanSpelling.{IsPlanInRange, plan_spelling};
ghost use Rattle.bt_plan.specs.PlanText.{plan_reading};
ghost use Rattle.bt_plan.specs.ScheduleSpelling.{IsInRange, schedule_spelling};
ghost use Rattle.bt_plan.specs.ScheduleText.{schedule_of};

/// A schedule in range is read back from its text, and no other text is read as that schedule.
pub fn schedules_have_one_spelling()
    ensures read { (size : ℕ) (schedule : Schedule) → size ≤ MOST_BEAMS → IsInRange size schedule
        → schedule_of size (schedule_spelling schedule) ≡ Ok schedule }
    ensures spelled { (size : ℕ) (schedule : Schedule) (text : List ℕ) → size ≤ MOST_BEAMS
        → schedule_of size text ≡ Ok schedule → text ≡ schedule_spelling schedule }
    ensures in_range { (size : ℕ) (schedule : Schedule) (text : List ℕ) → size ≤ MOST_BEAMS
        → schedule_of size text ≡ Ok schedule → IsInRange size schedule }
{}

/// A plan in range is read back from its text on the network that it is for, and no other text is read as that plan.
pub fn plans_have_one_spelling()
    ensures read { (net : Net) (plan : Plan) → IsSound net → IsPlanInRange net plan
        → plan_reading net (plan_spelling net plan) ≡ Ok plan }
    ensures spelled { (net : Net) (plan : Plan) (text : List ℕ) → IsSound net
        → plan_reading net text ≡ Ok plan → text ≡ plan_spelling net plan }
    ensures in_range { (net : Net) (plan : Plan) (text : List ℕ) → IsSound net
        → plan_reading net text ≡ Ok plan → IsPlanInRange net plan }
{}
