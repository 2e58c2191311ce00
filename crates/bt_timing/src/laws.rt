// What holds of transmit times whatever the true delays are. It holds of all of them, so that nothing runs.
ghost use Rattle.std.specs.Prelude.{List, All, AllPairs};
ghost use Rattle.bt_net.specs.Network.{Net};
ghost use Rattle.bt_demand.specs.declared.demand.Link.{Link};
ghost use Rattle.bt_demand.specs.declared.plan.Plan.{Plan};
ghost use Rattle.bt_demand.specs.Apart.{AreBetweenTerminals};
ghost use Rattle.bt_demand.specs.Plan.{IsGoodPlan};
ghost use Rattle.bt_timing.specs.Arrival.{TrueDelays, AreWithinGuard, KeepsToItsSlots, KeepsToItsMode, ArriveApart, LeaveApart};
ghost use Rattle.bt_timing.specs.Times.{Times, AreTimes};

/// The bursts of a good plan, sent by estimates that no true delay differs from by more than the guard, arrive in their
/// slots, and so within the mode that makes their connection; those that share an uplink beam or a downlink beam arrive in
/// no tick both, and those of one terminal leave it in no tick both.
pub fn guarded_bursts_keep_to_their_slots()
    ensures slots { (net : Net) (links : List Link) (plan : Plan) (times : Times) (delays : TrueDelays)
        → IsGoodPlan net links plan → AreBetweenTerminals net plan.bursts → AreTimes times → AreWithinGuard net times delays
        → All (KeepsToItsSlots times delays) plan.bursts }
    ensures modes { (net : Net) (links : List Link) (plan : Plan) (times : Times) (delays : TrueDelays)
        → IsGoodPlan net links plan → AreBetweenTerminals net plan.bursts → AreTimes times → AreWithinGuard net times delays
        → All (KeepsToItsMode net plan.schedule.modes times delays) plan.bursts }
    ensures beams { (net : Net) (links : List Link) (plan : Plan) (times : Times) (delays : TrueDelays)
        → IsGoodPlan net links plan → AreBetweenTerminals net plan.bursts → AreTimes times → AreWithinGuard net times delays
        → AllPairs (ArriveApart net times delays) plan.bursts }
    ensures terminals { (net : Net) (links : List Link) (plan : Plan) (times : Times)
        → IsGoodPlan net links plan → AllPairs (LeaveApart times) plan.bursts }
{}
