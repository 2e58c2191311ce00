// What holds of every cutting. Nothing runs.
ghost use Rattle.std.specs.Prelude.{List};
ghost use Rattle.bt_matrix.specs.Good.{IsGood};
ghost use Rattle.bt_net.specs.Network.{Net, IsSound};
ghost use Rattle.bt_demand.specs.declared.demand.Link.{Link};
ghost use Rattle.bt_demand.specs.declared.plan.Plan.{Plan};
ghost use Rattle.bt_demand.specs.Demand.{IsDemand};
ghost use Rattle.bt_demand.specs.Plan.{IsGoodPlan};
ghost use Rattle.bt_demand.specs.Traffic.{matrix_of, AreOfNetwork};
ghost use Rattle.bt_cut.specs.Cutting.{IsCutting};

/// Bursts that are the cutting of a good schedule make a good plan of it, whoever cut them.
pub fn cuttings_are_good()
    ensures good { (net : Net) (links : List Link) (plan : Plan)
        → IsSound net → IsDemand links → AreOfNetwork net links → IsGood (matrix_of net links) plan.schedule
        → IsCutting net links plan.schedule.modes plan.bursts → IsGoodPlan net links plan }
{}
