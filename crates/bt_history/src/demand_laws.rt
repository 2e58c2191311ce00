// What holds of the demand after changes, whichever program made them.
ghost use Rattle.std.specs.Prelude.{List};
ghost use Rattle.bt_net.specs.Network.{Net, IsSound};
ghost use Rattle.bt_demand.specs.declared.demand.Link.{Link};
ghost use Rattle.bt_demand.specs.Traffic.{AreOfNetwork, HasSumsTo, matrix_of};
ghost use Rattle.bt_journal.specs.declared.call.Change.{Change};
ghost use Rattle.bt_history.specs.Causes.{Follows};
ghost use Rattle.bt_history.specs.Changes.{IsDemandAfter};

/// The demand after changes that follow is between terminals of the network, and no line of it asks for more slots than
/// the frame has.
pub fn demands_fit_the_frame()
    ensures network { (net : Net) (changes : List Change) (links : List Link) → IsSound net → Follows net changes
        → IsDemandAfter changes links → AreOfNetwork net links }
    ensures fits { (net : Net) (changes : List Change) (links : List Link) → IsSound net → Follows net changes
        → IsDemandAfter changes links → HasSumsTo net.slots (matrix_of net links) }
{}
