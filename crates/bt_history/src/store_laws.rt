// What holds of what stores tell, whatever the program does.
ghost use Rattle.std.specs.Prelude.{ℕ, List, Option, IfSome};
ghost use Rattle.bt_outside.specs.Crash.{Crashes, Elapses, LeavesOnly, LeavesSince};
ghost use Rattle.bt_net.specs.Network.{Net, IsSound};
ghost use Rattle.bt_journal.specs.declared.call.Change.{Change};
ghost use Rattle.bt_history.specs.Causes.{Follows};
ghost use Rattle.bt_history.specs.Recovery.{IsReadable};
ghost use Rattle.bt_history.specs.Store.{IsStored};
ghost use Rattle.bt_history.specs.Crash.{IsLeftByRecovery, Last, TellsNext};

use bt_journal::{lines_end_once, lines_tell_changes, marks_tell_sizes};

/// On a sound network the bytes that a book leaves in its store tell its changes, or these and the one that was lost; and
/// they are no more than are read. Where a crash leaves such bytes, a recovery of them has the changes last.
pub fn stores_tell_next_openings()
    ensures next { (net : Net) (told : Option (List ℕ)) (changes lost : List Change) → IsSound net → Follows net changes
        → IsStored net told changes lost
        → IfSome told (TellsNext net changes lost) }
    ensures short { (net : Net) (told : Option (List ℕ)) (changes lost : List Change)
        → IsStored net told changes lost → IsReadable told }
    ensures last { (net : Net) (told : Option (List ℕ)) (was will : Option Crashes) (changes lost : List Change) → IsSound net → Follows net changes
        → IsStored net told changes lost → LeavesOnly was (TellsNext net changes lost) → Elapses was will
        → LeavesSince was will (IsLeftByRecovery net told was) → Last net changes was will }
{
    lines_end_once();
    lines_tell_changes();
    marks_tell_sizes();
}
