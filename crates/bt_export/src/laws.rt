// What holds of the texts, whatever the program does.
ghost use Rattle.std.specs.Prelude.{◌≡◌, ◌≢◌, ◌≤◌, ◌++◌, ◌∷◌, ◌↔◌, List, [], true};
ghost use Rattle.bt_net.specs.Network.{Net, IsSound};
ghost use Rattle.bt_demand.specs.declared.demand.Link.{Link};
ghost use Rattle.bt_demand.specs.Demand.{IsDemand};
ghost use Rattle.bt_demand.specs.Traffic.{AreOfNetwork, HasSumsTo, matrix_of};
ghost use Rattle.bt_journal.specs.declared.call.Change.{Change};
ghost use Rattle.bt_journal.specs.declared.reply.Reply.{Reply};
ghost use Rattle.bt_journal.specs.declared.reply.Reply.TheVariants.{StoreFault};
ghost use Rattle.bt_journal.specs.Journal.{is_made};
ghost use Rattle.bt_history.specs.Causes.{FollowFrom, Follows};
ghost use Rattle.bt_history.specs.Changes.{IsDemandAfter};
ghost use Rattle.bt_history.specs.Machine.{ChangeStep, State, bytes_with, running};
ghost use Rattle.bt_history.specs.Recovery.{Recovered};
ghost use Rattle.bt_look.specs.Compact.{adds_of, compact_lines};
ghost use Rattle.bt_export.specs.declared.carry.Carried.{Carried};
ghost use Rattle.bt_export.specs.Carry.{ComesTo, IsCarried};
ghost use Rattle.bt_export.specs.Edits.{edits_between};

use bt_demand::links_tell_demands;
use bt_journal::{lines_end_once, lines_tell_changes, marks_tell_sizes};

/// Behind changes that follow, the edits from their demand to one that fits the frame follow too, one after the other: none of
/// them has a cause of a refusal. So the desk machine that has made those before an edit makes it, unless the journal has no room
/// for its line or the store fails. The demand after them is the one that was wanted. There is none just where the two are one.
pub fn edits_bring_the_demand()
    ensures each { (net : Net) (changes : List Change) (have want : List Link) → IsSound net → Follows net changes
        → IsDemandAfter changes have → IsDemand want → AreOfNetwork net want → HasSumsTo net.slots (matrix_of net want)
        → FollowFrom net changes (edits_between have want) }
    ensures done { (net : Net) (changes : List Change) (have want : List Link) → IsSound net → Follows net changes
        → IsDemandAfter changes have → IsDemand want → AreOfNetwork net want → HasSumsTo net.slots (matrix_of net want)
        → (before rest : List Change) (one : Change) (reply : Reply) (new : State) → edits_between have want ≡ before ++ one ∷ rest
        → ChangeStep net (running (changes ++ before)) one reply new → bytes_with net (changes ++ before) one ≤ net.journal
        → reply ≢ StoreFault → (is_made reply ≡ true) × (new ≡ running ((changes ++ before) ++ one ∷ [])) }
    ensures demand { (net : Net) (changes : List Change) (have want : List Link) → IsSound net → Follows net changes
        → IsDemandAfter changes have → IsDemand want → IsDemandAfter (changes ++ edits_between have want) want }
    ensures none { (have want : List Link) → IsDemand have → IsDemand want
        → ((edits_between have want ≡ []) ↔ (have ≡ want)) }
{
    links_tell_demands();
}

/// The journal with the fewest edits of a demand that was carried onto another network is recovered there, and the demand that it
/// tells there is by names the one that was carried. What links come to on another network is one thing: one demand, or the number of
/// one link.
pub fn carried_journals_tell_the_demand()
    ensures recovered { (net : Net) (links : List Link) (new : Net) (carried : List Link) → IsSound new → IsCarried net links new carried
        → HasSumsTo new.slots (matrix_of new carried) → Recovered new (compact_lines new carried) (adds_of carried) }
    ensures demand { (net : Net) (links : List Link) (new : Net) (carried : List Link) (changes : List Change) (after : List Link)
        → IsSound new → IsCarried net links new carried → HasSumsTo new.slots (matrix_of new carried)
        → Recovered new (compact_lines new carried) changes → IsDemandAfter changes after → IsCarried net links new after }
    ensures one { (net : Net) (links : List Link) (new : Net) (a b : Carried) → IsSound new → IsDemand links
        → ComesTo net links new a → ComesTo net links new b → a ≡ b }
{
    lines_end_once();
    lines_tell_changes();
    marks_tell_sizes();
}
