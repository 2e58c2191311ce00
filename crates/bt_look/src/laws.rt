// What holds of the texts, whatever the program does.
ghost use Rattle.std.specs.Prelude.{◌≡◌, ◌≢◌, ◌<◌, ◌≤◌, ◌↔◌, ℕ, List, AllPairs, IfSome, None, Ok, Option, Some, length};
ghost use Rattle.bt_frame.specs.declared.limits.TheConstants.{MOST_UNITS};
ghost use Rattle.bt_frame.specs.declared.numbers.BeamNo.{BeamNo};
ghost use Rattle.bt_frame.specs.declared.numbers.EditionNo.{EditionNo};
ghost use Rattle.bt_frame.specs.declared.numbers.TermNo.{TermNo};
ghost use Rattle.bt_net.specs.Network.{Net, IsSound};
ghost use Rattle.bt_net.specs.Terminals.{IsBetweenTerminals, IsInBeam};
ghost use Rattle.bt_demand.specs.declared.demand.Link.{Link};
ghost use Rattle.bt_demand.specs.Traffic.{matrix_of};
ghost use Rattle.bt_plan.specs.PlanSpelling.{plan_spelling};
ghost use Rattle.bt_plan.specs.PlanText.{plan_reading};
ghost use Rattle.bt_journal.specs.declared.call.Change.{Change};
ghost use Rattle.bt_journal.specs.declared.call.Edit.TheVariants.{Add};
ghost use Rattle.bt_history.specs.Causes.{Follows, IsGoodForItsEdition};
ghost use Rattle.bt_history.specs.Changes.{edition, matrix_after, newest, plans, IsDemandAfter};
ghost use Rattle.bt_history.specs.EditCauses.{IsGoodEdit};
ghost use Rattle.bt_history.specs.Recovery.{Recovered};
ghost use Rattle.bt_look.specs.Compact.{adds_of, compact_lines};
ghost use Rattle.bt_look.specs.Installed.{plan_asked};
ghost use Rattle.bt_look.specs.Room.{room, room_of_link};

use bt_book::installed_plans_are_good;
use bt_journal::{lines_end_once, lines_tell_changes, marks_tell_sizes};
use bt_plan::plans_have_one_spelling;

/// After changes that follow, an add between two terminals has no cause of a refusal exactly where it asks for no more units
/// than their beams have room. So an add of some units from one terminal to any has none exactly where it asks for no more than
/// the room of that link. Where there is room there are two such terminals, and an add may ask for all of it.
pub fn room_is_what_an_add_may_have()
    ensures fits { (net : Net) (changes : List Change) (links : List Link) (from to : TermNo) (up down : BeamNo) (units : ℕ)
        → IsSound net → Follows net changes → IsDemandAfter changes links
        → IsInBeam net from up → IsInBeam net to down → from.0 ≢ to.0
        → (IsGoodEdit net changes (Add from to units) ↔ (units ≤ room net (matrix_of net links) up.0 down.0)) }
    ensures link { (net : Net) (changes : List Change) (links : List Link) (from to : TermNo) (units : ℕ)
        → IsSound net → Follows net changes → IsDemandAfter changes links → IsBetweenTerminals net from to → 0 < units
        → (IsGoodEdit net changes (Add from to units) ↔ (units ≤ room_of_link net (matrix_after net changes) from to)) }
    ensures ends { (net : Net) (rows : List (List ℕ)) (up down : BeamNo) → 0 < room net rows up.0 down.0
        → (from : TermNo) × (to : TermNo) × IsInBeam net from up × IsInBeam net to down × (from.0 ≢ to.0) }
    ensures asked { (net : Net) (rows : List (List ℕ)) (up down : ℕ) → IsSound net → room net rows up down ≤ MOST_UNITS }
{}

/// The journal with the fewest edits of the demand after changes that follow is recovered to an add for each link, which come to
/// that demand.
pub fn compact_journals_come_to_the_same()
    ensures recovered { (net : Net) (changes : List Change) (links : List Link) → IsSound net → Follows net changes
        → IsDemandAfter changes links → Recovered net (compact_lines net links) (adds_of links) }
    ensures demand { (changes : List Change) (links : List Link) → IsDemandAfter changes links
        → IsDemandAfter (adds_of links) links }
{
    lines_end_once();
    lines_tell_changes();
    marks_tell_sizes();
}

/// It has an edit for each link, and no changes with fewer edits come to that demand, whatever plans and orders are among them.
pub fn no_journal_has_fewer_edits()
    ensures edits { (links : List Link) → edition (adds_of links) ≡ length links }
    ensures fewest { (changes : List Change) (links : List Link) → IsDemandAfter changes links → length links ≤ edition changes }
{}

/// An installed plan that is asked for is the one of that edition, and after changes that follow no other is, or it is the newest.
/// It carries exactly the demand of its edition in the least length, and of a journal's bytes on a sound network it is read back
/// from its text.
pub fn told_plans_are_read_back()
    ensures edition { (changes : List Change) (number : EditionNo)
        → IfSome (plan_asked changes (Some number)) (λ plan. plan.edition.0 ≡ number.0) }
    ensures one { (net : Net) (changes : List Change) → Follows net changes
        → AllPairs (λ a b. a.edition.0 < b.edition.0) (plans changes) }
    ensures newest { (changes : List Change) → IfSome (plan_asked changes None) (λ plan. plan ≡ newest changes) }
    ensures good { (net : Net) (changes : List Change) (asked : Option EditionNo) → Follows net changes
        → IfSome (plan_asked changes asked) (IsGoodForItsEdition net changes) }
    ensures read { (net : Net) (bytes : List ℕ) (changes : List Change) (asked : Option EditionNo) → IsSound net
        → Recovered net bytes changes → IfSome (plan_asked changes asked) (λ plan. plan_reading net (plan_spelling net plan) ≡ Ok plan) }
{
    installed_plans_are_good();
    plans_have_one_spelling();
}
