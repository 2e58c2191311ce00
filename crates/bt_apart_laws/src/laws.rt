// The centre of sites apart is a site that hears lines with stamps, of which the laws of `bt_sites` speak.
ghost use Rattle.std.specs.Prelude.{◌≡◌, ℕ, ◌<◌, ◌≤◌, Bool, true, false, [], ◌∷◌, List, IsSome, Option, Some};
ghost use Rattle.std.specs.List.{flat_map};
ghost use Rattle.std.specs.List.Sorted.{IsPermutation};
ghost use Rattle.bt_frame.specs.declared.numbers.EditionNo.{EditionNo};
ghost use Rattle.bt_frame.specs.declared.numbers.TermNo.{TermNo};
ghost use Rattle.bt_net.specs.Network.{IsSound, Net};
ghost use Rattle.bt_text.specs.Text.{spaced};
ghost use Rattle.bt_demand.specs.declared.burst.Burst.{Burst};
ghost use Rattle.bt_demand.specs.declared.plan.Plan.{Plan};
ghost use Rattle.bt_demand.specs.Flyable.{IsFlyable};
ghost use Rattle.bt_machines.specs.Plans.{newest_of, plan_of};
ghost use Rattle.bt_site.specs.Event.{Event, Install, Opening, Ordered, RestartCentre, Turn};
ghost use Rattle.bt_site.specs.World.{terminals};
ghost use Rattle.bt_sites.specs.Fits.{AreSmall};
ghost use Rattle.bt_sites.specs.OnAir.{AreSentIn, IsOnBoard};
ghost use Rattle.bt_sites.specs.Sites.{satellite_after};
ghost use Rattle.bt_sites.specs.Stamps.{Act, AreStamped, Begun, HasLine, Hears, Installs, Line, MayAct, Places, Restarts, Turns, actor_of, is_same_site, lines, lines_by, reached, steps_by};
ghost use Rattle.bt_sites.specs.Step as site;
ghost use Rattle.bt_script.specs.Heard.{bus_line_of};
ghost use Rattle.bt_script.specs.declared.heard.BusLine.{BusLine};
ghost use Rattle.bt_apart.specs.Apart.{ApartAir, apart_at_start, going_apart, having_apart, heard_apart};
ghost use Rattle.bt_station.specs.Acts.{IsSayable, heard_as, words_of};
ghost use Rattle.bt_apart_laws.specs.Acts.{BeginsSome, IsAct, IsCentreAt, IsHeardAs, IsNotBehind, IsOfLine, IsPlanInFront, IsSafeInFront, is_hearing, opening_again, takes_up};

use bt_site::{banks_hold_plans, frames_are_safe};
use bt_sites::{
    late_sites_are_sites, sites_are_a_world, stamped_sites_are_late_sites,
    stamped_superframes_are_safe,
};

/// Each line that can be said, its newline left out, is heard on the bus as it was said, and what is read of any text is what
/// is heard of some line.
pub fn lines_are_heard_as_said()
    ensures heard { (line : Line) → IsSayable line → IsHeardAs (spaced (words_of line)) line }
    ensures read { (text : List ℕ) (one : BusLine) → bus_line_of text ≡ Some one → IsOfLine one }
{}

/// The centre that opens is what it is before any act, and one that starts again with the plans and the orders to which the
/// acts came is what it is after its restart, whatever was before it. Each line that it takes up is the act of hearing it, to
/// which it says nothing; one that it does not take up changes nothing. A turn and an order, once it has heard that a
/// superframe began, and a plan and a restart at any time are acts, and what it says on the bus are the lines of the act.
/// What another site does changes nothing, nor does it that the centre goes back or ahead.
pub fn centre_is_a_site()
    ensures start { (o : Opening) → IsCentreAt o [] (apart_at_start o) }
    ensures start_again { (o : Opening) (before : List Act) (kept : Bool) → IsCentreAt o (Restarts kept ∷ before) (apart_at_start (opening_again o before kept)) }
    ensures heard { (o : Opening) (before : List Act) (air : ApartAir) (line : Line) → IsCentreAt o before air → takes_up air line ≡ true → BeginsSome line
        → IsCentreAt o (Hears site.Centre line ∷ before) (heard_apart air (heard_as line)) }
    ensures silent { (o : Opening) (before : List Act) (line : Line) → lines_by o before (Hears site.Centre line) ≡ [] }
    ensures passed_over { (air : ApartAir) (line : Line) → takes_up air line ≡ false → heard_apart air (heard_as line) ≡ air }
    ensures turn { (net : Net) (o : Opening) (before : List Act) (air : ApartAir) (target : EditionNo) → IsCentreAt o before air → air.marked ≡ true
        → IsAct net o before air (Turn target) (Turns target) }
    ensures order { (net : Net) (o : Opening) (before : List Act) (air : ApartAir) → IsCentreAt o before air → air.marked ≡ true → IsAct net o before air Ordered Places }
    ensures install { (net : Net) (o : Opening) (before : List Act) (air : ApartAir) (plan : Plan) → IsCentreAt o before air
        → IsAct net o before air (Install plan) (Installs plan) }
    ensures restart { (net : Net) (o : Opening) (before : List Act) (air : ApartAir) (kept : Bool) → IsCentreAt o before air
        → IsAct net o before air (RestartCentre kept) (Restarts kept) }
    ensures others { (o : Opening) (before : List Act) (air : ApartAir) (act : Act) → is_same_site (actor_of act) site.Centre ≡ false → IsCentreAt o before air → IsCentreAt o (act ∷ before) air }
    ensures going { (o : Opening) (acts : List Act) (air : ApartAir) (back : Option EditionNo) → IsCentreAt o acts air → IsCentreAt o acts (going_apart air back) }
{}

/// What the centre does it may do, by its own state alone: it has its turn with a target that has a plan, an order is placed
/// that it wants, a plan is newer than all and can be flown. What it takes up it may hear, where it was said and it is not
/// behind a superframe that it knew.
pub fn centre_may_act()
    ensures hear { (o : Opening) (before : List Act) (air : ApartAir) (line : Line) → IsCentreAt o before air → IsNotBehind o before air → takes_up air line ≡ true
        → HasLine (lines o before) line → MayAct o before (Hears site.Centre line) }
    ensures turn { (o : Opening) (before : List Act) (air : ApartAir) (target : EditionNo) → IsCentreAt o before air → IsSome (plan_of air.plans target) → MayAct o before (Turns target) }
    ensures order { (o : Opening) (before : List Act) (air : ApartAir) → IsCentreAt o before air → IsSome air.centre.wanted → MayAct o before Places }
    ensures install { (o : Opening) (before : List Act) (air : ApartAir) (plan : Plan) → IsCentreAt o before air → (newest_of air.plans).0 < plan.edition.0
        → IsFlyable air.opening.net plan → MayAct o before (Installs plan) }
    ensures restart { (o : Opening) (before : List Act) (air : ApartAir) (kept : Bool) → IsCentreAt o before air → (kept ≡ true → IsSome air.centre.wanted) → MayAct o before (Restarts kept) }
{}

/// The centre is never behind a superframe that it knew: where it opens, and in a new process from the first mark that it
/// takes up on, where that is not behind; once it took up a line, and whatever else was done, by itself, its restarts
/// within the process included, or by another site.
pub fn centre_goes_on()
    ensures start { (o : Opening) → IsNotBehind o [] (apart_at_start o) }
    ensures first { (o : Opening) (before : List Act) (air : ApartAir) (stamp : ℕ) → IsCentreAt o before air → reached o site.Centre before ≤ stamp → takes_up air (Begun stamp) ≡ true
        → IsNotBehind o (Hears site.Centre (Begun stamp) ∷ before) (heard_apart air (heard_as (Begun stamp))) }
    ensures heard { (o : Opening) (before : List Act) (air : ApartAir) (line : Line) → IsCentreAt o before air → IsNotBehind o before air → takes_up air line ≡ true
        → IsNotBehind o (Hears site.Centre line ∷ before) (heard_apart air (heard_as line)) }
    ensures does { (o : Opening) (before : List Act) (air : ApartAir) (event : Event) (act : Act) → IsCentreAt o before air → IsNotBehind o before air → is_hearing act ≡ false
        → IsNotBehind o (act ∷ before) (having_apart air event) }
    ensures others { (o : Opening) (before : List Act) (air : ApartAir) (act : Act) → IsCentreAt o before air → IsNotBehind o before air → is_hearing act ≡ false
        → IsNotBehind o (act ∷ before) air }
{}

/// At each moment of a run of sites that hear lines with stamps the edition in front on board is that of a plan that the
/// centre has then, and that can be flown; the modes in front are that plan's. Through them all is safe that terminals
/// transmit in that superframe, each at whatever moments it knows it.
pub fn superframes_are_of_installed_plans()
    ensures front { (o : Opening) (acts : List Act) (air : ApartAir) → IsSound o.net → AreStamped o acts → AreSmall o (steps_by o acts) → IsCentreAt o acts air
        → IsPlanInFront air (satellite_after o (steps_by o acts)) }
    ensures safe { (o : Opening) (acts board : List Act) (mark : ℕ) (air : ApartAir) (sends : TermNo → List Burst) (bursts : List Burst) → IsSound o.net → AreStamped o acts
        → AreSmall o (steps_by o acts) → IsOnBoard o acts mark board → IsCentreAt o board air → AreSentIn o acts mark sends → IsPermutation (flat_map sends (terminals o)) bursts
        → IsSafeInFront o.net air (satellite_after o (steps_by o board)) bursts }
{
    banks_hold_plans();
    frames_are_safe();
    late_sites_are_sites();
    sites_are_a_world();
    stamped_sites_are_late_sites();
    stamped_superframes_are_safe();
}
