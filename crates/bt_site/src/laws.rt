// What holds of every world, whatever is lost, repeated or late and whoever restarts.
ghost use Rattle.std.specs.Prelude.{◌≡◌, ◌⊎◌, List, [], ◌∷◌, ◌++◌, All, AllPairs, IfSome, IsSome, Option, Some};
ghost use Rattle.std.specs.List.{flat_map};
ghost use Rattle.std.specs.List.Sorted.{IsPermutation};
ghost use Rattle.bt_frame.specs.declared.numbers.EditionNo.{EditionNo};
ghost use Rattle.bt_frame.specs.declared.numbers.TermNo.{TermNo};
ghost use Rattle.bt_net.specs.Network.{IsSound};
ghost use Rattle.bt_demand.specs.declared.burst.Burst.{Burst};
ghost use Rattle.bt_demand.specs.declared.plan.Plan.{Plan};
ghost use Rattle.bt_demand.specs.Flyable.{IsFlyable};
ghost use Rattle.bt_air.specs.Range.{IsInRange};
ghost use Rattle.bt_machines.specs.Orders.{StandsFor, telling};
ghost use Rattle.bt_machines.specs.Satellite.{status_of, step_of as take};
ghost use Rattle.bt_machines.specs.Terminal.{transmitted, step_of as hear};
ghost use Rattle.bt_air.specs.declared.sent.Aired.{Aired};
ghost use Rattle.bt_machines.specs.Says.{confirmed_by, told_by, carried};
ghost use Rattle.bt_site.specs.Centre.{IsCentreSaid, centre};
ghost use Rattle.bt_site.specs.Air.{AreFlyable, AreOfPlan, IsAir, IsSafe, fore, transmits};
ghost use Rattle.bt_site.specs.Event.{Event, Happening, Opening};
ghost use Rattle.bt_site.specs.Example.{a, a_burst, back, back_sent, b, b_burst, calm, calm_sent, late, late_sent, late_until, lossy, opened, reset, started};
ghost use Rattle.bt_site.specs.Fits.{AreStored, IsWorld, Meets};
ghost use Rattle.bt_machines.specs.Plans.{newest_of, bursts_for, modes_of, plan_of};
ghost use Rattle.bt_machines.specs.Said.{Agrees};
ghost use Rattle.bt_site.specs.Ground.{terminal};
ghost use Rattle.bt_site.specs.Laws.{AgreeOnFront, AnnouncesRight, AreAmong, Ascend, IsCarriedAlike, IsOrdered, IsRight, ShowsFront, TellsFront};
ghost use Rattle.bt_site.specs.Satellite.{BanksHold, satellite};
ghost use Rattle.bt_site.specs.World.{accepted, comes_to, held, last_heard, log, mark, orders, plans, sent, sent_by_hearing, terminals};

use bt_air::{Aired, Place};
use bt_demand::{apart_bursts_spell_apart_triples, flyable_plans_are_small};
use bt_machines::{accepted_orders_are_said_by_events, sets_hold_what_joined};

/// Each Load and each Arm that is sent is one of the orders placed, and so is each order that the satellite accepted.
/// The accepted ones have ascending numbers.
pub fn orders_come_first()
    ensures sent { (o : Opening) (events : List Event) → All (IsOrdered (orders o (log o events))) (sent o (log o events)) }
    ensures accepted { (o : Opening) (events : List Event) → AreAmong (orders o (log o events)) (accepted o (log o events)) }
    ensures ascend { (o : Opening) (events : List Event) → Ascend (accepted o (log o events)) }
{}

/// Each Status that was sent shows the edition in front in its superframe, and from that on, whatever happens afterwards,
/// it makes nothing known to the centre, or the edition in front.
pub fn statuses_stay_true()
    ensures shows { (o : Opening) (events : List Event) → All (ShowsFront (accepted o (log o events))) (sent o (log o events)) }
    ensures front { (o : Opening) (events : List Event)
        → All (TellsFront (orders o (log o events)) (accepted o (log o events))) (sent o (log o events)) }
{}

/// Each Reference names none, or the edition in front in its superframe, whoever sent it. What it announces is an Arm that
/// was placed, due past its superframe.
pub fn references_are_right()
    ensures announced { (o : Opening) (events : List Event) → All (AnnouncesRight (orders o (log o events))) (sent o (log o events)) }
    ensures right { (o : Opening) (events : List Event) → All (IsRight (accepted o (log o events))) (sent o (log o events)) }
{}

/// No two References of one superframe name different editions, whoever sent them: those of the centre's turns, before and
/// after its restarts, and second ones.
pub fn references_of_a_superframe_agree()
    ensures agree { (o : Opening) (events : List Event) → AllPairs AgreeOnFront (sent o (log o events)) }
{
    references_are_right();
}

/// Every frame is safe where each plan can be flown, as in every world it can, and a terminal is silent or sends its
/// bursts of the plan in front, all of them and no others. In a world the frame is safe through the modes that the
/// satellite has in front. Of any plan that can be flown, what terminals transmit is safe where each transmits all its
/// bursts or none.
pub fn frames_are_safe()
    ensures own { (o : Opening) (events : List Event) (number : TermNo) → (transmits o (log o events) number ≡ [])
        ⊎ (transmits o (log o events) number ≡ bursts_for number (plan_of (plans o (log o events)) (fore o (log o events)))) }
    ensures safe { (o : Opening) (events : List Event) (bursts : List Burst) → AreFlyable o events → IsAir o (log o events) bursts
        → IsSafe o.net (modes_of (plan_of (plans o (log o events)) (fore o (log o events)))) bursts }
    ensures of_plan { (o : Opening) (plan : Option Plan) (sends : TermNo → List Burst) (bursts : List Burst) → IfSome plan (IsFlyable o.net)
        → AreOfPlan plan sends → IsPermutation (flat_map sends (terminals o)) bursts → IsSafe o.net (modes_of plan) bursts }
    ensures flyable { (o : Opening) (events : List Event) → IsWorld o events → AreFlyable o events }
    ensures on_board { (o : Opening) (events : List Event) (bursts : List Burst) → IsWorld o events → IsAir o (log o events) bursts
        → IsSafe o.net (satellite o (log o events)).fore.modes bursts }
{
    apart_bursts_spell_apart_triples();
    satellite_is_said();
}

/// The satellite is what the accepted orders say, and says so.
pub fn satellite_is_said()
    ensures stands { (o : Opening) (past : List Happening) → StandsFor (accepted o past) (satellite o past) }
    ensures mark { (o : Opening) (past : List Happening) → (satellite o past).mark.0 ≡ mark o past }
    ensures status { (o : Opening) (past : List Happening) → status_of (satellite o past) ≡ telling (accepted o past) (mark o past) }
{
    accepted_orders_are_said_by_events();
}

/// The modes in either bank on board are those that the plan of the bank's edition has. So the switch makes the very
/// connections by which a frame is safe.
pub fn banks_hold_plans()
    ensures banks { (o : Opening) (events : List Event) → IsWorld o events → BanksHold (plans o (log o events)) (satellite o (log o events)) }
{}

/// Every message that a world sends has a spelling: with the modes and the bursts of its plan, each of its fields is in
/// its range.
pub fn messages_are_in_range()
    ensures in_range { (o : Opening) (events : List Event) → IsSound o.net → IsWorld o events → AreStored o (log o events)
        → All (λ one. IsInRange (carried (plans o (log o events)) one)) (sent o (log o events)) }
{
    flyable_plans_are_small();
}

/// The centre's orders, the status that it keeps, the order that it wants, the terminals that have confirmed, that ask
/// and that it misses, and what it does in its turn are what the events say.
pub fn centre_is_said()
    ensures said { (o : Opening) (events : List Event) → IsSound o.net → IsWorld o events → AreStored o (log o events)
        → IsCentreSaid o (log o events) (centre o (log o events)) }
{
    sets_hold_what_joined();
}

/// Each terminal has heard and holds what the events say.
pub fn terminals_are_said()
    ensures agrees { (o : Opening) (past : List Happening) (number : TermNo) → Agrees number (last_heard o past number) (held o past number) (terminal o past number) }
{}

/// What the satellite and a terminal send when they hear a message is what their answers call for: the satellite tells its
/// new status exactly where it carried the message out, and a terminal confirms exactly the bursts that it holds.
pub fn answers_are_said()
    ensures satellite { (o : Opening) (past : List Happening) (one : Aired)
        → sent_by_hearing o past (Some one) Place.Satellite ≡ told_by (take (satellite o past) (carried (plans o past) one)) }
    ensures terminal { (o : Opening) (past : List Happening) (one : Aired) (to : TermNo)
        → sent_by_hearing o past (Some one) (Place.Terminal to)
        ≡ confirmed_by to one (hear (terminal o past to) (record { 0 = mark o past }) (carried (plans o past) one)) }
{
    satellite_is_said();
}

/// Each terminal transmits what the events say.
pub fn transmissions_are_said()
    ensures bursts { (o : Opening) (events : List Event) (number : TermNo)
        → transmitted (terminal o (log o events) number) (record { 0 = mark o (log o events) }) ≡ transmits o (log o events) number }
{}

/// A second Reference whose condition is met names what the event names, and nothing is lost of it.
pub fn seconds_are_said()
    ensures named { (o : Opening) (past : List Happening) (in_force : Option EditionNo) → Meets o past (Event.Second in_force)
        → comes_to o past (Event.Second in_force) ≡ Happening.Seconds in_force }
{}

/// The newest edition of a world has a plan, so that it can be the target of a turn.
pub fn newest_edition_has_a_plan()
    ensures planned { (o : Opening) (events : List Event) → IsWorld o events
        → IsSome (plan_of (plans o (log o events)) (newest_of (plans o (log o events)))) }
{}

/// Whatever happens, an edition that has a plan keeps it. So with a plan more each message that was sent is carried as
/// before: it has the same modes and bursts.
pub fn plans_stay()
    ensures stay { (o : Opening) (past : List Happening) (happening : Happening) (edition : EditionNo) → IsSome (plan_of (plans o past) edition)
        → plan_of (plans o (happening ∷ past)) edition ≡ plan_of (plans o past) edition }
    ensures carried { (o : Opening) (events : List Event) (plan : Plan) → IsWorld o events
        → All (IsCarriedAlike (plan ∷ plans o (log o events)) (plans o (log o events))) (sent o (log o events)) }
{}

/// Worlds in which a change is made: a calm one, one in which a terminal misses the first Reference of the new edition,
/// one in which a terminal restarts afterwards, one in which both start before all else, and one in which the Arm comes late,
/// after a restart of the centre.
pub fn some_worlds_change()
    ensures sent { sent opened (log opened calm) ≡ calm_sent }
    ensures mark { mark opened (log opened calm) ≡ 3 }
    ensures fore { (fore opened (log opened calm)).0 ≡ 2 }
    ensures first { transmits opened (log opened calm) a ≡ a_burst ∷ [] }
    ensures second { transmits opened (log opened calm) b ≡ b_burst ∷ [] }
    ensures lossy_first { transmits opened (log opened lossy) a ≡ [] }
    ensures lossy_second { transmits opened (log opened lossy) b ≡ b_burst ∷ [] }
    ensures late { sent opened (log opened late) ≡ late_sent }
    ensures silent { transmits opened (log opened late_until) a ≡ [] }
    ensures late_first { transmits opened (log opened late) a ≡ a_burst ∷ [] }
    ensures late_second { transmits opened (log opened late) b ≡ b_burst ∷ [] }
    ensures reset_sent { sent opened (log opened reset) ≡ calm_sent ++ Aired.Lost a ∷ Aired.Confirm a (record { 0 = 1 }) (record { 0 = 2 }) ∷ [] }
    ensures back { sent opened (log opened back) ≡ calm_sent ++ back_sent }
    ensures reset_first { transmits opened (log opened reset) a ≡ a_burst ∷ [] }
    ensures started_first { transmits opened (log opened started) a ≡ a_burst ∷ [] }
    ensures started_second { transmits opened (log opened started) b ≡ b_burst ∷ [] }
{}

/// Those worlds are worlds that the other laws speak of: their network is sound, what must hold of an opening and of each
/// event does, their plans can be flown, and their numbers fit. After the calm change both bursts are on the air.
pub fn examples_are_worlds()
    ensures network { IsSound opened.net }
    ensures lossy { IsWorld opened lossy }
    ensures reset { IsWorld opened reset }
    ensures late { IsWorld opened late }
    ensures started { IsWorld opened started }
    ensures back { IsWorld opened back }
    ensures flyable { AreFlyable opened reset }
    ensures stored { AreStored opened (log opened reset) }
    ensures late_stored { AreStored opened (log opened late) }
    ensures started_stored { AreStored opened (log opened started) }
    ensures air { IsAir opened (log opened calm) (a_burst ∷ b_burst ∷ []) }
{}
