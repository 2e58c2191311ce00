// What holds of every run of sites, whatever is lost, repeated or late and whoever restarts.
ghost use Rattle.std.specs.Prelude.{ℕ, List};
ghost use Rattle.std.specs.List.{flat_map};
ghost use Rattle.std.specs.List.Sorted.{IsPermutation};
ghost use Rattle.bt_frame.specs.declared.numbers.TermNo.{TermNo};
ghost use Rattle.bt_demand.specs.declared.burst.Burst.{Burst};
ghost use Rattle.bt_site.specs.Air.{IsSafe};
ghost use Rattle.bt_site.specs.Event.{Event, Opening};
ghost use Rattle.bt_site.specs.Example.{opened, reset, started};
ghost use Rattle.bt_site.specs.Fits.{AreStored, IsWorld};
ghost use Rattle.bt_site.specs.World.{log, terminals};
ghost use Rattle.bt_net.specs.Network.{IsSound};
ghost use Rattle.bt_sites.specs.Acts.{AreLed, AreLedEvents, HasActs, HasActsOf};
ghost use Rattle.bt_sites.specs.Behind.{HasSites, HasWorldBehind, IsAirOf};
ghost use Rattle.bt_sites.specs.Fits.{AreSites, AreSmall};
ghost use Rattle.bt_sites.specs.Late.{AreLate, AreOnAir, HasOrder, IsMoment, Late, steps_of};
ghost use Rattle.bt_sites.specs.Sites.{satellite_after};
ghost use Rattle.bt_sites.specs.OnAir.{AreSentIn, IsOnBoard};
ghost use Rattle.bt_sites.specs.Stamps.{Act, AreStamped, late_of, steps_by};
ghost use Rattle.bt_sites.specs.Step.{Satellite, Step};

use bt_air::messages_have_one_spelling;
use bt_site::{
    answers_are_said, centre_is_said, examples_are_worlds, frames_are_safe, messages_are_in_range,
    plans_stay, satellite_is_said, seconds_are_said, transmissions_are_said,
};

/// Whatever sites do that go each by its own state, the present superframe and the messages that it hears, of which each
/// was said before: there is a world in which each is what it is, and which sent what was said.
pub fn sites_are_a_world()
    ensures behind { (o : Opening) (steps : List Step) → IsSound o.net → AreSites o steps → AreSmall o steps → HasWorldBehind o steps }
{
    answers_are_said();
    centre_is_said();
    messages_are_in_range();
    messages_have_one_spelling();
    plans_stay();
    satellite_is_said();
    seconds_are_said();
}

/// What all terminals transmit in a frame of the present superframe is safe through the modes that the satellite has in
/// front.
pub fn sites_are_safe()
    ensures safe { (o : Opening) (steps : List Step) (bursts : List Burst) → IsSound o.net → AreSites o steps → AreSmall o steps
        → IsAirOf o steps bursts → IsSafe o.net (satellite_after o steps).fore.modes bursts }
{
    frames_are_safe();
    satellite_is_said();
    sites_are_a_world();
    transmissions_are_said();
}

/// Each world is what some run of sites makes: of what may happen on the air nothing is lost where the sites are apart.
pub fn worlds_are_sites()
    ensures sites { (o : Opening) (events : List Event) → IsSound o.net → IsWorld o events → AreStored o (log o events) → HasSites o events }
{
    answers_are_said();
    centre_is_said();
    messages_are_in_range();
    messages_have_one_spelling();
    plans_stay();
    satellite_is_said();
    seconds_are_said();
}

/// So there is a run of sites in which a change is made and a terminal restarts.
pub fn some_sites_change()
    ensures change { HasSites opened reset }
{
    examples_are_worlds();
    worlds_are_sites();
}

/// Sites each of which is as late as it likes, and hears only what was said by a site for which no later superframe was the
/// present one: the same steps in the order of their superframes are a run of sites that go by the present superframe.
pub fn late_sites_are_sites()
    ensures ordered { (o : Opening) (late : List Late) → AreLate o late → HasOrder o late }
{}

/// In each superframe what terminals transmit is safe through the modes that the satellite has in front in it, each terminal
/// at whatever moments it takes that superframe for the present one, and at no other.
pub fn late_superframes_are_safe()
    ensures safe { (o : Opening) (late board : List Late) (mark : ℕ) (sends : TermNo → List Burst) (bursts : List Burst) → IsSound o.net → AreLate o late
        → AreSmall o (steps_of late) → IsMoment o late Satellite mark board → AreOnAir o late mark sends → IsPermutation (flat_map sends (terminals o)) bursts
        → IsSafe o.net (satellite_after o (steps_of board)).fore.modes bursts }
{
    frames_are_safe();
    satellite_is_said();
    sites_are_a_world();
    transmissions_are_said();
}

/// Sites that hear lines, each of which has in front the superframe that its sayer took for the present one, are such late
/// sites. A line may come late, more than once, in any order or never: who hears one of a later superframe goes on to it.
pub fn stamped_sites_are_late_sites()
    ensures late { (o : Opening) (acts : List Act) → AreStamped o acts → AreLate o (late_of o acts) }
{}

/// So in each superframe what terminals transmit is safe, each at whatever moments it knows that superframe by the lines
/// that it heard, through the modes that the satellite has in front in it.
pub fn stamped_superframes_are_safe()
    ensures safe { (o : Opening) (acts board : List Act) (mark : ℕ) (sends : TermNo → List Burst) (bursts : List Burst) → IsSound o.net → AreStamped o acts
        → AreSmall o (steps_by o acts) → IsOnBoard o acts mark board → AreSentIn o acts mark sends → IsPermutation (flat_map sends (terminals o)) bursts
        → IsSafe o.net (satellite_after o (steps_by o board)).fore.modes bursts }
{
    late_superframes_are_safe();
    stamped_sites_are_late_sites();
}

/// Each run of sites in which the ground goes by a superframe once one has begun, and a terminal hears nothing before its
/// start, is what sites that hear lines with stamps make: none of it is lost by the stamps.
pub fn sites_are_stamped_sites()
    ensures acts { (o : Opening) (steps : List Step) → AreSites o steps → AreLed steps → HasActs o steps }
{}

/// So each world in which what the ground hears or sends comes once a superframe has begun, and a terminal hears nothing
/// before its start, is what some sites make that hear lines with stamps.
pub fn worlds_are_stamped_sites()
    ensures acts { (o : Opening) (events : List Event) → IsSound o.net → IsWorld o events → AreStored o (log o events) → AreLedEvents events → HasActsOf o events }
{
    answers_are_said();
    centre_is_said();
    messages_are_in_range();
    messages_have_one_spelling();
    plans_stay();
    satellite_is_said();
    seconds_are_said();
}

/// So there are such sites by which a change is made: the premises on lines are met.
pub fn some_stamped_sites_change()
    ensures change { HasActsOf opened started }
{
    examples_are_worlds();
    worlds_are_stamped_sites();
}
