// What holds of processes that share nothing but lines, whoever is killed and started again.
ghost use Rattle.std.specs.Prelude.{◌≡◌, ℕ, ◌∷◌, [], IfSome, List, Option, Some};
ghost use Rattle.std.specs.List.{flat_map};
ghost use Rattle.std.specs.List.Sorted.{IsPermutation};
ghost use Rattle.bt_frame.specs.declared.numbers.TermNo.{TermNo};
ghost use Rattle.bt_net.specs.Network.{IsSound, Net};
ghost use Rattle.bt_net.specs.Terminals.{IsTerminal};
ghost use Rattle.bt_demand.specs.declared.burst.Burst.{Burst};
ghost use Rattle.bt_air.specs.declared.sent.Aired.TheVariants as sends;
ghost use Rattle.bt_site.specs.Event.{Event};
ghost use Rattle.bt_site.specs.World.{terminals};
ghost use Rattle.bt_apart.specs.Apart.{ApartAir, IsInstalled, lines_apart, says_apart};
ghost use Rattle.bt_station.specs.declared.station.Station.{Station};
ghost use Rattle.bt_station.specs.Asked.{asked_of};
ghost use Rattle.bt_station.specs.Satellite.{SatelliteAt};
ghost use Rattle.bt_station.specs.Station.{answer};
ghost use Rattle.bt_station.specs.Terminal.{start_lines};
ghost use Rattle.bt_station.specs.Acts.{texts_of};
ghost use Rattle.bt_apart_laws.specs.Acts.{printed_with};
ghost use Rattle.bt_apart_laws.specs.Example.{empty_start, first_superframe};
ghost use Rattle.bt_apart_laws.specs.Premises.{ActAsSites, AreProcesses, AreTransmitted, IsGoodInFront, IsOnBoard, IsSafeInGood, IsSmall, SaysBehind};
ghost use Rattle.bt_apart_laws.specs.Processes.{Deed, Goes, Hears, Opens, Restarts, Start, asked_lines, centre_by, is_order, journal_by, opening_over, radios, with_one};
ghost use Rattle.bt_journal.specs.declared.entry.Entry.{Entry};
ghost use Rattle.bt_history.specs.Machine.{AreSteps, running};
ghost use Rattle.bt_machines.specs.Plans.{newest_of};
ghost use Rattle.bt_frame.specs.declared.numbers.EditionNo.{EditionNo};
ghost use Rattle.bt_journal.specs.declared.call.Change.{Change};
ghost use Rattle.bt_sites.specs.Stamps.{Line};
ghost use Rattle.bt_sites.specs.Step as site;
ghost use Rattle.bt_script.specs.Heard.{bus_line_of};
ghost use Rattle.bt_script.specs.declared.heard.BusLine.{BusLine};
ghost use Rattle.bt_script.specs.declared.sites.Sites.TheVariants as sites;
ghost use Rattle.bt_round.specs.AirLines.{AirState, PlaysTurn, going, hearing, restarting, start_air};
ghost use Rattle.bt_round.specs.declared.worker.CentreOver.TheVariants.{Apart};
ghost use Rattle.bt_apart_laws.specs.Worker.{ComesByDeeds};

use crate::superframes_are_of_installed_plans;
use bt_history::{installed_plans_are_good, installed_plans_can_be_flown};
use bt_sites::stamped_superframes_are_safe;

/// Whatever the processes of a satellite, of terminals, of a standby and of a centre say, each by its own program, over lines
/// that come late, more than once, in any order or never, whoever is killed and started again: they do what sites do that hear
/// lines with stamps. The edition in front on board is at each moment that of a plan that the journal then tells, which carries
/// exactly the demand of its edition in the least length, or is the empty plan of edition 0. In each superframe what terminals
/// transmit is safe through the modes of the plan in front in it, each at whatever moments its modem asks for that superframe.
pub fn processes_are_safe()
    ensures sites { (s : Start) (deeds : List Deed) → IsSound s.net → AreProcesses s deeds → ActAsSites s deeds }
    ensures front { (s : Start) (deeds board : List Deed) (onboard : SatelliteAt) → IsSound s.net → AreProcesses s deeds → IsSmall (journal_by s deeds) → IsOnBoard s deeds board onboard
        → IsGoodInFront s.net (journal_by s board) onboard.site }
    ensures safe { (s : Start) (deeds board : List Deed) (onboard : SatelliteAt) (sends : TermNo → List Burst) (bursts : List Burst) → IsSound s.net → AreProcesses s deeds
        → IsSmall (journal_by s deeds) → IsOnBoard s deeds board onboard → AreTransmitted s deeds onboard.site.mark.0 sends
        → IsPermutation (flat_map sends (terminals (opening_over s.net s.changes))) bursts → IsSafeInGood s.net (journal_by s board) onboard.site bursts }
{
    installed_plans_are_good();
    stamped_superframes_are_safe();
    superframes_are_of_installed_plans();
}

/// The lines that are taken to be said are those that the programs print: those of a station stand behind its log, a terminal
/// says its first at its start, and those of the centre stand each behind the message that it prints.
pub fn lines_are_printed()
    ensures station { (net : Net) (at : ℕ) (x : Station) (text : List ℕ) → SaysBehind (answer net at x (Some text)) (asked_lines x (asked_of net text)) }
    ensures start { (number : TermNo) → start_lines number ≡ texts_of (radios 0 [] (sends.Lost number ∷ [])) }
    ensures centre { (net : Net) (air : ApartAir) (event : Event) → lines_apart net air event ≡ printed_with net air.said (says_apart air event) (radios air.mark.0 air.plans (says_apart air event)) }
{}

/// There are such processes: where a journal is empty, a superframe begins, and a terminal starts and hears of it.
pub fn some_processes_go()
    ensures go { (net : Net) (number : TermNo) → IsSound net → IsTerminal net number → AreProcesses (empty_start net) (first_superframe number) }
{
    bt_station::lines_are_heard_as_said();
    installed_plans_can_be_flown();
}

/// What the centre's worker does, in a run or a session with sites apart, are deeds of its process: it opens, hears a line,
/// goes back or ahead, and restarts. A turn that is alone in its round, over a book that answers from the changes of the
/// journal, is deeds too: the centre learns of the newest plan, has its turn, and places the order that it wants, or does a
/// part of this.
pub fn worker_lines_are_deeds()
    ensures opens { (s : Start) (before : List Deed) (one : Option Change) → Apart (centre_by s (Opens one ∷ before)) ≡ start_air sites.Apart (opening_over s.net (with_one (journal_by s before) one)) }
    ensures heard { (s : Start) (before : List Deed) (line : Line) (text : List ℕ) (one : BusLine) → bus_line_of text ≡ Some one
        → Apart (centre_by s (Hears site.Centre line text ∷ before)) ≡ hearing (Apart (centre_by s before)) one }
    ensures goes { (s : Start) (before : List Deed) (back : Option EditionNo) → Apart (centre_by s (Goes back ∷ before)) ≡ going (Apart (centre_by s before)) back }
    ensures restarts { (s : Start) (before : List Deed) (one : Option Change) → Apart (centre_by s (Restarts one ∷ before)) ≡ restarting (Apart (centre_by s before)) (is_order one) (opening_over s.net (with_one (journal_by s before) one)).orders }
    ensures turn { (s : Start) (before : List Deed) (entries : List Entry) (text : List ℕ) (after : AirState) → IsSound s.net → AreProcesses s before
        → IsInstalled (centre_by s before).plans (newest_of (centre_by s before).plans) → IfSome (centre_by s before).back (IsInstalled (centre_by s before).plans)
        → AreSteps s.net (running (journal_by s before)) entries → PlaysTurn s.net (Apart (centre_by s before)) entries text after → ComesByDeeds s before after }
{}
