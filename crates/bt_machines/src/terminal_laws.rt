// What holds of the table and of every run of a terminal.
ghost use Rattle.std.specs.Prelude.{◌≡◌, ◌≢◌, true, List, [], All, Some};
ghost use Rattle.bt_frame.specs.declared.numbers.EditionNo.{EditionNo};
ghost use Rattle.bt_frame.specs.declared.numbers.Mark.{Mark};
ghost use Rattle.bt_frame.specs.declared.numbers.TermNo.{TermNo};
ghost use Rattle.bt_demand.specs.declared.burst.Burst.{Burst};
ghost use Rattle.bt_air.specs.declared.message.Message.{Message};
ghost use Rattle.bt_machines.specs.Banks.{bank_of, bursts_of_bank, hold, is_in_use};
ghost use Rattle.bt_frame.specs.declared.numbers.Command.{Command};
ghost use Rattle.bt_machines.specs.Terminal.{State, new_of, in_force, step_of, transmitted};
ghost use Rattle.bt_machines.specs.TerminalRun.{TerminalEvent, TakesReference, AreDistinct, a_frame, oldest_first, state_after};
ghost use Rattle.bt_machines.specs.Said.{Agrees, held_after, last_heard};

use bt_air::{Heard, Message};

/// Only `Took`, `Stored` and `Held` change a terminal.
pub fn terminal_refusals_change_nothing()
    ensures unchanged { (s : State) (mark : Mark) (message : Message)
        → (step_of s mark message).0 ≢ Heard.Took → (step_of s mark message).0 ≢ Heard.Stored → (step_of s mark message).0 ≢ Heard.Held
        → (step_of s mark message).1 ≡ s }
{}

/// A terminal is silent in each superframe whose reference burst it did not take, whatever else it hears: it does not
/// go on with the edition of an earlier superframe.
pub fn unheard_superframes_are_silent()
    ensures silent { (number : TermNo) (events : List TerminalEvent) (mark : Mark)
        → All (λ event. ¬ (TakesReference mark event)) events → transmitted (state_after (new_of number) events) mark ≡ [] }
{}

/// While an edition is in use and the terminal holds its bursts, no bursts that come change them. So nothing that comes
/// changes what the terminal transmits in this superframe, and an edition that was announced is there when it is due.
pub fn bursts_in_use_stay()
    ensures stay { (s : State) (mark : Mark) (used : EditionNo) (to : TermNo) (load : Command) (edition : EditionNo) (bursts : List Burst)
        → is_in_use s.heard mark.0 used ≡ true → hold s.banks used ≡ true
        → bursts_of_bank (bank_of (step_of s mark (Message.PlanFor to load edition bursts)).1.banks used) ≡ bursts_of_bank (bank_of s.banks used) }
    ensures transmitted { (s : State) (mark : Mark) (named : EditionNo) (to : TermNo) (load : Command) (edition : EditionNo) (bursts : List Burst)
        → in_force s.heard mark ≡ Some named → hold s.banks named ≡ true
        → transmitted (step_of s mark (Message.PlanFor to load edition bursts)).1 mark ≡ transmitted s mark }
{}

/// The Reference that a terminal heard last, and the editions of which it holds its bursts, each with its Load, are said
/// by its events alone. Here the latest event stands first.
pub fn terminals_are_said_by_events()
    ensures agrees { (number : TermNo) (latest : List TerminalEvent)
        → Agrees number (last_heard latest) (held_after number latest) (state_after (new_of number) (oldest_first latest)) }
{}

/// No run brings one edition into both banks.
pub fn banks_stay_distinct()
    ensures distinct { (number : TermNo) (events : List TerminalEvent)
        → AreDistinct (state_after (new_of number) events).banks.first (state_after (new_of number) events).banks.second }
{}

/// A run after which the terminal transmits, in the superframe whose reference burst it took and not in the next.
pub fn some_run_transmits()
    ensures now { (bursts : List Burst) → transmitted (state_after (new_of (record { 0 = 0 })) (a_frame bursts)) (record { 0 = 7 }) ≡ bursts }
    ensures later { (bursts : List Burst) → transmitted (state_after (new_of (record { 0 = 0 })) (a_frame bursts)) (record { 0 = 8 }) ≡ [] }
{}
