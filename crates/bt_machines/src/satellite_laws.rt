// What holds of the table and of every run of a satellite.
ghost use Rattle.std.specs.Prelude.{◌≡◌, ◌≢◌, ℕ, ◌<◌, ◌≤◌, List, [], ◌∷◌, ◌++◌, reverse, All, AllPairs, Some};
ghost use Rattle.bt_frame.specs.declared.mode.Mode.{Mode};
ghost use Rattle.bt_frame.specs.declared.numbers.Mark.{Mark};
ghost use Rattle.bt_air.specs.declared.message.Message.{Message};
ghost use Rattle.bt_air.specs.declared.order.Armed.{Armed};
ghost use Rattle.bt_air.specs.declared.order.Order.{Order};
ghost use Rattle.bt_machines.specs.Satellite.{State, new_at, step_of, status_of};
ghost use Rattle.bt_machines.specs.Orders.{StandsFor, IsAhead, joining, telling};
ghost use Rattle.bt_air.specs.Orders.{command_of, fore_at};
ghost use Rattle.bt_machines.specs.SatelliteRun.{SatelliteEvent, a_change, accepted, mark_after, oldest_first, orders_after, state_after};

use bt_air::{Message, Order, Taken};

/// A message that is not accepted leaves the satellite as it was.
pub fn satellite_refusals_change_nothing()
    ensures unchanged { (s : State) (message : Message) → (step_of s message).0 ≢ Taken.Accepted → (step_of s message).1 ≡ s }
{}

/// The numbers of the orders that a satellite accepts ascend, whatever it hears.
pub fn accepted_commands_ascend()
    ensures ascend { (mark : Mark) (events : List SatelliteEvent)
        → AllPairs (λ a b. (command_of a).0 < (command_of b).0) (accepted (new_at mark) events) }
{}

/// After every run a satellite is what the orders say that it accepted: their last command, the change that is to
/// come, and the editions in front and in the background.
pub fn satellites_stand_for_their_orders()
    ensures stands { (mark : Mark) (events : List SatelliteEvent)
        → StandsFor (reverse (accepted (new_at mark) events)) (state_after (new_at mark) events) }
{}

/// The superframe after a run, and the orders that were accepted in it, are said by its events alone, and what the
/// satellite then says of itself is what these orders tell. Here the latest event stands first.
pub fn accepted_orders_are_said_by_events()
    ensures mark { (mark : Mark) (latest : List SatelliteEvent)
        → (state_after (new_at mark) (oldest_first latest)).mark.0 ≡ mark_after mark.0 latest }
    ensures orders { (mark : Mark) (latest : List SatelliteEvent)
        → reverse (accepted (new_at mark) (oldest_first latest)) ≡ orders_after mark.0 latest }
    ensures stands { (mark : Mark) (latest : List SatelliteEvent)
        → StandsFor (orders_after mark.0 latest) (state_after (new_at mark) (oldest_first latest)) }
    ensures status { (mark : Mark) (latest : List SatelliteEvent)
        → status_of (state_after (new_at mark) (oldest_first latest)) ≡ telling (orders_after mark.0 latest) (mark_after mark.0 latest) }
{}

/// An order to arm is accepted only for a superframe after the one in which it is heard.
pub fn changes_are_armed_ahead()
    ensures ahead { (orders : List Order) (mark : ℕ) (message : Message) → All (IsAhead mark) (joining orders mark message) }
{}

/// No message changes which edition was in front in a superframe that has begun.
pub fn past_fronts_stay()
    ensures same { (orders : List Order) (mark past : ℕ) (message : Message) → past ≤ mark
        → fore_at (joining orders mark message ++ orders) past ≡ fore_at orders past }
{}

/// Once a satellite is armed, the edition of the change is in front in the superframe that it names, whatever else
/// the satellite hears.
pub fn armed_edition_comes_to_the_front()
    ensures front { (mark : Mark) (before events : List SatelliteEvent) (armed : Armed)
        → (state_after (new_at mark) before).armed ≡ Some armed
        → (state_after (new_at mark) (before ++ events)).mark ≡ armed.due
        → (state_after (new_at mark) (before ++ events)).fore.edition ≡ armed.edition }
{}

/// A run in which an order to load and one to arm are accepted, and the change is made.
pub fn some_run_changes()
    ensures accepted { (modes : List Mode) → accepted (new_at (record { 0 = 4 })) (a_change modes) ≡
        Order.Load (record { 0 = 1 }) (record { 0 = 7 }) ∷ Order.Arm (record { 0 = 2 }) (record { 0 = 7 }) (record { 0 = 6 }) ∷ [] }
    ensures state { (modes : List Mode) → (state_after (new_at (record { 0 = 4 })) (a_change modes)).fore ≡ record { edition = record { 0 = 7 }; modes = modes } }
{}
