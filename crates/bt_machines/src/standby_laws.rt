// What holds of the table and of every run of a standby.
ghost use Rattle.std.specs.Prelude.{◌≡◌, List, Option, None, Some};
ghost use Rattle.bt_frame.specs.declared.numbers.Mark.{Mark};
ghost use Rattle.bt_air.specs.declared.order.Status.{Status};
ghost use Rattle.bt_machines.specs.Heard.{AreUpTo, a_bridge, kept_after, told_in};
ghost use Rattle.bt_machines.specs.Standby.{named, step_of};

use crate::Noticed;

/// A status of another superframe changes nothing.
pub fn standby_refusals_change_nothing()
    ensures unchanged { (kept : Option Status) (mark : Mark) (status : Status)
        → (step_of kept mark status).0 ≡ Noticed.WrongMark → (step_of kept mark status).1 ≡ kept }
{}

/// Where superframes follow each other, a standby names the edition in front by the last status of the present superframe
/// that it heard, and none where it heard none of it: it does not go on with the edition of an earlier superframe.
pub fn names_are_said_by_what_was_heard()
    ensures named { (heard : List (Mark × Status)) (mark : Mark) → AreUpTo mark heard → named (kept_after heard) mark ≡ told_in mark heard }
{}

/// A standby that names an edition in the superframe of its status, and none in the next.
pub fn some_standby_names()
    ensures now { (late : Status) → named (kept_after (a_bridge late)) (record { 0 = 3 }) ≡ Some (record { 0 = 5 }) }
    ensures later { (late : Status) → named (kept_after (a_bridge late)) (record { 0 = 4 }) ≡ None }
{}
