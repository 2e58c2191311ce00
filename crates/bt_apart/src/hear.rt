// The centre of sites apart hears a line of the bus.
ghost use Rattle.std.specs.Prelude.{◌≡◌, IfSome};
ghost use Rattle.bt_air.specs.Range.{IsInRange, IsMark};
ghost use Rattle.bt_script.specs.Heard.{IsOnBus};
ghost use Rattle.bt_script.specs.declared.heard.BusLine.TheVariants as bus;
ghost use Rattle.bt_apart.specs.Apart.{heard_apart, later_mark};

use crate::ApartCentre;
use bt_air::Message;
use bt_frame::Mark;
use bt_script::BusLine;

impl ApartCentre {
    /// It hears a line: that a superframe begins, or a message, behind the superframe that its sayer takes for the present one.
    pub fn hear(&mut self, line: BusLine)
        requires line { IsOnBus line }
        ensures heard { self.new ≡ heard_apart self.old line }
    {
        match line {
            BusLine::Begun(mark) => self.begin(mark),
            BusLine::Radio(stamp, message) => self.note(stamp, message),
        }
    }

    // A superframe begins, which is the present one where it is not behind the one that was.
    fn begin(&mut self, mark: Mark)
        requires { IsMark mark }
        ensures { self.new ≡ heard_apart self.old (bus.Begun mark) }
    {
        if self.mark.0 <= mark.0 {
            self.mark = mark;
            self.marked = true;
        }
    }

    // A message, if it is one, comes in the later of two superframes: the present one, and the one in front of it.
    fn note(&mut self, stamp: Mark, message: Option<Message>)
        requires stamp { IsMark stamp }
        requires message { IfSome message IsInRange }
        ensures { self.new ≡ heard_apart self.old (bus.Radio stamp message) }
    {
        if !self.marked {
            return;
        }
        self.mark = later_mark(self.mark, stamp);
        if let Some(message) = message {
            self.centre.hear(self.mark, message);
        }
    }
}

// The later of two superframes.
fn later_mark(present: Mark, stamp: Mark) -> Mark
    ensures { result ≡ later_mark present stamp }
{
    if present.0 < stamp.0 { stamp } else { present }
}
