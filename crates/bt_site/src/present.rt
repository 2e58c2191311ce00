// The superframe that a site takes for the present one.
ghost use Rattle.std.specs.Prelude.{◌≡◌, None};
ghost use Rattle.bt_site.specs.Present.{is_onward, present_with};

use bt_frame::Mark;
use std::marker::Model;

/// The greatest superframe of which a site has heard that it began, if it has heard of one.
#[derive(Drop)]
pub struct Present {
    mark: Option<Mark>,
}

impl Model for Present {
    ghost use Rattle.std.specs.Prelude.{Option};
    ghost use Rattle.bt_frame.specs.declared.numbers.Mark.{Mark};

    ghost Value = { Option Mark };

    ghost view = { λ a. a.mark };
}

impl Present {
    /// Nothing was heard yet.
    pub fn unknown() -> Present
        ensures none { result ≡ None }
    {
        Present { mark: None }
    }

    /// A superframe begins. Says whether it is a later one.
    pub fn begin(&mut self, mark: Mark) -> bool
        ensures later { result ≡ is_onward self.old mark }
        ensures present { self.new ≡ present_with self.old mark }
    {
        let is_later = is_onward(self.mark, mark);
        if is_later {
            self.mark = Some(mark);
        }
        is_later
    }

    /// The present superframe.
    pub fn mark(&self) -> Option<Mark>
        ensures mark { result ≡ self.now }
    {
        self.mark
    }
}

// The superframe is later than the present one.
fn is_onward(present: Option<Mark>, mark: Mark) -> bool
    ensures { result ≡ is_onward present mark }
{
    match present {
        None => true,
        Some(present) => present.0 < mark.0,
    }
}
