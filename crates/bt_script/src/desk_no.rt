// The number of a desk.
ghost use Rattle.std.specs.Prelude.{◌≡◌};
ghost use Rattle.bt_frame.specs.declared.limits.TheConstants.{MOST_DESKS};
ghost use Rattle.bt_frame.specs.Range.{IsWithin};
ghost use Rattle.bt_script.specs.Range.{within};

use bt_frame::MOST_DESKS;
use std::marker::Model;

/// The number of a desk: 1 to `MOST_DESKS`.
#[derive(Clone, Copy)]
pub struct DeskNo {
    number: u8,
}

impl Model for DeskNo {
    ghost use Rattle.std.specs.Prelude.{ℕ};
    ghost use Rattle.bt_frame.specs.Range.{IsWithin};
    ghost use Rattle.bt_frame.specs.declared.limits.TheConstants.{MOST_DESKS};

    ghost Value = { ℕ };

    ghost view = { λ a. a.number };

    ghost invariant = { λ a. IsWithin 1 MOST_DESKS a.number };

    ghost inverse = { λ n. record { number = n } };
}

impl DeskNo {
    /// The desk of that number, or None outside 1 to `MOST_DESKS`.
    pub fn new(number: u64) -> Option<DeskNo>
        ensures range { result ≡ within MOST_DESKS number }
    {
        if 1 <= number && number <= u64::from(MOST_DESKS) {
            Some(DeskNo {
                number: number as u8,
            })
        } else {
            None
        }
    }

    /// The number of the desk.
    pub fn get(self) -> u8
        ensures same { result ≡ self }
        ensures in_range { IsWithin 1 MOST_DESKS result }
    {
        self.number
    }
}
