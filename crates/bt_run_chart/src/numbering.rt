// Which message of a text a number means. The numbers of a run go up from 0 by one; a text may have more than one run, or begin
// in the midst of one.

/// The messages of a text so far.
#[derive(Clone, Copy)]
pub struct Numbering {
    // How many there are.
    count: usize,
    // The place of the first one of the present run, and its number.
    place: usize,
    first: u64,
}

impl Numbering {
    /// None yet.
    pub fn none() -> Numbering {
        Numbering {
            count: 0,
            place: 0,
            first: 0,
        }
    }

    /// A message of that number is sent: its place among the messages of the text, from 0. Where the number is not the next one,
    /// another run begins.
    pub fn send(&mut self, number: u64) -> usize {
        let ahead = self.count.saturating_sub(self.place) as u64;
        if number != self.first.saturating_add(ahead) {
            self.first = number;
            self.place = self.count;
        }
        let place = self.count;
        self.count = self.count.saturating_add(1);
        place
    }

    /// The place of the message of that number in the present run; None where the text has none.
    pub fn meant(&self, number: u64) -> Option<usize> {
        let ahead = number.checked_sub(self.first)?;
        let most = self.count.saturating_sub(self.place) as u64;
        if ahead < most {
            Some(self.place.saturating_add(ahead as usize))
        } else {
            None
        }
    }
}
