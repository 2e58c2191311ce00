// Where each step stands: columns go from left to right, and what does not fit goes on in a further stave below.
use crate::lanes::Lanes;
use crate::step::{Delivery, SentMessage, Station, Step, Telling};
use bt_frame::OutOfMemory;
use bt_net::Network;
use bt_picture::{Drawn, Point, place};
use std::alloc::Global;

/// Twips from the left to the first column.
pub const LEFT: u64 = 2200;

/// Twips of a column.
pub const COLUMN: u64 = 540;

/// Columns of a stave.
pub const COLUMNS: u64 = 32;

/// Columns of a frame that is shown.
pub const FRAME_COLUMNS: u64 = 4;

/// Columns of superframes that are folded.
pub const FOLD_COLUMNS: u64 = 2;

// The stave of what is not drawn.
const NOWHERE: usize = usize::MAX;

/// Twips from the left to behind the last column.
pub const RIGHT: u64 = LEFT + COLUMNS * COLUMN;

/// Twips above the first stave.
pub const TOP: u64 = 1500;

// Twips from a lane to the next: two rows of labels below the one and two above the other stand there.
const APART: u64 = 1000;

// Twips from the top of a stave to its first lane: the superframes and two rows of labels stand there.
const ABOVE_LANES: u64 = 920;

// Twips below the last lane: two rows of labels stand there.
const BELOW_LANES: u64 = 560;

// Twips of the band of the edition in front, with what separates it from the rows of the air.
const FRONT: u64 = 420;

// Twips between two staves.
const BETWEEN: u64 = 500;

/// A step at its place: the middle of its column; the left edge of superframes and of a frame that is shown.
#[derive(Clone, Copy)]
pub struct Placed {
    pub step: Step,
    pub stave: usize,
    pub x: u64,
}

/// A message at its place, where its sender has a lane; that of superframes that are folded is the middle of these.
#[derive(Clone, Copy)]
pub struct Posted {
    pub lane: Option<usize>,
    pub stave: usize,
    pub x: u64,
    pub is_heard: bool,
}

/// A row of columns with its lanes.
#[derive(Clone, Copy)]
pub struct Stave {
    pub top: u64,
    pub has_frames: bool,
}

/// How high the parts of a stave are, by the number of its lanes and of the network's beams.
#[derive(Clone, Copy)]
pub struct Heights {
    lanes: u64,
    beams: u64,
}

impl Heights {
    /// Where a lane of a stave runs.
    pub fn lane_y(self, stave: &Stave, lane: usize) -> u64 {
        let below = (lane as u64).saturating_mul(APART);
        stave.top.saturating_add(ABOVE_LANES).saturating_add(below)
    }

    /// Where the band of the edition in front begins.
    pub fn front_y(self, stave: &Stave) -> u64 {
        let last = self.lanes.saturating_sub(1);
        self.lane_y(stave, last as usize)
            .saturating_add(BELOW_LANES)
    }

    /// How high a row of the air is: lower where there are many beams.
    pub fn row(self) -> u64 {
        match self.beams {
            0..=8 => 280,
            9..=16 => 220,
            _ => 180,
        }
    }

    /// Where a row of the air begins.
    pub fn row_y(self, stave: &Stave, row: u64) -> u64 {
        let below = row.saturating_mul(self.row());
        self.front_y(stave)
            .saturating_add(FRONT)
            .saturating_add(below)
    }

    /// Where a stave ends: with the rows of the air and the names of frames below them, where it has some.
    pub fn bottom(self, stave: &Stave) -> u64 {
        if stave.has_frames {
            self.row_y(stave, self.beams).saturating_add(280)
        } else {
            self.row_y(stave, 0)
        }
    }
}

/// A run in columns and lanes.
#[derive(Drop)]
pub struct Layout<'a> {
    pub net: &'a Network,
    pub lanes: Lanes,
    pub heights: Heights,
    pub placed: Vec<Placed>,
    posted: Vec<Posted>,
    pub staves: Vec<Stave>,
    // The next column of the last stave, the place of the step before it, and the message that came there.
    column: u64,
    x: u64,
    heard: Option<usize>,
    telling: Telling,
}

impl<'a> Layout<'a> {
    /// The steps at their places.
    pub fn of(
        alloc: Global,
        net: &'a Network,
        lanes: Lanes,
        steps: &[Step],
    ) -> Result<Layout<'a>, OutOfMemory> {
        let mut layout = Layout::empty(alloc, net, lanes);
        layout.begin_stave()?;
        for step in steps {
            layout.add(*step)?;
        }
        layout.stack();
        Ok(layout)
    }

    // No steps and no stave.
    fn empty(alloc: Global, net: &'a Network, lanes: Lanes) -> Layout<'a> {
        let heights = Heights {
            lanes: lanes.stations.len() as u64,
            beams: u64::from(net.beam_count()),
        };
        Layout {
            net,
            lanes,
            heights,
            placed: Vec::new(alloc),
            posted: Vec::new(alloc),
            staves: Vec::new(alloc),
            column: 0,
            x: LEFT,
            heard: None,
            telling: Telling::Drawn,
        }
    }

    // Goes on in a stave below.
    fn begin_stave(&mut self) -> Drawn {
        let stave = Stave {
            top: 0,
            has_frames: false,
        };
        self.staves.push(stave)?;
        self.column = 0;
        Ok(())
    }

    // Puts a step behind the others, unless it is not drawn or of a station without a lane.
    fn add(&mut self, step: Step) -> Drawn {
        self.telling = step.telling(self.telling);
        if step.is_drawn(self.telling) {
            self.put_drawn(step)?;
        }
        match step {
            Step::Sent(message) => self.post(message),
            Step::Got(delivery) => {
                self.hear(delivery);
                Ok(())
            }
            _ => Ok(()),
        }
    }

    // Puts a step that is drawn: messages for terminals without a lane, one behind the other, share a place; where the terminals were
    // chosen, they have none.
    fn put_drawn(&mut self, step: Step) -> Drawn {
        let passes = match step {
            Step::Sent(message) => self.lanes.passes(message),
            _ => false,
        };
        if !passes {
            return match self.columns_of(step) {
                Some(columns) => self.put(step, columns),
                None => Ok(()),
            };
        }
        if self.lanes.are_chosen {
            return Ok(());
        }
        if let Some(placed) = self.placed.last_mut() {
            if placed.step.counts_one_more() {
                return Ok(());
            }
        }
        self.put(Step::Others(1), 1)
    }

    // How many columns a step takes; None where it is of a station without a lane.
    fn columns_of(&self, step: Step) -> Option<u64> {
        match step {
            Step::Begin(_) | Step::Burst(_) => Some(0),
            Step::Shown(_) => Some(FRAME_COLUMNS),
            Step::Folded(_) => Some(FOLD_COLUMNS),
            Step::Silent(silence) => self
                .lanes
                .find(Station::Terminal(silence.terminal))
                .map(|_| 0),
            Step::Others(_) => Some(1),
            Step::Hidden | Step::Noted(_) => None,
            Step::Sent(message) => self.lanes.find(message.sender).map(|_| 1),
            Step::Happened(station, _) => self.lanes.find(station).map(|_| 1),
            Step::Got(delivery) => self.columns_of_delivery(delivery),
        }
    }

    // Who hears the message that was heard last hears it in the same column.
    fn columns_of_delivery(&self, delivery: Delivery) -> Option<u64> {
        self.lanes.find(delivery.hearer)?;
        self.posted_as(delivery.place)?.lane?;
        let is_same = self.heard == Some(delivery.place);
        Some(if is_same { 0 } else { 1 })
    }

    // Puts a step at the next place.
    fn put(&mut self, step: Step, columns: u64) -> Drawn {
        if self.column.saturating_add(columns) > COLUMNS {
            self.begin_stave()?;
        }
        let edge = LEFT.saturating_add(self.column.saturating_mul(COLUMN));
        let x = match step {
            Step::Begin(_) | Step::Shown(_) | Step::Folded(_) => edge,
            _ if columns == 0 => self.x,
            _ => edge.saturating_add(COLUMN / 2),
        };
        self.column = self.column.saturating_add(columns);
        self.keep(step, x);
        let stave = self.staves.len().saturating_sub(1);
        self.placed.push(Placed { step, stave, x })?;
        Ok(())
    }

    // Remembers what the next step may go on from.
    fn keep(&mut self, step: Step, x: u64) {
        self.heard = None;
        match step {
            Step::Begin(_) => return,
            Step::Folded(_) => {
                self.x = x.saturating_add(FOLD_COLUMNS * COLUMN / 2);
                return;
            }
            Step::Got(delivery) => self.heard = Some(delivery.place),
            Step::Shown(_) => {
                if let Some(stave) = self.staves.last_mut() {
                    stave.has_frames = true;
                }
            }
            _ => (),
        }
        self.x = x;
    }

    // Remembers where a message was sent, behind those before it.
    fn post(&mut self, message: SentMessage) -> Drawn {
        let stave = if self.telling == Telling::Hidden {
            NOWHERE
        } else {
            self.staves.len().saturating_sub(1)
        };
        self.posted.push(Posted {
            lane: self.lanes.sender_lane(message),
            stave,
            x: self.x,
            is_heard: false,
        })?;
        Ok(())
    }

    // Remembers that a message was heard.
    fn hear(&mut self, delivery: Delivery) {
        if let Some(posted) = self.posted.get_mut(delivery.place) {
            posted.is_heard = true;
        }
    }

    // Puts the staves below each other.
    fn stack(&mut self) {
        let heights = self.heights;
        let mut top = TOP;
        for stave in self.staves.iter_mut() {
            stave.top = top;
            top = heights.bottom(stave).saturating_add(BETWEEN);
        }
    }

    /// The stave of a step.
    pub fn stave(&self, number: usize) -> Option<Stave> {
        self.staves.get(number).copied()
    }

    /// The lane of the station that sends, hears or is struck, where it has one, and the place of the step on it.
    pub fn lane_of(&self, placed: &Placed) -> Option<(usize, Point)> {
        let stave = self.stave(placed.stave)?;
        let lane = self.lanes.find(placed.step.station()?)?;
        let y = self.heights.lane_y(&stave, lane);
        Some((lane, place(placed.x, y)))
    }

    /// The message of that place among those of the text, where it was sent.
    pub fn posted_as(&self, place: usize) -> Option<Posted> {
        self.posted.get(place).copied()
    }
}
