// Where each step stands in a ladder: time runs down, a row for each message, and a lane for each station.
use crate::lanes::Lanes;
use crate::step::{Delivery, Said, SentMessage, Station, Step, Telling};
use bt_frame::OutOfMemory;
use bt_net::Network;
use bt_picture::{Drawn, Point, place};
use std::alloc::Global;

// Twips from the left to the first lane, and from the last lane to the right edge.
const LEFT: u64 = 2700;

const BESIDE: u64 = 1500;

// The least and the most twips from a lane to the next.
const LEAST_APART: u64 = 1500;

const MOST_APART: u64 = 3200;

// The least twips of a ladder from the left to the right edge.
const LEAST_WIDTH: u64 = 20_000;

// Twips above the first page, and of a row.
const TOP: u64 = 1500;

const ROW: u64 = 320;

// Rows of a page, and twips of the names above each page.
pub const PAGE: u64 = 40;

const NAMES: u64 = 520;

// The row of what is not drawn.
const NOWHERE: u64 = u64::MAX;

/// A step in its row; a status that tells of another edition in front says so in the row above it, and a burst is beside so many
/// others of its sender.
#[derive(Clone, Copy)]
pub struct Rung {
    pub step: Step,
    pub row: u64,
    pub is_new_front: bool,
    pub beside: u64,
}

/// A message in its row, where its sender has a lane; heard too where it is not told who hears it.
#[derive(Clone, Copy)]
pub struct Departure {
    pub lane: Option<usize>,
    pub row: u64,
    pub is_heard: bool,
}

impl Departure {
    /// It was sent in superframes that are not drawn.
    pub fn is_hidden(self) -> bool {
        self.row == NOWHERE
    }
}

// The last row of a lane in which something happened to its station, and how many bursts are in it.
#[derive(Clone, Copy)]
struct Latest {
    row: Option<u64>,
    bursts: u64,
}

/// A run in rows and lanes.
#[derive(Drop)]
pub struct Ladder<'a> {
    pub net: &'a Network,
    pub lanes: Lanes,
    pub rungs: Vec<Rung>,
    pub rows: u64,
    // It is not told who heard a message.
    is_apart: bool,
    departures: Vec<Departure>,
    latest: Vec<Latest>,
    // The last row that all lanes have in common, and the message that came late into the last row.
    common: Option<u64>,
    late: Option<usize>,
    fore: Option<u64>,
    telling: Telling,
}

impl<'a> Ladder<'a> {
    /// The steps in their rows.
    pub fn of(
        alloc: Global,
        net: &'a Network,
        lanes: Lanes,
        is_apart: bool,
        steps: &[Step],
    ) -> Result<Ladder<'a>, OutOfMemory> {
        let mut latest = Vec::new(alloc);
        for _ in &lanes.stations {
            latest.push(Latest {
                row: None,
                bursts: 0,
            })?;
        }
        let mut ladder = Ladder {
            net,
            lanes,
            rungs: Vec::new(alloc),
            rows: 0,
            is_apart,
            departures: Vec::new(alloc),
            latest,
            common: None,
            late: None,
            fore: None,
            telling: Telling::Drawn,
        };
        for step in steps {
            ladder.add(*step)?;
        }
        Ok(ladder)
    }

    // Puts a step behind the others, where it is drawn.
    fn add(&mut self, step: Step) -> Drawn {
        self.telling = step.telling(self.telling);
        let is_new_front = self.is_new_front(step);
        if step.is_drawn(self.telling) {
            self.put(step, is_new_front)?;
        }
        match step {
            Step::Sent(message) => self.depart(message),
            Step::Got(delivery) => {
                if let Some(departure) = self.departures.get_mut(delivery.place) {
                    departure.is_heard = true;
                }
                Ok(())
            }
            _ => Ok(()),
        }
    }

    // A status tells of another edition in front than was told before.
    fn is_new_front(&mut self, step: Step) -> bool {
        let Step::Sent(message) = step else {
            return false;
        };
        let Said::Status(status) = message.said else {
            return false;
        };
        let fore = Some(status.fore);
        let is_new = self.fore != fore;
        self.fore = fore;
        is_new
    }

    // Gives a step its row.
    fn put(&mut self, step: Step, is_new_front: bool) -> Drawn {
        match step {
            Step::Begin(_) | Step::Folded(_) | Step::Shown(_) => self.put_common(step),
            Step::Burst(burst) => self.put_beside(step, Station::Terminal(burst.from)),
            Step::Silent(silence) => self.put_beside(step, Station::Terminal(silence.terminal)),
            Step::Sent(message) if self.lanes.passes(message) => self.pass(),
            Step::Sent(message) => self.put_on(step, message.sender, is_new_front),
            Step::Got(delivery) => self.put_delivery(step, delivery),
            Step::Happened(station, _) => self.put_on(step, station, false),
            Step::Noted(_) => self.put_common(step),
            Step::Others(_) | Step::Hidden => Ok(()),
        }
    }

    // A row that all lanes have in common.
    fn put_common(&mut self, step: Step) -> Drawn {
        let row = self.begin_row();
        self.common = Some(row);
        self.keep(step, row, false, 0)
    }

    // A row of a station, where it has a lane; below another one that tells what is in front.
    fn put_on(&mut self, step: Step, station: Station, is_new_front: bool) -> Drawn {
        let Some(lane) = self.lanes.find(station) else {
            return Ok(());
        };
        if is_new_front {
            self.begin_row();
        }
        let row = self.begin_row();
        self.touch(lane, row);
        self.keep(step, row, is_new_front, 0)
    }

    // In the row of the frame, on the lane of a station, where it has one.
    fn put_beside(&mut self, step: Step, station: Station) -> Drawn {
        let (Some(lane), Some(row)) = (self.lanes.find(station), self.common) else {
            return Ok(());
        };
        let mut beside = 0;
        if let Some(latest) = self.latest.get_mut(lane) {
            if latest.row == Some(row) {
                latest.bursts = latest.bursts.saturating_add(1);
            } else {
                latest.bursts = 0;
            }
            latest.row = Some(row);
            beside = latest.bursts;
        }
        self.keep(step, row, false, beside)
    }

    // A message for a terminal without a lane: one row for those that stand one behind the other, and none where the terminals were
    // chosen.
    fn pass(&mut self) -> Drawn {
        if self.lanes.are_chosen {
            return Ok(());
        }
        if let Some(rung) = self.rungs.last_mut() {
            if rung.step.counts_one_more() {
                return Ok(());
            }
        }
        self.put_on(Step::Others(1), Station::Centre, false)
    }

    // A delivery stands in the row of its message, where nothing has happened to the hearer since; else in a row of its own, which
    // those that hear the same message with it share.
    fn put_delivery(&mut self, step: Step, delivery: Delivery) -> Drawn {
        let (Some(lane), Some(departure)) = (
            self.lanes.find(delivery.hearer),
            self.departure(delivery.place),
        ) else {
            return Ok(());
        };
        if departure.lane.is_none() {
            return Ok(());
        }
        let since = self.latest_of(lane);
        let is_at_once = !departure.is_hidden() && since.is_none_or(|row| row < departure.row);
        if is_at_once {
            self.touch(lane, departure.row);
            return self.keep(step, departure.row, false, 0);
        }
        let last = self.rows.saturating_sub(1);
        let shares = self.late == Some(delivery.place) && since.is_none_or(|row| row < last);
        let row = if shares { last } else { self.begin_row() };
        self.late = Some(delivery.place);
        self.touch(lane, row);
        self.keep(step, row, false, 0)
    }

    // The last row in which something happened to the station of a lane.
    fn latest_of(&self, lane: usize) -> Option<u64> {
        let own = self.latest.get(lane).and_then(|latest| latest.row);
        match (own, self.common) {
            (Some(own), Some(common)) => Some(own.max(common)),
            (own, common) => own.or(common),
        }
    }

    // Something happens to the station of a lane in a row.
    fn touch(&mut self, lane: usize, row: u64) {
        if let Some(latest) = self.latest.get_mut(lane) {
            latest.row = Some(row);
            latest.bursts = 0;
        }
    }

    // A further row.
    fn begin_row(&mut self) -> u64 {
        let row = self.rows;
        self.rows = self.rows.saturating_add(1);
        self.late = None;
        row
    }

    fn keep(&mut self, step: Step, row: u64, is_new_front: bool, beside: u64) -> Drawn {
        self.rungs.push(Rung {
            step,
            row,
            is_new_front,
            beside,
        })?;
        Ok(())
    }

    // Remembers in which row a message was sent, behind those before it: the last one.
    fn depart(&mut self, message: SentMessage) -> Drawn {
        let row = if self.telling == Telling::Hidden {
            NOWHERE
        } else {
            self.rows.saturating_sub(1)
        };
        self.departures.push(Departure {
            lane: self.lanes.sender_lane(message),
            row,
            is_heard: self.is_apart,
        })?;
        Ok(())
    }

    /// The message of that place among those of the text, where it was sent.
    pub fn departure(&self, place: usize) -> Option<Departure> {
        self.departures.get(place).copied()
    }

    // Twips from a lane to the next: as many as there is room for.
    fn apart(&self) -> u64 {
        let gaps = (self.lanes.stations.len() as u64).saturating_sub(1).max(1);
        let room = LEAST_WIDTH.saturating_sub(LEFT + BESIDE) / gaps;
        room.max(LEAST_APART).min(MOST_APART)
    }

    /// Where a lane runs.
    pub fn lane_x(&self, lane: usize) -> u64 {
        LEFT.saturating_add((lane as u64).saturating_mul(self.apart()))
    }

    /// Where the last lane runs.
    pub fn last_x(&self) -> u64 {
        self.lane_x(self.lanes.stations.len().saturating_sub(1))
    }

    /// How wide the ladder is.
    pub fn width(&self) -> u64 {
        self.last_x().saturating_add(BESIDE).max(LEAST_WIDTH)
    }

    /// Where a row is.
    pub fn row_y(&self, row: u64) -> u64 {
        self.names_y(row / PAGE)
            .saturating_add(NAMES)
            .saturating_add((row % PAGE).saturating_mul(ROW))
    }

    /// Where the names above a page are.
    pub fn names_y(&self, page: u64) -> u64 {
        TOP.saturating_add(page.saturating_mul(PAGE * ROW + NAMES))
    }

    /// How many pages there are.
    pub fn pages(&self) -> u64 {
        self.rows.saturating_sub(1) / PAGE + 1
    }

    /// Where the lanes end.
    pub fn bottom(&self) -> u64 {
        self.row_y(self.rows.saturating_sub(1)).saturating_add(ROW)
    }

    /// The place of a rung on the lane of the station that sends, hears or is struck, where it has one.
    pub fn place_of(&self, rung: &Rung) -> Option<Point> {
        let lane = self.lanes.find(rung.step.station()?)?;
        Some(self.at(lane, rung.row))
    }

    /// The place of a lane in a row.
    pub fn at(&self, lane: usize, row: u64) -> Point {
        place(self.lane_x(lane), self.row_y(row))
    }
}
