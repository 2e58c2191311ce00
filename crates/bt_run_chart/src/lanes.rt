// The lanes: who has one, in which order, and how they are drawn.
use crate::editions::name_of;
use crate::layout::{LEFT, Layout, RIGHT, Stave};
use crate::step::{Said, SentMessage, Station, Step, Telling};
use bt_frame::{BeamNo, OutOfMemory, TermNo};
use bt_net::Network;
use bt_picture::{Anchor, Drawn, Pen, Shape, Style, place};
use bt_words::Word::Text;
use std::alloc::Global;

/// The most terminals that get a lane where none are chosen.
pub const MOST_LANES: usize = 12;

/// The stations that have lanes, from the top.
#[derive(Drop)]
pub struct Lanes {
    pub stations: Vec<Station>,
    /// The terminals were chosen.
    pub are_chosen: bool,
}

impl Lanes {
    /// The lanes of a run: the centre, the standby where the run has one, the satellite, and the terminals that are chosen;
    /// where none are, the first that send or hear.
    pub fn of(alloc: Global, steps: &[Step], chosen: &[TermNo]) -> Result<Lanes, OutOfMemory> {
        let stations = Vec::new(alloc);
        let are_chosen = !chosen.is_empty();
        let mut lanes = Lanes {
            stations,
            are_chosen,
        };
        lanes.add(Station::Centre)?;
        if steps
            .iter()
            .any(|step| step.station() == Some(Station::Standby))
        {
            lanes.add(Station::Standby)?;
        }
        lanes.add(Station::Satellite)?;
        if are_chosen {
            lanes.add_terminals(chosen)?;
        } else {
            lanes.add_terminals(heard_terminals(alloc, steps)?.as_slice())?;
        }
        Ok(lanes)
    }

    fn add_terminals(&mut self, terminals: &[TermNo]) -> Drawn {
        for terminal in terminals {
            self.add(Station::Terminal(*terminal))?;
        }
        Ok(())
    }

    // Adds a lane, where the station has none.
    fn add(&mut self, station: Station) -> Drawn {
        if self.find(station).is_none() {
            self.stations.push(station)?;
        }
        Ok(())
    }

    /// A message is for a terminal that has no lane.
    pub fn passes(&self, message: SentMessage) -> bool {
        match message.said {
            Said::Bursts { to, .. } => self.find(Station::Terminal(to)).is_none(),
            _ => false,
        }
    }

    /// The lane of the sender of a message, where it has one; none for one that passes terminals that were chosen.
    pub fn sender_lane(&self, message: SentMessage) -> Option<usize> {
        if self.are_chosen && self.passes(message) {
            return None;
        }
        self.find(message.sender)
    }

    /// The lane of a station, from 0 at the top.
    pub fn find(&self, station: Station) -> Option<usize> {
        self.stations.iter().position(|other| *other == station)
    }
}

// The first terminals that send or hear in what is asked for, in the network's order.
fn heard_terminals(alloc: Global, steps: &[Step]) -> Result<Vec<TermNo>, OutOfMemory> {
    let mut terminals: Vec<TermNo> = Vec::new(alloc);
    let mut telling = Telling::Drawn;
    for step in steps {
        telling = step.telling(telling);
        if let Some(Station::Terminal(terminal)) = step.station() {
            let is_new = telling != Telling::Hidden
                && !terminals.iter().any(|other| *other == terminal);
            if is_new && terminals.len() < MOST_LANES {
                terminals.push(terminal)?;
            }
        }
    }
    terminals.sort()?;
    Ok(terminals)
}

/// Draws the lanes of each stave with their names.
pub fn draw_lanes<'a>(layout: &Layout<'a>, pen: &mut Pen<'a>) -> Drawn {
    for stave in &layout.staves {
        draw_stave(layout, stave, pen)?;
        if stave.has_frames {
            name_rows(layout, stave, pen)?;
        }
    }
    Ok(())
}

// Draws the lanes of a stave.
fn draw_stave<'a>(layout: &Layout<'a>, stave: &Stave, pen: &mut Pen<'a>) -> Drawn {
    for (lane, station) in layout.lanes.stations.iter().enumerate() {
        let y = layout.heights.lane_y(stave, lane);
        pen.shape(Shape::Line(place(LEFT, y), place(RIGHT, y), Style::Thin))?;
        let name = station_name(layout.net, *station);
        write_name(pen, y.saturating_add(75), letters_of(name), name)?;
    }
    let y = layout.heights.front_y(stave);
    write_name(pen, y.saturating_add(210), Style::Text, "in front")
}

/// The letters of a name: small ones where it is long.
pub fn letters_of(name: &str) -> Style {
    if name.len() > 11 {
        Style::Small
    } else {
        Style::Text
    }
}

/// Writes what stands before a row.
pub fn write_name<'a>(pen: &mut Pen<'a>, y: u64, style: Style, name: &'a str) -> Drawn {
    let words = pen.phrase("#", &[Text(name)])?;
    pen.label(place(LEFT - 140, y), Anchor::End, style, words)
}

// Writes the names of the beams before the rows of the air.
fn name_rows<'a>(layout: &Layout<'a>, stave: &Stave, pen: &mut Pen<'a>) -> Drawn {
    for beam in 0..layout.net.beam_count() {
        let y = layout.heights.row_y(stave, u64::from(beam));
        let name = layout.net.beam_name(BeamNo(beam as u8));
        write_name(pen, y.saturating_add(150), Style::Small, name)?;
    }
    Ok(())
}

/// What a station is called.
pub fn station_name(net: &Network, station: Station) -> &str {
    match station {
        Station::Centre => "centre",
        Station::Standby => "standby",
        Station::Satellite => "satellite",
        Station::Terminal(terminal) => name_of(net, terminal),
    }
}
