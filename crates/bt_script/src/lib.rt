//! The script text: rounds, in each round the lines of its desks, of its planner and of the air, and the restarts of
//! the centre between them; and the lines of a bus.
//!
//! It stands on the texts of `bt_text`, the names of `bt_net`, the ends of the air of `bt_air` and the edits of
//! `bt_journal`; `docs/formats.md` has the lines of a script. A line goes through four stages, and the first that it
//! does not pass names its fault: its shape, its names, its ranges, its place. `specs/LineShape.antt` and `shape.rt`
//! have the shapes in the same order; `specs/Stages.antt` and `names.rt`, `ranges.rt` and `line.rt` the stages.
//!
//! Promises are in `specs/ScriptText.antt`, the script that a text spells; `specs/Named.antt`, the terminals that a
//! script names; `specs/Said.antt`, those that a line names; `specs/Desks.antt`, the desks of a round; `specs/Length.antt`,
//! how many lines a script has; `specs/Codes.antt`, how a fault is called. `specs/Reading.antt` and `specs/Range.antt` are
//! words of theirs.
//!
//! By `mark N` and `radio N HEX` sites hear each other that share nothing else; `docs/sites.md` has them as a table. They stand on the
//! bytes of messages (`bt_air`) and on printed lines (`bt_words`). Promises: `specs/Heard.antt` says what such a line says,
//! `specs/BusSaid.antt` how it is said.
#![tactic(auto)]

mod desk_no;
mod fault;
mod heard;
mod items;
mod line;
mod names;
mod ranges;
mod reader;
mod said;
mod script;
mod shape;
mod sites;

pub use desk_no::DeskNo;
pub use fault::{ScriptCode, ScriptFault};
pub use heard::{BusLine, begun_in, number_in, radio_in, read_bus_line};
pub use items::round_in_front;
pub use line::{ScriptLine, read_line};
pub use said::{add_mark, add_radio};
pub use script::{
    AirLine, AirLines, DeskLine, DeskLines, Desks, Item, Items, Losing, Round, Script,
};
pub use shape::{LinkWords, link_in, lone_number};
pub use sites::Sites;
