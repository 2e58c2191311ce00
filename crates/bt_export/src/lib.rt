//! What a journal tells for use elsewhere: the block of edits that brings its demand to a traffic, its demand on another network, and
//! its state for a monitor; and texts of other programs: a table of links as CSV, and printed lines as objects of JSON.
//!
//! It stands on looks at a journal (`bt_look`), on demands, on lines of a script and on printed lines. These are promises:
//! `specs/Edits.antt`, which edits bring a demand to another, and the block in which a desk asks for them; `specs/Carry.antt`, which
//! demand of another network is that of a journal, by the names of terminals; `specs/Metrics.antt`, the gauges of a journal.
//! `specs/Named.antt` is for bodies alone. `laws.rt` says that the desk machine makes each edit, what they come to, and what the
//! journal of a carried demand tells.
//!
//! The texts of others stand on the kit's `csv` and `serde_json`, on the text of a demand (`bt_plan`), and on the table of forms of
//! printed lines with the names of their open places (`bt_words`). Promises: `specs/Table.antt`, the traffic text that a table says, and its
//! fault; `specs/Json.antt`, the form of a line, and the JSON of the lines of a text; `specs/Object.antt`, the object of a line;
//! `specs/Said.antt`, the line that an object says. `specs/Forms.antt` says which lines fit the places of a form, and `object_laws.rt`
//! that an object says its line. `specs/TextForms.antt` has the forms of traffics and plans that no run prints. `specs/Row.antt` and `specs/Added.antt` are for bodies alone, and so is `specs/Flat.antt`.
#![tactic(auto)]

mod carry;
mod edits;
mod json;
mod laws;
mod look;
mod metrics;
mod object;
mod object_laws;
mod surplus;
mod table;
mod text_form;

pub use carry::{Carried, carried_of_journal, carry_demand};
pub use edits::{edits_of_journal, edits_text};
pub use json::{JsonCode, json_of};
pub use laws::{carried_journals_tell_the_demand, edits_bring_the_demand};
pub use metrics::metrics_of_journal;
pub use object::{form_object, text_object};
pub use object_laws::objects_say_their_lines;
pub use table::demand_of_table;
