//! The network file: its beams, its terminals, and the limits of its frames and of its journal.
//!
//! It stands on the numbers of beams and terminals in `bt_frame`, and on the readings of `bt_text`; `docs/formats.md` has
//! the file. Promises are in `specs/Network.antt`, what a network is; `specs/Terminals.antt`, a terminal by its number and
//! by its name; `specs/Name.antt`, the shape of names; `specs/Reading.antt`, which bytes are a network, and which fault
//! comes first where they are none, with `specs/Fault.antt`, how a place in the file is printed, and `specs/Walk.antt`, what
//! a walk over the file comes to, and whether it goes on at a name; and `specs/Numbered.antt`, a network of any size that is
//! made for trials. Nothing in specs/ is for bodies alone.
#![tactic(auto)]

mod beams;
mod check;
mod fault;
mod name;
mod network;
mod numbered;
mod reading;
mod terminals;

pub use fault::{NetFault, Path};
pub use name::{are_names, is_name, is_terminal_name};
pub use network::Network;
