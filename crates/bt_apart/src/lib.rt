//! The centre as a site apart: its satellite and its terminals are no machines of its process, and it hears and says lines.
//!
//! It stands on the sites (`bt_site`) and on the lines of the bus (`bt_script`). `docs/sites.md` has the protocol. Promises:
//! `specs/Apart.antt` says what the centre is, what it says and what it is once it has heard a line, in the words of `bt_site`,
//! `specs/Back.antt` to which edition it goes back when it starts; `Inside` is for bodies alone. `centre.rt` has the centre,
//! `back.rt` that edition, `hear.rt` what it hears, `say.rt` what it says.
#![tactic(auto)]

mod back;
mod centre;
mod hear;
mod say;

pub use back::some_centres_go_back;
pub use centre::ApartCentre;
