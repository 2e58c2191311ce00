//! What threads share: a turn lock, by which the calls of several threads on one object have one legal history, and the board, on
//! which one publisher posts burst time plans and readers look without waiting.
//!
//! The lock stands on the kit's `atomic_table`. Each caller has a pass. `specs/Legal.antt` and `specs/Passes.antt` are what
//! callers are promised: when a history is legal, and what a pass has seen of it. `specs/Turns.antt` is for the bodies
//! alone: the rule of the table that the callers share, and what each step on it tells. The table has two words and one slot. A
//! caller draws a ticket from the first word, and looks at the second until it
//! is the ticket; where that is not soon it sleeps until it is woken. Then the slot is its own: it calls the object there,
//! moves the second word on, and wakes the caller whose ticket that is.
//!
//! The board stands on plans (`bt_demand`) and on the kit's `left_right` and `logbook`.
//! What is shown carries the list of the plans posted so far, so that a reader's list begins the publisher's whatever
//! either has done since they met. With each plan stand its bursts in order of the terminal that sends
//! (`sent_bursts.rt`), sorted once when it is posted: so a reader lends those of one terminal, and goes over no others.
//! `specs/Posted.antt` and `specs/Plans.antt` are what callers are promised: the board, the plans that each has seen, and
//! that their editions ascend. `specs/Log.antt` and `specs/Rule.antt` are for the bodies alone: the rule of the log of
//! plans, and the rule of those who take part.
#![tactic(auto)]

mod bells;
mod line;
mod object;
mod opening;
mod plan_log;
mod plays;
mod posted_plan;
mod publisher;
mod reader;
mod rule;
mod seen_plans;
mod sent_bursts;
mod shown;
mod turn;
mod turn_view;

pub use line::{Line, Pass};
pub use object::{Object, TurnEntry};
pub use opening::board;
pub use publisher::Publisher;
pub use reader::Reader;
pub use turn_view::{TurnView, Turns};
