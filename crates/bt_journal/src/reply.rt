// What the book of changes answers.
ghost use Rattle.std.specs.Prelude.{◌≡◌, IfOk};
ghost use Rattle.bt_journal.specs.Journal.{is_fault, is_made, is_refusal};

use bt_demand::{Demand, Plan, Verdict};
use bt_frame::{BeamNo, Command, EditionNo, OutOfMemory};
use std::alloc::Global;

/// The answer to a call. A refusal leaves the demand, the plans and the orders as they were.
#[derive(Drop)]
pub enum Reply {
    /// The edit was made and makes this edition; the heaviest line has so many slots then.
    Done {
        edition: EditionNo,
        length: u32,
    },
    /// Both ends of a link are one terminal.
    SameTerminal,
    /// The first link holds fewer units than the edit takes from it.
    NotThere {
        held: u32,
    },
    /// After the edit that row would have so many slots, more than the frame.
    RowFull {
        beam: BeamNo,
        sum: u32,
    },
    /// After the edit that column would have so many slots, more than the frame.
    ColumnFull {
        beam: BeamNo,
        sum: u32,
    },
    /// The journal has no room for the line of the change: its lines have so many bytes.
    BookFull {
        length: u32,
    },
    /// The plan's edition is not greater than that of the newest plan, which is this.
    NotNewer {
        newest: EditionNo,
    },
    /// The plan's edition is greater than the last edition of the demand, which is this.
    NoSuchEdition {
        last: EditionNo,
    },
    /// The plan is not good for the demand of its edition, and this is wrong with it first.
    NotGood {
        verdict: Verdict,
    },
    /// The order's command is not the one after the last, which is this; 0 where there is none.
    OutOfTurn {
        last: Command,
    },
    /// No plan of the order's edition is installed; the newest is of this edition.
    NotInstalled {
        newest: EditionNo,
    },
    /// The last edition, the edition of the newest plan, and the demand.
    Demand {
        edition: EditionNo,
        newest: EditionNo,
        demand: Demand,
    },
    /// The plan was installed, and is the newest from then on.
    Installed {
        edition: EditionNo,
    },
    /// The newest plan, where it is newer than the caller's.
    Newest {
        newer: Option<Plan>,
    },
    /// The order was placed.
    Placed,
    /// The change was not kept: the store failed. The book is stopped.
    StoreFault,
    /// The store failed at an earlier change, and no change is made after that.
    Stopped,
}

impl Reply {
    /// It says that a change was made.
    pub fn is_made(&self) -> bool
        ensures made { result ≡ is_made self.now }
    {
        match *self {
            Reply::Done { .. } | Reply::Installed { .. } | Reply::Placed => true,
            _ => false,
        }
    }

    /// It tells of a fault of the store, now or before.
    pub fn is_fault(&self) -> bool
        ensures fault { result ≡ is_fault self.now }
    {
        match *self {
            Reply::StoreFault | Reply::Stopped => true,
            _ => false,
        }
    }

    /// It refuses a change for a cause of its own.
    pub fn is_refusal(&self) -> bool
        ensures refusal { result ≡ is_refusal self.now }
    {
        match *self {
            Reply::Demand { .. } | Reply::Newest { .. } => false,
            _ => !self.is_made() && !self.is_fault(),
        }
    }

    /// An equal reply.
    pub fn copy(&self, alloc: Global) -> Result<Reply, OutOfMemory>
        ensures same { IfOk result (λ copy. copy ≡ self.now) }
    {
        match *self {
            Reply::Done { edition, length } => Ok(Reply::Done { edition, length }),
            Reply::SameTerminal => Ok(Reply::SameTerminal),
            Reply::NotThere { held } => Ok(Reply::NotThere { held }),
            Reply::RowFull { beam, sum } => Ok(Reply::RowFull { beam, sum }),
            Reply::ColumnFull { beam, sum } => Ok(Reply::ColumnFull { beam, sum }),
            Reply::BookFull { length } => Ok(Reply::BookFull { length }),
            Reply::NotNewer { newest } => Ok(Reply::NotNewer { newest }),
            Reply::NoSuchEdition { last } => Ok(Reply::NoSuchEdition { last }),
            Reply::NotGood { verdict } => Ok(Reply::NotGood { verdict }),
            Reply::OutOfTurn { last } => Ok(Reply::OutOfTurn { last }),
            Reply::NotInstalled { newest } => Ok(Reply::NotInstalled { newest }),
            Reply::Demand {
                edition,
                newest,
                ref demand,
            } => Ok(Reply::Demand {
                edition,
                newest,
                demand: demand.copy(alloc)?,
            }),
            Reply::Installed { edition } => Ok(Reply::Installed { edition }),
            Reply::Newest { ref newer } => Ok(Reply::Newest {
                newer: copy_of(alloc, newer)?,
            }),
            Reply::Placed => Ok(Reply::Placed),
            Reply::StoreFault => Ok(Reply::StoreFault),
            Reply::Stopped => Ok(Reply::Stopped),
        }
    }
}

/// The same plan, or none where there is none.
fn copy_of(alloc: Global, plan: &Option<Plan>) -> Result<Option<Plan>, OutOfMemory>
    ensures { IfOk result (λ copy. copy ≡ plan.now) }
{
    match plan {
        Some(plan) => Ok(Some(plan.copy(alloc)?)),
        None => Ok(None),
    }
}
