// Whose bursts of which edition the terminals hold, as far as the printed lines tell: these have neither the Load of a
// PlanFor nor what a reference burst announces.
use crate::step::{Delivery, Said, SentMessage, Station};
use bt_frame::TermNo;
use bt_picture::Drawn;
use std::alloc::Global;

/// The bursts of an edition, and the command of the last Load of that edition.
#[derive(Clone, Copy)]
struct Bank {
    edition: u64,
    load: u64,
}

/// The two banks of a terminal, and the edition that is named by the reference burst that it took last.
#[derive(Clone, Copy)]
pub struct Holding {
    pub terminal: TermNo,
    first: Option<Bank>,
    second: Option<Bank>,
    named: Option<u64>,
}

impl Holding {
    // A terminal that has just restarted.
    fn none(terminal: TermNo) -> Holding {
        Holding {
            terminal,
            first: None,
            second: None,
            named: None,
        }
    }

    /// It holds its bursts of an edition.
    pub fn has(self, edition: u64) -> bool {
        is_of(self.first, edition) || is_of(self.second, edition)
    }

    // It stores bursts: in the bank that has those of their edition, or in an empty one, or in the place of the next.
    fn store(&mut self, bank: Bank) {
        if self.puts_first(bank.edition) {
            self.first = Some(bank);
        } else {
            self.second = Some(bank);
        }
    }

    // The bursts of that edition come into the first bank.
    fn puts_first(&self, edition: u64) -> bool {
        match (self.first, self.second) {
            (None, second) => !is_of(second, edition),
            (Some(first), None) => first.edition == edition,
            (Some(first), Some(second)) => {
                let goes_on = second.edition != edition && self.is_first_next(first, second);
                first.edition == edition || goes_on
            }
        }
    }

    // Of two banks the first is the next to be filled: the one that is not in use, or that of the lesser Load.
    fn is_first_next(&self, first: Bank, second: Bank) -> bool {
        if self.named == Some(first.edition) {
            return false;
        }
        self.named == Some(second.edition)
            || (first.load, first.edition) < (second.load, second.edition)
    }
}

fn is_of(bank: Option<Bank>, edition: u64) -> bool {
    bank.is_some_and(|bank| bank.edition == edition)
}

// The most editions whose last Load is known.
const MOST_LOADS: usize = 64;

/// What all terminals hold, the last Loads, an edition each, and what was sent.
#[derive(Drop)]
pub struct Holdings {
    held: Vec<Holding>,
    loads: Vec<Bank>,
    // Where the next Load is put once there are the most.
    next: usize,
    sent: Vec<Said>,
}

impl Holdings {
    /// Nobody holds anything.
    pub fn none(alloc: Global) -> Holdings {
        Holdings {
            held: Vec::new(alloc),
            loads: Vec::new(alloc),
            next: 0,
            sent: Vec::new(alloc),
        }
    }

    /// The terminals of which something is known.
    pub fn as_slice(&self) -> &[Holding] {
        self.held.as_slice()
    }

    /// A message is sent: a Load of an edition is the last one of it.
    pub fn send(&mut self, message: SentMessage) -> Drawn {
        self.sent.push(message.said)?;
        match message.said {
            Said::Load { command, edition } => self.load(Bank {
                edition,
                load: command,
            }),
            _ => Ok(()),
        }
    }

    // Remembers the last Load of an edition, in the place of an old one where there are many.
    fn load(&mut self, loaded: Bank) -> Drawn {
        for bank in self.loads.iter_mut() {
            if bank.edition == loaded.edition {
                bank.load = loaded.load;
                return Ok(());
            }
        }
        if self.loads.len() < MOST_LOADS {
            self.loads.push(loaded)?;
            return Ok(());
        }
        if let Some(bank) = self.loads.get_mut(self.next) {
            *bank = loaded;
        }
        self.next = self.next.saturating_add(1) % MOST_LOADS;
        Ok(())
    }

    /// A terminal takes a message: its bursts, or a reference burst.
    pub fn take(&mut self, delivery: Delivery) -> Drawn {
        let (Some(said), Station::Terminal(terminal)) = (
            self.sent.get(delivery.place).copied(),
            delivery.hearer,
        ) else {
            return Ok(());
        };
        match said {
            Said::Bursts { edition, .. } if !delivery.refused => self.store(terminal, edition),
            Said::Reference { edition, .. } if !delivery.refused => self.name(terminal, edition),
            _ => Ok(()),
        }
    }

    /// A station restarts: a terminal holds nothing then.
    pub fn forget(&mut self, station: Station) {
        for holding in self.held.iter_mut() {
            if station == Station::Terminal(holding.terminal) {
                *holding = Holding::none(holding.terminal);
            }
        }
    }

    fn store(&mut self, terminal: TermNo, edition: u64) -> Drawn {
        let load = self.load_of(edition);
        self.admit(terminal)?;
        for holding in self.held.iter_mut() {
            if holding.terminal == terminal {
                holding.store(Bank { edition, load });
            }
        }
        Ok(())
    }

    fn name(&mut self, terminal: TermNo, edition: Option<u64>) -> Drawn {
        self.admit(terminal)?;
        for holding in self.held.iter_mut() {
            if holding.terminal == terminal {
                holding.named = edition;
            }
        }
        Ok(())
    }

    // Knows of a terminal from now on.
    fn admit(&mut self, terminal: TermNo) -> Drawn {
        let is_known = self.held.iter().any(|holding| holding.terminal == terminal);
        if !is_known {
            self.held.push(Holding::none(terminal))?;
        }
        Ok(())
    }

    // The command of the last Load of an edition; 0 where there was none.
    fn load_of(&self, edition: u64) -> u64 {
        for bank in &self.loads {
            if bank.edition == edition {
                return bank.load;
            }
        }
        0
    }
}
