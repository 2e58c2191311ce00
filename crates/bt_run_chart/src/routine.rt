// Which superframes have nothing but routine.
//
// Such a superframe has only statuses and reference bursts, at least one of these. Each says what the one before it said, but for
// its superframe, and in this superframe each status came to the centre, each reference burst to all terminals, and nothing came
// that was sent earlier or was refused. Nothing happened to a station, nobody edited or planned, no delivery was lost, and
// each frame that was shown has the bursts of the one shown before it.
use crate::step::{Delivery, Said, SentMessage, ShownStatus, Station, Step};
use bt_frame::OutOfMemory;
use bt_net::Network;
use bt_picture::Drawn;
use std::alloc::Global;

/// For each step with which superframes begin, in order, whether there is nothing but routine up to the next such step.
pub fn routines_of(alloc: Global, net: &Network, steps: &[Step]) -> Result<Vec<bool>, OutOfMemory> {
    let mut judge = Judge {
        terminals: bits_of(net),
        status: None,
        reference: None,
        is_open: false,
        is_plain: false,
        references: 0,
        hearings: Vec::new(alloc),
        verdicts: Vec::new(alloc),
    };
    let mut frames = Frames::none();
    for (number, step) in steps.iter().enumerate() {
        let is_same = frames.goes_on(steps, number, step);
        judge.is_plain = judge.is_plain && is_same;
        judge.take(alloc, step)?;
    }
    // the last frame ends here
    let is_same = frames.goes_on(steps, steps.len(), &Step::Hidden);
    judge.is_plain = judge.is_plain && is_same;
    judge.close()?;
    Ok(judge.verdicts)
}

// A bit for each terminal of the network.
fn bits_of(net: &Network) -> u64 {
    let mut bits = 0;
    for terminal in 0..net.terminal_count() {
        bits |= bit_of(terminal);
    }
    bits
}

// The bit of a terminal.
fn bit_of(terminal: u32) -> u64 {
    if terminal < 64 { 1 << terminal } else { 0 }
}

// To whom a message of the present superframe came.
#[derive(Clone, Copy)]
struct Hearing {
    place: usize,
    is_reference: bool,
    by_centre: bool,
    by_terminals: u64,
}

impl Hearing {
    fn come_to(&mut self, hearer: Station) {
        match hearer {
            Station::Centre => self.by_centre = true,
            Station::Terminal(terminal) => {
                let bit = bit_of(u32::from(terminal.0));
                self.by_terminals = self.by_terminals | bit;
            }
            _ => (),
        }
    }
}

// What is known of the superframes so far, and of the present one.
#[derive(Drop)]
struct Judge {
    terminals: u64,
    // What was said last.
    status: Option<ShownStatus>,
    reference: Option<(Station, Option<u64>)>,
    // Whether a superframe has begun, whether there was nothing but routine in it so far, and what was sent in it.
    is_open: bool,
    is_plain: bool,
    references: u64,
    hearings: Vec<Hearing>,
    verdicts: Vec<bool>,
}

impl Judge {
    fn take(&mut self, alloc: Global, step: &Step) -> Drawn {
        match step {
            Step::Begin(_) | Step::Folded(_) | Step::Hidden => {
                self.close()?;
                self.is_open = true;
                self.is_plain = matches!(step, Step::Begin(_));
                self.references = 0;
                self.hearings = Vec::new(alloc);
            }
            Step::Sent(message) => self.send(*message)?,
            Step::Got(delivery) => self.hear(*delivery),
            Step::Happened(..) | Step::Noted(_) => self.is_plain = false,
            Step::Shown(_) | Step::Burst(_) | Step::Silent(_) | Step::Others(_) => (),
        }
        Ok(())
    }

    // The present superframe ends.
    fn close(&mut self) -> Drawn {
        if self.is_open {
            let terminals = self.terminals;
            let all_heard = self.hearings.iter().all(|it| is_heard(*it, terminals));
            let verdict = self.is_plain && self.references > 0 && all_heard;
            self.verdicts.push(verdict)?;
        }
        Ok(())
    }

    fn send(&mut self, message: SentMessage) -> Drawn {
        let is_reference = match message.said {
            Said::Status(status) => {
                let is_same = self.status.is_some_and(|before| says_same(before, status));
                self.is_plain = self.is_plain && is_same;
                self.status = Some(status);
                false
            }
            Said::Reference { edition, .. } => {
                let burst = Some((message.sender, edition));
                self.is_plain = self.is_plain && self.reference == burst;
                self.reference = burst;
                self.references = self.references.saturating_add(1);
                true
            }
            _ => {
                self.is_plain = false;
                false
            }
        };
        self.hearings.push(Hearing {
            place: message.place,
            is_reference,
            by_centre: false,
            by_terminals: 0,
        })?;
        Ok(())
    }

    fn hear(&mut self, delivery: Delivery) {
        let is_present = self.note(delivery);
        self.is_plain = self.is_plain && is_present && !delivery.refused;
    }

    // Notes to whom a message came; false where it is none of the present superframe.
    fn note(&mut self, delivery: Delivery) -> bool {
        let Some(first) = self.hearings.first().map(|it| it.place) else {
            return false;
        };
        let Some(at) = delivery.place.checked_sub(first) else {
            return false;
        };
        let Some(hearing) = self.hearings.get_mut(at) else {
            return false;
        };
        hearing.come_to(delivery.hearer);
        true
    }
}

// It came to all that hear such a message.
fn is_heard(hearing: Hearing, terminals: u64) -> bool {
    if hearing.is_reference {
        hearing.by_terminals == terminals
    } else {
        hearing.by_centre
    }
}

// Two statuses say the same, but for the superframe.
fn says_same(one: ShownStatus, other: ShownStatus) -> bool {
    one.fore == other.fore
        && one.back == other.back
        && one.armed == other.armed
        && one.last == other.last
}

// The frame shown last and the one before it, by the numbers of their steps; whether what is told now is still of the last one.
#[derive(Clone, Copy)]
struct Frames {
    before: Option<usize>,
    last: Option<usize>,
    is_open: bool,
}

impl Frames {
    fn none() -> Frames {
        Frames {
            before: None,
            last: None,
            is_open: false,
        }
    }

    // A step of that number follows: whether the frames still look like the ones before them.
    fn goes_on(&mut self, steps: &[Step], number: usize, step: &Step) -> bool {
        if matches!(step, Step::Burst(_) | Step::Silent(_)) {
            return self.is_open && same_step(self.fellow(steps, number), step);
        }
        let is_same = !self.is_open
            || !matches!(
                self.fellow(steps, number),
                Some(Step::Burst(_) | Step::Silent(_))
            );
        self.is_open = matches!(step, Step::Shown(_));
        if self.is_open {
            self.before = self.last;
            self.last = Some(number);
        }
        is_same && (!self.is_open || self.before.is_some())
    }

    // The step that stands as far behind the frame before as that of this number behind the last one.
    fn fellow(self, steps: &[Step], number: usize) -> Option<Step> {
        let behind = number.checked_sub(self.last?)?;
        steps.get(self.before?.checked_add(behind)?).copied()
    }
}

// Two steps of frames are the same.
fn same_step(one: Option<Step>, other: &Step) -> bool {
    match (one, other) {
        (Some(Step::Burst(one)), Step::Burst(other)) => one == *other,
        (Some(Step::Silent(one)), Step::Silent(other)) => one.terminal == other.terminal,
        _ => false,
    }
}
