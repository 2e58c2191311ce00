// Who is silent in a frame that was shown.
use crate::holdings::Holdings;
use crate::step::{Frame, Happening, Silence, Step};
use bt_frame::{MOST_TERMINALS, OutOfMemory};
use bt_picture::Drawn;
use std::alloc::Global;

/// The steps, with a silence behind the bursts of each frame for each terminal that holds its bursts of the edition in front, as
/// far as the lines tell, and sends none.
pub fn with_silences(alloc: Global, steps: &[Step]) -> Result<Vec<Step>, OutOfMemory> {
    let mut holdings = Holdings::none(alloc);
    let mut told = Vec::new(alloc);
    let mut shown: Option<OpenFrame> = None;
    for step in steps {
        if let (Step::Burst(burst), Some(open)) = (step, shown.as_mut()) {
            open.sends(burst.from.0);
            told.push(*step)?;
            continue;
        }
        close(shown, &holdings, &mut told)?;
        shown = opened(step);
        hold(step, &mut holdings)?;
        told.push(*step)?;
    }
    close(shown, &holdings, &mut told)?;
    Ok(told)
}

// A frame whose bursts are being told, and which terminals send in it, by their numbers.
#[derive(Clone, Copy)]
struct OpenFrame {
    frame: Frame,
    senders: [bool; MOST_TERMINALS],
}

impl OpenFrame {
    fn sends(&mut self, terminal: u8) {
        if let Some(sends) = self.senders.get_mut(usize::from(terminal)) {
            *sends = true;
        }
    }
}

// The frame that a step begins.
fn opened(step: &Step) -> Option<OpenFrame> {
    let Step::Shown(frame) = step else {
        return None;
    };
    Some(OpenFrame {
        frame: *frame,
        senders: [false; MOST_TERMINALS],
    })
}

// What the terminals hold behind a step.
fn hold(step: &Step, holdings: &mut Holdings) -> Drawn {
    match step {
        Step::Sent(message) => holdings.send(*message),
        Step::Got(delivery) => holdings.take(*delivery),
        Step::Happened(station, Happening::Reset) => {
            holdings.forget(*station);
            Ok(())
        }
        _ => Ok(()),
    }
}

// Tells who is silent in a frame.
fn close(shown: Option<OpenFrame>, holdings: &Holdings, told: &mut Vec<Step>) -> Drawn {
    let Some(open) = shown else {
        return Ok(());
    };
    for holding in holdings.as_slice() {
        let terminal = holding.terminal;
        let sends = open.senders.get(usize::from(terminal.0)) == Some(&true);
        if holding.has(open.frame.fore) && !sends {
            let frame = open.frame;
            told.push(Step::Silent(Silence { terminal, frame }))?;
        }
    }
    Ok(())
}
