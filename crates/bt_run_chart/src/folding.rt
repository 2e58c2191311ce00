// Superframes one behind the other with nothing but routine, as one step.
use crate::routine::routines_of;
use crate::step::{Folded, Step};
use bt_frame::OutOfMemory;
use bt_net::Network;
use std::alloc::Global;

/// The steps, in which two or more such superframes begin with one step. What is told of them stands behind it.
pub fn folded(alloc: Global, net: &Network, steps: &[Step]) -> Result<Vec<Step>, OutOfMemory> {
    let routines = routines_of(alloc, net, steps)?;
    let mut told: Vec<Step> = Vec::new(alloc);
    let mut number = 0;
    let mut open: Option<usize> = None;
    for step in steps {
        if !begins(step) {
            told.push(*step)?;
            continue;
        }
        let is_folded = has_fellow(routines.as_slice(), number);
        number = number.saturating_add(1);
        open = match step {
            Step::Begin(mark) if is_folded => Some(fold(open, *mark, &mut told)?),
            _ => {
                told.push(*step)?;
                None
            }
        };
    }
    Ok(told)
}

// Superframes begin with a step.
fn begins(step: &Step) -> bool {
    matches!(step, Step::Begin(_) | Step::Folded(_) | Step::Hidden)
}

// Nothing but routine is in the superframe of that number, nor in the one before it or in the one behind it.
fn has_fellow(routines: &[bool], number: usize) -> bool {
    let is_routine = |at: usize| routines.get(at) == Some(&true);
    let is_behind = number > 0 && is_routine(number.saturating_sub(1));
    is_routine(number) && (is_behind || is_routine(number.saturating_add(1)))
}

// Adds a superframe to those that are folded at a place, or else folds it behind all steps; gives the place.
fn fold(open: Option<usize>, mark: u64, told: &mut Vec<Step>) -> Result<usize, OutOfMemory> {
    if let Some(place) = open {
        if let Some(Step::Folded(folded)) = told.get_mut(place) {
            folded.last = mark;
            folded.count = folded.count.saturating_add(1);
            return Ok(place);
        }
    }
    let place = told.len();
    told.push(Step::Folded(Folded {
        first: mark,
        last: mark,
        count: 1,
    }))?;
    Ok(place)
}
