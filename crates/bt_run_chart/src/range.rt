// The superframes that are asked for.
use crate::step::Step;
use crate::view::Superframes;
use bt_frame::OutOfMemory;
use std::alloc::Global;

/// The steps, of which those are hidden that are of another superframe or stand before the first one.
pub fn within(alloc: Global, asked: Superframes, steps: &[Step]) -> Result<Vec<Step>, OutOfMemory> {
    let mut told = Vec::new(alloc);
    told.push(Step::Hidden)?;
    let mut is_hidden = true;
    for step in steps {
        let Step::Begin(mark) = step else {
            told.push(*step)?;
            continue;
        };
        if asked.first <= *mark && *mark <= asked.last {
            told.push(*step)?;
            is_hidden = false;
        } else if !is_hidden {
            told.push(Step::Hidden)?;
            is_hidden = true;
        }
    }
    Ok(told)
}
