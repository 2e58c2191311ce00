// What is wrong with a line of traffic, where its words have their form.
use crate::bytes::word_of;
use crate::cause::{Cause, add_other_line};
use crate::fault::Fault;
use crate::lines::Lines;

/// Finds out which code's rule a line breaks that has the form of a link.
pub fn find_link(fault: &Fault<'_>, cause: &mut Cause) {
    match fault.digit {
        b'3' => cause.say("with this link a beam would be asked for more than 1048576 slots"),
        b'4' => cause.say_of_word(fault.line, 2, "both ends of this link are one terminal"),
        b'5' => {
            cause.say("this link stood in a line before");
            ask_line_before(fault, cause);
        }
        _ => {}
    }
}

/// Names the first line with the link of this one.
fn ask_line_before(fault: &Fault<'_>, cause: &mut Cause) {
    for (at, line) in Lines::of(fault.text) {
        if at >= fault.at {
            return;
        }
        if has_ends_of(line, fault.line) {
            return add_other_line(at, line, &mut cause.note);
        }
    }
}

fn has_ends_of(line: &[u8], other: &[u8]) -> bool {
    word_of(line, 1) == word_of(other, 1) && word_of(line, 2) == word_of(other, 2)
}
