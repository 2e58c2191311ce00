// What is wrong with a line of delays, where its words have a form.
use crate::bytes::{bytes_at, word_of};
use crate::cause::{Cause, add_other_line};
use crate::fault::Fault;
use crate::lines::Lines;
use bt_frame::TermNo;
use bt_net::Network;
use bt_text::is_word;

/// Finds out why a line of delays is at fault that has a form.
pub fn find_delay(fault: &Fault<'_>, cause: &mut Cause) {
    match fault.digit {
        b'1' => cause.say(
            "a delay stands behind a line 'late' or 'early'; all delays stand in front of these",
        ),
        b'3' => find_number(fault, cause),
        b'4' => {
            cause.say_of_word(fault.line, 1, "this terminal had a delay before");
            ask_delay_before(fault, cause);
        }
        b'5' => find_undelayed(fault, cause),
        _ => {}
    }
}

fn find_number(fault: &Fault<'_>, cause: &mut Cause) {
    if fault.at == 2 {
        cause.say_of_word(
            fault.line,
            1,
            "a guard at each end leaves no tick of the slot",
        );
        add_other_line(1, bytes_at(fault.text, 1), &mut cause.note);
    } else {
        cause.say_of_word(
            fault.line,
            2,
            "with this change the delay would leave 0 to 10000000",
        );
    }
}

/// Names the line with the delay of this line's terminal.
fn ask_delay_before(fault: &Fault<'_>, cause: &mut Cause) {
    if let Some((at, line)) = delay_line(fault.text, word_of(fault.line, 1)) {
        add_other_line(at, line, &mut cause.note);
    }
}

/// The first line with a delay of the terminal of a name.
fn delay_line<'a>(text: &'a [u8], name: &[u8]) -> Option<(u32, &'a [u8])> {
    for (at, line) in Lines::of(text) {
        if is_word(word_of(line, 0), b"delay") && word_of(line, 1) == name {
            return Some((at, line));
        }
    }
    None
}

/// Finds out which terminal has no delay.
pub fn find_undelayed(fault: &Fault<'_>, cause: &mut Cause) {
    cause.say("each terminal is to have a delay before this line");
    if let Some(net) = fault.net {
        ask_undelayed(net, fault.text, cause);
    }
}

fn ask_undelayed(net: &Network, text: &[u8], cause: &mut Cause) {
    for number in 0..net.terminal_count() {
        let name = net.name_of(TermNo(number as u8));
        if delay_line(text, name.as_bytes()).is_none() {
            cause.say(", and ");
            cause.say(name);
            return cause.say(" has none");
        }
    }
}
