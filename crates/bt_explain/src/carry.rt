// Why the demand of a journal has no place on another network.
use crate::bytes::word_of;
use crate::cause::Cause;
use crate::fault::add_heading;
use crate::fit::say_load;
use crate::page::Page;
use crate::telling::Done;
use bt_frame::TermNo;
use bt_net::Network;
use bt_text::is_word;
use std::alloc::Global;

/// Tells why the demand of a journal has no place on the network of this file, which is the other one. `net` is that of the journal.
pub fn tell_carried(
    alloc: Global,
    done: &Done<'_>,
    net: Option<&Network>,
    file: &str,
    new: &Network,
    code: &[u8],
    page: &mut Page,
) -> bool {
    let mut cause = Cause::new(alloc);
    if is_word(code, b"T6") {
        say_load(done.line, Some(new), &mut cause);
    } else {
        cause.say("link ");
        cause.why.add_bytes(word_of(done.line, 2));
        cause.say(" of the demand, as 'demand' prints it, has an end that is no terminal here");
        if let Some(net) = net {
            note_gone(net, new, &mut cause);
        }
    }
    add_heading(done, file, None, code, page);
    cause.add_why(page);
    cause.add_hint(page);
    true
}

/// Names the terminals of a network that another one does not have.
fn note_gone(net: &Network, new: &Network, cause: &mut Cause) {
    for number in 0..net.terminal_count() {
        let name = net.name_of(TermNo(number as u8));
        if new.find(name).is_none() {
            cause.note.add(if cause.note.is_empty() {
                "of the journal's network this one does not have "
            } else {
                ", "
            });
            cause.note.add(name);
        }
    }
}
