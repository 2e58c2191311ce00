// What an event of a world shows, as a printed line.
use crate::air::put_bursts;
use crate::lines::{put_line, put_numbers, put_word};
use bt_air::{Act, AirFrame, Order, Shown};
use bt_sheet::Result;
use bt_timeline::answer_text;

/// Appends the line of what an event showed.
pub fn put_shown(shown: &Shown, out: &mut String) -> Result<()> {
    match shown {
        Shown::Ticked(status) => put_line(">tick", &[status.mark.0], out),
        Shown::Turned(act) => put_act(*act, out),
        Shown::Second => put_word("second", out),
        Shown::Ordered(order) => put_order(">ordered", *order, out),
        Shown::Delivered(answer) => put_word(answer_text(*answer), out),
        Shown::Framed(frame) => put_frame(frame, out),
        Shown::Reset => put_word("reset", out),
        Shown::Restarted => put_word("restarted", out),
        Shown::Installed => put_word("installed", out),
    }
}

/// Appends what the centre does in its turn.
pub fn put_act(act: Act, out: &mut String) -> Result<()> {
    match act {
        Act::Quiet => put_word("quiet", out),
        Act::RepeatLoad { load: true } => put_word("repeat load", out),
        Act::RepeatLoad { load: false } => put_word("repeat plans", out),
        Act::RepeatArm => put_word("repeat arm", out),
        Act::Want(order) => put_order(">want", order, out),
    }
}

/// Appends an order behind a word, and ends the line.
pub fn put_order(word: &str, order: Order, out: &mut String) -> Result<()> {
    put_numbers(word, &[], out)?;
    match order {
        Order::Load { command, edition } => put_line(" load", &[command.0, edition.0], out),
        Order::Arm {
            command,
            edition,
            due,
        } => put_line(" arm", &[command.0, edition.0, due.0], out),
    }
}

/// Appends a frame: its superframe and number, the edition in the foreground, and the bursts on the air.
fn put_frame(frame: &AirFrame, out: &mut String) -> Result<()> {
    let (mark, number, fore) = (frame.mark.0, frame.number, frame.fore.0);
    write!(out, ">frame {mark}.{number} fore {fore}")?;
    put_bursts(frame.bursts.as_slice(), out)
}
