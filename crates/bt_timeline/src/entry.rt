// The line of an entry of a history.
ghost use Rattle.std.specs.Prelude.{◌≡◌, ◌++◌, OnOk, OnErr};
ghost use Rattle.bt_timeline.specs.Timeline.{IsPrinted, entry_line};

use crate::reply::{desk_reply_text, plan_reply_text};
use bt_frame::OutOfMemory;
use bt_journal::Entry;
use bt_net::Network;
use std::alloc::Global;

/// Appends the line of an entry that has one: who called, a desk or the planner where there is none, and what was
/// answered.
pub fn entry_text(
    alloc: Global,
    net: &Network,
    desk: Option<u8>,
    entry: &Entry,
    out: &mut Vec<u8>,
) -> Result<(), OutOfMemory>
    requires printed { IsPrinted net.now desk entry.now }
    ensures added { OnOk result (out.new.items ≡ out.old.items ++ entry_line net.now desk entry.now) }
    ensures unchanged { OnErr result (out.new.items ≡ out.old.items) }
{
    match desk {
        Some(desk) => desk_reply_text(alloc, net, desk, &entry.reply, out),
        None => plan_reply_text(alloc, net, entry, out),
    }
}
