// The mode that the switch takes in a slot.
ghost use Rattle.std.specs.Prelude.{◌≤◌, ◌↔◌, IfSome, IsNone};
ghost use Rattle.bt_matrix.specs.Good.{total_duration};
ghost use Rattle.bt_machines.specs.Slots.{HasSlot};

use bt_frame::Mode;

/// The mode whose span has the slot, or None past the last mode's end.
pub(crate) fn mode_in(modes: &[Mode], slot: u32) -> Option<&Mode>
    ensures past { IsNone result ↔ (total_duration modes.now ≤ slot) }
    ensures mode { IfSome result (λ mode. HasSlot modes.now slot mode.now) }
{
    let slot = u64::from(slot);
    let mut end = 0;
    for mode in modes {
        end += u64::from(mode.duration);
        if slot < end {
            return Some(mode);
        }
    }
    None
}
