// What follows for every store that tells what a crash may leave.
ghost use Rattle.bt_outside.specs.Crash.{InOrder};

/// What a crash since a later time may have left is among what a crash since an earlier one may have left.
pub fn later_crashes_leave_less()
    ensures { InOrder }
{}
