// The superframe in which a world begins.
ghost use Rattle.std.specs.Prelude.{◌≡◌, reverse};
ghost use Rattle.bt_site.specs.World.{greatest_due};

use bt_air::Order;
use bt_frame::Mark;

/// The greatest superframe for which one of these orders arms, the first first, or 0.
pub fn greatest_due(orders: &[Order]) -> Mark
    ensures due { result.0 ≡ greatest_due (reverse orders.now) }
{
    let mut greatest = Mark(0);
    for order in orders {
        match order {
            Order::Arm { due, .. } if *due > greatest => greatest = *due,
            _ => {}
        }
    }
    greatest
}
