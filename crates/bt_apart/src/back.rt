// The edition to which the centre goes back when it starts.
ghost use Rattle.std.specs.Prelude.{◌≡◌, ◌∷◌, [], reverse, IfSome, None, Some};
ghost use Rattle.bt_air.specs.Orders.{edition_ordered};
ghost use Rattle.bt_apart.specs.Apart.{IsInstalled};
ghost use Rattle.bt_apart.specs.Back.{back_lasting, older_last, orders_numbered, plans_numbered};

use bt_air::Order;
use bt_frame::EditionNo;
use bt_site::Plans;

/// Worked rows. Edition 2 was on the air, then 5, and then 2 again: it goes back to 2. Where 5 came to the front again behind that, and
/// where it is installed and there is no order of it yet, it goes ahead. It goes back although a plan is installed that is newer still,
/// and ahead where the edition of the last order has no plan.
pub fn some_centres_go_back()
    ensures back { back_lasting (plans_numbered (5 ∷ 2 ∷ 0 ∷ [])) (orders_numbered (2 ∷ 2 ∷ 5 ∷ 5 ∷ 2 ∷ 2 ∷ [])) ≡ Some (record { 0 = 2 }) }
    ensures ahead { back_lasting (plans_numbered (5 ∷ 2 ∷ 0 ∷ [])) (orders_numbered (5 ∷ 2 ∷ 5 ∷ 2 ∷ [])) ≡ None }
    ensures installed { back_lasting (plans_numbered (5 ∷ 2 ∷ 0 ∷ [])) (orders_numbered (2 ∷ 2 ∷ [])) ≡ None }
    ensures newer { back_lasting (plans_numbered (9 ∷ 5 ∷ 2 ∷ 0 ∷ [])) (orders_numbered (2 ∷ 5 ∷ [])) ≡ Some (record { 0 = 2 }) }
    ensures unplanned { back_lasting (plans_numbered (5 ∷ 0 ∷ [])) (orders_numbered (2 ∷ 5 ∷ [])) ≡ None }
{}

/// The edition to which a centre goes back that starts with these plans and orders, the first first, if it does.
pub(crate) fn back_lasting(plans: &Plans, orders: &[Order]) -> Option<EditionNo>
    ensures back { result ≡ back_lasting plans.now.all (reverse orders.now) }
    ensures installed { IfSome result (IsInstalled plans.now.all) }
{
    match older_last(orders) {
        Some(edition) if plans.has(edition) => Some(edition),
        _ => None,
    }
}

// The edition of the last of these orders, the first first, where one before it is of a newer one.
fn older_last(orders: &[Order]) -> Option<EditionNo>
    ensures older { result ≡ older_last (reverse orders.now) }
{
    let mut newest = EditionNo(0);
    let mut older = None;
    for order in orders {
        let edition = edition_of(order);
        if edition.0 < newest.0 {
            older = Some(edition);
        } else {
            newest = edition;
            older = None;
        }
    }
    older
}

// The edition that an order names.
fn edition_of(order: &Order) -> EditionNo
    ensures { result ≡ edition_ordered order.now }
{
    match *order {
        Order::Load { edition, .. } => edition,
        Order::Arm { edition, .. } => edition,
    }
}
