//! The points that a rule may have.
ghost use Rattle.std.specs.Prelude.{◌≡◌};
ghost use Rattle.rule_model.specs.Small.{is_above, is_of, is_small};

use cyclo_points::order::Order;
use cyclo_points::point::Point;

/// Returns true if a coefficient is above `n` in absolute value.
fn is_above(n: u64, p: &Point) -> bool
    ensures { result ≡ is_above n p.now }
{
    p.c[0].unsigned_abs() > n
        || p.c[1].unsigned_abs() > n
        || p.c[2].unsigned_abs() > n
        || p.c[3].unsigned_abs() > n
}

/// Returns true if the point is one of the order: in orders 4 and 6 the last two coefficients must be 0.
fn is_of(order: Order, p: &Point) -> bool
    ensures { result ≡ is_of order p.now }
{
    match order {
        Order::Four | Order::Six => p.c[2] == 0 && p.c[3] == 0,
        Order::Eight | Order::Ten => true,
    }
}

/// Returns true if the point is one of the order, and its coefficients are at most 64 in absolute value.
pub fn is_small(order: Order, p: &Point) -> bool
    ensures { result ≡ is_small order p.now }
{
    !is_above(64, p) && is_of(order, p)
}
