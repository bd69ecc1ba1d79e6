//! Turns of points by powers of ζ. Each coefficient of a turned point is a sum of at most two.

ghost use Rattle.std.specs.Prelude.{◌≡◌, ℕ, ◌*◌, ◌^◌, ◌<◌};
ghost use Rattle.theory_ring.specs.Ring.{power};
ghost use Rattle.cyclo_points.specs.Order.{points_of};
ghost use Rattle.cyclo_points.specs.Point.{point_in, IsOf, IsWithin};

use crate::order::Order;
use crate::point::Point;

/// Returns the point turned by k steps of 360°/n, counterclockwise around 0: ζ^k p. k is below n, and
/// coefficients may be up to 2^40 in absolute value.
pub fn turn(order: Order, k: u8, p: &Point) -> Point
    requires below_order { k < (points_of order).order }
    requires p_within { IsWithin (2 ^ 40) p.now }
    ensures turned { point_in order result ≡ (points_of order).ring.mul
        (power (points_of order).ring (points_of order).zeta k) (point_in order p.now) }
    ensures at_most_doubled { (m : ℕ) → IsWithin m p.now → IsWithin (2 * m) result }
    ensures in_order { IsOf order result }
{
    // ζ^(n/2) is -1.
    let half = order.n() / 2;
    if k < half {
        turn_below_half(order, k, p)
    } else {
        opposite(&turn_below_half(order, k - half, p))
    }
}

/// The point -p, which is p turned by half a turn.
pub(crate) fn opposite(p: &Point) -> Point
    requires { IsWithin (2 ^ 41) p.now }
    ensures negative { (order : Order) → point_in order result
        ≡ (points_of order).ring.neg (point_in order p.now) }
    ensures as_large { (m : ℕ) → IsWithin m p.now → IsWithin m result }
    ensures in_order { (order : Order) → IsOf order p.now → IsOf order result }
{
    Point {
        c: [-p.c[0], -p.c[1], -p.c[2], -p.c[3]],
    }
}

/// The point turned by k steps, which are less than half a turn.
fn turn_below_half(order: Order, k: u8, p: &Point) -> Point
    requires below_half { 2 * k < (points_of order).order }
    requires p_within { IsWithin (2 ^ 40) p.now }
    ensures turned { point_in order result ≡ (points_of order).ring.mul
        (power (points_of order).ring (points_of order).zeta k) (point_in order p.now) }
    ensures at_most_doubled { (m : ℕ) → IsWithin m p.now → IsWithin (2 * m) result }
    ensures in_order { IsOf order result }
{
    match order {
        Order::Four => turn_four(k, p),
        Order::Six => turn_six(k, p),
        Order::Eight => turn_eight(k, p),
        Order::Ten => turn_ten(k, p),
    }
}

/// ζ^k p in order four.
fn turn_four(k: u8, p: &Point) -> Point
    requires below_half { k < 2 }
    requires p_within { IsWithin (2 ^ 40) p.now }
    ensures turned { point_in Order.Four result ≡ (points_of Order.Four).ring.mul
        (power (points_of Order.Four).ring (points_of Order.Four).zeta k)
        (point_in Order.Four p.now) }
    ensures at_most_doubled { (m : ℕ) → IsWithin m p.now → IsWithin (2 * m) result }
    ensures in_order { IsOf Order.Four result }
{
    let a0 = p.c[0];
    let a1 = p.c[1];
    match k {
        0 => Point { c: [a0, a1, 0, 0] },
        _ => Point { c: [-a1, a0, 0, 0] },
    }
}

/// ζ^k p in order six.
fn turn_six(k: u8, p: &Point) -> Point
    requires below_half { k < 3 }
    requires p_within { IsWithin (2 ^ 40) p.now }
    ensures turned { point_in Order.Six result ≡ (points_of Order.Six).ring.mul
        (power (points_of Order.Six).ring (points_of Order.Six).zeta k)
        (point_in Order.Six p.now) }
    ensures at_most_doubled { (m : ℕ) → IsWithin m p.now → IsWithin (2 * m) result }
    ensures in_order { IsOf Order.Six result }
{
    let a0 = p.c[0];
    let a1 = p.c[1];
    match k {
        0 => Point { c: [a0, a1, 0, 0] },
        1 => Point {
            c: [-a1, a0 + a1, 0, 0],
        },
        _ => Point {
            c: [-(a0 + a1), a0, 0, 0],
        },
    }
}

/// ζ^k p in order eight.
fn turn_eight(k: u8, p: &Point) -> Point
    requires below_half { k < 4 }
    requires p_within { IsWithin (2 ^ 40) p.now }
    ensures turned { point_in Order.Eight result ≡ (points_of Order.Eight).ring.mul
        (power (points_of Order.Eight).ring (points_of Order.Eight).zeta k)
        (point_in Order.Eight p.now) }
    ensures at_most_doubled { (m : ℕ) → IsWithin m p.now → IsWithin (2 * m) result }
{
    let a0 = p.c[0];
    let a1 = p.c[1];
    let a2 = p.c[2];
    let a3 = p.c[3];
    match k {
        0 => *p,
        1 => Point {
            c: [-a3, a0, a1, a2],
        },
        2 => Point {
            c: [-a2, -a3, a0, a1],
        },
        _ => Point {
            c: [-a1, -a2, -a3, a0],
        },
    }
}

/// ζ^k p in order ten.
fn turn_ten(k: u8, p: &Point) -> Point
    requires below_half { k < 5 }
    requires p_within { IsWithin (2 ^ 40) p.now }
    ensures turned { point_in Order.Ten result ≡ (points_of Order.Ten).ring.mul
        (power (points_of Order.Ten).ring (points_of Order.Ten).zeta k)
        (point_in Order.Ten p.now) }
    ensures at_most_doubled { (m : ℕ) → IsWithin m p.now → IsWithin (2 * m) result }
{
    let a0 = p.c[0];
    let a1 = p.c[1];
    let a2 = p.c[2];
    let a3 = p.c[3];
    match k {
        0 => *p,
        1 => Point {
            c: [-a3, a0 + a3, a1 - a3, a2 + a3],
        },
        2 => Point {
            c: [-(a2 + a3), a2, a0 - a2, a1 + a2],
        },
        3 => Point {
            c: [-(a1 + a2), a1 - a3, -a1, a0 + a1],
        },
        _ => Point {
            c: [-(a0 + a1), a0 - a2, -(a0 + a3), a0],
        },
    }
}
