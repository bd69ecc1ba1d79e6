//! The complex conjugate of a point, the point itself from any four coefficients, and its
//! coordinates X and Y in the plane.

ghost use Rattle.std.specs.Prelude.{◌≡◌, ℕ, ◌*◌, ◌^◌};
ghost use Rattle.cyclo_points.specs.Order.{points_of};
ghost use Rattle.cyclo_points.specs.Point.{quad_of, point_in, IsOf, IsWithin};
ghost use Rattle.cyclo_points.specs.Real.{real_in, IsRealOf, IsRealWithin};
ghost use Rattle.cyclo_points.specs.Reduced.{combination};

use crate::order::Order;
use crate::point::Point;
use crate::real::{Real, from_parts};

/// Returns the complex conjugate of p. Coefficients may be up to 2^40 in absolute value.
pub fn conj(order: Order, p: &Point) -> Point
    requires p_within { IsWithin (2 ^ 40) p.now }
    ensures conjugate { point_in order result ≡ (points_of order).conj (point_in order p.now) }
    ensures at_most_doubled { (m : ℕ) → IsWithin m p.now → IsWithin (2 * m) result }
    ensures in_order { IsOf order result }
{
    let a0 = p.c[0];
    let a1 = p.c[1];
    let a2 = p.c[2];
    let a3 = p.c[3];
    match order {
        Order::Four => Point { c: [a0, -a1, 0, 0] },
        Order::Six => Point {
            c: [a0 + a1, -a1, 0, 0],
        },
        Order::Eight => Point {
            c: [a0, -a3, -a2, -a1],
        },
        Order::Ten => Point {
            c: [a0 + a1, -a1, a1 - a3, -(a1 + a2)],
        },
    }
}

/// Returns the number a0 + a1 ζ + a2 ζ² + a3 ζ³ of any four coefficients as a point of the order. In order 4,
/// where ζ² = -1, and in order 6, where ζ² = ζ - 1, the last two coefficients become 0. In orders 8 and 10
/// nothing changes. Coefficients may be up to 2^40 in absolute value.
pub fn reduce(order: Order, p: &Point) -> Point
    requires p_within { IsWithin (2 ^ 40) p.now }
    ensures same_number { point_in order result ≡ combination (points_of order) (quad_of p.now) }
    ensures at_most_tripled { (m : ℕ) → IsWithin m p.now → IsWithin (3 * m) result }
    ensures at_most_doubled { (¬ order ≡ Order.Six) → (m : ℕ) → IsWithin m p.now
        → IsWithin (2 * m) result }
    ensures in_order { IsOf order result }
{
    match order {
        Order::Four => Point {
            c: [p.c[0] - p.c[2], p.c[1] - p.c[3], 0, 0],
        },
        Order::Six => Point {
            c: [p.c[0] - p.c[2] - p.c[3], p.c[1] + p.c[2], 0, 0],
        },
        Order::Eight => *p,
        Order::Ten => *p,
    }
}

/// Returns the coordinate X of a point, twice its real part. Coefficients may be up to 2^40 in absolute
/// value.
pub fn x(order: Order, p: &Point) -> Real
    requires p_within { IsWithin (2 ^ 40) p.now }
    ensures coordinate { real_in order result ≡ (points_of order).x (point_in order p.now) }
    ensures bounded { (m : ℕ) → IsWithin m p.now → IsRealWithin (4 * m) result }
    ensures in_order { IsRealOf order result }
{
    let a0 = p.c[0];
    let a1 = p.c[1];
    let a2 = p.c[2];
    let a3 = p.c[3];
    match order {
        Order::Four => from_parts(a0 + a0, 0),
        Order::Six => from_parts(a0 + a0 + a1, 0),
        Order::Eight => from_parts(a0 + a0, a1 - a3),
        Order::Ten => from_parts(a0 + a0 - a2 + a3, a1 + a2 - a3),
    }
}

/// Returns the coordinate Y of a point, its imaginary part divided by that of ζ. Coefficients may be up to
/// 2^40 in absolute value.
pub fn y(order: Order, p: &Point) -> Real
    requires p_within { IsWithin (2 ^ 40) p.now }
    ensures coordinate { real_in order result ≡ (points_of order).y (point_in order p.now) }
    ensures bounded { (m : ℕ) → IsWithin m p.now → IsRealWithin (2 * m) result }
    ensures in_order { IsRealOf order result }
{
    let a1 = p.c[1];
    let a2 = p.c[2];
    let a3 = p.c[3];
    match order {
        Order::Four | Order::Six => from_parts(a1, 0),
        Order::Eight => from_parts(a1 + a3, a2),
        Order::Ten => from_parts(a1, a2 + a3),
    }
}
