//! Products of points, reduced in the ring of the order.

ghost use Rattle.std.specs.Prelude.{◌≡◌, ℕ, ◌*◌, ◌^◌};
ghost use Rattle.cyclo_points.specs.Order.{points_of};
ghost use Rattle.cyclo_points.specs.Point.{quad_of, point_in, IsOf, Within, IsWithin};
ghost use Rattle.cyclo_points.specs.Product.{product_of, dot_of};

use crate::order::Order;
use crate::point::Point;

/// Returns the product p q in the ring of the order. Coefficients may be up to 2^32 in absolute value for p,
/// and up to 2^16 for q.
pub fn mul(order: Order, p: &Point, q: &Point) -> Point
    requires p_within { IsWithin (2 ^ 32) p.now }
    requires q_within { IsWithin (2 ^ 16) q.now }
    ensures product { point_in order result
        ≡ (points_of order).ring.mul (point_in order p.now) (point_in order q.now) }
    ensures bounded { (m k : ℕ) → IsWithin m p.now → IsWithin k q.now
        → IsWithin (8 * m * k) result }
    ensures in_order { IsOf order result }
{
    match order {
        Order::Four => mul_four(p, q),
        Order::Six => mul_six(p, q),
        Order::Eight => mul_eight(p, q),
        Order::Ten => mul_ten(p, q),
    }
}

/// The product in order four.
fn mul_four(p: &Point, q: &Point) -> Point
    requires p_within { IsWithin (2 ^ 32) p.now }
    requires q_within { IsWithin (2 ^ 16) q.now }
    ensures product { point_in Order.Four result ≡ (points_of Order.Four).ring.mul
        (point_in Order.Four p.now) (point_in Order.Four q.now) }
    ensures in_order { IsOf Order.Four result }
{
    let q0 = q.c[0];
    let q1 = q.c[1];
    let c0 = dot(p, q0, -q1, 0, 0);
    let c1 = dot(p, q1, q0, 0, 0);
    Point { c: [c0, c1, 0, 0] }
}

/// The product in order six: p's coefficients times those of q and ζq.
fn mul_six(p: &Point, q: &Point) -> Point
    requires p_within { IsWithin (2 ^ 32) p.now }
    requires q_within { IsWithin (2 ^ 16) q.now }
    ensures product { point_in Order.Six result ≡ (points_of Order.Six).ring.mul
        (point_in Order.Six p.now) (point_in Order.Six q.now) }
    ensures in_order { IsOf Order.Six result }
{
    let q0 = q.c[0];
    let q1 = q.c[1];
    let c0 = dot(p, q0, -q1, 0, 0);
    let c1 = dot(p, q1, q0 + q1, 0, 0);
    Point { c: [c0, c1, 0, 0] }
}

/// The product in order eight. The coefficient of ζ^k gathers the products of ζ^i and ζ^(k-i),
/// and, since ζ⁴ = -1, takes away those of ζ^i and ζ^(k+4-i).
fn mul_eight(p: &Point, q: &Point) -> Point
    requires p_within { IsWithin (2 ^ 32) p.now }
    requires q_within { IsWithin (2 ^ 16) q.now }
    ensures { point_in Order.Eight result ≡ (points_of Order.Eight).ring.mul
        (point_in Order.Eight p.now) (point_in Order.Eight q.now) }
{
    let q0 = q.c[0];
    let q1 = q.c[1];
    let q2 = q.c[2];
    let q3 = q.c[3];
    let c0 = dot(p, q0, -q3, -q2, -q1);
    let c1 = dot(p, q1, q0, -q3, -q2);
    let c2 = dot(p, q2, q1, q0, -q3);
    let c3 = dot(p, q3, q2, q1, q0);
    Point {
        c: [c0, c1, c2, c3],
    }
}

/// The product in order ten: p's coefficients times those of q, ζq, ζ²q and ζ³q.
fn mul_ten(p: &Point, q: &Point) -> Point
    requires p_within { IsWithin (2 ^ 32) p.now }
    requires q_within { IsWithin (2 ^ 16) q.now }
    ensures { point_in Order.Ten result ≡ (points_of Order.Ten).ring.mul
        (point_in Order.Ten p.now) (point_in Order.Ten q.now) }
{
    let q0 = q.c[0];
    let q1 = q.c[1];
    let q2 = q.c[2];
    let q3 = q.c[3];
    let c0 = dot(p, q0, -q3, -(q2 + q3), -(q1 + q2));
    let c1 = dot(p, q1, q0 + q3, q2, q1 - q3);
    let c2 = dot(p, q2, q1 - q3, q0 - q2, -q1);
    let c3 = dot(p, q3, q2 + q3, q1 + q2, q0 + q1);
    Point {
        c: [c0, c1, c2, c3],
    }
}

/// The sum of p's coefficients, each times one of the four numbers.
fn dot(p: &Point, v0: i64, v1: i64, v2: i64, v3: i64) -> i64
    requires p_within { IsWithin (2 ^ 32) p.now }
    requires v0_within { Within (2 ^ 17) v0 }
    requires v1_within { Within (2 ^ 17) v1 }
    requires v2_within { Within (2 ^ 17) v2 }
    requires v3_within { Within (2 ^ 17) v3 }
    ensures { result ≡ dot_of (quad_of p.now) v0 v1 v2 v3 }
{
    times(p.c[0], v0) + times(p.c[1], v1) + times(p.c[2], v2) + times(p.c[3], v3)
}

/// The product of two coefficients.
fn times(x: i64, y: i64) -> i64
    requires x_within { Within (2 ^ 32) x }
    requires y_within { Within (2 ^ 17) y }
    ensures value { result ≡ product_of x y }
    ensures bounded { Within (2 ^ 49) result }
{
    x * y
}
