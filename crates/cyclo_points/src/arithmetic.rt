//! Sums and differences of points, and the test of the limit on coefficients.

ghost use Rattle.std.specs.Prelude.{◌≡◌, ◌↔◌, ℕ, ◌+◌, ◌^◌, IsTrue, false, nat_lt, nat_abs};
ghost use Rattle.theory_ring.specs.Ring.{difference};
ghost use Rattle.cyclo_points.specs.declared.order.Order.{Order};
ghost use Rattle.cyclo_points.specs.Order.{points_of, is_refused};
ghost use Rattle.cyclo_points.specs.Point.{point_in, IsOf, IsWithin};

use crate::point::Point;

/// The largest absolute value of a coefficient that is not refused.
const LIMIT: i64 = 1 << 24;

/// Returns the sum p + q, which is the same in each order. Coefficients may be up to 2^40 in absolute value.
pub fn add(p: &Point, q: &Point) -> Point
    requires p_within { IsWithin (2 ^ 40) p.now }
    requires q_within { IsWithin (2 ^ 40) q.now }
    ensures sum { (order : Order) → point_in order result
        ≡ (points_of order).ring.add (point_in order p.now) (point_in order q.now) }
    ensures bounded { (m k : ℕ) → IsWithin m p.now → IsWithin k q.now → IsWithin (m + k) result }
    ensures in_order { (order : Order) → IsOf order p.now → IsOf order q.now → IsOf order result }
{
    Point {
        c: [
            p.c[0] + q.c[0],
            p.c[1] + q.c[1],
            p.c[2] + q.c[2],
            p.c[3] + q.c[3],
        ],
    }
}

/// Returns the difference p - q, which is the same in each order. Coefficients may be up to 2^40 in absolute
/// value.
pub fn sub(p: &Point, q: &Point) -> Point
    requires p_within { IsWithin (2 ^ 40) p.now }
    requires q_within { IsWithin (2 ^ 40) q.now }
    ensures is_difference { (order : Order) → point_in order result
        ≡ difference (points_of order).ring (point_in order p.now) (point_in order q.now) }
    ensures bounded { (m k : ℕ) → IsWithin m p.now → IsWithin k q.now → IsWithin (m + k) result }
    ensures in_order { (order : Order) → IsOf order p.now → IsOf order q.now → IsOf order result }
{
    Point {
        c: [
            p.c[0] - q.c[0],
            p.c[1] - q.c[1],
            p.c[2] - q.c[2],
            p.c[3] - q.c[3],
        ],
    }
}

/// Returns true if a coefficient is above 2^24 in absolute value.
fn is_beyond(coefficient: i64) -> bool
    ensures { result ≡ nat_lt (2 ^ 24) (nat_abs coefficient) }
{
    coefficient > LIMIT || coefficient < -LIMIT
}

/// Returns true if a point is refused: one of its coefficients is above 2^24 in absolute value.
pub fn refused(p: &Point) -> bool
    ensures above { IsTrue result ↔ (¬ IsWithin (2 ^ 24) p.now) }
    ensures within { result ≡ false → IsWithin (2 ^ 24) p.now }
    ensures in_order { (order : Order) → IsOf order p.now
        → result ≡ is_refused order (point_in order p.now) }
{
    is_beyond(p.c[0]) | is_beyond(p.c[1]) | is_beyond(p.c[2]) | is_beyond(p.c[3])
}
