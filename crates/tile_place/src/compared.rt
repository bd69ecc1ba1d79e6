//! Compares points by their coefficients.
ghost use Rattle.std.specs.Prelude.{◌≡◌};
ghost use Rattle.std.specs.Bool.{Decides};
ghost use Rattle.std.specs.Cmp.Lexicographic.{slice_cmp};
ghost use Rattle.std.specs.Ordering.{int_cmp, int_eq, is_gt};
ghost use Rattle.cyclo_points.specs.declared.order.Order.{Order};
ghost use Rattle.cyclo_points.specs.Point.{point_in, IsOf};

use cyclo_points::point::Point;

/// Returns true if two coefficients are equal.
fn is_equal(a: i64, b: i64) -> bool
    ensures { result ≡ int_eq a b }
{
    a == b
}

/// Returns true if two points of the same order are equal.
pub(crate) fn is_same(p: &Point, q: &Point) -> bool
    ensures { (order : Order) → IsOf order p.now → IsOf order q.now
        → Decides result (point_in order p.now ≡ point_in order q.now) }
{
    is_equal(p.c[0], q.c[0])
        & is_equal(p.c[1], q.c[1])
        & is_equal(p.c[2], q.c[2])
        & is_equal(p.c[3], q.c[3])
}

/// Returns true if `p` has the greater coefficient at the first place where the two points differ.
pub(crate) fn is_above(p: &Point, q: &Point) -> bool
    ensures { result ≡ is_gt (slice_cmp int_cmp p.now.c q.now.c) }
{
    if p.c[0] != q.c[0] {
        return p.c[0] > q.c[0];
    }
    if p.c[1] != q.c[1] {
        return p.c[1] > q.c[1];
    }
    if p.c[2] != q.c[2] {
        return p.c[2] > q.c[2];
    }
    p.c[3] > q.c[3]
}
