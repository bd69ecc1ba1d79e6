//! The side of an edge on which a point lies, and crossings.

ghost use Rattle.std.specs.Prelude.{◌≡◌, ◌^◌, not};
ghost use Rattle.theory_ring.specs.Ring.{difference};
ghost use Rattle.cyclo_points.specs.Point.{Within, IsWithin};
ghost use Rattle.cyclo_points.specs.Real.{real_in, IsRealWithin};
ghost use Rattle.theory_ring.specs.Sign.{less};
ghost use Rattle.theory_plane.specs.Plane.{orientation};
ghost use Rattle.theory_plane.specs.Crossing.{crossing, crossing_of};
ghost use Rattle.plane_geom.specs.Spots.{reals_of};
ghost use Rattle.plane_geom.specs.Spots.{spot_of, test_of};

use cyclo_points::coordinates::{x, y};
use cyclo_points::order::Order;
use cyclo_points::point::Point;
use cyclo_points::real::Real;
use cyclo_points::real_product::rmul;
use cyclo_points::real_sum::rsub;
use cyclo_points::sign::sign;
use std::cmp::Ordering;

/// Returns the side of the directed edge a→b on which p lies: `Greater` strictly left of it, `Equal` on its
/// line, `Less` strictly right. Coefficients may be up to 2^25 in absolute value.
#[inline(always)]
pub fn side(order: Order, a: &Point, b: &Point, p: &Point) -> Ordering
    requires a_within { IsWithin (2 ^ 25) a.now }
    requires b_within { IsWithin (2 ^ 25) b.now }
    requires p_within { IsWithin (2 ^ 25) p.now }
    ensures { result ≡ (reals_of order).sign (orientation (reals_of order).ops
        (spot_of order a.now) (spot_of order b.now) (spot_of order p.now)) }
{
    let left = rmul(order, &x_gap(order, a, b), &y_gap(order, a, p));
    let right = rmul(order, &y_gap(order, a, b), &x_gap(order, a, p));
    sign(order, &rsub(&left, &right))
}

/// X(b) - X(a).
pub(crate) fn x_gap(order: Order, a: &Point, b: &Point) -> Real
    requires a_within { IsWithin (2 ^ 25) a.now }
    requires b_within { IsWithin (2 ^ 25) b.now }
    ensures value { real_in order result ≡ difference (reals_of order).ops
        (spot_of order b.now).x (spot_of order a.now).x }
    ensures bounded { IsRealWithin (2 ^ 28) result }
{
    rsub(&x(order, b), &x(order, a))
}

/// Y(b) - Y(a).
pub(crate) fn y_gap(order: Order, a: &Point, b: &Point) -> Real
    requires a_within { IsWithin (2 ^ 25) a.now }
    requires b_within { IsWithin (2 ^ 25) b.now }
    ensures value { real_in order result ≡ difference (reals_of order).ops
        (spot_of order b.now).y (spot_of order a.now).y }
    ensures bounded { IsRealWithin (2 ^ 28) result }
{
    rsub(&y(order, b), &y(order, a))
}

/// Returns true if the vertex lies strictly above p.
#[inline(always)]
pub fn is_above(order: Order, vertex: &Point, p: &Point) -> bool
    requires vertex_within { IsWithin (2 ^ 25) vertex.now }
    requires p_within { IsWithin (2 ^ 25) p.now }
    ensures { result ≡ less (reals_of order) (spot_of order p.now).y (spot_of order vertex.now).y }
{
    sign(order, &y_gap(order, p, vertex)) == Ordering::Greater
}

/// Returns the crossing of the directed edge a→b about p. It is 1 if Y(a) ≤ Y(p) < Y(b) and p is strictly
/// left of the edge. It is -1 if Y(b) ≤ Y(p) < Y(a) and p is strictly right of it. Otherwise it is 0.
/// Coefficients may be up to 2^25 in absolute value.
pub fn crossing(order: Order, a: &Point, b: &Point, p: &Point) -> i8
    requires a_within { IsWithin (2 ^ 25) a.now }
    requires b_within { IsWithin (2 ^ 25) b.now }
    requires p_within { IsWithin (2 ^ 25) p.now }
    ensures value { result ≡ crossing (reals_of order) (spot_of order a.now) (spot_of order b.now)
        (test_of order p.now) }
    ensures at_most_one { Within 1 result }
{
    let starts_above = is_above(order, a, p);
    let ends_above = is_above(order, b, p);
    crossing_between(order, a, b, p, starts_above, ends_above)
}

/// Like [`crossing`], for an edge of which it is known whether each end lies above the point.
#[inline(always)]
pub fn crossing_between(
    order: Order,
    a: &Point,
    b: &Point,
    p: &Point,
    starts_above: bool,
    ends_above: bool,
) -> i8
    requires a_within { IsWithin (2 ^ 25) a.now }
    requires b_within { IsWithin (2 ^ 25) b.now }
    requires p_within { IsWithin (2 ^ 25) p.now }
    requires starts { starts_above ≡ less (reals_of order) (spot_of order p.now).y (spot_of order a.now).y }
    requires ends { ends_above ≡ less (reals_of order) (spot_of order p.now).y (spot_of order b.now).y }
    ensures value { result ≡ crossing (reals_of order) (spot_of order a.now) (spot_of order b.now)
        (test_of order p.now) }
    ensures at_most_one { Within 1 result }
{
    if starts_above == ends_above {
        return 0;
    }
    directed_crossing(ends_above, side(order, a, b, p))
}

/// The crossing of an edge with one end above the point, from the direction and the point's side.
fn directed_crossing(rises: bool, side: Ordering) -> i8
    ensures value { result ≡ crossing_of (not rises) rises side }
    ensures at_most_one { Within 1 result }
{
    match (rises, side) {
        (true, Ordering::Greater) => 1,
        (false, Ordering::Less) => -1,
        _ => 0,
    }
}
