//! Closed segments, edges along edges, and lengths.

ghost use Rattle.std.specs.Prelude.{◌≡◌, ◌^◌};
ghost use Rattle.cyclo_points.specs.Order.{points_of};
ghost use Rattle.cyclo_points.specs.Point.{point_in, IsWithin};
ghost use Rattle.cyclo_points.specs.Real.{real_in, IsRealWithin};
ghost use Rattle.theory_ring.specs.Sign.{at_most};
ghost use Rattle.theory_plane.specs.Segment.{between, on_segment, same_place, along};
ghost use Rattle.theory_substitution.specs.Plane.{twice_squared_length, same_length};
ghost use Rattle.plane_geom.specs.Spots.{reals_of};
ghost use Rattle.plane_geom.specs.Spots.{spot_of};

use crate::sides::{side, x_gap, y_gap};
use cyclo_points::coordinates::{conj, x, y};
use cyclo_points::order::Order;
use cyclo_points::point::Point;
use cyclo_points::product::mul;
use cyclo_points::real::Real;
use cyclo_points::real_sum::rsub;
use cyclo_points::sign::sign;
use std::cmp::Ordering;

/// Returns true if r ≤ s.
fn is_at_most(order: Order, r: &Real, s: &Real) -> bool
    requires r_within { IsRealWithin (2 ^ 27) r.now }
    requires s_within { IsRealWithin (2 ^ 27) s.now }
    ensures { result ≡ at_most (reals_of order) (real_in order r.now) (real_in order s.now) }
{
    sign(order, &rsub(r, s)) != Ordering::Greater
}

/// Returns true if r lies between s and t, whichever of them is the greater.
fn is_between(order: Order, s: &Real, r: &Real, t: &Real) -> bool
    requires s_within { IsRealWithin (2 ^ 27) s.now }
    requires r_within { IsRealWithin (2 ^ 27) r.now }
    requires t_within { IsRealWithin (2 ^ 27) t.now }
    ensures { result ≡ between (reals_of order) (real_in order s.now) (real_in order r.now)
        (real_in order t.now) }
{
    is_at_most(order, s, r) && is_at_most(order, r, t)
        || is_at_most(order, t, r) && is_at_most(order, r, s)
}

/// Returns true if p lies between a and b in X.
fn is_between_in_x(order: Order, a: &Point, p: &Point, b: &Point) -> bool
    requires a_within { IsWithin (2 ^ 25) a.now }
    requires p_within { IsWithin (2 ^ 25) p.now }
    requires b_within { IsWithin (2 ^ 25) b.now }
    ensures { result ≡ between (reals_of order) (spot_of order a.now).x (spot_of order p.now).x
        (spot_of order b.now).x }
{
    is_between(order, &x(order, a), &x(order, p), &x(order, b))
}

/// Returns true if p lies between a and b in Y.
fn is_between_in_y(order: Order, a: &Point, p: &Point, b: &Point) -> bool
    requires a_within { IsWithin (2 ^ 25) a.now }
    requires p_within { IsWithin (2 ^ 25) p.now }
    requires b_within { IsWithin (2 ^ 25) b.now }
    ensures { result ≡ between (reals_of order) (spot_of order a.now).y (spot_of order p.now).y
        (spot_of order b.now).y }
{
    is_between(order, &y(order, a), &y(order, p), &y(order, b))
}

/// Returns true if p is on the closed segment ab. Coefficients may be up to 2^25 in absolute value.
pub fn on_segment(order: Order, a: &Point, b: &Point, p: &Point) -> bool
    requires a_within { IsWithin (2 ^ 25) a.now }
    requires b_within { IsWithin (2 ^ 25) b.now }
    requires p_within { IsWithin (2 ^ 25) p.now }
    ensures { result ≡ on_segment (reals_of order) (spot_of order a.now) (spot_of order b.now)
        (spot_of order p.now) }
{
    side(order, a, b, p) == Ordering::Equal
        && is_between_in_x(order, a, p, b)
        && is_between_in_y(order, a, p, b)
}

/// Returns true if a and b are one point.
fn is_same_place(order: Order, a: &Point, b: &Point) -> bool
    requires a_within { IsWithin (2 ^ 25) a.now }
    requires b_within { IsWithin (2 ^ 25) b.now }
    ensures { result ≡ same_place (reals_of order) (spot_of order a.now) (spot_of order b.now) }
{
    sign(order, &x_gap(order, a, b)) == Ordering::Equal
        && sign(order, &y_gap(order, a, b)) == Ordering::Equal
}

/// Returns true if the edge c→d lies along a→b: c differs from d, d is on the segment ab, and c is on the
/// segment ad. Coefficients may be up to 2^25 in absolute value.
pub fn along(order: Order, a: &Point, b: &Point, c: &Point, d: &Point) -> bool
    requires a_within { IsWithin (2 ^ 25) a.now }
    requires b_within { IsWithin (2 ^ 25) b.now }
    requires c_within { IsWithin (2 ^ 25) c.now }
    requires d_within { IsWithin (2 ^ 25) d.now }
    ensures { result ≡ along (reals_of order) (spot_of order a.now) (spot_of order b.now)
        (spot_of order c.now) (spot_of order d.now) }
{
    !is_same_place(order, c, d) && on_segment(order, a, b, d) && on_segment(order, a, d, c)
}

/// Twice the squared length of d: X of the product of d and its conjugate.
fn twice_squared_length(order: Order, d: &Point) -> Real
    requires { IsWithin (2 ^ 8) d.now }
    ensures value { real_in order result ≡ twice_squared_length (points_of order) (point_in order d.now) }
    ensures bounded { IsRealWithin (2 ^ 22) result }
{
    x(order, &mul(order, d, &conj(order, d)))
}

/// Returns true if two differences of points have equal squared lengths. Coefficients may be up to 2^8 in
/// absolute value.
pub fn same_length(order: Order, d: &Point, e: &Point) -> bool
    requires d_within { IsWithin (2 ^ 8) d.now }
    requires e_within { IsWithin (2 ^ 8) e.now }
    ensures { result ≡ same_length (points_of order) (point_in order d.now) (point_in order e.now) }
{
    let first = twice_squared_length(order, d);
    let second = twice_squared_length(order, e);
    sign(order, &rsub(&first, &second)) == Ordering::Equal
}
