//! Triangles that a line along an edge separates.

ghost use Rattle.std.specs.Prelude.{◌≡◌, ◌^◌, All};
ghost use Rattle.cyclo_points.specs.Point.{IsWithin};
ghost use Rattle.theory_plane.specs.Triangle.{right_of, beyond, beyond_an_edge, separated};
ghost use Rattle.plane_geom.specs.Spots.{reals_of};
ghost use Rattle.plane_geom.specs.Spots.{spot_of, triangle_of};

use crate::sides::side;
use cyclo_points::order::Order;
use cyclo_points::point::Point;
use std::cmp::Ordering;

/// Returns true if v is on the line along a→b or to its right.
fn is_right_of(order: Order, a: &Point, b: &Point, v: &Point) -> bool
    requires a_within { IsWithin (2 ^ 25) a.now }
    requires b_within { IsWithin (2 ^ 25) b.now }
    requires v_within { IsWithin (2 ^ 25) v.now }
    ensures { result ≡ right_of (reals_of order) (spot_of order a.now) (spot_of order b.now)
        (spot_of order v.now) }
{
    side(order, a, b, v) != Ordering::Greater
}

/// Returns true if the whole triangle t is on the line along a→b or to its right.
fn is_beyond(order: Order, a: &Point, b: &Point, t: &[Point; 3]) -> bool
    requires a_within { IsWithin (2 ^ 25) a.now }
    requires b_within { IsWithin (2 ^ 25) b.now }
    requires t_within { All (IsWithin (2 ^ 25)) t.now }
    ensures { result ≡ beyond (reals_of order) (spot_of order a.now) (spot_of order b.now)
        (triangle_of order t.now) }
{
    is_right_of(order, a, b, &t[0])
        && is_right_of(order, a, b, &t[1])
        && is_right_of(order, a, b, &t[2])
}

/// Returns true if the whole triangle t is on the line along an edge of s or to its right.
fn is_beyond_an_edge(order: Order, s: &[Point; 3], t: &[Point; 3]) -> bool
    requires s_within { All (IsWithin (2 ^ 25)) s.now }
    requires t_within { All (IsWithin (2 ^ 25)) t.now }
    ensures { result ≡ beyond_an_edge (reals_of order) (triangle_of order s.now)
        (triangle_of order t.now) }
{
    is_beyond(order, &s[0], &s[1], t)
        || is_beyond(order, &s[1], &s[2], t)
        || is_beyond(order, &s[2], &s[0], t)
}

/// Returns true if two triangles that turn left are separated: an edge of one has the whole other triangle on
/// its line or to its right. Coefficients may be up to 2^25 in absolute value.
pub fn separated(order: Order, s: &[Point; 3], t: &[Point; 3]) -> bool
    requires s_within { All (IsWithin (2 ^ 25)) s.now }
    requires t_within { All (IsWithin (2 ^ 25)) t.now }
    ensures { result ≡ separated (reals_of order) (triangle_of order s.now)
        (triangle_of order t.now) }
{
    is_beyond_an_edge(order, s, t) || is_beyond_an_edge(order, t, s)
}
