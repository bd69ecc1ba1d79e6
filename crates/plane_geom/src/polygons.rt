//! The winding number of a polygon about a point, and membership.

ghost use Rattle.std.specs.Prelude.{◌≡◌, ◌≤◌, ◌^◌, length, All};
ghost use Rattle.cyclo_points.specs.Point.{IsWithin};
ghost use Rattle.theory_plane.specs.Crossing.{count, member};
ghost use Rattle.plane_geom.specs.Spots.{reals_of};
ghost use Rattle.plane_geom.specs.Spots.{spots_of, test_of};

use crate::sides::{crossing_between, is_above};
use cyclo_points::order::Order;
use cyclo_points::point::Point;

/// Returns the winding number of a polygon about p: the sum of the crossings of its edges. They run from each
/// vertex to the next, and from the last to the first. There are 3 to 24 vertices, and coefficients may be up
/// to 2^25 in absolute value.
pub fn count(order: Order, poly: &[Point], p: &Point) -> i32
    requires at_least_three { 3 ≤ length poly.now }
    requires at_most_24 { length poly.now ≤ 24 }
    requires vertices_within { All (IsWithin (2 ^ 25)) poly.now }
    requires p_within { IsWithin (2 ^ 25) p.now }
    ensures { result ≡ count (reals_of order) (spots_of order poly.now) (test_of order p.now) }
{
    let first = poly[0];
    let begins_above = is_above(order, &first, p);
    let mut from = first;
    let mut above = begins_above;
    let mut total = 0;
    for i in 1..poly.len() {
        let to = poly[i];
        let ends_above = is_above(order, &to, p);
        let crossed = crossing_between(order, &from, &to, p, above, ends_above);
        total += crossed as i32;
        from = to;
        above = ends_above;
    }
    let crossed = crossing_between(order, &from, &first, p, above, begins_above);
    total + crossed as i32
}

/// Returns true if p belongs to a polygon: the winding number about p is 1. There are 3 to 24 vertices, and
/// coefficients may be up to 2^25 in absolute value.
pub fn member(order: Order, poly: &[Point], p: &Point) -> bool
    requires at_least_three { 3 ≤ length poly.now }
    requires at_most_24 { length poly.now ≤ 24 }
    requires vertices_within { All (IsWithin (2 ^ 25)) poly.now }
    requires p_within { IsWithin (2 ^ 25) p.now }
    ensures { result ≡ member (reals_of order) (spots_of order poly.now) (test_of order p.now) }
{
    count(order, poly, p) == 1
}
