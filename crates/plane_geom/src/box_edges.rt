//! Edges that meet open boxes.

ghost use Rattle.std.specs.Prelude.{◌≡◌, ◌↔◌, ◌^◌, IsTrue};
ghost use Rattle.cyclo_points.specs.Order.{points_of};
ghost use Rattle.cyclo_points.specs.Point.{point_in, IsWithin};
ghost use Rattle.theory_substitution.specs.Plane.{plane_point};
ghost use Rattle.theory_plane.specs.Box.{EdgeMeetsBox};
ghost use Rattle.theory_substitution.specs.Plane.{box_at};

use crate::half_plane::{above, below, meets_four};
use crate::sides::{x_gap, y_gap};
use crate::window::Window;
use cyclo_points::order::Order;
use cyclo_points::point::Point;
use cyclo_points::{divisors_law, points_law};

/// Returns true if the closed edge a→b meets the open box of the window: a test point in the box lies on the
/// edge. Coefficients may be up to 2^25 in absolute value.
pub fn edge_meets_box(order: Order, a: &Point, b: &Point, window: &Window) -> bool
    requires a_within { IsWithin (2 ^ 25) a.now }
    requires b_within { IsWithin (2 ^ 25) b.now }
    requires centre_within { IsWithin (2 ^ 25) window.now.centre }
    ensures exact { IsTrue result
        ↔ EdgeMeetsBox (points_of order).real
        (plane_point (points_of order) (point_in order a.now))
        (plane_point (points_of order) (point_in order b.now))
        (box_at (points_of order) (point_in order window.now.centre) window.now.w window.now.h) }
{
    points_law(order);
    divisors_law(order);
    let start_x = x_gap(order, &window.centre, a);
    let end_x = x_gap(order, &window.centre, b);
    let start_y = y_gap(order, &window.centre, a);
    let end_y = y_gap(order, &window.centre, b);
    let below_x = below(order, window.w, &start_x, &end_x);
    let above_x = above(order, window.w, &start_x, &end_x);
    let below_y = below(order, window.h, &start_y, &end_y);
    let above_y = above(order, window.h, &start_y, &end_y);
    meets_four(order, &below_x, &above_x, &below_y, &above_y)
}
