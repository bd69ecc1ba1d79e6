//! Whether two points of an order are one.

ghost use Rattle.std.specs.Prelude.{◌≡◌};
ghost use Rattle.cyclo_points.specs.declared.order.Order.{Order};
ghost use Rattle.cyclo_points.specs.Order.{points_of};
ghost use Rattle.cyclo_points.specs.Point.{point_in, IsOf};

use cyclo_points::point::Point;

/// Returns true if two points of one order have the same coefficients, and so are the same.
pub(crate) fn same_point(p: &Point, q: &Point) -> bool
    ensures { (o : Order) → IsOf o p.now → IsOf o q.now
        → result ≡ (points_of o).same (point_in o p.now) (point_in o q.now) }
{
    p.c == q.c
}
