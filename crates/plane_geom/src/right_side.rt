//! The law of test points close to an edge, for the points of each order.

ghost use Rattle.cyclo_points.specs.Order.{points_of};
ghost use Rattle.theory_plane.specs.Close.{PointsRight};
ghost use Rattle.theory_substitution.specs.Plane.{PointsRightOfEdges};

use cyclo_points::order::Order;
use cyclo_points::points_law;

/// States that every edge with two different ends has test points strictly right of it and arbitrarily close
/// to its middle. For each integer n of at least 1 there is one whose X and Y each differ from the middle's
/// by less than 1/n. It holds for ends anywhere in the plane, and for points of the order.
pub fn right_side_law(order: Order)
    ensures in_the_plane { PointsRight (points_of order).real }
    ensures of_edges { PointsRightOfEdges (points_of order) }
{
    points_law(order);
}
