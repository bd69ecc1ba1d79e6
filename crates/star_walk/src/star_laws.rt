//! The laws on which the turn rests.
ghost use Rattle.cyclo_points.specs.Order.{points_of};
ghost use Rattle.star_walk.specs.StarLaws.{HasStarLaws};

use cyclo_points::order::Order;
use cyclo_points::points_law;
use theory_stars::{frame_base_law, frame_off_law, frame_star_law, star_law, star_refusal_law};
use theory_windows::frame_laws::{frame_crossing_law, frame_edge_law, frame_name_law};

/// States the laws of the turn, for the points of each order.
pub(crate) fn star_laws(order: Order)
    ensures { HasStarLaws (points_of order) }
{
    points_law(order);
    frame_name_law(order);
    frame_edge_law(order);
    frame_crossing_law(order);
    frame_star_law(order);
    frame_base_law(order);
    star_law(order);
    star_refusal_law(order);
    frame_off_law(order);
}
