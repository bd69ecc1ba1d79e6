//! The laws that each step of the search needs.
ghost use Rattle.cyclo_points.specs.Order.{points_of};
ghost use Rattle.window_cover.specs.SearchLaws.{HasSearchLaws};

use cyclo_points::order::Order;
use cyclo_points::points_law;
use theory_windows::cover_laws::{frame_limits_law, frame_search_law};
use theory_windows::frame_laws::{
    frame_crossing_law, frame_edge_law, frame_holds_law, frame_name_law, frame_patch_law,
    frame_window_law,
};
use theory_windows::search_laws::open_edge_law;

/// States the laws of the search, for the points of each order.
pub fn search_laws(order: Order)
    ensures { HasSearchLaws (points_of order) }
{
    points_law(order);
    frame_patch_law(order);
    frame_name_law(order);
    frame_edge_law(order);
    frame_crossing_law(order);
    frame_holds_law(order);
    frame_window_law(order);
    open_edge_law(order);
    frame_search_law(order);
    frame_limits_law(order);
}
