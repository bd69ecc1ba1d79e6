//! Polygons that meet a window, and polygons that hold one.
ghost use Rattle.std.specs.Prelude.{◌≡◌, ◌^◌, ◌≤◌, All, length, true, IsTrue};
ghost use Rattle.std.specs.List.{list_any};
ghost use Rattle.theory_plane.specs.BoxTest.{box_test};
ghost use Rattle.cyclo_points.specs.Point.{IsWithin};
ghost use Rattle.plane_geom.specs.Spots.{reals_of, spot_of, spots_of};
ghost use Rattle.theory_windows.specs.Outlines.{edges};
ghost use Rattle.theory_descents.specs.Climb.{holds_window};
ghost use Rattle.theory_descents.specs.MeetingTest.{polygon_meets};
ghost use Rattle.window_descent.specs.Standing.{window_box};
ghost use Rattle.window_descent.specs.Reach.{AreInReach, IsInReach};

use crate::inside::is_inside;
use cyclo_points::order::Order;
use cyclo_points::point::Point;
use cyclo_points::{divisors_law, points_law};
use plane_geom::box_edges::edge_meets_box;
use plane_geom::polygons::member;
use plane_geom::window::Window;

/// Returns true exactly if a polygon meets a window: one of its edges does, or it holds the centre. Most
/// polygons that meet a window have a vertex in it, so this is tested first.
pub fn meets(order: Order, window: &Window, corners: &[Point]) -> bool
    requires at_least_three { 3 ≤ length corners.now }
    requires at_most_24 { length corners.now ≤ 24 }
    requires within { AreInReach corners.now }
    requires centre_within { IsInReach window.now }
    ensures { result
        ≡ polygon_meets (reals_of order) (window_box order window.now) (spots_of order corners.now) }
{
    some_vertex_inside(order, window, corners)
        || some_edge_meets(order, window, corners)
        || member(order, corners, &window.centre)
}

/// Returns true if a polygon holds a window: it holds the centre, and none of its edges meets the window.
pub fn holds(order: Order, window: &Window, corners: &[Point]) -> bool
    requires at_least_three { 3 ≤ length corners.now }
    requires at_most_24 { length corners.now ≤ 24 }
    requires within { AreInReach corners.now }
    requires centre_within { IsInReach window.now }
    ensures { result
        ≡ holds_window (reals_of order) (window_box order window.now) (spots_of order corners.now) }
{
    member(order, corners, &window.centre) && !some_edge_meets(order, window, corners)
}

/// Returns true only if a vertex of the polygon lies well inside the window. Then an edge from it meets the
/// window.
fn some_vertex_inside(order: Order, window: &Window, corners: &[Point]) -> bool
    requires within { AreInReach corners.now }
    requires centre_within { IsInReach window.now }
    ensures { IsTrue result → list_any (λ e. box_test (reals_of order) e.from e.to
        (window_box order window.now)) (edges (spots_of order corners.now)) ≡ true }
{
    for corner in corners {
        if is_inside(order, window, corner) {
            return true;
        }
    }
    false
}

/// Returns true exactly if an edge of the polygon meets the window.
fn some_edge_meets(order: Order, window: &Window, corners: &[Point]) -> bool
    requires at_least_three { 3 ≤ length corners.now }
    requires within { AreInReach corners.now }
    requires centre_within { IsInReach window.now }
    ensures { result ≡ list_any (λ e. box_test (reals_of order) e.from e.to
        (window_box order window.now)) (edges (spots_of order corners.now)) }
{
    let first = corners[0];
    let mut from = first;
    for i in 1..corners.len() {
        let to = corners[i];
        if edge_meets(order, window, &from, &to) {
            return true;
        }
        from = to;
    }
    edge_meets(order, window, &from, &first)
}

/// Returns true exactly if the edge between two points meets the window.
fn edge_meets(order: Order, window: &Window, start: &Point, end: &Point) -> bool
    requires start_within { IsWithin (2 ^ 25) start.now }
    requires end_within { IsWithin (2 ^ 25) end.now }
    requires centre_within { IsInReach window.now }
    ensures { result
        ≡ box_test (reals_of order) (spot_of order start.now) (spot_of order end.now)
        (window_box order window.now) }
{
    points_law(order);
    divisors_law(order);
    edge_meets_box(order, start, end, window)
}
