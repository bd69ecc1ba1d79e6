//! The edges of a new tile.
ghost use Rattle.std.specs.Prelude.{◌≡◌, ◌+◌, ◌^◌, ◌≤◌, ◌++◌, ◌∷◌, [], ◌&&◌, All, cond, false, length, not, OnOk};
ghost use Rattle.cyclo_points.specs.Point.{IsWithin};
ghost use Rattle.window_cover.specs.Border.{has_ends};
ghost use Rattle.window_cover.specs.Packed.{ends_of};
ghost use Rattle.window_cover.specs.NewEdges.{meets_window, closes, without, left_open, opened, AreNew};

use crate::border::Border;
use crate::ends::Ends;
use crate::open_edge::OpenEdge;
use cyclo_points::order::Order;
use cyclo_points::point::Point;
use cyclo_points::{divisors_law, points_law};
use plane_geom::box_edges::edge_meets_box;
use plane_geom::window::Window;
use tile_shape::no_memory::NoMemory;
use window_descent::inside::is_inside;

/// Closes the open edge that the edge between two points meets. If there is none, opens this edge, provided
/// that it meets the window.
fn meet_edge(
    border: &mut Border,
    order: Order,
    window: &Window,
    start: &Point,
    end: &Point,
    edge: OpenEdge,
) -> Result<(), NoMemory>
    requires start_within { IsWithin (2 ^ 25) start.now }
    requires end_within { IsWithin (2 ^ 25) end.now }
    requires centre_within { IsWithin (2 ^ 25) window.now.centre }
    requires fresh { has_ends (ends_of start.now end.now) border.old ≡ false }
    ensures met { OnOk result (border.new ≡ without (ends_of start.now end.now) border.old
        ++ cond (meets_window order window.now start.now end.now
        && not (closes (ends_of start.now end.now) border.old))
        (record { ends = ends_of start.now end.now; edge = edge } ∷ []) []) }
    ensures one_more { length border.new ≤ length border.old + 1 }
{
    let ends = Ends::of(start, end);
    if !border.close(&ends.reversed()) && meets(order, window, start, end) {
        border.add(ends, edge)?;
    }
    Ok(())
}

/// Whether the edge between two points meets the window. Most start plainly inside.
fn meets(order: Order, window: &Window, start: &Point, end: &Point) -> bool
    requires start_within { IsWithin (2 ^ 25) start.now }
    requires end_within { IsWithin (2 ^ 25) end.now }
    requires centre_within { IsWithin (2 ^ 25) window.now.centre }
    ensures { result ≡ meets_window order window.now start.now end.now }
{
    points_law(order);
    divisors_law(order);
    is_inside(order, window, start) || edge_meets_box(order, start, end, window)
}

/// Closes the open edges that the edges of a new tile meet. Opens its other edges, if they meet the window.
/// The tile is given by its corners and its number.
pub(crate) fn meet_edges(
    border: &mut Border,
    order: Order,
    window: &Window,
    corners: &[Point],
    tile: u32,
) -> Result<(), NoMemory>
    requires at_most_12 { length corners.now ≤ 12 }
    requires within { All (IsWithin (2 ^ 25)) corners.now }
    requires centre_within { IsWithin (2 ^ 25) window.now.centre }
    requires new { AreNew corners.now border.old }
    ensures met { OnOk result (border.new ≡ left_open corners.now (length corners.now) border.old
        ++ opened order window.now tile corners.now (length corners.now) border.old) }
    ensures at_most_12_more { length border.new ≤ length border.old + 12 }
{
    for edge in 0..corners.len() {
        let start = &corners[edge];
        let end = if edge + 1 < corners.len() {
            &corners[edge + 1]
        } else {
            &corners[0]
        };
        let mine = OpenEdge {
            tile,
            edge: edge as u8,
        };
        meet_edge(border, order, window, start, end, mine)?;
    }
    Ok(())
}
