//! The edges of a tile that meet the window.
ghost use Rattle.std.specs.Prelude.{◌≡◌, ◌↔◌, ◌<◌, ◌≤◌, suc, cond, nat_lt, length, IsTrue};
ghost use Rattle.theory_windows.specs.Outlines.{MeetsBox};
ghost use Rattle.cyclo_points.specs.Order.{points_of};
ghost use Rattle.window_descent.specs.Reach.{AreInReach, IsInReach};
ghost use Rattle.window_cover.specs.Windows.{window_box};
ghost use Rattle.list_verify.specs.FoundLines.{line_between};

use cyclo_points::point::Point;
use plane_geom::box_edges::edge_meets_box;
use plane_geom::window::Window;
use tile_place::machine::Machine;

/// Returns true if an edge of a tile with these corners meets the window.
pub(crate) fn edge_meets(machine: &Machine, window: &Window, corners: &[Point], edge: usize) -> bool
    requires exists { edge < length corners.now }
    requires few { length corners.now ≤ 12 }
    requires within { AreInReach corners.now }
    requires centre_within { IsInReach window.now }
    ensures { IsTrue result ↔ MeetsBox (points_of machine.now.order).real
        (window_box machine.now.order window.now) (line_between machine.now.order corners.now edge) }
{
    let order = machine.checked().order();
    let next = next_of(corners.len(), edge);
    let start = corners[edge];
    let end = corners[next];
    edge_meets_box(order, &start, &end, window)
}

/// Returns the number of the next corner, of `count` corners.
fn next_of(count: usize, number: usize) -> usize
    requires below { number < count }
    requires few { count ≤ 12 }
    ensures next { result ≡ cond (nat_lt (suc number) count) (suc number) 0 }
    ensures below { result < count }
{
    if number + 1 < count { number + 1 } else { 0 }
}
