//! Points that lie well inside a window.
ghost use Rattle.std.specs.Prelude.{◌≡◌, ◌^◌, pos, true, IsTrue};
ghost use Rattle.std.specs.Ordering.{is_gt};
ghost use Rattle.theory_ring.specs.Ring.{difference};
ghost use Rattle.cyclo_points.specs.Order.{points_of};
ghost use Rattle.cyclo_points.specs.Point.{IsWithin};
ghost use Rattle.cyclo_points.specs.Real.{real_in, IsRealWithin};
ghost use Rattle.window_descent.specs.Inside.{IsWellInside};
ghost use Rattle.window_descent.specs.Reach.{IsInReach};

use cyclo_points::coordinates::{x, y};
use cyclo_points::order::Order;
use cyclo_points::point::Point;
use cyclo_points::real::Real;
use cyclo_points::real_sum::rsub;
use cyclo_points::sign::witness;
use plane_geom::window::Window;

/// The greatest size of the parts of a number for which the quick test works.
const GREATEST_PART: i64 = 1 << 24;

/// Returns true only if a point lies in the open box of a window. Then each edge from it meets the window.
/// False says nothing about the point.
pub fn is_inside(order: Order, window: &Window, p: &Point) -> bool
    requires p_within { IsWithin (2 ^ 25) p.now }
    requires centre_within { IsInReach window.now }
    ensures { IsTrue result → IsWellInside order window.now p.now }
{
    let wide = rsub(&x(order, p), &x(order, &window.centre));
    let high = rsub(&y(order, p), &y(order, &window.centre));
    is_shorter(order, &wide, window.w) && is_shorter(order, &high, window.h)
}

/// Returns true only if a number lies strictly between -`extent` and `extent`, by a quick test.
fn is_shorter(order: Order, r: &Real, extent: u16) -> bool
    requires within { IsRealWithin (2 ^ 28) r.now }
    ensures below { IsTrue result → is_gt ((points_of order).real.sign
        (difference (points_of order).real.ops ((points_of order).real.ops.int (pos extent))
        (real_in order r.now))) ≡ true }
    ensures above { IsTrue result → is_gt ((points_of order).real.sign
        ((points_of order).real.ops.add ((points_of order).real.ops.int (pos extent)) (real_in order r.now)))
        ≡ true }
{
    let a = r.a as i64;
    let b = r.b as i64;
    if a > GREATEST_PART || a < -GREATEST_PART || b > GREATEST_PART || b < -GREATEST_PART {
        return false;
    }
    let own = witness(order, a, b);
    let limit = witness(order, i64::from(extent), 0);
    -limit < own && own < limit
}
