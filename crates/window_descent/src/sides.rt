//! Which sides of a window a point is inside of.
ghost use Rattle.std.specs.Prelude.{◌≡◌, ◌^◌, pos};
ghost use Rattle.std.specs.Ordering.{is_gt};
ghost use Rattle.theory_ring.specs.Ring.{difference};
ghost use Rattle.cyclo_points.specs.Point.{IsWithin};
ghost use Rattle.cyclo_points.specs.Real.{real_in, IsRealWithin};
ghost use Rattle.plane_geom.specs.Spots.{reals_of, spot_of};
ghost use Rattle.theory_descents.specs.Insets.{inside_right, inside_left, inside_upper, inside_lower};
ghost use Rattle.window_descent.specs.Standing.{window_box};
ghost use Rattle.window_descent.specs.Reach.{IsInReach};

use cyclo_points::coordinates::{x, y};
use cyclo_points::order::Order;
use cyclo_points::point::Point;
use cyclo_points::real::Real;
use cyclo_points::real_sum::{radd, rsub};
use cyclo_points::sign::{sign, witness};
use plane_geom::window::Window;

/// The greatest size of the parts of a number for which the quick comparison works.
const GREATEST_PART: i64 = 1 << 24;

/// How a number compares with an integer, and with the negative of that integer.
#[derive(Clone, Copy)]
struct Between {
    below: bool,
    above: bool,
}

/// For each side of a window, true if a point is inside of it. The sides are those of the greatest X, the
/// least X, the greatest Y and the least Y.
#[derive(Clone, Copy)]
pub(crate) struct Sides {
    pub(crate) right: bool,
    pub(crate) left: bool,
    pub(crate) upper: bool,
    pub(crate) lower: bool,
}

/// Finds which sides of a window a point is inside of.
pub(crate) fn sides_of(order: Order, window: &Window, p: &Point) -> Sides
    requires p_within { IsWithin (2 ^ 25) p.now }
    requires centre_within { IsInReach window.now }
    ensures right { result.right
        ≡ inside_right (reals_of order) (window_box order window.now) (spot_of order p.now) }
    ensures left { result.left
        ≡ inside_left (reals_of order) (window_box order window.now) (spot_of order p.now) }
    ensures upper { result.upper
        ≡ inside_upper (reals_of order) (window_box order window.now) (spot_of order p.now) }
    ensures lower { result.lower
        ≡ inside_lower (reals_of order) (window_box order window.now) (spot_of order p.now) }
{
    let across = compare(order, window.w, &wide_of(order, window, p));
    let along = compare(order, window.h, &high_of(order, window, p));
    Sides {
        right: across.below,
        left: across.above,
        upper: along.below,
        lower: along.above,
    }
}

/// Returns X of a point relative to the centre of a window.
pub(crate) fn wide_of(order: Order, window: &Window, p: &Point) -> Real
    requires p_within { IsWithin (2 ^ 25) p.now }
    requires centre_within { IsInReach window.now }
    ensures value { real_in order result
        ≡ difference (reals_of order).ops (spot_of order p.now).x (window_box order window.now).centre.x }
    ensures within { IsRealWithin (2 ^ 28) result }
{
    rsub(&x(order, p), &x(order, &window.centre))
}

/// Returns Y of a point relative to the centre of a window.
pub(crate) fn high_of(order: Order, window: &Window, p: &Point) -> Real
    requires p_within { IsWithin (2 ^ 25) p.now }
    requires centre_within { IsInReach window.now }
    ensures value { real_in order result
        ≡ difference (reals_of order).ops (spot_of order p.now).y (window_box order window.now).centre.y }
    ensures within { IsRealWithin (2 ^ 28) result }
{
    rsub(&y(order, p), &y(order, &window.centre))
}

/// Compares a number with an integer and with the negative of that integer. For most numbers, which are
/// short, two comparisons of integers are enough.
fn compare(order: Order, extent: u16, r: &Real) -> Between
    requires within { IsRealWithin (2 ^ 28) r.now }
    ensures below { result.below ≡ is_gt ((reals_of order).sign
        (difference (reals_of order).ops ((reals_of order).ops.int (pos extent)) (real_in order r.now))) }
    ensures above { result.above ≡ is_gt ((reals_of order).sign
        ((reals_of order).ops.add ((reals_of order).ops.int (pos extent)) (real_in order r.now))) }
{
    let a = r.a as i64;
    let b = r.b as i64;
    if a > GREATEST_PART || a < -GREATEST_PART || b > GREATEST_PART || b < -GREATEST_PART {
        return Between {
            below: is_below(order, extent, r),
            above: is_above(order, extent, r),
        };
    }
    let own = witness(order, a, b);
    let limit = witness(order, i64::from(extent), 0);
    Between {
        below: own < limit,
        above: -limit < own,
    }
}

/// Returns true if a number is below an integer.
#[cold]
#[inline(never)]
fn is_below(order: Order, extent: u16, r: &Real) -> bool
    requires within { IsRealWithin (2 ^ 28) r.now }
    ensures { result ≡ is_gt ((reals_of order).sign
        (difference (reals_of order).ops ((reals_of order).ops.int (pos extent)) (real_in order r.now))) }
{
    sign(order, &rsub(&whole(order, extent), r)).is_gt()
}

/// Returns true if a number is above the negative of an integer.
#[cold]
#[inline(never)]
fn is_above(order: Order, extent: u16, r: &Real) -> bool
    requires within { IsRealWithin (2 ^ 28) r.now }
    ensures { result ≡ is_gt ((reals_of order).sign
        ((reals_of order).ops.add ((reals_of order).ops.int (pos extent)) (real_in order r.now))) }
{
    sign(order, &radd(&whole(order, extent), r)).is_gt()
}

/// Returns an integer as a real number of the order.
fn whole(order: Order, n: u16) -> Real
    ensures value { real_in order result ≡ (reals_of order).ops.int (pos n) }
    ensures within { IsRealWithin (2 ^ 16) result }
{
    Real {
        a: i128::from(n),
        b: 0,
    }
}
