//! Motions at work: the point that a motion moves, one motion after another, and the motion back.

ghost use Rattle.std.specs.Prelude.{◌≡◌, ℕ, ◌+◌, ◌*◌, ◌^◌, ◌<◌};
ghost use Rattle.theory_substitution.specs.Motion.{moved, followed, still};
ghost use Rattle.cyclo_points.specs.Order.{NumberOf, points_of};
ghost use Rattle.cyclo_points.specs.Point.{point_in, IsOf, IsWithin};
ghost use Rattle.cyclo_points.specs.Motion.{motion_in};

use crate::arithmetic::add;
use crate::motion::Motion;
use crate::order::Order;
use crate::point::Point;
use crate::rotation::{opposite, turn};

/// Returns the point to which m moves p: ζ^turn p + shift. Coefficients may be up to 2^38 in absolute value.
pub fn apply(order: Order, m: &Motion, p: &Point) -> Point
    requires below_order { m.now.turn < (points_of order).order }
    requires shift_within { IsWithin (2 ^ 38) m.now.shift }
    requires p_within { IsWithin (2 ^ 38) p.now }
    ensures is_moved { point_in order result
        ≡ moved (points_of order) (motion_in order m.now) (point_in order p.now) }
    ensures bounded { (k l : ℕ) → IsWithin k p.now → IsWithin l m.now.shift
        → IsWithin (2 * k + l) result }
    ensures in_order { IsOf order m.now.shift → IsOf order result }
{
    let turned = turn(order, m.turn, p);
    add(&turned, &m.shift)
}

/// Returns the motion that is first g, then f. Coefficients may be up to 2^38 in absolute value.
pub fn compose(order: Order, f: &Motion, g: &Motion) -> Motion
    requires f_below_order { f.now.turn < (points_of order).order }
    requires g_below_order { g.now.turn < (points_of order).order }
    requires f_within { IsWithin (2 ^ 38) f.now.shift }
    requires g_within { IsWithin (2 ^ 38) g.now.shift }
    ensures followed_by { motion_in order result
        ≡ followed (points_of order) (motion_in order g.now) (motion_in order f.now) }
    ensures first_g_then_f { (z : NumberOf order)
        → moved (points_of order) (motion_in order result) z
        ≡ moved (points_of order) (motion_in order f.now)
        (moved (points_of order) (motion_in order g.now) z) }
    ensures turn_below { result.turn < (points_of order).order }
    ensures bounded { (k l : ℕ) → IsWithin k g.now.shift → IsWithin l f.now.shift
        → IsWithin (2 * k + l) result.shift }
    ensures in_order { IsOf order f.now.shift → IsOf order result.shift }
{
    Motion {
        turn: (f.turn + g.turn) % order.n(),
        shift: apply(order, f, &g.shift),
    }
}

/// Returns the motion back: it undoes m, and m undoes it. Coefficients may be up to 2^38 in absolute value.
pub fn inverse(order: Order, m: &Motion) -> Motion
    requires below_order { m.now.turn < (points_of order).order }
    requires shift_within { IsWithin (2 ^ 38) m.now.shift }
    ensures after { followed (points_of order) (motion_in order m.now) (motion_in order result)
        ≡ still (points_of order) }
    ensures before { followed (points_of order) (motion_in order result) (motion_in order m.now)
        ≡ still (points_of order) }
    ensures undoes { (z : NumberOf order) → moved (points_of order) (motion_in order result)
        (moved (points_of order) (motion_in order m.now) z) ≡ z }
    ensures is_undone { (z : NumberOf order) → moved (points_of order) (motion_in order m.now)
        (moved (points_of order) (motion_in order result) z) ≡ z }
    ensures turn_below { result.turn < (points_of order).order }
    ensures bounded { (k : ℕ) → IsWithin k m.now.shift → IsWithin (2 * k) result.shift }
    ensures in_order { IsOf order result.shift }
{
    let back = (order.n() - m.turn) % order.n();
    let turned = turn(order, back, &m.shift);
    Motion {
        turn: back,
        shift: opposite(&turned),
    }
}
