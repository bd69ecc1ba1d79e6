//! Motions compared.
ghost use Rattle.std.specs.Prelude.{◌≡◌, ◌↔◌, false, IsTrue};
ghost use Rattle.cyclo_points.specs.declared.order.Order.{Order};
ghost use Rattle.cyclo_points.specs.Point.{point_in, IsOf};
ghost use Rattle.list_verify.specs.LookedUp.{IsMovedOtherwise};

use cyclo_points::motion::Motion;
use cyclo_points::point::Point;

/// Returns true if two motions have the same turn and the same four coefficients.
pub(crate) fn is_same_motion(a: &Motion, b: &Motion) -> bool
    ensures same { IsTrue result ↔ (a.now ≡ b.now) }
    ensures otherwise { result ≡ false → IsMovedOtherwise a.now b.now }
{
    a.turn == b.turn && is_same_shift(&a.shift, &b.shift)
}

/// Returns true if two points have the same coefficients.
fn is_same_shift(p: &Point, q: &Point) -> bool
    ensures same { IsTrue result ↔ (p.now ≡ q.now) }
    ensures otherwise { result ≡ false → (o : Order) → IsOf o p.now → IsOf o q.now
        → ¬ (point_in o p.now ≡ point_in o q.now) }
{
    p.c == q.c
}
