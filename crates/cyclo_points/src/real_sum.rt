//! Sums and differences of the numbers in which coordinates lie.

ghost use Rattle.std.specs.Prelude.{◌≡◌, ℕ, ◌+◌, ◌^◌};
ghost use Rattle.theory_ring.specs.Ring.{difference};
ghost use Rattle.cyclo_points.specs.declared.order.Order.{Order};
ghost use Rattle.cyclo_points.specs.Order.{points_of};
ghost use Rattle.cyclo_points.specs.Real.{real_in, IsRealOf, IsRealWithin};

use crate::real::Real;
use std::cmp::Ordering;

/// Returns the sum r + s, which is the same in each order. The sum of positive numbers is positive. Parts may
/// be up to 2^100 in absolute value.
pub fn radd(r: &Real, s: &Real) -> Real
    requires r_within { IsRealWithin (2 ^ 100) r.now }
    requires s_within { IsRealWithin (2 ^ 100) s.now }
    ensures sum { (order : Order) → real_in order result
        ≡ (points_of order).real.ops.add (real_in order r.now) (real_in order s.now) }
    ensures positive { (order : Order)
        → (points_of order).real.sign (real_in order r.now) ≡ Ordering.Greater
        → (points_of order).real.sign (real_in order s.now) ≡ Ordering.Greater
        → (points_of order).real.sign (real_in order result) ≡ Ordering.Greater }
    ensures bounded { (m k : ℕ) → IsRealWithin m r.now → IsRealWithin k s.now
        → IsRealWithin (m + k) result }
    ensures in_order { (order : Order) → IsRealOf order r.now → IsRealOf order s.now
        → IsRealOf order result }
{
    Real {
        a: r.a + s.a,
        b: r.b + s.b,
    }
}

/// Returns the difference r - s, which is the same in each order. Parts may be up to 2^100 in absolute value.
pub fn rsub(r: &Real, s: &Real) -> Real
    requires r_within { IsRealWithin (2 ^ 100) r.now }
    requires s_within { IsRealWithin (2 ^ 100) s.now }
    ensures is_difference { (order : Order) → real_in order result
        ≡ difference (points_of order).real.ops (real_in order r.now) (real_in order s.now) }
    ensures bounded { (m k : ℕ) → IsRealWithin m r.now → IsRealWithin k s.now
        → IsRealWithin (m + k) result }
    ensures in_order { (order : Order) → IsRealOf order r.now → IsRealOf order s.now
        → IsRealOf order result }
{
    Real {
        a: r.a - s.a,
        b: r.b - s.b,
    }
}
