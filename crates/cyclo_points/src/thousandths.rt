//! Numbers rounded down to whole thousandths, for printing.

ghost use Rattle.std.specs.Prelude.{◌≡◌, ℤ, pos, neg_ℤ, ◌+ℤ◌, ◌*ℤ◌, ◌*◌, ◌^◌};
ghost use Rattle.cyclo_points.specs.Order.{points_of};
ghost use Rattle.cyclo_points.specs.Point.{Within};
ghost use Rattle.cyclo_points.specs.Real.{number, real_in, IsRealWithin};
ghost use Rattle.cyclo_points.specs.Thousandths.{IsFloorThousandths, thousandths};

use crate::order::Order;
use crate::real::Real;
use std::cmp::Ordering;

/// The denominator of the fractions below, a power of two.
const SCALE: i128 = 1 << 84;

/// √2 times that, rounded down.
const ROOT_TWO: i128 = 27354868640032294882193329;

/// The golden ratio times that, rounded down.
const GOLDEN_RATIO: i128 = 31297329056220708970904012;

/// Up to this size b is short: its products with the fractions below fit a word.
const SHORT: i128 = 1 << 15;

/// What 1000√2 has beyond 1414, times 2^45, rounded down.
const ROOT_TWO_REST: i64 = 7514057999150;

/// What 1000 times the golden ratio has beyond 1618, times 2^45, rounded down.
const GOLDEN_RATIO_REST: i64 = 1195872823134;

/// Returns the greatest integer not above 1000 r: the one f with f ≤ 1000 r < f + 1. Parts may be up to 2^30
/// in absolute value.
pub fn floor_thousandths(order: Order, r: &Real) -> i128
    requires r_within { IsRealWithin (2 ^ 30) r.now }
    ensures floor { IsFloorThousandths order (real_in order r.now) result }
    ensures only { (f : ℤ) → IsFloorThousandths order (real_in order r.now) f → f ≡ result }
    ensures value { result ≡ thousandths order (real_in order r.now) }
    ensures bounded { Within (2 ^ 43) result }
{
    1000 * r.a + thousandfold_multiple(order, r.b)
}

/// The greatest whole number not above 1000 bθ, and 0 in orders four and six.
#[inline]
fn thousandfold_multiple(order: Order, b: i128) -> i128
    requires b_within { Within (2 ^ 30) b }
    ensures at_most { ¬ ((points_of order).real.sign (number order result (neg_ℤ (pos 1000 *ℤ b)))
        ≡ Ordering.Greater) }
    ensures below_next { (points_of order).real.sign (number order (result +ℤ pos 1) (neg_ℤ (pos 1000 *ℤ b)))
        ≡ Ordering.Greater }
    ensures bounded { Within (2 ^ 42) result }
{
    if -SHORT <= b && b <= SHORT {
        i128::from(short_multiple(order, b as i64))
    } else {
        floor_multiple(order, 1000 * b)
    }
}

/// Like the multiple of any b, for a short b. 1000θ is so near to an integer and a fraction of 2^45 that no
/// integer lies between the products, and these fit a word.
#[inline]
fn short_multiple(order: Order, b: i64) -> i64
    requires b_within { Within (2 ^ 15) b }
    ensures at_most { ¬ ((points_of order).real.sign (number order result (neg_ℤ (pos 1000 *ℤ b)))
        ≡ Ordering.Greater) }
    ensures below_next { (points_of order).real.sign (number order (result +ℤ pos 1) (neg_ℤ (pos 1000 *ℤ b)))
        ≡ Ordering.Greater }
    ensures bounded { Within (2 ^ 42) result }
{
    match order {
        Order::Four | Order::Six => 0,
        Order::Eight => 1414 * b + ((ROOT_TWO_REST * b) >> 45),
        Order::Ten => 1618 * b + ((GOLDEN_RATIO_REST * b) >> 45),
    }
}

/// The greatest whole number not above bθ, and 0 in orders four and six. It is that of bp/q, where p/q is so
/// near θ that no whole number lies between.
fn floor_multiple(order: Order, b: i128) -> i128
    requires b_within { Within (1000 * 2 ^ 30) b }
    ensures at_most { ¬ ((points_of order).real.sign (number order result (neg_ℤ b))
        ≡ Ordering.Greater) }
    ensures below_next { (points_of order).real.sign (number order (result +ℤ pos 1) (neg_ℤ b))
        ≡ Ordering.Greater }
    ensures bounded { Within (2 ^ 42) result }
{
    match order {
        Order::Four | Order::Six => 0,
        Order::Eight => (ROOT_TWO * b).div_euclid(SCALE),
        Order::Ten => (GOLDEN_RATIO * b).div_euclid(SCALE),
    }
}
