//! The sign of a number a + bθ, decided by an integer that has the same sign.
//!
//! For a short number it is qa + pb, where p/q is a convergent of θ with a denominator above the parts. For
//! any other number it is u|u| + m v|v|, where u + v√m is the number or twice the number.

ghost use Rattle.std.specs.Prelude.{◌≡◌, ℕ, ◌^◌, ◌*◌, pos, unsigned_abs};
ghost use Rattle.std.specs.Ordering.{int_cmp};
ghost use Rattle.cyclo_points.specs.Order.{points_of};
ghost use Rattle.cyclo_points.specs.Point.{Within};
ghost use Rattle.cyclo_points.specs.Product.{product_of};
ghost use Rattle.cyclo_points.specs.Real.{number, real_in, IsRealWithin};
ghost use Rattle.cyclo_points.specs.Witness.{witness_in};

use crate::order::Order;
use crate::real::Real;
use crate::short::is_short;
use std::cmp::Ordering;

/// The denominator of the convergent 54608393/38613965 of √2, a Pell number.
const PELL: i64 = 38613965;

/// Its numerator.
const HALF_COMPANION: i64 = 54608393;

/// The denominator of the convergent 165580141/102334155 of the golden ratio, a Fibonacci number.
const FIBONACCI: i64 = 102334155;

/// Its numerator, the next one.
const NEXT_FIBONACCI: i64 = 165580141;

/// Returns whether r is less than, equal to or greater than 0. Parts may be up to 2^61 in absolute value.
pub fn sign(order: Order, r: &Real) -> Ordering
    requires r_within { IsRealWithin (2 ^ 61) r.now }
    ensures { result ≡ (points_of order).real.sign (real_in order r.now) }
{
    if is_short(r) {
        witness(order, r.a as i64, r.b as i64).cmp(&0)
    } else {
        wide_witness(order, r).cmp(&0)
    }
}

/// Returns an integer with the sign of a + bθ, at most 2^25 in absolute value: qa + pb, where p/q is a
/// convergent of θ. The parts are short.
pub fn witness(order: Order, a: i64, b: i64) -> i64
    requires a_within { Within (2 ^ 25) a }
    requires b_within { Within (2 ^ 25) b }
    ensures value { result ≡ witness_in order a b }
    ensures same_sign { (points_of order).real.sign (number order a b) ≡ int_cmp result (pos 0) }
{
    match order {
        Order::Four | Order::Six => a,
        Order::Eight => PELL * a + HALF_COMPANION * b,
        Order::Ten => FIBONACCI * a + NEXT_FIBONACCI * b,
    }
}

/// A whole number with the sign of a + bθ.
#[cold]
#[inline(never)]
fn wide_witness(order: Order, r: &Real) -> i128
    requires r_within { IsRealWithin (2 ^ 61) r.now }
    ensures { (points_of order).real.sign (real_in order r.now) ≡ int_cmp result (pos 0) }
{
    match order {
        Order::Four | Order::Six => r.a,
        Order::Eight => signed_square(r.a) + 2 * signed_square(r.b),
        Order::Ten => signed_square(2 * r.a + r.b) + 5 * signed_square(r.b),
    }
}

/// The square u|u|, which has the sign of u.
fn signed_square(u: i128) -> i128
    requires u_within { Within (3 * 2 ^ 61) u }
    ensures value { result ≡ product_of u (pos (unsigned_abs u)) }
    ensures bounded { (n : ℕ) → Within n u → Within (n * n) result }
{
    u * u.abs()
}
