//! Products of the numbers in which coordinates lie. Short numbers are multiplied in 64 bits.

ghost use Rattle.std.specs.Prelude.{◌≡◌, ℕ, ◌*◌, ◌^◌};
ghost use Rattle.cyclo_points.specs.Order.{points_of};
ghost use Rattle.cyclo_points.specs.Point.{Within};
ghost use Rattle.cyclo_points.specs.Product.{product_of};
ghost use Rattle.cyclo_points.specs.Real.{number, real_in, IsRealOf, IsRealWithin};

use crate::order::Order;
use crate::real::{Real, from_parts};
use crate::short::are_short;
use std::cmp::Ordering;

/// Returns the product r s in the ring of the order. The product of positive numbers is positive. Parts may
/// be up to 2^60 in absolute value.
pub fn rmul(order: Order, r: &Real, s: &Real) -> Real
    requires r_within { IsRealWithin (2 ^ 60) r.now }
    requires s_within { IsRealWithin (2 ^ 60) s.now }
    ensures product { real_in order result
        ≡ (points_of order).real.ops.mul (real_in order r.now) (real_in order s.now) }
    ensures positive { (points_of order).real.sign (real_in order r.now) ≡ Ordering.Greater
        → (points_of order).real.sign (real_in order s.now) ≡ Ordering.Greater
        → (points_of order).real.sign (real_in order result) ≡ Ordering.Greater }
    ensures bounded { (m k : ℕ) → IsRealWithin m r.now → IsRealWithin k s.now
        → IsRealWithin (3 * m * k) result }
    ensures in_order { IsRealOf order result }
{
    if are_short(r, s) {
        short_product(order, r.a as i64, r.b as i64, s.a as i64, s.b as i64)
    } else {
        let product = wide_product(order, r, s);
        Real {
            a: product.a,
            b: product.b,
        }
    }
}

/// The product of a + bθ and c + dθ, whose parts are short.
fn short_product(order: Order, a: i64, b: i64, c: i64, d: i64) -> Real
    requires a_within { Within (2 ^ 25) a }
    requires b_within { Within (2 ^ 25) b }
    requires c_within { Within (2 ^ 25) c }
    requires d_within { Within (2 ^ 25) d }
    ensures product { real_in order result
        ≡ (points_of order).real.ops.mul (number order a b) (number order c d) }
    ensures in_order { IsRealOf order result }
{
    match order {
        Order::Four | Order::Six => from_parts(short_times(a, c), 0),
        Order::Eight => {
            let first = short_times(a, c);
            let last = short_times(b, d);
            let outer = short_times(a, d);
            let inner = short_times(b, c);
            from_parts(first + 2 * last, outer + inner)
        }
        Order::Ten => {
            let first = short_times(a, c);
            let last = short_times(b, d);
            let outer = short_times(a, d);
            let inner = short_times(b, c);
            from_parts(first + last, outer + inner + last)
        }
    }
}

/// The product of two short parts.
fn short_times(x: i64, y: i64) -> i64
    requires x_within { Within (2 ^ 25) x }
    requires y_within { Within (2 ^ 25) y }
    ensures value { result ≡ product_of x y }
    ensures bounded { Within (2 ^ 50) result }
{
    x * y
}

/// The product r s in 128 bits.
#[cold]
#[inline(never)]
fn wide_product(order: Order, r: &Real, s: &Real) -> Real
    requires r_within { IsRealWithin (2 ^ 60) r.now }
    requires s_within { IsRealWithin (2 ^ 60) s.now }
    ensures product { real_in order result
        ≡ (points_of order).real.ops.mul (real_in order r.now) (real_in order s.now) }
    ensures in_order { IsRealOf order result }
{
    match order {
        Order::Four | Order::Six => Real {
            a: wide_times(r.a, s.a),
            b: 0,
        },
        Order::Eight => {
            let first = wide_times(r.a, s.a);
            let last = wide_times(r.b, s.b);
            let outer = wide_times(r.a, s.b);
            let inner = wide_times(r.b, s.a);
            Real {
                a: first + 2 * last,
                b: outer + inner,
            }
        }
        Order::Ten => {
            let first = wide_times(r.a, s.a);
            let last = wide_times(r.b, s.b);
            let outer = wide_times(r.a, s.b);
            let inner = wide_times(r.b, s.a);
            Real {
                a: first + last,
                b: outer + inner + last,
            }
        }
    }
}

/// The product of two parts.
fn wide_times(x: i128, y: i128) -> i128
    requires x_within { Within (2 ^ 60) x }
    requires y_within { Within (2 ^ 60) y }
    ensures value { result ≡ product_of x y }
    ensures bounded { Within (2 ^ 120) result }
{
    x * y
}
