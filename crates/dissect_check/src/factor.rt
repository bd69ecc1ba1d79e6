//! The inflation factor of a rule: one that its edition takes, and fast enough. Edition one takes real
//! factors greater than 1, in an order that isn't six; edition two takes those of squared length above 1.

ghost use Rattle.std.specs.Prelude.{◌≡◌, ◌^◌, pos};
ghost use Rattle.theory_ring.specs.Ring.{power};
ghost use Rattle.theory_ring.specs.Sign.{less};
ghost use Rattle.theory_addresses.specs.Search.{some_below};
ghost use Rattle.theory_edge_to_edge.specs.Factor.{is_real_above_one, is_growing};
ghost use Rattle.cyclo_points.specs.Order.{points_of, is_refused};
ghost use Rattle.cyclo_points.specs.Point.{point_in, IsWithin};
ghost use Rattle.rule_model.specs.Usable.{IsSmall, IsUsable};
ghost use Rattle.rule_model.specs.Views.{as_rule, as_edition};
ghost use Rattle.dissect_check.specs.Agrees.{fault_in};
ghost use Rattle.dissect_check.specs.FirstFault.{factor as factor_fault};

use crate::check_fault::CheckFault;
use crate::same_point::same_point;
use cyclo_points::arithmetic::refused;
use cyclo_points::coordinates::{conj, x};
use cyclo_points::order::Order;
use cyclo_points::point::Point;
use cyclo_points::points_law;
use cyclo_points::product::mul;
use cyclo_points::real::Real;
use cyclo_points::real_sum::rsub;
use cyclo_points::sign::sign;
use rule_model::edition::Edition;
use rule_model::rule::Rule;
use std::cmp::Ordering;

/// The powers 0 to 64: one for each depth that a supertile may have.
const POWERS: usize = 65;

/// The factor is one that the edition takes, and one of its powers is beyond the limit of coordinates.
pub(crate) fn factor(rule: &Rule) -> Result<(), CheckFault>
    requires usable { IsUsable rule.now }
    ensures { fault_in result ≡ factor_fault rule.now.edition rule.now.order (as_rule rule.now) }
{
    let is_right = is_growing(rule.edition, rule.order, &rule.factor)
        && is_refused_by(rule.order, &rule.factor, POWERS);
    if is_right {
        Ok(())
    } else {
        Err(CheckFault::WrongFactor)
    }
}

/// Returns true if an edition accepts the factor.
fn is_growing(edition: Edition, order: Order, factor: &Point) -> bool
    requires small { IsSmall order factor.now }
    ensures { result ≡ is_growing (points_of order) (as_edition edition) (point_in order factor.now) }
{
    match edition {
        Edition::One => order.n() != 6 && is_real_above_one(order, factor),
        Edition::Two => is_above_one(order, &squared_length(order, factor)),
    }
}

/// The product of a point and its conjugate, whose real part is its squared length.
fn squared_length(order: Order, p: &Point) -> Point
    requires small { IsSmall order p.now }
    ensures product { point_in order result ≡ (points_of order).ring.mul
        (point_in order p.now) ((points_of order).conj (point_in order p.now)) }
    ensures within { IsWithin (2 ^ 16) result }
{
    mul(order, p, &conj(order, p))
}

/// Returns true if the factor is its own conjugate, and greater than 1.
fn is_real_above_one(order: Order, factor: &Point) -> bool
    requires small { IsSmall order factor.now }
    ensures { result ≡ is_real_above_one (points_of order) (point_in order factor.now) }
{
    same_point(&conj(order, factor), factor) && is_above_one(order, factor)
}

/// Returns true if the real part of a point is greater than 1. Twice the real part is X.
fn is_above_one(order: Order, p: &Point) -> bool
    requires within { IsWithin (2 ^ 16) p.now }
    ensures { result ≡ less (points_of order).real ((points_of order).real.ops.int (pos 2))
        ((points_of order).x (point_in order p.now)) }
{
    let two = Real { a: 2, b: 0 };
    sign(order, &rsub(&x(order, p), &two)) == Ordering::Greater
}

/// Returns true if one of the first powers of the factor, this many from 0 on, is refused.
fn is_refused_by(order: Order, factor: &Point, powers: usize) -> bool
    requires small { IsSmall order factor.now }
    ensures { result ≡ some_below powers (λ n. is_refused order
        (power (points_of order).ring (point_in order factor.now) n)) }
{
    points_law(order);
    let mut power = Point { c: [1, 0, 0, 0] };
    for _exponent in 0..powers {
        if refused(&power) {
            return true;
        }
        power = mul(order, &power, factor);
    }
    false
}
