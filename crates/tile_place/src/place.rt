//! Where a tile lies in its supertile, by Horner's scheme on the digits of its address.
ghost use Rattle.std.specs.Prelude.{◌≡◌, ◌<◌, ◌+◌, ◌%◌, ◌^◌, ℕ, length, map, None, Some, IfOk, IfErr};
ghost use Rattle.theory_addresses.specs.Address.{Climbs, Fits};
ghost use Rattle.theory_substitution.specs.Motion.{still};
ghost use Rattle.theory_substitution.specs.Placement.{finer, horner_values, placement};
ghost use Rattle.cyclo_points.specs.Order.{points_of};
ghost use Rattle.cyclo_points.specs.Point.{point_in, IsOf, IsWithin};
ghost use Rattle.cyclo_points.specs.Motion.{motion_in};
ghost use Rattle.rule_model.specs.Tiling.{tiling_of, children, its_child, IsPlaced};
ghost use Rattle.rule_model.specs.Usable.{IsSmall};
ghost use Rattle.tile_shape.specs.Views.{address_of, step_of};
ghost use Rattle.tile_place.specs.Motions.{IsMotionOf};
ghost use Rattle.tile_place.specs.Placing.{first_refused};
ghost use Rattle.tile_place.specs.Refused.{Visits};
ghost use Rattle.tile_place.specs.Steps.{HasStep};

use crate::coord_limit::CoordLimit;
use cyclo_points::arithmetic::{add, refused};
use cyclo_points::motion::Motion;
use cyclo_points::order::Order;
use cyclo_points::point::Point;
use cyclo_points::product::mul;
use cyclo_points::rotation::turn;
use cyclo_points::{placement_law, points_law};
use rule_model::checked::Checked;
use rule_model::placing::Placing;
use tile_shape::address::Address;
use tile_shape::step::Step;

/// Computes where a tile lies in its supertile: the motion that the definition lists with this address. The
/// address must fit the rule.
///
/// # Errors
///
/// `CoordLimit` exactly if a value of Horner's scheme has a coefficient above 2^24 in absolute value. It has
/// the first such value, from coarse to fine.
pub fn place(checked: &Checked, addr: &Address) -> Result<Motion, CoordLimit>
    requires fits { Fits (children (tiling_of checked.now)) (address_of addr.now) }
    ensures beside { IfOk result (λ motion. IsPlaced (tiling_of checked.now) (address_of addr.now)
        (motion_in checked.now.order motion)) }
    ensures within { IfOk result (λ _. first_refused (tiling_of checked.now)
        (address_of addr.now).digits ≡ None) }
    ensures turn_below { IfOk result (λ motion. motion.turn < (points_of checked.now.order).order) }
    ensures shift_within { IfOk result (λ motion. IsWithin (2 ^ 24) motion.shift) }
    ensures in_order { IfOk result (λ motion. IsOf checked.now.order motion.shift) }
    ensures limit { IfErr result (λ limit. first_refused (tiling_of checked.now) (address_of addr.now).digits
        ≡ Some (point_in checked.now.order limit.value)) }
    ensures limit_in_order { IfErr result (λ limit. IsOf checked.now.order limit.value) }
{
    place_digits(checked, addr.kind, addr.digits.as_slice())
}

/// Like [`place`], for a kind and digits, finest first. It takes any tiling whose numbers may be read.
pub fn place_digits<P: Placing>(rule: &P, kind: u8, digits: &[Step]) -> Result<Motion, CoordLimit>
    requires fits { Fits (children (P.tiling rule.now))
        (record { kind = kind; digits = map step_of digits.now }) }
    ensures beside { IfOk result (λ motion. IsPlaced (P.tiling rule.now)
        (record { kind = kind; digits = map step_of digits.now })
        (motion_in (P.tiling rule.now).order motion)) }
    ensures within { IfOk result (λ _. first_refused (P.tiling rule.now) (map step_of digits.now) ≡ None) }
    ensures turn_below { IfOk result (λ motion. motion.turn < (points_of (P.tiling rule.now).order).order) }
    ensures shift_within { IfOk result (λ motion. IsWithin (2 ^ 24) motion.shift) }
    ensures in_order { IfOk result (λ motion. IsOf (P.tiling rule.now).order motion.shift) }
    ensures limit { IfErr result (λ limit. first_refused (P.tiling rule.now) (map step_of digits.now)
        ≡ Some (point_in (P.tiling rule.now).order limit.value)) }
    ensures limit_in_order { IfErr result (λ limit. IsOf (P.tiling rule.now).order limit.value) }
{
    let order = rule.order();
    placement_law(order);
    match order {
        Order::Four => horner(rule, Order::Four, digits),
        Order::Six => horner(rule, Order::Six, digits),
        Order::Eight => horner(rule, Order::Eight, digits),
        Order::Ten => horner(rule, Order::Ten, digits),
    }
}

/// Computes the motion that the digits give, from the coarse end to the fine end. Each order has compiled
/// code of its own.
#[inline(always)]
fn horner<P: Placing>(rule: &P, order: Order, digits: &[Step]) -> Result<Motion, CoordLimit>
    requires order { order ≡ (P.tiling rule.now).order }
    requires climbs { (kind : ℕ) × Climbs (children (P.tiling rule.now)) kind (map step_of digits.now) }
    ensures placed { IfOk result (λ motion. motion_in (P.tiling rule.now).order motion
        ≡ placement (points_of (P.tiling rule.now).order) (P.tiling rule.now).rule (map step_of digits.now)) }
    ensures moves { IfOk result (IsMotionOf (P.tiling rule.now).order (2 ^ 24)) }
    ensures visits { Visits (P.tiling rule.now).order
        (horner_values (points_of (P.tiling rule.now).order) (P.tiling rule.now).rule
        (map step_of digits.now)) result }
{
    let mut level = digits.len();
    if level == 0 {
        return Ok(Motion::default());
    }
    level -= 1;
    let factor = rule.factor();
    let mut motion = coarsest(rule, order, digits[level]);
    while level > 0 {
        level -= 1;
        motion = finer(rule, order, &factor, &motion, digits[level]);
        if refused(&motion.shift) {
            return Err(CoordLimit {
                value: motion.shift,
            });
        }
    }
    Ok(motion)
}

/// Returns the motion of a child of the supertile itself. It is one level finer than the motion that moves
/// nothing.
#[inline(always)]
fn coarsest<P: Placing>(rule: &P, order: Order, step: Step) -> Motion
    requires order { order ≡ (P.tiling rule.now).order }
    requires step { HasStep (P.tiling rule.now) step }
    ensures moved { motion_in (P.tiling rule.now).order result
        ≡ finer (points_of (P.tiling rule.now).order) (P.tiling rule.now).rule
        (still (points_of (P.tiling rule.now).order))
        (its_child (P.tiling rule.now) step.parent step.child).motion }
    ensures moves { IsMotionOf (P.tiling rule.now).order (2 ^ 24) result }
{
    points_law(order);
    let child = rule.child(step.parent, step.child);
    Motion {
        turn: child.turn,
        shift: child.shift,
    }
}

/// Goes one level finer: from the motion of a tile's ancestor to the motion of that ancestor's child.
#[inline(always)]
fn finer<P: Placing>(rule: &P, order: Order, factor: &Point, motion: &Motion, step: Step) -> Motion
    requires order { order ≡ (P.tiling rule.now).order }
    requires step { HasStep (P.tiling rule.now) step }
    requires factor { point_in (P.tiling rule.now).order factor.now ≡ (P.tiling rule.now).rule.factor }
    requires small_factor { IsSmall (P.tiling rule.now).order factor.now }
    requires moves { IsMotionOf (P.tiling rule.now).order (2 ^ 24) motion.now }
    ensures moved { motion_in (P.tiling rule.now).order result
        ≡ finer (points_of (P.tiling rule.now).order) (P.tiling rule.now).rule
        (motion_in (P.tiling rule.now).order motion.now)
        (its_child (P.tiling rule.now) step.parent step.child).motion }
    ensures turn_below { result.turn < (points_of (P.tiling rule.now).order).order }
    ensures in_order { IsOf (P.tiling rule.now).order result.shift }
{
    points_law(order);
    let child = rule.child(step.parent, step.child);
    let inflated = mul(order, &motion.shift, factor);
    let turned = turn(order, motion.turn, &child.shift);
    Motion {
        turn: turn_after(order, motion.turn, child.turn),
        shift: add(&inflated, &turned),
    }
}

/// Returns the turn that two turns make, one after the other.
#[inline(always)]
fn turn_after(order: Order, first: u8, second: u8) -> u8
    requires first_below { first < (points_of order).order }
    requires second_below { second < (points_of order).order }
    ensures sum { result ≡ (first + second) % (points_of order).order }
    ensures below { result < (points_of order).order }
{
    let sum = first + second;
    let n = order.n();
    if sum < n { sum } else { sum - n }
}
