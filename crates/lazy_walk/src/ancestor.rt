//! The supertiles around the base, level by level.
ghost use Rattle.std.specs.Prelude.{◌≡◌, ◌+◌, ◌<◌, ◌^◌, true, false, IfOk, IfErr};
ghost use Rattle.theory_addresses.specs.Address.{Address};
ghost use Rattle.cyclo_points.specs.Order.{points_of, is_refused};
ghost use Rattle.cyclo_points.specs.Point.{point_in, IsOf, IsWithin};
ghost use Rattle.cyclo_points.specs.Motion.{motion_in};
ghost use Rattle.theory_frames.specs.Outward.{one_out_by};
ghost use Rattle.rule_model.specs.Tiling.{Tiling, tiling_of, its_child};
ghost use Rattle.rule_model.specs.Views.{rule_of};
ghost use Rattle.tile_place.specs.Motions.{IsMotionOf};
ghost use Rattle.tile_place.specs.Steps.{HasStep};
ghost use Rattle.lazy_walk.specs.Ancestors.{IsAncestor};

use cyclo_points::arithmetic::{refused, sub};
use cyclo_points::motion::Motion;
use cyclo_points::point::Point;
use cyclo_points::points_law;
use cyclo_points::product::mul;
use cyclo_points::rotation::turn;
use tile_place::coord_limit::CoordLimit;
use tile_place::machine::Machine;
use tile_shape::step::Step;

/// The base's ancestor at a level: a supertile of that depth.
#[derive(Clone, Copy)]
pub struct Ancestor {
    /// The level, 0 for the base.
    pub level: u8,
    /// The inflation factor to the power of the level.
    pub power: Point,
    /// The ancestor's motion in the base's frame.
    pub motion: Motion,
}

impl Ancestor {
    /// Returns the base itself, with the motion that moves nothing.
    pub fn base() -> Ancestor
        ensures level { result.level ≡ 0 }
        ensures base { (t : Tiling) (f : Address) → IsAncestor t f result }
    {
        Ancestor {
            level: 0,
            power: Point { c: [1, 0, 0, 0] },
            motion: Motion {
                turn: 0,
                shift: Point { c: [0; 4] },
            },
        }
    }
}

/// Returns the next power of the inflation factor. Err has the power if it is refused.
pub(crate) fn next_power(machine: &Machine, power: &Point) -> Result<Point, CoordLimit>
    requires within { IsWithin (2 ^ 24) power.now }
    ensures next { IfOk result (λ next. point_in machine.now.order next
        ≡ (points_of machine.now.order).ring.mul (rule_of machine.now).factor
        (point_in machine.now.order power.now)) }
    ensures within { IfOk result (λ next. IsWithin (2 ^ 24) next) }
    ensures unrefused { IfOk result (λ next. is_refused machine.now.order
        (point_in machine.now.order next) ≡ false) }
    ensures limit { IfErr result (λ limit. point_in machine.now.order limit.value
        ≡ (points_of machine.now.order).ring.mul (rule_of machine.now).factor
        (point_in machine.now.order power.now)) }
    ensures refused { IfErr result (λ limit. is_refused machine.now.order
        (point_in machine.now.order limit.value) ≡ true) }
    ensures limit_in_order { IfErr result (λ limit. IsOf machine.now.order limit.value) }
{
    let checked = machine.checked();
    let order = checked.order();
    points_law(order);
    let factor = checked.factor();
    let next = mul(order, power, &factor);
    if refused(&next) {
        return Err(CoordLimit { value: next });
    }
    Ok(next)
}

/// Returns the motion of an ancestor's parent. The ancestor is its child by this digit, scaled by this power
/// of the inflation factor.
pub(crate) fn one_out(machine: &Machine, digit: Step, power: &Point, motion: &Motion) -> Motion
    requires step { HasStep (tiling_of machine.now) digit }
    requires power_within { IsWithin (2 ^ 24) power.now }
    requires moves { IsMotionOf machine.now.order (2 ^ 24) motion.now }
    ensures moved { motion_in machine.now.order result
        ≡ one_out_by (points_of machine.now.order) (point_in machine.now.order power.now)
        (motion_in machine.now.order motion.now)
        (its_child (tiling_of machine.now) digit.parent digit.child).motion }
    ensures turn_below { result.turn < (points_of machine.now.order).order }
    ensures in_order { IsOf machine.now.order result.shift }
{
    let checked = machine.checked();
    let order = checked.order();
    let child = checked.child(digit.parent, digit.child);
    let n = order.n();
    let back = (n - child.turn) % n;
    let whole = (motion.turn + back) % n;
    let scaled = mul(order, power, &child.shift);
    let turned = turn(order, whole, &scaled);
    Motion {
        turn: whole,
        shift: sub(&motion.shift, &turned),
    }
}
