//! The parts of a supertile.
ghost use Rattle.std.specs.Prelude.{◌≡◌, ◌<◌, ◌^◌, length, IfSome};
ghost use Rattle.cyclo_points.specs.Point.{IsWithin};
ghost use Rattle.rule_model.specs.Views.{rule_of};
ghost use Rattle.theory_substitution.specs.Rule.{children_of};
ghost use Rattle.window_descent.specs.Parts.{IsPartAt, IsPlacedPart};

use cyclo_points::arithmetic::refused;
use cyclo_points::motion::Motion;
use cyclo_points::movement::compose;
use cyclo_points::point::Point;
use cyclo_points::product::mul;
use tile_place::machine::Machine;

/// A part of a supertile: its kind, and its motion, which is followed by that of the supertile.
#[derive(Clone, Copy)]
pub struct Part {
    pub kind: u8,
    pub motion: Motion,
}

/// Returns a child of a supertile as a part of it, or None if its shift is refused. All children have the
/// same `scale`.
pub(crate) fn part_of(machine: &Machine, parent: &Part, number: u8, scale: &Point) -> Option<Part>
    requires parent { IsPlacedPart machine.now parent.now }
    requires child { number < length (children_of (rule_of machine.now) parent.now.kind) }
    requires scale_within { IsWithin (2 ^ 24) scale.now }
    ensures part { IfSome result
        (IsPartAt machine.now parent.now.kind number scale.now parent.now.motion) }
{
    let checked = machine.checked();
    let order = checked.order();
    let child = checked.child(parent.kind, number);
    let scaled = Motion {
        turn: child.turn,
        shift: mul(order, scale, &child.shift),
    };
    let motion = compose(order, &parent.motion, &scaled);
    if refused(&motion.shift) {
        return None;
    }
    Some(Part {
        kind: child.kind,
        motion,
    })
}
