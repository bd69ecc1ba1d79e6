//! The numbers that determine where tiles lie.
ghost use Rattle.std.specs.Prelude.{◌≡◌, ◌<◌, length};
ghost use Rattle.theory_substitution.specs.Rule.{children_of};
ghost use Rattle.cyclo_points.specs.Order.{points_of};
ghost use Rattle.cyclo_points.specs.Point.{point_in};
ghost use Rattle.rule_model.specs.Tiling.{Tiling, tiling_of, its_child};
ghost use Rattle.rule_model.specs.Usable.{IsSmall};
ghost use Rattle.rule_model.specs.Views.{child_in};

use crate::checked::Checked;
use crate::child::Child;
use cyclo_points::order::Order;
use cyclo_points::point::Point;

/// A tiling of which the numbers that place its tiles may be read: its order, its inflation factor, and the
/// children of its kinds. An accepted rule is one.
pub trait Placing {
    // The tiling.
    ghost tiling: { Self → Tiling };

    /// Returns the order.
    fn order(&self) -> Order
        ensures { result ≡ (tiling self.now).order };

    /// Returns the inflation factor.
    fn factor(&self) -> Point
        ensures factor { point_in (tiling self.now).order result ≡ (tiling self.now).rule.factor }
        ensures small { IsSmall (tiling self.now).order result };

    /// Returns a child of a kind. Its turn is below the order.
    fn child(&self, kind: u8, child: u8) -> Child
        requires exists { kind < length (tiling self.now).rule.kinds }
        requires child_exists { child < length (children_of (tiling self.now).rule kind) }
        ensures number { child_in (tiling self.now).order result ≡ its_child (tiling self.now) kind child }
        ensures small { IsSmall (tiling self.now).order result.shift }
        ensures turn_below { result.turn < (points_of (tiling self.now).order).order };
}

impl Placing for Checked {
    ghost tiling = { tiling_of };

    fn order(&self) -> Order {
        Checked::order(self)
    }

    fn factor(&self) -> Point {
        Checked::factor(self)
    }

    fn child(&self, kind: u8, child: u8) -> Child {
        Checked::child(self, kind, child)
    }
}
