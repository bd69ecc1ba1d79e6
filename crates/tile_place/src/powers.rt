//! Powers of the inflation factor.
ghost use Rattle.std.specs.Prelude.{◌≡◌, ◌+◌, ◌≤◌, ◌^◌, All, length, map, find, None, Some, IfOk, IfErr};
ghost use Rattle.theory_frames.specs.Looked.{powers_from};
ghost use Rattle.cyclo_points.specs.Order.{points_of, is_refused};
ghost use Rattle.cyclo_points.specs.Point.{point_in, IsOf, IsWithin};
ghost use Rattle.rule_model.specs.Views.{rule_of};

use crate::coord_limit::CoordLimit;
use crate::machine::Machine;
use arrayvec::ArrayVec;
use cyclo_points::arithmetic::refused;
use cyclo_points::point::Point;
use cyclo_points::points_law;
use cyclo_points::product::mul;

impl Machine {
    /// Returns the powers of the inflation factor, from 0 to the depth. Err has the first power that is
    /// refused.
    pub fn powers(&self, depth: u8) -> Result<ArrayVec<Point, 65>, CoordLimit>
        requires at_most_64 { depth ≤ 64 }
        ensures powers { IfOk result (λ powers. map (point_in self.now.order) powers.items
            ≡ powers_from (points_of self.now.order) (rule_of self.now).factor 0 (depth + 1)) }
        ensures none_refused { IfOk result (λ _. find (is_refused self.now.order)
            (powers_from (points_of self.now.order) (rule_of self.now).factor 0 (depth + 1)) ≡ None) }
        ensures within { IfOk result (λ powers. All (IsWithin (2 ^ 24)) powers.items) }
        ensures count { IfOk result (λ powers. length powers.items ≡ depth + 1) }
        ensures limit { IfErr result (λ limit. find (is_refused self.now.order)
            (powers_from (points_of self.now.order) (rule_of self.now).factor 0 (depth + 1)) ≡ Some
            (point_in self.now.order limit.value)) }
        ensures limit_in_order { IfErr result (λ limit. IsOf self.now.order limit.value) }
    {
        let checked = self.checked();
        let order = checked.order();
        points_law(order);
        let factor = checked.factor();
        let mut power = Point { c: [1, 0, 0, 0] };
        let mut powers = ArrayVec::new();
        powers.push(power);
        for i in 0..depth {
            power = mul(order, &power, &factor);
            if refused(&power) {
                return Err(CoordLimit { value: power });
            }
            powers.push(power);
        }
        Ok(powers)
    }
}
