//! Vertices of supertiles.
ghost use Rattle.std.specs.Prelude.{◌≡◌, ◌<◌, ◌≤◌, ◌^◌, All, length, map, find, None, Some, IfOk, IfErr};
ghost use Rattle.theory_frames.specs.Outline.{outline};
ghost use Rattle.cyclo_points.specs.Order.{points_of, is_refused};
ghost use Rattle.cyclo_points.specs.Point.{point_in, IsOf, IsWithin};
ghost use Rattle.cyclo_points.specs.Motion.{motion_in};
ghost use Rattle.rule_model.specs.Views.{rule_of};
ghost use Rattle.tile_place.specs.Motions.{IsMotionOf};

use crate::coord_limit::CoordLimit;
use crate::machine::Machine;
use arrayvec::ArrayVec;
use cyclo_points::arithmetic::{add, refused};
use cyclo_points::motion::Motion;
use cyclo_points::point::Point;
use cyclo_points::points_law;
use cyclo_points::product::mul;
use cyclo_points::rotation::turn;

impl Machine {
    /// Returns the vertices of a prototile that is scaled and moved, in order. Err has the first vertex that
    /// is refused.
    pub fn outline(
        &self,
        kind: u8,
        scale: &Point,
        at: &Motion,
    ) -> Result<ArrayVec<Point, 12>, CoordLimit>
        requires exists { kind < length (rule_of self.now).kinds }
        requires scale_within { IsWithin (2 ^ 24) scale.now }
        requires moves { IsMotionOf self.now.order (2 ^ 24) at.now }
        ensures vertices { IfOk result (λ corners. map (point_in self.now.order) corners.items
            ≡ outline (points_of self.now.order) (rule_of self.now) kind (point_in self.now.order scale.now)
            (motion_in self.now.order at.now)) }
        ensures none_refused { IfOk result (λ corners. find (is_refused self.now.order)
            (outline (points_of self.now.order) (rule_of self.now) kind (point_in self.now.order scale.now)
            (motion_in self.now.order at.now)) ≡ None) }
        ensures within { IfOk result (λ corners. All (IsWithin (2 ^ 24)) corners.items) }
        ensures in_order { IfOk result (λ corners. All (IsOf self.now.order) corners.items) }
        ensures at_least_3 { IfOk result (λ corners. 3 ≤ length corners.items) }
        ensures limit { IfErr result (λ limit. find (is_refused self.now.order)
            (outline (points_of self.now.order) (rule_of self.now) kind (point_in self.now.order scale.now)
            (motion_in self.now.order at.now))
            ≡ Some (point_in self.now.order limit.value)) }
        ensures limit_in_order { IfErr result (λ limit. IsOf self.now.order limit.value) }
    {
        let checked = self.checked();
        let order = checked.order();
        points_law(order);
        let turned = turn(order, at.turn, scale);
        let mut corners = ArrayVec::new();
        let vertices = checked.vertices(kind);
        for vertex in vertices {
            let corner = add(&mul(order, &turned, vertex), &at.shift);
            if refused(&corner) {
                return Err(CoordLimit { value: corner });
            }
            corners.push(corner);
        }
        Ok(corners)
    }
}
