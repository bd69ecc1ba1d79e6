//! Corners of tiles.
ghost use Rattle.std.specs.Prelude.{◌<◌, ◌≤◌, ◌^◌, length};
ghost use Rattle.theory_substitution.specs.RuleParts.{edge_count};
ghost use Rattle.cyclo_points.specs.Order.{points_of};
ghost use Rattle.cyclo_points.specs.Point.{IsOf, IsWithin};
ghost use Rattle.rule_model.specs.Tiling.{tiling_of};
ghost use Rattle.rule_model.specs.Views.{rule_of};
ghost use Rattle.tile_place.specs.Corners.{IsCorner, AreCorners};

use crate::machine::Machine;
use arrayvec::ArrayVec;
use cyclo_points::arithmetic::add;
use cyclo_points::motion::Motion;
use cyclo_points::point::Point;

impl Machine {
    /// Returns the corner of a tile: vertex `number` of the kind, moved.
    #[inline]
    pub fn corner(&self, kind: u8, motion: &Motion, number: usize) -> Point
        requires exists { kind < length (rule_of self.now).kinds }
        requires turn_below { motion.now.turn < (points_of self.now.order).order }
        requires shift_within { IsWithin (2 ^ 24) motion.now.shift }
        requires in_order { IsOf self.now.order motion.now.shift }
        requires vertex_exists { number < edge_count (rule_of self.now) kind }
        ensures { IsCorner (tiling_of self.now) kind motion.now number result }
    {
        let turned = self.turned_vertex(kind, motion.turn, number);
        add(&turned, &motion.shift)
    }

    /// Replaces `corners` by the corners of a tile: the vertices of the kind, moved, in order. There are at
    /// most 12.
    pub fn put_corners(&self, kind: u8, motion: &Motion, corners: &mut ArrayVec<Point, 12>)
        requires exists { kind < length (rule_of self.now).kinds }
        requires turn_below { motion.now.turn < (points_of self.now.order).order }
        requires shift_within { IsWithin (2 ^ 24) motion.now.shift }
        requires in_order { IsOf self.now.order motion.now.shift }
        ensures corners { AreCorners (tiling_of self.now) kind motion.now corners.new.items }
        ensures at_most_12 { length corners.new.items ≤ 12 }
    {
        corners.clear();
        for number in 0..self.checked().vertices(kind).len() {
            corners.push(self.corner(kind, motion, number));
        }
    }
}
