//! Edges that meet, the motion that glues them, and the motion of the tile across an edge.
ghost use Rattle.std.specs.Prelude.{◌≡◌, ◌↔◌, ◌+◌, ◌<◌, ◌^◌, ℕ, IsTrue};
ghost use Rattle.theory_substitution.specs.RuleParts.{next};
ghost use Rattle.theory_edge_to_edge.specs.EdgeTypes.{edge_vector};
ghost use Rattle.cyclo_points.specs.Order.{points_of};
ghost use Rattle.cyclo_points.specs.Point.{point_in, IsOf, IsWithin};
ghost use Rattle.cyclo_points.specs.Motion.{motion_in};
ghost use Rattle.theory_dissection.specs.Glue.{TurnsOnto};
ghost use Rattle.rule_model.specs.Tiling.{tiling_of};
ghost use Rattle.rule_model.specs.Views.{rule_of};
ghost use Rattle.tile_place.specs.Glued.{HasKindEdge, Meets, Glues, IsMotionAcross, GluingLaw};
ghost use Rattle.tile_place.specs.TurnedEdges.{HasTurnedEdge};
ghost use Rattle.tile_place.specs.TurnedVertices.{turned_by, IsTurned};

use crate::compared::is_same;
use crate::edge_turns::next_of;
use crate::machine::Machine;
use cyclo_points::arithmetic::{add, sub};
use cyclo_points::motion::Motion;
use cyclo_points::point::Point;
use cyclo_points::points_law;
use theory_dissection::laws::glue_law;

impl Machine {
    /// Returns the vertex at which an edge begins, turned by ζ^steps.
    fn start_of(&self, kind: u8, edge: u8, steps: u8) -> Point
        requires turned_edge { HasTurnedEdge (tiling_of self.now) kind edge steps }
        ensures { IsTurned (tiling_of self.now) kind steps edge result }
    {
        self.turned_vertex(kind, steps, usize::from(edge))
    }

    /// Returns the vertex at which an edge ends, turned by ζ^steps.
    fn end_of(&self, kind: u8, edge: u8, steps: u8) -> Point
        requires turned_edge { HasTurnedEdge (tiling_of self.now) kind edge steps }
        ensures { IsTurned (tiling_of self.now) kind steps (next (rule_of self.now) kind edge) result }
    {
        let end = next_of(self.checked().vertices(kind).len(), usize::from(edge));
        self.turned_vertex(kind, steps, end)
    }

    /// Returns the vector of an edge, turned by ζ^steps.
    fn vector_of(&self, kind: u8, edge: u8, steps: u8) -> Point
        requires turned_edge { HasTurnedEdge (tiling_of self.now) kind edge steps }
        ensures vector { point_in self.now.order result
            ≡ turned_by self.now.order steps (edge_vector (points_of self.now.order) (rule_of self.now) kind
            edge) }
        ensures in_order { IsOf self.now.order result }
    {
        points_law(self.checked().order());
        let end = self.end_of(kind, edge, steps);
        let start = self.start_of(kind, edge, steps);
        sub(&end, &start)
    }

    /// Returns the turn that takes the vector of the second edge to the reverse of the first edge's vector.
    fn glue_turn(&self, kind: u8, edge: u8, other: u8, other_edge: u8) -> u8
        requires edge_exists { HasKindEdge (tiling_of self.now) kind edge }
        requires other_exists { HasKindEdge (tiling_of self.now) other other_edge }
        requires meets { Meets (tiling_of self.now) kind edge other other_edge }
        ensures below { result < (points_of self.now.order).order }
        ensures turns { TurnsOnto (points_of self.now.order) (rule_of self.now) kind edge other other_edge
            result }
    {
        let order = self.checked().order();
        points_law(order);
        let n = order.n();
        // ζ^(n/2) is -1.
        let back = n / 2 + n - self.edge_turn(kind, edge);
        (self.edge_turn(other, other_edge) + back) % n
    }

    /// Returns true if two edges meet: some turn below n takes the vector of the second edge to the reverse
    /// of the first edge's vector.
    pub fn meets(&self, kind: u8, edge: u8, other: u8, other_edge: u8) -> bool
        requires edge_exists { HasKindEdge (tiling_of self.now) kind edge }
        requires other_exists { HasKindEdge (tiling_of self.now) other other_edge }
        ensures { IsTrue result ↔ Meets (tiling_of self.now) kind edge other other_edge }
    {
        points_law(self.checked().order());
        let own = self.vector_of(kind, edge, self.edge_turn(kind, edge));
        let its = self.vector_of(other, other_edge, self.edge_turn(other, other_edge));
        is_same(&own, &its)
    }

    /// Returns the motion that takes the second prototile's edge onto the reverse of the first prototile's
    /// edge.
    pub fn glue_motion(&self, kind: u8, edge: u8, other: u8, other_edge: u8) -> Motion
        requires edge_exists { HasKindEdge (tiling_of self.now) kind edge }
        requires other_exists { HasKindEdge (tiling_of self.now) other other_edge }
        requires meets { Meets (tiling_of self.now) kind edge other other_edge }
        ensures glues { Glues (tiling_of self.now) kind edge other other_edge
            (motion_in self.now.order result) }
        ensures shift_within { IsWithin (2 ^ 8) result.shift }
        ensures in_order { IsOf self.now.order result.shift }
    {
        points_law(self.checked().order());
        let turn = self.glue_turn(kind, edge, other, other_edge);
        let end = self.end_of(kind, edge, 0);
        let start = self.start_of(other, other_edge, turn);
        Motion {
            turn,
            shift: sub(&end, &start),
        }
    }

    /// Returns the motion of the tile across an edge of a tile that has this motion: the gluing motion,
    /// followed by the tile's.
    pub fn motion_across(
        &self,
        motion: &Motion,
        kind: u8,
        edge: u8,
        other: u8,
        other_edge: u8,
    ) -> Motion
        requires edge_exists { HasKindEdge (tiling_of self.now) kind edge }
        requires other_exists { HasKindEdge (tiling_of self.now) other other_edge }
        requires meets { Meets (tiling_of self.now) kind edge other other_edge }
        requires turn_below { motion.now.turn < (points_of self.now.order).order }
        requires shift_within { IsWithin (2 ^ 24) motion.now.shift }
        requires in_order { IsOf self.now.order motion.now.shift }
        ensures across { IsMotionAcross (tiling_of self.now) kind edge other other_edge
            (motion_in self.now.order motion.now) (motion_in self.now.order result) }
        ensures turn_below { result.turn < (points_of self.now.order).order }
        ensures bounded { (k : ℕ) → IsWithin k motion.now.shift → IsWithin (k + 2 ^ 8) result.shift }
        ensures in_order { IsOf self.now.order result.shift }
    {
        let order = self.checked().order();
        points_law(order);
        let turn = (motion.turn + self.glue_turn(kind, edge, other, other_edge)) % order.n();
        let end = self.end_of(kind, edge, motion.turn);
        let start = self.start_of(other, other_edge, turn);
        Motion {
            turn,
            shift: sub(&add(&end, &motion.shift), &start),
        }
    }

    /// States the law of gluing. Edges that lie across from each other meet, and at most one motion glues
    /// them. The tile across lies where that motion, followed by the motion of the edge's own tile, puts it.
    pub fn gluing_law(&self)
        ensures { GluingLaw (tiling_of self.now) }
    {
        glue_law(self.checked().order());
    }
}
