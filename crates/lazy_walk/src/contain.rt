//! The tile of a frame that holds a point.
ghost use Rattle.std.specs.Prelude.{◌≡◌, ◌↔◌, ◌<◌, ◌≤◌, ◌^◌, ℕ, true, None, length, IsOk, IfOk, IfErr, OnOk};
ghost use Rattle.cyclo_points.specs.Order.{points_of};
ghost use Rattle.cyclo_points.specs.Point.{point_in, IsWithin};
ghost use Rattle.theory_frames.specs.Contain.{ancestor_holds};
ghost use Rattle.rule_model.specs.Tiling.{tiling_of};
ghost use Rattle.rule_model.specs.Views.{rule_of};
ghost use Rattle.tile_place.specs.Refused.{Visits};
ghost use Rattle.tile_place.specs.Searched.{placed_in};
ghost use Rattle.theory_walks.specs.Ancestors.{full, vertices_of_ancestor, values_in};
ghost use Rattle.lazy_walk.specs.Ancestors.{IsAncestorIn};
ghost use Rattle.theory_walks.specs.Containing.{FrameHolds, IsOnlyHolder, first_refused_outward};
ghost use Rattle.theory_walks.specs.Frames.{at_depth, IsFrameOf, GrowsTo};
ghost use Rattle.lazy_walk.specs.Contained.{IsContained, IsRefusedOutward};
ghost use Rattle.lazy_walk.specs.Standing.{Stands};

use crate::ancestor::Ancestor;
use crate::frame::Frame;
use cyclo_points::point::Point;
use cyclo_points::points_law;
use plane_geom::polygons::member;
use theory_dissection::laws::dissection_law;
use theory_frames::laws::{ancestor_law, found_tile_law};
use tile_place::coord_limit::CoordLimit;
use tile_place::locate_fault::LocateFault;
use tile_place::machine::Machine;
use tile_place::placed_tile::PlacedTile;

impl Frame {
    /// Finds the only tile of the frame that holds a point, and its motion. The frame grows to the least
    /// depth at which its supertile holds the point, and not below its present depth.
    ///
    /// Coefficients of the point may be up to 2^22 in absolute value.
    ///
    /// The search goes outward from the base, ancestor by ancestor, until one holds the point, and then down
    /// to the tile. At each level it computes the power of the inflation factor, then the ancestor's shift,
    /// then its vertices.
    ///
    /// # Errors
    ///
    /// `CoordLimit` if and only if one of these values has a coefficient above 2^24 in absolute value. It has
    /// the first such value in the order of the search.
    pub fn contain(&mut self, machine: &Machine, point: &Point) -> Result<PlacedTile, CoordLimit>
        requires frame { IsFrameOf (tiling_of machine.now) self.old }
        requires point_within { IsWithin (2 ^ 22) point.now }

        ensures frame { GrowsTo (tiling_of machine.now) self.old self.new }

        // In the plane: this is the only tile of the frame, at its new depth, that holds the point, and its
        // motion is the only one of its address there.
        ensures only_tile { IfOk result (λ tile. IsOnlyHolder (tiling_of machine.now) self.new
            (point_in machine.now.order point.now) (placed_in machine.now.order tile)) }
        ensures stands { IfOk result (λ tile. Stands (tiling_of machine.now) self.new tile) }
        ensures shift_within { IfOk result (λ tile. IsWithin (2 ^ 24) tile.motion.shift) }

        // The new depth is the least, not below the old one, at which the frame holds the point.
        ensures held { OnOk result (FrameHolds (tiling_of machine.now) self.new
            (point_in machine.now.order point.now)) }
        ensures least { (n : ℕ) → length self.old.digits ≤ n → n < length self.new.digits
            → ¬ FrameHolds (tiling_of machine.now) (at_depth (tiling_of machine.now) n self.old)
            (point_in machine.now.order point.now) }

        // It is refused if and only if a value on the way is, with the first such value.
        ensures found_exactly { IsOk result ↔ (first_refused_outward (tiling_of machine.now) self.old
            (point_in machine.now.order point.now) ≡ None) }
        ensures limit { IfErr result (IsRefusedOutward (tiling_of machine.now) self.old
            (point_in machine.now.order point.now)) }
    {
        ancestor_law(machine.checked().order());
        let mut ancestor = Ancestor::base();
        loop {
            if self.is_inside(machine, &ancestor, point)? {
                return self.tile_in(machine, &ancestor, point);
            }
            ancestor = self.next_out(machine, &ancestor)?;
        }
    }

    /// Returns whether an ancestor of the base holds a point.
    ///
    /// # Errors
    ///
    /// The first vertex of the ancestor that is refused.
    fn is_inside(
        &self,
        machine: &Machine,
        ancestor: &Ancestor,
        point: &Point,
    ) -> Result<bool, CoordLimit>
        requires ancestor { IsAncestorIn (tiling_of machine.now) self.now ancestor.now }
        requires point_within { IsWithin (2 ^ 22) point.now }
        ensures holds { IfOk result (λ holds. ancestor_holds (points_of machine.now.order)
            (rule_of machine.now) (full (tiling_of machine.now) self.now) ancestor.now.level
            (point_in machine.now.order point.now) ≡ holds) }
        ensures visits { Visits machine.now.order (vertices_of_ancestor (tiling_of machine.now)
            (full (tiling_of machine.now) self.now) ancestor.now.level) result }
    {
        let order = machine.checked().order();
        let kind = self.kind_of(machine, ancestor.level);
        let corners = machine.outline(kind, &ancestor.power, &ancestor.motion)?;
        Ok(member(order, corners.as_slice(), point))
    }

    /// Returns the tile that holds a point in an ancestor of the base that holds it, as a tile of the frame.
    fn tile_in(
        &self,
        machine: &Machine,
        ancestor: &Ancestor,
        point: &Point,
    ) -> Result<PlacedTile, CoordLimit>
        requires ancestor { IsAncestorIn (tiling_of machine.now) self.now ancestor.now }
        requires point_within { IsWithin (2 ^ 22) point.now }
        requires holds { ancestor_holds (points_of machine.now.order) (rule_of machine.now)
            (full (tiling_of machine.now) self.now) ancestor.now.level
            (point_in machine.now.order point.now) ≡ true }
        ensures contained { IfOk result (IsContained (tiling_of machine.now) self.now
            (point_in machine.now.order point.now)) }
        ensures visits { Visits machine.now.order (values_in (tiling_of machine.now)
            (full (tiling_of machine.now) self.now) (point_in machine.now.order point.now)
            ancestor.now.level) result }
    {
        let order = machine.checked().order();
        points_law(order);
        dissection_law(order);
        found_tile_law(order);
        let kind = self.kind_of(machine, ancestor.level);
        match machine.locate(kind, ancestor.level, &ancestor.motion, point) {
            Ok(mut tile) => {
                self.raise(&mut tile.addr);
                Ok(tile)
            }
            Err(LocateFault::CoordLimit { value }) => Err(CoordLimit { value }),
            Err(LocateFault::NotInside) => unreachable!(),
        }
    }
}
