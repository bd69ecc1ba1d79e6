//! The tile of a supertile that holds a point.
ghost use Rattle.std.specs.Prelude.{◌≡◌, ◌↔◌, ◌^◌, None, Some, Err, IsOk, IfOk, IfErr};
ghost use Rattle.theory_substitution.specs.Motion.{followed};
ghost use Rattle.theory_substitution.specs.Placement.{placement};
ghost use Rattle.theory_frames.specs.Descent.{tile_holding};
ghost use Rattle.cyclo_points.specs.Order.{points_of};
ghost use Rattle.cyclo_points.specs.Point.{point_in, IsWithin};
ghost use Rattle.cyclo_points.specs.Motion.{motion_in};
ghost use Rattle.rule_model.specs.Tiling.{tiling_of};
ghost use Rattle.rule_model.specs.Views.{rule_of};
ghost use Rattle.tile_shape.specs.Views.{address_of};
ghost use Rattle.tile_place.specs.declared.locate_fault.LocateFault.TheVariants.{NotInside};
ghost use Rattle.tile_place.specs.Located.{HasSupertile, IsOfSupertile, IsOnlyTileHolding, HasInside, first_refused_looked_at, IsCauseOf};
ghost use Rattle.tile_place.specs.Motions.{IsMotionOf};
ghost use Rattle.tile_place.specs.Searched.{placed_in};

use crate::locate_fault::LocateFault;
use crate::machine::Machine;
use crate::moved_supertile::MovedSupertile;
use crate::placed_tile::PlacedTile;
use cyclo_points::motion::Motion;
use cyclo_points::point::Point;
use cyclo_points::{placement_law, points_law};
use theory_dissection::laws::dissection_law;

impl Machine {
    /// Finds the only tile that holds a point, in the supertile of this kind and depth, moved by `at`. The
    /// result has the tile's address in that supertile, and its motion there followed by `at`.
    ///
    /// The call computes values in this order:
    ///
    /// 1. the powers of the inflation factor, up to the depth;
    /// 2. the supertile's vertices;
    /// 3. if the supertile holds the point: level by level down to the tile, the shift and then the vertices
    ///    of each child.
    ///
    /// # Errors
    ///
    /// - `CoordLimit`: one of these values has a coefficient above 2^24 in absolute value. It has the first
    ///   such value.
    /// - `NotInside`: no value is refused, and the supertile does not hold the point.
    pub fn locate(
        &self,
        kind: u8,
        depth: u8,
        at: &Motion,
        point: &Point,
    ) -> Result<PlacedTile, LocateFault>
        requires supertile { HasSupertile (tiling_of self.now) kind depth }
        requires moves { IsMotionOf self.now.order (2 ^ 24) at.now }
        requires point_within { IsWithin (2 ^ 24) point.now }

        // In the plane: this is the only tile that holds the point.
        ensures only_tile { IfOk result (λ tile. IsOnlyTileHolding (tiling_of self.now) kind depth
            (motion_in self.now.order at.now)
            (point_in self.now.order point.now) (placed_in self.now.order tile)) }
        ensures of_supertile { IfOk result (IsOfSupertile (tiling_of self.now) depth) }
        ensures its_motion { IfOk result (λ tile. motion_in self.now.order tile.motion ≡ followed
            (points_of self.now.order)
            (placement (points_of self.now.order) (rule_of self.now) (address_of tile.addr).digits)
            (motion_in self.now.order at.now)) }
        ensures not_inside { (result ≡ Err NotInside)
            ↔ ((first_refused_looked_at (tiling_of self.now) kind depth (motion_in self.now.order at.now)
            (point_in self.now.order point.now) ≡ None)
            × (¬ HasInside (tiling_of self.now) kind depth (motion_in self.now.order at.now)
            (point_in self.now.order point.now))) }
        ensures found_exactly { IsOk result ↔ ((first_refused_looked_at (tiling_of self.now) kind depth
            (motion_in self.now.order at.now)
            (point_in self.now.order point.now) ≡ None)
            × HasInside (tiling_of self.now) kind depth (motion_in self.now.order at.now)
            (point_in self.now.order point.now)) }
        ensures fault { IfErr result (IsCauseOf (tiling_of self.now) kind depth
            (motion_in self.now.order at.now) (point_in self.now.order point.now)) }

        // As the definition of the descent computes it.
        ensures by_descent { IfOk result (λ tile. tile_holding (points_of self.now.order) (rule_of self.now)
            kind depth
            (motion_in self.now.order at.now) (point_in self.now.order point.now) ≡ Some
            (placed_in self.now.order tile)) }
    {
        let order = self.checked().order();
        points_law(order);
        placement_law(order);
        dissection_law(order);
        self.search(&MovedSupertile { kind, depth, at }, point)
    }
}
