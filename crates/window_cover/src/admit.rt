//! Adds a new tile.
ghost use Rattle.std.specs.Prelude.{◌≡◌, ◌<◌, List, length, map, IfErr, OnOk};
ghost use Rattle.cyclo_points.specs.declared.point.Point.{Point};
ghost use Rattle.cyclo_points.specs.Order.{points_of};
ghost use Rattle.cyclo_points.specs.Point.{IsOf};
ghost use Rattle.rule_model.specs.Tiling.{tiling_of};
ghost use Rattle.rule_model.specs.Views.{rule_of};
ghost use Rattle.tile_place.specs.Corners.{AreCorners};
ghost use Rattle.window_cover.specs.Windows.{IsWindow};
ghost use Rattle.window_cover.specs.NewEdges.{AreNew};
ghost use Rattle.window_cover.specs.Admitted.{IsAdmitted, IsNotAdmitted};
ghost use Rattle.window_cover.specs.Packed.{packed, unpacked};
ghost use Rattle.window_cover.specs.Working.{working};

use crate::cover::Cover;
use crate::cover_fault::CoverFault;
use crate::found_tile::FoundTile;
use crate::new_edges::meet_edges;
use cyclo_points::arithmetic::refused;
use tile_place::machine::Machine;
use tile_place::placed_tile::PlacedTile;

/// The greatest number of tiles that a window may have.
pub(crate) const MOST_TILES: usize = 200000;

impl Cover {
    /// Adds a new tile. Err if its shift is refused, if the window then has too many tiles, or if memory runs
    /// out.
    pub(crate) fn admit(&mut self, machine: &Machine, tile: &PlacedTile) -> Result<(), CoverFault>
        requires exists { tile.now.kind < length (rule_of machine.now).kinds }
        requires turn_below { tile.now.motion.turn < (points_of machine.now.order).order }
        requires in_order { IsOf machine.now.order tile.now.motion.shift }
        requires window { IsWindow self.old.window }
        requires new { (corners : List Point) → AreCorners (tiling_of machine.now) tile.now.kind
            tile.now.motion corners → AreNew corners (working self.old).border }
        ensures admitted { OnOk result (IsAdmitted (tiling_of machine.now) (working self.old)
            (working self.new) tile.now) }
        ensures same_ends { OnOk result (self.new.border ≡ map unpacked (map packed self.new.border)) }
        ensures cause { IfErr result (λ fault. IsNotAdmitted (tiling_of machine.now) (working self.old)
            tile.now fault) }
    {
        if refused(&tile.motion.shift) {
            return Err(CoverFault::CoordLimit {
                value: tile.motion.shift,
            });
        }
        let number = self.found.len();
        if number >= MOST_TILES {
            return Err(CoverFault::TooManyTiles);
        }
        let first = self.digits.len();
        self.digits.extend_from_slice(tile.addr.digits.as_slice())?;
        self.found.push(FoundTile {
            motion: tile.motion,
            first,
            kind: tile.kind,
            depth: tile.addr.depth(),
        })?;
        let order = machine.checked().order();
        machine.put_corners(tile.kind, &tile.motion, &mut self.corners);
        meet_edges(
            &mut self.border,
            order,
            &self.window,
            self.corners.as_slice(),
            number as u32,
        )?;
        Ok(())
    }
}
