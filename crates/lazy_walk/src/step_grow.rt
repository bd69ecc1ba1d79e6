//! From tile to tile of a frame that grows, each in its place.
ghost use Rattle.std.specs.Prelude.{◌↔◌, ◌<◌, ◌≤◌, ℕ, length, IsErr, IfOk, IfErr, OnErr};
ghost use Rattle.rule_model.specs.Tiling.{tiling_of};
ghost use Rattle.tile_place.specs.Crossed.{edges_of};
ghost use Rattle.tile_shape.specs.Views.{address_of};
ghost use Rattle.theory_walks.specs.Boundary.{IsBoundaryEdge};
ghost use Rattle.lazy_walk.specs.Crossed.{IsToCross, IsCrossedTo, IsLimitAt, IsLiftedTo64};
ghost use Rattle.theory_walks.specs.Frames.{IsFrameOf, GrowsTo, lifted_at};

use crate::depth_limit::DepthLimit;
use crate::frame::Frame;
use edge_tables::steps::Steps;
use seeded_growth::laws::grown_fits_law;
use std::sync::ledger::Ledger;
use tile_place::machine::Machine;
use tile_place::placed_tile::PlacedTile;

impl Frame {
    /// Crosses an edge of a placed tile, and lets the frame grow until that edge is not on the boundary. The
    /// tile becomes the one across, placed at that depth, and the edge that leads back is returned. The tile
    /// may have the digits of any depth that the frame has had.
    ///
    /// # Errors
    ///
    /// `DepthLimit` if and only if the edge is on the boundary at depth 64. The tile is then the old one,
    /// lifted to that depth, in its old place.
    pub fn step_grow<L: Ledger>(
        &mut self,
        machine: &Machine,
        tile: &mut PlacedTile,
        edge: u8,
        steps: &mut Steps<L>,
    ) -> Result<u8, DepthLimit>
        requires frame { IsFrameOf (tiling_of machine.now) self.old }
        requires tile { IsToCross (tiling_of machine.now) self.old tile.old }
        requires edge_exists { edge < edges_of (tiling_of machine.now) tile.old.addr.kind }
        ensures frame { GrowsTo (tiling_of machine.now) self.old self.new }
        ensures crossed { IfOk result (λ back. IsCrossedTo (tiling_of machine.now) self.old self.new
            (address_of tile.old.addr) tile.old.motion edge tile.new back) }
        ensures least { (n : ℕ) → length self.old.digits ≤ n → n < length self.new.digits
            → IsBoundaryEdge (tiling_of machine.now)
            (lifted_at (tiling_of machine.now) self.old (address_of tile.old.addr) n) edge }
        ensures limit_exactly { IsErr result ↔ IsBoundaryEdge (tiling_of machine.now)
            (lifted_at (tiling_of machine.now) self.old (address_of tile.old.addr) 64) edge }
        ensures limit { IfErr result (IsLimitAt (tiling_of machine.now) self.old self.new
            (address_of tile.old.addr) edge) }
        ensures kept_at_limit { OnErr result (IsLiftedTo64 (tiling_of machine.now) self.old tile.old
            tile.new) }
    {
        let checked = machine.checked();
        grown_fits_law();
        machine.gluing_law();
        let _usable = checked.uses().kinds();
        let back = self.cross_grow_in_place(machine, &mut tile.addr, edge, steps)?;
        tile.motion = machine.motion_across(&tile.motion, tile.kind, edge, tile.addr.kind, back);
        tile.kind = tile.addr.kind;
        Ok(back)
    }
}
