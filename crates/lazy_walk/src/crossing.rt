//! Crossing edges in a frame that grows.
ghost use Rattle.std.specs.Prelude.{◌≡◌, ◌↔◌, ◌<◌, ◌≤◌, ℕ, length, IsErr, IfOk, IfErr, OnErr};
ghost use Rattle.theory_frames.specs.Frame.{IsTileOf};
ghost use Rattle.rule_model.specs.Tiling.{tiling_of, children};
ghost use Rattle.tile_place.specs.Crossed.{edges_of};
ghost use Rattle.tile_shape.specs.Views.{address_of};
ghost use Rattle.theory_walks.specs.Boundary.{IsBoundaryEdge};
ghost use Rattle.theory_walks.specs.Frames.{whole, IsFrameOf, GrowsTo, lifted_at};
ghost use Rattle.lazy_walk.specs.Crossed.{IsCrossingIn, IsLimitAt};

use crate::depth_limit::DepthLimit;
use crate::frame::Frame;
use edge_tables::steps::Steps;
use seeded_growth::laws::grown_fits_law;
use std::sync::ledger::Ledger;
use theory_dissection::laws::boundary_law;
use tile_place::machine::Machine;
use tile_shape::address::Address;
use transducer_core::crossing::Crossing;

impl Frame {
    /// Finds the tile across an edge of a tile of the frame, and the edge that leads back. The frame grows to
    /// the least depth at which the edge is not on the boundary. The tile may have the digits of any depth
    /// that the frame has had; the result has those of the new depth.
    ///
    /// # Errors
    ///
    /// `DepthLimit` if and only if the edge is on the boundary at depth 64.
    pub fn cross_grow<L: Ledger>(
        &mut self,
        machine: &Machine,
        tile: &Address,
        edge: u8,
        steps: &mut Steps<L>,
    ) -> Result<Crossing, DepthLimit>
        requires frame { IsFrameOf (tiling_of machine.now) self.old }
        requires of_frame { IsTileOf (children (tiling_of machine.now)) (whole self.old)
            (address_of tile.now) }
        requires edge_exists { edge < edges_of (tiling_of machine.now) tile.now.kind }

        ensures frame { GrowsTo (tiling_of machine.now) self.old self.new }

        // The only tile across the edge of the lifted tile, by the contact tables and in the plane. It is of
        // the frame, at the new depth, and it leads back.
        ensures crossed { IfOk result (λ x. IsCrossingIn (tiling_of machine.now) self.new
            (address_of tile.now) edge (address_of x.addr) x.edge) }

        // The new depth is the least, not below the old one, at which the edge is not on the boundary.
        // DepthLimit comes if and only if the edge is on the boundary at depth 64.
        ensures least { (n : ℕ) → length self.old.digits ≤ n → n < length self.new.digits
            → IsBoundaryEdge (tiling_of machine.now)
            (lifted_at (tiling_of machine.now) self.old (address_of tile.now) n) edge }
        ensures limit_exactly { IsErr result ↔ IsBoundaryEdge (tiling_of machine.now)
            (lifted_at (tiling_of machine.now) self.old (address_of tile.now) 64) edge }
        ensures limit { IfErr result (IsLimitAt (tiling_of machine.now) self.old self.new
            (address_of tile.now) edge) }
    {
        let mut across = tile.copy();
        match self.cross_grow_in_place(machine, &mut across, edge, steps) {
            Ok(back) => Ok(Crossing {
                addr: across,
                edge: back,
            }),
            Err(limit) => Err(limit),
        }
    }

    /// Like [`cross_grow`](Self::cross_grow), but in place: the tile becomes the one across, and the edge
    /// that leads back is returned. On `DepthLimit` the tile is the old one, lifted to depth 64.
    pub fn cross_grow_in_place<L: Ledger>(
        &mut self,
        machine: &Machine,
        tile: &mut Address,
        edge: u8,
        steps: &mut Steps<L>,
    ) -> Result<u8, DepthLimit>
        requires frame { IsFrameOf (tiling_of machine.now) self.old }
        requires of_frame { IsTileOf (children (tiling_of machine.now)) (whole self.old)
            (address_of tile.old) }
        requires edge_exists { edge < edges_of (tiling_of machine.now) tile.old.kind }

        ensures frame { GrowsTo (tiling_of machine.now) self.old self.new }

        ensures crossed { IfOk result (IsCrossingIn (tiling_of machine.now) self.new
            (address_of tile.old) edge (address_of tile.new)) }
        ensures least { (n : ℕ) → length self.old.digits ≤ n → n < length self.new.digits
            → IsBoundaryEdge (tiling_of machine.now)
            (lifted_at (tiling_of machine.now) self.old (address_of tile.old) n) edge }
        ensures limit_exactly { IsErr result ↔ IsBoundaryEdge (tiling_of machine.now)
            (lifted_at (tiling_of machine.now) self.old (address_of tile.old) 64) edge }
        ensures limit { IfErr result (IsLimitAt (tiling_of machine.now) self.old self.new
            (address_of tile.old) edge) }
        ensures lifted_at_limit { OnErr result (address_of tile.new ≡ lifted_at (tiling_of machine.now)
            self.old (address_of tile.old) 64) }
    {
        grown_fits_law();
        let checked = machine.checked();
        boundary_law(checked.order());
        let _usable = checked.uses().kinds();
        self.raise(tile);
        loop {
            if let Ok(back) = machine.cross_in_place(tile, edge, steps) {
                return Ok(back);
            }
            match self.grow(machine) {
                Ok(()) => self.raise(tile),
                Err(_) => {
                    return Err(DepthLimit {
                        addr: tile.copy(),
                        edge,
                    });
                }
            }
        }
    }
}
