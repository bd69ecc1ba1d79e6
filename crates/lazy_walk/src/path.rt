//! Paths in a frame that grows.
ghost use Rattle.std.specs.Prelude.{◌≡◌, ◌<◌, ◌≤◌, ℕ, length, IfOk, IfErr};
ghost use Rattle.rule_model.specs.Tiling.{tiling_of};
ghost use Rattle.theory_walks.specs.Frames.{whole, at_depth, IsFrameOf, GrowsTo};
ghost use Rattle.theory_walks.specs.Paths.{CanBeWalked, IsStopped};
ghost use Rattle.lazy_walk.specs.Faults.{IsPathFault};

use crate::frame::Frame;
use crate::path_fault::PathFault;
use edge_tables::steps::Steps;
use seeded_growth::laws::grown_fits_law;
use std::sync::ledger::Ledger;
use theory_dissection::laws::{across_law, boundary_law};
use tile_place::machine::Machine;

impl Frame {
    /// Crosses the edges of a path, from the base, each from the tile reached. The frame grows as far as that
    /// needs.
    ///
    /// # Errors
    ///
    /// For the first edge of the path that fails: `NoEdge` if the tile reached does not have it, `DepthLimit`
    /// if it is on the boundary at depth 64.
    pub fn grow_along<L: Ledger>(
        &mut self,
        machine: &Machine,
        path: &[u8],
        steps: &mut Steps<L>,
    ) -> Result<(), PathFault>
        requires frame { IsFrameOf (tiling_of machine.now) self.old }
        ensures frame { GrowsTo (tiling_of machine.now) self.old self.new }

        // The path can be walked at the new depth, which is the least such depth, not below the old one.
        ensures walked { IfOk result (λ _. CanBeWalked (tiling_of machine.now) (whole self.new) path.now) }
        ensures least { (n : ℕ) → length self.old.digits ≤ n → n < length self.new.digits
            → IsStopped (tiling_of machine.now) (whole (at_depth (tiling_of machine.now) n self.old))
            path.now }

        // It can then be walked at depth 64 too. A fault is one at the new depth and at 64.
        ensures fault { IfErr result (IsPathFault (tiling_of machine.now) (whole self.new) path.now) }
        ensures walked_at_64 { IfOk result (λ _. CanBeWalked (tiling_of machine.now)
            (whole (at_depth (tiling_of machine.now) 64 self.old)) path.now) }
        ensures fault_at_64 { IfErr result (IsPathFault (tiling_of machine.now)
            (whole (at_depth (tiling_of machine.now) 64 self.old)) path.now) }
    {
        grown_fits_law();
        let checked = machine.checked();
        let order = checked.order();
        across_law(order);
        boundary_law(order);
        let _usable = checked.uses().kinds();
        let mut tile = self.lift(&self.base());
        for edge in path {
            let edges = checked.tables().edges(tile.kind);
            if *edge >= edges {
                return Err(PathFault::NoEdge { edge: *edge, edges });
            }
            if let Err(limit) = self.cross_grow_in_place(machine, &mut tile, *edge, steps) {
                return Err(PathFault::DepthLimit(limit));
            }
        }
        Ok(())
    }
}
