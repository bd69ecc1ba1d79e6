//! From tile to tile of a frame, each in its place.
ghost use Rattle.std.specs.Prelude.{◌≡◌, ◌+◌, ◌<◌, ◌≤◌, ◌^◌, ℕ, Err, IfOk, IfErr, OnErr};
ghost use Rattle.cyclo_points.specs.Point.{IsWithin};
ghost use Rattle.rule_model.specs.Tiling.{tiling_of};
ghost use Rattle.tile_place.specs.Crossed.{edges_of, IsOnlyAcross, LiesOnBoundary};
ghost use Rattle.tile_shape.specs.Views.{address_of};
ghost use Rattle.theory_walks.specs.Frames.{whole, IsFrameOf};
ghost use Rattle.lazy_walk.specs.Standing.{Stands};

use crate::frame::Frame;
use cyclo_points::motion::Motion;
use cyclo_points::point::Point;
use cyclo_points::points_law;
use edge_tables::steps::Steps;
use seeded_growth::laws::grown_fits_law;
use std::sync::ledger::Ledger;
use tile_place::machine::Machine;
use tile_place::placed_tile::PlacedTile;
use transducer_core::outside::Outside;

impl Frame {
    /// Returns the base in its place, which is that of its prototile.
    pub fn base_tile(&self, machine: &Machine) -> PlacedTile
        requires frame { IsFrameOf (tiling_of machine.now) self.now }
        ensures base { address_of result.addr ≡ whole self.now }
        ensures stands { Stands (tiling_of machine.now) self.now result }
        ensures at_origin { IsWithin 0 result.motion.shift }
    {
        grown_fits_law();
        let checked = machine.checked();
        points_law(checked.order());
        let _usable = checked.uses().kinds();
        PlacedTile {
            kind: self.base().kind,
            motion: Motion {
                turn: 0,
                shift: Point { c: [0; 4] },
            },
            addr: self.lift(&self.base()),
        }
    }

    /// Crosses an edge of a placed tile within the frame as it is: the tile becomes the one across, placed
    /// too, and the edge that leads back is returned. Its motion is the one that glues the two edges,
    /// followed by the motion of the tile before.
    ///
    /// # Errors
    ///
    /// `Outside` if and only if the edge is on the boundary of the frame's supertile; then nothing changes.
    pub fn step<L: Ledger>(
        &self,
        machine: &Machine,
        tile: &mut PlacedTile,
        edge: u8,
        steps: &mut Steps<L>,
    ) -> Result<u8, Outside>
        requires frame { IsFrameOf (tiling_of machine.now) self.now }
        requires stands { Stands (tiling_of machine.now) self.now tile.old }
        requires edge_exists { edge < edges_of (tiling_of machine.now) tile.old.addr.kind }
        requires within { IsWithin (2 ^ 24) tile.old.motion.shift }
        ensures only_tile_across { IfOk result (λ back. IsOnlyAcross (tiling_of machine.now)
            (address_of tile.old.addr) edge (address_of tile.new.addr) back) }
        ensures stands { Stands (tiling_of machine.now) self.now tile.new }
        ensures within { (k : ℕ) → IsWithin k tile.old.motion.shift
            → IsWithin (k + 512) tile.new.motion.shift }
        ensures outside_on_boundary { IfErr result
            (λ o. LiesOnBoundary (tiling_of machine.now) (address_of tile.old.addr) edge o.edge o.part) }
        ensures boundary_is_outside { (own part : ℕ)
            → LiesOnBoundary (tiling_of machine.now) (address_of tile.old.addr) edge own part
            → result ≡ Err (record { edge = own; part = part }) }
        ensures unchanged { OnErr result (tile.new ≡ tile.old) }
    {
        grown_fits_law();
        let checked = machine.checked();
        points_law(checked.order());
        machine.gluing_law();
        let _usable = checked.uses().kinds();
        let back = machine.cross_in_place(&mut tile.addr, edge, steps)?;
        tile.motion = machine.motion_across(&tile.motion, tile.kind, edge, tile.addr.kind, back);
        tile.kind = tile.addr.kind;
        Ok(back)
    }
}
