//! Finds the other halves of given tiles.
ghost use Rattle.std.specs.Prelude.{◌^◌, IfSome};
ghost use Rattle.rule_model.specs.Tiling.{tiling_of};
ghost use Rattle.tile_place.specs.Motions.{IsMotionOf};
ghost use Rattle.half_glue.specs.Ends.{Finds};
ghost use Rattle.half_glue.specs.Found.{KeyStandsBeside};
ghost use Rattle.half_glue.specs.Given.{IsToFind};
ghost use Rattle.half_glue.specs.Searches.{IsTileSearch};
ghost use Rattle.half_glue.specs.Sides.{IsOtherSide};

use crate::glue_fault::GlueFault;
use crate::glue_laws::glue_laws;
use crate::glue_side::GlueSide;
use crate::half::{Found, crossed_half};
use crate::look_up::number_of;
use cyclo_points::arithmetic::refused;
use cyclo_points::movement::compose;
use lazy_walk::frame::Frame;
use tile_place::machine::Machine;
use tile_place::order_key::OrderKey;
use tile_place::placed_tile::PlacedTile;

/// Given tiles, among which other halves are looked up.
#[derive(Clone, Copy)]
pub(crate) struct TileSearch<'a> {
    pub(crate) machine: &'a Machine,
    /// The glue edge of each kind that has one.
    pub(crate) sides: &'a [Option<GlueSide>],
    pub(crate) tiles: &'a [PlacedTile],
    /// The keys of the tiles, sorted.
    pub(crate) keys: &'a [OrderKey],
}

impl<'a> TileSearch<'a> {
    /// Finds the other half of a given tile. It looks it up among the given tiles, and crosses the glue edge
    /// if it is not one of them. The frame grows until the glue edge is not on the boundary.
    pub(crate) fn other_half(&self, frame: &mut Frame, place: usize) -> Result<Found, GlueFault>
        requires sought { IsTileSearch self.now }
        requires to_find { IsToFind (tiling_of self.now.machine.now) frame.old self.now.tiles.now place }
        ensures { Finds (tiling_of self.now.machine.now) frame.old frame.new self.now.tiles.now place result }
    {
        glue_laws(self.machine);
        let tile = &self.tiles[place];
        let side = match self.sides[usize::from(tile.kind)] {
            Some(side) => side,
            None => return Ok(Found::Alone),
        };
        if let Some(other) = self.given_half(&side, tile) {
            return Ok(Found::Given(other));
        }
        crossed_half(self.machine, frame, tile, side.edge)
    }

    /// Returns the number of the given tile across the glue edge of a tile, if there is one.
    fn given_half(&self, side: &GlueSide, tile: &PlacedTile) -> Option<u32>
        requires sought { IsTileSearch self.now }
        requires other { IfSome side.now.other (IsOtherSide (tiling_of self.now.machine.now) tile.now.kind
            side.now.edge) }
        requires motion { IsMotionOf self.now.machine.now.order (2 ^ 24) tile.now.motion }
        ensures { IfSome result (KeyStandsBeside self.now.machine.now.order side.now.other tile.now.motion
            self.now.keys.now) }
    {
        let order = self.machine.checked().order();
        let other = side.other?;
        let motion = compose(order, &tile.motion, &other.glue);
        if refused(&motion.shift) {
            return None;
        }
        number_of(self.keys, &motion, other.kind)
    }
}
