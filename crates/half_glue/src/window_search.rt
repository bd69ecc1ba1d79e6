//! Finds the other halves of tiles of a window.
ghost use Rattle.std.specs.Prelude.{◌^◌, IfSome};
ghost use Rattle.rule_model.specs.Tiling.{tiling_of};
ghost use Rattle.tile_place.specs.Motions.{IsMotionOf};
ghost use Rattle.half_glue.specs.Ends.{Finds};
ghost use Rattle.half_glue.specs.Found.{StandsAmong};
ghost use Rattle.half_glue.specs.Given.{IsToFind};
ghost use Rattle.half_glue.specs.Searches.{IsWindowSearch};
ghost use Rattle.half_glue.specs.Sides.{IsOtherSide};

use crate::glue_fault::GlueFault;
use crate::glue_laws::glue_laws;
use crate::glue_side::GlueSide;
use crate::guesses::{Guesses, shape_of};
use crate::half::{Found, crossed_half};
use cyclo_points::arithmetic::refused;
use cyclo_points::motion::Motion;
use cyclo_points::movement::compose;
use lazy_walk::frame::Frame;
use tile_place::machine::Machine;
use window_cover::covered_tiles::CoveredTiles;

/// The tiles of a window, among which other halves are looked up.
#[derive(Clone, Copy)]
pub(crate) struct WindowSearch<'a> {
    pub(crate) machine: &'a Machine,
    /// The glue edge of each kind that has one.
    pub(crate) sides: &'a [Option<GlueSide>],
    pub(crate) tiles: &'a CoveredTiles,
}

impl<'a> WindowSearch<'a> {
    /// Finds the other half of a tile of a window. It looks it up among the tiles, and crosses the glue edge
    /// if it is not one of them. The frame grows until the glue edge is not on the boundary.
    pub(crate) fn other_half(
        &self,
        frame: &mut Frame,
        guesses: &mut Guesses,
        place: usize,
    ) -> Result<Found, GlueFault>
        requires sought { IsWindowSearch self.now }
        requires to_find { IsToFind (tiling_of self.now.machine.now) frame.old self.now.tiles.now place }
        ensures { Finds (tiling_of self.now.machine.now) frame.old frame.new self.now.tiles.now place result }
    {
        glue_laws(self.machine);
        let kind = self.tiles.kind(place);
        let side = match self.sides[usize::from(kind)] {
            Some(side) => side,
            None => return Ok(Found::Alone),
        };
        let motion = self.tiles.motion(place);
        if let Some(other) = self.half_among(guesses, &side, &motion, kind) {
            return Ok(Found::Given(other));
        }
        let tile = self.tiles.tile(place);
        crossed_half(self.machine, frame, &tile, side.edge)
    }

    /// Returns the number of the tile across the glue edge of a tile with this motion and kind, if it is a
    /// tile of the window.
    pub(crate) fn half_among(
        &self,
        guesses: &mut Guesses,
        side: &GlueSide,
        own: &Motion,
        kind: u8,
    ) -> Option<u32>
        requires sought { IsWindowSearch self.now }
        requires other { IfSome side.now.other (IsOtherSide (tiling_of self.now.machine.now) kind
            side.now.edge) }
        requires motion { IsMotionOf self.now.machine.now.order (2 ^ 24) own.now }
        ensures { IfSome result (StandsAmong self.now.machine.now.order side.now.other own.now
            self.now.tiles.now) }
    {
        let order = self.machine.checked().order();
        let other = side.other?;
        let motion = compose(order, own, &other.glue);
        if refused(&motion.shift) {
            return None;
        }
        let place = guesses.number_of(self.tiles, shape_of(own, kind), &motion, other.kind)?;
        Some(place as u32)
    }
}
